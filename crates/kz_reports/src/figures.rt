//! The figures of a tree and a log.
ghost use Rattle.std.specs.Prelude.{◌≡◌, IfOk, option_map};
ghost use Rattle.kz_types.specs.declared.machine.Recorded.{Recorded as RecordedValue};
ghost use Rattle.kz_spec_data.specs.Tree.{migration_record};
ghost use Rattle.kz_spec_machine.specs.Dumps.{figures_of};

use kz_dump::Figures;
use kz_log::LogRows;
use kz_tree::Tree;
use kz_types::NoMemory;
use std::alloc::Global;

// The offset that a tree records, if it records one.
fn recorded_offset(tree: &Tree) -> Result<Option<i64>, NoMemory>
    ensures { IfOk result (λ offset. offset ≡ option_map (λ (r : RecordedValue). r.offset) (migration_record tree.now)) }
{
    match tree.recorded()? {
        Some(recorded) => Ok(Some(recorded.offset)),
        None => Ok(None),
    }
}

/// The figures of a tree and a log.
pub(crate) fn figures(alloc: Global, tree: &Tree, log: &LogRows) -> Result<Figures, NoMemory>
    ensures { IfOk result (λ figures. figures ≡ figures_of tree.now log.now) }
{
    let image = log.image_at(alloc, log.end())?;
    Ok(Figures {
        zxid: tree.last_zxid(),
        znodes: tree.count(),
        epoch: log.epoch(),
        base: log.base(),
        end: log.end(),
        migration: image.state(),
        recorded: recorded_offset(tree)?,
    })
}
