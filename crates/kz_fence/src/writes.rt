//! The multi of a write.
ghost use Rattle.std.specs.Prelude.{◌≡◌, ◌++◌, IfOk, OnOk, option_map};
ghost use Rattle.kz_fence.specs.Writes.{recording_ops, ops_of_write};

use kz_paths::{epoch_path, migration_path};
use kz_state::write_migration;
use kz_types::{Duplicate, NoMemory, Op, Recorded, Sequence};
use std::alloc::Global;

// The last write also records the offset.
fn push_record(alloc: Global, ops: &mut Vec<Op>, last: Option<&Recorded>) -> Result<(), NoMemory>
    ensures { OnOk result (ops.new.items ≡ ops.old.items ++ recording_ops (option_map (λ r. r.now) last.entry)) }
{
    if let Some(target) = last {
        ops.push(Op::Set {
            path: migration_path(alloc)?,
            body: Sequence::from_vec(write_migration(alloc, target)?),
            version: -1,
        })?;
    }
    Ok(())
}

/// The multi of a write: the claim, which is the data version of `/controller_epoch`, still stands; these operations; and
/// where they are the last ones, this is recorded.
pub fn write_ops(
    alloc: Global,
    claim: i32,
    ops: &[Op],
    last: Option<&Recorded>,
) -> Result<Vec<Op>, NoMemory>
    ensures { IfOk result (λ made. made.items ≡ ops_of_write claim ops.now (option_map (λ r. r.now) last.entry)) }
{
    let mut made = Vec::new(alloc);
    made.push(Op::Check {
        path: epoch_path(alloc)?,
        version: claim,
    })?;
    for op in ops {
        made.push(op.copy(alloc)?)?;
    }
    push_record(alloc, &mut made, last)?;
    Ok(made)
}
