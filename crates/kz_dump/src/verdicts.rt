//! Lines that tell how a tree and a log agree, and their figures.
ghost use Rattle.std.specs.Prelude.{◌≡◌, ◌++◌, IfOk, OnOk, codes, string_bytes};
ghost use Rattle.std.specs.List.{flat_map};
ghost use Rattle.kz_types.specs.declared.machine.Verdict.TheVariants.{Ahead};
ghost use Rattle.kz_spec_data.specs.Replies.{word_and_count, offset_or_none};
ghost use Rattle.kz_spec_machine.specs.Dumps.{ahead_line, verdict_line, check_lines, number_line, figure_lines};

use crate::quoted::push_quoted;
use kz_spec_machine::Figures;
use kz_types::{AheadPath, NoMemory, Sequence, Verdict};
use std::alloc::Global;

// Adds the line of a path that is ahead.
fn push_ahead(lines: &mut Vec<u8>, alloc: Global, ahead: &AheadPath) -> Result<(), NoMemory>
    ensures { OnOk result (lines.new.items ≡ lines.old.items ++ ahead_line ahead.now) }
{
    let offset = ahead.offset;
    let end = format!(in alloc; " {offset}\n")?;
    push_quoted(lines, ahead.path.bytes())?;
    lines.extend_from_slice(end.as_bytes())?;
    Ok(())
}

// Adds the lines of the paths that are ahead.
fn push_paths(lines: &mut Vec<u8>, alloc: Global, paths: &[AheadPath]) -> Result<(), NoMemory>
    ensures { OnOk result (lines.new.items ≡ lines.old.items ++ flat_map ahead_line paths.now) }
{
    for ahead in paths {
        push_ahead(lines, alloc, ahead)?;
    }
    Ok(())
}

// The lines of a tree that is ahead of a log.
fn ahead_lines(alloc: Global, offset: i64, paths: &Sequence<AheadPath>) -> Result<Vec<u8>, NoMemory>
    ensures { IfOk result (λ lines. lines.items ≡ verdict_line (Ahead offset paths.now) ++ flat_map ahead_line paths.now) }
{
    let count = paths.len();
    let mut lines = format!(in alloc; "ahead {offset} {count}\n")?.into_bytes();
    push_paths(&mut lines, alloc, paths.as_slice())?;
    Ok(lines)
}

/// What a check prints of a verdict: a line, and where the tree is ahead a line for each path that is, with the first later
/// batch end at which it agrees. A path that disagrees prints nothing here: the check ends with it.
///
/// `NoMemory`: memory ran out.
#[tactic(auto, unfolding(kz_spec_machine::specs::Dumps::check_lines))]
pub fn check_lines(alloc: Global, verdict: &Verdict) -> Result<Vec<u8>, NoMemory>
    ensures { IfOk result (λ lines. lines.items ≡ check_lines verdict.now) }
{
    match verdict {
        Verdict::Unmigrated => Ok(format!(in alloc; "unmigrated\n")?.into_bytes()),
        Verdict::Unrecorded => Ok(format!(in alloc; "unrecorded\n")?.into_bytes()),
        Verdict::Closed { offset } => Ok(format!(in alloc; "closed {offset}\n")?.into_bytes()),
        Verdict::Ahead { offset, paths } => ahead_lines(alloc, *offset, paths),
        Verdict::Disagrees { .. } => Ok(Vec::new(alloc)),
    }
}

// An offset, or `none`.
fn offset_or_none(alloc: Global, offset: Option<i64>) -> Result<String, NoMemory>
    ensures { IfOk result (λ made. string_bytes made ≡ offset_or_none offset) }
{
    match offset {
        Some(offset) => Ok(format!(in alloc; "{offset}")?),
        None => Ok(format!(in alloc; "none")?),
    }
}

// A word and a number, as a line.
#[tactic(auto, using(std::proofs::Common::append_assoc))]
fn number_line(alloc: Global, word: &str, number: i64) -> Result<String, NoMemory>
    ensures { IfOk result (λ made. string_bytes made ≡ number_line word.now number) }
{
    Ok(format!(in alloc; "{word} {number}\n")?)
}

// The lines of the migration's figures.
fn migration_lines(alloc: Global, figures: &Figures) -> Result<String, NoMemory>
    ensures { IfOk result (λ made. string_bytes made ≡ number_line (codes "migration") figures.now.migration
        ++ (codes "recorded " ++ (offset_or_none figures.now.recorded ++ codes "\n"))) }
{
    let migration = number_line(alloc, "migration", figures.migration as i64)?;
    let recorded = offset_or_none(alloc, figures.recorded)?;
    Ok(format!(in alloc; "{migration}recorded {recorded}\n")?)
}

// The lines of the log's figures and the migration's.
fn log_lines(alloc: Global, figures: &Figures) -> Result<String, NoMemory>
    ensures { IfOk result (λ made. string_bytes made ≡ number_line (codes "epoch") figures.now.epoch
        ++ (number_line (codes "base") figures.now.base ++ (number_line (codes "end") figures.now.end
        ++ (number_line (codes "migration") figures.now.migration
        ++ (codes "recorded " ++ (offset_or_none figures.now.recorded ++ codes "\n")))))) }
{
    let epoch = number_line(alloc, "epoch", figures.epoch as i64)?;
    let base = number_line(alloc, "base", figures.base)?;
    let end = number_line(alloc, "end", figures.end)?;
    let rest = migration_lines(alloc, figures)?;
    Ok(format!(in alloc; "{epoch}{base}{end}{rest}")?)
}

// How many znodes there are, as a line.
fn znodes_line(alloc: Global, znodes: usize) -> Result<String, NoMemory>
    ensures { IfOk result (λ made. string_bytes made ≡ word_and_count (codes "znodes") znodes ++ codes "\n") }
{
    Ok(format!(in alloc; "znodes {znodes}\n")?)
}

/// The lines of the figures: a word and a number each, and `none` where no offset is recorded.
///
/// `NoMemory`: memory ran out.
#[tactic(auto, unfolding(kz_spec_machine::specs::Dumps::figure_lines))]
pub fn status_lines(alloc: Global, figures: &Figures) -> Result<Vec<u8>, NoMemory>
    ensures { IfOk result (λ lines. lines.items ≡ figure_lines figures.now) }
{
    let zxid = number_line(alloc, "zxid", figures.zxid)?;
    let znodes = znodes_line(alloc, figures.znodes)?;
    let rest = log_lines(alloc, figures)?;
    let text = format!(in alloc; "{zxid}{znodes}{rest}")?;
    Ok(text.into_bytes())
}
