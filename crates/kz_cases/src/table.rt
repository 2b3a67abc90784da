//! A table of cases, judged line by line.
ghost use Rattle.std.specs.Prelude.{◌≡◌, IfOk, OnOk};
ghost use Rattle.std.specs.Io.KnownBytes.{Appends};
ghost use Rattle.kz_cases.specs.Tables.{Outcome, passes, told, summary, IsOutcome, IsReported};

use crate::judged::judge;
use kz_types::NoMemory;
use std::alloc::{AllocError, Global};
use std::io::{self, BufRead, Write};

/// Reading, writing or memory failed.
#[derive(Drop)]
pub struct Stopped;

impl From<io::Error> for Stopped {
    fn from(_error: io::Error) -> Self {
        Stopped
    }
}

impl From<AllocError> for Stopped {
    fn from(_error: AllocError) -> Self {
        Stopped
    }
}

impl From<NoMemory> for Stopped {
    fn from(_error: NoMemory) -> Self {
        Stopped
    }
}

// Judges a line, and writes what is told of it. Whether it passes.
fn judge_line<W: Write>(
    alloc: Global,
    number: u64,
    line: &[u8],
    out: &mut W,
) -> Result<bool, Stopped>
    ensures { IfOk result (λ passed. (o : Outcome) × IsOutcome line.now o × Appends (W.contents out.old) (W.contents out.new) (told number o) × (passed ≡ passes o)) }
{
    let judged = judge(alloc, line)?;
    if judged.passes() {
        return Ok(true);
    }
    let text = judged.difference(alloc, number)?;
    out.write_all(&text)?;
    Ok(false)
}

// Writes how many lines passed and failed.
fn write_summary<W: Write>(
    alloc: Global,
    passed: u64,
    failed: u64,
    out: &mut W,
) -> Result<(), Stopped>
    ensures { OnOk result (Appends (W.contents out.old) (W.contents out.new) (summary passed failed)) }
{
    let text = format!(in alloc; "{passed} passed, {failed} failed\n")?;
    out.write_all(text.as_bytes())?;
    Ok(())
}

/// Judges each line of a table, in order. Writes the lines that fail, each with its number, and at the end how many lines
/// passed and failed. How many failed.
///
/// `Stopped`: a front of this is written.
pub fn judge_table<R: BufRead + Drop, W: Write>(
    alloc: Global,
    table: R,
    out: &mut W,
) -> Result<u64, Stopped>
    ensures { IfOk result (λ failed. IsReported (R.remaining table) (W.contents out.old) (W.contents out.new) failed) }
{
    let mut lines = table.split(alloc, b'\n');
    let mut passed: u64 = 0;
    let mut failed: u64 = 0;
    for number in 1..u64::MAX {
        let Some(line) = lines.next() else {
            write_summary(alloc, passed, failed, out)?;
            return Ok(failed);
        };
        let line = line?;
        if judge_line(alloc, number, &line, out)? {
            passed += 1;
        } else {
            failed += 1;
        }
    }
    Err(Stopped)
}
