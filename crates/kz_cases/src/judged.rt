//! A line of a table, and what the code answers to it.
ghost use Rattle.std.specs.Prelude.{◌≡◌, IfOk, option_map, string_bytes};
ghost use Rattle.serde_json.specs.View.{view};
ghost use Rattle.kz_cases.specs.Tables.{passes, came_text, difference, IsTextOf, IsTextIfAny, IsJudged, IsOutcome};
ghost use Rattle.kz_cases.specs.Outcomes.{outcome_of};

use kz_body_parts::read_json;
use kz_case_answers::answered;
use kz_types::NoMemory;
use serde_json::Value;
use std::alloc::Global;

/// The outcome of a line: what the line has, and what came of it, both as compact JSON. Nothing came where the line is no
/// case. A line that is no JSON has itself.
#[derive(Drop)]
pub struct Judged {
    pub expected: Vec<u8>,
    pub came: Option<String>,
}

// A value as compact JSON.
fn text_of(alloc: Global, value: &Value) -> Result<Vec<u8>, NoMemory>
    ensures { IfOk result (λ text. IsTextOf (view value.now) text.items) }
{
    Ok(value.to_vec(alloc)?)
}

// The text of a value that may be absent.
fn text_if_any(alloc: Global, value: Option<Value>) -> Result<Option<String>, NoMemory>
    ensures { IfOk result (λ text. IsTextIfAny (option_map view value) (option_map string_bytes text)) }
{
    match value {
        Some(value) => Ok(Some(value.to_string(alloc)?)),
        None => Ok(None),
    }
}

fn judge_case(alloc: Global, case: &Value) -> Result<Judged, NoMemory>
    ensures { IfOk result (λ judged. IsJudged (view case.now) (outcome_of judged)) }
{
    let answer = answered(alloc, case)?;
    let came = text_if_any(alloc, answer)?;
    Ok(Judged {
        expected: text_of(alloc, case)?,
        came,
    })
}

/// Judges a line.
pub fn judge(alloc: Global, line: &[u8]) -> Result<Judged, NoMemory>
    ensures { IfOk result (λ judged. IsOutcome line.now (outcome_of judged)) }
{
    match read_json(alloc, line)? {
        Some(case) => judge_case(alloc, &case),
        None => Ok(Judged {
            expected: line.to_vec(alloc)?,
            came: None,
        }),
    }
}

impl Judged {
    /// Whether the line passes.
    pub fn passes(&self) -> bool
        ensures { result ≡ passes (outcome_of self.now) }
    {
        match &self.came {
            Some(came) => came.as_bytes() == self.expected.as_slice(),
            None => false,
        }
    }

    // What came, or that the line is no case.
    fn came_text(&self) -> &str
        ensures { result.now ≡ came_text (option_map string_bytes self.now.came) }
    {
        match &self.came {
            Some(came) => came.as_str(),
            None => "no case",
        }
    }

    /// What is printed of a line that fails, with its number.
    pub fn difference(&self, alloc: Global, number: u64) -> Result<Vec<u8>, NoMemory>
        ensures { IfOk result (λ text. text.items ≡ difference number (outcome_of self.now)) }
    {
        let came = self.came_text();
        let first = format!(in alloc; "{number} expected ")?;
        let second = format!(in alloc; "\n{number} came {came}\n")?;
        let mut text = first.as_bytes().to_vec(alloc)?;
        text.extend_from_slice(&self.expected)?;
        text.extend_from_slice(second.as_bytes())?;
        Ok(text)
    }
}
