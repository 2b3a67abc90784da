//! The lines that are printed.
ghost use Rattle.std.specs.Prelude.{◌≡◌, ◌++◌, IfOk, OnOk, option_map, string_bytes, true};
ghost use Rattle.std.specs.List.{flat_map};
ghost use Rattle.json.specs.Print.{quoted};
ghost use Rattle.kz_spec_data.specs.Replies.{word_and_text, state_name, body_text, why_text, reply_text, verdict_text, is_client_answer, answer_text, reply_line, reply_lines, offset_or_none, summary_line};

use kz_types::{Answer, BodyFault, DriverState, NoMemory, ReadWhy, Reply, Verdict, ZPath};
use serde_json::Value;
use std::alloc::Global;
use std::fmt::Write;

fn state_name(state: DriverState) -> &'static str
    ensures { result.now ≡ state_name state }
{
    match state {
        DriverState::Uninitialized => "UNINITIALIZED",
        DriverState::Inactive => "INACTIVE",
        DriverState::WaitForControllerQuorum => "WAIT_FOR_CONTROLLER_QUORUM",
        DriverState::WaitForBrokers => "WAIT_FOR_BROKERS",
        DriverState::BecomeController => "BECOME_CONTROLLER",
        DriverState::ZkMigration => "ZK_MIGRATION",
        DriverState::SyncKraftToZk => "SYNC_KRAFT_TO_ZK",
        DriverState::KraftControllerToBrokerComm => "KRAFT_CONTROLLER_TO_BROKER_COMM",
        DriverState::DualWrite => "DUAL_WRITE",
    }
}

/// A text as a JSON string.
pub(crate) fn quoted(alloc: Global, text: &str) -> Result<String, NoMemory>
    ensures { IfOk result (λ made. string_bytes made ≡ quoted text.now) }
{
    Ok(Value::try_from_str(alloc, text)?.to_string(alloc)?)
}

/// Why the body of a znode can't be read, as reply lines have it. `None` where it is out of memory.
pub fn body_text(alloc: Global, fault: &BodyFault) -> Result<Option<String>, NoMemory>
    ensures { IfOk result (λ made. option_map string_bytes made ≡ body_text fault.now) }
{
    let text = match fault {
        BodyFault::NotJson => format!(in alloc; "not-json")?,
        BodyFault::Missing { field } => {
            let field = quoted(alloc, field.as_str())?;
            format!(in alloc; "missing {field}")?
        }
        BodyFault::BadField { field } => {
            let field = quoted(alloc, field.as_str())?;
            format!(in alloc; "bad-field {field}")?
        }
        BodyFault::NoTopicId => format!(in alloc; "no-topic-id")?,
        BodyFault::UnknownKey { name } => {
            let name = quoted(alloc, name.as_str())?;
            format!(in alloc; "unknown-key {name}")?
        }
        BodyFault::NoMemory => return Ok(None),
    };
    Ok(Some(text))
}

fn why_text(alloc: Global, why: &ReadWhy) -> Result<Option<String>, NoMemory>
    ensures { IfOk result (λ made. option_map string_bytes made ≡ why_text why.now) }
{
    match why {
        ReadWhy::Stray => Ok(Some(format!(in alloc; "stray")?)),
        ReadWhy::Body(fault) => body_text(alloc, fault),
        ReadWhy::SameId => Ok(Some(format!(in alloc; "same-id")?)),
        ReadWhy::Over { number } => Ok(Some(format!(in alloc; "over {number}")?)),
    }
}

fn untranslatable(alloc: Global, path: &ZPath, why: &ReadWhy) -> Result<Option<String>, NoMemory>
    ensures { IfOk result (λ made. option_map string_bytes made ≡ reply_text (Reply.Untranslatable path.now why.now)) }
{
    let Some(why) = why_text(alloc, why)? else {
        return Ok(None);
    };
    let path = quoted(alloc, path.as_str())?;
    Ok(Some(format!(in alloc; "untranslatable {path} {why}")?))
}

// What a step prints, or `None` where it prints nothing.
fn reply_text(alloc: Global, reply: &Reply) -> Result<Option<String>, NoMemory>
    ensures { IfOk result (λ made. option_map string_bytes made ≡ reply_text reply.now) }
{
    let text = match reply {
        Reply::Idle => format!(in alloc; "idle")?,
        Reply::WaitQuorum { id } => format!(in alloc; "wait-quorum {id}")?,
        Reply::WaitBroker { id } => format!(in alloc; "wait-broker {id}")?,
        Reply::Moved(state) => {
            let state = state_name(*state);
            format!(in alloc; "moved {state}")?
        }
        Reply::Looked => format!(in alloc; "looked")?,
        Reply::Claimed { zk_epoch } => format!(in alloc; "claimed {zk_epoch}")?,
        Reply::Read { rows } => format!(in alloc; "read {rows}")?,
        Reply::Appended { offset } => format!(in alloc; "appended {offset}")?,
        Reply::Wrote { ops } => format!(in alloc; "wrote {ops}")?,
        Reply::Recorded { offset } => format!(in alloc; "recorded {offset}")?,
        Reply::FencedEpoch { epoch } => format!(in alloc; "fenced-epoch {epoch}")?,
        Reply::FencedWrite { claim } => format!(in alloc; "fenced-write {claim}")?,
        Reply::Stale { epoch } => format!(in alloc; "stale {epoch}")?,
        Reply::Untranslatable { path, why } => return untranslatable(alloc, path, why),
        Reply::Limit { path } => {
            let path = quoted(alloc, path.as_str())?;
            format!(in alloc; "limit {path}")?
        }
        Reply::Lost => format!(in alloc; "lost")?,
        Reply::Expired => format!(in alloc; "expired")?,
        Reply::TreeFailed(_) => return Ok(None),
        Reply::LogFailed(_) => return Ok(None),
        Reply::NoMemory => return Ok(None),
    };
    Ok(Some(text))
}

fn verdict_text(alloc: Global, verdict: &Verdict) -> Result<String, NoMemory>
    ensures { IfOk result (λ made. string_bytes made ≡ verdict_text verdict.now) }
{
    match verdict {
        Verdict::Unmigrated => Ok(format!(in alloc; "unmigrated")?),
        Verdict::Unrecorded => Ok(format!(in alloc; "unrecorded")?),
        Verdict::Closed { offset } => Ok(format!(in alloc; "closed {offset}")?),
        Verdict::Ahead { offset, paths } => {
            let count = paths.len();
            Ok(format!(in alloc; "ahead {offset} {count}")?)
        }
        Verdict::Disagrees { path } => {
            let path = quoted(alloc, path.as_str())?;
            Ok(format!(in alloc; "disagrees {path}")?)
        }
    }
}

// A word and a path as a JSON string.
fn named(alloc: Global, word: &str, path: &ZPath) -> Result<String, NoMemory>
    ensures { IfOk result (λ made. string_bytes made ≡ word_and_text word.now path.now) }
{
    let path = quoted(alloc, path.as_str())?;
    Ok(format!(in alloc; "{word} {path}")?)
}

// What the answer of a session or of a ZooKeeper client's multi prints.
fn client_text(alloc: Global, answer: &Answer) -> Result<Option<String>, NoMemory>
    requires { is_client_answer answer.now ≡ true }
    ensures { IfOk result (λ made. option_map string_bytes made ≡ answer_text answer.now) }
{
    let text = match answer {
        Answer::Known => format!(in alloc; "known")?,
        Answer::Unknown => format!(in alloc; "unknown")?,
        Answer::Reserved { path } => named(alloc, "reserved", path)?,
        Answer::KraftHolds { path } => named(alloc, "kraft-holds", path)?,
        Answer::Refused { index, code } => format!(in alloc; "refused {index} {code}")?,
        Answer::OverOp { index, number } => format!(in alloc; "over-op {index} {number}")?,
        _ => return Ok(None),
    };
    Ok(Some(text))
}

// What an event prints, or `None` for a turn, which prints a line for each step, and for what ends the run.
fn answer_text(alloc: Global, answer: &Answer) -> Result<Option<String>, NoMemory>
    ensures { IfOk result (λ made. option_map string_bytes made ≡ answer_text answer.now) }
{
    let text = match answer {
        Answer::Done => format!(in alloc; "done")?,
        Answer::DoneAt { zxid } => format!(in alloc; "done {zxid}")?,
        Answer::Elected { epoch, offset } => format!(in alloc; "elected {epoch} {offset}")?,
        Answer::Step(reply) => return reply_text(alloc, reply),
        Answer::Turn(_) => return Ok(None),
        Answer::Appended { offset } => format!(in alloc; "appended {offset}")?,
        Answer::RolledBack => format!(in alloc; "rolled-back")?,
        Answer::Check(verdict) => verdict_text(alloc, verdict)?,
        Answer::Running { id } => format!(in alloc; "running {id}")?,
        Answer::UnknownController => format!(in alloc; "unknown-controller")?,
        Answer::AlreadyRunning => format!(in alloc; "already-running")?,
        Answer::NotRunning => format!(in alloc; "not-running")?,
        Answer::NotLeader => format!(in alloc; "not-leader")?,
        Answer::Stale { epoch } => format!(in alloc; "stale {epoch}")?,
        Answer::InTransaction { offset } => format!(in alloc; "in-transaction {offset}")?,
        Answer::NotMigrated => format!(in alloc; "not-migrated")?,
        Answer::Finalised => format!(in alloc; "finalised")?,
        Answer::NotDualWrite { state } => {
            let state = state_name(*state);
            format!(in alloc; "not-dual-write {state}")?
        }
        Answer::Unclosed { path } => named(alloc, "unclosed", path)?,
        Answer::Behind { recorded, end } => format!(in alloc; "behind {recorded} {end}")?,
        Answer::TooEarly => format!(in alloc; "too-early")?,
        Answer::BadRecord { index, why } => format!(in alloc; "bad-record {index} {why}")?,
        Answer::Over { number } => format!(in alloc; "over {number}")?,
        Answer::Known
        | Answer::Unknown
        | Answer::Reserved { .. }
        | Answer::KraftHolds { .. }
        | Answer::Refused { .. }
        | Answer::OverOp { .. } => return client_text(alloc, answer),
        Answer::TreeFailed(_) => return Ok(None),
        Answer::LogFailed(_) => return Ok(None),
        Answer::NoMemory => return Ok(None),
    };
    Ok(Some(text))
}

// Adds a reply line, or nothing where there is no text.
fn push_line(lines: &mut String, line: u64, text: Option<String>) -> Result<(), NoMemory>
    ensures { OnOk result (string_bytes lines.new ≡ string_bytes lines.old ++ reply_line line (option_map string_bytes text)) }
{
    if let Some(text) = text {
        write!(lines, "{line} {text}\n")?;
    }
    Ok(())
}

// The lines of a turn's steps.
fn turn_lines(alloc: Global, line: u64, replies: &[Reply]) -> Result<String, NoMemory>
    ensures { IfOk result (λ made. string_bytes made ≡ flat_map (λ r. reply_line line (reply_text r)) replies.now) }
{
    let mut lines = String::new(alloc);
    for reply in replies {
        let text = reply_text(alloc, reply)?;
        push_line(&mut lines, line, text)?;
    }
    Ok(lines)
}

// The line of an answer that isn't a turn's.
fn answer_line(alloc: Global, line: u64, answer: &Answer) -> Result<String, NoMemory>
    ensures { IfOk result (λ made. string_bytes made ≡ reply_line line (answer_text answer.now)) }
{
    let mut lines = String::new(alloc);
    let text = answer_text(alloc, answer)?;
    push_line(&mut lines, line, text)?;
    Ok(lines)
}

/// The lines that an answer prints to the event of an input line, whose number is `line`, counted from 1. A turn has a
/// line for each step, and none for a step after which the run ends.
#[tactic(auto, unfolding(kz_spec_data::specs::Replies::reply_lines))]
pub fn write_answer(alloc: Global, line: u64, answer: &Answer) -> Result<Vec<u8>, NoMemory>
    ensures { IfOk result (λ text. text.items ≡ reply_lines line answer.now) }
{
    let lines = match answer {
        Answer::Turn(replies) => turn_lines(alloc, line, replies.as_slice())?,
        _ => answer_line(alloc, line, answer)?,
    };
    Ok(lines.into_bytes())
}

// An offset, or `none`.
fn offset_or_none(alloc: Global, offset: Option<i64>) -> Result<String, NoMemory>
    ensures { IfOk result (λ made. string_bytes made ≡ offset_or_none offset) }
{
    match offset {
        Some(offset) => Ok(format!(in alloc; "{offset}")?),
        None => Ok(format!(in alloc; "none")?),
    }
}

/// The last line of a run: how many events were read and how many steps drivers made, the tree's last transaction, the
/// end of the log, which is -1 where it is empty, and the offset that the tree records, if it records one. The steps of
/// all turns can pass 64 bits.
#[tactic(auto, unfolding(kz_spec_data::specs::Replies::summary_line))]
pub fn summary(
    alloc: Global,
    events: u64,
    steps: u128,
    zxid: i64,
    offset: i64,
    recorded: Option<i64>,
) -> Result<Vec<u8>, NoMemory>
    ensures { IfOk result (λ text. text.items ≡ summary_line events steps zxid offset recorded) }
{
    let recorded = offset_or_none(alloc, recorded)?;
    let text = format!(in alloc;
        "end events={events} steps={steps} zxid={zxid} offset={offset} recorded={recorded}\n"
    )?;
    Ok(text.into_bytes())
}
