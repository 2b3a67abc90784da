//! How a fault of a store is told.
ghost use Rattle.std.specs.Prelude.{◌≡◌};
ghost use Rattle.kz_world_parts.specs.Faults.{answer_of_result, after_tree_fault, after_log_fault, after_session_fault, after_exit, result_of_answer};

use kz_exit::ExitFault;
use kz_session::SessionFault;
use kz_types::{Answer, LogFault, NoMemory, TreeFault};

/// Why an event has no answer of the machine. A refusal of the tree or of the log is an answer.
#[derive(Clone, Copy, Debug, PartialEq, Eq)]
pub enum EventFault {
    /// The store of the tree failed: its disk in this request or an earlier one, or its file is full.
    Tree(TreeFault),
    /// The store of the log failed: its disk in this request or an earlier one, or its file is full.
    Log(LogFault),
    /// Memory ran out.
    NoMemory,
}

impl From<NoMemory> for EventFault {
    ghost use Rattle.std.specs.Prelude.{◌≡◌};
    ghost use Rattle.kz_world_parts.specs.declared.faults.EventFault.{EventFault};

    ghost from_gives = { λ _ fault. fault ≡ EventFault.NoMemory };

    fn from(_: NoMemory) -> EventFault {
        EventFault::NoMemory
    }
}

/// The answer of an event, which tells its fault where it has one.
pub fn answered(outcome: Result<Answer, EventFault>) -> Answer
    ensures { result ≡ answer_of_result outcome }
{
    match outcome {
        Ok(answer) => answer,
        Err(EventFault::Tree(fault)) => Answer::TreeFailed(fault),
        Err(EventFault::Log(fault)) => Answer::LogFailed(fault),
        Err(EventFault::NoMemory) => Answer::NoMemory,
    }
}

/// What follows where the tree doesn't make a client's multi.
pub fn after_tree_fault(fault: TreeFault) -> Result<Answer, EventFault>
    ensures { result ≡ after_tree_fault fault }
{
    match fault {
        TreeFault::Refused { index, code } => Ok(Answer::Refused { index, code }),
        TreeFault::Limit { index, number } => Ok(Answer::OverOp { index, number }),
        TreeFault::NoMemory => Err(EventFault::NoMemory),
        TreeFault::Device => Err(EventFault::Tree(TreeFault::Device)),
        TreeFault::Down => Err(EventFault::Tree(TreeFault::Down)),
        TreeFault::Full { length } => Err(EventFault::Tree(TreeFault::Full { length })),
    }
}

/// What follows where the log doesn't take a batch.
pub fn after_log_fault(fault: LogFault) -> Result<Answer, EventFault>
    ensures { result ≡ after_log_fault fault }
{
    match fault {
        LogFault::Stale { epoch } => Ok(Answer::Stale { epoch }),
        LogFault::Limit { number } => Ok(Answer::Over { number }),
        LogFault::NoMemory => Err(EventFault::NoMemory),
        LogFault::Failed => Err(EventFault::Log(LogFault::Failed)),
        LogFault::Down => Err(EventFault::Log(LogFault::Down)),
        LogFault::Full { length } => Err(EventFault::Log(LogFault::Full { length })),
    }
}

/// What follows where a session doesn't begin or end.
pub fn after_session_fault(fault: SessionFault) -> Result<Answer, EventFault>
    ensures { result ≡ after_session_fault fault }
{
    match fault {
        SessionFault::Known => Ok(Answer::Known),
        SessionFault::Unknown => Ok(Answer::Unknown),
        SessionFault::NoMemory => Err(EventFault::NoMemory),
        SessionFault::Device => Err(EventFault::Tree(TreeFault::Device)),
        SessionFault::Down => Err(EventFault::Tree(TreeFault::Down)),
        SessionFault::Full { length } => Err(EventFault::Tree(TreeFault::Full { length })),
        SessionFault::Limit { number } => Ok(Answer::Over { number }),
    }
}

// An answer that the tree failed so, or the fault that it tells.
fn tree_failed(fault: TreeFault) -> Result<Answer, EventFault>
    ensures { result ≡ result_of_answer (Answer.TreeFailed fault) }
{
    match fault {
        TreeFault::Refused { .. } | TreeFault::Limit { .. } => Ok(Answer::TreeFailed(fault)),
        _ => Err(EventFault::Tree(fault)),
    }
}

// The same of the log.
fn log_failed(fault: LogFault) -> Result<Answer, EventFault>
    ensures { result ≡ result_of_answer (Answer.LogFailed fault) }
{
    match fault {
        LogFault::Stale { .. } | LogFault::Limit { .. } => Ok(Answer::LogFailed(fault)),
        _ => Err(EventFault::Log(fault)),
    }
}

/// What an event answers whose rollback ended so.
pub fn after_exit(outcome: Result<(), ExitFault>) -> Result<Answer, EventFault>
    ensures { result ≡ after_exit outcome }
{
    match outcome {
        Ok(()) => Ok(Answer::RolledBack),
        Err(ExitFault::Finalised) => Ok(Answer::Finalised),
        Err(ExitFault::Unclosed { path }) => Ok(Answer::Unclosed { path }),
        Err(ExitFault::Behind { recorded, end }) => Ok(Answer::Behind { recorded, end }),
        Err(ExitFault::Log(fault)) => log_failed(fault),
        Err(ExitFault::Tree(fault)) => tree_failed(fault),
        Err(ExitFault::NoMemory) => Err(EventFault::NoMemory),
    }
}
