//! How an event of the machine fails.
ghost use Rattle.std.specs.Prelude.{◌≡◌};
ghost use Rattle.kz_stream.specs.Failures.{failure_of_tree, failure_of_log, failure_of_reply, failure_of_replies, failure_of};

use kz_types::{Answer, LogFault, Reply, TreeFault};

/// How an event failed.
#[derive(Clone, Copy, Debug, PartialEq, Eq)]
pub enum Failure {
    /// A call of the tree's disk failed, in this event or in an earlier one.
    TreeDisk,
    /// A call of the log's disk failed, in this event or in an earlier one.
    LogDisk,
    /// The tree's file has no room for a change.
    TreeFull,
    /// The log's file has no room for a change.
    LogFull,
    /// Memory ran out.
    NoMemory,
}

fn failure_of_tree(fault: TreeFault) -> Option<Failure>
    ensures { result ≡ failure_of_tree fault }
{
    match fault {
        TreeFault::Refused { .. } | TreeFault::Limit { .. } => None,
        TreeFault::NoMemory => Some(Failure::NoMemory),
        TreeFault::Device | TreeFault::Down => Some(Failure::TreeDisk),
        TreeFault::Full { .. } => Some(Failure::TreeFull),
    }
}

fn failure_of_log(fault: LogFault) -> Option<Failure>
    ensures { result ≡ failure_of_log fault }
{
    match fault {
        LogFault::Stale { .. } | LogFault::Limit { .. } => None,
        LogFault::NoMemory => Some(Failure::NoMemory),
        LogFault::Failed | LogFault::Down => Some(Failure::LogDisk),
        LogFault::Full { .. } => Some(Failure::LogFull),
    }
}

fn failure_of_reply(reply: &Reply) -> Option<Failure>
    ensures { result ≡ failure_of_reply reply.now }
{
    match reply {
        Reply::TreeFailed(fault) => failure_of_tree(*fault),
        Reply::LogFailed(fault) => failure_of_log(*fault),
        Reply::NoMemory => Some(Failure::NoMemory),
        _ => None,
    }
}

fn failure_of_replies(replies: &[Reply]) -> Option<Failure>
    ensures { result ≡ failure_of_replies replies.now }
{
    for reply in replies {
        let failure = failure_of_reply(reply);
        if failure.is_some() {
            return failure;
        }
    }
    None
}

/// How the event of this answer failed, by itself or by a step of a turn; `None` where it didn't.
pub fn failure_of(answer: &Answer) -> Option<Failure>
    ensures { result ≡ failure_of answer.now }
{
    match answer {
        Answer::TreeFailed(fault) => failure_of_tree(*fault),
        Answer::LogFailed(fault) => failure_of_log(*fault),
        Answer::NoMemory => Some(Failure::NoMemory),
        Answer::Step(reply) => failure_of_reply(reply),
        Answer::Turn(replies) => failure_of_replies(replies.as_slice()),
        _ => None,
    }
}
