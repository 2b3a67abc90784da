//! What an answer of the machine means for the run.
ghost use Rattle.std.specs.Prelude.{◌≡◌, option_map};
ghost use Rattle.std.specs.List.{filter_map};
ghost use Rattle.kz_spec_machine.specs.Output.{steps_of, ending, ending_of_reply, first_ending};
ghost use Rattle.kz_stream.specs.Endings.{status_of};
ghost use Rattle.kz_stream.specs.Machines.{IsNextAfter, out_of_memory};

use crate::ending::{Ending, Next};
use crate::{Failure, failure_of};
use kz_types::{Answer, LogFault, Reply, TreeFault};

/// How many steps of a driver it tells.
pub fn steps_of(answer: &Answer) -> usize
    ensures { result ≡ steps_of answer.now }
{
    match answer {
        Answer::Turn(replies) => replies.len(),
        Answer::Step(_) => 1,
        _ => 0,
    }
}

fn ending_of_reply(reply: &Reply) -> Option<Ending>
    ensures { option_map status_of result ≡ ending_of_reply reply.now }
{
    match reply {
        Reply::LogFailed(LogFault::Limit { number }) => Some(Ending::StoreLimit {
            number: *number,
        }),
        _ => None,
    }
}

// How the run ends by the first of these steps that ends it.
fn first_ending(replies: &[Reply]) -> Option<Ending>
    ensures { option_map status_of result ≡ first_ending (filter_map ending_of_reply replies.now) }
{
    for reply in replies {
        let ending = ending_of_reply(reply);
        if ending.is_some() {
            return ending;
        }
    }
    None
}

fn ending_of(answer: &Answer) -> Option<Ending>
    ensures { option_map status_of result ≡ ending answer.now }
{
    match answer {
        Answer::Turn(replies) => first_ending(replies.as_slice()),
        Answer::Step(reply) => ending_of_reply(reply),
        Answer::TreeFailed(TreeFault::Limit { number, .. }) => {
            Some(Ending::StoreLimit { number: *number })
        }
        _ => None,
    }
}

/// What the run does after this answer.
pub fn next_after(answer: &Answer) -> Next
    ensures { IsNextAfter answer.now result }
{
    if let Some(failure) = failure_of(answer) {
        return Next::Fails(failure);
    }
    match ending_of(answer) {
        None => Next::GoesOn,
        Some(ending) => Next::Ends(ending),
    }
}

/// What the run does after such an answer, whose lines there is no memory for: it ends.
pub fn out_of_memory(next: Next) -> Next
    ensures { result ≡ out_of_memory next }
{
    match next {
        Next::Fails(failure) => Next::Fails(failure),
        Next::GoesOn | Next::Ends(_) => Next::Fails(Failure::NoMemory),
    }
}
