//! The commands by their words.
ghost use Rattle.std.specs.List.{list_all};
ghost use Rattle.std.specs.Prelude.{◌≡◌, ℕ, option_map};
ghost use Rattle.kz_types.specs.Numbers.{is_digit};
ghost use Rattle.kz_spec_machine.specs.Words.{is_count, command_of_word, command_of_two, command_of};
ghost use Rattle.kz_replay.specs.Commands.{defined_command, HasAllowed};

use kz_reports::Report;
use kz_types::{MAX_GENERATED, canonical, digits_up_to};

/// A command of the program.
#[derive(Clone, Copy, Debug, PartialEq, Eq)]
pub(crate) enum Command {
    Init,
    Load,
    Replay,
    Upgrade,
    Tell(Report),
    // A script with so many changes; `None` where they are more than are allowed.
    Generate(Option<u64>),
}

fn command_of_word(word: &str) -> Option<Command>
    ensures command { option_map defined_command result ≡ command_of_word word.now }
    ensures allowed { HasAllowed result }
{
    match word {
        "init" => Some(Command::Init),
        "load" => Some(Command::Load),
        "replay" => Some(Command::Replay),
        "upgrade" => Some(Command::Upgrade),
        "dump-tree" => Some(Command::Tell(Report::DumpTree)),
        "dump-log" => Some(Command::Tell(Report::DumpLog)),
        "render" => Some(Command::Tell(Report::Render)),
        "check" => Some(Command::Tell(Report::Check)),
        "status" => Some(Command::Tell(Report::Figures)),
        _ => None,
    }
}

fn are_digits(text: &[u8]) -> bool
    ensures { result ≡ list_all is_digit text.now }
{
    text.iter().all(|byte| matches!(byte, b'0'..=b'9'))
}

// Whether these bytes are digits, of which the first isn't 0.
fn is_count(text: &[u8]) -> bool
    ensures { result ≡ is_count text.now }
{
    match text {
        [first, rest @ ..] => matches!(first, b'1'..=b'9') && are_digits(rest),
        [] => false,
    }
}

fn command_of_two(word: &str, number: &str) -> Option<Command>
    ensures command { option_map defined_command result ≡ command_of_two word.now number.now }
    ensures allowed { HasAllowed result }
{
    match word {
        "render" => match canonical(number.as_bytes()) {
            Some(offset) => Some(Command::Tell(Report::RenderAt {
                offset: offset as u32,
            })),
            None => None,
        },
        "generate" => {
            if is_count(number.as_bytes()) {
                Some(Command::Generate(digits_up_to(number.as_bytes(), MAX_GENERATED)))
            } else {
                None
            }
        }
        _ => None,
    }
}

/// The command that these words name.
pub(crate) fn command_of(words: &[String]) -> Option<Command>
    ensures command { option_map defined_command result ≡ command_of words.now }
    ensures allowed { HasAllowed result }
{
    match words {
        [word] => command_of_word(word.as_str()),
        [word, number] => command_of_two(word.as_str(), number.as_str()),
        _ => None,
    }
}
