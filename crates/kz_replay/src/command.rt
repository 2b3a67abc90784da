//! The top call: the commands that the program has.
ghost use Rattle.kz_commands.specs.Outside.{outside};
ghost use Rattle.kz_replay.specs.Runs.{Runs, RunStops};
ghost use Rattle.kz_commands.specs.Stops.{contents};

use crate::program::replay;
use crate::script::write_script;
use crate::words::{Command, command_of};
use kz_commands::{init, upgrade};
use kz_disk::Disk;
use kz_io::{Sink, Source};
use kz_load::load;
use kz_reports::tell;
use kz_types::Status;
use std::alloc::Global;

/// Runs the command that the words name, over the file of a tree and that of a log:
///
/// - `init` makes both files journals that stand for an empty tree and an empty log. A file of at most 17 bytes is made, unless it is
///   such a journal already; a longer one is left as it is.
/// - `load` makes both files, and loads the tree whose lines it reads from `input`.
/// - `replay` reads a script from `input`, lets each of its events happen on the tree and the log of the files, and writes the
///   replies to `out` in the order of the events. After the last line it writes one with the numbers of the run. Empty lines and
///   those that begin with `#` are passed over, and count as lines.
/// - `upgrade` seals both files, so that each further frame has a sum.
/// - `dump-tree` and `dump-log` print what stands in the files. `render` prints the znodes that the metadata at the log's end is rendered
///   as, and `render OFFSET` those at an offset, which is a canonical decimal. `check` prints how the tree and the log agree, and
///   `status` their figures. They change nothing in the files but the bytes after the last frame.
/// - `generate N` prints a script with N changes, a decimal from 1 without leading zeros. It touches neither file.
///
/// The status says what ended the run, which is the first of these that was met:
///
/// - `Done`: what the command reads was read to its end, and all was written.
/// - `Usage`: the words name no command. Nothing was touched.
/// - `TreeFault`, `LogFault`: the last call of that disk failed.
/// - `TreeDamaged`, `LogDamaged`: the file is damaged at this place. No file is made, and no frame changed. The tree's file is tested
///   first.
/// - `NotEmpty`: for `init` and `load`, a file holds a tree or a log. No file is made.
/// - `Disagrees`: for `check`, this is the first path that disagrees with the log.
/// - `NoOffset`: for `render OFFSET`, the offset isn't one from the log's base to its end.
/// - `Script`: this line is no event, and the lines before it have their replies; for `load`, it is no line of a tree, or breaks a rule
///   of a load, and no znode stands.
/// - `Limit`: number 10, a line has more than 2,097,152 bytes without its end; 11, the input has more than
///   4,294,967,296 bytes; 7 and 17, a step of a driver would bring the log past its most records, or its last offset; 17, also, a
///   rollback's multi would be past the last transaction; 12 and 13, the tree's file or the log's would have more than
///   2,147,483,647 bytes; 2, 3 and 4, for `load`, a body or the znodes would be too many; 14, more than 100,000 changes are asked for.
/// - `ReadFault`: the last read failed. The lines that were read whole have their replies.
/// - `WriteFault`: the last write failed, or took nothing of a text.
/// - `NoMemory`: memory ran out.
///
/// At `WriteFault`, `TreeFault`, `LogFault`, `NoMemory` and the limits 12 and 13, what is written is a front of what the script asks
/// for. With any other status of a replay it is all of that, at `ReadFault` for the lines that were read whole. Both disks are handed
/// back. Whatever a stop leaves of them then keeps up with what a replay has written: all events whose lines are written stand in the
/// files, and at most one more, whole or up to one of its requests.
pub fn run<S: Source, K: Sink, D: Disk, E: Disk>(
    alloc: Global,
    words: &[String],
    input: &mut S,
    out: &mut K,
    tree: D,
    log: E,
) -> (Status, D, E)
    ensures runs { Runs words.now (outside S.left S.faults S.last_failed input.old) (outside S.left S.faults S.last_failed input.new)
        (outside K.taken K.faults K.last_failed out.old) (outside K.taken K.faults K.last_failed out.new)
        (outside D.told D.faults D.last_failed tree) (outside D.told D.faults D.last_failed result.1)
        (outside E.told E.faults E.last_failed log) (outside E.told E.faults E.last_failed result.2) result.0 }
    ensures stop { RunStops words.now (S.left input.old) (K.taken out.old) (K.taken out.new) (contents D.told D.may_leave D.syncs tree) (contents D.told D.may_leave D.syncs result.1)
        (contents E.told E.may_leave E.syncs log) (contents E.told E.may_leave E.syncs result.2) result.0 }
{
    match command_of(words) {
        None => (Status::Usage, tree, log),
        Some(Command::Init) => init(alloc, tree, log),
        Some(Command::Load) => load(alloc, input, tree, log),
        Some(Command::Replay) => replay(alloc, input, out, tree, log),
        Some(Command::Upgrade) => upgrade(alloc, tree, log),
        Some(Command::Tell(report)) => tell(alloc, report, out, tree, log),
        Some(Command::Generate(changes)) => (write_script(alloc, changes, out), tree, log),
    }
}
