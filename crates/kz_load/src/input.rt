//! A tree that a source gives.
ghost use Rattle.std.specs.Prelude.{◌≡◌, true, IfOk, IfErr, OnOk, IfSome, Ok, Err};
ghost use Rattle.std.specs.Io.KnownBytes.{IsAtEnd};
ghost use Rattle.kz_spec_data.specs.Loads.{is_load};
ghost use Rattle.kz_spec_machine.specs.Endings.{EndsAtFailure};
ghost use Rattle.kz_spec_machine.specs.Loading.{loaded};
ghost use Rattle.kz_load.specs.Stops.{IsStopOf};

use crate::reader::Reader;
use crate::stop::LoadStop;
use kz_io::Source;
use kz_tree::LoadCheck;
use std::alloc::Global;

/// Reads a tree: a header and its znodes, each on a line of its own. It stops at the first line that is none of a tree, or breaks
/// a rule of a load, and where a limit would be passed. With a tree the input is read to its end. `ReadFault` comes exactly where
/// a read failed, and that was the last read.
pub fn read_tree<S: Source>(alloc: Global, input: &mut S) -> Result<LoadCheck, LoadStop>
    ensures loaded { IfOk result (λ check. IfSome (S.left input.old) (λ script. loaded script ≡ Ok check)) }
    ensures rules { IfOk result (λ t. is_load t.zxid t.sessions t.rows ≡ true) }
    ensures whole { OnOk result (IsAtEnd (S.left input.new)) }
    ensures stop { IfErr result (λ stop. IfSome (S.left input.old) (λ script. IsStopOf (loaded script) stop)) }
    ensures source { EndsAtFailure (Err LoadStop.ReadFault) result (S.faults input.old) (S.faults input.new) (S.last_failed input.old) (S.last_failed input.new) }
{
    let mut reader = Reader::new(alloc);
    let mut piece = [0u8; 4096];
    for turn in 0..4_294_967_298u64 {
        let count = match input.read(&mut piece) {
            Ok(count) => count,
            Err(_) => return Err(LoadStop::ReadFault),
        };
        if count == 0 {
            return reader.finish();
        }
        match reader.feed(&piece[..count]) {
            Ok(()) => {}
            Err(stop) => return Err(stop),
        }
    }
    unreachable!()
}
