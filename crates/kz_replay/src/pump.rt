//! A replay of what a source gives.
ghost use Rattle.std.specs.Prelude.{◌≡◌, ◌≢◌, [], List, ℕ, IfSome};
ghost use Rattle.std.specs.Io.KnownBytes.{Appends, Consumes, IsAtEnd};
ghost use Rattle.kz_spec_data.specs.Requests.{Only};
ghost use Rattle.kz_spec_machine.specs.Sound.{Sound};
ghost use Rattle.kz_world.specs.TurnStops.{AreUp};
ghost use Rattle.kz_spec_machine.specs.Output.{Progress};
ghost use Rattle.kz_spec_machine.specs.Endings.{EndsAs, EndsAtFailure};
ghost use Rattle.kz_spec_machine.specs.Moments.{LeavesMoment};
ghost use Rattle.kz_stream.specs.Pending.{state_of, outcome_to_come, moments_to_come, pending_lines};
ghost use Rattle.kz_stream.specs.Disks.{OverSound};
ghost use Rattle.kz_replay.specs.Disks.{RunDisks};

use kz_io::{Sink, Source};
use kz_stream::{Machine, Stream, stop_status};
use kz_types::Status;

// The end of the input.
fn close<M: Machine, K: Sink>(stream: Stream<M>, out: &mut K) -> (Status, M)
    ensures ran { result.0 ≢ Status.Usage }
    ensures no_read { result.0 ≢ Status.ReadFault }
    ensures output { (sent : List ℕ) × Appends (K.taken out.old) (K.taken out.new) sent
        × (Sound (M.world stream.place.machine) → (lines : Progress) → EndsAs (outcome_to_come (state_of M.world stream) []) lines sent (M.world result.1) result.0)
        × OverSound (M.world stream.place.machine) (M.disks stream.place.machine) (LeavesMoment (moments_to_come (state_of M.world stream) []) sent (M.tree_left result.1) (M.log_left result.1)) }
    ensures disks { OverSound (M.world stream.place.machine) (M.disks stream.place.machine) (RunDisks result.0 (M.disks stream.place.machine) (M.disks result.1)) }
    ensures sink { EndsAtFailure Status.WriteFault result.0 (K.faults out.old) (K.faults out.new) (K.last_failed out.old) (K.last_failed out.new) }
{
    let (ended, machine) = stream.finish(out);
    match ended {
        Ok(()) => (Status::Done, machine),
        Err(stop) => (stop_status(stop), machine),
    }
}

/// Hands what the source gives to the stream, a piece at a time, and writes the replies.
pub(crate) fn pump<M: Machine, S: Source, K: Sink>(
    mut stream: Stream<M>,
    input: &mut S,
    out: &mut K,
) -> (Status, M)
    ensures ran { result.0 ≢ Status.Usage }
    ensures output { Sound (M.world stream.place.machine) → IfSome (S.left input.old) (λ script. (taken sent : List ℕ)
        × Consumes (S.left input.old) (S.left input.new) taken × Appends (K.taken out.old) (K.taken out.new) sent
        × EndsAs (outcome_to_come (state_of M.world stream) script) (pending_lines (state_of M.world stream) taken) sent (M.world result.1) result.0
        × (AreUp (M.disks stream.place.machine) → LeavesMoment (moments_to_come (state_of M.world stream) script) sent (M.tree_left result.1) (M.log_left result.1))) }
    ensures disks { OverSound (M.world stream.place.machine) (M.disks stream.place.machine) (RunDisks result.0 (M.disks stream.place.machine) (M.disks result.1)) }
    ensures settled { AreUp (M.disks result.1) → Only (M.world result.1).shared.tree (M.tree_left result.1) × Only (M.world result.1).shared.log (M.log_left result.1) }
    ensures whole { result.0 ≡ Status.Done → IsAtEnd (S.left input.new) }
    ensures source { EndsAtFailure Status.ReadFault result.0 (S.faults input.old) (S.faults input.new) (S.last_failed input.old) (S.last_failed input.new) }
    ensures sink { EndsAtFailure Status.WriteFault result.0 (K.faults out.old) (K.faults out.new) (K.last_failed out.old) (K.last_failed out.new) }
{
    let mut piece = [0u8; 4096];
    for turn in 0..4_294_967_298u64 {
        let count = match input.read(&mut piece) {
            Ok(count) => count,
            Err(_) => return (Status::ReadFault, stream.into_machine()),
        };
        if count == 0 {
            return close(stream, out);
        }
        match stream.feed(&piece[..count], out) {
            Ok(()) => {}
            Err(stop) => return (stop_status(stop), stream.into_machine()),
        }
    }
    unreachable!()
}
