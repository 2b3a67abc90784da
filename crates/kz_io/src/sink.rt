//! What a program writes to.
ghost use Rattle.std.specs.Prelude.{◌≡◌, ◌≤◌, ◌++◌, List, ℕ, Bool, true, false, Option, length, OnOk, OnErr, MatchResult};
ghost use Rattle.std.specs.Io.KnownBytes.{Appends, WriteAppends};
ghost use Rattle.kz_types.specs.Causes.{WriteHasCause, HasCause};
ghost use Rattle.kz_io.specs.Told.{StaysTold, is_failed_write};

use kz_types::Failed;

/// What bytes are written to, one after another.
///
/// Where contents are told, `taken` is all that was written. Of a sink that tells nothing, as a real stream, contracts
/// say only when a write fails.
pub trait Sink {
    /// The bytes taken so far, where they are told.
    ghost taken: { Self → Option (List ℕ) };

    /// How often a write has failed, or has taken nothing of a piece that wasn't empty.
    ghost faults: { Self → ℕ };

    /// Whether the last write failed, or took nothing of a piece that wasn't empty; false before the first.
    ghost last_failed: { Self → Bool };

    /// Takes a front of `piece`, and says how long it is. A caller takes 0 for a piece that isn't empty as a failure:
    /// the count of faults rose in that call too.
    ///
    /// `Failed`: the count of faults rose in this call, and nothing is taken.
    fn write(&mut self, piece: &[u8]) -> Result<usize, Failed>
        ensures bound { MatchResult result (λ n. n ≤ length piece.now) (λ _. Unit {0}) }
        ensures bytes { WriteAppends (taken self.old) (taken self.new) result piece.now }
        ensures told { StaysTold (taken self.old) (taken self.new) }
        ensures cause { WriteHasCause (faults self.old) (faults self.new) result piece.now }
        ensures failed { last_failed self.new ≡ is_failed_write result piece.now };
}

/// Writes all of a text, in as many calls as it takes.
///
/// `Failed`: a write failed or took nothing, so the sink's count of faults rose in this call. A front of the text is
/// out then.
pub fn send<K: Sink>(sink: &mut K, text: &[u8]) -> Result<(), Failed>
    ensures ok { OnOk result (Appends (K.taken sink.old) (K.taken sink.new) text.now) }
    ensures err { OnErr result ((front rest : List ℕ) × (text.now ≡ front ++ rest)
        × Appends (K.taken sink.old) (K.taken sink.new) front) }
    ensures told { StaysTold (K.taken sink.old) (K.taken sink.new) }
    ensures cause { HasCause (K.faults sink.old) (K.faults sink.new) result }
    ensures failed { OnErr result (K.last_failed sink.new ≡ true) }
    ensures calm { OnOk result (K.last_failed sink.new ≡ true → K.last_failed sink.old ≡ true) }
{
    let mut rest = text;
    while !rest.is_empty() {
        let count = sink.write(rest)?;
        if count == 0 {
            return Err(Failed);
        }
        rest = &rest[count..];
    }
    Ok(())
}
