//! What a program reads from.
ghost use Rattle.std.specs.Prelude.{◌≡◌, List, ℕ, Bool, Option};
ghost use Rattle.std.specs.Io.{ReadsAtMost};
ghost use Rattle.std.specs.Io.KnownBytes.{ReadConsumes};
ghost use Rattle.kz_types.specs.Causes.{HasCause};
ghost use Rattle.kz_io.specs.Told.{StaysTold};
ghost use Rattle.std.specs.Result.{is_err};

use kz_types::Failed;

/// What bytes are read from, one after another.
///
/// Where contents are told, `left` is what reads are still to give. Of a source that tells nothing, as a real stream,
/// contracts say only when a read fails.
pub trait Source {
    /// The bytes that are left, where they are told.
    ghost left: { Self → Option (List ℕ) };

    /// How often a read has failed.
    ghost faults: { Self → ℕ };

    /// Whether the last read failed; false before the first.
    ghost last_failed: { Self → Bool };

    /// Reads at the front of `buf`, and says how many bytes it has read: at most as many as `buf` has. No byte in a
    /// buffer that isn't empty is the end of the input.
    ///
    /// `Failed`: the count of faults rose in this call, and nothing is read.
    fn read(&mut self, buf: &mut [u8]) -> Result<usize, Failed>
        ensures bound { ReadsAtMost result buf.new }
        ensures bytes { ReadConsumes (left self.old) (left self.new) result buf.new }
        ensures told { StaysTold (left self.old) (left self.new) }
        ensures cause { HasCause (faults self.old) (faults self.new) result }
        ensures failed { last_failed self.new ≡ is_err result };
}
