//! Laws of writes: what a driver writes, and that no code refuses it.
//!
//! A law is the contract of a function that does nothing.

ghost use Rattle.kz_laws_machine.specs.Writes.{HeldOperationsRemain, WritesAreTaken, WritesReplyTaken};

/// What a current driver holds is what remains to be written. Its write, on a tree where the base znodes stand, is refused with
/// no code: operations are written, the offset is recorded, or a limit would be passed.
pub fn writes_are_taken()
    ensures held { HeldOperationsRemain }
    ensures code { WritesAreTaken }
    ensures reply { WritesReplyTaken }
{}
