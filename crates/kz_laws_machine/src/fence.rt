//! Laws of the fence: what a controller leaves that another one has taken over from.
//!
//! A law is the contract of a function that does nothing.

ghost use Rattle.kz_laws_machine.specs.Fence.{FencedDriversLeave, FencedRepliesLeave, OnlyLeadersAppend};

/// A fenced driver leaves the tree and the log, under every plan; so does each step by whose reply a driver learns that it is
/// fenced; and only the leader of the log appends changes and registrations.
pub fn fenced_leaves()
    ensures driver { FencedDriversLeave }
    ensures reply { FencedRepliesLeave }
    ensures leader { OnlyLeadersAppend }
{}
