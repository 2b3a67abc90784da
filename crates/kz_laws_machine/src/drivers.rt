//! Laws of several drivers: what is true of one is left by the requests of the others.
//!
//! A law is the contract of a function that does nothing.

ghost use Rattle.kz_laws_machine.specs.Others.{ClaimsLeaveOthers, OneIsCurrent, WritesLeaveOthers, UnchangedLeaveOthers, BatchesLeaveOthers, CommitsLeaveOthers};

/// What is true of a driver is left by every request of another one: by its claims and its writes, by batches of the log, and by
/// the commit of the migration; and so by what clients do beside the drivers. At most one driver's claim is current.
pub fn others_keep()
    ensures claim { ClaimsLeaveOthers }
    ensures current { OneIsCurrent }
    ensures write { WritesLeaveOthers }
    ensures unchanged { UnchangedLeaveOthers }
    ensures batch { BatchesLeaveOthers }
    ensures commit { CommitsLeaveOthers }
{}
