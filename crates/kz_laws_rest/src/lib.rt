//! Laws of rest: the tree in step with the log, after each turn that comes to rest.
//!
//! A law is the contract of a function that does nothing.
#![tactic(auto)]

ghost use Rattle.kz_laws_rest.specs.Clients.{ClientsLeaveHeld, ClientsKeepStep, UnheldIsUnclaimed};
ghost use Rattle.kz_laws_rest.specs.Rest.{TurnsRestInStep, RunsStayInStep, ClosedIsTold, RestIsTold};

/// After each turn that ends idle in dual write, whatever other controllers have done, the tree is closed and its migrated area
/// is the rendering of the metadata at the log's end; and a check tells so. This holds in every sound world, and so in each world of
/// a run from one.
pub fn turns_rest()
    ensures turn { TurnsRestInStep }
    ensures run { RunsStayInStep }
    ensures closed { ClosedIsTold }
    ensures told { RestIsTold }
{}

/// Sessions and multis of ZooKeeper clients: while a KRaft controller holds the tree they leave the log and all that drivers
/// rest on, and a tree that is in step with the log stays so. While none holds it, no driver has a claim.
pub fn clients_keep_step()
    ensures held { ClientsLeaveHeld }
    ensures step { ClientsKeepStep }
    ensures unclaimed { UnheldIsUnclaimed }
{}
