//! Laws of turns: a turn ends by itself within the number of steps that it may have.
//!
//! A law is the contract of a function that does nothing.
#![tactic(auto)]

ghost use Rattle.kz_laws_bounds.specs.Bounds.{TurnsEnd, MoreStepsAreNone};
ghost use Rattle.kz_laws_bounds.specs.Events.{EventsKeepBased, BeginsBased, RunsKeepBased, TurnsOfRunsEnd, AnswersOfRunsEnd};

/// In a sound and based world the last reply of a turn is one that ends it, within the number of steps that the turn may have. So
/// a turn with more steps would be the same. And each turn after a run of events from a sound tree and log ends so, and so do the
/// replies that answer it, where no client deletes a base znode between a look of a driver and its claim.
pub fn turns_end()
    ensures ends { TurnsEnd }
    ensures same { MoreStepsAreNone }
    ensures run { TurnsOfRunsEnd }
    ensures told { AnswersOfRunsEnd }
{}

/// Every event keeps a sound world based, but a client's multi that deletes a base znode between a look of a driver and its claim.
/// So does every run of such events. The world in which a run begins is based.
pub fn based_stays()
    ensures event { EventsKeepBased }
    ensures opened { BeginsBased }
    ensures run { RunsKeepBased }
{}
