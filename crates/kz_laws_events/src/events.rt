//! Laws of worlds: every event keeps one sound, and so does every run.
//!
//! A law is the contract of a function that does nothing.

ghost use Rattle.kz_laws_events.specs.Events.{TurnsKeep, FencedTurnsLeave, StepsKeepSound, ElectionsKeepSound, ChangesKeepSound, RegistrationsKeepSound, ClientsKeepSound, FinalisationsKeepSound, RollbacksKeepSound, EventsKeepSound, EmptyIsSound, RunsKeepSound};

/// A world stays sound with every event: with steps under every plan, turns, elections, changes and registrations, with multis and
/// sessions of clients, with finalisations and rollbacks, and with controllers that are declared, start and stop.
pub fn events_keep_sound()
    ensures turn { TurnsKeep }
    ensures step { StepsKeepSound }
    ensures election { ElectionsKeepSound }
    ensures change { ChangesKeepSound }
    ensures registration { RegistrationsKeepSound }
    ensures client { ClientsKeepSound }
    ensures finalisation { FinalisationsKeepSound }
    ensures rollback { RollbacksKeepSound }
    ensures all { EventsKeepSound }
{}

/// No turn of a controller that another one has taken over from changes the tree or the log.
pub fn fenced_turns_leave()
    ensures { FencedTurnsLeave }
{}

/// The empty world is sound, and so is every world of a run from a sound one.
pub fn runs_keep_sound()
    ensures empty { EmptyIsSound }
    ensures run { RunsKeepSound }
{}
