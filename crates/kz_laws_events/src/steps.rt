//! Laws of a driver's own steps: what its requests leave true of it, and what they are to others.
//!
//! A law is the contract of a function that does nothing.

ghost use Rattle.kz_laws_events.specs.Steps.{ReadingStepsKeep, UnheardStepsKeep, RecordingSteps, RestingSteps, ClaimsLead, WritesLead, TakenWritesKeep, StepsKeep, StepEventsKeepSound, QuorumsKeepSound, StartsKeepSound, StopsKeepSound, SessionsKeepSound, HeldClientsKeepSound};

/// What is true of a driver stays true with a step that changes nothing: one whose request reads, and one whose request wasn't
/// taken.
pub fn reading_keeps()
    ensures heard { ReadingStepsKeep }
    ensures unheard { UnheardStepsKeep }
{}

/// A claim that is taken is current, and fences all others.
pub fn claims_lead()
    ensures { ClaimsLead }
{}

/// A write is taken of a current driver alone, and keeps what is shared sound and what is true of the driver. A step that replies that an offset is recorded leaves a closed tree, whose migrated
/// area is the rendering of the metadata there; and a driver at rest leaves one at the log's end.
pub fn writes_lead()
    ensures write { WritesLead }
    ensures keeps { TakenWritesKeep }
    ensures recording { RecordingSteps }
    ensures resting { RestingSteps }
{}

/// Each step that appends nothing leaves what is shared sound, and all that was true of its driver and of each other one, under
/// every plan.
pub fn steps_keep()
    ensures { StepsKeep }
{}

/// A world stays sound with an event of such a step, and with those that declare, start and stop controllers.
pub fn worlds_stay_sound()
    ensures step { StepEventsKeepSound }
    ensures quorum { QuorumsKeepSound }
    ensures start { StartsKeepSound }
    ensures stop { StopsKeepSound }
{}

/// A world stays sound with sessions of clients that begin and end, and with their multis while a KRaft controller holds the
/// tree.
pub fn clients_keep_sound()
    ensures session { SessionsKeepSound }
    ensures held { HeldClientsKeepSound }
{}
