//! Laws of a driver's appends: what the begin, the records and the commit of a migration leave true, and so every step.
//!
//! A law is the contract of a function that does nothing.

ghost use Rattle.kz_laws_events.specs.Appends.{BeginningStepsKeep, AppendingStepsKeep, CommitsAgree, AllStepsKeep};

/// The begin of a migration, its records and its commit keep what is shared sound, and all that is true of the driver and of each
/// other one, under every plan; and the commit makes the tree and the log agree.
pub fn appends_keep()
    ensures begin { BeginningStepsKeep }
    ensures append { AppendingStepsKeep }
    ensures commit { CommitsAgree }
{}

/// Every step keeps what is shared sound, and all that is true of its driver and of each other one, under every plan.
pub fn all_steps_keep()
    ensures { AllStepsKeep }
{}
