//! Laws of commits: a migration is committed as the translation of the znodes that stand then.
//!
//! A law is the contract of a function that does nothing.
#![tactic(auto)]

ghost use Rattle.kz_laws_commits.specs.After.{StepsLeaveMigratedLogs, EventsKeepMigrated};
ghost use Rattle.kz_laws_commits.specs.Commits.{StepsKeepCopies, CommitsTranslate, EventsKeepCopies, RunsKeepCopies};

/// What a current driver has appended of a migration, and what it has still to append, is the translation of the znodes of the
/// migrated area, after every step under every plan, every event and every run. What it has appended stands at the log's end,
/// without a gap and in one epoch. So the transaction of a commit holds the translation of the znodes that stand then, and nothing
/// stands between its records.
pub fn commits_translate()
    ensures step { StepsKeepCopies }
    ensures commit { CommitsTranslate }
    ensures event { EventsKeepCopies }
    ensures run { RunsKeepCopies }
{}

/// After the commit no driver's step appends. The log stays migrated, and no transaction is open after any event.
pub fn migrated_stays()
    ensures step { StepsLeaveMigratedLogs }
    ensures event { EventsKeepMigrated }
{}
