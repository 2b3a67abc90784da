//! Laws of every moment of a run from a sound pair of a tree and a log: at its beginning, and after each request of each event.
//!
//! A law is the contract of a function that does nothing.
#![tactic(auto)]

ghost use Rattle.kz_laws_runs.specs.Runs.{RunsCommitWhole, RunsAgree, RunsStayAsRecorded, RunsStayInAgreement, RunsStayFinalised};
ghost use Rattle.kz_laws_runs.specs.Paths.{EventsKeepPaths, RunsKeepPaths, RunsKeepAgreement};
ghost use Rattle.kz_laws_runs.specs.Pairs.{EmptyIsSoundPair, RunsLeaveSoundPairs, MomentsAreSoundPairs, ReplayMomentsArePairs, ReplayMomentsAreSoundPairs};

/// In every run from a sound pair of a tree and a log, a migration is committed whole or not at all, as the translation of the
/// znodes that stand at its commit. Each migrated znode agrees with the log, path by path, and all of them where none was written
/// since the offset was recorded. While the log is migrated, a KRaft controller holds the tree, and what is recorded can be read
/// and agrees with the log. After the migration is finalised it stays so, and no step, turn or rollback changes the tree or the
/// log.
pub fn runs_keep_promises()
    ensures committed { RunsCommitWhole }
    ensures agree { RunsAgree }
    ensures recorded { RunsStayAsRecorded }
    ensures in_agreement { RunsStayInAgreement }
    ensures finalised { RunsStayFinalised }
{}

/// From every sound world on in which each path of the migrated area agrees with the log, they stay in agreement, at each moment
/// of every event and of every run. From every sound world on a migrated log and its tree are in agreement.
pub fn paths_stay_agreed()
    ensures event { EventsKeepPaths }
    ensures run { RunsKeepPaths }
    ensures whole { RunsKeepAgreement }
{}

/// The empty tree and log are a sound pair. So are the tree and the log after a run from a sound pair, and those at each of its
/// moments, which a stop of the run may leave. So a further run may begin with them.
pub fn pairs_stay_sound()
    ensures empty { EmptyIsSoundPair }
    ensures run { RunsLeaveSoundPairs }
    ensures moments { MomentsAreSoundPairs }
{}

/// What a stop finds at a moment of a replay from a sound pair is the tree and the log of the run's beginning or after one of its
/// requests, and a sound pair. So a further replay may begin with what a stop of it leaves.
pub fn replay_moments_stay_sound()
    ensures pairs { ReplayMomentsArePairs }
    ensures sound { ReplayMomentsAreSoundPairs }
{}
