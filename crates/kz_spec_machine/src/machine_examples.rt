//! Laws by example: the definitions computed on worked runs.
ghost use Rattle.std.specs.Prelude.{◌≡◌, true, List, [], ◌∷◌, ◌++◌, Some, pos, codes};
ghost use Rattle.kz_types.specs.declared.machine.Event.{Event};
ghost use Rattle.kz_types.specs.declared.machine.Event.TheVariants as event;
ghost use Rattle.kz_types.specs.declared.machine.Answer.TheVariants as answer;
ghost use Rattle.kz_types.specs.declared.machine.Reply.TheVariants as reply;
ghost use Rattle.kz_types.specs.declared.machine.DriverState.TheVariants as state;
ghost use Rattle.kz_types.specs.declared.machine.Verdict.TheVariants as verdict;
ghost use Rattle.kz_types.specs.declared.plan.Plan.TheVariants as plan;
ghost use Rattle.kz_spec_machine.specs.Machine.{answers, empty_world};
ghost use Rattle.kz_spec_machine.specs.Examples.{one_member, migration_events, migration_answers, failover_events, failover_answers};

/// An election of the first controller.
#[tactic(auto, unfolding(crate::proofs::MachineOnLiterals::machine_on_literals))]
pub fn first_election()
    ensures { answers empty_world (event.Quorum (pos 3000 ∷ []) ∷ event.Start (pos 3000) ∷ event.Elect (pos 3000) (pos 0) ∷ [])
        ≡ answer.Done ∷ answer.Done ∷ answer.Elected (pos 1) (pos 1) ∷ [] }
{}

/// One controller migrates an empty tree.
#[tactic(auto, unfolding(crate::proofs::MachineOnLiterals::machine_on_literals))]
pub fn first_migration()
    ensures { answers empty_world (migration_events ++ event.Check ∷ []) ≡ migration_answers ++ answer.Check (verdict.Closed (pos 4)) ∷ [] }
{}

/// A change of a broker's configuration is written back by the next turn.
#[tactic(auto, unfolding(crate::proofs::MachineOnLiterals::machine_on_literals))]
pub fn write_back()
    ensures { answers empty_world (migration_events ++ event.Change (pos 3000) (one_member ∷ []) (pos 0) ∷ event.Check ∷ event.Turn (pos 3000) (pos 0) ∷ event.Check ∷ [])
        ≡ migration_answers ++ answer.Appended (pos 5) ∷ answer.Check (verdict.Closed (pos 4))
        ∷ answer.Turn (reply.Looked ∷ reply.Recorded (pos 5) ∷ reply.Idle ∷ []) ∷ answer.Check (verdict.Closed (pos 5)) ∷ [] }
{}

/// Refusals of starts, and of a change by a controller that wasn't elected.
#[tactic(auto, unfolding(crate::proofs::MachineOnLiterals::machine_on_literals))]
pub fn refusals()
    ensures { answers empty_world (event.Quorum (pos 3000 ∷ []) ∷ event.Start (pos 3001) ∷ event.Start (pos 3000) ∷ event.Start (pos 3000) ∷ event.Change (pos 3000) (one_member ∷ []) (pos 0) ∷ [])
        ≡ answer.Done ∷ answer.UnknownController ∷ answer.Done ∷ answer.AlreadyRunning ∷ answer.NotLeader ∷ [] }
{}

/// At most nine controllers are declared, and only while none runs; one stops, or all do.
#[tactic(auto, unfolding(crate::proofs::MachineOnLiterals::machine_on_literals))]
pub fn several_controllers()
    ensures too_many { answers empty_world (event.Quorum (pos 1 ∷ pos 2 ∷ pos 3 ∷ pos 4 ∷ pos 5 ∷ pos 6 ∷ pos 7 ∷ pos 8 ∷ pos 9 ∷ pos 10 ∷ []) ∷ []) ≡ answer.Over 9 ∷ [] }
    ensures stops { answers empty_world (event.Quorum (pos 1 ∷ pos 2 ∷ []) ∷ event.Start (pos 2) ∷ event.Start (pos 1) ∷ event.Quorum (pos 1 ∷ []) ∷ event.Stop (Some (pos 1)) ∷ event.Stop (Some (pos 1)) ∷ event.Stop (Some (pos 3)) ∷ event.Quorum [] ∷ event.Stop None ∷ event.Quorum [] ∷ event.Stop None ∷ [])
        ≡ answer.Done ∷ answer.Done ∷ answer.Done ∷ answer.Running (pos 1) ∷ answer.Done ∷ answer.NotRunning ∷ answer.UnknownController ∷ answer.Running (pos 2) ∷ answer.Done ∷ answer.Done ∷ answer.Done ∷ [] }
{}

/// Steps under each plan. A step without a request loses none, and the log knows no sessions. A claim whose answer is lost
/// was made, so that the next one has the number above. An append in an old epoch is stale.
#[tactic(auto, unfolding(crate::proofs::MachineOnLiterals::machine_on_literals))]
pub fn lost_requests()
    ensures { answers empty_world (event.Quorum (pos 1 ∷ pos 2 ∷ []) ∷ event.Start (pos 1) ∷ event.Start (pos 2) ∷ event.Step (pos 1) (pos 0) plan.LostBefore ∷ event.Step (pos 1) (pos 0) plan.Deliver ∷ event.Elect (pos 1) (pos 0)
        ∷ event.Step (pos 1) (pos 0) plan.LostBefore ∷ event.Step (pos 1) (pos 0) plan.Expired ∷ event.Step (pos 1) (pos 0) plan.Deliver ∷ event.Step (pos 1) (pos 0) plan.Expired ∷ event.Step (pos 1) (pos 0) plan.Deliver ∷ event.Step (pos 1) (pos 0) plan.Deliver
        ∷ event.Step (pos 1) (pos 0) plan.Deliver ∷ event.Step (pos 1) (pos 0) plan.LostAfter ∷ event.Step (pos 1) (pos 0) plan.Deliver ∷ event.Step (pos 1) (pos 0) plan.Deliver ∷ event.Step (pos 1) (pos 0) plan.Deliver
        ∷ event.Elect (pos 2) (pos 0) ∷ event.Step (pos 1) (pos 0) plan.Deliver ∷ event.Step (pos 1) (pos 0) plan.LostAfter ∷ [])
        ≡ answer.Done ∷ answer.Done ∷ answer.Done ∷ answer.Step (reply.Moved state.Inactive) ∷ answer.Step reply.Idle ∷ answer.Elected (pos 1) (pos 1)
        ∷ answer.Step reply.Lost ∷ answer.Step (reply.Moved state.WaitForBrokers) ∷ answer.Step reply.Looked ∷ answer.Step reply.Expired ∷ answer.Step reply.Looked ∷ answer.Step (reply.Moved state.BecomeController)
        ∷ answer.Step reply.Looked ∷ answer.Step reply.Lost ∷ answer.Step reply.Looked ∷ answer.Step (reply.Claimed (pos 2)) ∷ answer.Step (reply.Read 0)
        ∷ answer.Elected (pos 2) (pos 2) ∷ answer.Step (reply.Stale (pos 2)) ∷ answer.Step reply.Idle ∷ [] }
{}

/// Another controller takes over after the migration. The first one can neither append nor write.
#[tactic(auto, unfolding(crate::proofs::MachineOnLiterals::machine_on_literals))]
pub fn failover()
    ensures { answers empty_world (failover_events ++ event.Change (pos 1) (one_member ∷ []) (pos 0) ∷ event.Step (pos 1) (pos 0) plan.Deliver ∷ event.Step (pos 1) (pos 0) plan.Deliver ∷ event.Check ∷ [])
        ≡ failover_answers ++ answer.Stale (pos 2) ∷ answer.Step reply.Looked ∷ answer.Step (reply.FencedWrite (pos 0)) ∷ answer.Check (verdict.Closed (pos 5)) ∷ [] }
{}

/// A migration is finalised, and the driver resigns at its next step. Before the commit it can't be.
#[tactic(auto, unfolding(crate::proofs::MachineOnLiterals::machine_on_literals))]
pub fn finalised()
    ensures before { answers empty_world (event.Quorum (pos 1 ∷ []) ∷ event.Finalise (pos 2) (pos 0) ∷ event.Finalise (pos 1) (pos 0) ∷ event.Start (pos 1) ∷ event.Finalise (pos 1) (pos 0) ∷ event.Elect (pos 1) (pos 0) ∷ event.Finalise (pos 1) (pos 0) ∷ [])
        ≡ answer.Done ∷ answer.UnknownController ∷ answer.NotRunning ∷ answer.Done ∷ answer.NotLeader ∷ answer.Elected (pos 1) (pos 1) ∷ answer.NotMigrated ∷ [] }
    ensures after { answers empty_world (migration_events ++ event.Finalise (pos 3000) (pos 0) ∷ event.Finalise (pos 3000) (pos 0) ∷ event.Turn (pos 3000) (pos 0) ∷ event.Finalise (pos 3000) (pos 0) ∷ event.Check ∷ event.Stop None ∷ event.Rollback ∷ [])
        ≡ migration_answers ++ answer.Appended (pos 5) ∷ answer.Finalised ∷ answer.Turn (reply.Moved state.Inactive ∷ reply.Idle ∷ []) ∷ answer.NotLeader ∷ answer.Check (verdict.Closed (pos 4)) ∷ answer.Done ∷ answer.Finalised ∷ [] }
    ensures not_yet { answers empty_world (migration_events ++ event.Change (pos 3000) (one_member ∷ []) (pos 0) ∷ event.Finalise (pos 3000) (pos 0) ∷ event.Elect (pos 3000) (pos 0) ∷ event.Finalise (pos 3000) (pos 0) ∷ [])
        ≡ migration_answers ++ answer.Appended (pos 5) ∷ answer.Behind (pos 4) (pos 5) ∷ answer.Elected (pos 2) (pos 6) ∷ answer.NotDualWrite state.WaitForControllerQuorum ∷ [] }
{}

/// A migration is taken back once no controller runs and ZooKeeper has all of the metadata. A further one begins with what
/// stands there.
#[tactic(auto, unfolding(crate::proofs::MachineOnLiterals::machine_on_literals))]
pub fn taken_back()
    ensures nothing { answers empty_world (event.Rollback ∷ []) ≡ answer.RolledBack ∷ [] }
    ensures runs { answers empty_world (migration_events ++ event.Rollback ∷ []) ≡ migration_answers ++ answer.Running (pos 3000) ∷ [] }
    ensures not_yet { answers empty_world (migration_events ++ event.Register (pos 3000) (pos 1) true (pos 0) ∷ event.Stop None ∷ event.Rollback ∷ [])
        ≡ migration_answers ++ answer.Appended (pos 5) ∷ answer.Done ∷ answer.Behind (pos 4) (pos 5) ∷ [] }
    ensures again { answers empty_world (migration_events ++ event.Stop None ∷ event.Rollback ∷ event.Check ∷ event.Start (pos 3000) ∷ event.Elect (pos 3000) (pos 0) ∷ event.Turn (pos 3000) (pos 0) ∷ [])
        ≡ migration_answers ++ answer.Done ∷ answer.RolledBack ∷ answer.Check verdict.Unmigrated ∷ answer.Done ∷ answer.Elected (pos 2) (pos 1)
        ∷ answer.Turn (reply.Moved state.WaitForBrokers ∷ reply.Looked ∷ reply.Moved state.BecomeController ∷ reply.Looked
        ∷ reply.Claimed (pos 2) ∷ reply.Read 17 ∷ reply.Appended (pos 2) ∷ reply.Appended (pos 4) ∷ reply.Looked ∷ reply.Read 17
        ∷ reply.Recorded (pos 4) ∷ reply.Moved state.DualWrite ∷ reply.Idle ∷ []) ∷ [] }
{}
