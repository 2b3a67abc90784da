//! Laws by example: what the program writes for worked scripts.
ghost use Rattle.std.specs.Prelude.{◌≡◌, ℕ, ℤ, List, [], ◌∷◌, drop, map, pos, negsuc, codes};
ghost use Rattle.kz_types.specs.declared.outside.Status.TheVariants as status;
ghost use Rattle.kz_spec_machine.specs.Machine.{empty_world};
ghost use Rattle.kz_spec_data.specs.Log.{end_of};
ghost use Rattle.kz_spec_machine.specs.Output.{written_and_status, outcome_of_replay, written_so_far};
ghost use Rattle.kz_spec_machine.specs.Moments.{replayed_moments};

/// One controller migrates an empty tree.
#[tactic(auto, unfolding(crate::proofs::RunsOnLiterals::runs_on_literals))]
pub fn first_migration()
    ensures { written_and_status (outcome_of_replay empty_world (codes "{\"event\":\"quorum\",\"ids\":[3000]}\n{\"event\":\"start\",\"controller\":3000}\n{\"event\":\"elect\",\"controller\":3000}\n{\"event\":\"turn\",\"controller\":3000}\n{\"event\":\"check\"}\n"))
        ≡ (codes "1 done\n2 done\n3 elected 1 1\n4 moved WAIT_FOR_BROKERS\n4 looked\n4 moved BECOME_CONTROLLER\n4 looked\n4 claimed 1\n4 read 0\n4 appended 2\n4 appended 4\n4 looked\n4 read 0\n4 recorded 4\n4 moved DUAL_WRITE\n4 idle\n5 closed 4\nend events=5 steps=13 zxid=2 offset=4 recorded=4\n", status.Done) }
{}

/// A change of a broker's configuration is written back.
#[tactic(auto, unfolding(crate::proofs::RunsOnLiterals::runs_on_literals))]
pub fn write_back()
    ensures { written_and_status (outcome_of_replay empty_world (codes "{\"event\":\"quorum\",\"ids\":[3000]}\n{\"event\":\"start\",\"controller\":3000}\n{\"event\":\"elect\",\"controller\":3000}\n{\"event\":\"turn\",\"controller\":3000}\n{\"event\":\"check\"}\n{\"event\":\"change\",\"controller\":3000,\"records\":[{\"kind\":\"Config\",\"resourceType\":4,\"resourceName\":\"1\",\"name\":\"a\",\"value\":\"1\"}]}\n{\"event\":\"check\"}\n{\"event\":\"turn\",\"controller\":3000}\n{\"event\":\"check\"}\n"))
        ≡ (codes "1 done\n2 done\n3 elected 1 1\n4 moved WAIT_FOR_BROKERS\n4 looked\n4 moved BECOME_CONTROLLER\n4 looked\n4 claimed 1\n4 read 0\n4 appended 2\n4 appended 4\n4 looked\n4 read 0\n4 recorded 4\n4 moved DUAL_WRITE\n4 idle\n5 closed 4\n6 appended 5\n7 closed 4\n8 looked\n8 recorded 5\n8 idle\n9 closed 5\nend events=9 steps=16 zxid=3 offset=5 recorded=5\n", status.Done) }
{}

/// The registration of a broker is recorded.
#[tactic(auto, unfolding(crate::proofs::RunsOnLiterals::runs_on_literals))]
pub fn registration()
    ensures { written_and_status (outcome_of_replay empty_world (codes "{\"event\":\"quorum\",\"ids\":[3000]}\n{\"event\":\"start\",\"controller\":3000}\n{\"event\":\"elect\",\"controller\":3000}\n{\"event\":\"turn\",\"controller\":3000}\n{\"event\":\"register\",\"controller\":3000,\"broker\":1,\"migrating\":true}\n{\"event\":\"turn\",\"controller\":3000}\n"))
        ≡ (codes "1 done\n2 done\n3 elected 1 1\n4 moved WAIT_FOR_BROKERS\n4 looked\n4 moved BECOME_CONTROLLER\n4 looked\n4 claimed 1\n4 read 0\n4 appended 2\n4 appended 4\n4 looked\n4 read 0\n4 recorded 4\n4 moved DUAL_WRITE\n4 idle\n5 appended 5\n6 looked\n6 recorded 5\n6 idle\nend events=6 steps=16 zxid=3 offset=5 recorded=5\n", status.Done) }
{}

/// A migration waits for a broker of the tree until it is registered.
#[tactic(auto, unfolding(crate::proofs::RunsOnLiterals::runs_on_literals))]
pub fn awaited_broker()
    ensures { written_and_status (outcome_of_replay empty_world (codes "{\"event\":\"quorum\",\"ids\":[3000]}\n{\"event\":\"zk\",\"ops\":[{\"op\":\"create\",\"path\":\"/brokers\"},{\"op\":\"create\",\"path\":\"/brokers/ids\"},{\"op\":\"create\",\"path\":\"/brokers/ids/1\"}]}\n{\"event\":\"start\",\"controller\":3000}\n{\"event\":\"elect\",\"controller\":3000}\n{\"event\":\"turn\",\"controller\":3000}\n{\"event\":\"register\",\"controller\":3000,\"broker\":1,\"migrating\":true}\n{\"event\":\"turn\",\"controller\":3000}\n"))
        ≡ (codes "1 done\n2 done 1\n3 done\n4 elected 1 1\n5 moved WAIT_FOR_BROKERS\n5 looked\n5 wait-broker 1\n6 appended 2\n7 looked\n7 moved BECOME_CONTROLLER\n7 looked\n7 claimed 1\n7 read 0\n7 appended 3\n7 appended 5\n7 looked\n7 read 0\n7 recorded 5\n7 moved DUAL_WRITE\n7 idle\nend events=7 steps=15 zxid=3 offset=5 recorded=5\n", status.Done) }
{}

/// Refusals of starts and of a change.
#[tactic(auto, unfolding(crate::proofs::RunsOnLiterals::runs_on_literals))]
pub fn refusals()
    ensures { written_and_status (outcome_of_replay empty_world (codes "{\"event\":\"quorum\",\"ids\":[3000]}\n{\"event\":\"start\",\"controller\":3001}\n{\"event\":\"start\",\"controller\":3000}\n{\"event\":\"start\",\"controller\":3000}\n{\"event\":\"change\",\"controller\":3000,\"records\":[{\"kind\":\"Config\",\"resourceType\":4,\"resourceName\":\"1\",\"name\":\"a\",\"value\":\"1\"}]}\n"))
        ≡ (codes "1 done\n2 unknown-controller\n3 done\n4 already-running\n5 not-leader\nend events=5 steps=0 zxid=0 offset=-1 recorded=none\n", status.Done) }
{}

/// A line that is no event ends the run before anything is written.
#[tactic(auto, unfolding(crate::proofs::RunsOnLiterals::runs_on_literals))]
pub fn no_event()
    ensures { written_and_status (outcome_of_replay empty_world (codes "{\"event\":\"pause\"}\n"))
        ≡ ([], status.Script 1) }
{}

/// What stands after the last line feed has no reply yet.
#[tactic(auto, unfolding(crate::proofs::RunsOnLiterals::runs_on_literals))]
pub fn unfinished_line()
    ensures { (written_so_far empty_world (codes "{\"event\":\"quorum\",\"ids\":[3000]}\n{\"event\":\"start\",\"controller\":3000}")).text ≡ codes "1 done\n" }
{}

/// What a stop may find while a controller is elected: its record stands in the log before the line of its event is written.
#[tactic(auto, unfolding(crate::proofs::RunsOnLiterals::runs_on_literals))]
pub fn moments_of_an_election()
    ensures { map {B = List ℕ × List ℕ × ℤ} (λ m. (m.text, m.reply, end_of m.pair.log)) (replayed_moments empty_world (codes "{\"event\":\"quorum\",\"ids\":[3000]}\n{\"event\":\"start\",\"controller\":3000}\n{\"event\":\"elect\",\"controller\":3000}\n"))
        ≡ (([], [], negsuc 0)
        ∷ ([], codes "1 done\n", negsuc 0)
        ∷ (codes "1 done\n", [], negsuc 0)
        ∷ (codes "1 done\n", codes "2 done\n", negsuc 0)
        ∷ (codes "1 done\n2 done\n", [], negsuc 0)
        ∷ (codes "1 done\n2 done\n", [], pos 1)
        ∷ (codes "1 done\n2 done\n", codes "3 elected 1 1\n", pos 1)
        ∷ (codes "1 done\n2 done\n3 elected 1 1\n", codes "end events=3 steps=0 zxid=0 offset=1 recorded=none\n", pos 1)
        ∷ []) }
{}

/// What a stop may find in a turn: before each step the lines of the steps before it may stand, whole or in part.
#[tactic(auto, unfolding(crate::proofs::RunsOnLiterals::runs_on_literals))]
pub fn moments_of_a_turn()
    ensures { drop 10 (map {B = List ℕ × List ℕ} (λ m. (m.text, m.reply)) (replayed_moments empty_world (codes "{\"event\":\"quorum\",\"ids\":[3000]}\n{\"event\":\"zk\",\"ops\":[{\"op\":\"create\",\"path\":\"/brokers\"},{\"op\":\"create\",\"path\":\"/brokers/ids\"},{\"op\":\"create\",\"path\":\"/brokers/ids/1\"}]}\n{\"event\":\"start\",\"controller\":3000}\n{\"event\":\"elect\",\"controller\":3000}\n{\"event\":\"turn\",\"controller\":3000}\n")))
        ≡ ((codes "1 done\n2 done 1\n3 done\n4 elected 1 1\n", [])
        ∷ (codes "1 done\n2 done 1\n3 done\n4 elected 1 1\n", [])
        ∷ (codes "1 done\n2 done 1\n3 done\n4 elected 1 1\n", [])
        ∷ (codes "1 done\n2 done 1\n3 done\n4 elected 1 1\n", codes "5 moved WAIT_FOR_BROKERS\n")
        ∷ (codes "1 done\n2 done 1\n3 done\n4 elected 1 1\n", codes "5 moved WAIT_FOR_BROKERS\n")
        ∷ (codes "1 done\n2 done 1\n3 done\n4 elected 1 1\n", codes "5 moved WAIT_FOR_BROKERS\n5 looked\n")
        ∷ (codes "1 done\n2 done 1\n3 done\n4 elected 1 1\n", codes "5 moved WAIT_FOR_BROKERS\n5 looked\n")
        ∷ (codes "1 done\n2 done 1\n3 done\n4 elected 1 1\n", codes "5 moved WAIT_FOR_BROKERS\n5 looked\n5 wait-broker 1\n")
        ∷ (codes "1 done\n2 done 1\n3 done\n4 elected 1 1\n5 moved WAIT_FOR_BROKERS\n5 looked\n5 wait-broker 1\n", codes "end events=5 steps=3 zxid=1 offset=1 recorded=none\n")
        ∷ []) }
{}
