//! The lines of some events.
ghost use Rattle.std.specs.Prelude.{◌≡◌, [], ◌∷◌, None, Some, pos, negsuc, codes};
ghost use Rattle.kz_types.specs.declared.machine.Event.TheVariants.{Quorum, Start, Stop, Elect, Step, Turn, Change, Finalise, Rollback, Check, ZkOpen, ZkExpire, Zk};
ghost use Rattle.kz_types.specs.declared.plan.Plan.TheVariants.{Deliver, LostBefore, LostAfter, Expired};
ghost use Rattle.kz_types.specs.declared.record.MetaRecord.TheVariants.{Config};
ghost use Rattle.kz_types.specs.declared.tree.Op.TheVariants as op;
ghost use Rattle.kz_spec_data.specs.Written.{written_event};

/// A line of each event.
#[tactic(auto, unfolding(crate::proofs::LinesOnLiterals::lines_on_literals))]
pub fn a_line_of_each()
    ensures quorum { written_event (Quorum (pos 3000 ∷ [])) ≡ codes "{\"event\":\"quorum\",\"ids\":[3000]}" }
    ensures start { written_event (Start (pos 3000)) ≡ codes "{\"controller\":3000,\"event\":\"start\"}" }
    ensures elect { written_event (Elect (pos 3000) (pos 0)) ≡ codes "{\"controller\":3000,\"event\":\"elect\"}" }
    ensures turn { written_event (Turn (pos 3000) (pos 5)) ≡ codes "{\"controller\":3000,\"event\":\"turn\",\"now\":5}" }
    ensures change { written_event (Change (pos 3000) (Config (record { resource_type = pos 4; resource_name = codes "1"; name = codes "a"; value = None }) ∷ []) (pos 0))
        ≡ codes "{\"controller\":3000,\"event\":\"change\",\"records\":[{\"kind\":\"Config\",\"name\":\"a\",\"resourceName\":\"1\",\"resourceType\":4,\"value\":null}]}" }
    ensures finalise { written_event (Finalise (pos 3000) (pos 0)) ≡ codes "{\"controller\":3000,\"event\":\"finalise\"}" }
    ensures rollback { written_event Rollback ≡ codes "{\"event\":\"rollback\"}" }
    ensures check { written_event Check ≡ codes "{\"event\":\"check\"}" }
    ensures open { written_event (ZkOpen (pos 7)) ≡ codes "{\"event\":\"zk-open\",\"session\":7}" }
    ensures expire { written_event (ZkExpire (pos 7)) ≡ codes "{\"event\":\"zk-expire\",\"session\":7}" }
    ensures zk { written_event (Zk (op.Create (codes "/a") (codes "b") (Some (pos 7)) ∷ op.Set (codes "/a") (255 ∷ []) (negsuc 0) ∷ op.Create (codes "/b") [] None ∷ op.Delete (codes "/a") (pos 1) ∷ op.Check (codes "/a") (pos 1) ∷ []))
        ≡ codes "{\"event\":\"zk\",\"ops\":[{\"op\":\"create\",\"owner\":7,\"path\":\"/a\",\"text\":\"b\"},{\"bytes\":\"/w==\",\"op\":\"set\",\"path\":\"/a\",\"version\":-1},{\"op\":\"create\",\"path\":\"/b\"},{\"op\":\"delete\",\"path\":\"/a\",\"version\":1},{\"op\":\"check\",\"path\":\"/a\",\"version\":1}]}" }
{}

/// Lines of several controllers, of stops, and of steps: a plan to deliver is left out.
#[tactic(auto, unfolding(crate::proofs::LinesOnLiterals::lines_on_literals))]
pub fn lines_of_several()
    ensures two { written_event (Quorum (pos 3001 ∷ pos 3000 ∷ [])) ≡ codes "{\"event\":\"quorum\",\"ids\":[3001,3000]}" }
    ensures one_stops { written_event (Stop (Some (pos 3000))) ≡ codes "{\"controller\":3000,\"event\":\"stop\"}" }
    ensures all_stop { written_event (Stop None) ≡ codes "{\"event\":\"stop\"}" }
    ensures deliver { written_event (Step (pos 1) (pos 0) Deliver) ≡ codes "{\"controller\":1,\"event\":\"step\"}" }
    ensures lost_before { written_event (Step (pos 1) (pos 5) LostBefore) ≡ codes "{\"controller\":1,\"event\":\"step\",\"now\":5,\"plan\":\"lost-before\"}" }
    ensures lost_after { written_event (Step (pos 1) (pos 0) LostAfter) ≡ codes "{\"controller\":1,\"event\":\"step\",\"plan\":\"lost-after\"}" }
    ensures expired { written_event (Step (pos 1) (pos 0) Expired) ≡ codes "{\"controller\":1,\"event\":\"step\",\"plan\":\"expired\"}" }
{}
