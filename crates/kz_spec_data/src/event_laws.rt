//! Which events some lines are.
ghost use Rattle.std.specs.Prelude.{◌≡◌, [], ◌∷◌, ◌++◌, None, Some, true, pos, codes};
ghost use Rattle.kz_types.specs.declared.machine.Event.TheVariants.{Quorum, Start, Stop, Elect, Step, Turn, Register, Change, Finalise, Rollback, Check};
ghost use Rattle.kz_types.specs.declared.plan.Plan.TheVariants.{Deliver, LostBefore, LostAfter, Expired};
ghost use Rattle.kz_types.specs.declared.record.MetaRecord.TheVariants.{Config};
ghost use Rattle.kz_spec_data.specs.Events.{line_event};

/// The lines of a first migration.
#[tactic(auto, unfolding(crate::proofs::LinesOnLiterals::lines_on_literals))]
pub fn a_migration()
    ensures quorum { line_event (codes "{\"event\":\"quorum\",\"ids\":[3000]}") ≡ Some (Quorum (pos 3000 ∷ [])) }
    ensures start { line_event (codes "{\"event\":\"start\",\"controller\":3000}") ≡ Some (Start (pos 3000)) }
    ensures elect { line_event (codes "{\"event\":\"elect\",\"controller\":3000}") ≡ Some (Elect (pos 3000) (pos 0)) }
    ensures turn { line_event (codes "{\"event\":\"turn\",\"controller\":3000}") ≡ Some (Turn (pos 3000) (pos 0)) }
    ensures check { line_event (codes "{\"event\":\"check\"}") ≡ Some Check }
{}

/// A change of a broker's configuration, of the one of all brokers, and one without a value.
#[tactic(auto, unfolding(crate::proofs::LinesOnLiterals::lines_on_literals))]
pub fn a_change()
    ensures broker { line_event (codes "{\"event\":\"change\",\"controller\":3000,\"records\":[{\"kind\":\"Config\",\"resourceType\":4,\"resourceName\":\"1\",\"name\":\"a\",\"value\":\"1\"}]}")
        ≡ Some (Change (pos 3000) (Config (record { resource_type = pos 4; resource_name = codes "1"; name = codes "a"; value = Some (codes "1") }) ∷ []) (pos 0)) }
    ensures brokers { line_event (codes "{\"now\":7,\"records\":[{\"value\":null,\"name\":\"a\",\"resourceName\":\"\",\"resourceType\":4,\"kind\":\"Config\"}],\"controller\":1,\"event\":\"change\"}")
        ≡ Some (Change (pos 1) (Config (record { resource_type = pos 4; resource_name = []; name = codes "a"; value = None }) ∷ []) (pos 7)) }
{}

/// The end of a migration, and its taking back.
#[tactic(auto, unfolding(crate::proofs::LinesOnLiterals::lines_on_literals))]
pub fn ways_out()
    ensures finalise { line_event (codes "{\"event\":\"finalise\",\"controller\":3000}") ≡ Some (Finalise (pos 3000) (pos 0)) }
    ensures timed { line_event (codes "{\"event\":\"finalise\",\"now\":5,\"controller\":0}") ≡ Some (Finalise (pos 0) (pos 5)) }
    ensures unnamed { line_event (codes "{\"event\":\"finalise\"}") ≡ None }
    ensures rollback { line_event (codes "{\"event\":\"rollback\"}") ≡ Some Rollback }
    ensures of_one { line_event (codes "{\"event\":\"rollback\",\"controller\":3000}") ≡ None }
{}

/// Blanks around a value, the order of members and escapes mean nothing. The last of two equal members counts.
#[tactic(auto, unfolding(crate::proofs::LinesOnLiterals::lines_on_literals))]
pub fn other_spellings()
    ensures blanks { line_event (codes " { \"event\" : \"check\" } \r") ≡ Some Check }
    ensures escaped { line_event (codes "{\"\\u0065vent\":\"ch\\u0065ck\"}") ≡ Some Check }
    ensures ordered { line_event (codes "{\"controller\":1,\"now\":5,\"event\":\"turn\"}") ≡ Some (Turn (pos 1) (pos 5)) }
    ensures repeated { line_event (codes "{\"event\":\"turn\",\"event\":\"start\",\"controller\":1,\"controller\":2}") ≡ Some (Start (pos 2)) }
    ensures greatest { line_event (codes "{\"event\":\"elect\",\"controller\":2147483647,\"now\":9223372036854775807}") ≡ Some (Elect (pos 2147483647) (pos 9223372036854775807)) }
{}

/// Numbers that are no ids and no times.
#[tactic(auto, unfolding(crate::proofs::LinesOnLiterals::lines_on_literals))]
pub fn no_whole_numbers()
    ensures point { line_event (codes "{\"event\":\"start\",\"controller\":1.0}") ≡ None }
    ensures exponent { line_event (codes "{\"event\":\"start\",\"controller\":1e0}") ≡ None }
    ensures signed { line_event (codes "{\"event\":\"start\",\"controller\":-0}") ≡ None }
    ensures negative { line_event (codes "{\"event\":\"start\",\"controller\":-1}") ≡ None }
    ensures text { line_event (codes "{\"event\":\"start\",\"controller\":\"1\"}") ≡ None }
    ensures late { line_event (codes "{\"event\":\"elect\",\"controller\":1,\"now\":9223372036854775808}") ≡ None }
    ensures absent { line_event (codes "{\"event\":\"elect\",\"controller\":1,\"now\":null}") ≡ None }
{}

/// Lines with other members than an event's, and lines that are no objects.
#[tactic(auto, unfolding(crate::proofs::LinesOnLiterals::lines_on_literals))]
pub fn no_events()
    ensures empty { line_event [] ≡ None }
    ensures comment { line_event (codes "# a") ≡ None }
    ensures bare { line_event (codes "{}") ≡ None }
    ensures list { line_event (codes "[]") ≡ None }
    ensures extra { line_event (codes "{\"event\":\"check\",\"now\":1}") ≡ None }
    ensures missing { line_event (codes "{\"event\":\"start\"}") ≡ None }
    ensures unknown { line_event (codes "{\"event\":\"pause\"}") ≡ None }
    ensures after { line_event (codes "{\"event\":\"check\"}x") ≡ None }
    ensures not_utf8 { line_event (codes "{\"event\":\"check\"" ++ (255 ∷ codes "}")) ≡ None }
{}

/// Changes that aren't taken.
#[tactic(auto, unfolding(crate::proofs::LinesOnLiterals::lines_on_literals))]
pub fn no_changes()
    ensures none { line_event (codes "{\"event\":\"change\",\"controller\":1,\"records\":[]}") ≡ None }
    ensures no_value { line_event (codes "{\"event\":\"change\",\"controller\":1,\"records\":[{\"kind\":\"Config\",\"resourceType\":4,\"resourceName\":\"\",\"name\":\"a\"}]}") ≡ None }
    ensures no_record { line_event (codes "{\"event\":\"change\",\"controller\":1,\"records\":[{\"kind\":\"NoOp\"},{\"kind\":\"Nop\"}]}") ≡ None }
{}

/// Registrations, and changes of several records.
#[tactic(auto, unfolding(crate::proofs::LinesOnLiterals::lines_on_literals))]
pub fn registrations_and_changes()
    ensures registered { line_event (codes "{\"event\":\"register\",\"controller\":1,\"broker\":2,\"migrating\":true,\"now\":3}") ≡ Some (Register (pos 1) (pos 2) true (pos 3)) }
    ensures no_flag { line_event (codes "{\"event\":\"register\",\"controller\":1,\"broker\":2}") ≡ None }
    ensures number { line_event (codes "{\"event\":\"register\",\"controller\":1,\"broker\":2,\"migrating\":1}") ≡ None }
    ensures two { line_event (codes "{\"event\":\"change\",\"controller\":1,\"records\":[{\"kind\":\"Config\",\"resourceType\":4,\"resourceName\":\"01\",\"name\":\"\",\"value\":null},{\"kind\":\"Config\",\"resourceType\":4,\"resourceName\":\"\",\"name\":\"a\",\"value\":\"1\"}]}")
        ≡ Some (Change (pos 1) (Config (record { resource_type = pos 4; resource_name = codes "01"; name = []; value = None }) ∷ Config (record { resource_type = pos 4; resource_name = []; name = codes "a"; value = Some (codes "1") }) ∷ []) (pos 0)) }
{}

/// Several controllers are declared, of which no two have the same id, and one of them or all are stopped.
#[tactic(auto, unfolding(crate::proofs::LinesOnLiterals::lines_on_literals))]
pub fn several_controllers()
    ensures two { line_event (codes "{\"event\":\"quorum\",\"ids\":[3001,3000]}") ≡ Some (Quorum (pos 3001 ∷ pos 3000 ∷ [])) }
    ensures none { line_event (codes "{\"event\":\"quorum\",\"ids\":[]}") ≡ Some (Quorum []) }
    ensures twice { line_event (codes "{\"event\":\"quorum\",\"ids\":[1,2,1]}") ≡ None }
    ensures text { line_event (codes "{\"event\":\"quorum\",\"ids\":[1,\"2\"]}") ≡ None }
    ensures one_stops { line_event (codes "{\"event\":\"stop\",\"controller\":3000}") ≡ Some (Stop (Some (pos 3000))) }
    ensures all_stop { line_event (codes "{\"event\":\"stop\"}") ≡ Some (Stop None) }
    ensures null_stops { line_event (codes "{\"event\":\"stop\",\"controller\":null}") ≡ None }
    ensures timed_stop { line_event (codes "{\"event\":\"stop\",\"now\":0}") ≡ None }
{}

/// Steps, whose requests are delivered where no plan is named.
#[tactic(auto, unfolding(crate::proofs::LinesOnLiterals::lines_on_literals))]
pub fn steps()
    ensures absent { line_event (codes "{\"event\":\"step\",\"controller\":1}") ≡ Some (Step (pos 1) (pos 0) Deliver) }
    ensures deliver { line_event (codes "{\"event\":\"step\",\"controller\":1,\"plan\":\"deliver\",\"now\":2}") ≡ Some (Step (pos 1) (pos 2) Deliver) }
    ensures lost_before { line_event (codes "{\"event\":\"step\",\"controller\":1,\"plan\":\"lost-before\"}") ≡ Some (Step (pos 1) (pos 0) LostBefore) }
    ensures lost_after { line_event (codes "{\"event\":\"step\",\"controller\":1,\"plan\":\"lost-after\"}") ≡ Some (Step (pos 1) (pos 0) LostAfter) }
    ensures expired { line_event (codes "{\"event\":\"step\",\"controller\":1,\"plan\":\"expired\"}") ≡ Some (Step (pos 1) (pos 0) Expired) }
    ensures other { line_event (codes "{\"event\":\"step\",\"controller\":1,\"plan\":\"lost\"}") ≡ None }
    ensures null { line_event (codes "{\"event\":\"step\",\"controller\":1,\"plan\":null}") ≡ None }
    ensures no_controller { line_event (codes "{\"event\":\"step\",\"plan\":\"deliver\"}") ≡ None }
{}
