//! Which events the lines of ZooKeeper clients are.
ghost use Rattle.std.specs.Prelude.{◌≡◌, [], ◌∷◌, None, Some, pos, negsuc, codes};
ghost use Rattle.kz_types.specs.declared.machine.Event.TheVariants.{ZkOpen, ZkExpire, Zk};
ghost use Rattle.kz_types.specs.declared.tree.Op.TheVariants.{Create, Set, Delete, Check};
ghost use Rattle.kz_spec_data.specs.Events.{line_event};

/// Sessions that begin and end.
#[tactic(auto, unfolding(crate::proofs::LinesOnLiterals::lines_on_literals))]
pub fn sessions()
    ensures open { line_event (codes "{\"event\":\"zk-open\",\"session\":1}") ≡ Some (ZkOpen (pos 1)) }
    ensures expire { line_event (codes "{\"session\":9223372036854775807,\"event\":\"zk-expire\"}") ≡ Some (ZkExpire (pos 9223372036854775807)) }
    ensures zero { line_event (codes "{\"event\":\"zk-open\",\"session\":0}") ≡ None }
    ensures negative { line_event (codes "{\"event\":\"zk-open\",\"session\":-1}") ≡ None }
    ensures large { line_event (codes "{\"event\":\"zk-open\",\"session\":9223372036854775808}") ≡ None }
    ensures point { line_event (codes "{\"event\":\"zk-expire\",\"session\":1.0}") ≡ None }
    ensures text { line_event (codes "{\"event\":\"zk-expire\",\"session\":\"1\"}") ≡ None }
    ensures missing { line_event (codes "{\"event\":\"zk-open\"}") ≡ None }
    ensures extra { line_event (codes "{\"event\":\"zk-open\",\"session\":1,\"now\":0}") ≡ None }
{}

/// Multis: each operation, each form of a body, and paths inside and outside of the migrated area.
#[tactic(auto, unfolding(crate::proofs::LinesOnLiterals::lines_on_literals))]
pub fn multis()
    ensures several { line_event (codes "{\"event\":\"zk\",\"ops\":[{\"op\":\"create\",\"path\":\"/a\",\"text\":\"b\",\"owner\":7},{\"op\":\"set\",\"path\":\"/config/brokers/1\",\"bytes\":\"/w==\",\"version\":-1},{\"op\":\"delete\",\"path\":\"/controller\",\"version\":0},{\"op\":\"check\",\"path\":\"/config/topics\",\"version\":2147483647}]}")
        ≡ Some (Zk (Create (codes "/a") (codes "b") (Some (pos 7)) ∷ Set (codes "/config/brokers/1") (255 ∷ []) (negsuc 0) ∷ Delete (codes "/controller") (pos 0) ∷ Check (codes "/config/topics") (pos 2147483647) ∷ [])) }
    ensures empty { line_event (codes "{\"event\":\"zk\",\"ops\":[{\"op\":\"create\",\"path\":\"/config/brokers/<default>\"},{\"op\":\"set\",\"path\":\"/latest_producer_id_block\",\"text\":\"\",\"version\":0}]}")
        ≡ Some (Zk (Create (codes "/config/brokers/<default>") [] None ∷ Set (codes "/latest_producer_id_block") [] (pos 0) ∷ [])) }
    ensures migrated { line_event (codes "{\"event\":\"zk\",\"ops\":[{\"op\":\"create\",\"path\":\"/brokers/topics/t\"},{\"op\":\"create\",\"path\":\"/config/brokers/01\"},{\"op\":\"create\",\"path\":\"/latest_producer_id_block\",\"text\":\"1\"}]}")
        ≡ Some (Zk (Create (codes "/brokers/topics/t") [] None ∷ Create (codes "/config/brokers/01") [] None ∷ Create (codes "/latest_producer_id_block") (codes "1") None ∷ [])) }
{}

/// Lines that are no multi.
#[tactic(auto, unfolding(crate::proofs::LinesOnLiterals::lines_on_literals))]
pub fn no_multis()
    ensures none { line_event (codes "{\"event\":\"zk\",\"ops\":[]}") ≡ None }
    ensures no_list { line_event (codes "{\"event\":\"zk\",\"ops\":{}}") ≡ None }
    ensures extra { line_event (codes "{\"event\":\"zk\",\"ops\":[{\"op\":\"delete\",\"path\":\"/a\",\"version\":0}],\"session\":1}") ≡ None }
    ensures later { line_event (codes "{\"event\":\"zk\",\"ops\":[{\"op\":\"delete\",\"path\":\"/a\",\"version\":0},{\"op\":\"delete\",\"path\":\"/a\"}]}") ≡ None }
    ensures other { line_event (codes "{\"event\":\"zk\",\"ops\":[{\"op\":\"get\",\"path\":\"/a\",\"version\":0}]}") ≡ None }
    ensures member { line_event (codes "{\"event\":\"zk\",\"ops\":[{\"op\":\"delete\",\"path\":\"/a\",\"version\":0,\"owner\":1}]}") ≡ None }
{}

/// Bodies, paths, owners and versions that aren't taken.
#[tactic(auto, unfolding(crate::proofs::LinesOnLiterals::lines_on_literals))]
pub fn no_operations()
    ensures both { line_event (codes "{\"event\":\"zk\",\"ops\":[{\"op\":\"create\",\"path\":\"/a\",\"text\":\"\",\"bytes\":\"\"}]}") ≡ None }
    ensures no_padding { line_event (codes "{\"event\":\"zk\",\"ops\":[{\"op\":\"create\",\"path\":\"/a\",\"bytes\":\"/w\"}]}") ≡ None }
    ensures unused_bits { line_event (codes "{\"event\":\"zk\",\"ops\":[{\"op\":\"create\",\"path\":\"/a\",\"bytes\":\"/x==\"}]}") ≡ None }
    ensures other_alphabet { line_event (codes "{\"event\":\"zk\",\"ops\":[{\"op\":\"create\",\"path\":\"/a\",\"bytes\":\"_w==\"}]}") ≡ None }
    ensures body_of_a_number { line_event (codes "{\"event\":\"zk\",\"ops\":[{\"op\":\"create\",\"path\":\"/a\",\"text\":1}]}") ≡ None }
    ensures no_owner { line_event (codes "{\"event\":\"zk\",\"ops\":[{\"op\":\"create\",\"path\":\"/a\",\"owner\":0}]}") ≡ None }
    ensures null_owner { line_event (codes "{\"event\":\"zk\",\"ops\":[{\"op\":\"create\",\"path\":\"/a\",\"owner\":null}]}") ≡ None }
    ensures below_any { line_event (codes "{\"event\":\"zk\",\"ops\":[{\"op\":\"check\",\"path\":\"/a\",\"version\":-2}]}") ≡ None }
    ensures exponent { line_event (codes "{\"event\":\"zk\",\"ops\":[{\"op\":\"check\",\"path\":\"/a\",\"version\":1e0}]}") ≡ None }
    ensures large { line_event (codes "{\"event\":\"zk\",\"ops\":[{\"op\":\"check\",\"path\":\"/a\",\"version\":2147483648}]}") ≡ None }
    ensures no_path { line_event (codes "{\"event\":\"zk\",\"ops\":[{\"op\":\"check\",\"path\":\"/a/\",\"version\":0}]}") ≡ None }
{}
