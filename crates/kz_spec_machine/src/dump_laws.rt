//! The lines of some values.
ghost use Rattle.std.specs.Prelude.{◌≡◌, [], ◌∷◌, None, Some, pos, negsuc, codes};
ghost use Rattle.kz_types.specs.declared.machine.Verdict.TheVariants.{Unmigrated, Closed, Ahead, Disagrees};
ghost use Rattle.kz_types.specs.declared.record.MetaRecord.TheVariants.{NoOp, ZkMigrationState};
ghost use Rattle.kz_spec_machine.specs.Dumps.{tree_head_line, row_line, log_head_line, batch_line, rendered_line, check_lines, figure_lines};

/// The lines of a tree: an owner is left out where there is none.
#[tactic(auto, unfolding(crate::proofs::DumpsOnLiterals::dumps_on_literals))]
pub fn lines_of_a_tree()
    ensures empty { tree_head_line [] (pos 1) ≡ codes "{\"sessions\":[],\"zxid\":1}\n" }
    ensures head { tree_head_line (pos 1 ∷ pos 5 ∷ []) (pos 9) ≡ codes "{\"sessions\":[1,5],\"zxid\":9}\n" }
    ensures row { row_line (record { path = codes "/config/\""; body = codes "{}"; version = pos 3; owner = None; czxid = pos 1; mzxid = pos 2; pzxid = pos 4 })
        ≡ codes "{\"bytes\":\"e30=\",\"czxid\":1,\"mzxid\":2,\"path\":\"/config/\\\"\",\"pzxid\":4,\"version\":3}\n" }
    ensures owned { row_line (record { path = codes "/a"; body = []; version = pos 0; owner = Some (pos 7); czxid = pos 1; mzxid = pos 1; pzxid = pos 1 })
        ≡ codes "{\"bytes\":\"\",\"czxid\":1,\"mzxid\":1,\"owner\":7,\"path\":\"/a\",\"pzxid\":1,\"version\":0}\n" }
{}

/// The lines of a log.
#[tactic(auto, unfolding(crate::proofs::DumpsOnLiterals::dumps_on_literals))]
pub fn lines_of_a_log()
    ensures head { log_head_line (negsuc 0) (pos 4) (pos 1) ≡ codes "{\"base\":-1,\"end\":4,\"epoch\":1}\n" }
    ensures batch { batch_line (record { first = pos 0; epoch = pos 1; time = pos 8; items = NoOp ∷ ZkMigrationState (pos 1) ∷ [] })
        ≡ codes "{\"epoch\":1,\"first\":0,\"records\":[{\"kind\":\"NoOp\"},{\"kind\":\"ZkMigrationState\",\"state\":1}],\"time\":8}\n" }
{}

/// The lines of a rendering, of a check and of the figures.
#[tactic(auto, unfolding(crate::proofs::DumpsOnLiterals::dumps_on_literals))]
pub fn other_lines()
    ensures rendered { rendered_line (record { path = codes "/config/brokers/1"; body = codes "{\"a\":\"\\u0001\"}" }) ≡ codes "{\"body\":\"{\\\"a\\\":\\\"\\\\u0001\\\"}\",\"path\":\"/config/brokers/1\"}\n" }
    ensures unmigrated { check_lines Unmigrated ≡ codes "unmigrated\n" }
    ensures closed { check_lines (Closed (pos 4)) ≡ codes "closed 4\n" }
    ensures ahead { check_lines (Ahead (pos 4) (record { path = codes "/config/brokers/1"; offset = pos 69 } ∷ [])) ≡ codes "ahead 4 1\n\"/config/brokers/1\" 69\n" }
    ensures disagrees { check_lines (Disagrees (codes "/config/brokers/1")) ≡ [] }
    ensures figures { figure_lines (record { zxid = pos 2; znodes = 25; epoch = pos 1; base = negsuc 0; end = pos 4; migration = pos 2; recorded = Some (pos 4) })
        ≡ codes "zxid 2\nznodes 25\nepoch 1\nbase -1\nend 4\nmigration 2\nrecorded 4\n" }
    ensures unrecorded { figure_lines (record { zxid = pos 0; znodes = 0; epoch = pos 0; base = negsuc 0; end = negsuc 0; migration = pos 0; recorded = None })
        ≡ codes "zxid 0\nznodes 0\nepoch 0\nbase -1\nend -1\nmigration 0\nrecorded none\n" }
{}
