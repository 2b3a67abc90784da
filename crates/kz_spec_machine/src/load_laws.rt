//! Lines of trees that are loaded, and inputs that are trees or none.
ghost use Rattle.std.specs.Prelude.{◌≡◌, [], ◌∷◌, None, Some, Ok, Err, pos, negsuc, codes};
ghost use Rattle.kz_types.specs.declared.outside.Status.TheVariants as status;
ghost use Rattle.kz_spec_machine.specs.declared.dumps.LoadLine.TheVariants.{Head, Znode};
ghost use Rattle.kz_spec_machine.specs.LoadLines.{load_line};
ghost use Rattle.kz_spec_machine.specs.Loading.{loaded};

/// Lines, and what is none.
#[tactic(auto, unfolding(crate::proofs::DumpsOnLiterals::dumps_on_literals))]
pub fn lines()
    ensures bare { load_line (codes "{}") ≡ Some (Head (pos 1) []) }
    ensures head { load_line (codes "{\"sessions\":[1],\"zxid\":9}") ≡ Some (Head (pos 9) (pos 1 ∷ [])) }
    ensures negative { load_line (codes "{\"zxid\":-5}") ≡ Some (Head (negsuc 4) []) }
    ensures znode { load_line (codes "{\"path\":\"/a\"}") ≡ Some (Znode (record { path = codes "/a"; body = []; version = pos 0; owner = None; czxid = pos 1; mzxid = pos 1; pzxid = pos 1 })) }
    ensures whole { load_line (codes "{\"bytes\":\"e30=\",\"czxid\":2,\"mzxid\":3,\"owner\":7,\"path\":\"/a\",\"pzxid\":4,\"version\":5}")
        ≡ Some (Znode (record { path = codes "/a"; body = codes "{}"; version = pos 5; owner = Some (pos 7); czxid = pos 2; mzxid = pos 3; pzxid = pos 4 })) }
    ensures later { load_line (codes "{\"path\":\"/a\",\"czxid\":6,\"text\":\"x\"}") ≡ Some (Znode (record { path = codes "/a"; body = codes "x"; version = pos 0; owner = None; czxid = pos 6; mzxid = pos 6; pzxid = pos 6 })) }
    ensures further { load_line (codes "{\"path\":\"/a\",\"ctime\":1}") ≡ None }
    ensures both { load_line (codes "{\"path\":\"/a\",\"text\":\"\",\"bytes\":\"\"}") ≡ None }
    ensures no_path { load_line (codes "{\"path\":\"a\"}") ≡ None }
    ensures version_only { load_line (codes "{\"version\":1}") ≡ None }
    ensures no_object { load_line (codes "[]") ≡ None }
    ensures empty { load_line [] ≡ None }
    ensures comment { load_line (codes "# a") ≡ None }
{}

/// Inputs: none at all, a header alone, a znode before its parent, a line that is none, and one in place of the header.
#[tactic(auto, unfolding(crate::proofs::DumpsOnLiterals::dumps_on_literals))]
pub fn inputs()
    ensures none { loaded [] ≡ Err (status.Script 1) }
    ensures header { loaded (codes "{}\n") ≡ Ok (record { zxid = pos 1; sessions = []; rows = [] }) }
    ensures orphan { loaded (codes "{}\n{\"path\":\"/a/b\"}\n") ≡ Err (status.Script 2) }
    ensures headless { loaded (codes "{\"path\":\"/a\"}\n") ≡ Err (status.Script 1) }
    ensures blank { loaded (codes "{}\n\n") ≡ Err (status.Script 2) }
    ensures two { loaded (codes "{}\n{}\n") ≡ Err (status.Script 2) }
    ensures sessions { loaded (codes "{\"sessions\":[2,1]}\n") ≡ Err (status.Script 1) }
{}
