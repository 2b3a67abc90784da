//! Scripts that are generated.
ghost use Rattle.std.specs.Prelude.{◌≡◌, pos, codes};
ghost use Rattle.kz_spec_machine.specs.Generator.{value_at, leader_at, generated};

/// The values of changes, and who leads at them.
pub fn changes()
    ensures first { value_at 1 1 ≡ 1103527590 }
    ensures hundredth { leader_at 100 ≡ pos 3000 }
    ensures next { leader_at 101 ≡ pos 3001 }
    ensures back { leader_at 201 ≡ pos 3000 }
{}

/// The script with one change.
#[tactic(auto, unfolding(crate::proofs::DumpsOnLiterals::dumps_on_literals))]
pub fn one_change()
    ensures { generated 1 ≡ codes "{\"event\":\"quorum\",\"ids\":[3000,3001]}\n{\"controller\":3000,\"event\":\"start\"}\n{\"controller\":3001,\"event\":\"start\"}\n{\"controller\":3000,\"event\":\"elect\"}\n{\"controller\":3000,\"event\":\"turn\"}\n{\"controller\":3000,\"event\":\"change\",\"records\":[{\"kind\":\"Config\",\"name\":\"k\",\"resourceName\":\"1\",\"resourceType\":4,\"value\":\"1103527590\"}]}\n{\"controller\":3000,\"event\":\"turn\"}\n{\"event\":\"check\"}\n" }
{}
