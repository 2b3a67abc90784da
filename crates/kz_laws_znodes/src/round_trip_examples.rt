//! A law by example: metadata that returns.
#![tactic(auto, unfolding(kz_spec_data::proofs::ZnodesOnLiterals::znodes_on_literals))]

ghost use Rattle.std.specs.Prelude.{◌≡◌, None};
ghost use Rattle.kz_spec_data.specs.InOrder.{IsInOrder};
ghost use Rattle.kz_spec_data.specs.Rendering.{excess};
ghost use Rattle.kz_laws_znodes.specs.RoundTrip.{IsWritable, MayReturn, greatest_image};
ghost use Rattle.kz_laws_znodes.specs.RoundTripExamples.{example_image};

/// Worked metadata meets what the law asks for.
pub fn worked_metadata()
    ensures order { IsInOrder example_image }
    ensures writable { IsWritable example_image }
    ensures returns { MayReturn example_image }
{}
