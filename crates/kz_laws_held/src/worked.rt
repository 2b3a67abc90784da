//! A law by example: records that make the worked metadata.
#![tactic(auto, unfolding(kz_spec_data::proofs::ZnodesOnLiterals::znodes_on_literals, crate::specs::Worked::worked_records))]

ghost use Rattle.std.specs.Prelude.{◌≡◌, pos};
ghost use Rattle.kz_spec_data.specs.Metadata.{empty_image};
ghost use Rattle.kz_spec_data.specs.Image.{all_applied};
ghost use Rattle.kz_laws_znodes.specs.RoundTripExamples.{example_image};
ghost use Rattle.kz_laws_held.specs.Worked.{worked_records};

/// The records make the worked metadata of nothing.
pub fn worked_is_made()
    ensures { all_applied (pos 5) worked_records empty_image ≡ example_image }
{}
