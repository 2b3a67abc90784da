//! The data of quotas and credentials.
ghost use Rattle.std.specs.Prelude.{◌≡◌, true, IfOk};
ghost use Rattle.kz_types.specs.declared.bodies.Body.TheVariants as body;
ghost use Rattle.kz_spec_data.specs.Bodies.{text_of_body};
ghost use Rattle.kz_json.specs.Entries.{are_quotas};

use kz_json::write_body;
use kz_types::{Body, BodyFault, EntityKey, NoMemory, QuotaRow, ScramPair, Sequence, copy_all};
use std::alloc::Global;

/// The text of quotas and credentials. It is the same for each entity that has some.
#[tactic(auto, unfolding(kz_spec_data::specs::Bodies::is_of_kind))]
pub fn quota_text(
    alloc: Global,
    quotas: &[QuotaRow],
    scrams: &[ScramPair],
) -> Result<Vec<u8>, NoMemory>
    requires { are_quotas quotas.now ≡ true }
    ensures { IfOk result (λ text. text.items ≡ text_of_body (body.Quota quotas.now scrams.now)) }
{
    let body = Body::Quota {
        quotas: Sequence::from_vec(copy_all(alloc, quotas)?),
        scrams: Sequence::from_vec(copy_all(alloc, scrams)?),
    };
    match write_body(alloc, &EntityKey::User { user: None }, &body) {
        Ok(text) => Ok(text),
        Err(BodyFault::NoMemory) => Err(NoMemory),
        Err(_) => unreachable!(),
    }
}
