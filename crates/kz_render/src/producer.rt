//! The znode of the block of producer ids.
ghost use Rattle.std.specs.Prelude.{◌≡◌, ◌++◌, ◌+ℤ◌, pos, negsuc, int_le, true, string_bytes, IfOk, OnOk};
ghost use Rattle.kz_types.specs.Paths.{path_of};
ghost use Rattle.kz_types.specs.declared.key.EntityKey.TheVariants as key;
ghost use Rattle.kz_types.specs.declared.bodies.Body.TheVariants as body;
ghost use Rattle.kz_spec_data.specs.Bodies.{text_of_body};
ghost use Rattle.kz_spec_data.specs.ImageRules.{max_next};
ghost use Rattle.kz_spec_data.specs.Legal.{IsNext};
ghost use Rattle.kz_spec_data.specs.Rendering.{producer_znodes};

use crate::push::push_znode;
use kz_body_texts::producer_text;
use kz_types::{NoMemory, Rendered, Text, ZPath};
use std::alloc::Global;

// The last id of the block of 1,000 that begins at this one.
fn block_end(start: i64) -> i64
    requires { int_le start max_next ≡ true }
    ensures { result ≡ start +ℤ pos 999 }
{
    start + 999
}

/// The text of the block that begins at this id, which no broker holds.
#[tactic(auto, unfolding(kz_spec_data::specs::Bodies::text_of_body))]
pub fn block_text(alloc: Global, start: i64) -> Result<String, NoMemory>
    requires { int_le start max_next ≡ true }
    ensures { IfOk result (λ text. string_bytes text ≡ text_of_body (body.Producer (negsuc 0) start (start +ℤ pos 999))) }
{
    let end = block_end(start);
    let text = producer_text(alloc, -1, start, end)?;
    Ok(text)
}

// The path of the block.
#[tactic(auto, unfolding(kz_types::proofs::OnLiterals::values_on_literals))]
fn block_path(alloc: Global) -> Result<ZPath, NoMemory>
    ensures { IfOk result (λ path. path ≡ path_of key.Producer) }
{
    Ok(ZPath::from_text(Text::from_str(alloc, "/latest_producer_id_block")?))
}

/// Adds the block of producer ids that begins at the next one.
pub fn push_producer(
    alloc: Global,
    znodes: &mut Vec<Rendered>,
    next: Option<i64>,
) -> Result<(), NoMemory>
    requires { IsNext next }
    ensures { OnOk result (znodes.new.items ≡ znodes.old.items ++ producer_znodes next) }
{
    let Some(start) = next else {
        return Ok(());
    };
    let path = block_path(alloc)?;
    let text = block_text(alloc, start)?;
    push_znode(znodes, path, text.into_bytes())?;
    Ok(())
}
