//! What znodes say.
ghost use Rattle.std.specs.Prelude.{◌≡◌, IfOk};
ghost use Rattle.kz_spec_data.specs.Bodies.{read_body};
ghost use Rattle.kz_spec_data.specs.Translation.{body_of_row};
ghost use Rattle.kz_reader.specs.Seen.{IsReadOfIfAny};

use kz_json::read_body;
use kz_path::key_of;
use kz_types::{Body, BodyFault, EntityKey, NoMemory, Row};
use std::alloc::Global;

/// The entity of a znode, and what its body says, or why it can't be read.
#[derive(Drop)]
pub struct EntityRead {
    pub key: EntityKey,
    pub read: Result<Body, BodyFault>,
}

/// What the body of an entity's znode says, or why it can't be read.
pub fn body_of(
    alloc: Global,
    key: &EntityKey,
    bytes: &[u8],
) -> Result<Result<Body, BodyFault>, NoMemory>
    ensures { IfOk result (λ read. read ≡ read_body key.now bytes.now) }
{
    match read_body(alloc, key, bytes) {
        Ok(body) => Ok(Ok(body)),
        Err(BodyFault::NoMemory) => Err(NoMemory),
        Err(fault) => Ok(Err(fault)),
    }
}

/// What the body of a znode says, where it is an entity's and can be read.
pub fn body_of_row(alloc: Global, row: &Row) -> Result<Option<Body>, NoMemory>
    ensures { IfOk result (λ body. body ≡ body_of_row row.now) }
{
    match key_of(alloc, &row.path)? {
        Some(key) => match body_of(alloc, &key, row.body.as_slice())? {
            Ok(body) => Ok(Some(body)),
            Err(_) => Ok(None),
        },
        None => Ok(None),
    }
}

/// The entity of a znode, and what its body says, where it is an entity's.
pub fn read_of_row(alloc: Global, row: &Row) -> Result<Option<EntityRead>, NoMemory>
    ensures { IfOk result (IsReadOfIfAny row.now) }
{
    match key_of(alloc, &row.path)? {
        Some(key) => {
            let read = body_of(alloc, &key, row.body.as_slice())?;
            Ok(Some(EntityRead { key, read }))
        }
        None => Ok(None),
    }
}
