//! What the laws of held keys and paths ask for can be met: the rule that a key is tested for, and nothing of a path.
use crate::{held_key_has_its_path, held_keys_have_one_path, held_path_has_its_key};
use kz_types::{EntityKey, Text, ZPath};
use std::test::Fail;

#[test]
fn a_user_and_its_path(rt: HostRuntime) -> Result<(), Fail> {
    let user = EntityKey::User {
        user: Some(Text::from_str(rt.alloc(), "a")?),
    };
    let producer = EntityKey::Producer;
    let path = ZPath::new(rt.alloc(), b"/config/users/a")?;
    held_path_has_its_key(&path);
    let legal = user.is_legal() && producer.is_legal();
    if legal {
        held_key_has_its_path(&user);
        held_keys_have_one_path(&user, &producer);
    }
    assert!(rt; legal);
    Ok(())
}
