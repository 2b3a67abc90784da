//! The credentials of users, by rising name.
ghost use Rattle.std.specs.Prelude.{◌≡◌, [], ◌∷◌, Ok, IfOk, OnOk, OnErr, option_map};
ghost use Rattle.std.specs.Ordering.{int_cmp};
ghost use Rattle.kz_types.specs.declared.bodies.ScramPair.{ScramPair};
ghost use Rattle.kz_types.specs.Order.{bytes_cmp};
ghost use Rattle.kz_types.specs.Ordered.{find as find_in, put as put_in, without as without_in, Rises};
ghost use Rattle.kz_types.specs.Spot.{IsSpot};
ghost use Rattle.kz_spec_data.specs.Metadata.{name_of_user, mechanism_of_pair};
ghost use Rattle.kz_spec_data.specs.Image.{with_scrams, scrams_at, scram_row, scram_set, scram_removed};
ghost use Rattle.kz_spec_data.specs.InOrder.{AreUsersInOrder};

use kz_sorted::Blocks;
use kz_types::{
    Duplicate, NoMemory, ScramEntry, ScramPair, ScramRow, Sequence, Text, UserScramCredentialRecord,
};
use std::alloc::Global;

// Where the credential of this mechanism stands, or would stand.
fn scram_place(scrams: &[ScramPair], mechanism: i8) -> Result<usize, usize>
    requires { Rises int_cmp mechanism_of_pair scrams.now }
    ensures { IsSpot int_cmp mechanism_of_pair mechanism scrams.now result }
{
    scrams.binary_search_by_key(&mechanism, |scram: &ScramPair| scram.mechanism)
}

/// The credential of a mechanism.
pub fn scram_at<'a>(scrams: &'a [ScramPair], mechanism: i8) -> Option<&'a ScramRow>
    requires { Rises int_cmp mechanism_of_pair scrams.now }
    ensures { option_map (λ row. row.now) result ≡ option_map (λ s. s.value) (find_in int_cmp mechanism_of_pair mechanism scrams.entry.now) }
{
    match scram_place(scrams, mechanism) {
        Ok(place) => Some(&scrams[place].value),
        Err(_) => None,
    }
}

// ---- the credentials of a user

// Puts a credential in the place of the one of its mechanism.
fn place_scram(scrams: &mut Vec<ScramPair>, scram: ScramPair) -> Result<(), NoMemory>
    requires { Rises int_cmp mechanism_of_pair scrams.old.items }
    ensures ok { OnOk result (scrams.new.items ≡ put_in int_cmp mechanism_of_pair scram scrams.old.items) }
    ensures err { OnErr result (scrams.new.items ≡ scrams.old.items) }
{
    match scram_place(scrams, scram.mechanism) {
        Ok(place) => {
            scrams[place] = scram;
            Ok(())
        }
        Err(place) => {
            scrams.insert(place, scram)?;
            Ok(())
        }
    }
}

// Takes the credential of a mechanism out.
fn drop_scram(scrams: &mut Vec<ScramPair>, mechanism: i8)
    requires { Rises int_cmp mechanism_of_pair scrams.old.items }
    ensures { scrams.new.items ≡ without_in int_cmp mechanism_of_pair mechanism scrams.old.items }
{
    if let Ok(place) = scram_place(scrams, mechanism) {
        let _removed = scrams.remove(place);
    }
}

// ---- users

// The credential that a record sets.
fn scram_pair(alloc: Global, change: &UserScramCredentialRecord) -> Result<ScramPair, NoMemory>
    ensures { IfOk result (λ made. made ≡ record { mechanism = change.now.mechanism; value = scram_row change.now }) }
{
    Ok(ScramPair {
        mechanism: change.mechanism,
        value: ScramRow {
            salt: change.salt.copy(alloc)?,
            stored_key: change.stored_key.copy(alloc)?,
            server_key: change.server_key.copy(alloc)?,
            iterations: change.iterations,
        },
    })
}

// A copy of the credentials of a user. One that isn't there has none.
fn scrams_of(
    alloc: Global,
    users: &Blocks<ScramEntry>,
    name: &Text,
) -> Result<Vec<ScramPair>, NoMemory>
    ensures { IfOk result (λ scrams. scrams.items ≡ scrams_at name.now users.now) }
{
    match users.find(name.bytes()) {
        Some(user) => Ok(user.scrams.copy(alloc)?.into_vec()),
        None => Ok(Vec::new(alloc)),
    }
}

// Puts a user with these credentials in the place of the one of its name. One without credentials isn't kept.
fn put_scrams(
    alloc: Global,
    users: &mut Blocks<ScramEntry>,
    name: &Text,
    scrams: Vec<ScramPair>,
) -> Result<(), NoMemory>
    ensures ok { OnOk result (users.new ≡ with_scrams name.now scrams.items users.old) }
    ensures err { OnErr result (users.new ≡ users.old) }
{
    if scrams.len() == 0 {
        return users.without(name.bytes());
    }
    let user = ScramEntry {
        name: name.copy(alloc)?,
        scrams: Sequence::from_vec(scrams),
    };
    users.put(user)
}

/// Sets a credential of a user. At `Err` nothing has changed.
pub fn set_scram(
    alloc: Global,
    users: &mut Blocks<ScramEntry>,
    change: &UserScramCredentialRecord,
) -> Result<(), NoMemory>
    requires { AreUsersInOrder users.old }
    ensures ok { OnOk result (users.new ≡ scram_set change.now users.old) }
    ensures err { OnErr result (users.new ≡ users.old) }
{
    let scram = scram_pair(alloc, change)?;
    let mut scrams = scrams_of(alloc, users, &change.name)?;
    place_scram(&mut scrams, scram)?;
    put_scrams(alloc, users, &change.name, scrams)
}

/// Removes a credential of a user. At `Err` nothing has changed.
pub fn remove_scram(
    alloc: Global,
    users: &mut Blocks<ScramEntry>,
    name: &Text,
    mechanism: i8,
) -> Result<(), NoMemory>
    requires { AreUsersInOrder users.old }
    ensures ok { OnOk result (users.new ≡ scram_removed name.now mechanism users.old) }
    ensures err { OnErr result (users.new ≡ users.old) }
{
    let mut scrams = scrams_of(alloc, users, name)?;
    drop_scram(&mut scrams, mechanism);
    put_scrams(alloc, users, name, scrams)
}
