//! The registered brokers, by rising id.
ghost use Rattle.std.specs.Prelude.{◌≡◌, ◌&&◌, OnOk, OnErr};
ghost use Rattle.std.specs.Ordering.{int_cmp, int_eq};
ghost use Rattle.std.specs.List.{list_any};
ghost use Rattle.kz_types.specs.Ordered.{put, Rises};
ghost use Rattle.kz_types.specs.Spot.{IsSpot};
ghost use Rattle.kz_spec_data.specs.Image.{id_of_broker};

use kz_types::{Duplicate, NoMemory, RegisterBrokerRecord, Sequence};
use std::alloc::Global;
use std::mem;

// Where the broker of this id stands, or would stand.
fn broker_place(brokers: &[RegisterBrokerRecord], id: i32) -> Result<usize, usize>
    requires { Rises int_cmp id_of_broker brokers.now }
    ensures { IsSpot int_cmp id_of_broker id brokers.now result }
{
    brokers.binary_search_by_key(&id, |broker: &RegisterBrokerRecord| broker.broker_id)
}

// Puts a broker in its place.
fn place_broker(
    brokers: &mut Vec<RegisterBrokerRecord>,
    broker: RegisterBrokerRecord,
) -> Result<(), NoMemory>
    requires { Rises int_cmp id_of_broker brokers.old.items }
    ensures ok { OnOk result (brokers.new.items ≡ put int_cmp id_of_broker broker brokers.old.items) }
    ensures err { OnErr result (brokers.new.items ≡ brokers.old.items) }
{
    match broker_place(brokers, broker.broker_id) {
        Ok(place) => {
            brokers[place] = broker;
            Ok(())
        }
        Err(place) => {
            brokers.insert(place, broker)?;
            Ok(())
        }
    }
}

/// Registers a broker, in place of an earlier registration. At `Err` nothing has changed.
pub fn register(
    alloc: Global,
    brokers: &mut Sequence<RegisterBrokerRecord>,
    broker: &RegisterBrokerRecord,
) -> Result<(), NoMemory>
    requires { Rises int_cmp id_of_broker brokers.old }
    ensures ok { OnOk result (brokers.new ≡ put int_cmp id_of_broker broker.now brokers.old) }
    ensures err { OnErr result (brokers.new ≡ brokers.old) }
{
    let copy = broker.copy(alloc)?;
    let mut registered = mem::replace(brokers, Sequence::new(alloc)).into_vec();
    let placed = place_broker(&mut registered, copy);
    *brokers = Sequence::from_vec(registered);
    placed
}

/// Whether a broker is registered as one that is ready to migrate.
pub fn is_migrating(brokers: &[RegisterBrokerRecord], id: i32) -> bool
    requires { Rises int_cmp id_of_broker brokers.now }
    ensures { result ≡ list_any (λ broker. int_eq broker.broker_id id && broker.migrating) brokers.now }
{
    match broker_place(brokers, id) {
        Ok(place) => brokers[place].migrating,
        Err(_) => false,
    }
}
