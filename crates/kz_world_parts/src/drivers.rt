//! The drivers of the controllers that run.
ghost use Rattle.std.specs.Prelude.{◌≡◌, ◌<◌, not, pos, ◌≤ℤ◌, length, None, Some, IfOk, MatchOption, slice_get, if◌then◌else◌};
ghost use Rattle.std.specs.Ordering.{int_eq};
ghost use Rattle.kz_spec_machine.specs.Driver.{elected_driver, is_one_of, least, less_of};
ghost use Rattle.kz_spec_machine.specs.Machine.{driver_of, drivers_without, is_running, running_ids};
ghost use Rattle.kz_world_parts.specs.Worlds.{elected_drivers};

use kz_driver::Driver;
use kz_types::{NoMemory, Sequence};
use std::alloc::Global;

/// Whether this is one of the ids.
pub fn is_one_of(ids: &[i32], id: i32) -> bool
    ensures { result ≡ is_one_of ids.now id }
{
    ids.contains(&id)
}

/// Whether a controller runs.
pub fn is_running(drivers: &[Driver], id: i32) -> bool
    ensures { result ≡ is_running id drivers.now }
{
    for driver in drivers {
        if driver.id() == id {
            return true;
        }
    }
    false
}

/// The place of a controller's driver.
pub fn place_of(drivers: &[Driver], id: i32) -> Option<usize>
    ensures { MatchOption result (driver_of id drivers.now ≡ None) (λ at. (at < length drivers.now) × (driver_of id drivers.now ≡ slice_get drivers.now at)) }
{
    for at in 0..drivers.len() {
        if drivers[at].id() == id {
            return Some(at);
        }
    }
    None
}

/// The ids of the controllers that run.
pub fn running_ids(alloc: Global, drivers: &[Driver]) -> Result<Sequence<i32>, NoMemory>
    ensures { IfOk result (λ ids. ids ≡ running_ids drivers.now) }
{
    let mut ids = Sequence::new(alloc);
    for driver in drivers {
        ids.push(driver.id())?;
    }
    Ok(ids)
}

// The less of an id and another, where there is one.
fn less_of(id: i32, other: Option<i32>) -> Option<i32>
    ensures { result ≡ less_of id other }
{
    match other {
        Some(least) if least < id => Some(least),
        _ => Some(id),
    }
}

/// The least id of a controller that runs.
pub fn least_running(drivers: &[Driver]) -> Option<i32>
    ensures { result ≡ least (running_ids drivers.now) }
{
    let mut least = None;
    let count = drivers.len();
    for done in 0..count {
        least = less_of(drivers[count - 1 - done].id(), least);
    }
    least
}

// A driver is elected with this epoch, where its controller has this id.
fn elect_if(driver: &mut Driver, id: i32, epoch: i32)
    requires { pos 1 ≤ℤ epoch }
    ensures { driver.new ≡ (if int_eq driver.old.id id then elected_driver epoch driver.old else driver.old) }
{
    if driver.id() == id {
        driver.elected(epoch);
    }
}

/// The driver of a controller is elected with this epoch.
pub fn elect_driver(drivers: &mut Vec<Driver>, id: i32, epoch: i32)
    requires { pos 1 ≤ℤ epoch }
    ensures { drivers.new.items ≡ elected_drivers id epoch drivers.old.items }
{
    for at in 0..drivers.len() {
        elect_if(&mut drivers[at], id, epoch);
    }
}

// Whether this is the driver of another controller.
fn is_other(driver: &Driver, id: i32) -> bool
    ensures { result ≡ not (int_eq driver.now.id id) }
{
    driver.id() != id
}

// Takes the drivers out whose controller has this id.
fn take_out(drivers: &mut Vec<Driver>, id: i32)
    ensures { drivers.new.items ≡ drivers_without (Some id) drivers.old.items }
{
    drivers.retain(|driver| is_other(driver, id));
}

/// Takes the driver of a controller out, or all of them where none is named.
pub fn stop_drivers(drivers: &mut Vec<Driver>, controller: Option<i32>)
    ensures { drivers.new.items ≡ drivers_without controller drivers.old.items }
{
    match controller {
        Some(id) => take_out(drivers, id),
        None => drivers.clear(),
    }
}
