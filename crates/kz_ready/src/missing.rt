//! The controllers and brokers that are missing.
ghost use Rattle.std.specs.Prelude.{◌≡◌, if◌then◌else◌};
ghost use Rattle.kz_spec_machine.specs.Driver.{less_of, missing_controller, missing_broker};

use kz_image::Image;

// The least id with this one, unless that is there.
fn least_with(is_there: bool, id: &i32, least: Option<i32>) -> Option<i32>
    ensures { result ≡ (if is_there then least else less_of id.now least) }
{
    match least {
        _ if is_there => least,
        Some(other) if other < *id => Some(other),
        _ => Some(*id),
    }
}

/// The least declared controller that doesn't run, if there is one. It takes no memory.
pub fn missing_controller(declared: &[i32], running: &[i32]) -> Option<i32>
    ensures { result ≡ missing_controller declared.now running.now }
{
    let mut least = None;
    let count = declared.len();
    for done in 0..count {
        let id = &declared[count - 1 - done];
        least = least_with(running.contains(id), id, least);
    }
    least
}

/// The least of these brokers that isn't registered as ready to migrate, if there is one. It takes no memory.
pub fn missing_broker(ids: &[i32], image: &Image) -> Option<i32>
    ensures { result ≡ missing_broker ids.now image.now }
{
    let mut least = None;
    let count = ids.len();
    for done in 0..count {
        let id = &ids[count - 1 - done];
        least = least_with(image.is_migrating(*id), id, least);
    }
    least
}
