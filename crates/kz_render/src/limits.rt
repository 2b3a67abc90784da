//! Whether a rendering keeps the limits.
ghost use Rattle.std.specs.Prelude.{◌≡◌, length, IfOk, IfErr, OnOk, None, nat_lt, option_map, codes};
ghost use Rattle.std.specs.List.{find, sum_by};
ghost use Rattle.kz_types.specs.declared.limits.TheConstants.{MAX_BODIES_BYTES};
ghost use Rattle.kz_types.specs.declared.tree.Rendered.{Rendered as RenderedValue};
ghost use Rattle.kz_spec_data.specs.Rendering.{is_long, excess_of, excess};
ghost use Rattle.kz_render.specs.Limits.{excess_of_told, IsExcess};

use crate::znodes::render;
use kz_image::Image;
use kz_paths::topics_path;
use kz_types::{
    Duplicate, MAX_BODIES_BYTES, MAX_BODY_BYTES, MAX_ZNODES, NoMemory, Rendered, ZPath,
};
use std::alloc::Global;

/// A limit that is passed, and the path at which that is told.
#[derive(Drop)]
pub struct Excess {
    /// 2 for the data of one znode, 3 for the number of znodes, 6 for all data together.
    pub number: u8,
    /// The first znode whose data is too long, or `/brokers/topics`.
    pub path: ZPath,
}

// The first znode whose data is too long.
fn long_znode(znodes: &[Rendered]) -> Option<&Rendered>
    ensures { option_map (λ znode. znode.now) result ≡ find is_long znodes.entry.now }
{
    znodes
        .iter()
        .find(|znode| znode.body.len() > MAX_BODY_BYTES)
}

// Whether all data together is too long.
fn are_bodies_long(znodes: &[Rendered]) -> bool
    ensures { result ≡ nat_lt MAX_BODIES_BYTES (sum_by (λ (znode : RenderedValue). length znode.body) znodes.now) }
{
    let mut left = MAX_BODIES_BYTES;
    for znode in znodes {
        let count = znode.body.len();
        if count > left {
            return true;
        }
        left -= count;
    }
    false
}

/// The path at which is told that a limit of all znodes together is passed.
pub fn whole_path(alloc: Global) -> Result<ZPath, NoMemory>
    ensures { IfOk result (λ path. path ≡ codes "/brokers/topics") }
{
    topics_path(alloc)
}

/// The first limit that znodes pass, if any: the bytes of one znode's data, the number of znodes, the bytes of all data.
pub fn first_excess(alloc: Global, znodes: &[Rendered]) -> Result<Option<Excess>, NoMemory>
    ensures { IfOk result (λ told. option_map excess_of_told told ≡ excess_of znodes.now) }
{
    let (number, path) = match long_znode(znodes) {
        Some(znode) => (2, znode.path.copy(alloc)?),
        None if znodes.len() > MAX_ZNODES => (3, whole_path(alloc)?),
        None if are_bodies_long(znodes) => (6, whole_path(alloc)?),
        None => return Ok(None),
    };
    Ok(Some(Excess { number, path }))
}

/// Why the rendering of the metadata isn't written.
#[derive(Drop)]
pub enum FitFault {
    /// It passes a limit: 2 for the data of one znode, 3 for the number of znodes, 6 for all data together. The path is
    /// that of the first znode whose data is too long, or `/brokers/topics`.
    Over { number: u8, path: ZPath },
    /// Memory ran out.
    NoMemory,
}

/// Whether the rendering of the metadata keeps the limits: at most 1,048,575 bytes of each znode's data, 200,000 znodes,
/// and 67,108,864 bytes of all data. `Over` is the first limit that it passes, in this order.
pub fn fits(alloc: Global, image: &Image) -> Result<(), FitFault>
    ensures fits { OnOk result (excess image.now ≡ None) }
    ensures over { IfErr result (λ fault. IsExcess fault (excess image.now)) }
{
    let znodes = match render(alloc, image) {
        Ok(znodes) => znodes,
        Err(NoMemory) => return Err(FitFault::NoMemory),
    };
    match first_excess(alloc, &znodes) {
        Ok(Some(Excess { number, path })) => Err(FitFault::Over { number, path }),
        Ok(None) => Ok(()),
        Err(NoMemory) => Err(FitFault::NoMemory),
    }
}
