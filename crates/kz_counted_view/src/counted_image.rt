//! Metadata with the counts of its rendering.
ghost use Rattle.std.specs.Prelude.{◌≡◌, option_map, IfOk};
ghost use Rattle.kz_spec_data.specs.Rendering.{excess};
ghost use Rattle.kz_counted_view.specs.Known.{AreCountsOf};

use crate::counts::Counts;
use crate::limits::passed_limit;
use kz_image::Image;
use kz_render::{FitFault, fits};
use kz_types::NoMemory;
use std::alloc::Global;
use std::marker::Model;

/// Metadata, and the counts of its rendering on which the limits depend, where they are known. Contracts see the metadata.
#[derive(Drop)]
pub struct CountedImage {
    alloc: Global,
    image: Image,
    counts: Option<Counts>,
}

impl Model for CountedImage {
    ghost use Rattle.kz_spec_data.specs.Image.{Image as ImageValue};
    ghost use Rattle.kz_counted_view.specs.Known.{AreCountsOf};

    ghost Value = { ImageValue };

    ghost view = { λ m. m.image };

    ghost invariant = { λ m. AreCountsOf m.image m.counts };
}

// The number of the first limit that the rendering of metadata passes, of which all znodes are rendered.
fn limit_of_all(alloc: Global, image: &Image) -> Result<Option<u8>, NoMemory>
    ensures { IfOk result (λ number. number ≡ option_map (λ passed. passed.number) (excess image.now)) }
{
    match fits(alloc, image) {
        Ok(()) => Ok(None),
        Err(FitFault::Over { number, .. }) => Ok(Some(number)),
        Err(FitFault::NoMemory) => Err(NoMemory),
    }
}

// The number of the first limit that the rendering of metadata passes.
fn limit_of(alloc: Global, counts: Option<Counts>, image: &Image) -> Result<Option<u8>, NoMemory>
    requires { AreCountsOf image.now counts }
    ensures { IfOk result (λ number. number ≡ option_map (λ passed. passed.number) (excess image.now)) }
{
    match counts {
        Some(counts) => Ok(passed_limit(counts)),
        None => limit_of_all(alloc, image),
    }
}

impl CountedImage {
    /// Metadata with these counts. It keeps this allocator.
    pub(crate) fn new(alloc: Global, image: Image, counts: Option<Counts>) -> CountedImage
        requires { AreCountsOf image counts }
        ensures { result ≡ image }
    {
        CountedImage {
            alloc,
            image,
            counts,
        }
    }

    /// The number of the first limit that the rendering passes, if any. `NoMemory` is the only error.
    pub fn limit(&self) -> Result<Option<u8>, NoMemory>
        ensures { IfOk result (λ number. number ≡ option_map (λ passed. passed.number) (excess self.now)) }
    {
        limit_of(self.alloc, self.counts, &self.image)
    }

    /// The metadata and the counts.
    pub(crate) fn into_parts(self) -> (Image, Option<Counts>)
        ensures image { result.0 ≡ self }
        ensures counts { AreCountsOf result.0 result.1 }
    {
        let CountedImage {
            alloc: _,
            image,
            counts,
        } = self;
        (image, counts)
    }
}
