//! The bodies of the znodes that stand for metadata.
ghost use Rattle.std.specs.Prelude.{◌≡◌};
ghost use Rattle.kz_spec_data.specs.Rendering.{render};
ghost use Rattle.kz_writer.specs.RenderedRise.{render_rises};

use kz_image::Image;
use kz_render::render_one;
use kz_types::{Bodies, NoMemory, ZPath};
use std::alloc::Global;
use std::marker::Model;

/// What answers for the bodies of the znodes that stand for metadata. A body is made when it is asked for, and no other znode
/// is rendered for it. Contracts see the metadata and how many bodies were asked for.
#[derive(Drop)]
pub struct ImageBodies<'a> {
    alloc: Global,
    image: &'a Image,
    count: u64,
}

impl<'a> Model for ImageBodies<'a> {
    ghost use Rattle.kz_writer.specs.Asked.{Asked};

    ghost Value = { Asked };

    ghost view = { λ b. record { image = b.image.now; count = b.count } };
}

impl<'a> ImageBodies<'a> {
    /// Nothing is asked for yet. Memory for the bodies is taken from this allocator.
    pub fn new(alloc: Global, image: &'a Image) -> Self
        ensures { result ≡ record { image = image.entry.now; count = 0 } }
    {
        ImageBodies {
            alloc,
            image,
            count: 0,
        }
    }

    /// How many bodies were asked for, or the greatest `u64` where there were more.
    pub fn count(&self) -> u64
        ensures { result ≡ self.now.count }
    {
        self.count
    }
}

impl<'a> Bodies for ImageBodies<'a> {
    ghost znodes = { λ b. render b.image };

    ghost count = { λ b. b.count };

    ghost rises = { λ b. render_rises b.image };

    fn body(&mut self, path: &ZPath) -> Result<Option<Vec<u8>>, NoMemory> {
        self.count = self.count.saturating_add(1);
        render_one(self.alloc, self.image, path)
    }
}
