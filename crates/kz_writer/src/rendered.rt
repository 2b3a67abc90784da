//! What is known of the paths of renderings.
ghost use Rattle.kz_spec_data.specs.Rendering.{render};
ghost use Rattle.kz_writer.specs.PathLists.{DifferAtPathsAlone};

use kz_image::Image;

/// The renderings of metadata that a program holds find nothing under what isn't a path, so they differ at paths alone. It does nothing.
pub fn renderings_differ_at_paths(old: &Image, new: &Image)
    ensures { DifferAtPathsAlone (render old.now) (render new.now) }
{
    old.is_held();
    new.is_held();
}
