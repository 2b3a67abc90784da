//! Metadata that a program holds is in order and can be written, so it returns when it is rendered and translated.
ghost use Rattle.std.specs.Prelude.{◌≡◌};
ghost use Rattle.kz_spec_data.specs.Rendering.{render};
ghost use Rattle.kz_laws_znodes.specs.RoundTrip.{IsSameBut, MayReturn, Returns};

use kz_image::Image;

/// Metadata that a program holds, rendered, translated to records and made again, is the same metadata: the same topics,
/// partitions, configurations, quotas, credentials and access control entries. No controller epoch is negative, a further block
/// of producer ids fits, and neither the znodes nor the records pass a limit (`MayReturn`).
pub fn round_trip(i: &Image)
    requires { MayReturn i.now }
    ensures { Returns i.now }
{
    i.is_held();
}

/// Metadata that a program holds is told by its rendering, but for what doesn't return: two with one rendering are the same.
pub fn one_rendering(one: &Image, other: &Image)
    requires one_may_return { MayReturn one.now }
    requires other_may_return { MayReturn other.now }
    requires rendering { render one.now ≡ render other.now }
    ensures { IsSameBut one.now other.now }
{
    round_trip(one);
    round_trip(other);
}
