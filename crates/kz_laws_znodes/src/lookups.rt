//! One znode of a rendering.
ghost use Rattle.kz_laws_znodes.specs.Lookups.{RenderedAt, RenderedWhereRead};

/// The data that a path is rendered with is what the look-ups of the path find: a rendering need not be made for one znode.
pub fn rendered_at()
    ensures { RenderedAt }
{}

/// The same where keys are read from their paths, which is less than that all can be written.
pub fn rendered_where_read()
    ensures { RenderedWhereRead }
{}
