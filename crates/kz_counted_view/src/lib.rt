//! What a world knows of the log: its view, the counts of a rendering on which the limits depend, what they become where only some
//! znodes change, and whether a change of the log keeps the limits.
#![tactic(auto)]

mod after;
mod counted_image;
mod counts;
mod limits;
mod reading;
mod view;

pub use after::counts_after;
pub use counted_image::CountedImage;
pub use counts::{Counts, counts_of};
pub use limits::passed_limit;
pub use reading::read_to_end;
pub use view::CountedView;
