//! The znodes that stand for the metadata: all of them, and one by look-ups, for which the others are not rendered.
#![tactic(auto)]

mod acl_rows;
mod acls;
mod bare;
mod bodies;
mod configs;
mod entries;
mod limits;
mod one;
mod paths;
mod places;
mod producer;
mod push;
mod quota_body;
mod quota_rows;
mod quotas;
mod resources;
mod roots;
mod topic_paths;
mod topics;
mod users;
mod znodes;

pub use kz_types::Rendered;
pub use limits::{Excess, FitFault, first_excess, fits, whole_path};
pub use one::render_one;
pub use producer::block_text;
pub use quota_body::quota_text;
pub use roots::bare_roots;
pub use topics::{state_body, topic_body};
pub use users::quotas_at;
pub use znodes::render;
