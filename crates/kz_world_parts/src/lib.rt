//! What the events of a world share: a driver's steps and turns and the bound on them, the world's parts, why an event is refused,
//! how a fault is told, reading, appending, and which controllers run.
//!
//! A driver's own contract speaks of the operations that it holds. In a turn it is the machine's step, since in a sound world they
//! are those that remain to be written.
#![tactic(auto)]

mod amount;
mod appending;
mod bound;
mod drivers;
mod faults;
mod members;
mod parts;
mod reading;
mod refusals;
mod single_step;
mod steps;
mod whole_read;

pub use appending::{append, append_judged};
pub use bound::{TurnStart, work};
pub use drivers::{elect_driver, least_running, place_of, running_ids};
pub use faults::{
    EventFault, after_exit, after_log_fault, after_session_fault, after_tree_fault, answered,
};
pub use kz_counted_view::CountedView;
pub use kz_driver::Peers;
pub use members::{declare, start, stop};
pub use parts::Parts;
pub use reading::read;
pub use refusals::{leader_refusal, records_refusal, running_refusal};
pub use single_step::step;
pub use steps::turn;
pub use whole_read::read_whole;
