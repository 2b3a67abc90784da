//! The parts of a world.
use kz_counted_view::CountedView;
use kz_driver::Driver;
use kz_log::LogWire;
use kz_tree::Wire;
use kz_types::Sequence;

/// A store of a tree and a store of a log, each with the connection by which drivers reach it; what the world knows of that
/// log; the ids of the declared controllers; and the drivers of those that run. Between events a connection delivers.
#[derive(Drop)]
pub struct Parts<T, L> {
    pub declared: Sequence<i32>,
    pub tree: Wire<T>,
    pub log: LogWire<L>,
    pub view: CountedView,
    pub drivers: Vec<Driver>,
}
