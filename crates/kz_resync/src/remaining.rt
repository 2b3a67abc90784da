//! What a driver has still to write.
ghost use Rattle.std.specs.Prelude.{◌≡◌};
ghost use Rattle.kz_spec_data.specs.Difference.{chunk, after_chunk};
ghost use Rattle.kz_spec_machine.specs.Driver.{is_last_write};

use crate::rest::Rest;
use kz_types::{Op, Recorded};
use kz_writer::chunk;
use std::marker::Model;

/// The operations that a driver has still to write, and what it records with the last of them.
#[derive(Drop)]
pub struct Remaining {
    ops: Rest<Op>,
    target: Recorded,
}

impl Model for Remaining {
    ghost use Rattle.kz_resync.specs.Remainders.{Remainder};

    ghost Value = { Remainder };

    ghost view = { λ r. record { ops = r.ops; target = r.target } };
}

impl Remaining {
    /// All of these operations are still to be written.
    pub fn new(ops: Vec<Op>, target: Recorded) -> Remaining
        ensures { result ≡ record { ops = ops.items; target = target } }
    {
        Remaining {
            ops: Rest::new(ops),
            target,
        }
    }

    /// Lends all operations that remain.
    pub fn ops(&self) -> &[Op]
        ensures { result.now ≡ self.now.ops }
    {
        self.ops.as_slice()
    }

    /// What is recorded with the last of them.
    pub fn target(&self) -> Recorded
        ensures { result ≡ self.now.target }
    {
        self.target
    }

    /// Lends the operations of the next write.
    pub fn next(&self) -> &[Op]
        ensures { result.now ≡ chunk self.now.ops }
    {
        chunk(self.ops.as_slice())
    }

    /// Whether the next write is the last one.
    pub fn is_last(&self) -> bool
        ensures { result ≡ is_last_write self.now.ops }
    {
        self.ops.as_slice().len() <= self.next().len()
    }

    /// The next write is done.
    pub fn done(&mut self)
        ensures ops { self.new.ops ≡ after_chunk self.old.ops }
        ensures target { self.new.target ≡ self.old.target }
    {
        let count = self.next().len();
        self.ops.finish(count);
    }
}
