//! A change of a tree that is ready to be made.
ghost use Rattle.std.specs.Prelude.{◌≡◌};
ghost use Rattle.kz_spec_data.specs.Tree.{Tree};
ghost use Rattle.kz_tree.specs.Kept.{IsKept};

use kz_tree_rows::Rows;
use std::marker::Model;

/// A change that a tree has prepared, with all the memory that it takes: contracts see the tree that it makes.
#[derive(Drop)]
pub struct Prepared {
    zxid: i64,
    sessions: Vec<i64>,
    rows: Rows,
}

impl Model for Prepared {
    ghost Value = { Tree };

    ghost view = { λ p. record { zxid = p.zxid; sessions = p.sessions.items; rows = p.rows } };

    ghost invariant = { λ p. IsKept p.zxid p.sessions.items p.rows };
}

impl Prepared {
    /// The change that makes a tree of these parts.
    pub(crate) fn new(zxid: i64, sessions: Vec<i64>, rows: Rows) -> Prepared
        requires { IsKept zxid sessions.items rows }
        ensures { result ≡ record { zxid = zxid; sessions = sessions.items; rows = rows } }
    {
        Prepared {
            zxid,
            sessions,
            rows,
        }
    }

    /// Gives the parts of the tree: its zxid, its sessions and its znodes.
    pub(crate) fn into_parts(self) -> (i64, Vec<i64>, Rows)
        ensures parts { record { zxid = result.0; sessions = result.1.items; rows = result.2 } ≡ self }
        ensures kept { IsKept result.0 result.1.items result.2 }
    {
        let Prepared {
            zxid,
            sessions,
            rows,
        } = self;
        (zxid, sessions, rows)
    }
}
