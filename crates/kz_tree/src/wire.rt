//! A connection to a store that may lose requests.
ghost use Rattle.std.specs.Prelude.{◌≡◌, ⊤, option_map, IfOk, IfErr, IsErrOf, Ok};
ghost use Rattle.std.specs.Borrow.{sem};
ghost use Rattle.kz_types.specs.Order.{bytes_cmp};
ghost use Rattle.kz_types.specs.Ordered.{Rises};
ghost use Rattle.kz_spec_data.specs.Tree as znodes;
ghost use Rattle.kz_spec_data.specs.Tree.{path_of_row};
ghost use Rattle.kz_spec_data.specs.Requests.{Multi, Done, answer_by, answer_of_tree_fault, IsTaken, ChangesDisk, ReadsDisk, Between};
ghost use Rattle.kz_connection.specs.Connections.{IsSpent, EndsBy, OverConnection};
ghost use Rattle.kz_tree.specs.Requests.{IsRefusal};
ghost use Rattle.kz_tree.specs.Wires.{arrival_of, IfStore, IsUnanswered, after_multi};
ghost use Rattle.kz_tree.specs.Lending.{lends_store};

use crate::ZTree;
use kz_connection::Connection;
use kz_types::{Op, Plan, Row, TreeFault, ZPath};
use std::marker::Model;

/// Why a request over a connection isn't answered.
#[derive(Clone, Copy, Debug, PartialEq, Eq)]
pub enum WireFault {
    /// The request or its answer was lost.
    Lost,
    /// The session had expired, and the store didn't take the request.
    Expired,
    /// The store answered this fault.
    Tree(TreeFault),
}

/// A connection to a store. A plan says what becomes of the next request; it serves that one alone.
///
/// Contracts see the store, the plan, and how often a request wasn't answered.
#[derive(Drop)]
pub struct Wire<T> {
    connection: Connection<T>,
}

impl<T> Model for Wire<T> {
    ghost use Rattle.kz_connection.specs.Connections.{Wired};

    ghost Value = { Wired T };

    ghost view = { λ w. w.connection };
}

impl<T> Wire<T> {
    /// A connection that delivers the next request.
    pub fn new(tree: T) -> Wire<T>
        ensures { result ≡ record { inner = tree; plan = Plan.Deliver; faults = 0 } }
    {
        Wire {
            connection: Connection::new(tree),
        }
    }

    /// Says what becomes of the next request.
    pub fn plan(&mut self, plan: Plan)
        ensures { self.new ≡ record self.old { plan = plan } }
    {
        self.connection.plan(plan);
    }

    /// Lends the store, past the connection.
    pub fn inner(&self) -> &T
        ensures { result.now ≡ self.now.inner }
    {
        self.connection.inner()
    }

    /// Lends the store to be changed, past the connection.
    pub fn inner_mut(&mut self) -> &mut T
        ensures* writes_back { sem 𝓛 (lends_store T.row self.entry result) }
        ensures lent { result.now ≡ self.old.inner }
    {
        self.connection.inner_mut()
    }

    /// Gives the store back.
    pub fn into_inner(self) -> T
        ensures { result ≡ self.inner }
    {
        let Wire { connection } = self;
        connection.into_inner()
    }
}

impl<T: ZTree> Wire<T> {
    /// Makes all operations, with one new zxid, which it answers, or none of them; by the plan.
    pub fn multi(&mut self, ops: &[Op]) -> Result<i64, WireFault>
        ensures ok { IfOk result (λ zxid. (znodes.multi (T.tree self.old.inner) ops.now ≡ Ok (T.tree self.new.inner)) × (zxid ≡ (T.tree self.new.inner).zxid)) }
        ensures refused { IfErr result (IfStore (IsRefusal (znodes.multi (T.tree self.old.inner) ops.now))) }
        ensures same { IfErr result (IfStore (λ fault. T.tree self.new.inner ≡ T.tree self.old.inner)) }
        ensures by_plan { EndsBy self.old.plan (arrival_of result) (self.new.inner ≡ self.old.inner)
            (IsUnanswered (T.tree self.new.inner ≡ after_multi (T.tree self.old.inner) (znodes.multi (T.tree self.old.inner) ops.now)) (arrival_of result)) }
        ensures spent { IsSpent (arrival_of result) self.old self.new }
        ensures disk { OverConnection (ChangesDisk (IsTaken (znodes.multi (T.tree self.old.inner) ops.now)) (T.payload_bytes (T.tree self.old.inner) (Multi ops.now)))
            (answer_by answer_of_tree_fault (znodes.multi (T.tree self.old.inner) ops.now)) self.old.plan (arrival_of result) (T.disk self.old.inner) (T.disk self.new.inner) }
        ensures stop { IsErrOf result (WireFault.Tree TreeFault.Device) → Between (T.tree self.old.inner) (znodes.multi (T.tree self.old.inner) ops.now) (T.left self.new.inner) }
    {
        match self.connection.take_plan() {
            Plan::Deliver => match self.connection.inner_mut().multi(ops) {
                Ok(answer) => Ok(answer),
                Err(fault) => Err(WireFault::Tree(fault)),
            },
            Plan::LostBefore => {
                self.connection.count();
                Err(WireFault::Lost)
            }
            Plan::LostAfter => match self.connection.inner_mut().multi(ops) {
                Ok(_) => {
                    self.connection.count();
                    Err(WireFault::Lost)
                }
                Err(TreeFault::Refused { .. }) => {
                    self.connection.count();
                    Err(WireFault::Lost)
                }
                Err(TreeFault::Limit { .. }) => {
                    self.connection.count();
                    Err(WireFault::Lost)
                }
                Err(fault) => Err(WireFault::Tree(fault)),
            },
            Plan::Expired => {
                self.connection.count();
                Err(WireFault::Expired)
            }
        }
    }

    /// The first `limit` znodes of the migrated area after a path, or its first ones; by the plan.
    pub fn scan(&mut self, after: Option<&ZPath>, limit: usize) -> Result<Vec<Row>, WireFault>
        ensures ok { IfOk result (λ rows. rows.items ≡ znodes.scan (T.tree self.old.inner) (option_map (λ path. path.now) after.entry) limit) }
        ensures rising { IfOk result (λ rows. Rises bytes_cmp path_of_row rows.items) }
        ensures same { T.tree self.new.inner ≡ T.tree self.old.inner }
        ensures by_plan { EndsBy self.old.plan (arrival_of result) (self.new.inner ≡ self.old.inner) (IsUnanswered ⊤ (arrival_of result)) }
        ensures spent { IsSpent (arrival_of result) self.old self.new }
        ensures disk { OverConnection ReadsDisk Done self.old.plan (arrival_of result) (T.disk self.old.inner) (T.disk self.new.inner) }
    {
        match self.connection.take_plan() {
            Plan::Deliver => match self.connection.inner_mut().scan(after, limit) {
                Ok(answer) => Ok(answer),
                Err(fault) => Err(WireFault::Tree(fault)),
            },
            Plan::LostBefore => {
                self.connection.count();
                Err(WireFault::Lost)
            }
            Plan::LostAfter => match self.connection.inner_mut().scan(after, limit) {
                Ok(_) => {
                    self.connection.count();
                    Err(WireFault::Lost)
                }
                Err(fault) => Err(WireFault::Tree(fault)),
            },
            Plan::Expired => {
                self.connection.count();
                Err(WireFault::Expired)
            }
        }
    }

    /// The znodes at these paths, in their order; by the plan.
    pub fn look(&mut self, paths: &[ZPath]) -> Result<Vec<Option<Row>>, WireFault>
        ensures ok { IfOk result (λ rows. rows.items ≡ znodes.look (T.tree self.old.inner) paths.now) }
        ensures same { T.tree self.new.inner ≡ T.tree self.old.inner }
        ensures by_plan { EndsBy self.old.plan (arrival_of result) (self.new.inner ≡ self.old.inner) (IsUnanswered ⊤ (arrival_of result)) }
        ensures spent { IsSpent (arrival_of result) self.old self.new }
        ensures disk { OverConnection ReadsDisk Done self.old.plan (arrival_of result) (T.disk self.old.inner) (T.disk self.new.inner) }
    {
        match self.connection.take_plan() {
            Plan::Deliver => match self.connection.inner_mut().look(paths) {
                Ok(answer) => Ok(answer),
                Err(fault) => Err(WireFault::Tree(fault)),
            },
            Plan::LostBefore => {
                self.connection.count();
                Err(WireFault::Lost)
            }
            Plan::LostAfter => match self.connection.inner_mut().look(paths) {
                Ok(_) => {
                    self.connection.count();
                    Err(WireFault::Lost)
                }
                Err(fault) => Err(WireFault::Tree(fault)),
            },
            Plan::Expired => {
                self.connection.count();
                Err(WireFault::Expired)
            }
        }
    }

    /// The ids of the brokers that are there, rising; by the plan.
    pub fn broker_ids(&mut self) -> Result<Vec<i32>, WireFault>
        ensures ok { IfOk result (λ ids. ids.items ≡ znodes.broker_ids (T.tree self.old.inner)) }
        ensures same { T.tree self.new.inner ≡ T.tree self.old.inner }
        ensures by_plan { EndsBy self.old.plan (arrival_of result) (self.new.inner ≡ self.old.inner) (IsUnanswered ⊤ (arrival_of result)) }
        ensures spent { IsSpent (arrival_of result) self.old self.new }
        ensures disk { OverConnection ReadsDisk Done self.old.plan (arrival_of result) (T.disk self.old.inner) (T.disk self.new.inner) }
    {
        match self.connection.take_plan() {
            Plan::Deliver => match self.connection.inner_mut().broker_ids() {
                Ok(answer) => Ok(answer),
                Err(fault) => Err(WireFault::Tree(fault)),
            },
            Plan::LostBefore => {
                self.connection.count();
                Err(WireFault::Lost)
            }
            Plan::LostAfter => match self.connection.inner_mut().broker_ids() {
                Ok(_) => {
                    self.connection.count();
                    Err(WireFault::Lost)
                }
                Err(fault) => Err(WireFault::Tree(fault)),
            },
            Plan::Expired => {
                self.connection.count();
                Err(WireFault::Expired)
            }
        }
    }
}
