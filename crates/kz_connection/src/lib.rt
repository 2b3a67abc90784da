//! A connection to a store that may lose requests: the part that is the same for every store.
#![tactic(auto)]

ghost use Rattle.std.specs.Prelude.{◌≡◌};
ghost use Rattle.std.specs.Borrow.{sem};
ghost use Rattle.kz_types.specs.Causes.{Rose};
ghost use Rattle.kz_connection.specs.Connections.{Wired};
ghost use Rattle.kz_connection.specs.Lending.{lends_inner};

use kz_types::Plan;
use std::marker::Model;

/// A store, the plan for the next request, and how often a request wasn't answered. A plan serves one request.
///
/// Contracts see all three.
#[derive(Drop)]
pub struct Connection<T> {
    inner: T,
    plan: Plan,
    faults: u64,
}

impl<T> Model for Connection<T> {
    ghost use Rattle.kz_connection.specs.Connections.{Wired};

    ghost Value = { Wired T };

    ghost view = { λ c. record { inner = c.inner; plan = c.plan; faults = c.faults } };
}

impl<T> Connection<T> {
    /// A connection that delivers the next request.
    pub fn new(store: T) -> Connection<T>
        ensures { result ≡ record { inner = store; plan = Plan.Deliver; faults = 0 } }
    {
        Connection {
            inner: store,
            plan: Plan::Deliver,
            faults: 0,
        }
    }

    /// Says what becomes of the next request.
    pub fn plan(&mut self, plan: Plan)
        ensures { self.new ≡ record self.old { plan = plan } }
    {
        self.plan = plan;
    }

    /// Lends the store, past the connection.
    pub fn inner(&self) -> &T
        ensures { result.now ≡ self.now.inner }
    {
        &self.inner
    }

    /// Lends the store to be changed, past the connection.
    pub fn inner_mut(&mut self) -> &mut T
        ensures* writes_back { sem 𝓛 (lends_inner T.row self.entry result) }
        ensures lent { result.now ≡ self.old.inner }
    {
        &mut self.inner
    }

    /// Gives the store back.
    pub fn into_inner(self) -> T
        ensures { result ≡ self.inner }
    {
        let Connection { inner, .. } = self;
        inner
    }

    /// The plan for this request, which is spent: the next request is delivered.
    pub fn take_plan(&mut self) -> Plan
        ensures plan { result ≡ self.old.plan }
        ensures spent { self.new ≡ record self.old { plan = Plan.Deliver } }
    {
        let plan = self.plan;
        self.plan = Plan::Deliver;
        plan
    }

    /// Counts a request that isn't answered. The count stays at its greatest value, 2^64 - 1.
    pub fn count(&mut self)
        ensures inner { self.new.inner ≡ self.old.inner }
        ensures plan { self.new.plan ≡ self.old.plan }
        ensures count { Rose self.old.faults self.new.faults }
    {
        self.faults = self.faults.saturating_add(1);
    }
}
