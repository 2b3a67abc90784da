//! A connection to a log that may lose requests.
ghost use Rattle.std.specs.Prelude.{◌≡◌, ◌<◌, ◌≤ℤ◌, pos, length, ⊤, IfOk, IfErr, IsErrOf, Ok, Err};
ghost use Rattle.std.specs.Borrow.{sem};
ghost use Rattle.kz_types.specs.Causes.{Rose};
ghost use Rattle.kz_spec_data.specs.Log as logs;
ghost use Rattle.kz_spec_data.specs.Log.{end_of, feed_from};
ghost use Rattle.kz_spec_data.specs.Requests.{Append, Done, answer_by, answer_of_log_fault, IsTaken, ChangesDisk, ReadsDisk, Between};
ghost use Rattle.kz_connection.specs.Connections.{IsSpent, EndsBy, OverConnection, without_sessions};
ghost use Rattle.kz_log.specs.Requests.{IsFeed, IsRefusal};
ghost use Rattle.kz_log.specs.Wires.{arrival_of, IfStore, IsUnanswered, IsAfterAppend};
ghost use Rattle.kz_log.specs.Lending.{lends_log};

use crate::MetaLog;
use kz_connection::Connection;
use kz_image::Feed;
use kz_types::{LogFault, MetaRecord, Plan};
use std::marker::Model;

/// Why a request over a connection isn't answered.
#[derive(Clone, Copy, Debug, PartialEq, Eq)]
pub enum LogWireFault {
    /// The request or its answer was lost.
    Lost,
    /// The log answered this fault.
    Log(LogFault),
}

/// A connection to a log. A plan says what becomes of the next request; it serves that one alone. A log knows no sessions, so
/// a request is delivered where the session had expired.
///
/// Contracts see the log, the plan, and how often a request wasn't answered.
#[derive(Drop)]
pub struct LogWire<L> {
    connection: Connection<L>,
}

impl<L> Model for LogWire<L> {
    ghost use Rattle.kz_connection.specs.Connections.{Wired};

    ghost Value = { Wired L };

    ghost view = { λ w. w.connection };
}

impl<L> LogWire<L> {
    /// A connection that delivers the next request.
    pub fn new(log: L) -> LogWire<L>
        ensures { result ≡ record { inner = log; plan = Plan.Deliver; faults = 0 } }
    {
        LogWire {
            connection: Connection::new(log),
        }
    }

    /// Says what becomes of the next request.
    pub fn plan(&mut self, plan: Plan)
        ensures { self.new ≡ record self.old { plan = plan } }
    {
        self.connection.plan(plan);
    }

    /// Lends the log, past the connection.
    pub fn inner(&self) -> &L
        ensures { result.now ≡ self.now.inner }
    {
        self.connection.inner()
    }

    /// Lends the log to be changed, past the connection.
    pub fn inner_mut(&mut self) -> &mut L
        ensures* writes_back { sem 𝓛 (lends_log L.row self.entry result) }
        ensures lent { result.now ≡ self.old.inner }
    {
        self.connection.inner_mut()
    }

    /// Gives the log back.
    pub fn into_inner(self) -> L
        ensures { result ≡ self.inner }
    {
        let LogWire { connection } = self;
        connection.into_inner()
    }

    // The request, or its answer, is lost, which is counted.
    fn lose<A>(&mut self) -> Result<A, LogWireFault>
        ensures lost { result ≡ Err LogWireFault.Lost }
        ensures inner { self.new.inner ≡ self.old.inner }
        ensures plan { self.new.plan ≡ self.old.plan }
        ensures count { Rose self.old.faults self.new.faults }
    {
        self.connection.count();
        Err(LogWireFault::Lost)
    }
}

impl<L: MetaLog> LogWire<L> {
    /// A controller of this epoch appends a batch, and is told its last offset; by the plan.
    pub fn append(
        &mut self,
        epoch: i32,
        now: i64,
        items: &[MetaRecord],
    ) -> Result<i64, LogWireFault>
        requires { (0 < length items.now) × (pos 1 ≤ℤ epoch) }
        ensures ok { IfOk result (λ end. (logs.append (L.log self.old.inner) epoch now items.now ≡ Ok (L.log self.new.inner)) × (end ≡ end_of (L.log self.new.inner))) }
        ensures refused { IfErr result (IfStore (IsRefusal (logs.append (L.log self.old.inner) epoch now items.now))) }
        ensures same { IfErr result (IfStore (λ fault. L.log self.new.inner ≡ L.log self.old.inner)) }
        ensures by_plan { EndsBy (without_sessions self.old.plan) (arrival_of result) (self.new.inner ≡ self.old.inner)
            (IsUnanswered (IsAfterAppend (L.log self.old.inner) (logs.append (L.log self.old.inner) epoch now items.now) (L.log self.new.inner)) result) }
        ensures spent { IsSpent (arrival_of result) self.old self.new }
        ensures disk { OverConnection (ChangesDisk (IsTaken (logs.append (L.log self.old.inner) epoch now items.now)) (L.payload_bytes (L.log self.old.inner) (Append epoch now items.now)))
            (answer_by answer_of_log_fault (logs.append (L.log self.old.inner) epoch now items.now)) (without_sessions self.old.plan) (arrival_of result) (L.disk self.old.inner) (L.disk self.new.inner) }
        ensures stop { IsErrOf result (LogWireFault.Log LogFault.Failed) → Between (L.log self.old.inner) (logs.append (L.log self.old.inner) epoch now items.now) (L.left self.new.inner) }
    {
        match self.connection.take_plan() {
            Plan::Deliver | Plan::Expired => {
                match self.connection.inner_mut().append(epoch, now, items) {
                    Ok(end) => Ok(end),
                    Err(fault) => Err(LogWireFault::Log(fault)),
                }
            }
            Plan::LostBefore => self.lose(),
            Plan::LostAfter => match self.connection.inner_mut().append(epoch, now, items) {
                Ok(_) => self.lose(),
                Err(LogFault::Stale { .. }) => self.lose(),
                Err(fault) => Err(LogWireFault::Log(fault)),
            },
        }
    }

    /// The batches after an offset, and, where the offset is below the base, the base with its metadata; by the plan.
    pub fn read_from(&mut self, after: i64) -> Result<Feed, LogWireFault>
        ensures ok { IfOk result (λ feed. IsFeed (feed_from (L.log self.old.inner) after) feed) }
        ensures same { L.log self.new.inner ≡ L.log self.old.inner }
        ensures by_plan { EndsBy (without_sessions self.old.plan) (arrival_of result) (self.new.inner ≡ self.old.inner) (IsUnanswered ⊤ result) }
        ensures spent { IsSpent (arrival_of result) self.old self.new }
        ensures disk { OverConnection ReadsDisk Done (without_sessions self.old.plan) (arrival_of result) (L.disk self.old.inner) (L.disk self.new.inner) }
    {
        match self.connection.take_plan() {
            Plan::Deliver | Plan::Expired => match self.connection.inner_mut().read_from(after) {
                Ok(feed) => Ok(feed),
                Err(fault) => Err(LogWireFault::Log(fault)),
            },
            Plan::LostBefore => self.lose(),
            Plan::LostAfter => match self.connection.inner_mut().read_from(after) {
                Ok(_) => self.lose(),
                Err(fault) => Err(LogWireFault::Log(fault)),
            },
        }
    }
}
