//! Laws of logs with transactions: what a batch more makes of the one that is open at the end.
//!
//! A law is the contract of a function that does nothing.

ghost use Rattle.kz_laws_machine.specs.Transactions.{SettledHasNone, BeginOpens, FillKeepsOpen, FillStaysUnmigrated, CommitCloses, CommitIsEnd};

/// A Begin opens a transaction where none is open; records of a translation stay in it, and leave an unmigrated log so; and the
/// records of the migration's commit end it, and are the log's commit.
pub fn transactions_settle()
    ensures none { SettledHasNone }
    ensures begin { BeginOpens }
    ensures fill { FillKeepsOpen }
    ensures unmigrated { FillStaysUnmigrated }
    ensures closes { CommitCloses }
    ensures commit { CommitIsEnd }
{}
