//! What is written is read back.
ghost use Rattle.std.specs.Prelude.{◌≡◌, Ok};
ghost use Rattle.kz_spec_data.specs.declared.files.Txn.{Txn};
ghost use Rattle.kz_spec_data.specs.Transactions.{TxnFits, txn_of, txn_written};

/// The bytes of each transaction that can be written are read as this transaction.
pub fn written_is_read()
    ensures { (t : Txn) → TxnFits t → txn_of (txn_written t) ≡ Ok t }
{}
