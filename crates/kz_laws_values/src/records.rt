//! Laws of the definitions of records: a text is read as a record exactly where it spells that record, it spells at most one
//! record, no spelling is a proper prefix of another, and what is written for a record is read as it. Bytes are read as a batch of
//! records exactly where they are that batch, they are at most one batch, and what is written for values is read as a batch of them.
//! The same holds of each field of records and batches.
//!
//! Each law is the contract of a function that does nothing.

ghost use Rattle.std.specs.Prelude.{◌≡◌, ◌++◌, ℕ, ℤ, List, [], Ok, Err};
ghost use Rattle.std.specs.Int.{w32, w64};
ghost use Rattle.std.specs.Int.RustNames.{FitsSigned};
ghost use Rattle.std.specs.List.{All};
ghost use Rattle.kz_types.specs.declared.record.MetaRecord.{MetaRecord};
ghost use Rattle.kz_spec_data.specs.Records.{Spells, Fits, LengthsFit, bytes_of_record, record_of};
ghost use Rattle.kz_spec_data.specs.Batches.{BatchContents, IsBatch, BatchFits, batch_of, batch_written};
ghost use Rattle.kz_laws_values.specs.Texts.{AreBytes};
ghost use Rattle.kz_laws_values.specs.FieldLaws.{HoldsOfFields, ReadsSpellings, ReadsWritten};
ghost use Rattle.kz_laws_values.specs.FaultLaws.{FaultsOfFields};
ghost use Rattle.kz_laws_values.specs.WrittenContents.{contents_of};

/// Fields: bytes that spell a value are read as it, whatever follows; a value that is read of bytes is spelled by exactly the bytes
/// that were passed; and bytes spell at most one value.
pub fn fields_are_spelled()
    ensures { HoldsOfFields (λ E X f. ReadsSpellings f) }
{}

/// What is written for a field whose value fits, whatever follows, is read as it, and the reader stands after it.
pub fn written_fields_are_read()
    ensures { HoldsOfFields (λ E X f. ReadsWritten f) }
{}

/// A fault that reading a field answers stands at the first byte at which no spelling goes on: where the bytes are too few, some
/// spelling begins with them; else some spelling begins with the bytes before the place, and none with these and the byte there.
/// A text is judged once its bytes are taken, so a cut one is too short whatever its bytes.
pub fn fault_is_the_first_byte()
    ensures { FaultsOfFields }
{}

/// What spells a record is read as that record, and bytes that are read as a record spell it.
pub fn read_is_spelled()
    ensures accepted { (text : List ℕ) (meta : MetaRecord) → Spells meta text → record_of text ≡ Ok meta }
    ensures spelled { (text : List ℕ) (meta : MetaRecord) → AreBytes text → record_of text ≡ Ok meta → Spells meta text }
{}

/// A text spells at most one record.
pub fn one_record_is_spelled()
    ensures { (text : List ℕ) (one other : MetaRecord) → Spells one text → Spells other text → one ≡ other }
{}

/// No spelling of a record is a proper prefix of another spelling.
pub fn no_spelling_is_a_prefix()
    ensures { (text more : List ℕ) (one other : MetaRecord) → Spells one text → Spells other (text ++ more) → more ≡ [] }
{}

/// What is written for a record spells it and is read as it. `LengthsFit` counts the fields of tags, which `Fits` doesn't.
pub fn written_is_spelled()
    ensures spelled { (meta : MetaRecord) → Fits meta → LengthsFit meta → Spells meta (bytes_of_record meta) }
    ensures accepted { (meta : MetaRecord) → Fits meta → LengthsFit meta → record_of (bytes_of_record meta) ≡ Ok meta }
{}

/// Bytes that are a batch are read as it, and bytes that are read as a batch are it.
pub fn batch_read_is_spelled()
    ensures accepted { (bytes : List ℕ) (batch : BatchContents) → IsBatch bytes batch → batch_of bytes ≡ Ok batch }
    ensures spelled { (bytes : List ℕ) (batch : BatchContents) → AreBytes bytes → batch_of bytes ≡ Ok batch → IsBatch bytes batch }
{}

/// Bytes are at most one batch.
pub fn one_batch_is_spelled()
    ensures { (bytes : List ℕ) (one other : BatchContents) → IsBatch bytes one → IsBatch bytes other → one ≡ other }
{}

/// What is written for values whose lengths fit is a batch of these values and is read as it. The values are bytes, since the
/// sum of other numbers can pass its field.
pub fn written_batch_is_spelled()
    ensures spelled { (first epoch time : ℤ) (values : List (List ℕ)) → FitsSigned w64 first → FitsSigned w32 epoch → FitsSigned w64 time → BatchFits values → All AreBytes values → IsBatch (batch_written first epoch time values) (contents_of first epoch time values) }
    ensures accepted { (first epoch time : ℤ) (values : List (List ℕ)) → FitsSigned w64 first → FitsSigned w32 epoch → FitsSigned w64 time → BatchFits values → All AreBytes values → batch_of (batch_written first epoch time values) ≡ Ok (contents_of first epoch time values) }
{}
