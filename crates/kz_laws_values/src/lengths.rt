//! Laws of lengths: what is written for a record has at most as many bytes as any spelling of it, so at most as many as the bytes
//! that it was read from. Each value of a batch that was read has fewer than 2^31 bytes.
//!
//! Each law is the contract of a function that does nothing.

ghost use Rattle.std.specs.Prelude.{◌≡◌, ◌≤◌, ℕ, List, length, Ok};
ghost use Rattle.std.specs.List.{All};
ghost use Rattle.kz_types.specs.declared.record.MetaRecord.{MetaRecord};
ghost use Rattle.kz_spec_data.specs.Records.{Spells, bytes_of_record, record_of};
ghost use Rattle.kz_spec_data.specs.Batches.{BatchContents, batch_of};
ghost use Rattle.kz_laws_values.specs.Texts.{AreBytes};
ghost use Rattle.kz_laws_values.specs.FieldLaws.{HoldsOfFields};
ghost use Rattle.kz_laws_values.specs.Lengths.{IsShortest, IsShortValue};

/// What is written for a field's value has at most as many bytes as any spelling of it.
pub fn fields_are_shortest()
    ensures { HoldsOfFields (λ E X f. IsShortest f) }
{}

/// What is written for a record has at most as many bytes as any spelling of it, and as any bytes that are read as it.
pub fn records_are_shortest()
    ensures spelled { (text : List ℕ) (meta : MetaRecord) → Spells meta text → length (bytes_of_record meta) ≤ length text }
    ensures read { (text : List ℕ) (meta : MetaRecord) → AreBytes text → record_of text ≡ Ok meta → length (bytes_of_record meta) ≤ length text }
{}

/// The values of a batch that is read of bytes are bytes, and each has fewer than 2^31 of them.
pub fn values_are_short()
    ensures { (bytes : List ℕ) (batch : BatchContents) → AreBytes bytes → batch_of bytes ≡ Ok batch → All IsShortValue batch.values }
{}
