//! Laws of metadata whose values are in the ranges of their types: texts are UTF-8, bytes are bytes, and numbers fit. Records keep it so.
//!
//! A law is the contract of a function that does nothing, or that only goes over a record which a program holds.

ghost use Rattle.kz_laws_znodes.specs.Writable.{EmptyIsWritable, RecordKeepsWritable};

/// The empty metadata can be written, and metadata that can be written stays so under a record that breaks no rule, where what the record
/// gives to it is in the ranges of its types.
pub fn records_keep_writable()
    ensures empty { EmptyIsWritable }
    ensures kept { RecordKeepsWritable }
{}
