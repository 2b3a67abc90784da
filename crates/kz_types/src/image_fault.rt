//! Why a record isn't accepted.

/// The rule of the metadata that a record breaks.
#[derive(Clone, Copy, Debug, PartialEq, Eq)]
pub enum ImageRule {
    /// No controller may be asked for this record.
    NotAllowed,
    /// The topic, its id, the partition, or the id of the access control entry is there already.
    Exists,
    /// The topic, partition, credential or access control entry isn't there.
    Absent,
    /// A name, an id or a quota's key is none of its kind.
    BadName,
    /// A value is none of its kind.
    BadValue,
}

/// Why records aren't valid.
#[derive(Clone, Copy, Debug, PartialEq, Eq)]
pub enum ImageFault {
    /// The record at this index is the first that breaks a rule, and this is the first rule that it breaks.
    BadRecord { index: usize, why: ImageRule },
    /// Memory ran out.
    NoMemory,
}
