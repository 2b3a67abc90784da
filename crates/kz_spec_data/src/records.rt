//! Records as bytes, worked by hand: the definitions give these answers.
ghost use Rattle.std.specs.Prelude.{◌≡◌, ◌∷◌, [], None, Some, Ok, Err, codes, pos, negsuc, true, false, length};
ghost use Rattle.kz_types.specs.declared.record.MetaRecord.TheVariants.{NoOp, ZkMigrationState, BeginTransaction, EndTransaction, AbortTransaction, Topic, PartitionChange, ClientQuota};
ghost use Rattle.kz_types.specs.declared.record.CodecFault.TheVariants.{Short, UnknownKey, UnknownVersion, BadField, Rest};
ghost use Rattle.kz_spec_data.specs.Records.{record_of, bytes_of_record};

/// Records without fields.
#[tactic(auto, unfolding(crate::specs::Records::record_of, crate::specs::Records::record_at, crate::specs::Records::fields_at, crate::specs::Forms::tags_at, crate::specs::Forms::items_at, crate::specs::Fields::groups_at, crate::specs::Fields::groups_of))]
pub fn no_fields()
    ensures no_op { record_of (0x01 ∷ 0x14 ∷ 0x00 ∷ 0x00 ∷ []) ≡ Ok NoOp }
    ensures no_op_written { bytes_of_record NoOp ≡ 0x01 ∷ 0x14 ∷ 0x00 ∷ 0x00 ∷ [] }
    ensures end { record_of (0x01 ∷ 0x18 ∷ 0x00 ∷ 0x00 ∷ []) ≡ Ok EndTransaction }
    ensures end_written { bytes_of_record EndTransaction ≡ 0x01 ∷ 0x18 ∷ 0x00 ∷ 0x00 ∷ [] }
{}

/// A number of one byte.
#[tactic(auto, unfolding(crate::specs::Records::record_of, crate::specs::Records::record_at, crate::specs::Records::fields_at, crate::specs::Forms::tags_at, crate::specs::Forms::items_at, crate::specs::Fields::groups_at, crate::specs::Fields::groups_of))]
pub fn a_state()
    ensures read { record_of (0x01 ∷ 0x15 ∷ 0x00 ∷ 0x01 ∷ 0x00 ∷ []) ≡ Ok (ZkMigrationState (pos 1)) }
    ensures is_written { bytes_of_record (ZkMigrationState (pos 1)) ≡ 0x01 ∷ 0x15 ∷ 0x00 ∷ 0x01 ∷ 0x00 ∷ [] }
    ensures negative { record_of (0x01 ∷ 0x15 ∷ 0x00 ∷ 0xff ∷ 0x00 ∷ []) ≡ Ok (ZkMigrationState (negsuc 0)) }
{}

/// A text in a tagged section, which is left out where it is null.
#[tactic(auto, unfolding(crate::specs::Records::record_of, crate::specs::Records::record_at, crate::specs::Records::fields_at, crate::specs::Forms::tags_at, crate::specs::Forms::items_at, crate::specs::Fields::groups_at, crate::specs::Fields::groups_of))]
pub fn a_tagged_text()
    ensures read { record_of (0x01 ∷ 0x17 ∷ 0x00 ∷ 0x01 ∷ 0x00 ∷ 0x0d ∷ 0x0d ∷ 0x5a ∷ 0x4b ∷ 0x20 ∷ 0x4d ∷ 0x69 ∷ 0x67 ∷ 0x72 ∷ 0x61 ∷ 0x74 ∷ 0x69 ∷ 0x6f ∷ 0x6e ∷ []) ≡ Ok (BeginTransaction (Some (codes "ZK Migration"))) }
    ensures is_written { bytes_of_record (BeginTransaction (Some (codes "ZK Migration"))) ≡ 0x01 ∷ 0x17 ∷ 0x00 ∷ 0x01 ∷ 0x00 ∷ 0x0d ∷ 0x0d ∷ 0x5a ∷ 0x4b ∷ 0x20 ∷ 0x4d ∷ 0x69 ∷ 0x67 ∷ 0x72 ∷ 0x61 ∷ 0x74 ∷ 0x69 ∷ 0x6f ∷ 0x6e ∷ [] }
    ensures explicit_null { record_of (0x01 ∷ 0x19 ∷ 0x00 ∷ 0x01 ∷ 0x00 ∷ 0x01 ∷ 0x00 ∷ []) ≡ Ok (AbortTransaction None) }
    ensures null_written { bytes_of_record (AbortTransaction None) ≡ 0x01 ∷ 0x19 ∷ 0x00 ∷ 0x00 ∷ [] }
{}

/// Unknown tags and numbers in more bytes than they need.
#[tactic(auto, unfolding(crate::specs::Records::record_of, crate::specs::Records::record_at, crate::specs::Records::fields_at, crate::specs::Forms::tags_at, crate::specs::Forms::items_at, crate::specs::Fields::groups_at, crate::specs::Fields::groups_of))]
pub fn passed_over()
    ensures tag { record_of (0x01 ∷ 0x14 ∷ 0x00 ∷ 0x01 ∷ 0x05 ∷ 0x00 ∷ []) ≡ Ok NoOp }
    ensures long_number { record_of (0x01 ∷ 0x94 ∷ 0x00 ∷ 0x00 ∷ 0x00 ∷ []) ≡ Ok NoOp }
{}

/// The first fault, at its place.
#[tactic(auto, unfolding(crate::specs::Records::record_of, crate::specs::Records::record_at, crate::specs::Records::fields_at, crate::specs::Forms::tags_at, crate::specs::Forms::items_at, crate::specs::Fields::groups_at, crate::specs::Fields::groups_of))]
pub fn faults()
    ensures version { record_of (0x01 ∷ 0x14 ∷ 0x01 ∷ 0x00 ∷ []) ≡ Err (UnknownVersion 20 1) }
    ensures short { record_of (0x01 ∷ 0x14 ∷ []) ≡ Err (Short 2) }
    ensures rest { record_of (0x01 ∷ 0x14 ∷ 0x00 ∷ 0x00 ∷ 0x00 ∷ []) ≡ Err (Rest 4) }
    ensures tag_order { record_of (0x01 ∷ 0x14 ∷ 0x00 ∷ 0x02 ∷ 0x05 ∷ 0x00 ∷ 0x05 ∷ 0x00 ∷ []) ≡ Err (BadField 6) }
    ensures null { record_of (0x01 ∷ 0x16 ∷ 0x00 ∷ 0x00 ∷ []) ≡ Err (BadField 3) }
    ensures frame { record_of (0x09 ∷ 0x19 ∷ 0x00 ∷ 0x00 ∷ []) ≡ Err (BadField 0) }
    ensures key { record_of (0x01 ∷ 0x59 ∷ 0x00 ∷ 0x01 ∷ 0x00 ∷ 0x02 ∷ 0x02 ∷ 0x61 ∷ []) ≡ Err (UnknownKey 89) }
    ensures cut_tag { record_of (0x01 ∷ 0x19 ∷ 0x00 ∷ 0x01 ∷ 0x00 ∷ 0x0d ∷ 0x05 ∷ 0x75 ∷ 0x73 ∷ 0x65 ∷ 0x72 ∷ []) ≡ Err (Short 11) }
    ensures overlong { record_of (0xff ∷ 0xff ∷ 0xff ∷ 0xff ∷ 0x7f ∷ []) ≡ Err (BadField 4) }
{}

/// A field that does not fill its tag, or needs more than it; the text is not judged then.
#[tactic(auto, unfolding(crate::specs::Records::record_of, crate::specs::Records::record_at, crate::specs::Records::fields_at, crate::specs::Forms::tags_at, crate::specs::Forms::items_at, crate::specs::Fields::groups_at, crate::specs::Fields::groups_of))]
pub fn unfilled_tags()
    ensures unfilled { record_of (0x01 ∷ 0x19 ∷ 0x00 ∷ 0x01 ∷ 0x00 ∷ 0x04 ∷ 0x03 ∷ 0xe2 ∷ 0x82 ∷ 0xac ∷ []) ≡ Err (BadField 4) }
    ensures needs_more { record_of (0x01 ∷ 0x19 ∷ 0x00 ∷ 0x01 ∷ 0x00 ∷ 0x04 ∷ 0x05 ∷ 0xe2 ∷ 0x82 ∷ 0xac ∷ []) ≡ Err (BadField 4) }
{}

/// The stated parts of a change of a partition; an explicit default is taken.
#[tactic(auto, unfolding(crate::specs::Records::record_of, crate::specs::Records::record_at, crate::specs::Records::fields_at, crate::specs::Forms::tags_at, crate::specs::Forms::items_at, crate::specs::Fields::groups_at, crate::specs::Fields::groups_of))]
pub fn a_change()
    ensures { record_of (0x01 ∷ 0x05 ∷ 0x00 ∷ 0x00 ∷ 0x00 ∷ 0x00 ∷ 0x07 ∷ 0x00 ∷ 0x00 ∷ 0x00 ∷ 0x00 ∷ 0x00 ∷ 0x00 ∷ 0x00 ∷ 0x00 ∷ 0x00 ∷ 0x00 ∷ 0x00 ∷ 0x00 ∷ 0x00 ∷ 0x00 ∷ 0x00 ∷ 0x02 ∷ 0x03 ∷ 0x00 ∷ 0x05 ∷ 0x02 ∷ 0x00 ∷ 0x00 ∷ 0x00 ∷ 0x01 ∷ 0x01 ∷ 0x04 ∷ 0xff ∷ 0xff ∷ 0xff ∷ 0xfe ∷ 0x05 ∷ 0x01 ∷ 0x01 ∷ []) ≡ Ok (PartitionChange (record { partition_id = pos 7; topic_id = record { bytes = 0 ∷ 0 ∷ 0 ∷ 0 ∷ 0 ∷ 0 ∷ 0 ∷ 0 ∷ 0 ∷ 0 ∷ 0 ∷ 0 ∷ 0 ∷ 0 ∷ 0 ∷ 2 ∷ [] }; isr = Some (pos 1 ∷ []); leader = negsuc 1; replicas = None; removing = None; adding = None; recovery = pos 1 })) }
{}

/// A client id and a user, read in either order.
#[tactic(auto, unfolding(crate::specs::Records::record_of, crate::specs::Records::record_at, crate::specs::Records::fields_at, crate::specs::Forms::tags_at, crate::specs::Forms::items_at, crate::specs::Fields::groups_at, crate::specs::Fields::groups_of))]
pub fn a_quota()
    ensures { record_of (0x01 ∷ 0x0e ∷ 0x40 ∷ 0x03 ∷ 0x0a ∷ 0x63 ∷ 0x6c ∷ 0x69 ∷ 0x65 ∷ 0x6e ∷ 0x74 ∷ 0x2d ∷ 0x69 ∷ 0x64 ∷ 0x00 ∷ 0x00 ∷ 0x05 ∷ 0x75 ∷ 0x73 ∷ 0x65 ∷ 0x72 ∷ 0x02 ∷ 0x61 ∷ 0x00 ∷ 0x02 ∷ 0x6b ∷ 0x00 ∷ 0x00 ∷ 0x00 ∷ 0x00 ∷ 0x00 ∷ 0x00 ∷ 0x00 ∷ 0x05 ∷ 0xff ∷ 0xff ∷ 0xff ∷ 0xff ∷ 0x01 ∷ 0x00 ∷ []) ≡ Ok (ClientQuota (record { entity = record { kind = codes "user"; name = Some (codes "a") } ∷ record { kind = codes "client-id"; name = None } ∷ []; key = codes "k"; value = record { whole = pos 5; micros = negsuc 0 }; remove = true })) }
{}
