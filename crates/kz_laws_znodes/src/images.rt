//! Laws of the metadata: what records make of it, told as look-ups. It holds for each entity what the accepted records last
//! say of it.
//!
//! A law is the contract of a function that does nothing.

ghost use Rattle.kz_laws_znodes.specs.ImageLaws.{EmptyIsInOrder, AppliedKeepsOrder, AllAppliedKeepsOrder, BrokerIsSaid, AclIsSaid, ProducerIsSaid, StateIsSaid, BrokerMemberIsSaid, ScramIsSaid, QuotaIsSaid, TopicIdIsSaid, TopicNameIsSaid, PartitionIsSaid, TopicMemberIsSaid};
ghost use Rattle.kz_laws_znodes.specs.Alike.{AlikeAreOne};

/// The empty metadata is in order, and a metadata in order stays so under every record.
pub fn order_is_kept()
    ensures empty { EmptyIsInOrder }
    ensures applied { AppliedKeepsOrder }
    ensures all_applied { AllAppliedKeepsOrder }
{}

/// A registered broker is its last registration, an access control entry is the last one of its id that wasn't removed, the
/// next producer id and the state of the migration are the last that were said.
pub fn entries_are_said()
    ensures broker { BrokerIsSaid }
    ensures acl { AclIsSaid }
    ensures producer { ProducerIsSaid }
    ensures state { StateIsSaid }
{}

/// A member of a broker's configuration, a user's credential by a mechanism and an entity's quota are the last that were set
/// and not removed since.
pub fn members_are_said()
    ensures member { BrokerMemberIsSaid }
    ensures scram { ScramIsSaid }
    ensures quota { QuotaIsSaid }
{}

/// The id of a topic and its name are the last that were given and not removed since, and a partition is what its last record
/// made of it, with each change after that.
pub fn topics_are_said()
    ensures id { TopicIdIsSaid }
    ensures name { TopicNameIsSaid }
    ensures partition { PartitionIsSaid }
{}

/// A member of a topic's configuration is the last that was set since the topic was made.
pub fn topic_members_are_said()
    ensures { TopicMemberIsSaid }
{}

/// Look-ups tell all of a metadata: two in order of which each answers the same are one.
pub fn look_ups_tell_all()
    ensures { AlikeAreOne }
{}
