//! Laws by example: the records of worked znodes, and the znodes that can't be translated.
#![tactic(auto, unfolding(crate::proofs::ZnodesOnLiterals::znodes_on_literals))]

ghost use Rattle.std.specs.Prelude.{◌≡◌, [], ◌∷◌, Some, None, Ok, Err, false, pos, negsuc, codes, map};
ghost use Rattle.kz_types.specs.declared.record.MetaRecord.TheVariants as meta;
ghost use Rattle.kz_types.specs.declared.fault.BodyFault.TheVariants.{NotJson, Missing, BadField, NoTopicId, UnknownKey};
ghost use Rattle.kz_types.specs.declared.fault.ReadWhy.TheVariants.{Stray, Body, SameId};
ghost use Rattle.kz_spec_data.specs.Image.{empty_image, first_bad};
ghost use Rattle.kz_spec_data.specs.Rendering.{render};
ghost use Rattle.kz_spec_data.specs.Translation.{translate};
ghost use Rattle.kz_spec_data.specs.ImageExamples.{broker_member, block};
ghost use Rattle.kz_spec_data.specs.ZnodeExamples.{row, row_of_rendered, image_of_records, orders_rows, orders_records, counting_id, counting_topic, partition_on, allowing_entry, counting_data, state_data, config_data, entry_data, block_data};

/// A topic comes with its partitions, a configuration by its members, and entries by their number. Each record is accepted,
/// and the znodes that they are rendered as say the same.
pub fn worked_area()
    ensures records { translate orders_rows ≡ Ok orders_records }
    ensures accepted { first_bad 0 orders_records empty_image ≡ None }
    ensures again { translate (map row_of_rendered (render (image_of_records orders_records))) ≡ Ok orders_records }
{}

/// A partition without a state is led by its first replica. One with a state has its znode's data version, and a leader of
/// -2 is none. Partitions come by rising number.
pub fn partitions()
    ensures no_state { translate (row (codes "/brokers/topics/t") (counting_data (codes "{\"10\":[3],\"2\":[2,1]}")) ∷ [])
        ≡ Ok (counting_topic (codes "t") ∷ partition_on (pos 2) (pos 2 ∷ pos 1 ∷ []) (pos 2) (pos 0) ∷ partition_on (pos 10) (pos 3 ∷ []) (pos 3) (pos 0) ∷ []) }
    ensures state { translate (row (codes "/brokers/topics/t") (counting_data (codes "{\"0\":[2,1]},\"adding_replicas\":{\"0\":[2]},\"removing_replicas\":{\"0\":[1]}"))
        ∷ (record (row (codes "/brokers/topics/t/partitions/0/state") (state_data (codes "-2") (codes "[1]"))) { version = pos 9 }) ∷ [])
        ≡ Ok (counting_topic (codes "t") ∷ meta.Partition (record { partition_id = pos 0; topic_id = counting_id; replicas = pos 2 ∷ pos 1 ∷ []; isr = pos 1 ∷ []; removing = pos 1 ∷ []; adding = pos 2 ∷ []; leader = negsuc 0; recovery = pos 1; leader_epoch = pos 2; partition_epoch = pos 9 }) ∷ []) }
{}

/// Brokers in sync and a leader that aren't replicas, the first by path order.
pub fn refused_states()
    ensures isr { translate (row (codes "/brokers/topics/t") (counting_data (codes "{\"0\":[2,1]}"))
        ∷ row (codes "/brokers/topics/t/partitions/0/state") (state_data (codes "3") (codes "[3]")) ∷ [])
        ≡ Err (record { path = codes "/brokers/topics/t/partitions/0/state"; why = Body (BadField (codes "isr")) }) }
    ensures leader { translate (row (codes "/brokers/topics/t") (counting_data (codes "{\"0\":[2,1]}"))
        ∷ row (codes "/brokers/topics/t/partitions/0/state") (state_data (codes "3") (codes "[1]")) ∷ [])
        ≡ Err (record { path = codes "/brokers/topics/t/partitions/0/state"; why = Body (BadField (codes "leader")) }) }
    ensures first { translate (row (codes "/brokers/topics/t") (counting_data (codes "{\"2\":[2,1],\"10\":[1]}"))
        ∷ row (codes "/brokers/topics/t/partitions/10/state") (codes "{}") ∷ row (codes "/brokers/topics/t/partitions/2/state") (codes "x") ∷ [])
        ≡ Err (record { path = codes "/brokers/topics/t/partitions/10/state"; why = Body (Missing (codes "version")) }) }
{}

/// A second topic of one id, told after what its own body says, and a path that names nothing.
pub fn refused_znodes()
    ensures same_id { translate (row (codes "/brokers/topics/a") (counting_data (codes "{}")) ∷ row (codes "/brokers/topics/b") (counting_data (codes "{}")) ∷ [])
        ≡ Err (record { path = codes "/brokers/topics/b"; why = SameId }) }
    ensures own_fault { translate (row (codes "/brokers/topics/a") (counting_data (codes "{}")) ∷ row (codes "/brokers/topics/b") (counting_data (codes "[]")) ∷ [])
        ≡ Err (record { path = codes "/brokers/topics/b"; why = Body (BadField (codes "partitions")) }) }
    ensures stray { translate (row (codes "/brokers/topics") [] ∷ row (codes "/config/brokers/01") [] ∷ row (codes "/config/clients/a") (codes "x") ∷ [])
        ≡ Err (record { path = codes "/config/brokers/01"; why = Stray }) }
    ensures no_name { translate (row (codes "/config/brokers/1") (config_data (codes "{\"a\":\"1\",\"\":\"2\"}")) ∷ [])
        ≡ Err (record { path = codes "/config/brokers/1"; why = Body (UnknownKey []) }) }
    ensures block_end { translate (row (codes "/latest_producer_id_block") (block_data (codes "9223372036854774808")) ∷ [])
        ≡ Err (record { path = codes "/latest_producer_id_block"; why = Body (BadField (codes "block_end")) }) }
{}

/// The data of parents, of the configuration of a topic that isn't there, and of the state of a partition that isn't
/// assigned isn't read.
pub fn unread_data()
    ensures parents { translate (row (codes "/brokers/topics") (codes "x") ∷ row (codes "/brokers/topics/t/partitions") (codes "x") ∷ []) ≡ Ok [] }
    ensures config { translate (row (codes "/config/topics/t") (codes "x") ∷ []) ≡ Ok [] }
    ensures read_config { translate (row (codes "/brokers/topics/t") (counting_data (codes "{}")) ∷ row (codes "/config/topics/t") (codes "x") ∷ [])
        ≡ Err (record { path = codes "/config/topics/t"; why = Body NotJson }) }
    ensures state { translate (row (codes "/brokers/topics/t") (counting_data (codes "{}")) ∷ row (codes "/brokers/topics/t/partitions/0/state") (codes "x") ∷ [])
        ≡ Ok (counting_topic (codes "t") ∷ []) }
{}

/// Whom a quota speaks of, the numbers of entries over all resources, and the next producer id.
pub fn others()
    ensures quotas { translate (row (codes "/config/ips/<default>") (config_data (codes "{\"connection_creation_rate\":\"2\"}"))
        ∷ row (codes "/config/users/<default>/clients/a%2Fb") (config_data (codes "{\"request_percentage\":\"0.5\"}")) ∷ [])
        ≡ Ok (meta.ClientQuota (record { entity = record { kind = codes "ip"; name = None } ∷ []; key = codes "connection_creation_rate"; value = record { whole = pos 2; micros = pos 0 }; remove = false })
        ∷ meta.ClientQuota (record { entity = record { kind = codes "user"; name = None } ∷ record { kind = codes "client-id"; name = Some (codes "a/b") } ∷ []; key = codes "request_percentage"; value = record { whole = pos 0; micros = pos 500000 }; remove = false }) ∷ []) }
    ensures entries { translate (row (codes "/kafka-acl/Topic/a") (entry_data (codes "\"Read\"")) ∷ row (codes "/kafka-acl/Topic/b") (entry_data (codes "\"Write\"")) ∷ [])
        ≡ Ok (allowing_entry 0 (codes "a") (pos 3) ∷ allowing_entry 1 (codes "b") (pos 4) ∷ []) }
    ensures block { translate (row (codes "/latest_producer_id_block") (block_data (codes "9223372036854774807")) ∷ []) ≡ Ok (block (pos 9223372036854774808) ∷ []) }
    ensures no_block { translate (row (codes "/latest_producer_id_block") [] ∷ []) ≡ Ok [] }
    ensures brokers { translate (row (codes "/config/brokers/1") (config_data (codes "{\"a\":\"1\"}")) ∷ row (codes "/config/brokers/<default>") [] ∷ [])
        ≡ Ok (broker_member (codes "1") (codes "a") (Some (codes "1")) ∷ []) }
{}

/// The first fault by path order decides, whatever kind it is of; a path that names nothing decides also among znodes that
/// aren't read.
pub fn first_faults()
    ensures before_the_state { translate (row (codes "/brokers/topics/a") (counting_data (codes "{\"0\":[1]}")) ∷ row (codes "/brokers/topics/a-b") (codes "x") ∷ row (codes "/brokers/topics/a/partitions/0/state") (codes "x") ∷ [])
        ≡ Err (record { path = codes "/brokers/topics/a-b"; why = Body NotJson }) }
    ensures same_id { translate (row (codes "/brokers/topics/a") (counting_data (codes "{\"0\":[1]}")) ∷ row (codes "/brokers/topics/a-b") (counting_data (codes "{}")) ∷ row (codes "/brokers/topics/a/partitions/0/state") (codes "x") ∷ [])
        ≡ Err (record { path = codes "/brokers/topics/a-b"; why = SameId }) }
    ensures no_id { translate (row (codes "/brokers/topics/t") (codes "{\"version\":2,\"partitions\":{}}") ∷ []) ≡ Err (record { path = codes "/brokers/topics/t"; why = Body NoTopicId }) }
    ensures stray_of_none { translate (row (codes "/brokers/topics/t/partitions/0/x") [] ∷ []) ≡ Err (record { path = codes "/brokers/topics/t/partitions/0/x"; why = Stray }) }
    ensures stray_after { translate (row (codes "/config/topics/t") (codes "x") ∷ row (codes "/config/topics/t/x") [] ∷ []) ≡ Err (record { path = codes "/config/topics/t/x"; why = Stray }) }
{}

/// What a state's own form is at fault in comes before what its topic says of it.
pub fn faults_of_states()
    ensures leader_form { translate (row (codes "/brokers/topics/t") (counting_data (codes "{\"0\":[2,1]}")) ∷ row (codes "/brokers/topics/t/partitions/0/state") (state_data (codes "-3") (codes "[9]")) ∷ [])
        ≡ Err (record { path = codes "/brokers/topics/t/partitions/0/state"; why = Body (BadField (codes "leader")) }) }
    ensures twice { translate (row (codes "/brokers/topics/t") (counting_data (codes "{\"0\":[2,1]}")) ∷ row (codes "/brokers/topics/t/partitions/0/state") (state_data (codes "1") (codes "[1,1]")) ∷ [])
        ≡ Err (record { path = codes "/brokers/topics/t/partitions/0/state"; why = Body (BadField (codes "isr")) }) }
    ensures none_in_sync { translate (row (codes "/brokers/topics/t") (counting_data (codes "{\"0\":[2,1]}")) ∷ row (codes "/brokers/topics/t/partitions/0/state") (state_data (codes "-1") (codes "[]")) ∷ [])
        ≡ Ok (counting_topic (codes "t") ∷ meta.Partition (record { partition_id = pos 0; topic_id = counting_id; replicas = pos 2 ∷ pos 1 ∷ []; isr = []; removing = []; adding = []; leader = negsuc 0; recovery = pos 1; leader_epoch = pos 2; partition_epoch = pos 0 }) ∷ []) }
    ensures unassigned { translate (row (codes "/brokers/topics/t") (counting_data (codes "{}")) ∷ row (codes "/brokers/topics/t/partitions/0/state") (state_data (codes "9") (codes "[9]")) ∷ []) ≡ Ok (counting_topic (codes "t") ∷ []) }
{}

/// What is added to or removed from partitions that aren't there is dropped, and has to be of its form.
pub fn reassignments()
    ensures dropped { translate (row (codes "/brokers/topics/t") (counting_data (codes "{\"0\":[1]},\"adding_replicas\":{\"7\":[9,9]}")) ∷ []) ≡ Ok (counting_topic (codes "t") ∷ partition_on (pos 0) (pos 1 ∷ []) (pos 1) (pos 0) ∷ []) }
    ensures form { translate (row (codes "/brokers/topics/t") (counting_data (codes "{\"0\":[1]},\"adding_replicas\":{\"7\":[-1]}")) ∷ []) ≡ Err (record { path = codes "/brokers/topics/t"; why = Body (BadField (codes "adding_replicas")) }) }
    ensures foreign { translate (row (codes "/brokers/topics/t") (counting_data (codes "{\"0\":[1]},\"removing_replicas\":{\"0\":[9]}")) ∷ []) ≡ Err (record { path = codes "/brokers/topics/t"; why = Body (BadField (codes "removing_replicas")) }) }
{}

/// Entries are numbered over all resources, prefixed ones first, since their paths come first; a default user has no
/// credentials; and a block may begin after its end.
pub fn further_znodes()
    ensures entries { translate (row (codes "/kafka-acl-extended/prefixed/Topic/b") (entry_data (codes "\"Read\"")) ∷ row (codes "/kafka-acl/Group/g") [] ∷ row (codes "/kafka-acl/Topic/a") (entry_data (codes "\"Write\"")) ∷ [])
        ≡ Ok (meta.AccessControlEntry (record { id = record { bytes = 75 ∷ 82 ∷ 65 ∷ 70 ∷ 84 ∷ 77 ∷ 73 ∷ 71 ∷ 0 ∷ 0 ∷ 0 ∷ 0 ∷ 0 ∷ 0 ∷ 0 ∷ 0 ∷ [] }; resource_type = pos 2; resource_name = codes "b"; pattern_type = pos 4; principal = codes "User:alice"; host = codes "*"; operation = pos 3; permission = pos 3 })
        ∷ allowing_entry 1 (codes "a") (pos 4) ∷ []) }
    ensures default_broker { translate (row (codes "/config/brokers/<default>") (config_data (codes "{\"b\":\"2\",\"a\":\"1\"}")) ∷ []) ≡ Ok (broker_member [] (codes "a") (Some (codes "1")) ∷ broker_member [] (codes "b") (Some (codes "2")) ∷ []) }
    ensures default_user { translate (row (codes "/config/users/<default>") (config_data (codes "{\"SCRAM-SHA-256\":\"salt=,stored_key=,server_key=,iterations=1\"}")) ∷ []) ≡ Err (record { path = codes "/config/users/<default>"; why = Body (UnknownKey (codes "SCRAM-SHA-256")) }) }
    ensures no_name { translate (row (codes "/config/clients/c") (config_data (codes "{\"\":\"2\"}")) ∷ []) ≡ Err (record { path = codes "/config/clients/c"; why = Body (UnknownKey []) }) }
    ensures first_id { translate (row (codes "/latest_producer_id_block") (block_data (codes "0")) ∷ []) ≡ Ok (block (pos 1) ∷ []) }
{}
