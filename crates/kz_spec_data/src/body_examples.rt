//! The definitions of bodies, computed on examples. Each example stands on a function that does nothing.
#![tactic(auto, unfolding(crate::proofs::BodiesOnLiterals::bodies_on_literals))]

ghost use Rattle.std.specs.Prelude.{◌≡◌, ◌∷◌, [], codes, pos, negsuc, ℕ, ℤ, List, Some, None, Ok, Err};
ghost use Rattle.kz_types.specs.declared.key.EntityKey.TheVariants.{Topic, Partition, BrokerConfig, User, Ip, Acl, Producer};
ghost use Rattle.kz_types.specs.declared.bodies.Body.TheVariants as body;
ghost use Rattle.kz_types.specs.declared.fault.BodyFault.TheVariants.{NotJson, Missing, BadField, NoTopicId, UnknownKey};
ghost use Rattle.kz_spec_data.specs.Credentials.{credential_of, credential_text};
ghost use Rattle.kz_spec_data.specs.Bodies.{read_body, text_of_body};

/// Empty data.
pub fn empty_data()
    ensures producer { read_body Producer [] ≡ Ok body.Blank }
    ensures config { read_body (BrokerConfig None) [] ≡ Ok (body.Config []) }
    ensures topic { read_body (Topic (codes "t")) [] ≡ Err NotJson }
{}

/// A configuration of a broker.
pub fn broker_config()
    ensures written { text_of_body (body.Config (record { name = codes "a"; value = codes "1" } ∷ record { name = codes "b"; value = codes "x\"y" } ∷ []))
        ≡ codes "{\"config\":{\"a\":\"1\",\"b\":\"x\\\"y\"},\"version\":1}" }
    ensures order { text_of_body (body.Config (record { name = codes "b"; value = codes "2" } ∷ record { name = codes "a"; value = codes "1" } ∷ []))
        ≡ codes "{\"config\":{\"a\":\"1\",\"b\":\"2\"},\"version\":1}" }
    ensures empty { text_of_body (body.Config []) ≡ codes "{\"config\":{},\"version\":1}" }
    ensures read { read_body (BrokerConfig (Some (pos 1))) (codes "{\"version\":1,\"config\":{\"b\":\"2\",\"a\":\"1\"},\"more\":[]}")
        ≡ Ok (body.Config (record { name = codes "a"; value = codes "1" } ∷ record { name = codes "b"; value = codes "2" } ∷ [])) }
    ensures last_counts { read_body (BrokerConfig None) (codes "{\"version\":9,\"version\":1,\"config\":{\"a\":\"1\",\"a\":\"2\"}}")
        ≡ Ok (body.Config (record { name = codes "a"; value = codes "2" } ∷ [])) }
    ensures no_object { read_body (BrokerConfig None) (codes "[1]") ≡ Err NotJson }
    ensures no_version { read_body (BrokerConfig None) (codes "{\"config\":{}}") ≡ Err (Missing (codes "version")) }
    ensures version_first { read_body (BrokerConfig None) (codes "{\"version\":2}") ≡ Err (BadField (codes "version")) }
    ensures no_config { read_body (BrokerConfig None) (codes "{\"version\":1}") ≡ Err (Missing (codes "config")) }
    ensures no_text { read_body (BrokerConfig None) (codes "{\"version\":1,\"config\":{\"a\":1}}") ≡ Err (BadField (codes "config")) }
{}

/// Quotas.
pub fn quotas()
    ensures read { read_body (User (Some (codes "u"))) (codes "{\"version\":1,\"config\":{\"producer_byte_rate\":\"12.5\",\"consumer_byte_rate\":\"1e3\"}}")
        ≡ Ok (body.Quota (record { key = codes "consumer_byte_rate"; value = record { whole = pos 1000; micros = pos 0 } }
        ∷ record { key = codes "producer_byte_rate"; value = record { whole = pos 12; micros = pos 500000 } } ∷ []) []) }
    ensures written { text_of_body (body.Quota (record { key = codes "consumer_byte_rate"; value = record { whole = pos 1000; micros = pos 0 } } ∷ []) [])
        ≡ codes "{\"config\":{\"consumer_byte_rate\":\"1000\"},\"version\":1}" }
    ensures unknown { read_body (Ip None) (codes "{\"version\":1,\"config\":{\"producer_byte_rate\":\"1\"}}") ≡ Err (UnknownKey (codes "producer_byte_rate")) }
    ensures fine { read_body (User None) (codes "{\"version\":1,\"config\":{\"producer_byte_rate\":\"1e-7\"}}") ≡ Err (BadField (codes "producer_byte_rate")) }
    ensures default_user { read_body (User None) (codes "{\"version\":1,\"config\":{\"SCRAM-SHA-256\":\"\"}}") ≡ Err (UnknownKey (codes "SCRAM-SHA-256")) }
{}

/// Credentials.
pub fn credentials()
    ensures read { credential_of (codes "iterations=4096,salt=QQ==,server_key=Qg==,stored_key=")
        ≡ Some (record { salt = 65 ∷ []; stored_key = []; server_key = 66 ∷ []; iterations = pos 4096 }) }
    ensures written { credential_text (record { salt = 65 ∷ []; stored_key = []; server_key = 66 ∷ []; iterations = pos 4096 })
        ≡ codes "salt=QQ==,stored_key=,server_key=Qg==,iterations=4096" }
    ensures twice { credential_of (codes "salt=QQ==,salt=QQ==,server_key=Qg==,iterations=1") ≡ None }
    ensures five { credential_of (codes "salt=QQ==,stored_key=,server_key=Qg==,iterations=1,salt=QQ==") ≡ None }
    ensures zero { credential_of (codes "salt=,stored_key=,server_key=,iterations=0") ≡ None }
    ensures unused_bits { credential_of (codes "salt=QR==,stored_key=,server_key=,iterations=1") ≡ None }
{}

/// Topics.
pub fn topics()
    ensures read { read_body (Topic (codes "t")) (codes "{\"version\":2,\"partitions\":{\"10\":[3],\"2\":[1,2]},\"adding_replicas\":{\"2\":[1],\"5\":[9,9]},\"topic_id\":\"AAECAwQFBgcICQoLDA0ODw\"}")
        ≡ Ok (body.Topic (record { bytes = 0 ∷ 1 ∷ 2 ∷ 3 ∷ 4 ∷ 5 ∷ 6 ∷ 7 ∷ 8 ∷ 9 ∷ 10 ∷ 11 ∷ 12 ∷ 13 ∷ 14 ∷ 15 ∷ [] })
        (record { number = pos 2; replicas = pos 1 ∷ pos 2 ∷ []; adding = pos 1 ∷ []; removing = [] }
        ∷ record { number = pos 10; replicas = pos 3 ∷ []; adding = []; removing = [] } ∷ [])) }
    ensures written { text_of_body (body.Topic (record { bytes = 0 ∷ 1 ∷ 2 ∷ 3 ∷ 4 ∷ 5 ∷ 6 ∷ 7 ∷ 8 ∷ 9 ∷ 10 ∷ 11 ∷ 12 ∷ 13 ∷ 14 ∷ 15 ∷ [] })
        (record { number = pos 2; replicas = pos 1 ∷ pos 2 ∷ []; adding = pos 1 ∷ []; removing = [] }
        ∷ record { number = pos 10; replicas = pos 3 ∷ []; adding = []; removing = [] } ∷ []))
        ≡ codes "{\"adding_replicas\":{\"2\":[1]},\"partitions\":{\"10\":[3],\"2\":[1,2]},\"removing_replicas\":{},\"topic_id\":\"AAECAwQFBgcICQoLDA0ODw\",\"version\":3}" }
    ensures no_id { read_body (Topic (codes "t")) (codes "{\"version\":2,\"partitions\":{\"0\":[1]},\"adding_replicas\":{},\"removing_replicas\":{}}") ≡ Err NoTopicId }
    ensures zero_id { read_body (Topic (codes "t")) (codes "{\"version\":2,\"partitions\":{},\"topic_id\":\"AAAAAAAAAAAAAAAAAAAAAA\"}") ≡ Err NoTopicId }
    ensures bad_id { read_body (Topic (codes "t")) (codes "{\"version\":2,\"partitions\":{},\"topic_id\":1}") ≡ Err (BadField (codes "topic_id")) }
    ensures twice { read_body (Topic (codes "t")) (codes "{\"version\":2,\"partitions\":{\"0\":[1,1]}}") ≡ Err (BadField (codes "partitions")) }
    ensures not_a_replica { read_body (Topic (codes "t")) (codes "{\"version\":2,\"partitions\":{\"0\":[1]},\"removing_replicas\":{\"0\":[2]}}") ≡ Err (BadField (codes "removing_replicas")) }
{}

/// States of partitions, access control entries and the block of producer ids.
pub fn others()
    ensures state { read_body (Partition (codes "t") (pos 0)) (codes "{\"version\":1,\"leader\":-2,\"leader_epoch\":7,\"controller_epoch\":4,\"isr\":[1]}")
        ≡ Ok (body.State (negsuc 1) (pos 7) (pos 4) (pos 1 ∷ []) (pos 0)) }
    ensures float { read_body (Partition (codes "t") (pos 0)) (codes "{\"version\":1,\"leader\":1.0}") ≡ Err (BadField (codes "leader")) }
    ensures minus_zero { read_body (Partition (codes "t") (pos 0)) (codes "{\"version\":1,\"leader\":-0}") ≡ Err (BadField (codes "leader")) }
    ensures acls { read_body (Acl (pos 3) (pos 2) (codes "o")) (codes "{\"version\":1,\"acls\":[{\"principal\":\"User:a\",\"permissionType\":\"Deny\",\"operation\":\"IdempotentWrite\",\"host\":\"*\",\"x\":0}]}")
        ≡ Ok (body.Acls (record { kind = pos 2; pattern = pos 3; name = codes "o"; principal = codes "User:a"; host = codes "*"; operation = pos 12; permission = pos 2 } ∷ [])) }
    ensures acls_written { text_of_body (body.Acls (record { kind = pos 2; pattern = pos 3; name = codes "o"; principal = codes "User:a"; host = codes "*"; operation = pos 12; permission = pos 2 } ∷ []))
        ≡ codes "{\"acls\":[{\"host\":\"*\",\"operation\":\"IdempotentWrite\",\"permissionType\":\"Deny\",\"principal\":\"User:a\"}],\"version\":1}" }
    ensures block { read_body Producer (codes "{\"version\":1,\"broker\":-1,\"block_start\":\"01000\",\"block_end\":\"999\"}") ≡ Ok (body.Producer (negsuc 0) (pos 1000) (pos 999)) }
    ensures block_large { read_body Producer (codes "{\"version\":1,\"broker\":1,\"block_start\":\"9223372036854775808\",\"block_end\":\"9\"}") ≡ Err (BadField (codes "block_start")) }
    ensures block_written { text_of_body (body.Producer (negsuc 0) (pos 1000) (pos 1999)) ≡ codes "{\"block_end\":\"1999\",\"block_start\":\"1000\",\"broker\":-1,\"version\":1}" }
{}
