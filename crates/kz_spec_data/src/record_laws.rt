//! Which records some JSON values are, and how some are written.
ghost use Rattle.std.specs.Prelude.{◌≡◌, [], ◌∷◌, None, Some, true, false, pos, negsuc, codes};
ghost use Rattle.serde_json.specs.Written.{compact_text};
ghost use Rattle.kz_types.specs.declared.record.MetaRecord.TheVariants.{RegisterBroker, Topic, Partition, Config, PartitionChange, RemoveTopic, UserScramCredential, ClientQuota, ProducerIds, AccessControlEntry, RemoveAccessControlEntry, NoOp, ZkMigrationState, RemoveUserScramCredential, BeginTransaction, EndTransaction, AbortTransaction};
ghost use Rattle.kz_spec_data.specs.RecordLines.{record_in};
ghost use Rattle.kz_spec_data.specs.WrittenRecords.{record_data};

/// Records of topics and partitions, read.
#[tactic(auto, unfolding(crate::proofs::LinesOnLiterals::lines_on_literals))]
pub fn partitions_are_read()
    ensures partition { record_in (codes "{\"adding\":[],\"isr\":[],\"kind\":\"Partition\",\"leader\":0,\"leaderEpoch\":1,\"partitionEpoch\":-2147483648,\"partitionId\":0,\"removing\":[-1],\"replicas\":[],\"topicId\":\"y3IYK2HR4KbPLcUQjJR0Rw\"}")
        ≡ Some (Partition (record { partition_id = pos 0; topic_id = record { bytes = 203 ∷ 114 ∷ 24 ∷ 43 ∷ 97 ∷ 209 ∷ 224 ∷ 166 ∷ 207 ∷ 45 ∷ 197 ∷ 16 ∷ 140 ∷ 148 ∷ 116 ∷ 71 ∷ [] }; replicas = []; isr = []; removing = (negsuc 0) ∷ []; adding = []; leader = pos 0; recovery = pos 0; leader_epoch = pos 1; partition_epoch = negsuc 2147483647 })) }
    ensures recovering { record_in (codes "{\"adding\":[0],\"isr\":[-1],\"kind\":\"Partition\",\"leader\":1,\"leaderEpoch\":1,\"partitionEpoch\":1,\"partitionId\":-1,\"recovery\":1,\"removing\":[],\"replicas\":[-2147483648,2147483647],\"topicId\":\"i5yfcZ4ZSc_GQ3kRC9WE2A\"}")
        ≡ Some (Partition (record { partition_id = negsuc 0; topic_id = record { bytes = 139 ∷ 156 ∷ 159 ∷ 113 ∷ 158 ∷ 25 ∷ 73 ∷ 207 ∷ 198 ∷ 67 ∷ 121 ∷ 17 ∷ 11 ∷ 213 ∷ 132 ∷ 216 ∷ [] }; replicas = (negsuc 2147483647) ∷ (pos 2147483647) ∷ []; isr = (negsuc 0) ∷ []; removing = []; adding = (pos 0) ∷ []; leader = pos 1; recovery = pos 1; leader_epoch = pos 1; partition_epoch = pos 1 })) }
    ensures no_change { record_in (codes "{\"kind\":\"PartitionChange\",\"partitionId\":0,\"topicId\":\"y3IYK2HR4KbPLcUQjJR0Rw\"}")
        ≡ Some (PartitionChange (record { partition_id = pos 0; topic_id = record { bytes = 203 ∷ 114 ∷ 24 ∷ 43 ∷ 97 ∷ 209 ∷ 224 ∷ 166 ∷ 207 ∷ 45 ∷ 197 ∷ 16 ∷ 140 ∷ 148 ∷ 116 ∷ 71 ∷ [] }; isr = None; leader = negsuc 1; replicas = None; removing = None; adding = None; recovery = negsuc 0 })) }
    ensures every_change { record_in (codes "{\"adding\":[1,2],\"isr\":[],\"kind\":\"PartitionChange\",\"leader\":-1,\"partitionId\":2147483647,\"recovery\":0,\"removing\":[3],\"replicas\":[1],\"topicId\":\"y3IYK2HR4KbPLcUQjJR0Rw\"}")
        ≡ Some (PartitionChange (record { partition_id = pos 2147483647; topic_id = record { bytes = 203 ∷ 114 ∷ 24 ∷ 43 ∷ 97 ∷ 209 ∷ 224 ∷ 166 ∷ 207 ∷ 45 ∷ 197 ∷ 16 ∷ 140 ∷ 148 ∷ 116 ∷ 71 ∷ [] }; isr = Some []; leader = negsuc 0; replicas = Some ((pos 1) ∷ []); removing = Some ((pos 3) ∷ []); adding = Some ((pos 1) ∷ (pos 2) ∷ []); recovery = pos 0 })) }
    ensures topic { record_in (codes "{\"kind\":\"Topic\",\"name\":\"t\",\"topicId\":\"y3IYK2HR4KbPLcUQjJR0Rw\"}")
        ≡ Some (Topic (record { name = codes "t"; topic_id = record { bytes = 203 ∷ 114 ∷ 24 ∷ 43 ∷ 97 ∷ 209 ∷ 224 ∷ 166 ∷ 207 ∷ 45 ∷ 197 ∷ 16 ∷ 140 ∷ 148 ∷ 116 ∷ 71 ∷ [] } })) }
    ensures removed { record_in (codes "{\"kind\":\"RemoveTopic\",\"topicId\":\"y3IYK2HR4KbPLcUQjJR0Rw\"}")
        ≡ Some (RemoveTopic (record { bytes = 203 ∷ 114 ∷ 24 ∷ 43 ∷ 97 ∷ 209 ∷ 224 ∷ 166 ∷ 207 ∷ 45 ∷ 197 ∷ 16 ∷ 140 ∷ 148 ∷ 116 ∷ 71 ∷ [] })) }
{}

/// And written.
#[tactic(auto, unfolding(crate::proofs::LinesOnLiterals::lines_on_literals))]
pub fn partitions_are_written()
    ensures partition { compact_text (record_data (Partition (record { partition_id = pos 0; topic_id = record { bytes = 203 ∷ 114 ∷ 24 ∷ 43 ∷ 97 ∷ 209 ∷ 224 ∷ 166 ∷ 207 ∷ 45 ∷ 197 ∷ 16 ∷ 140 ∷ 148 ∷ 116 ∷ 71 ∷ [] }; replicas = []; isr = []; removing = (negsuc 0) ∷ []; adding = []; leader = pos 0; recovery = pos 0; leader_epoch = pos 1; partition_epoch = negsuc 2147483647 })))
        ≡ (codes "{\"adding\":[],\"isr\":[],\"kind\":\"Partition\",\"leader\":0,\"leaderEpoch\":1,\"partitionEpoch\":-2147483648,\"partitionId\":0,\"removing\":[-1],\"replicas\":[],\"topicId\":\"y3IYK2HR4KbPLcUQjJR0Rw\"}") }
    ensures recovering { compact_text (record_data (Partition (record { partition_id = negsuc 0; topic_id = record { bytes = 139 ∷ 156 ∷ 159 ∷ 113 ∷ 158 ∷ 25 ∷ 73 ∷ 207 ∷ 198 ∷ 67 ∷ 121 ∷ 17 ∷ 11 ∷ 213 ∷ 132 ∷ 216 ∷ [] }; replicas = (negsuc 2147483647) ∷ (pos 2147483647) ∷ []; isr = (negsuc 0) ∷ []; removing = []; adding = (pos 0) ∷ []; leader = pos 1; recovery = pos 1; leader_epoch = pos 1; partition_epoch = pos 1 })))
        ≡ (codes "{\"adding\":[0],\"isr\":[-1],\"kind\":\"Partition\",\"leader\":1,\"leaderEpoch\":1,\"partitionEpoch\":1,\"partitionId\":-1,\"recovery\":1,\"removing\":[],\"replicas\":[-2147483648,2147483647],\"topicId\":\"i5yfcZ4ZSc_GQ3kRC9WE2A\"}") }
    ensures no_change { compact_text (record_data (PartitionChange (record { partition_id = pos 0; topic_id = record { bytes = 203 ∷ 114 ∷ 24 ∷ 43 ∷ 97 ∷ 209 ∷ 224 ∷ 166 ∷ 207 ∷ 45 ∷ 197 ∷ 16 ∷ 140 ∷ 148 ∷ 116 ∷ 71 ∷ [] }; isr = None; leader = negsuc 1; replicas = None; removing = None; adding = None; recovery = negsuc 0 })))
        ≡ (codes "{\"kind\":\"PartitionChange\",\"partitionId\":0,\"topicId\":\"y3IYK2HR4KbPLcUQjJR0Rw\"}") }
    ensures every_change { compact_text (record_data (PartitionChange (record { partition_id = pos 2147483647; topic_id = record { bytes = 203 ∷ 114 ∷ 24 ∷ 43 ∷ 97 ∷ 209 ∷ 224 ∷ 166 ∷ 207 ∷ 45 ∷ 197 ∷ 16 ∷ 140 ∷ 148 ∷ 116 ∷ 71 ∷ [] }; isr = Some []; leader = negsuc 0; replicas = Some ((pos 1) ∷ []); removing = Some ((pos 3) ∷ []); adding = Some ((pos 1) ∷ (pos 2) ∷ []); recovery = pos 0 })))
        ≡ (codes "{\"adding\":[1,2],\"isr\":[],\"kind\":\"PartitionChange\",\"leader\":-1,\"partitionId\":2147483647,\"recovery\":0,\"removing\":[3],\"replicas\":[1],\"topicId\":\"y3IYK2HR4KbPLcUQjJR0Rw\"}") }
    ensures topic { compact_text (record_data (Topic (record { name = codes "t"; topic_id = record { bytes = 203 ∷ 114 ∷ 24 ∷ 43 ∷ 97 ∷ 209 ∷ 224 ∷ 166 ∷ 207 ∷ 45 ∷ 197 ∷ 16 ∷ 140 ∷ 148 ∷ 116 ∷ 71 ∷ [] } })))
        ≡ (codes "{\"kind\":\"Topic\",\"name\":\"t\",\"topicId\":\"y3IYK2HR4KbPLcUQjJR0Rw\"}") }
    ensures removed { compact_text (record_data (RemoveTopic (record { bytes = 203 ∷ 114 ∷ 24 ∷ 43 ∷ 97 ∷ 209 ∷ 224 ∷ 166 ∷ 207 ∷ 45 ∷ 197 ∷ 16 ∷ 140 ∷ 148 ∷ 116 ∷ 71 ∷ [] })))
        ≡ (codes "{\"kind\":\"RemoveTopic\",\"topicId\":\"y3IYK2HR4KbPLcUQjJR0Rw\"}") }
{}

/// Records of brokers, read.
#[tactic(auto, unfolding(crate::proofs::LinesOnLiterals::lines_on_literals))]
pub fn brokers_are_read()
    ensures registered { record_in (codes "{\"brokerEpoch\":-9223372036854775808,\"brokerId\":1,\"endpoints\":[{\"host\":\"h\",\"name\":\"<default>\",\"port\":65535,\"protocol\":-32768},{\"host\":\"\",\"name\":\"\",\"port\":0,\"protocol\":32767}],\"features\":[{\"max\":32767,\"min\":-32768,\"name\":\"f\"}],\"fenced\":true,\"inShutdown\":false,\"incarnation\":\"y3IYK2HR4KbPLcUQjJR0Rw\",\"kind\":\"RegisterBroker\",\"migrating\":true,\"rack\":null}")
        ≡ Some (RegisterBroker (record { broker_id = pos 1; migrating = true; incarnation = record { bytes = 203 ∷ 114 ∷ 24 ∷ 43 ∷ 97 ∷ 209 ∷ 224 ∷ 166 ∷ 207 ∷ 45 ∷ 197 ∷ 16 ∷ 140 ∷ 148 ∷ 116 ∷ 71 ∷ [] }; broker_epoch = negsuc 9223372036854775807; endpoints = (record { name = codes "<default>"; host = codes "h"; port = 65535; protocol = negsuc 32767 }) ∷ (record { name = []; host = []; port = 0; protocol = pos 32767 }) ∷ []; features = (record { name = codes "f"; min = negsuc 32767; max = pos 32767 }) ∷ []; rack = None; fenced = true; in_shutdown = false })) }
    ensures racked { record_in (codes "{\"brokerEpoch\":9223372036854775807,\"brokerId\":-2147483648,\"endpoints\":[],\"features\":[],\"fenced\":false,\"inShutdown\":true,\"incarnation\":\"y3IYK2HR4KbPLcUQjJR0Rw\",\"kind\":\"RegisterBroker\",\"migrating\":false,\"rack\":\"r\"}")
        ≡ Some (RegisterBroker (record { broker_id = negsuc 2147483647; migrating = false; incarnation = record { bytes = 203 ∷ 114 ∷ 24 ∷ 43 ∷ 97 ∷ 209 ∷ 224 ∷ 166 ∷ 207 ∷ 45 ∷ 197 ∷ 16 ∷ 140 ∷ 148 ∷ 116 ∷ 71 ∷ [] }; broker_epoch = pos 9223372036854775807; endpoints = []; features = []; rack = Some (codes "r"); fenced = false; in_shutdown = true })) }
    ensures config { record_in (codes "{\"kind\":\"Config\",\"name\":\"\",\"resourceName\":\"1\",\"resourceType\":-128,\"value\":\"\"}")
        ≡ Some (Config (record { resource_type = negsuc 127; resource_name = codes "1"; name = []; value = Some [] })) }
    ensures ids { record_in (codes "{\"brokerEpoch\":0,\"brokerId\":0,\"kind\":\"ProducerIds\",\"next\":-1}")
        ≡ Some (ProducerIds (record { broker_id = pos 0; broker_epoch = pos 0; next = negsuc 0 })) }
{}

/// And written.
#[tactic(auto, unfolding(crate::proofs::LinesOnLiterals::lines_on_literals))]
pub fn brokers_are_written()
    ensures registered { compact_text (record_data (RegisterBroker (record { broker_id = pos 1; migrating = true; incarnation = record { bytes = 203 ∷ 114 ∷ 24 ∷ 43 ∷ 97 ∷ 209 ∷ 224 ∷ 166 ∷ 207 ∷ 45 ∷ 197 ∷ 16 ∷ 140 ∷ 148 ∷ 116 ∷ 71 ∷ [] }; broker_epoch = negsuc 9223372036854775807; endpoints = (record { name = codes "<default>"; host = codes "h"; port = 65535; protocol = negsuc 32767 }) ∷ (record { name = []; host = []; port = 0; protocol = pos 32767 }) ∷ []; features = (record { name = codes "f"; min = negsuc 32767; max = pos 32767 }) ∷ []; rack = None; fenced = true; in_shutdown = false })))
        ≡ (codes "{\"brokerEpoch\":-9223372036854775808,\"brokerId\":1,\"endpoints\":[{\"host\":\"h\",\"name\":\"<default>\",\"port\":65535,\"protocol\":-32768},{\"host\":\"\",\"name\":\"\",\"port\":0,\"protocol\":32767}],\"features\":[{\"max\":32767,\"min\":-32768,\"name\":\"f\"}],\"fenced\":true,\"inShutdown\":false,\"incarnation\":\"y3IYK2HR4KbPLcUQjJR0Rw\",\"kind\":\"RegisterBroker\",\"migrating\":true,\"rack\":null}") }
    ensures racked { compact_text (record_data (RegisterBroker (record { broker_id = negsuc 2147483647; migrating = false; incarnation = record { bytes = 203 ∷ 114 ∷ 24 ∷ 43 ∷ 97 ∷ 209 ∷ 224 ∷ 166 ∷ 207 ∷ 45 ∷ 197 ∷ 16 ∷ 140 ∷ 148 ∷ 116 ∷ 71 ∷ [] }; broker_epoch = pos 9223372036854775807; endpoints = []; features = []; rack = Some (codes "r"); fenced = false; in_shutdown = true })))
        ≡ (codes "{\"brokerEpoch\":9223372036854775807,\"brokerId\":-2147483648,\"endpoints\":[],\"features\":[],\"fenced\":false,\"inShutdown\":true,\"incarnation\":\"y3IYK2HR4KbPLcUQjJR0Rw\",\"kind\":\"RegisterBroker\",\"migrating\":false,\"rack\":\"r\"}") }
    ensures config { compact_text (record_data (Config (record { resource_type = negsuc 127; resource_name = codes "1"; name = []; value = Some [] })))
        ≡ (codes "{\"kind\":\"Config\",\"name\":\"\",\"resourceName\":\"1\",\"resourceType\":-128,\"value\":\"\"}") }
    ensures ids { compact_text (record_data (ProducerIds (record { broker_id = pos 0; broker_epoch = pos 0; next = negsuc 0 })))
        ≡ (codes "{\"brokerEpoch\":0,\"brokerId\":0,\"kind\":\"ProducerIds\",\"next\":-1}") }
{}

/// Records of users and clients, read.
#[tactic(auto, unfolding(crate::proofs::LinesOnLiterals::lines_on_literals))]
pub fn clients_are_read()
    ensures quota { record_in (codes "{\"entity\":[{\"kind\":\"ip\",\"name\":\"1.2.3.4\"}],\"key\":\"\",\"kind\":\"ClientQuota\",\"remove\":true,\"value\":\"9223372036854775807.000001\"}")
        ≡ Some (ClientQuota (record { entity = (record { kind = codes "ip"; name = Some (codes "1.2.3.4") }) ∷ []; key = []; value = record { whole = pos 9223372036854775807; micros = pos 1 }; remove = true })) }
    ensures pair { record_in (codes "{\"entity\":[{\"kind\":\"user\",\"name\":null},{\"kind\":\"client-id\",\"name\":\"c\"}],\"key\":\"k\",\"kind\":\"ClientQuota\",\"remove\":false,\"value\":\"0\"}")
        ≡ Some (ClientQuota (record { entity = (record { kind = codes "user"; name = None }) ∷ (record { kind = codes "client-id"; name = Some (codes "c") }) ∷ []; key = codes "k"; value = record { whole = pos 0; micros = pos 0 }; remove = false })) }
    ensures parts { record_in (codes "{\"entity\":[],\"key\":\"k\",\"kind\":\"ClientQuota\",\"micros\":2147483647,\"remove\":false,\"whole\":0}")
        ≡ Some (ClientQuota (record { entity = []; key = codes "k"; value = record { whole = pos 0; micros = pos 2147483647 }; remove = false })) }
    ensures negative { record_in (codes "{\"entity\":[{\"kind\":\"other\",\"name\":\"\"},{\"kind\":\"user\",\"name\":\"u\"}],\"key\":\"k\",\"kind\":\"ClientQuota\",\"micros\":0,\"remove\":false,\"whole\":-1}")
        ≡ Some (ClientQuota (record { entity = (record { kind = codes "other"; name = Some [] }) ∷ (record { kind = codes "user"; name = Some (codes "u") }) ∷ []; key = codes "k"; value = record { whole = negsuc 0; micros = pos 0 }; remove = false })) }
    ensures credential { record_in (codes "{\"iterations\":-2147483648,\"kind\":\"UserScramCredential\",\"mechanism\":1,\"name\":\"u\",\"salt\":\"zA==\",\"serverKey\":\"\",\"storedKey\":\"/wA=\"}")
        ≡ Some (UserScramCredential (record { name = codes "u"; mechanism = pos 1; salt = 204 ∷ []; stored_key = 255 ∷ 0 ∷ []; server_key = []; iterations = negsuc 2147483647 })) }
    ensures no_credential { record_in (codes "{\"kind\":\"RemoveUserScramCredential\",\"mechanism\":127,\"name\":\"u\"}")
        ≡ Some (RemoveUserScramCredential (codes "u") (pos 127)) }
    ensures entry { record_in (codes "{\"host\":\"*\",\"id\":\"y3IYK2HR4KbPLcUQjJR0Rw\",\"kind\":\"AccessControlEntry\",\"operation\":3,\"patternType\":-1,\"permission\":0,\"principal\":\"User:a\",\"resourceName\":\"t\",\"resourceType\":127}")
        ≡ Some (AccessControlEntry (record { id = record { bytes = 203 ∷ 114 ∷ 24 ∷ 43 ∷ 97 ∷ 209 ∷ 224 ∷ 166 ∷ 207 ∷ 45 ∷ 197 ∷ 16 ∷ 140 ∷ 148 ∷ 116 ∷ 71 ∷ [] }; resource_type = pos 127; resource_name = codes "t"; pattern_type = negsuc 0; principal = codes "User:a"; host = codes "*"; operation = pos 3; permission = pos 0 })) }
    ensures no_entry { record_in (codes "{\"id\":\"y3IYK2HR4KbPLcUQjJR0Rw\",\"kind\":\"RemoveAccessControlEntry\"}")
        ≡ Some (RemoveAccessControlEntry (record { bytes = 203 ∷ 114 ∷ 24 ∷ 43 ∷ 97 ∷ 209 ∷ 224 ∷ 166 ∷ 207 ∷ 45 ∷ 197 ∷ 16 ∷ 140 ∷ 148 ∷ 116 ∷ 71 ∷ [] })) }
{}

/// And written.
#[tactic(auto, unfolding(crate::proofs::LinesOnLiterals::lines_on_literals))]
pub fn clients_are_written()
    ensures quota { compact_text (record_data (ClientQuota (record { entity = (record { kind = codes "ip"; name = Some (codes "1.2.3.4") }) ∷ []; key = []; value = record { whole = pos 9223372036854775807; micros = pos 1 }; remove = true })))
        ≡ (codes "{\"entity\":[{\"kind\":\"ip\",\"name\":\"1.2.3.4\"}],\"key\":\"\",\"kind\":\"ClientQuota\",\"remove\":true,\"value\":\"9223372036854775807.000001\"}") }
    ensures pair { compact_text (record_data (ClientQuota (record { entity = (record { kind = codes "user"; name = None }) ∷ (record { kind = codes "client-id"; name = Some (codes "c") }) ∷ []; key = codes "k"; value = record { whole = pos 0; micros = pos 0 }; remove = false })))
        ≡ (codes "{\"entity\":[{\"kind\":\"user\",\"name\":null},{\"kind\":\"client-id\",\"name\":\"c\"}],\"key\":\"k\",\"kind\":\"ClientQuota\",\"remove\":false,\"value\":\"0\"}") }
    ensures parts { compact_text (record_data (ClientQuota (record { entity = []; key = codes "k"; value = record { whole = pos 0; micros = pos 2147483647 }; remove = false })))
        ≡ (codes "{\"entity\":[],\"key\":\"k\",\"kind\":\"ClientQuota\",\"micros\":2147483647,\"remove\":false,\"whole\":0}") }
    ensures negative { compact_text (record_data (ClientQuota (record { entity = (record { kind = codes "other"; name = Some [] }) ∷ (record { kind = codes "user"; name = Some (codes "u") }) ∷ []; key = codes "k"; value = record { whole = negsuc 0; micros = pos 0 }; remove = false })))
        ≡ (codes "{\"entity\":[{\"kind\":\"other\",\"name\":\"\"},{\"kind\":\"user\",\"name\":\"u\"}],\"key\":\"k\",\"kind\":\"ClientQuota\",\"micros\":0,\"remove\":false,\"whole\":-1}") }
    ensures credential { compact_text (record_data (UserScramCredential (record { name = codes "u"; mechanism = pos 1; salt = 204 ∷ []; stored_key = 255 ∷ 0 ∷ []; server_key = []; iterations = negsuc 2147483647 })))
        ≡ (codes "{\"iterations\":-2147483648,\"kind\":\"UserScramCredential\",\"mechanism\":1,\"name\":\"u\",\"salt\":\"zA==\",\"serverKey\":\"\",\"storedKey\":\"/wA=\"}") }
    ensures no_credential { compact_text (record_data (RemoveUserScramCredential (codes "u") (pos 127)))
        ≡ (codes "{\"kind\":\"RemoveUserScramCredential\",\"mechanism\":127,\"name\":\"u\"}") }
    ensures entry { compact_text (record_data (AccessControlEntry (record { id = record { bytes = 203 ∷ 114 ∷ 24 ∷ 43 ∷ 97 ∷ 209 ∷ 224 ∷ 166 ∷ 207 ∷ 45 ∷ 197 ∷ 16 ∷ 140 ∷ 148 ∷ 116 ∷ 71 ∷ [] }; resource_type = pos 127; resource_name = codes "t"; pattern_type = negsuc 0; principal = codes "User:a"; host = codes "*"; operation = pos 3; permission = pos 0 })))
        ≡ (codes "{\"host\":\"*\",\"id\":\"y3IYK2HR4KbPLcUQjJR0Rw\",\"kind\":\"AccessControlEntry\",\"operation\":3,\"patternType\":-1,\"permission\":0,\"principal\":\"User:a\",\"resourceName\":\"t\",\"resourceType\":127}") }
    ensures no_entry { compact_text (record_data (RemoveAccessControlEntry (record { bytes = 203 ∷ 114 ∷ 24 ∷ 43 ∷ 97 ∷ 209 ∷ 224 ∷ 166 ∷ 207 ∷ 45 ∷ 197 ∷ 16 ∷ 140 ∷ 148 ∷ 116 ∷ 71 ∷ [] })))
        ≡ (codes "{\"id\":\"y3IYK2HR4KbPLcUQjJR0Rw\",\"kind\":\"RemoveAccessControlEntry\"}") }
{}

/// Records of the log, read.
#[tactic(auto, unfolding(crate::proofs::LinesOnLiterals::lines_on_literals))]
pub fn log_are_read()
    ensures no_op { record_in (codes "{\"kind\":\"NoOp\"}")
        ≡ Some (NoOp) }
    ensures state { record_in (codes "{\"kind\":\"ZkMigrationState\",\"state\":-128}")
        ≡ Some (ZkMigrationState (negsuc 127)) }
    ensures begins { record_in (codes "{\"kind\":\"BeginTransaction\"}")
        ≡ Some (BeginTransaction None) }
    ensures begins_named { record_in (codes "{\"kind\":\"BeginTransaction\",\"name\":\"ZK Migration\"}")
        ≡ Some (BeginTransaction (Some (codes "ZK Migration"))) }
    ensures ends { record_in (codes "{\"kind\":\"EndTransaction\"}")
        ≡ Some (EndTransaction) }
    ensures aborts { record_in (codes "{\"kind\":\"AbortTransaction\"}")
        ≡ Some (AbortTransaction None) }
    ensures aborts_for { record_in (codes "{\"kind\":\"AbortTransaction\",\"reason\":\"\"}")
        ≡ Some (AbortTransaction (Some [])) }
{}

/// And written.
#[tactic(auto, unfolding(crate::proofs::LinesOnLiterals::lines_on_literals))]
pub fn log_are_written()
    ensures no_op { compact_text (record_data (NoOp))
        ≡ (codes "{\"kind\":\"NoOp\"}") }
    ensures state { compact_text (record_data (ZkMigrationState (negsuc 127)))
        ≡ (codes "{\"kind\":\"ZkMigrationState\",\"state\":-128}") }
    ensures begins { compact_text (record_data (BeginTransaction None))
        ≡ (codes "{\"kind\":\"BeginTransaction\"}") }
    ensures begins_named { compact_text (record_data (BeginTransaction (Some (codes "ZK Migration"))))
        ≡ (codes "{\"kind\":\"BeginTransaction\",\"name\":\"ZK Migration\"}") }
    ensures ends { compact_text (record_data (EndTransaction))
        ≡ (codes "{\"kind\":\"EndTransaction\"}") }
    ensures aborts { compact_text (record_data (AbortTransaction None))
        ≡ (codes "{\"kind\":\"AbortTransaction\"}") }
    ensures aborts_for { compact_text (record_data (AbortTransaction (Some [])))
        ≡ (codes "{\"kind\":\"AbortTransaction\",\"reason\":\"\"}") }
{}

/// A tagged field may be stated at its default, and a tagged list or text may be null.
#[tactic(auto, unfolding(crate::proofs::LinesOnLiterals::lines_on_literals))]
pub fn defaults_may_be_stated()
    ensures recovery { record_in (codes "{\"adding\":[],\"isr\":[],\"kind\":\"Partition\",\"leader\":0,\"leaderEpoch\":1,\"partitionEpoch\":-2147483648,\"partitionId\":0,\"recovery\":0,\"removing\":[-1],\"replicas\":[],\"topicId\":\"y3IYK2HR4KbPLcUQjJR0Rw\"}") ≡
        Some (Partition (record { partition_id = pos 0; topic_id = record { bytes = 203 ∷ 114 ∷ 24 ∷ 43 ∷ 97 ∷ 209 ∷ 224 ∷ 166 ∷ 207 ∷ 45 ∷ 197 ∷ 16 ∷ 140 ∷ 148 ∷ 116 ∷ 71 ∷ [] }; replicas = []; isr = []; removing = (negsuc 0) ∷ []; adding = []; leader = pos 0; recovery = pos 0; leader_epoch = pos 1; partition_epoch = negsuc 2147483647 })) }
    ensures change { record_in (codes "{\"adding\":null,\"isr\":null,\"leader\":-2,\"kind\":\"PartitionChange\",\"partitionId\":0,\"recovery\":-1,\"removing\":null,\"replicas\":null,\"topicId\":\"y3IYK2HR4KbPLcUQjJR0Rw\"}") ≡
        Some (PartitionChange (record { partition_id = pos 0; topic_id = record { bytes = 203 ∷ 114 ∷ 24 ∷ 43 ∷ 97 ∷ 209 ∷ 224 ∷ 166 ∷ 207 ∷ 45 ∷ 197 ∷ 16 ∷ 140 ∷ 148 ∷ 116 ∷ 71 ∷ [] }; isr = None; leader = negsuc 1; replicas = None; removing = None; adding = None; recovery = negsuc 0 })) }
    ensures name { record_in (codes "{\"kind\":\"BeginTransaction\",\"name\":null}") ≡ Some (BeginTransaction None) }
    ensures reason { record_in (codes "{\"reason\":null,\"kind\":\"AbortTransaction\"}") ≡ Some (AbortTransaction None) }
{}

/// A user and a client id are one value in either order. A quota is read in any spelling of a quota.
#[tactic(auto, unfolding(crate::proofs::LinesOnLiterals::lines_on_literals))]
pub fn quotas_in_other_spellings()
    ensures turned { record_in (codes "{\"entity\":[{\"kind\":\"client-id\",\"name\":\"c\"},{\"kind\":\"user\",\"name\":null}],\"key\":\"k\",\"kind\":\"ClientQuota\",\"remove\":false,\"value\":\"0\"}") ≡
        Some (ClientQuota (record { entity = (record { kind = codes "user"; name = None }) ∷ (record { kind = codes "client-id"; name = Some (codes "c") }) ∷ []; key = codes "k"; value = record { whole = pos 0; micros = pos 0 }; remove = false })) }
    ensures exponent { record_in (codes "{\"entity\":[{\"kind\":\"user\",\"name\":null},{\"kind\":\"client-id\",\"name\":\"c\"}],\"key\":\"k\",\"kind\":\"ClientQuota\",\"remove\":false,\"value\":\"0.0e7\"}") ≡
        Some (ClientQuota (record { entity = (record { kind = codes "user"; name = None }) ∷ (record { kind = codes "client-id"; name = Some (codes "c") }) ∷ []; key = codes "k"; value = record { whole = pos 0; micros = pos 0 }; remove = false })) }
{}

/// Quotas that are no record: whole parts and millionths that a text has, more members, and fewer.
#[tactic(auto, unfolding(crate::proofs::LinesOnLiterals::lines_on_literals))]
pub fn no_quotas()
    ensures whole { record_in (codes "{\"entity\":[{\"kind\":\"user\",\"name\":null},{\"kind\":\"client-id\",\"name\":\"c\"}],\"key\":\"k\",\"kind\":\"ClientQuota\",\"micros\":999999,\"remove\":false,\"whole\":0}") ≡ None }
    ensures both { record_in (codes "{\"entity\":[{\"kind\":\"user\",\"name\":null},{\"kind\":\"client-id\",\"name\":\"c\"}],\"key\":\"k\",\"kind\":\"ClientQuota\",\"remove\":false,\"value\":\"0\",\"whole\":-1}") ≡ None }
    ensures all { record_in (codes "{\"entity\":[{\"kind\":\"user\",\"name\":null},{\"kind\":\"client-id\",\"name\":\"c\"}],\"key\":\"k\",\"kind\":\"ClientQuota\",\"micros\":0,\"remove\":false,\"value\":\"0\",\"whole\":-1}") ≡ None }
    ensures whole_alone { record_in (codes "{\"entity\":[{\"kind\":\"user\",\"name\":null},{\"kind\":\"client-id\",\"name\":\"c\"}],\"key\":\"k\",\"kind\":\"ClientQuota\",\"remove\":false,\"whole\":-1}") ≡ None }
    ensures neither { record_in (codes "{\"entity\":[{\"kind\":\"user\",\"name\":null},{\"kind\":\"client-id\",\"name\":\"c\"}],\"key\":\"k\",\"kind\":\"ClientQuota\",\"remove\":false}") ≡ None }
    ensures number { record_in (codes "{\"entity\":[{\"kind\":\"user\",\"name\":null},{\"kind\":\"client-id\",\"name\":\"c\"}],\"key\":\"k\",\"kind\":\"ClientQuota\",\"remove\":false,\"value\":0}") ≡ None }
    ensures fine { record_in (codes "{\"entity\":[{\"kind\":\"user\",\"name\":null},{\"kind\":\"client-id\",\"name\":\"c\"}],\"key\":\"k\",\"kind\":\"ClientQuota\",\"remove\":false,\"value\":\"0.0000001\"}") ≡ None }
    ensures entity { record_in (codes "{\"entity\":[{\"kind\":\"user\"}],\"key\":\"k\",\"kind\":\"ClientQuota\",\"remove\":false,\"value\":\"0\"}") ≡ None }
{}

/// Values that are no record: members that are absent, too many, null, or out of range.
#[tactic(auto, unfolding(crate::proofs::LinesOnLiterals::lines_on_literals))]
pub fn no_records()
    ensures no_kind { record_in (codes "{}") ≡ None }
    ensures other { record_in (codes "{\"kind\":\"Nop\"}") ≡ None }
    ensures more { record_in (codes "{\"kind\":\"NoOp\",\"name\":null}") ≡ None }
    ensures null_leader { record_in (codes "{\"kind\":\"PartitionChange\",\"leader\":null,\"partitionId\":0,\"topicId\":\"y3IYK2HR4KbPLcUQjJR0Rw\"}") ≡ None }
    ensures null_recovery { record_in (codes "{\"adding\":[],\"isr\":[],\"kind\":\"Partition\",\"leader\":0,\"leaderEpoch\":1,\"partitionEpoch\":-2147483648,\"partitionId\":0,\"recovery\":null,\"removing\":[-1],\"replicas\":[],\"topicId\":\"y3IYK2HR4KbPLcUQjJR0Rw\"}") ≡ None }
    ensures null_replicas { record_in (codes "{\"adding\":[],\"isr\":[],\"kind\":\"Partition\",\"leader\":0,\"leaderEpoch\":1,\"partitionEpoch\":-2147483648,\"partitionId\":0,\"removing\":[-1],\"replicas\":null,\"topicId\":\"y3IYK2HR4KbPLcUQjJR0Rw\"}") ≡ None }
    ensures no_rack { record_in (codes "{\"brokerEpoch\":9223372036854775807,\"brokerId\":-2147483648,\"endpoints\":[],\"features\":[],\"fenced\":false,\"inShutdown\":true,\"incarnation\":\"y3IYK2HR4KbPLcUQjJR0Rw\",\"kind\":\"RegisterBroker\",\"migrating\":false}") ≡ None }
    ensures number { record_in (codes "{\"brokerEpoch\":9223372036854775807,\"brokerId\":-2147483648,\"endpoints\":[],\"features\":[],\"fenced\":false,\"inShutdown\":true,\"incarnation\":\"y3IYK2HR4KbPLcUQjJR0Rw\",\"kind\":\"RegisterBroker\",\"migrating\":1,\"rack\":\"r\"}") ≡ None }
    ensures port { record_in (codes "{\"brokerEpoch\":-9223372036854775808,\"brokerId\":1,\"endpoints\":[{\"host\":\"h\",\"name\":\"<default>\",\"port\":65536,\"protocol\":-32768},{\"host\":\"\",\"name\":\"\",\"port\":0,\"protocol\":32767}],\"features\":[{\"max\":32767,\"min\":-32768,\"name\":\"f\"}],\"fenced\":true,\"inShutdown\":false,\"incarnation\":\"y3IYK2HR4KbPLcUQjJR0Rw\",\"kind\":\"RegisterBroker\",\"migrating\":true,\"rack\":null}") ≡ None }
    ensures signed_port { record_in (codes "{\"brokerEpoch\":-9223372036854775808,\"brokerId\":1,\"endpoints\":[{\"host\":\"h\",\"name\":\"<default>\",\"port\":-1,\"protocol\":-32768},{\"host\":\"\",\"name\":\"\",\"port\":0,\"protocol\":32767}],\"features\":[{\"max\":32767,\"min\":-32768,\"name\":\"f\"}],\"fenced\":true,\"inShutdown\":false,\"incarnation\":\"y3IYK2HR4KbPLcUQjJR0Rw\",\"kind\":\"RegisterBroker\",\"migrating\":true,\"rack\":null}") ≡ None }
    ensures protocol { record_in (codes "{\"brokerEpoch\":-9223372036854775808,\"brokerId\":1,\"endpoints\":[{\"host\":\"h\",\"name\":\"<default>\",\"port\":65535,\"protocol\":32768},{\"host\":\"\",\"name\":\"\",\"port\":0,\"protocol\":32767}],\"features\":[{\"max\":32767,\"min\":-32768,\"name\":\"f\"}],\"fenced\":true,\"inShutdown\":false,\"incarnation\":\"y3IYK2HR4KbPLcUQjJR0Rw\",\"kind\":\"RegisterBroker\",\"migrating\":true,\"rack\":null}") ≡ None }
    ensures endpoint { record_in (codes "{\"brokerEpoch\":-9223372036854775808,\"brokerId\":1,\"endpoints\":[{\"host\":\"h\",\"more\":0,\"name\":\"<default>\",\"port\":65535,\"protocol\":-32768},{\"host\":\"\",\"name\":\"\",\"port\":0,\"protocol\":32767}],\"features\":[{\"max\":32767,\"min\":-32768,\"name\":\"f\"}],\"fenced\":true,\"inShutdown\":false,\"incarnation\":\"y3IYK2HR4KbPLcUQjJR0Rw\",\"kind\":\"RegisterBroker\",\"migrating\":true,\"rack\":null}") ≡ None }
    ensures broker { record_in (codes "{\"brokerEpoch\":9223372036854775807,\"brokerId\":2147483648,\"endpoints\":[],\"features\":[],\"fenced\":false,\"inShutdown\":true,\"incarnation\":\"y3IYK2HR4KbPLcUQjJR0Rw\",\"kind\":\"RegisterBroker\",\"migrating\":false,\"rack\":\"r\"}") ≡ None }
    ensures epoch { record_in (codes "{\"brokerEpoch\":9223372036854775808,\"brokerId\":-2147483648,\"endpoints\":[],\"features\":[],\"fenced\":false,\"inShutdown\":true,\"incarnation\":\"y3IYK2HR4KbPLcUQjJR0Rw\",\"kind\":\"RegisterBroker\",\"migrating\":false,\"rack\":\"r\"}") ≡ None }
    ensures state { record_in (codes "{\"kind\":\"ZkMigrationState\",\"state\":128}") ≡ None }
    ensures padded { record_in (codes "{\"kind\":\"Topic\",\"name\":\"t\",\"topicId\":\"y3IYK2HR4KbPLcUQjJR0Rw==\"}") ≡ None }
    ensures unused_bits { record_in (codes "{\"kind\":\"Topic\",\"name\":\"t\",\"topicId\":\"y3IYK2HR4KbPLcUQjJR0Rx\"}") ≡ None }
    ensures unpadded { record_in (codes "{\"iterations\":-2147483648,\"kind\":\"UserScramCredential\",\"mechanism\":1,\"name\":\"u\",\"salt\":\"zA\",\"serverKey\":\"\",\"storedKey\":\"/wA=\"}") ≡ None }
{}
