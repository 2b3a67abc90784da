//! The records of znodes.
ghost use Rattle.kz_types.specs.Order.{bytes_cmp};
ghost use Rattle.kz_types.specs.Ordered.{Rises};
ghost use Rattle.kz_spec_data.specs.Tree.{path_of_row};

use crate::cluster::ZNODES;
use crate::made::{body_of, long_body, made, path_of, put};
use kz_reader::{ReadFault, translate};
use kz_script::{write_answer, write_event};
use kz_session::MemoryTree;
use kz_tree::ZTree;
use kz_types::{Answer, Event, MetaRecord, Op, Reply, Row, Sequence, ZPath};
use std::alloc::Global;
use std::process::Abort;

// Creates a znode.
fn create(rt: &impl Abort, alloc: Global, tree: &mut MemoryTree, path: &[u8], body: &str) {
    let mut ops = Sequence::new(alloc);
    let create = Op::Create {
        path: made(rt, ZPath::new(alloc, path)),
        body: body_of(rt, alloc, body),
        owner: None,
    };
    put(rt, &mut ops, create);
    made(rt, tree.multi(ops.as_slice()));
}

// Creates a znode, and before it those above it that aren't there.
fn create_below(rt: &impl Abort, alloc: Global, tree: &mut MemoryTree, path: &[u8], body: &str) {
    for end in 1..path.len() {
        if path[end] == b'/' && tree.tree().row(&path[..end]).is_none() {
            create(rt, alloc, tree, &path[..end], "");
        }
    }
    create(rt, alloc, tree, path, body);
}

/// A tree with these znodes, and those above them.
pub fn tree_of(rt: &impl Abort, alloc: Global, znodes: &[(&str, &str)]) -> MemoryTree {
    let mut tree = MemoryTree::new(alloc);
    for (path, body) in znodes {
        create_below(rt, alloc, &mut tree, path.as_bytes(), body);
    }
    tree
}

// The migrated area of a tree with these znodes.
fn area_of(rt: &impl Abort, alloc: Global, znodes: &[(&str, &str)]) -> Vec<Row>
    ensures { Rises bytes_cmp path_of_row result.items }
{
    let tree = tree_of(rt, alloc, znodes);
    let rows = tree.tree().migrated_rows();
    drop(tree);
    match rows {
        Ok(rows) => rows,
        Err(_) => panic!(rt; "no memory"),
    }
}

// Records as the line of a change writes them.
fn written(rt: &impl Abort, alloc: Global, records: Vec<MetaRecord>) -> Vec<u8> {
    let change = Event::Change {
        controller: 0,
        records: Sequence::from_vec(records),
        now: 0,
    };
    made(rt, write_event(alloc, &change))
}

// What is told of znodes that can't be translated, as a reply line writes it.
fn told(rt: &impl Abort, alloc: Global, fault: ReadFault) -> Vec<u8> {
    let reply = match fault {
        ReadFault::Untranslatable { path, why } => Reply::Untranslatable { path, why },
        ReadFault::NoMemory => panic!(rt; "no memory"),
    };
    let mut replies = Sequence::new(alloc);
    put(rt, &mut replies, reply);
    made(rt, write_answer(alloc, 1, &Answer::Turn(replies)))
}

// The records of znodes, or why they can't be translated, as a text.
fn translated(rt: &impl Abort, alloc: Global, rows: &[Row]) -> Vec<u8>
    requires { Rises bytes_cmp path_of_row rows.now }
{
    match translate(alloc, rows) {
        Ok(records) => written(rt, alloc, records),
        Err(fault) => told(rt, alloc, fault),
    }
}

const CLUSTER: &str = "{\"controller\":0,\"event\":\"change\",\"records\":[\
{\"kind\":\"Topic\",\"name\":\"orders\",\"topicId\":\"AAECAwQFBgcICQoLDA0ODw\"},\
{\"adding\":[],\"isr\":[1,2],\"kind\":\"Partition\",\"leader\":1,\"leaderEpoch\":4,\"partitionEpoch\":0,\"partitionId\":0,\"removing\":[],\"replicas\":[1,2],\"topicId\":\"AAECAwQFBgcICQoLDA0ODw\"},\
{\"adding\":[],\"isr\":[2,3],\"kind\":\"Partition\",\"leader\":2,\"leaderEpoch\":0,\"partitionEpoch\":0,\"partitionId\":1,\"removing\":[],\"replicas\":[2,3],\"topicId\":\"AAECAwQFBgcICQoLDA0ODw\"},\
{\"adding\":[],\"isr\":[3,1],\"kind\":\"Partition\",\"leader\":3,\"leaderEpoch\":0,\"partitionEpoch\":0,\"partitionId\":2,\"removing\":[],\"replicas\":[3,1],\"topicId\":\"AAECAwQFBgcICQoLDA0ODw\"},\
{\"kind\":\"Config\",\"name\":\"retention.ms\",\"resourceName\":\"orders\",\"resourceType\":2,\"value\":\"86400000\"},\
{\"iterations\":4096,\"kind\":\"UserScramCredential\",\"mechanism\":1,\"name\":\"alice\",\"salt\":\"c2FsdA==\",\"serverKey\":\"c2Vy\",\"storedKey\":\"a2V5\"},\
{\"entity\":[{\"kind\":\"user\",\"name\":\"alice\"}],\"key\":\"producer_byte_rate\",\"kind\":\"ClientQuota\",\"remove\":false,\"value\":\"1024\"},\
{\"host\":\"*\",\"id\":\"S1JBRlRNSUcAAAAAAAAAAA\",\"kind\":\"AccessControlEntry\",\"operation\":3,\"patternType\":3,\"permission\":3,\"principal\":\"User:alice\",\"resourceName\":\"orders\",\"resourceType\":2},\
{\"host\":\"*\",\"id\":\"S1JBRlRNSUcAAAAAAAAAAQ\",\"kind\":\"AccessControlEntry\",\"operation\":4,\"patternType\":3,\"permission\":3,\"principal\":\"User:alice\",\"resourceName\":\"orders\",\"resourceType\":2}\
]}";

#[test]
fn a_cluster_is_translated(rt: HostRuntime) {
    let alloc = rt.alloc();
    let rows = area_of(&rt, alloc, &ZNODES);
    assert!(rt; translated(&rt, alloc, &rows).as_slice() == CLUSTER.as_bytes());
    drop(rows);
}

// A topic without partitions, of the id whose bytes are 1.
const TOPIC: &str = "{\"version\":3,\"partitions\":{},\"topic_id\":\"AQEBAQEBAQEBAQEBAQEBAQ\"}";

// Znodes, and the records that stand for them or what is told of the first that can't be translated.
static TRANSLATED: [(&[(&str, &str)], &str); 16] = [
    // names of brokers
    (
        &[
            (
                "/config/brokers/1",
                "{\"version\":1,\"config\":{\"b\":\"2\",\"a\":\"\"},\"note\":1}",
            ),
            ("/config/brokers/10", ""),
            (
                "/config/brokers/<default>",
                "{\"version\":1,\"config\":{\"c\":\"\\u00fc\"}}",
            ),
        ],
        "{\"controller\":0,\"event\":\"change\",\"records\":[{\"kind\":\"Config\",\"name\":\"a\",\"resourceName\":\"1\",\"resourceType\":4,\"value\":\"\"},{\"kind\":\"Config\",\"name\":\"b\",\"resourceName\":\"1\",\"resourceType\":4,\"value\":\"2\"},{\"kind\":\"Config\",\"name\":\"c\",\"resourceName\":\"\",\"resourceType\":4,\"value\":\"\u{fc}\"}]}",
    ),
    // a user's client, and the block of producer ids
    (
        &[
            (
                "/config/users/<default>/clients/a%2Fb",
                "{\"version\":1,\"config\":{\"request_percentage\":\"0.5\"}}",
            ),
            (
                "/latest_producer_id_block",
                "{\"version\":1,\"broker\":3,\"block_start\":\"0\",\"block_end\":\"999\"}",
            ),
        ],
        "{\"controller\":0,\"event\":\"change\",\"records\":[{\"entity\":[{\"kind\":\"user\",\"name\":null},{\"kind\":\"client-id\",\"name\":\"a/b\"}],\"key\":\"request_percentage\",\"kind\":\"ClientQuota\",\"remove\":false,\"value\":\"0.5\"},{\"brokerEpoch\":-1,\"brokerId\":-1,\"kind\":\"ProducerIds\",\"next\":1000}]}",
    ),
    // partitions by number, one without a state
    (
        &[
            (
                "/brokers/topics/t",
                "{\"version\":1,\"partitions\":{\"10\":[3],\"2\":[2,1]},\"topic_id\":\"AQEBAQEBAQEBAQEBAQEBAQ\"}",
            ),
            (
                "/brokers/topics/t/partitions/2/state",
                "{\"version\":1,\"leader\":-2,\"leader_epoch\":7,\"controller_epoch\":0,\"isr\":[1],\"leader_recovery_state\":1}",
            ),
        ],
        "{\"controller\":0,\"event\":\"change\",\"records\":[{\"kind\":\"Topic\",\"name\":\"t\",\"topicId\":\"AQEBAQEBAQEBAQEBAQEBAQ\"},{\"adding\":[],\"isr\":[1],\"kind\":\"Partition\",\"leader\":-1,\"leaderEpoch\":7,\"partitionEpoch\":0,\"partitionId\":2,\"recovery\":1,\"removing\":[],\"replicas\":[2,1],\"topicId\":\"AQEBAQEBAQEBAQEBAQEBAQ\"},{\"adding\":[],\"isr\":[3],\"kind\":\"Partition\",\"leader\":3,\"leaderEpoch\":0,\"partitionEpoch\":0,\"partitionId\":10,\"removing\":[],\"replicas\":[3],\"topicId\":\"AQEBAQEBAQEBAQEBAQEBAQ\"}]}",
    ),
    // what is left over isn't read
    (
        &[
            ("/brokers/topics/t", TOPIC),
            ("/brokers/topics/t/partitions/0/state", "x"),
            ("/config/topics/u", "x"),
        ],
        "{\"controller\":0,\"event\":\"change\",\"records\":[{\"kind\":\"Topic\",\"name\":\"t\",\"topicId\":\"AQEBAQEBAQEBAQEBAQEBAQ\"}]}",
    ),
    (
        &[("/config/brokers/00", ""), ("/config/brokers/1", "{")],
        "1 untranslatable \"/config/brokers/00\" stray\n",
    ),
    (
        &[("/config/brokers/2147483648", "")],
        "1 untranslatable \"/config/brokers/2147483648\" stray\n",
    ),
    (
        &[("/kafka-acl/Topic/a/b", "")],
        "1 untranslatable \"/kafka-acl/Topic/a/b\" stray\n",
    ),
    (
        &[("/config/brokers/1", "{"), ("/config/brokers/x", "")],
        "1 untranslatable \"/config/brokers/1\" not-json\n",
    ),
    (
        &[("/config/brokers/1", "{\"version\":1}")],
        "1 untranslatable \"/config/brokers/1\" missing \"config\"\n",
    ),
    (
        &[(
            "/config/clients/c",
            "{\"version\":1,\"config\":{\"x\":\"1\"}}",
        )],
        "1 untranslatable \"/config/clients/c\" unknown-key \"x\"\n",
    ),
    (
        &[(
            "/config/brokers/1",
            "{\"version\":1,\"config\":{\"\":\"x\"}}",
        )],
        "1 untranslatable \"/config/brokers/1\" unknown-key \"\"\n",
    ),
    (
        &[("/brokers/topics/a", TOPIC), ("/brokers/topics/b", TOPIC)],
        "1 untranslatable \"/brokers/topics/b\" same-id\n",
    ),
    (
        &[(
            "/brokers/topics/t",
            "{\"version\":2,\"partitions\":{\"0\":[1]},\"adding_replicas\":{},\"removing_replicas\":{}}",
        )],
        "1 untranslatable \"/brokers/topics/t\" no-topic-id\n",
    ),
    // brokers in sync and a leader that are no replicas
    (
        &[
            (
                "/brokers/topics/t",
                "{\"version\":3,\"partitions\":{\"0\":[1]},\"topic_id\":\"AQEBAQEBAQEBAQEBAQEBAQ\"}",
            ),
            (
                "/brokers/topics/t/partitions/0/state",
                "{\"version\":1,\"leader\":2,\"leader_epoch\":0,\"controller_epoch\":0,\"isr\":[2]}",
            ),
        ],
        "1 untranslatable \"/brokers/topics/t/partitions/0/state\" bad-field \"isr\"\n",
    ),
    (
        &[
            (
                "/brokers/topics/t",
                "{\"version\":3,\"partitions\":{\"0\":[1]},\"topic_id\":\"AQEBAQEBAQEBAQEBAQEBAQ\"}",
            ),
            (
                "/brokers/topics/t/partitions/0/state",
                "{\"version\":1,\"leader\":2,\"leader_epoch\":0,\"controller_epoch\":0,\"isr\":[1]}",
            ),
        ],
        "1 untranslatable \"/brokers/topics/t/partitions/0/state\" bad-field \"leader\"\n",
    ),
    (
        &[(
            "/latest_producer_id_block",
            "{\"version\":1,\"broker\":3,\"block_start\":\"0\",\"block_end\":\"9223372036854774808\"}",
        )],
        "1 untranslatable \"/latest_producer_id_block\" bad-field \"block_end\"\n",
    ),
];

#[test]
fn znodes_are_translated_or_the_first_fault_is_told(rt: HostRuntime) {
    let alloc = rt.alloc();
    for (znodes, text) in &TRANSLATED {
        let rows = area_of(&rt, alloc, znodes);
        assert!(rt; translated(&rt, alloc, &rows).as_slice() == text.as_bytes());
        drop(rows);
    }
}

// A configuration of one member, whose written text is 31 bytes longer than the value.
fn long_config(rt: &impl Abort, alloc: Global, length: usize) -> Sequence<u8> {
    let mut body = body_of(rt, alloc, "{\"config\":{\"a\":\"").into_vec();
    let mut value = long_body(rt, alloc, length).into_vec();
    made(rt, body.append(&mut value));
    let mut end = body_of(rt, alloc, "\"},\"version\":1}").into_vec();
    made(rt, body.append(&mut end));
    Sequence::from_vec(body)
}

// Whether a configuration of a value of this length is one body too long.
fn is_over(rt: &impl Abort, alloc: Global, length: usize) -> bool {
    let row = Row {
        path: path_of(rt, alloc, "/config/brokers/1"),
        body: long_config(rt, alloc, length),
        version: 0,
        owner: None,
        czxid: 1,
        mzxid: 1,
        pzxid: 1,
    };
    let over = "1 untranslatable \"/config/brokers/1\" over 2\n";
    translated(rt, alloc, &[row]).as_slice() == over.as_bytes()
}

#[test]
fn a_body_has_at_most_1048575_bytes(rt: HostRuntime) {
    let alloc = rt.alloc();
    assert!(rt; !is_over(&rt, alloc, 1_048_544));
    assert!(rt; is_over(&rt, alloc, 1_048_545));
}
