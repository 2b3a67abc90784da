use kz_script::{
    LineFault, read_event, read_item, status_code, status_text, summary, write_answer, write_event,
    write_item,
};
use kz_types::{
    AheadPath, Answer, BodyFault, DriverState, ReadWhy, Reply, Sequence, Status, Text, TreeFault,
    Verdict, ZPath,
};
use serde_json::Value;
use std::alloc::{AllocError, Global};
use std::process::Abort;

// What a call gave, which must not have failed.
fn made<T: Drop, E: Drop>(rt: &impl Abort, outcome: Result<T, E>) -> T {
    match outcome {
        Ok(value) => value,
        Err(_) => panic!(rt; "a call failed"),
    }
}

fn put<T: Drop>(rt: &impl Abort, items: &mut Sequence<T>, item: T) {
    made(rt, items.push(item));
}

fn text_of(rt: &impl Abort, alloc: Global, text: &str) -> Text {
    made(rt, Text::from_str(alloc, text))
}

fn path_of(rt: &impl Abort, alloc: Global, text: &str) -> ZPath {
    made(rt, ZPath::new(alloc, text.as_bytes()))
}

// Whether a line is read as the event that is written so; or as none, where that is `bad`.
fn is_read_as(rt: &impl Abort, alloc: Global, line: &[u8], wanted: &str) -> bool {
    match read_event(alloc, line) {
        Ok(event) => {
            let text = made(rt, write_event(alloc, &event));
            drop(event);
            text.as_slice() == wanted.as_bytes()
        }
        Err(LineFault::BadLine) => wanted == "bad",
        Err(LineFault::NoMemory) => panic!(rt; "no memory"),
    }
}

static LINES: [(&[u8], &str); 27] = [
    (
        b"{\"event\":\"quorum\",\"ids\":[3000]}",
        r#"{"event":"quorum","ids":[3000]}"#,
    ),
    (
        b"{\"event\":\"quorum\",\"ids\":[3001,0,2147483647]}",
        r#"{"event":"quorum","ids":[3001,0,2147483647]}"#,
    ),
    (
        b"{\"event\":\"quorum\",\"ids\":[]}",
        r#"{"event":"quorum","ids":[]}"#,
    ),
    (
        b"{\"event\":\"stop\",\"controller\":3000}",
        r#"{"controller":3000,"event":"stop"}"#,
    ),
    (b"{\"event\":\"stop\"}", r#"{"event":"stop"}"#),
    (
        b"{\"event\":\"step\",\"controller\":3000,\"plan\":\"deliver\"}",
        r#"{"controller":3000,"event":"step"}"#,
    ),
    (
        b"{\"event\":\"step\",\"controller\":3000,\"plan\":\"lost-before\",\"now\":0}",
        r#"{"controller":3000,"event":"step","plan":"lost-before"}"#,
    ),
    (
        b"{\"plan\":\"lost-after\",\"event\":\"step\",\"now\":1,\"controller\":0}",
        r#"{"controller":0,"event":"step","now":1,"plan":"lost-after"}"#,
    ),
    (
        b"{\"event\":\"step\",\"controller\":1,\"plan\":\"lost-before\",\"plan\":\"expired\"}",
        r#"{"controller":1,"event":"step","plan":"expired"}"#,
    ),
    (
        b"{\"event\":\"start\",\"controller\":3000}",
        r#"{"controller":3000,"event":"start"}"#,
    ),
    (
        b"{\"event\":\"elect\",\"controller\":3000,\"now\":0}",
        r#"{"controller":3000,"event":"elect"}"#,
    ),
    (
        b"{\"event\":\"elect\",\"controller\":2147483647,\"now\":9223372036854775807}",
        r#"{"controller":2147483647,"event":"elect","now":9223372036854775807}"#,
    ),
    (
        b"{\"event\":\"turn\",\"controller\":3000}",
        r#"{"controller":3000,"event":"turn"}"#,
    ),
    (
        b"{\"\\u0065vent\":\"turn\",\"now\":1,\"controller\":0}",
        r#"{"controller":0,"event":"turn","now":1}"#,
    ),
    (b"{\"event\":\"check\"}", r#"{"event":"check"}"#),
    (
        b"{\"event\":[[]],\"event\":\"check\"}",
        r#"{"event":"check"}"#,
    ),
    (
        b" {\"controller\" : 1, \"controller\" : 2, \"event\" : \"start\"}\r",
        r#"{"controller":2,"event":"start"}"#,
    ),
    (
        b"{\"event\":\"change\",\"controller\":3000,\"records\":[{\"kind\":\"Config\",\"resourceType\":4,\"resourceName\":\"2147483647\",\"name\":\"a\",\"value\":\"1\"}]}",
        r#"{"controller":3000,"event":"change","records":[{"kind":"Config","name":"a","resourceName":"2147483647","resourceType":4,"value":"1"}]}"#,
    ),
    (
        b"{\"event\":\"change\",\"controller\":0,\"now\":3,\"records\":[{\"kind\":\"Config\",\"resourceType\":4,\"resourceName\":\"\",\"name\":\"\\u00e4\",\"value\":null}]}",
        "{\"controller\":0,\"event\":\"change\",\"now\":3,\"records\":[{\"kind\":\"Config\",\"name\":\"\u{e4}\",\"resourceName\":\"\",\"resourceType\":4,\"value\":null}]}",
    ),
    (
        b"{\"event\":\"change\",\"controller\":1,\"records\":[{\"kind\":\"Config\",\"resourceType\":4,\"resourceName\":\"01\",\"name\":\"\",\"value\":\"1\"},{\"kind\":\"Config\",\"resourceType\":4,\"resourceName\":\"x\",\"name\":\"a\",\"value\":null}]}",
        r#"{"controller":1,"event":"change","records":[{"kind":"Config","name":"","resourceName":"01","resourceType":4,"value":"1"},{"kind":"Config","name":"a","resourceName":"x","resourceType":4,"value":null}]}"#,
    ),
    (
        b"{\"event\":\"register\",\"controller\":3000,\"broker\":1,\"migrating\":true}",
        r#"{"broker":1,"controller":3000,"event":"register","migrating":true}"#,
    ),
    (
        b"{\"event\":\"register\",\"controller\":0,\"broker\":2147483647,\"migrating\":false,\"now\":5}",
        r#"{"broker":2147483647,"controller":0,"event":"register","migrating":false,"now":5}"#,
    ),
    (
        b"{\"event\":\"zk-open\",\"session\":1}",
        r#"{"event":"zk-open","session":1}"#,
    ),
    (
        b"{\"session\":9223372036854775807,\"event\":\"zk-expire\"}",
        r#"{"event":"zk-expire","session":9223372036854775807}"#,
    ),
    (
        b"{\"event\":\"zk\",\"ops\":[{\"op\":\"create\",\"path\":\"/a\",\"owner\":7},{\"op\":\"create\",\"path\":\"/a/b\",\"text\":\"c\"},{\"op\":\"set\",\"path\":\"/a\",\"version\":-1},{\"op\":\"set\",\"path\":\"/a/b\",\"bytes\":\"/wA=\",\"version\":2147483647}]}",
        r#"{"event":"zk","ops":[{"op":"create","owner":7,"path":"/a"},{"op":"create","path":"/a/b","text":"c"},{"op":"set","path":"/a","version":-1},{"bytes":"/wA=","op":"set","path":"/a/b","version":2147483647}]}"#,
    ),
    (
        b"{\"event\":\"zk\",\"ops\":[{\"op\":\"delete\",\"path\":\"/controller\",\"version\":0},{\"op\":\"check\",\"path\":\"/migration\",\"version\":1},{\"op\":\"set\",\"path\":\"/a\",\"bytes\":\"Yg==\",\"version\":0}]}",
        r#"{"event":"zk","ops":[{"op":"delete","path":"/controller","version":0},{"op":"check","path":"/migration","version":1},{"op":"set","path":"/a","text":"b","version":0}]}"#,
    ),
    (
        b"{\"event\":\"zk\",\"ops\":[{\"op\":\"create\",\"path\":\"/config/brokers/<default>\",\"text\":\"\"},{\"op\":\"create\",\"path\":\"/config/brokers/0\"},{\"op\":\"create\",\"path\":\"/kafka-acl/Group\"},{\"op\":\"create\",\"path\":\"/latest_producer_id_block\",\"bytes\":\"\"},{\"op\":\"create\",\"path\":\"/config/topics/t\",\"text\":\"{}\"}]}",
        r#"{"event":"zk","ops":[{"op":"create","path":"/config/brokers/<default>"},{"op":"create","path":"/config/brokers/0"},{"op":"create","path":"/kafka-acl/Group"},{"op":"create","path":"/latest_producer_id_block"},{"op":"create","path":"/config/topics/t","text":"{}"}]}"#,
    ),
];

#[test]
fn lines_are_read_as_their_events(rt: HostRuntime) {
    for (line, event) in &LINES {
        assert!(rt; is_read_as(&rt, rt.alloc(), line, event));
    }
}

static BAD_LINES: [&[u8]; 58] = [
    b"",
    b"# a comment",
    b" ",
    b"null",
    b"[]",
    b"{}",
    b"\"check\"",
    b"{\"event\":\"check\"}x",
    b"\xef\xbb\xbf{\"event\":\"check\"}",
    b"{\"event\":\"check\xff\"}",
    b"{\"event\":\"Check\"}",
    b"{\"event\":null}",
    b"{\"event\":\"check\",\"now\":0}",
    b"{\"event\":\"start\"}",
    b"{\"event\":\"start\",\"controller\":1,\"now\":0}",
    b"{\"event\":\"start\",\"controller\":1.0}",
    b"{\"event\":\"start\",\"controller\":1e0}",
    b"{\"event\":\"start\",\"controller\":-0}",
    b"{\"event\":\"start\",\"controller\":-1}",
    b"{\"event\":\"start\",\"controller\":\"1\"}",
    b"{\"event\":\"start\",\"controller\":2147483648}",
    b"{\"event\":\"elect\",\"controller\":1,\"now\":null}",
    b"{\"event\":\"elect\",\"controller\":1,\"now\":9223372036854775808}",
    b"{\"event\":\"turn\",\"controller\":1,\"plan\":\"deliver\"}",
    b"{\"event\":\"stop\",\"controller\":null}",
    b"{\"event\":\"stop\",\"controller\":-1}",
    b"{\"event\":\"stop\",\"now\":0}",
    b"{\"event\":\"stop\",\"controller\":1,\"now\":0}",
    b"{\"event\":\"step\"}",
    b"{\"event\":\"step\",\"plan\":\"deliver\"}",
    b"{\"event\":\"step\",\"controller\":1,\"plan\":null}",
    b"{\"event\":\"step\",\"controller\":1,\"plan\":\"lost\"}",
    b"{\"event\":\"step\",\"controller\":1,\"plan\":\"Deliver\"}",
    b"{\"event\":\"step\",\"controller\":1,\"now\":0,\"plan\":\"deliver\",\"epoch\":1}",
    b"{\"event\":\"quorum\",\"ids\":[1,2,1]}",
    b"{\"event\":\"quorum\",\"ids\":1}",
    b"{\"event\":\"quorum\",\"ids\":[2147483648]}",
    b"{\"event\":\"change\",\"controller\":1,\"records\":[]}",
    b"{\"event\":\"change\",\"controller\":1,\"records\":{}}",
    b"{\"event\":\"change\",\"controller\":1,\"records\":[{\"kind\":\"Nop\"}]}",
    b"{\"event\":\"change\",\"controller\":1,\"records\":[{\"kind\":\"Config\",\"resourceType\":4,\"resourceName\":\"1\",\"name\":\"a\",\"value\":null},{\"kind\":\"NoOp\",\"name\":null}]}",
    b"{\"event\":\"register\",\"controller\":1,\"broker\":1}",
    b"{\"event\":\"register\",\"controller\":1,\"broker\":1,\"migrating\":1}",
    b"{\"event\":\"register\",\"controller\":1,\"broker\":1,\"migrating\":\"true\"}",
    b"{\"event\":\"register\",\"controller\":1,\"broker\":-1,\"migrating\":true}",
    b"{\"event\":\"register\",\"controller\":1,\"broker\":1,\"migrating\":true,\"epoch\":0}",
    b"{\"event\":\"zk-open\"}",
    b"{\"event\":\"zk-open\",\"session\":0}",
    b"{\"event\":\"zk-open\",\"session\":-1}",
    b"{\"event\":\"zk-open\",\"session\":1.0}",
    b"{\"event\":\"zk-expire\",\"session\":\"1\"}",
    b"{\"event\":\"zk-expire\",\"session\":9223372036854775808}",
    b"{\"event\":\"zk-expire\",\"session\":1,\"now\":0}",
    b"{\"event\":\"zk\"}",
    b"{\"event\":\"zk\",\"ops\":[]}",
    b"{\"event\":\"zk\",\"ops\":{}}",
    b"{\"event\":\"zk\",\"ops\":[1]}",
    b"{\"event\":\"zk\",\"ops\":[{\"op\":\"check\",\"path\":\"/a\",\"version\":0}],\"session\":1}",
];

#[test]
fn other_lines_are_bad(rt: HostRuntime) {
    for line in &BAD_LINES {
        assert!(rt; is_read_as(&rt, rt.alloc(), line, "bad"));
    }
}

static BAD_RECORDS: [&str; 20] = [
    "\"Config\",\"resourceType\":4,\"resourceName\":\"1\",\"name\":\"a\"",
    "\"Config\",\"resourceType\":4,\"resourceName\":\"1\",\"name\":\"a\",\"value\":1",
    "\"Config\",\"resourceType\":4,\"resourceName\":\"1\",\"name\":\"a\",\"value\":\"1\",\"x\":0",
    "\"Config\",\"resourceType\":260,\"resourceName\":\"1\",\"name\":\"a\",\"value\":\"1\"",
    "\"Config\",\"resourceType\":4,\"resourceName\":1,\"name\":\"a\",\"value\":\"1\"",
    "\"config\",\"resourceType\":4,\"resourceName\":\"1\",\"name\":\"a\",\"value\":\"1\"",
    "\"ZkMigrationState\",\"state\":-129",
    "\"ZkMigrationState\",\"state\":1.0",
    "\"RemoveTopic\",\"topicId\":\"y3IYK2HR4KbPLcUQjJR0Rw==\"",
    "\"RemoveTopic\",\"topicId\":\"y3IYK2HR4KbPLcUQjJR0Rx\"",
    "\"RemoveTopic\",\"topicId\":null",
    "\"PartitionChange\",\"partitionId\":2147483648,\"topicId\":\"y3IYK2HR4KbPLcUQjJR0Rw\"",
    "\"PartitionChange\",\"partitionId\":0,\"topicId\":\"y3IYK2HR4KbPLcUQjJR0Rw\",\"leader\":null",
    "\"PartitionChange\",\"partitionId\":0,\"topicId\":\"y3IYK2HR4KbPLcUQjJR0Rw\",\"isr\":[null]",
    "\"ProducerIds\",\"brokerId\":0,\"brokerEpoch\":0,\"next\":9223372036854775808",
    "\"BeginTransaction\",\"reason\":null",
    "\"ClientQuota\",\"entity\":[],\"key\":\"k\",\"remove\":false,\"whole\":0,\"micros\":999999",
    "\"ClientQuota\",\"entity\":[],\"key\":\"k\",\"remove\":false,\"whole\":-1,\"value\":\"1\"",
    "\"ClientQuota\",\"entity\":[{\"kind\":\"user\"}],\"key\":\"k\",\"remove\":false,\"value\":\"1\"",
    "\"UserScramCredential\",\"name\":\"u\",\"mechanism\":1,\"salt\":\"zA\",\"storedKey\":\"\",\"serverKey\":\"\",\"iterations\":1",
];

// A `change` with a record of this name and these members.
fn change_line(alloc: Global, record: &str) -> Result<String, AllocError> {
    format!(in alloc;
        "{{\"event\":\"change\",\"controller\":1,\"records\":[{{\"kind\":{record}}}]}}"
    )
}

#[test]
fn other_records_are_bad(rt: HostRuntime) {
    let alloc = rt.alloc();
    for record in &BAD_RECORDS {
        let line = made(&rt, change_line(alloc, record));
        assert!(rt; is_read_as(&rt, alloc, line.as_bytes(), "bad"));
    }
}

static BAD_OPS: [&str; 21] = [
    "\"op\":\"get\",\"path\":\"/a\"",
    "\"op\":\"create\"",
    "\"op\":\"create\",\"path\":\"a\"",
    "\"op\":\"create\",\"path\":\"/a/\"",
    "\"op\":\"create\",\"path\":\"/a\",\"version\":0",
    "\"op\":\"create\",\"path\":\"/a\",\"text\":\"\",\"bytes\":\"\"",
    "\"op\":\"create\",\"path\":\"/a\",\"text\":null",
    "\"op\":\"create\",\"path\":\"/a\",\"bytes\":\"/w\"",
    "\"op\":\"create\",\"path\":\"/a\",\"bytes\":\"/x==\"",
    "\"op\":\"create\",\"path\":\"/a\",\"bytes\":\"_w==\"",
    "\"op\":\"create\",\"path\":\"/a\",\"owner\":0",
    "\"op\":\"create\",\"path\":\"/a\",\"owner\":null",
    "\"op\":\"create\",\"path\":\"/a\",\"owner\":9223372036854775808",
    "\"op\":\"set\",\"path\":\"/a\",\"text\":\"\"",
    "\"op\":\"set\",\"path\":\"/a\",\"text\":\"\",\"bytes\":\"\",\"version\":0",
    "\"op\":\"set\",\"path\":\"/a\",\"version\":-2",
    "\"op\":\"delete\",\"path\":\"/a\",\"version\":2147483648",
    "\"op\":\"delete\",\"path\":\"/a\",\"version\":-0",
    "\"op\":\"delete\",\"path\":\"/a\",\"version\":0,\"text\":\"\"",
    "\"op\":\"check\",\"path\":\"/a\"",
    "\"op\":\"check\",\"path\":\"/a\",\"version\":1e0",
];

// A multi of one operation of these members.
fn zk_line(alloc: Global, members: &str) -> Result<String, AllocError> {
    format!(in alloc; "{{\"event\":\"zk\",\"ops\":[{{{members}}}]}}")
}

#[test]
fn other_operations_are_bad(rt: HostRuntime) {
    let alloc = rt.alloc();
    for members in &BAD_OPS {
        let line = made(&rt, zk_line(alloc, members));
        assert!(rt; is_read_as(&rt, alloc, line.as_bytes(), "bad"));
    }
}

// A `check` with an earlier member `event` of lists, so many deep.
fn nested_line(alloc: Global, depth: usize) -> Result<String, AllocError> {
    let mut line = String::from_str(alloc, "{\"event\":")?;
    for _ in 0..depth {
        line.push_str("[")?;
    }
    for _ in 0..depth {
        line.push_str("]")?;
    }
    line.push_str(",\"event\":\"check\"}")?;
    Ok(line)
}

#[test]
fn a_line_nests_at_most_127_deep(rt: HostRuntime) {
    let alloc = rt.alloc();
    for (depth, event) in [(126, r#"{"event":"check"}"#), (127, "bad"), (1000, "bad")] {
        let line = made(&rt, nested_line(alloc, depth));
        assert!(rt; is_read_as(&rt, alloc, line.as_bytes(), event));
    }
}

// A record of each name, as it is written.
static ITEMS: [&str; 27] = [
    r#"{"brokerEpoch":-9223372036854775808,"brokerId":1,"endpoints":[{"host":"","name":"<default>","port":0,"protocol":20029}],"features":[],"fenced":true,"inShutdown":false,"incarnation":"n8ANoI0kqSRqkMlXrm2y3Q","kind":"RegisterBroker","migrating":true,"rack":null}"#,
    r#"{"kind":"Topic","name":"<default>","topicId":"uOBLcj282uwPdlnDnouTWQ"}"#,
    r#"{"adding":[],"isr":[],"kind":"Partition","leader":0,"leaderEpoch":1,"partitionEpoch":-2147483648,"partitionId":0,"removing":[-1],"replicas":[],"topicId":"y3IYK2HR4KbPLcUQjJR0Rw"}"#,
    r#"{"adding":[],"isr":[],"kind":"Partition","leader":-1991385077,"leaderEpoch":-2147450880,"partitionEpoch":-1994696194,"partitionId":0,"recovery":1,"removing":[-1],"replicas":[1],"topicId":"1ZE-zbBrDBtsYiHOgLVs_Q"}"#,
    r#"{"kind":"Config","name":"orders","resourceName":"\"\\\n\t\u0001~","resourceType":0,"value":null}"#,
    r#"{"adding":[],"isr":[2147483647],"kind":"PartitionChange","leader":1,"partitionId":-812714267,"topicId":"puwl02HA1pqziBSGfm1oLg"}"#,
    r#"{"kind":"RemoveTopic","topicId":"F4onqyf_-CtheOFZwoVtSg"}"#,
    r#"{"iterations":0,"kind":"UserScramCredential","mechanism":127,"name":"orders","salt":"q5d8NUPfHQBHaPzKQe///Q==","serverKey":"","storedKey":"rUtU2OTOac/51JuXKlPDtw=="}"#,
    r#"{"entity":[{"kind":"ip","name":"1.2.3.4"}],"key":"","kind":"ClientQuota","remove":true,"value":"9223372036854775807"}"#,
    r#"{"entity":[{"kind":"user","name":null}],"key":"user","kind":"ClientQuota","micros":2147483647,"remove":false,"whole":0}"#,
    r#"{"entity":[{"kind":"other","name":"chient-id"},{"kind":"user","name":"u"}],"key":"client-id","kind":"ClientQuota","micros":2147483647,"remove":false,"whole":-9223372036854775808}"#,
    r#"{"brokerEpoch":0,"brokerId":0,"kind":"ProducerIds","next":1}"#,
    r#"{"host":"orders","id":"Vdl5COooXCZRM9in6HvN4Q","kind":"AccessControlEntry","operation":5,"patternType":-1,"permission":0,"principal":"client-id","resourceName":"client-id","resourceType":127}"#,
    r#"{"id":"OTHxflQvrJHUlD2AMFl8MA","kind":"RemoveAccessControlEntry"}"#,
    r#"{"kind":"NoOp"}"#,
    r#"{"kind":"ZkMigrationState","state":-1}"#,
    r#"{"kind":"RemoveUserScramCredential","mechanism":-128,"name":"orders"}"#,
    r#"{"kind":"BeginTransaction"}"#,
    r#"{"kind":"BeginTransaction","name":"ZK Migration"}"#,
    r#"{"kind":"EndTransaction"}"#,
    r#"{"kind":"AbortTransaction"}"#,
    r#"{"kind":"AbortTransaction","reason":"a"}"#,
    "{\"brokerEpoch\":1,\"brokerId\":0,\"endpoints\":[],\"features\":[{\"max\":32767,\"min\":-32768,\"name\":\"\u{20ac}\"},{\"max\":32767,\"min\":32767,\"name\":\"\u{20ac}\"}],\"fenced\":true,\"inShutdown\":true,\"incarnation\":\"tcof63bQPOBdBZjD4Xp7eQ\",\"kind\":\"RegisterBroker\",\"migrating\":false,\"rack\":null}",
    "{\"kind\":\"PartitionChange\",\"leader\":-1505092173,\"partitionId\":-2147483648,\"recovery\":-128,\"removing\":[-2147483648,-94534014,0],\"topicId\":\"Exhd-EOvftVFa9WPg7VavA\"}",
    "{\"adding\":[],\"kind\":\"PartitionChange\",\"partitionId\":2147483647,\"recovery\":127,\"replicas\":[-2147483648],\"topicId\":\"RTUAaNksbXdBg3jX1f5kdA\"}",
    "{\"entity\":[{\"kind\":\"user\",\"name\":null}],\"key\":\"\u{20ac}\",\"kind\":\"ClientQuota\",\"remove\":false,\"value\":\"9223372036854775807.000001\"}",
    "{\"entity\":[{\"kind\":\"user\",\"name\":\"u\"},{\"kind\":\"client-id\",\"name\":null}],\"key\":\"\u{1f600}\",\"kind\":\"ClientQuota\",\"micros\":-2147483648,\"remove\":false,\"whole\":-9223372036854775808}",
];

// Whether a JSON text is read as a record that is written so.
fn is_kept(rt: &impl Abort, alloc: Global, text: &str) -> bool {
    let value = made(rt, Value::from_slice(alloc, text.as_bytes()));
    let item = made(rt, read_item(alloc, &value));
    let written = made(rt, write_item(alloc, &item));
    let bytes = made(rt, written.to_vec(alloc));
    bytes.as_slice() == text.as_bytes()
}

#[test]
fn records_are_read_and_written(rt: HostRuntime) {
    for item in &ITEMS {
        assert!(rt; is_kept(&rt, rt.alloc(), item));
    }
}

// A step of each kind; the last two print nothing.
fn steps(rt: &impl Abort, alloc: Global) -> Sequence<Reply> {
    let mut steps = Sequence::new(alloc);
    put(rt, &mut steps, Reply::Idle);
    put(rt, &mut steps, Reply::WaitQuorum { id: 3001 });
    put(rt, &mut steps, Reply::WaitBroker { id: 1 });
    put(rt, &mut steps, Reply::Moved(DriverState::Inactive));
    put(rt, &mut steps, Reply::Moved(DriverState::WaitForBrokers));
    put(rt, &mut steps, Reply::Moved(DriverState::SyncKraftToZk));
    put(rt, &mut steps, Reply::Looked);
    put(rt, &mut steps, Reply::Claimed { zk_epoch: 1 });
    put(rt, &mut steps, Reply::Read { rows: 256 });
    put(rt, &mut steps, Reply::Appended { offset: 4 });
    put(rt, &mut steps, Reply::Wrote { ops: 64 });
    put(rt, &mut steps, Reply::Recorded { offset: 4 });
    put(rt, &mut steps, Reply::FencedEpoch { epoch: 2 });
    put(rt, &mut steps, Reply::FencedWrite { claim: 0 });
    put(rt, &mut steps, Reply::Stale { epoch: 2 });
    put(rt, &mut steps, Reply::Lost);
    put(rt, &mut steps, Reply::Expired);
    put(rt, &mut steps, Reply::TreeFailed(TreeFault::Device));
    put(rt, &mut steps, Reply::NoMemory);
    steps
}

const STEPS: &str = "12 idle
12 wait-quorum 3001
12 wait-broker 1
12 moved INACTIVE
12 moved WAIT_FOR_BROKERS
12 moved SYNC_KRAFT_TO_ZK
12 looked
12 claimed 1
12 read 256
12 appended 4
12 wrote 64
12 recorded 4
12 fenced-epoch 2
12 fenced-write 0
12 stale 2
12 lost
12 expired
";

fn put_stop(rt: &impl Abort, alloc: Global, steps: &mut Sequence<Reply>, why: ReadWhy) {
    let path = path_of(rt, alloc, "/a\"");
    put(rt, steps, Reply::Untranslatable { path, why });
}

// The steps that name a path; the last but one prints nothing.
fn path_steps(rt: &impl Abort, alloc: Global) -> Sequence<Reply> {
    let mut steps = Sequence::new(alloc);
    put_stop(rt, alloc, &mut steps, ReadWhy::Stray);
    put_stop(rt, alloc, &mut steps, ReadWhy::SameId);
    put_stop(rt, alloc, &mut steps, ReadWhy::Over { number: 2 });
    put_stop(rt, alloc, &mut steps, ReadWhy::Body(BodyFault::NotJson));
    put_stop(rt, alloc, &mut steps, ReadWhy::Body(BodyFault::NoTopicId));
    let field = text_of(rt, alloc, "config");
    put_stop(
        rt,
        alloc,
        &mut steps,
        ReadWhy::Body(BodyFault::Missing { field }),
    );
    let field = text_of(rt, alloc, "config");
    put_stop(
        rt,
        alloc,
        &mut steps,
        ReadWhy::Body(BodyFault::BadField { field }),
    );
    let name = text_of(rt, alloc, "k");
    put_stop(
        rt,
        alloc,
        &mut steps,
        ReadWhy::Body(BodyFault::UnknownKey { name }),
    );
    put_stop(rt, alloc, &mut steps, ReadWhy::Body(BodyFault::NoMemory));
    let path = path_of(rt, alloc, "/migration");
    put(rt, &mut steps, Reply::Limit { path });
    steps
}

const PATH_STEPS: &str = r#"12 untranslatable "/a\"" stray
12 untranslatable "/a\"" same-id
12 untranslatable "/a\"" over 2
12 untranslatable "/a\"" not-json
12 untranslatable "/a\"" no-topic-id
12 untranslatable "/a\"" missing "config"
12 untranslatable "/a\"" bad-field "config"
12 untranslatable "/a\"" unknown-key "k"
12 limit "/migration"
"#;

// Whether an answer to a line prints this text.
fn prints(rt: &impl Abort, alloc: Global, line: u64, answer: Answer, text: &str) -> bool {
    let printed = made(rt, write_answer(alloc, line, &answer));
    drop(answer);
    printed.as_slice() == text.as_bytes()
}

#[test]
fn a_turn_prints_a_line_for_each_step(rt: HostRuntime) {
    let alloc = rt.alloc();
    let replies = steps(&rt, alloc);
    assert!(rt; prints(&rt, alloc, 12, Answer::Turn(replies), STEPS));
    let replies = path_steps(&rt, alloc);
    assert!(rt; prints(&rt, alloc, 12, Answer::Turn(replies), PATH_STEPS));
}

const ELECTED: Answer = Answer::Elected {
    epoch: 1,
    offset: 1,
};

const BEHIND: Answer = Answer::Behind {
    recorded: 4,
    end: 5,
};

const BAD_RECORD: Answer = Answer::BadRecord { index: 1, why: 3 };

const REFUSED: Answer = Answer::Refused {
    index: 0,
    code: -110,
};

const OVER_OP: Answer = Answer::OverOp {
    index: 1,
    number: 2,
};

const STATE: DriverState = DriverState::ZkMigration;

#[test]
fn an_answer_prints_its_line(rt: HostRuntime) {
    let alloc = rt.alloc();
    assert!(rt; prints(&rt, alloc, 7, Answer::Done, "7 done\n"));
    assert!(rt; prints(&rt, alloc, 7, Answer::DoneAt { zxid: 3 }, "7 done 3\n"));
    assert!(rt; prints(&rt, alloc, 7, ELECTED, "7 elected 1 1\n"));
    assert!(rt; prints(&rt, alloc, 7, Answer::Step(Reply::Lost), "7 lost\n"));
    assert!(rt;
        prints(
            &rt,
            alloc,
            7,
            Answer::Appended { offset: 5 },
            "7 appended 5\n"
        )
    );
    assert!(rt; prints(&rt, alloc, 7, Answer::RolledBack, "7 rolled-back\n"));
    assert!(rt;
        prints(
            &rt,
            alloc,
            7,
            Answer::Running { id: 3000 },
            "7 running 3000\n"
        )
    );
    assert!(rt;
        prints(
            &rt,
            alloc,
            7,
            Answer::UnknownController,
            "7 unknown-controller\n"
        )
    );
    assert!(rt; prints(&rt, alloc, 7, Answer::AlreadyRunning, "7 already-running\n"));
    assert!(rt; prints(&rt, alloc, 7, Answer::NotRunning, "7 not-running\n"));
    assert!(rt; prints(&rt, alloc, 7, Answer::NotLeader, "7 not-leader\n"));
    assert!(rt; prints(&rt, alloc, 7, Answer::Stale { epoch: 2 }, "7 stale 2\n"));
    assert!(rt; prints(&rt, alloc, 7, Answer::NotMigrated, "7 not-migrated\n"));
    assert!(rt; prints(&rt, alloc, 7, Answer::Over { number: 15 }, "7 over 15\n"));
}

#[test]
fn a_later_answer_prints_its_line(rt: HostRuntime) {
    let alloc = rt.alloc();
    assert!(rt;
        prints(
            &rt,
            alloc,
            7,
            Answer::InTransaction { offset: 4 },
            "7 in-transaction 4\n"
        )
    );
    assert!(rt; prints(&rt, alloc, 7, Answer::Finalised, "7 finalised\n"));
    assert!(rt;
        prints(
            &rt,
            alloc,
            7,
            Answer::NotDualWrite { state: STATE },
            "7 not-dual-write ZK_MIGRATION\n"
        )
    );
    let path = path_of(&rt, alloc, "/a");
    assert!(rt;
        prints(
            &rt,
            alloc,
            7,
            Answer::Unclosed { path },
            "7 unclosed \"/a\"\n"
        )
    );
    assert!(rt; prints(&rt, alloc, 7, BEHIND, "7 behind 4 5\n"));
    assert!(rt; prints(&rt, alloc, 7, Answer::TooEarly, "7 too-early\n"));
    assert!(rt; prints(&rt, alloc, 7, BAD_RECORD, "7 bad-record 1 3\n"));
    assert!(rt; prints(&rt, alloc, 7, Answer::TreeFailed(TreeFault::Device), ""));
    assert!(rt; prints(&rt, alloc, 7, Answer::NoMemory, ""));
}

#[test]
fn an_answer_to_a_client_prints_its_line(rt: HostRuntime) {
    let alloc = rt.alloc();
    assert!(rt; prints(&rt, alloc, 9, Answer::Known, "9 known\n"));
    assert!(rt; prints(&rt, alloc, 9, Answer::Unknown, "9 unknown\n"));
    let path = path_of(&rt, alloc, "/controller/a");
    assert!(rt;
        prints(
            &rt,
            alloc,
            9,
            Answer::Reserved { path },
            "9 reserved \"/controller/a\"\n"
        )
    );
    let path = path_of(&rt, alloc, "/controller");
    assert!(rt;
        prints(
            &rt,
            alloc,
            9,
            Answer::KraftHolds { path },
            "9 kraft-holds \"/controller\"\n"
        )
    );
    assert!(rt; prints(&rt, alloc, 9, REFUSED, "9 refused 0 -110\n"));
    assert!(rt; prints(&rt, alloc, 9, OVER_OP, "9 over-op 1 2\n"));
}

// Whether a verdict prints this text.
fn shows(rt: &impl Abort, alloc: Global, verdict: Verdict, text: &str) -> bool {
    prints(rt, alloc, 7, Answer::Check(verdict), text)
}

#[test]
fn a_verdict_prints_its_line(rt: HostRuntime) {
    let alloc = rt.alloc();
    assert!(rt; shows(&rt, alloc, Verdict::Unmigrated, "7 unmigrated\n"));
    assert!(rt; shows(&rt, alloc, Verdict::Unrecorded, "7 unrecorded\n"));
    assert!(rt; shows(&rt, alloc, Verdict::Closed { offset: 4 }, "7 closed 4\n"));
    let mut paths = Sequence::new(alloc);
    let path = path_of(&rt, alloc, "/a");
    put(&rt, &mut paths, AheadPath { path, offset: 5 });
    assert!(rt;
        shows(
            &rt,
            alloc,
            Verdict::Ahead { offset: 4, paths },
            "7 ahead 4 1\n"
        )
    );
    let path = path_of(&rt, alloc, "/a\\");
    assert!(rt;
        shows(
            &rt,
            alloc,
            Verdict::Disagrees { path },
            "7 disagrees \"/a\\\\\"\n"
        )
    );
}

const NONE: &str = "end events=0 steps=0 zxid=0 offset=-1 recorded=none\n";

const SOME: &str = "end events=9 steps=16 zxid=3 offset=5 recorded=5\n";

#[test]
fn a_run_ends_with_its_numbers(rt: HostRuntime) {
    let alloc = rt.alloc();
    let none = made(&rt, summary(alloc, 0, 0, 0, -1, None));
    assert!(rt; none.as_slice() == NONE.as_bytes());
    let some = made(&rt, summary(alloc, 9, 16, 3, 5, Some(5)));
    assert!(rt; some.as_slice() == SOME.as_bytes());
}

const STATUSES: [(Status, u8, &str); 8] = [
    (Status::Done, 0, ""),
    (Status::Usage, 1, "usage"),
    (Status::Script { line: 5 }, 2, "script line 5"),
    (Status::ReadFault, 3, "read fault"),
    (Status::WriteFault, 4, "write fault"),
    (Status::NoMemory, 10, "no memory"),
    (
        Status::Limit {
            which: 10,
            number: 2097152,
        },
        11,
        "limit 10",
    ),
    (Status::NoOffset { base: -1, end: 4 }, 13, "no offset -1 4"),
];

#[test]
fn a_path_that_disagrees_is_told(rt: HostRuntime) {
    let path = made(&rt, ZPath::new(rt.alloc(), b"/a\"b"));
    let status = Status::Disagrees { path };
    assert!(rt; status_code(&status) == 9);
    let printed = made(&rt, status_text(rt.alloc(), &status));
    assert!(rt; printed.as_slice() == b"disagrees \"/a\\\"b\"".as_slice());
}

#[test]
fn a_status_has_a_code_and_a_text(rt: HostRuntime) {
    let statuses = STATUSES;
    for (status, code, text) in &statuses {
        assert!(rt; status_code(status) == *code);
        let printed = made(&rt, status_text(rt.alloc(), status));
        assert!(rt; printed.as_slice() == text.as_bytes());
    }
}
