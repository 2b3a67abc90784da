//! Each public call with ample memory.
use kz_paths::{
    BROKER_IDS_TEXT, CONTROL_TEXT, EPOCH_TEXT, MIGRATION_TEXT, PRODUCER_TEXT, TOPICS_TEXT,
    base_paths, control_and_base_paths, control_path, control_paths, epoch_path, is_base,
    is_below_control, is_broker_ids_path, is_control, is_controller_path, is_epoch_path,
    is_migrated, is_migration_path, is_root, migration_path, root_paths, topics_path,
};
use std::test::Fail;

/// Paths, and whether each is a root, a parent of roots, a control znode, below one, and migrated.
const PATHS: [(&str, bool, bool, bool, bool, bool); 8] = [
    ("/brokers", false, true, false, false, false),
    ("/config/brokers", true, false, false, false, true),
    ("/config/brokers/1", false, false, false, false, true),
    ("/config/brokers-2", false, false, false, false, false),
    ("/kafka-acl/topic", false, false, false, false, false),
    ("/controller_epoch", false, false, true, false, false),
    ("/controller/x", false, false, false, true, false),
    ("/latest_producer_id_block", true, false, false, false, true),
];

#[test]
fn predicates(rt: HostRuntime) {
    for (text, root, base, control, below, migrated) in PATHS {
        let path = text.as_bytes();
        assert!(rt; is_root(path) == root, "{text}");
        assert!(rt; is_base(path) == base, "{text}");
        assert!(rt; is_control(path) == control, "{text}");
        assert!(rt; is_below_control(path) == below, "{text}");
        assert!(rt; is_migrated(path) == migrated, "{text}");
    }
}

#[test]
fn single_paths(rt: HostRuntime) {
    assert!(rt; is_controller_path(b"/controller") && !is_controller_path(b"/controller_epoch"));
    assert!(rt; is_epoch_path(b"/controller_epoch") && !is_epoch_path(b"/controller"));
    assert!(rt; is_migration_path(b"/migration") && !is_migration_path(b"/migrations"));
    assert!(rt; is_broker_ids_path(b"/brokers/ids") && !is_broker_ids_path(b"/brokers/ids/1"));
    assert!(rt; is_broker_ids_path(BROKER_IDS_TEXT.as_bytes()));
    assert!(rt; is_root(PRODUCER_TEXT.as_bytes()));
}

#[test]
fn lists(rt: HostRuntime) -> Result<(), Fail> {
    for path in &root_paths(rt.alloc())? {
        assert!(rt; is_root(path.bytes()));
    }
    for path in &base_paths(rt.alloc())? {
        assert!(rt; is_base(path.bytes()));
    }
    for path in &control_paths(rt.alloc())? {
        assert!(rt; is_control(path.bytes()));
    }
    for path in &control_and_base_paths(rt.alloc())? {
        assert!(rt; is_control(path.bytes()) || is_base(path.bytes()));
    }
    assert!(rt; control_path(rt.alloc())?.as_str() == CONTROL_TEXT);
    assert!(rt; epoch_path(rt.alloc())?.as_str() == EPOCH_TEXT);
    assert!(rt; migration_path(rt.alloc())?.as_str() == MIGRATION_TEXT);
    assert!(rt; topics_path(rt.alloc())?.as_str() == TOPICS_TEXT);
    Ok(())
}
