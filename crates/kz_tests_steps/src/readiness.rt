//! Each public call.
use kz_image::Image;
use kz_ready::{missing_broker, missing_controller};
use kz_types::{Id, MetaRecord, RegisterBrokerRecord, Sequence};
use std::alloc::Global;
use std::process::Abort;

static CONTROLLERS: [(&[i32], &[i32], Option<i32>); 6] = [
    (&[], &[], None),
    (&[3000], &[3000], None),
    (&[3001, 3000, 3002], &[3002], Some(3000)),
    (&[3001, 3000, 3002], &[3000, 3002], Some(3001)),
    (&[0, 2147483647], &[0], Some(2147483647)),
    (&[], &[3000], None),
];

#[test]
fn the_least_missing_controller_is_told(rt: HostRuntime) {
    for (declared, running, missing) in &CONTROLLERS {
        assert!(rt; missing_controller(declared, running) == *missing);
    }
}

// The record of a broker that registers.
fn broker_record(alloc: Global, broker_id: i32, migrating: bool) -> MetaRecord {
    MetaRecord::RegisterBroker(RegisterBrokerRecord {
        broker_id,
        migrating,
        incarnation: Id { bytes: [0; 16] },
        broker_epoch: 0,
        endpoints: Sequence::new(alloc),
        features: Sequence::new(alloc),
        rack: None,
        fenced: true,
        in_shutdown: false,
    })
}

// The metadata in which brokers have registered, one after another.
fn image_of(rt: &impl Abort, alloc: Global, brokers: &[(i32, bool)]) -> Image {
    let mut image = Image::new(alloc);
    for (id, migrating) in brokers {
        match image.apply_all(1, &[broker_record(alloc, *id, *migrating)]) {
            Ok(()) => {}
            Err(_) => panic!(rt; "a broker can't register"),
        }
    }
    image
}

static BROKERS: [(&[i32], Option<i32>); 5] = [
    (&[], None),
    (&[1, 3, 4], None),
    (&[1, 2, 3], Some(2)),
    (&[7, 2, 5], Some(2)),
    (&[7, 5, 1], Some(5)),
];

#[test]
fn the_least_missing_broker_is_told(rt: HostRuntime) {
    let registered = [(1, true), (2, false), (3, true), (4, false), (4, true)];
    let image = image_of(&rt, rt.alloc(), &registered);
    for (ids, missing) in &BROKERS {
        assert!(rt; missing_broker(ids, &image) == *missing);
    }
}
