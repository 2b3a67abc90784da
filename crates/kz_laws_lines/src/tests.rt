//! The laws of held values, called on values that a program makes, and used.
ghost use Rattle.std.specs.Prelude.{◌≡◌};
ghost use Rattle.kz_spec_data.specs.WrittenRecords.{record_data};
ghost use Rattle.kz_spec_data.specs.Written.{op_data, written_event};
ghost use Rattle.kz_laws_lines.specs.Lawful.{IsLawfulOp, IsLawfulEvent};

use crate::{held_event_is_read, held_operation_is_read, held_record_is_read};
use kz_types::{Event, Id, MetaRecord, Op, Plan, Sequence, Text, TopicRecord, ZPath};
use std::alloc::Global;

// ---- what follows of the laws

// Records of which the same is written are one.
fn records_are_one(one: &MetaRecord, other: &MetaRecord)
    requires { record_data one.now ≡ record_data other.now }
    ensures { one.now ≡ other.now }
{
    held_record_is_read(one);
    held_record_is_read(other);
}

// Lawful operations of which the same is written are one.
fn operations_are_one(one: &Op, other: &Op)
    requires one_is_lawful { IsLawfulOp one.now }
    requires other_is_lawful { IsLawfulOp other.now }
    requires same { op_data one.now ≡ op_data other.now }
    ensures { one.now ≡ other.now }
{
    held_operation_is_read(one);
    held_operation_is_read(other);
}

// Lawful events of which one line is written are one.
fn events_are_one(one: &Event, other: &Event)
    requires one_is_lawful { IsLawfulEvent one.now }
    requires other_is_lawful { IsLawfulEvent other.now }
    requires same { written_event one.now ≡ written_event other.now }
    ensures { one.now ≡ other.now }
{
    held_event_is_read(one);
    held_event_is_read(other);
}

// ---- values of a program

fn made_text(alloc: Global, name: &str) -> Result<Text, &'static str> {
    Text::from_str(alloc, name).ok().ok_or("memory")
}

fn made_path(alloc: Global, name: &str) -> Result<ZPath, &'static str> {
    ZPath::new(alloc, name.as_bytes()).ok().ok_or("no path")
}

#[test]
fn records(rt: HostRuntime) -> Result<(), &'static str> {
    let topic = MetaRecord::Topic(TopicRecord {
        name: made_text(rt.alloc(), "orders")?,
        topic_id: Id { bytes: [7; 16] },
    });
    held_record_is_read(&topic);
    records_are_one(&topic, &topic);
    Ok(())
}

#[test]
fn operations(rt: HostRuntime) -> Result<(), &'static str> {
    let create = Op::Create {
        path: made_path(rt.alloc(), "/brokers/ids/1")?,
        body: Sequence::new(rt.alloc()),
        owner: Some(72),
    };
    held_operation_is_read(&create);
    operations_are_one(&create, &create);
    let delete = Op::Delete {
        path: made_path(rt.alloc(), "/brokers/ids/1")?,
        version: -1,
    };
    held_operation_is_read(&delete);
    Ok(())
}

#[test]
fn events(rt: HostRuntime) -> Result<(), &'static str> {
    let turn = Event::Turn {
        controller: 3000,
        now: 0,
    };
    held_event_is_read(&turn);
    events_are_one(&turn, &turn);
    let mut records = Sequence::new(rt.alloc());
    records.push(MetaRecord::NoOp).ok().ok_or("memory")?;
    let change = Event::Change {
        controller: 3000,
        records,
        now: 5,
    };
    held_event_is_read(&change);
    let mut ops = Sequence::new(rt.alloc());
    ops.push(Op::Check {
        path: made_path(rt.alloc(), "/controller_epoch")?,
        version: 3,
    })
    .ok()
    .ok_or("memory")?;
    let multi = Event::Zk { ops };
    held_event_is_read(&multi);
    Ok(())
}

#[test]
fn controllers(rt: HostRuntime) -> Result<(), &'static str> {
    let none = Event::Quorum {
        ids: Sequence::new(rt.alloc()),
    };
    held_event_is_read(&none);
    let mut ids = Sequence::new(rt.alloc());
    ids.push(3001).ok().ok_or("memory")?;
    ids.push(3000).ok().ok_or("memory")?;
    let quorum = Event::Quorum { ids };
    held_event_is_read(&quorum);
    events_are_one(&quorum, &quorum);
    let all_stop = Event::Stop { controller: None };
    held_event_is_read(&all_stop);
    let one_stops = Event::Stop {
        controller: Some(3000),
    };
    held_event_is_read(&one_stops);
    Ok(())
}

#[test]
fn steps(rt: HostRuntime) {
    for plan in [
        Plan::Deliver,
        Plan::LostBefore,
        Plan::LostAfter,
        Plan::Expired,
    ] {
        let step = Event::Step {
            controller: 3000,
            now: 7,
            plan,
        };
        held_event_is_read(&step);
        events_are_one(&step, &step);
    }
}
