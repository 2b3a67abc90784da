use kz_settle::{Entry, Settled, Settler, closes, is_abort, is_begin, is_end};
use kz_types::{ConfigRecord, Duplicate, MetaRecord, NoMemory, Text};
use std::alloc::Global;
use std::test::Fail;

fn entry(offset: i64, item: MetaRecord) -> Entry {
    Entry {
        offset,
        epoch: 1,
        item,
    }
}

fn config(alloc: Global) -> Result<MetaRecord, NoMemory> {
    Ok(MetaRecord::Config(ConfigRecord {
        resource_type: 4,
        resource_name: Text::from_str(alloc, "1")?,
        name: Text::from_str(alloc, "a")?,
        value: None,
    }))
}

#[test]
fn an_aborted_transaction_is_dropped_and_an_ended_one_released(
    rt: HostRuntime,
) -> Result<(), Fail> {
    let alloc = rt.alloc();
    let mut settler = Settler::new(alloc);
    let Settled::Now(first) = settler.push(entry(0, MetaRecord::NoOp))? else {
        assert!(rt; false);
        return Ok(());
    };
    assert_eq!(rt; first.offset, 0);
    let Settled::Kept = settler.push(entry(1, MetaRecord::BeginTransaction { name: None }))? else {
        assert!(rt; false);
        return Ok(());
    };
    assert_eq!(rt; settler.begun(), Some(1));
    let Settled::Kept = settler.push(entry(2, config(alloc)?))? else {
        assert!(rt; false);
        return Ok(());
    };
    let Settled::Dropped = settler.push(entry(3, MetaRecord::AbortTransaction { reason: None }))?
    else {
        assert!(rt; false);
        return Ok(());
    };
    assert_eq!(rt; settler.begun(), None);
    let Settled::Kept = settler.push(entry(4, MetaRecord::BeginTransaction { name: None }))? else {
        assert!(rt; false);
        return Ok(());
    };
    let Settled::Kept = settler.push(entry(5, config(alloc)?))? else {
        assert!(rt; false);
        return Ok(());
    };
    let Settled::Released = settler.push(entry(6, MetaRecord::EndTransaction))? else {
        assert!(rt; false);
        return Ok(());
    };
    let Some(released) = settler.pop() else {
        assert!(rt; false);
        return Ok(());
    };
    assert_eq!(rt; released.offset, 5);
    assert!(rt; settler.pop().is_none());
    Ok(())
}

#[test]
fn a_copy_stays_as_it_was(rt: HostRuntime) -> Result<(), Fail> {
    let alloc = rt.alloc();
    let mut settler = Settler::new(alloc);
    let Settled::Kept = settler.push(entry(0, MetaRecord::BeginTransaction { name: None }))? else {
        assert!(rt; false);
        return Ok(());
    };
    let copy = settler.copy(alloc)?;
    let Settled::Released = settler.push(entry(1, MetaRecord::EndTransaction))? else {
        assert!(rt; false);
        return Ok(());
    };
    assert_eq!(rt; settler.begun(), None);
    assert_eq!(rt; copy.begun(), Some(0));
    Ok(())
}

// Whether a record begins a transaction, ends one, aborts one, and closes one.
static MARKS: [[bool; 4]; 4] = [
    [false, false, false, false],
    [true, false, false, false],
    [false, true, false, true],
    [false, false, true, true],
];

fn marks(item: &MetaRecord) -> [bool; 4] {
    [is_begin(item), is_end(item), is_abort(item), closes(item)]
}

#[test]
fn marks_of_transactions_are_told(rt: HostRuntime) {
    let items = [
        MetaRecord::NoOp,
        MetaRecord::BeginTransaction { name: None },
        MetaRecord::EndTransaction,
        MetaRecord::AbortTransaction { reason: None },
    ];
    for (item, wanted) in items.iter().zip(&MARKS) {
        assert!(rt; marks(item) == *wanted);
    }
    drop(items);
}
