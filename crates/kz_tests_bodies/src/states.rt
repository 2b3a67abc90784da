use kz_state::{
    BodyFault, Recorded, read_control, read_epoch, read_migration, write_control, write_epoch,
    write_migration,
};
use std::alloc::{AllocError, Global};
use std::test::Fail;

const WRITTEN: &[u8] =
    b"{\"kraft_controller_epoch\":1,\"kraft_controller_id\":3000,\"kraft_metadata_epoch\":1,\"kraft_metadata_offset\":4,\"version\":0}";

#[test]
fn bodies_are_written(rt: HostRuntime) -> Result<(), Fail> {
    let alloc = rt.alloc();
    let epoch = write_epoch(alloc, 17)?;
    assert_eq!(rt; epoch.as_slice(), b"17".as_slice());
    let control = write_control(alloc, 3000, 1, 8)?;
    assert_eq!(rt;
        control.as_slice(),
        b"{\"brokerid\":3000,\"kraftControllerEpoch\":1,\"timestamp\":\"8\",\"version\":2}".as_slice()
    );
    let recorded = Recorded {
        id: 3000,
        controller_epoch: 1,
        offset: 4,
        epoch: 1,
    };
    let migration = write_migration(alloc, &recorded)?;
    assert_eq!(rt; migration.as_slice(), WRITTEN);
    Ok(())
}

// A fault in one text.
fn shown_fault(alloc: Global, fault: BodyFault) -> Result<String, AllocError> {
    match fault {
        BodyFault::NotJson => format!(in alloc; "not json"),
        BodyFault::Missing { field } => {
            let field = field.as_str();
            format!(in alloc; "missing {field}")
        }
        BodyFault::BadField { field } => {
            let field = field.as_str();
            format!(in alloc; "bad {field}")
        }
        BodyFault::NoTopicId => format!(in alloc; "no id"),
        BodyFault::UnknownKey { .. } => format!(in alloc; "unknown"),
        BodyFault::NoMemory => Err(AllocError),
    }
}

fn epoch_as(alloc: Global, body: &[u8]) -> Result<String, AllocError> {
    match read_epoch(alloc, body) {
        Ok(epoch) => format!(in alloc; "{epoch}"),
        Err(fault) => shown_fault(alloc, fault),
    }
}

#[test]
fn epochs_are_read(rt: HostRuntime) -> Result<(), Fail> {
    let alloc = rt.alloc();
    let bodies: [(&[u8], &str); 10] = [
        (b"0", "0"),
        (b"2147483647", "2147483647"),
        (b"2147483648", "bad controller_epoch"),
        (b"99999999999999999999", "bad controller_epoch"),
        (b"", "bad controller_epoch"),
        (b"01", "bad controller_epoch"),
        (b"+1", "bad controller_epoch"),
        (b"-1", "bad controller_epoch"),
        (b"1 ", "bad controller_epoch"),
        (b"\xff", "bad controller_epoch"),
    ];
    for (body, shown) in bodies {
        let text = epoch_as(alloc, body)?;
        assert_eq!(rt; text.as_str(), shown);
    }
    Ok(())
}

#[test]
fn held_bodies_show_their_epoch(rt: HostRuntime) -> Result<(), Fail> {
    let alloc = rt.alloc();
    let bodies: [(&[u8], Option<i32>); 9] = [
        (
            b"{\"brokerid\":3000,\"kraftControllerEpoch\":1,\"timestamp\":\"8\",\"version\":2}",
            Some(1),
        ),
        (b"{\"kraftControllerEpoch\":2147483647}", Some(2147483647)),
        (b"{\"kraftControllerEpoch\":2147483648}", None),
        (b"{\"kraftControllerEpoch\":-1}", None),
        (b"{\"kraftControllerEpoch\":1.0}", None),
        (b"{\"kraftControllerEpoch\":\"1\"}", None),
        (
            b"{\"version\":1,\"brokerid\":3,\"timestamp\":\"1700000000000\"}",
            None,
        ),
        (b"[{\"kraftControllerEpoch\":1}]", None),
        (b"", None),
    ];
    for (body, epoch) in bodies {
        assert_eq!(rt; read_control(alloc, body)?, epoch);
    }
    Ok(())
}

fn migration_as(alloc: Global, body: &[u8]) -> Result<String, AllocError> {
    match read_migration(alloc, body) {
        Ok(r) => {
            let Recorded {
                id,
                controller_epoch,
                offset,
                epoch,
            } = r;
            format!(in alloc; "{id} {controller_epoch} {offset} {epoch}")
        }
        Err(fault) => shown_fault(alloc, fault),
    }
}

#[test]
fn what_is_recorded_is_read(rt: HostRuntime) -> Result<(), Fail> {
    let alloc = rt.alloc();
    let bodies: [(&[u8], &str); 12] = [
        (WRITTEN, "3000 1 4 1"),
        (
            b" {\"version\":0,\"kraft_metadata_offset\":-1,\"kraft_metadata_epoch\":-1,\"kraft_controller_id\":0,\"kraft_controller_epoch\":0,\"more\":[]}",
            "0 0 -1 -1",
        ),
        (
            b"{\"version\":0,\"kraft_metadata_offset\":9223372036854775807,\"kraft_metadata_epoch\":2147483647,\"kraft_controller_id\":2147483647,\"kraft_controller_epoch\":2147483647}",
            "2147483647 2147483647 9223372036854775807 2147483647",
        ),
        (
            b"{\"version\":1,\"kraft_metadata_offset\":4,\"kraft_metadata_epoch\":1,\"kraft_controller_id\":1,\"kraft_controller_epoch\":1}",
            "bad version",
        ),
        (b"{}", "missing version"),
        (b"{\"version\":0}", "missing kraft_controller_epoch"),
        (
            b"{\"version\":0,\"kraft_controller_epoch\":1}",
            "missing kraft_controller_id",
        ),
        (
            b"{\"version\":0,\"kraft_controller_epoch\":-1,\"kraft_metadata_epoch\":-2}",
            "bad kraft_controller_epoch",
        ),
        (
            b"{\"version\":0,\"kraft_metadata_offset\":-2,\"kraft_metadata_epoch\":1,\"kraft_controller_id\":1,\"kraft_controller_epoch\":1}",
            "bad kraft_metadata_offset",
        ),
        (
            b"{\"version\":0,\"kraft_metadata_offset\":9223372036854775808,\"kraft_metadata_epoch\":1,\"kraft_controller_id\":1,\"kraft_controller_epoch\":1}",
            "bad kraft_metadata_offset",
        ),
        (b"[]", "not json"),
        (b"", "not json"),
    ];
    for (body, shown) in bodies {
        let text = migration_as(alloc, body)?;
        assert_eq!(rt; text.as_str(), shown);
    }
    Ok(())
}
