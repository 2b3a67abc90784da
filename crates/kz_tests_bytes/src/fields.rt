use kz_bytes::{
    ByteFault, Reader, put_byte_field, put_i8, put_i16, put_i32, put_i64, put_id, put_ints,
    put_nullable_text, put_text, put_u16, put_uvarint, put_varint, put_varlong, uvarint_size,
};
use kz_types::Id;
use std::test::Fail;

// The bytes of each writer are read back, and nothing is left.
#[test]
fn numbers_of_variable_size(rt: HostRuntime) -> Result<(), Fail> {
    let mut out = Vec::new(rt.alloc());
    put_uvarint(&mut out, 300).ok().ok_or("memory")?;
    put_varint(&mut out, -300).ok().ok_or("memory")?;
    put_varlong(&mut out, i64::MIN).ok().ok_or("memory")?;
    assert!(rt; matches!(out.as_slice(), [0xAC, 0x02, ..]));
    let mut reader = Reader::new(&out);
    assert_eq!(rt; reader.uvarint(), Ok(300));
    assert_eq!(rt; reader.varint(), Ok(-300));
    assert_eq!(rt; reader.varlong(), Ok(i64::MIN));
    assert_eq!(rt; reader.at(), out.len());
    assert_eq!(rt; reader.uvarint(), Err(ByteFault::Short { at: out.len() }));
    Ok(())
}

#[test]
fn numbers_of_fixed_size(rt: HostRuntime) -> Result<(), Fail> {
    let mut out = Vec::new(rt.alloc());
    let id = Id { bytes: [7; 16] };
    put_i8(&mut out, -2).ok().ok_or("memory")?;
    put_i16(&mut out, -3).ok().ok_or("memory")?;
    put_u16(&mut out, 65535).ok().ok_or("memory")?;
    put_i32(&mut out, i32::MIN).ok().ok_or("memory")?;
    put_i64(&mut out, i64::MAX).ok().ok_or("memory")?;
    put_id(&mut out, &id).ok().ok_or("memory")?;
    let mut reader = Reader::new(&out);
    assert_eq!(rt; reader.i8(), Ok(-2));
    assert_eq!(rt; reader.i16(), Ok(-3));
    assert_eq!(rt; reader.u16(), Ok(65535));
    assert_eq!(rt; reader.i32(), Ok(i32::MIN));
    assert_eq!(rt; reader.i64(), Ok(i64::MAX));
    assert_eq!(rt; reader.id(), Ok(id));
    assert_eq!(rt; reader.at(), out.len());
    Ok(())
}

#[test]
fn texts_and_lists(rt: HostRuntime) -> Result<(), Fail> {
    let mut out = Vec::new(rt.alloc());
    put_text(&mut out, b"text").ok().ok_or("memory")?;
    put_nullable_text(&mut out, None).ok().ok_or("memory")?;
    put_byte_field(&mut out, &[0xFF]).ok().ok_or("memory")?;
    put_ints(&mut out, Some(&[1, -1])).ok().ok_or("memory")?;
    put_uvarint(&mut out, 2).ok().ok_or("memory")?;
    let mut reader = Reader::new(&out);
    assert!(rt; !reader.is_null());
    assert!(rt; matches!(reader.text(), Ok(b"text")));
    assert!(rt; reader.is_null());
    assert!(rt; matches!(reader.nullable_text(), Ok(None)));
    assert!(rt; !reader.is_null());
    assert!(rt; matches!(reader.byte_field(), Ok([0xFF])));
    assert!(rt;
        matches!(
            reader.ints(),
            Ok(Some([0, 0, 0, 1, 0xFF, 0xFF, 0xFF, 0xFF]))
        )
    );
    assert_eq!(rt; reader.tags(), Ok(2));
    assert_eq!(rt; reader.at(), out.len());
    Ok(())
}

// The first bad byte of an unsigned number, a text, and the place after a refusal.
#[test]
fn faults(rt: HostRuntime) {
    let numbers: [(&[u8], ByteFault); 5] = [
        (&[], ByteFault::Short { at: 0 }),
        (&[0x80, 0x80], ByteFault::Short { at: 2 }),
        (
            &[0x80, 0x80, 0x80, 0x80, 0x10],
            ByteFault::Overlong { at: 4 },
        ),
        (
            &[0xFF, 0xFF, 0xFF, 0xFF, 0xFF],
            ByteFault::Overlong { at: 4 },
        ),
        (&[0x80, 0x80, 0x80, 0x80], ByteFault::Short { at: 4 }),
    ];
    for (bytes, fault) in numbers {
        let mut reader = Reader::new(bytes);
        assert_eq!(rt; reader.uvarint(), Err(fault));
        assert_eq!(rt; reader.at(), 0);
    }
    let texts: [(&[u8], usize); 7] = [
        (&[2, 0x80], 1),
        (&[3, 0xE2, 0x28], 1),
        (&[4, 0xE2, 0x28, 0xAC], 2),
        (&[4, 0xE2, 0x82, 0x28], 3),
        (&[5, 0xF0, 0x90, 0x80, 0x28], 4),
        (&[4, b'a', b'b', 0xC3], 3),
        (&[4, 0xED, 0xA0, 0x80], 2),
    ];
    for (bytes, at) in texts {
        let mut reader = Reader::new(bytes);
        assert_eq!(rt;
            reader.nullable_text().err(),
            Some(ByteFault::NotUtf8 { at })
        );
        assert_eq!(rt; reader.at(), 0);
    }
    let mut reader = Reader::new(&[4, 0xE2, 0x82]);
    assert_eq!(rt;
        reader.nullable_text().err(),
        Some(ByteFault::Short { at: 3 })
    );
    assert_eq!(rt; reader.varlong(), Ok(2));
    assert_eq!(rt; reader.part(3).err(), Some(ByteFault::Short { at: 3 }));
    assert!(rt; matches!(reader.part(2), Ok([0xE2, 0x82])));
}

// A part that is read by a reader of its own, and a second reader in the same place.
#[test]
fn other_readers(rt: HostRuntime) -> Result<(), Fail> {
    let mut reader = Reader::new(&[9, 0xAC, 0x02, 7]);
    assert_eq!(rt; reader.i8(), Ok(9));
    let mut second = reader.again();
    let mut inside = reader.within(2).ok().ok_or("two bytes")?;
    assert_eq!(rt; inside.at(), 1);
    assert_eq!(rt; inside.uvarint(), Ok(300));
    assert_eq!(rt; inside.i8(), Err(ByteFault::Short { at: 3 }));
    assert_eq!(rt; reader.i8(), Ok(7));
    assert_eq!(rt; reader.at(), 4);
    assert_eq!(rt; second.uvarint(), Ok(300));
    assert_eq!(rt; uvarint_size(300), 2);
    assert_eq!(rt; uvarint_size(u64::MAX), 10);
    Ok(())
}
