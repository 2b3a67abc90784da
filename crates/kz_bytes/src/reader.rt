//! A reader of fields.
ghost use Rattle.std.specs.Prelude.{◌≡◌, ◌+◌, ◌*◌, ◌<◌, ◌≤◌, length, false, Some, option_map, IfOk, IfSome};
ghost use Rattle.std.specs.Str.{IsUtf8};
ghost use Rattle.std.specs.Int.{w8, w16, w32, w64};
ghost use Rattle.kz_spec_data.specs.Fields.{start, Reads, front, uvarint, varint, varlong, signed_number, unsigned_number, id, items_with_count, nullable_bytes, nullable_text, is_null, unzigzag};

use crate::groups::read_groups;
use crate::text::text_fault;
use kz_types::{ByteFault, Id};
use std::marker::Model;

/// Reads fields from the front of bytes, which it borrows. A read that is refused leaves it in its place.
#[derive(Drop)]
pub struct Reader<'a> {
    at: usize,
    left: &'a [u8],
}

impl<'a> Model for Reader<'a> {
    ghost use Rattle.std.specs.Prelude.{◌+◌, ◌<◌, ◌^◌, length};
    ghost use Rattle.kz_spec_data.specs.Fields.{Reading};

    ghost Value = { Reading };

    ghost view = { λ r. record { at = r.at; left = r.left.now } };

    ghost invariant = { λ r. r.at + length r.left.now < 2 ^ 64 };
}

impl<'a> Reader<'a> {
    /// A reader in front of these bytes.
    pub fn new(bytes: &'a [u8]) -> Reader<'a>
        ensures { result ≡ start bytes.now }
    {
        Reader { at: 0, left: bytes }
    }

    /// How many bytes it has read.
    pub fn at(&self) -> usize
        ensures { result ≡ self.now.at }
    {
        self.at
    }

    /// The next `count` bytes, lent.
    pub fn part(&mut self, count: usize) -> Result<&'a [u8], ByteFault>
        ensures { Reads (λ x. x.now) self.old result self.new ((front count).read self.old) }
    {
        if self.left.len() < count {
            return Err(ByteFault::Short {
                at: self.at + self.left.len(),
            });
        }
        let (taken, left) = self.left.split_at(count);
        self.at += count;
        self.left = left;
        Ok(taken)
    }

    /// A reader of the next `count` bytes, which stands at their place.
    pub fn within(&mut self, count: usize) -> Result<Reader<'a>, ByteFault>
        ensures read { Reads (λ x. x.left) self.old result self.new ((front count).read self.old) }
        ensures place { IfOk result (λ x. x.at ≡ self.old.at) }
    {
        let at = self.at;
        let left = self.part(count)?;
        Ok(Reader { at, left })
    }

    /// Another reader in the same place.
    pub fn again(&self) -> Reader<'a>
        ensures { result ≡ self.now }
    {
        Reader {
            at: self.at,
            left: self.left,
        }
    }

    /// An unsigned number of variable size.
    #[tactic(auto, unfolding(crate::specs::Groups::limit))]
    pub fn uvarint(&mut self) -> Result<u32, ByteFault>
        ensures { Reads (λ x. x) self.old result self.new (uvarint.read self.old) }
    {
        let read = read_groups(self.at, self.left, 4, 16)?;
        self.at = read.at;
        self.left = read.left;
        Ok(read.number as u32)
    }

    /// A signed number of variable size, of 32 bits.
    pub fn varint(&mut self) -> Result<i32, ByteFault>
        ensures { Reads (λ x. x) self.old result self.new (varint.read self.old) }
    {
        let number = self.uvarint()?;
        Ok(unzigzag32(number))
    }

    /// A signed number of variable size, of 64 bits.
    #[tactic(auto, unfolding(crate::specs::Groups::limit))]
    pub fn varlong(&mut self) -> Result<i64, ByteFault>
        ensures { Reads (λ x. x) self.old result self.new (varlong.read self.old) }
    {
        let read = read_groups(self.at, self.left, 9, 2)?;
        self.at = read.at;
        self.left = read.left;
        Ok(unzigzag64(read.number))
    }

    /// A signed number of 8 bits.
    pub fn i8(&mut self) -> Result<i8, ByteFault>
        ensures { Reads (λ x. x) self.old result self.new ((signed_number w8).read self.old) }
    {
        let bytes = self.part(1)?;
        Ok(i8::from_be_bytes([bytes[0]]))
    }

    /// A signed number of 16 bits.
    pub fn i16(&mut self) -> Result<i16, ByteFault>
        ensures { Reads (λ x. x) self.old result self.new ((signed_number w16).read self.old) }
    {
        let bytes = self.part(2)?;
        Ok(i16::from_be_bytes([bytes[0], bytes[1]]))
    }

    /// An unsigned number of 16 bits.
    pub fn u16(&mut self) -> Result<u16, ByteFault>
        ensures { Reads (λ x. x) self.old result self.new ((unsigned_number w16).read self.old) }
    {
        let bytes = self.part(2)?;
        Ok(u16::from_be_bytes([bytes[0], bytes[1]]))
    }

    /// A signed number of 32 bits.
    pub fn i32(&mut self) -> Result<i32, ByteFault>
        ensures { Reads (λ x. x) self.old result self.new ((signed_number w32).read self.old) }
    {
        let bytes = self.part(4)?;
        Ok(i32::from_be_bytes([bytes[0], bytes[1], bytes[2], bytes[3]]))
    }

    /// A signed number of 64 bits.
    pub fn i64(&mut self) -> Result<i64, ByteFault>
        ensures { Reads (λ x. x) self.old result self.new ((signed_number w64).read self.old) }
    {
        let bytes = self.part(8)?;
        Ok(i64::from_be_bytes([
            bytes[0], bytes[1], bytes[2], bytes[3], bytes[4], bytes[5], bytes[6], bytes[7],
        ]))
    }

    /// An id: 16 bytes.
    pub fn id(&mut self) -> Result<Id, ByteFault>
        ensures { Reads (λ x. x) self.old result self.new (id.read self.old) }
    {
        let part = self.part(16)?;
        let mut bytes = [0; 16];
        bytes.copy_from_slice(part);
        Ok(Id { bytes })
    }

    // A count and so many items of this size, or null.
    fn counted(&mut self, size: usize) -> Result<Option<&'a [u8]>, ByteFault>
        requires { size ≤ 4 }
        ensures { Reads (option_map (λ x. x.now)) self.old result self.new ((items_with_count size).read self.old) }
    {
        let at = self.at;
        let left = self.left;
        let count = self.uvarint()?;
        if count == 0 {
            return Ok(None);
        }
        match self.part(size * (count as usize - 1)) {
            Ok(items) => Ok(Some(items)),
            Err(fault) => {
                self.at = at;
                self.left = left;
                Err(fault)
            }
        }
    }

    /// Whether a null stands next.
    #[tactic(auto, unfolding(crate::specs::Groups::limit))]
    pub fn is_null(&self) -> bool
        ensures { result ≡ is_null self.now }
    {
        match read_groups(self.at, self.left, 4, 16) {
            Ok(read) => read.number == 0,
            Err(_) => false,
        }
    }

    /// The bytes of a text or `None`, which have to be UTF-8.
    pub fn nullable_text(&mut self) -> Result<Option<&'a [u8]>, ByteFault>
        ensures read { Reads (option_map (λ x. x.now)) self.old result self.new (nullable_text.read self.old) }
        ensures utf8 { IfOk result (λ text. IfSome text (λ x. IsUtf8 x.now)) }
    {
        let at = self.at;
        let left = self.left;
        match self.counted(1)? {
            None => Ok(None),
            Some(text) => match text_fault(text) {
                None => Ok(Some(text)),
                Some(place) => {
                    let fault = ByteFault::NotUtf8 {
                        at: self.at - text.len() + place,
                    };
                    self.at = at;
                    self.left = left;
                    Err(fault)
                }
            },
        }
    }

    /// Numbers of 32 bits, four bytes each, or `None`.
    pub fn ints(&mut self) -> Result<Option<&'a [u8]>, ByteFault>
        ensures { Reads (option_map (λ x. x.now)) self.old result self.new ((items_with_count 4).read self.old) }
    {
        self.counted(4)
    }

    /// The bytes of a text.
    pub fn text(&mut self) -> Result<&'a [u8], ByteFault>
        requires { is_null self.old ≡ false }
        ensures { Reads (λ x. Some x.now) self.old result self.new (nullable_text.read self.old) }
    {
        match self.nullable_text()? {
            Some(text) => Ok(text),
            None => unreachable!(),
        }
    }

    /// Bytes.
    pub fn byte_field(&mut self) -> Result<&'a [u8], ByteFault>
        requires { is_null self.old ≡ false }
        ensures { Reads (λ x. Some x.now) self.old result self.new (nullable_bytes.read self.old) }
    {
        match self.counted(1)? {
            Some(bytes) => Ok(bytes),
            None => unreachable!(),
        }
    }

    /// How many tags a tagged section has. Each is then read by `uvarint` for its number, `uvarint` for its length, and
    /// `part`.
    pub fn tags(&mut self) -> Result<u32, ByteFault>
        ensures { Reads (λ x. x) self.old result self.new (uvarint.read self.old) }
    {
        self.uvarint()
    }
}

// The signed number that this unsigned one stands for.
fn unzigzag32(number: u32) -> i32
    ensures { result ≡ unzigzag number }
{
    if number % 2 == 0 {
        (number / 2) as i32
    } else {
        -1 - (number / 2) as i32
    }
}

fn unzigzag64(number: u64) -> i64
    ensures { result ≡ unzigzag number }
{
    if number % 2 == 0 {
        (number / 2) as i64
    } else {
        -1 - (number / 2) as i64
    }
}
