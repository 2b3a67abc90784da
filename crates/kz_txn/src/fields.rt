//! The fields of a transaction, read from bytes.
ghost use Rattle.std.specs.Prelude.{◌≡◌, ◌+◌, ◌*◌, ◌^◌, ◌<◌, ◌≤◌, length, IfOk, MatchResult};
ghost use Rattle.std.specs.Int.{w32, w64};
ghost use Rattle.kz_spec_data.specs.Fields.{front};
ghost use Rattle.kz_spec_data.specs.Transactions.{goes_on, digits_at, int, count, byte_field, field_or_flaw, path, session, owner_of, owner, flag};
ghost use Rattle.kz_txn.specs.Reads.{Gives, Fails, TakesByte};

use crate::TxnFault;
use kz_bytes::{ByteFault, Reader};
use kz_types::{PathFault, Sequence, ZPath};
use std::alloc::Global;

/// The greatest session and owner.
pub const MAX_SESSION: u64 = 9_223_372_036_854_775_807;

/// The next byte, or none where no byte is left.
#[tactic(auto, using(crate::proofs::Numbers::first_byte, crate::proofs::Numbers::no_byte))]
pub fn next_byte(reader: &mut Reader) -> Option<u8>
    ensures { TakesByte result reader.old reader.new }
{
    match reader.part(1) {
        Ok(part) => Some(part[0]),
        Err(_) => None,
    }
}

// Whether some number of `size` more bytes, after those that make `so_far`, is from `least` to `most`.
fn goes_on(size: u8, so_far: u64, least: u64, most: u64) -> bool
    requires { size < 8 }
    ensures { result ≡ goes_on size so_far least most }
{
    let scale = 256u64.pow(size as u32);
    least / scale <= so_far && so_far <= most / scale
}

// The next byte of a number from `least` to `most`, after those that make `so_far` and before `more` others.
fn digit(reader: &mut Reader, more: u8, so_far: u64, least: u64, most: u64) -> Result<u64, TxnFault>
    requires more { more < 8 }
    requires room { so_far * 256 ^ (more + 1) ≤ most }
    ensures read { MatchResult result (λ x. digits_at (more + 1) so_far least most reader.old.at reader.old.left ≡ digits_at more x least most reader.new.at reader.new.left) (λ fault. Fails fault (digits_at (more + 1) so_far least most reader.old.at reader.old.left)) }
    ensures room { IfOk result (λ x. x * 256 ^ more ≤ most) }
    ensures end { IfOk result (λ x. more ≡ 0 → least ≤ x) }
{
    let at = reader.at();
    let Some(byte) = next_byte(reader) else {
        return Err(TxnFault::Malformed { at });
    };
    let number = so_far * 256 + byte as u64;
    if goes_on(more, number, least, most) {
        Ok(number)
    } else {
        Err(TxnFault::Malformed { at })
    }
}

/// A number from `least` to `most` of `size` bytes, the highest byte first.
pub fn within(reader: &mut Reader, size: u8, least: u64, most: u64) -> Result<u64, TxnFault>
    requires size { (0 < size) × (size ≤ 8) }
    ensures read { Gives (λ x. (x, reader.new)) result (digits_at size 0 least most reader.old.at reader.old.left) }
    ensures bound { IfOk result (λ x. (least ≤ x) × (x ≤ most)) }
{
    let mut number = 0;
    for i in 0..size {
        number = match digit(reader, size - (i + 1), number, least, most) {
            Ok(next) => next,
            Err(fault) => return Err(fault),
        };
    }
    Ok(number)
}

/// A number of 32 bits in two's complement.
pub fn int32(reader: &mut Reader) -> Result<i32, TxnFault>
    ensures { Gives (λ x. (x, reader.new)) result ((int w32).read reader.old) }
{
    let number = within(reader, 4, 0, 4_294_967_295)?;
    Ok((number as u32).cast_signed())
}

/// A number of 64 bits in two's complement.
pub fn int64(reader: &mut Reader) -> Result<i64, TxnFault>
    ensures { Gives (λ x. (x, reader.new)) result ((int w64).read reader.old) }
{
    let number = within(reader, 8, 0, u64::MAX)?;
    Ok(number.cast_signed())
}

/// A count of what follows.
pub fn count(reader: &mut Reader) -> Result<u32, TxnFault>
    ensures { Gives (λ x. (x, reader.new)) result (count.read reader.old) }
{
    let number = within(reader, 4, 0, 4_294_967_295)?;
    Ok(number as u32)
}

// So many bytes, lent.
fn part<'a>(reader: &mut Reader<'a>, size: u32) -> Result<&'a [u8], TxnFault>
    ensures read { Gives (λ x. (x.now, reader.new)) result (field_or_flaw ((front size).read reader.old)) }
    ensures place { IfOk result (λ x. length x.now ≤ reader.new.at) }
{
    match reader.part(size as usize) {
        Ok(bytes) => Ok(bytes),
        Err(ByteFault::Short { at }) => Err(TxnFault::Malformed { at }),
        Err(ByteFault::Overlong { at }) => Err(TxnFault::Malformed { at }),
        Err(ByteFault::NotUtf8 { at }) => Err(TxnFault::Malformed { at }),
    }
}

// A length, and so many bytes, lent.
fn lent_bytes<'a>(reader: &mut Reader<'a>) -> Result<&'a [u8], TxnFault>
    ensures read { Gives (λ x. (x.now, reader.new)) result (byte_field.read reader.old) }
    ensures place { IfOk result (λ x. length x.now ≤ reader.new.at) }
{
    let size = count(reader)?;
    part(reader, size)
}

/// A length, and so many bytes.
pub fn bytes(alloc: Global, reader: &mut Reader) -> Result<Sequence<u8>, TxnFault>
    ensures { Gives (λ x. (x, reader.new)) result (byte_field.read reader.old) }
{
    let lent = lent_bytes(reader)?;
    match Vec::from_slice(alloc, lent) {
        Ok(items) => Ok(Sequence::from_vec(items)),
        Err(_) => Err(TxnFault::NoMemory),
    }
}

/// The path of a znode.
pub fn path(alloc: Global, reader: &mut Reader) -> Result<ZPath, TxnFault>
    ensures { Gives (λ x. (x, reader.new)) result (path.read reader.old) }
{
    let lent = lent_bytes(reader)?;
    let start = reader.at() - lent.len();
    match ZPath::new(alloc, lent) {
        Ok(path) => Ok(path),
        Err(PathFault::BadName { at }) => Err(TxnFault::Malformed { at: start + at }),
        Err(PathFault::NoMemory) => Err(TxnFault::NoMemory),
    }
}

/// A session.
pub fn session(reader: &mut Reader) -> Result<i64, TxnFault>
    ensures { Gives (λ x. (x, reader.new)) result (session.read reader.old) }
{
    let number = within(reader, 8, 1, MAX_SESSION)?;
    Ok(number as i64)
}

// The session that this number names; none at 0.
#[tactic(auto, using(crate::proofs::Numbers::owner_some))]
fn owner_of(number: u64) -> Option<i64>
    requires { number < 2 ^ 63 }
    ensures { result ≡ owner_of number }
{
    if number == 0 {
        None
    } else {
        Some(number as i64)
    }
}

/// The session that a znode ends with, or none.
pub fn owner(reader: &mut Reader) -> Result<Option<i64>, TxnFault>
    ensures { Gives (λ x. (x, reader.new)) result (owner.read reader.old) }
{
    let number = within(reader, 8, 0, MAX_SESSION)?;
    Ok(owner_of(number))
}

/// A byte 0 or 1.
pub fn flag(reader: &mut Reader) -> Result<bool, TxnFault>
    ensures { Gives (λ x. (x, reader.new)) result (flag.read reader.old) }
{
    let number = within(reader, 1, 0, 1)?;
    Ok(number == 1)
}
