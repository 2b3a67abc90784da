//! Fields at the end of bytes.
ghost use Rattle.std.specs.Prelude.{◌≡◌, ◌+◌, ◌*◌, ◌<◌, ◌≤◌, ◌^◌, ◌++◌, List, ℕ, length, Some, IfSome, option_map, OnOk, OnErr};
ghost use Rattle.std.specs.Int.{w8, w16, w32, w64};
ghost use Rattle.kz_spec_data.specs.Fields.{Writes, groups_of, uvarint, varint, varlong, signed_number, unsigned_number, id, items_with_count, nullable_bytes, nullable_text, int_bytes, zigzag};
ghost use Rattle.kz_bytes.specs.Groups.{limit};

use kz_types::{Id, NoMemory};

// Appends a number of at most `more` bytes from 128 on and a last one. At `Err` some of them stand there.
#[tactic(auto, unfolding(kz_spec_data::specs::Fields::groups_of, crate::specs::Groups::limit))]
fn push_groups(out: &mut Vec<u8>, number: u64, more: u8) -> Result<(), NoMemory>
    requires { number < limit more 128 }
    ensures ok { OnOk result (out.new.items ≡ out.old.items ++ groups_of more number) }
    ensures err { OnErr result ((part : List ℕ) × (out.new.items ≡ out.old.items ++ part)) }
{
    if more == 0 || number < 128 {
        out.push(number as u8)?;
        return Ok(());
    }
    out.push((128 + number % 128) as u8)?;
    push_groups(out, number / 128, more - 1)
}

// How many bytes a number has, of which at most `more` stand before the last.
#[tactic(auto, unfolding(kz_spec_data::specs::Fields::groups_of, crate::specs::Groups::limit))]
fn groups_size(number: u64, more: u8) -> u8
    requires { more < 255 }
    ensures size { result ≡ length (groups_of more number) }
    ensures bound { result ≤ more + 1 }
{
    if more == 0 || number < 128 {
        return 1;
    }
    1 + groups_size(number / 128, more - 1)
}

/// How many bytes `put_uvarint` would write for a number, were it of 64 bits.
pub fn uvarint_size(number: u64) -> u8
    ensures size { result ≡ length (uvarint.written number) }
    ensures bound { result ≤ 10 }
{
    groups_size(number, 9)
}

// Appends a number of variable size.
#[tactic(auto, unfolding(crate::specs::Groups::limit))]
fn put_number(out: &mut Vec<u8>, number: u64) -> Result<(), NoMemory>
    ensures { Writes out.old.items result out.new.items (groups_of 9 number) }
{
    let len = out.len();
    match push_groups(out, number, 9) {
        Ok(()) => Ok(()),
        Err(fault) => {
            out.truncate(len);
            Err(fault)
        }
    }
}

// Appends bytes.
fn put_all(out: &mut Vec<u8>, bytes: &[u8]) -> Result<(), NoMemory>
    ensures { Writes out.old.items result out.new.items bytes.now }
{
    out.extend_from_slice(bytes)?;
    Ok(())
}

/// Appends an unsigned number of variable size.
pub fn put_uvarint(out: &mut Vec<u8>, v: u32) -> Result<(), NoMemory>
    ensures { Writes out.old.items result out.new.items (uvarint.written v) }
{
    put_number(out, v as u64)
}

/// Appends a signed number of variable size, of 32 bits.
pub fn put_varint(out: &mut Vec<u8>, v: i32) -> Result<(), NoMemory>
    ensures { Writes out.old.items result out.new.items (varint.written v) }
{
    put_number(out, zigzag(v as i64))
}

/// Appends a signed number of variable size, of 64 bits.
pub fn put_varlong(out: &mut Vec<u8>, v: i64) -> Result<(), NoMemory>
    ensures { Writes out.old.items result out.new.items (varlong.written v) }
{
    put_number(out, zigzag(v))
}

// The unsigned number that stands for this one.
fn zigzag(v: i64) -> u64
    ensures { result ≡ zigzag v }
{
    if v >= 0 {
        2 * (v as u64)
    } else {
        2 * ((-1 - v) as u64) + 1
    }
}

/// Appends a signed number of 8 bits.
pub fn put_i8(out: &mut Vec<u8>, v: i8) -> Result<(), NoMemory>
    ensures { Writes out.old.items result out.new.items ((signed_number w8).written v) }
{
    put_all(out, &v.to_be_bytes())
}

/// Appends a signed number of 16 bits.
pub fn put_i16(out: &mut Vec<u8>, v: i16) -> Result<(), NoMemory>
    ensures { Writes out.old.items result out.new.items ((signed_number w16).written v) }
{
    put_all(out, &v.to_be_bytes())
}

/// Appends an unsigned number of 16 bits.
pub fn put_u16(out: &mut Vec<u8>, v: u16) -> Result<(), NoMemory>
    ensures { Writes out.old.items result out.new.items ((unsigned_number w16).written v) }
{
    put_all(out, &v.to_be_bytes())
}

/// Appends a signed number of 32 bits.
pub fn put_i32(out: &mut Vec<u8>, v: i32) -> Result<(), NoMemory>
    ensures { Writes out.old.items result out.new.items ((signed_number w32).written v) }
{
    put_all(out, &v.to_be_bytes())
}

/// Appends a signed number of 64 bits.
pub fn put_i64(out: &mut Vec<u8>, v: i64) -> Result<(), NoMemory>
    ensures { Writes out.old.items result out.new.items ((signed_number w64).written v) }
{
    put_all(out, &v.to_be_bytes())
}

/// Appends an id: 16 bytes.
pub fn put_id(out: &mut Vec<u8>, v: &Id) -> Result<(), NoMemory>
    ensures { Writes out.old.items result out.new.items (id.written v.now) }
{
    put_all(out, &v.bytes)
}

/// Appends bytes.
pub fn put_byte_field(out: &mut Vec<u8>, v: &[u8]) -> Result<(), NoMemory>
    requires { length v.now + 1 < 2 ^ 32 }
    ensures { Writes out.old.items result out.new.items (nullable_bytes.written (Some v.now)) }
{
    let len = out.len();
    put_number(out, v.len() as u64 + 1)?;
    match put_all(out, v) {
        Ok(()) => Ok(()),
        Err(fault) => {
            out.truncate(len);
            Err(fault)
        }
    }
}

/// Appends a text.
pub fn put_text(out: &mut Vec<u8>, v: &[u8]) -> Result<(), NoMemory>
    requires { length v.now + 1 < 2 ^ 32 }
    ensures { Writes out.old.items result out.new.items (nullable_text.written (Some v.now)) }
{
    put_byte_field(out, v)
}

/// Appends a text, or a null.
pub fn put_nullable_text(out: &mut Vec<u8>, v: Option<&[u8]>) -> Result<(), NoMemory>
    requires { IfSome v (λ text. length text.now + 1 < 2 ^ 32) }
    ensures { Writes out.old.items result out.new.items (nullable_text.written (option_map (λ x. x.now) v.entry)) }
{
    match v {
        Some(text) => put_text(out, text),
        None => put_all(out, &[0]),
    }
}

// Appends numbers of 32 bits. At `Err` some of them stand there.
fn push_ints(out: &mut Vec<u8>, v: &[i32]) -> Result<(), NoMemory>
    ensures ok { OnOk result (out.new.items ≡ out.old.items ++ int_bytes v.now) }
    ensures err { OnErr result ((part : List ℕ) × (out.new.items ≡ out.old.items ++ part)) }
{
    for number in v {
        put_i32(out, *number)?;
    }
    Ok(())
}

/// Appends a list of numbers of 32 bits, or a null.
pub fn put_ints(out: &mut Vec<u8>, v: Option<&[i32]>) -> Result<(), NoMemory>
    requires { IfSome v (λ numbers. length numbers.now + 1 < 2 ^ 32) }
    ensures { Writes out.old.items result out.new.items ((items_with_count 4).written (option_map (λ x. int_bytes x.now) v.entry)) }
{
    match v {
        Some(numbers) => {
            let len = out.len();
            put_number(out, numbers.len() as u64 + 1)?;
            match push_ints(out, numbers) {
                Ok(()) => Ok(()),
                Err(fault) => {
                    out.truncate(len);
                    Err(fault)
                }
            }
        }
        None => put_all(out, &[0]),
    }
}
