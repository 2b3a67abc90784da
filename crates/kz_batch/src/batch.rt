//! A batch, read in place.
ghost use Rattle.std.specs.Prelude.{◌≡◌, ◌+◌, ◌<◌, ◌≤◌, ◌+ℤ◌, ◌==◌, length, drop, MatchResult, MatchOption, Ok, Err, [], ◌∷◌, option_map, slice_get, is_ok, true, false, pos, ◌-◌, ◌^◌};
ghost use Rattle.std.specs.Bool.{OnFalse};
ghost use Rattle.std.specs.Ordering.{int_eq};
ghost use Rattle.std.specs.Int.{w8, w16, w32, w64};
ghost use Rattle.kz_spec_data.specs.Batches.{number_at, signed_at, base_offset, stated_length, leader_epoch, magic, stated_sum, attributes, compression, is_control, last_delta, base_time, stated_count, holds_whole_batch, bytes_under_sum, summed_rest, is_short, values_of, batch_of, entry};
ghost use Rattle.kz_spec_data.specs.Forms.{items_at};
ghost use Rattle.kz_batch.specs.Answers.{values_in, HasValues};

use crate::records::{is_done, read_entry, read_records};
use kz_bytes::Reader;
use kz_crc::crc32c;
use kz_types::BatchFault;
use std::marker::Model;

// The numbers of the header, by their places.
fn number8(bytes: &[u8], at: usize) -> u8
    requires { at + 1 ≤ length bytes.now }
    ensures { result ≡ number_at w8 at bytes.now }
{
    let (_, rest) = bytes.split_at(at);
    let (field, _) = rest.split_at(1);
    u8::from_be_bytes([field[0]])
}

fn number16(bytes: &[u8], at: usize) -> u16
    requires { at + 2 ≤ length bytes.now }
    ensures { result ≡ number_at w16 at bytes.now }
{
    let (_, rest) = bytes.split_at(at);
    let (field, _) = rest.split_at(2);
    u16::from_be_bytes([field[0], field[1]])
}

fn number32(bytes: &[u8], at: usize) -> u32
    requires { at + 4 ≤ length bytes.now }
    ensures { result ≡ number_at w32 at bytes.now }
{
    let (_, rest) = bytes.split_at(at);
    let (field, _) = rest.split_at(4);
    u32::from_be_bytes([field[0], field[1], field[2], field[3]])
}

fn signed32(bytes: &[u8], at: usize) -> i32
    requires { at + 4 ≤ length bytes.now }
    ensures { result ≡ signed_at w32 at bytes.now }
{
    number32(bytes, at).cast_signed()
}

fn signed64(bytes: &[u8], at: usize) -> i64
    requires { at + 8 ≤ length bytes.now }
    ensures { result ≡ signed_at w64 at bytes.now }
{
    let (_, rest) = bytes.split_at(at);
    let (field, _) = rest.split_at(8);
    i64::from_be_bytes([
        field[0], field[1], field[2], field[3], field[4], field[5], field[6], field[7],
    ])
}

// Whether a stated length counts at least the header's rest and no more bytes than there are.
fn is_sized(stated: i32, size: usize) -> bool
    ensures { result ≡ holds_whole_batch stated size }
{
    if stated < 0 {
        false
    } else {
        let stated = stated as usize;
        49 <= stated && 12 + stated <= size
    }
}

fn is_short(bytes: &[u8]) -> bool
    ensures value { result ≡ is_short bytes.now }
    ensures long { OnFalse result (61 ≤ length bytes.now) }
{
    if bytes.len() < 61 {
        return true;
    }
    !is_sized(signed32(bytes, 8), bytes.len())
}

// The bytes that the sum is of.
fn summed(bytes: &[u8]) -> &[u8]
    requires { 61 ≤ length bytes.now }
    ensures { result.now ≡ bytes_under_sum bytes.now }
{
    let (_, rest) = bytes.split_at(21);
    summed_part(rest, signed32(bytes, 8))
}

fn summed_part(rest: &[u8], stated: i32) -> &[u8]
    ensures { result.now ≡ summed_rest rest.now stated }
{
    if stated < 0 {
        return &[];
    }
    let size = (stated as usize).saturating_sub(9);
    if size < rest.len() {
        let (part, _) = rest.split_at(size);
        part
    } else {
        rest
    }
}

// The method of compression.
fn compression(bytes: &[u8]) -> u8
    requires { 61 ≤ length bytes.now }
    ensures { result ≡ compression bytes.now }
{
    (number16(bytes, 21) % 8) as u8
}

fn is_control(bytes: &[u8]) -> bool
    requires { 61 ≤ length bytes.now }
    ensures { result ≡ is_control bytes.now }
{
    number16(bytes, 21) / 32 % 2 == 1
}

// Whether the batch ends where its length field says.
fn is_whole(bytes: &[u8]) -> bool
    requires { 61 ≤ length bytes.now }
    ensures { result ≡ int_eq (stated_length bytes.now) (pos (length bytes.now - 12)) }
{
    is_number(signed32(bytes, 8), bytes.len() - 12)
}

fn is_number(stated: i32, number: usize) -> bool
    requires { number < 2 ^ 63 }
    ensures { result ≡ int_eq stated (pos number) }
{
    stated as i64 == number as i64
}

// Whether the last delta is one less than this count.
fn counts_to(delta: i32, count: u32) -> bool
    ensures { result ≡ int_eq (delta +ℤ pos 1) (pos count) }
{
    delta as i64 + 1 == count as i64
}

// A reader in front of the records.
fn records_of(bytes: &[u8]) -> Reader<'_>
    requires { 61 ≤ length bytes.now }
    ensures { result ≡ record { at = 61; left = drop 61 bytes.now } }
{
    let mut reader = Reader::new(bytes);
    match reader.part(61) {
        Ok(_) => reader,
        Err(_) => unreachable!(),
    }
}

// How many values a batch that isn't a control batch has, once its records fill it in order.
fn count_plain(bytes: &[u8]) -> Result<u32, BatchFault>
    requires { 61 ≤ length bytes.now }
    ensures { MatchResult result (λ n. HasValues n (values_of false bytes.now) (record { at = 61; left = drop 61 bytes.now })) (λ e. values_of false bytes.now ≡ Err e) }
{
    let stated = signed32(bytes, 57);
    if stated < 0 {
        return Err(BatchFault::BadCount);
    }
    let count = stated as u32;
    let mut reader = records_of(bytes);
    let ordered = read_records(&mut reader, count)?;
    let fits = counts_to(signed32(bytes, 23), count);
    if !is_done(&mut reader) || !fits {
        return Err(BatchFault::BadCount);
    }
    if !ordered {
        return Err(BatchFault::BadOrder);
    }
    Ok(count)
}

// The same of a control batch, whose records aren't read: none.
#[tactic(auto, unfolding(kz_spec_data::specs::Forms::items_at))]
fn count_control(bytes: &[u8]) -> Result<u32, BatchFault>
    requires { 61 ≤ length bytes.now }
    ensures { MatchResult result (λ n. HasValues n (values_of true bytes.now) (record { at = 61; left = drop 61 bytes.now })) (λ e. values_of true bytes.now ≡ Err e) }
{
    if signed32(bytes, 23) < 0 {
        Err(BatchFault::BadCount)
    } else {
        Ok(0)
    }
}

/// A record batch, which lends its values where they lie.
#[derive(Drop)]
pub struct Batch<'a> {
    first: i64,
    epoch: i32,
    time: i64,
    last: i128,
    control: bool,
    count: u32,
    records: Reader<'a>,
}

impl<'a> Model for Batch<'a> {
    ghost use Rattle.std.specs.Prelude.{◌≡◌, true, is_ok};
    ghost use Rattle.kz_spec_data.specs.Forms.{items_at};
    ghost use Rattle.kz_spec_data.specs.Batches.{BatchContents, entry};
    ghost use Rattle.kz_batch.specs.Answers.{values_in};

    ghost Value = { BatchContents };

    ghost view = { λ b. record { first = b.first; epoch = b.epoch; time = b.time; last = b.last; control = b.control; values = values_in b.count b.records } };

    ghost invariant = { λ b. is_ok (items_at entry.read b.count b.records) ≡ true };
}

impl<'a> Batch<'a> {
    /// The batch that these bytes are, all of them. It takes no memory.
    ///
    /// The first fault in this order: the bytes end before the header or the stated length does, or that length is
    /// below 49; another format than 2; another sum; compression; records that don't fill the length in their count, or
    /// bytes after it; records out of order. The records of a control batch aren't read.
    #[tactic(auto, unfolding(kz_spec_data::specs::Batches::batch_of))]
    pub fn read(bytes: &'a [u8]) -> Result<Batch<'a>, BatchFault>
        ensures { MatchResult result (λ b. batch_of bytes.now ≡ Ok b) (λ e. batch_of bytes.now ≡ Err e) }
    {
        if is_short(bytes) {
            return Err(BatchFault::Short);
        }
        let byte = number8(bytes, 16);
        if byte != 2 {
            return Err(BatchFault::BadMagic { byte });
        }
        let stored = number32(bytes, 17);
        let computed = crc32c(summed(bytes));
        if stored != computed {
            return Err(BatchFault::BadCrc { stored, computed });
        }
        let bits = compression(bytes);
        if bits != 0 {
            return Err(BatchFault::Compressed { bits });
        }
        if !is_whole(bytes) {
            return Err(BatchFault::BadCount);
        }
        if is_control(bytes) {
            let count = count_control(bytes)?;
            Ok(Batch::made(bytes, true, count))
        } else {
            let count = count_plain(bytes)?;
            Ok(Batch::made(bytes, false, count))
        }
    }

    // The batch of these bytes, whose values have been counted.
    fn made(bytes: &'a [u8], control: bool, count: u32) -> Batch<'a>
        requires size { 61 ≤ length bytes.now }
        requires counted { is_ok (items_at entry.read count (record { at = 61; left = drop 61 bytes.now })) ≡ true }
        ensures { result ≡ record { first = base_offset bytes.now; epoch = leader_epoch bytes.now; time = base_time bytes.now; last = base_offset bytes.now +ℤ last_delta bytes.now; control = control; values = values_in count (record { at = 61; left = drop 61 bytes.now }) } }
    {
        Batch {
            first: signed64(bytes, 0),
            epoch: signed32(bytes, 12),
            time: signed64(bytes, 27),
            last: last_offset(signed64(bytes, 0), signed32(bytes, 23)),
            control,
            count,
            records: records_of(bytes),
        }
    }

    /// The offset of the first record.
    pub fn first(&self) -> i64
        ensures { result ≡ self.now.first }
    {
        self.first
    }

    /// The leader's epoch.
    pub fn epoch(&self) -> i32
        ensures { result ≡ self.now.epoch }
    {
        self.epoch
    }

    /// The base timestamp, in milliseconds.
    pub fn time(&self) -> i64
        ensures { result ≡ self.now.time }
    {
        self.time
    }

    /// The offset of the last record, which can pass 64 bits.
    pub fn last(&self) -> i128
        ensures { result ≡ self.now.last }
    {
        self.last
    }

    /// Whether it is a control batch.
    pub fn is_control(&self) -> bool
        ensures { result ≡ self.now.control }
    {
        self.control
    }

    /// The values in order, each lent where it lies.
    pub fn values(&self) -> Values<'a>
        ensures { result ≡ self.now.values }
    {
        Values {
            count: self.count,
            records: self.records.again(),
        }
    }

    /// The value of this index, lent.
    pub fn value(&self, index: usize) -> Option<&'a [u8]>
        ensures { option_map (λ x. x.now) result ≡ slice_get self.now.values index }
    {
        let mut values = self.values();
        let mut left = index;
        while let Some(value) = values.next() {
            if left == 0 {
                return Some(value);
            }
            left -= 1;
        }
        None
    }
}

// The sum of an offset and a delta.
fn last_offset(first: i64, delta: i32) -> i128
    ensures { result ≡ first +ℤ delta }
{
    first as i128 + delta as i128
}

/// The values of a batch that are still to come. It goes over the bytes once, and takes no memory.
#[derive(Drop)]
pub struct Values<'a> {
    count: u32,
    records: Reader<'a>,
}

impl<'a> Model for Values<'a> {
    ghost use Rattle.std.specs.Prelude.{◌≡◌, true, is_ok, List, ℕ};
    ghost use Rattle.kz_spec_data.specs.Forms.{items_at};
    ghost use Rattle.kz_spec_data.specs.Batches.{entry};
    ghost use Rattle.kz_batch.specs.Answers.{values_in};

    ghost Value = { List (List ℕ) };

    ghost view = { λ v. values_in v.count v.records };

    ghost invariant = { λ v. is_ok (items_at entry.read v.count v.records) ≡ true };
}

impl<'a> Values<'a> {
    /// The next value, lent where it lies.
    pub fn next(&mut self) -> Option<&'a [u8]>
        ensures { MatchOption result ((self.old ≡ []) × (self.new ≡ [])) (λ value. self.old ≡ value.now ∷ self.new) }
    {
        if self.count == 0 {
            return None;
        }
        match read_entry(&mut self.records) {
            Ok(found) => {
                self.count -= 1;
                Some(found.value)
            }
            Err(_) => unreachable!(),
        }
    }
}
