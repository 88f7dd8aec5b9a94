//! Reads a value from tagged bytes: the way back from `values`. Of each reader `reads` says that what fits is read
//! where its bytes stand, and that what was after them is left. `held` says of what is read that it is what the bytes
//! hold, but not that they are the bytes of it: a number may be written longer than needed, and the keys of a table in
//! any order. So `value_of_bytes` encodes the result again, and returns it only if the bytes are equal. By `shrinks` no
//! more is left than there was, and what is too deep has more than `deepest` bytes.

ghost use Rattle.std.specs.Prelude.{◌≡◌, ℕ, ◌+◌, ◌<◌, ◌^◌, List, ◌∷◌, ◌++◌, length, ◌≤◌, Bool, IfSome, IsSomeAnd, IfOk, IfErr, OnOk, IsTrue, option_map, option_copied, string_bytes, alloc_error};
ghost use Rattle.std.specs.BTreeMap.{insert_entry};
ghost use Rattle.std.specs.String.{string_cmp};
ghost use Rattle.toml.specs.Data.{Data, array, table, depth, Items, items_depth, Members, members_depth};
ghost use Rattle.toml.specs.View.{view, array_view, table_view};
ghost use Rattle.manifest_bytes.specs.declared.error.DecodeError.TheVariants.{TooDeep, Memory};
ghost use Rattle.manifest_bytes.specs.declared.error.Unread.TheVariants.{Refused};
ghost use Rattle.manifest_bytes.specs.Numbers.{Taken, number_bytes, take_number};
ghost use Rattle.manifest_bytes.specs.Decoded.{take_byte, take_text, take_part, take_date, take_time, take_offset, take_datetime};
ghost use Rattle.manifest_bytes.specs.Encoded.{text_bytes, part_bytes, date_bytes, second_bytes, time_bytes, offset_bytes, datetime_bytes, item_count, member_count, encoded, items_bytes, members_bytes};
ghost use Rattle.manifest_bytes.specs.Held.{FitsText, FitsDate, FitsTime, FitsOffset, FitsDatetime, FitsValue, FitItems, FitMembers};
ghost use Rattle.manifest_bytes.specs.Read.{IsNext, Reads, is_simple, IsTaken, take_simple, ReadsTo, Shrinks};

use crate::error::{DecodeError, Unread};
use std::alloc::{AllocError, Global};
use std::num::f64_from_bits_with_nan;
use toml::{Table, Value};
use toml_datetime::{Date, Datetime, Offset, Time};

/// The bytes that are still to be read. Each method returns what stands at their beginning, and moves past it; `None`
/// where that is not there.
#[derive(Drop)]
pub(crate) struct Reader<'a> {
    pub(crate) left: &'a [u8],
}

impl<'a> Reader<'a> {
    /// The next byte, which is then passed; `None` at the end.
    fn byte(&mut self) -> Option<u8>
        ensures { IsNext self.old.left.now result self.new.left.now }
    {
        let (first, left) = self.left.split_first()?;
        self.left = left;
        Some(*first)
    }

    /// A number: unsigned LEB128, ten bytes at most; `None` if the bytes end or it exceeds `u64`. A form that is longer
    /// than needed passes here, and is refused by `value_of_bytes`.
    fn number(&mut self) -> Option<u64>
        ensures reads { Reads (λ n. n < 2 ^ 64) number_bytes
            self.old.left.now result self.new.left.now }
        ensures held { IsTaken take_number self.old.left.now result self.new.left.now }
    {
        let mut number: u64 = 0;
        let mut unit: u64 = 1;
        loop {
            let byte = self.byte()?;
            number = number.checked_add(u64::from(byte % 128).checked_mul(unit)?)?;
            if byte < 128 {
                return Some(number);
            }
            unit = unit.checked_mul(128)?;
        }
    }

    /// A string without its tag: its length in bytes, and the bytes; `None` where they end too early or are not UTF-8.
    fn text(&mut self) -> Option<&'a str>
        ensures reads { let read = option_copied result in
            Reads FitsText text_bytes self.old.left.now read self.new.left.now }
        ensures held { let read = option_copied result in
            IsTaken take_text self.old.left.now read self.new.left.now }
    {
        let length = usize::try_from(self.number()?).ok()?;
        let (text, left) = self.left.split_at_checked(length)?;
        self.left = left;
        std::str::from_utf8(text).ok()
    }

    /// A part that may be left out: `Some(None)` of the byte 0, `Some(Some(part))` of the byte 1 and the part, and
    /// `None` where the bytes are neither.
    fn part<T: Part>(&mut self) -> Option<Option<T>>
        ensures reads { Reads (λ part. IfSome part T.fits) (part_bytes T.bytes)
            self.old.left.now result self.new.left.now }
        ensures held { IsTaken (take_part T.take) self.old.left.now result self.new.left.now }
    {
        match self.byte()? {
            0 => Some(None),
            1 => Some(Some(T::read(self)?)),
            _ => None,
        }
    }

    /// A date-time without its tag: date, time and offset, each of which may be absent.
    fn datetime(&mut self) -> Option<Datetime>
        ensures reads { Reads FitsDatetime datetime_bytes
            self.old.left.now result self.new.left.now }
        ensures held { IsTaken take_datetime self.old.left.now result self.new.left.now }
    {
        let date = self.part()?;
        let time = self.part()?;
        let offset = self.part()?;
        Some(Datetime { date, time, offset })
    }

    /// What stands after `tag`, of an integer, a boolean, a date-time or a float; `None` for any other tag.
    #[inline(never)]
    fn simple(&mut self, tag: u8) -> Option<Value>
        ensures reads { (d : Data) (rest : List ℕ) → FitsValue d → IsTrue (is_simple d) →
            tag ∷ self.old.left.now ≡ encoded d ++ rest →
            IsSomeAnd result (λ v. view v ≡ d) × (self.new.left.now ≡ rest) }
        ensures held { let read = option_map (λ v. view v) result in
            IsTaken (take_simple tag) self.old.left.now read self.new.left.now }
    {
        match tag {
            2 => Some(Value::Integer(i64::try_from(self.number()?).ok()?)),
            3 => Some(Value::Integer(!i64::try_from(self.number()?).ok()?)),
            4 => Some(Value::Boolean(false)),
            5 => Some(Value::Boolean(true)),
            6 => Some(Value::Datetime(self.datetime()?)),
            9 => Some(Value::Float(f64_from_bits_with_nan(self.number()?))),
            _ => None,
        }
    }
}

/// What may be left out of a date-time or of a time: how it is read without the byte that says whether it is there.
trait Part: Sized {
    /// Whether a part is one that the type holds.
    ghost fits: { Self → Type 0 };

    /// The bytes of a part.
    ghost bytes: { Self → List ℕ };

    /// The part that some bytes begin with, and what is left of them.
    ghost take: { List ℕ → Taken Self };

    /// Reads a part; `None` where the bytes are not those of one.
    fn read(reader: &mut Reader<'_>) -> Option<Self>
        ensures reads { Reads fits bytes reader.old.left.now result reader.new.left.now }
        ensures held { IsTaken take reader.old.left.now result reader.new.left.now };
}

/// The seconds of a time: a byte.
impl Part for u8 {
    ghost fits = { λ second. second < 2 ^ 8 };

    ghost bytes = { second_bytes };

    ghost take = { take_byte };

    fn read(reader: &mut Reader<'_>) -> Option<u8> {
        reader.byte()
    }
}

/// The nanoseconds of a time: a number.
impl Part for u32 {
    ghost fits = { λ nanosecond. nanosecond < 2 ^ 32 };

    ghost bytes = { number_bytes };

    ghost take = { take_number };

    fn read(reader: &mut Reader<'_>) -> Option<u32> {
        u32::try_from(reader.number()?).ok()
    }
}

/// A byte for the month, a byte for the day, and the year as a number.
impl Part for Date {
    ghost fits = { FitsDate };

    ghost bytes = { date_bytes };

    ghost take = { take_date };

    fn read(reader: &mut Reader<'_>) -> Option<Date> {
        let month = reader.byte()?;
        let day = reader.byte()?;
        let year = u16::try_from(reader.number()?).ok()?;
        Some(Date { year, month, day })
    }
}

/// A byte for the hour, a byte for the minute, then the seconds and the nanoseconds, each of which may be absent.
impl Part for Time {
    ghost fits = { FitsTime };

    ghost bytes = { time_bytes };

    ghost take = { take_time };

    fn read(reader: &mut Reader<'_>) -> Option<Time> {
        let hour = reader.byte()?;
        let minute = reader.byte()?;
        let second = reader.part()?;
        let nanosecond = reader.part()?;
        Some(Time {
            hour,
            minute,
            second,
            nanosecond,
        })
    }
}

/// 0 for `Z`, 1 and the minutes, or 2 and -1 minus the minutes, where they are below 0.
impl Part for Offset {
    ghost fits = { FitsOffset };

    ghost bytes = { offset_bytes };

    ghost take = { take_offset };

    fn read(reader: &mut Reader<'_>) -> Option<Offset> {
        match reader.byte()? {
            0 => Some(Offset::Z),
            1 => {
                let minutes = i16::try_from(reader.number()?).ok()?;
                Some(Offset::Custom { minutes })
            }
            2 => {
                let minutes = i16::try_from(reader.number()?).ok()?;
                Some(Offset::Custom { minutes: !minutes })
            }
            _ => None,
        }
    }
}

/// Reads a string without its tag, as [`Reader::text`] does, and copies it.
#[inline(never)]
fn read_text(alloc: Global, reader: &mut Reader<'_>) -> Result<Option<String>, AllocError>
    ensures reads { IfOk result (λ text. let read = option_map (λ s. string_bytes s) text in
        Reads FitsText text_bytes reader.old.left.now read reader.new.left.now) }
    ensures shrinks { IfOk result (λ text. IfSome text (λ s.
        length reader.new.left.now ≤ length reader.old.left.now)) }
{
    match reader.text() {
        Some(text) => Ok(Some(String::from_str(alloc, text)?)),
        None => Ok(None),
    }
}

/// The depth that is left for the values inside an array or a table: one less. Refuses with `TooDeep` where none is
/// left.
fn inside(deepest: usize) -> Result<usize, Unread>
    ensures less { IfOk result (λ inside. inside + 1 ≡ deepest) }
    ensures refused { IfErr result (λ error. (deepest ≡ 0) × (error ≡ Refused TooDeep)) }
{
    if deepest == 0 {
        Err(Unread::Refused(DecodeError::TooDeep))
    } else {
        Ok(deepest - 1)
    }
}

/// Reads a value with its tag. Refuses with `TooDeep` where its arrays and tables nest deeper than `deepest`, which
/// takes more than `deepest` bytes, and when out of memory.
#[cycle(reading)]
pub(crate) fn read_value(
    alloc: Global,
    deepest: usize,
    reader: &mut Reader<'_>,
) -> Result<Value, Unread>
    ensures reads { (d : Data) (rest : List ℕ) → FitsValue d →
        reader.old.left.now ≡ encoded d ++ rest →
        ReadsTo (depth d) deepest
        (λ v. (view v ≡ d) × (reader.new.left.now ≡ rest)) result }
    ensures shrinks { Shrinks deepest reader.old.left.now result reader.new.left.now }
{
    match reader.byte() {
        Some(1) => match read_text(alloc, reader)? {
            Some(text) => Ok(Value::String(text)),
            None => Err(Unread::Invalid),
        },
        Some(7) => Ok(Value::Array(read_items(alloc, inside(deepest)?, reader)?)),
        Some(8) => Ok(Value::Table(read_members(alloc, inside(deepest)?, reader)?)),
        Some(tag) => reader.simple(tag).ok_or(Unread::Invalid),
        None => Err(Unread::Invalid),
    }
}

/// Reads an array without its tag: how many items there are, as a number, and the items, whose arrays and tables may
/// nest `deepest` deep. (It is compiled apart from [`read_value`], so that a value takes the stack of one kind alone.)
#[inline(never)]
#[cycle(reading)]
fn read_items(alloc: Global, deepest: usize, reader: &mut Reader<'_>) -> Result<Vec<Value>, Unread>
    ensures reads { (ds : Items) (rest : List ℕ) → FitsValue (array ds) →
        reader.old.left.now ≡ (number_bytes (item_count ds) ++ items_bytes ds) ++ rest →
        ReadsTo (items_depth ds) deepest
        (λ v. (array_view v ≡ ds) × (reader.new.left.now ≡ rest)) result }
    ensures shrinks { Shrinks deepest reader.old.left.now result reader.new.left.now }
{
    let mut items = Vec::new(alloc);
    let count = reader.number().ok_or(Unread::Invalid)?;
    for _ in 0..count {
        let item = read_value(alloc, deepest, reader)?;
        items.push(item)?;
    }
    Ok(items)
}

/// Puts an entry into a table, in the place of one of the same key. (It is compiled apart, as [`read_items`] is.)
#[inline(never)]
fn put(members: &mut Table, key: String, member: Value) -> Result<(), Unread>
    ensures put { OnOk result
        (members.new.entries ≡ insert_entry string_cmp members.old.entries key member) }
    ensures refused { IfErr result (λ error. error ≡ Refused (Memory alloc_error)) }
{
    let _former = members.insert(key, member)?;
    Ok(())
}

/// Reads a table without its tag: how many entries there are, and each key with its value. A key that stands twice
/// passes here, and is refused by `value_of_bytes`. (It is compiled apart, as [`read_items`] is.)
#[inline(never)]
#[cycle(reading)]
fn read_members(alloc: Global, deepest: usize, reader: &mut Reader<'_>) -> Result<Table, Unread>
    ensures reads { (ms : Members) (rest : List ℕ) → FitsValue (table ms) →
        reader.old.left.now ≡ (number_bytes (member_count ms) ++ members_bytes ms) ++ rest →
        ReadsTo (members_depth ms) deepest
        (λ m. (table_view m ≡ ms) × (reader.new.left.now ≡ rest)) result }
    ensures shrinks { Shrinks deepest reader.old.left.now result reader.new.left.now }
{
    let mut members = Table::new(alloc);
    let count = reader.number().ok_or(Unread::Invalid)?;
    for _ in 0..count {
        let Some(key) = read_text(alloc, reader)? else {
            return Err(Unread::Invalid);
        };
        let member = read_value(alloc, deepest, reader)?;
        put(&mut members, key, member)?;
    }
    Ok(members)
}
