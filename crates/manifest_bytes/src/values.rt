//! The tagged bytes of a value.

ghost use Rattle.std.specs.Prelude.{◌≡◌, ◌++◌, ◌∷◌, [], ◌<◌, length, OnOk, IfOk, IfErr, IfSome, option_map};
ghost use Rattle.toml.specs.Data.{Data, depth};
ghost use Rattle.toml.specs.View.{view, array_view, table_view};
ghost use Rattle.manifest_bytes.specs.Numbers.{number_bytes};
ghost use Rattle.manifest_bytes.specs.Encoded.{text_bytes, boolean_tag, integer_bytes, part_bytes, date_bytes, second_bytes, time_bytes, offset_bytes, datetime_bytes, item_count, member_count, encoded, items_bytes, members_bytes};
ghost use Rattle.manifest_bytes.specs.declared.error.DecodeError.TheVariants.{TooDeep};
ghost use Rattle.manifest_bytes.specs.Held.{FitsValue};
ghost use Rattle.manifest_bytes.specs.Read.{ReadsWithin};

use crate::error::{DecodeError, Unread};
use crate::reading::{Reader, read_value};
use std::alloc::{AllocError, Global};
use std::num::f64_to_bits_with_nan;
use toml::{Table, Value};
use toml_datetime::{Date, Datetime, Offset, Time};

/// Appends a number as unsigned LEB128: groups of seven bits, the lowest first, with 128 added to each but the last.
/// After an error `out` may hold a part of it, as after an error of any function here.
#[tactic(auto, using(crate::proofs::NumberLemmas::number_steps))]
pub(crate) fn push_number(out: &mut Vec<u8>, number: u64) -> Result<(), AllocError>
    ensures { OnOk result (out.new.items ≡ out.old.items ++ number_bytes number) }
{
    let mut rest = number;
    while rest >= 128 {
        out.push((rest % 128) as u8 + 128)?;
        rest /= 128;
    }
    out.push(rest as u8)?;
    Ok(())
}

/// Appends a string without a tag: its length in bytes, as a number, and its bytes.
pub(crate) fn push_text(out: &mut Vec<u8>, text: &str) -> Result<(), AllocError>
    ensures { OnOk result (out.new.items ≡ out.old.items ++ text_bytes text.now) }
{
    push_number(out, text.len() as u64)?;
    out.extend_from_slice(text.as_bytes())
}

/// Appends a string with its tag: the byte 1, its length and its bytes.
pub(crate) fn push_string(out: &mut Vec<u8>, text: &str) -> Result<(), AllocError>
    ensures { OnOk result (out.new.items ≡ out.old.items ++ 1 ∷ text_bytes text.now) }
{
    out.push(1)?;
    push_text(out, text)
}

/// Appends a boolean, which is its tag alone: the byte 5 for true, 4 for false.
pub(crate) fn push_boolean(out: &mut Vec<u8>, flag: bool) -> Result<(), AllocError>
    ensures { OnOk result (out.new.items ≡ out.old.items ++ boolean_tag flag ∷ []) }
{
    out.push(if flag { 5 } else { 4 })?;
    Ok(())
}

/// Appends an integer with its tag: the byte 2 and the number, or the byte 3 and -1 minus the number, where it is below
/// 0; both as LEB128. After an error `out` may hold a part of it.
pub(crate) fn push_integer(out: &mut Vec<u8>, number: i64) -> Result<(), AllocError>
    ensures { OnOk result (out.new.items ≡ out.old.items ++ integer_bytes number) }
{
    if number >= 0 {
        out.push(2)?;
        push_number(out, number.unsigned_abs())
    } else {
        out.push(3)?;
        push_number(out, number.unsigned_abs() - 1)
    }
}

/// Appends a date: a byte for the month, a byte for the day, and the year as a number (LEB128). After an error `out`
/// may hold a part of it.
fn push_date(out: &mut Vec<u8>, date: Date) -> Result<(), AllocError>
    ensures { OnOk result (out.new.items ≡ out.old.items ++ date_bytes date) }
{
    out.push(date.month)?;
    out.push(date.day)?;
    push_number(out, u64::from(date.year))
}

/// Appends the seconds of a time: the byte 0 where they are absent, or 1 and a byte with the seconds. After an error
/// `out` may hold a part of it.
fn push_second(out: &mut Vec<u8>, second: Option<u8>) -> Result<(), AllocError>
    ensures { OnOk result (out.new.items ≡ out.old.items ++ part_bytes second_bytes second) }
{
    match second {
        None => out.push(0)?,
        Some(second) => {
            out.push(1)?;
            out.push(second)?;
        }
    }
    Ok(())
}

/// Appends the nanoseconds of a time: the byte 0 where they are absent, or 1 and a number (LEB128). After an error
/// `out` may hold a part of it.
fn push_nanosecond(out: &mut Vec<u8>, nanosecond: Option<u32>) -> Result<(), AllocError>
    ensures { OnOk result (out.new.items ≡ out.old.items ++ part_bytes number_bytes nanosecond) }
{
    match nanosecond {
        None => {
            out.push(0)?;
            Ok(())
        }
        Some(nanosecond) => {
            out.push(1)?;
            push_number(out, u64::from(nanosecond))
        }
    }
}

/// Appends a time: a byte for the hour, a byte for the minute, and the seconds and nanoseconds, each of which may be
/// absent. After an error `out` may hold a part of it.
fn push_time(out: &mut Vec<u8>, time: Time) -> Result<(), AllocError>
    ensures { OnOk result (out.new.items ≡ out.old.items ++ time_bytes time) }
{
    out.push(time.hour)?;
    out.push(time.minute)?;
    push_second(out, time.second)?;
    push_nanosecond(out, time.nanosecond)
}

/// Appends an offset: 0 for `Z`, 1 and the minutes, or 2 and -1 minus the minutes, where they are below 0.
fn push_offset(out: &mut Vec<u8>, offset: Offset) -> Result<(), AllocError>
    ensures { OnOk result (out.new.items ≡ out.old.items ++ offset_bytes offset) }
{
    match offset {
        Offset::Z => {
            out.push(0)?;
            Ok(())
        }
        Offset::Custom { minutes } => {
            if minutes >= 0 {
                out.push(1)?;
                push_number(out, u64::from(minutes.unsigned_abs()))
            } else {
                out.push(2)?;
                push_number(out, u64::from(minutes.unsigned_abs() - 1))
            }
        }
    }
}

/// Appends a date-time without its tag: date, time and offset, each of them 0 for none, or 1 and the part.
fn push_datetime(out: &mut Vec<u8>, datetime: Datetime) -> Result<(), AllocError>
    ensures { OnOk result (out.new.items ≡ out.old.items ++ datetime_bytes datetime) }
{
    match datetime.date {
        None => out.push(0)?,
        Some(date) => {
            out.push(1)?;
            push_date(out, date)?;
        }
    }
    match datetime.time {
        None => out.push(0)?,
        Some(time) => {
            out.push(1)?;
            push_time(out, time)?;
        }
    }
    match datetime.offset {
        None => {
            out.push(0)?;
            Ok(())
        }
        Some(offset) => {
            out.push(1)?;
            push_offset(out, offset)
        }
    }
}

/// Appends a value: its tag and what stands after it (`docs/LIBRARY.md`, Tagged bytes). After an error `out` may hold a
/// part of it.
#[cycle(bytes)]
pub(crate) fn push_value(out: &mut Vec<u8>, value: &Value) -> Result<(), AllocError>
    ensures { OnOk result (out.new.items ≡ out.old.items ++ encoded (view value.now)) }
{
    match value {
        Value::String(text) => push_string(out, text.as_str()),
        Value::Integer(number) => push_integer(out, *number),
        Value::Float(number) => {
            out.push(9)?;
            push_number(out, f64_to_bits_with_nan(*number))
        }
        Value::Boolean(flag) => push_boolean(out, *flag),
        Value::Datetime(datetime) => {
            out.push(6)?;
            push_datetime(out, *datetime)
        }
        Value::Array(items) => {
            out.push(7)?;
            push_items(out, items)
        }
        Value::Table(members) => {
            out.push(8)?;
            push_members(out, members)
        }
    }
}

/// Appends an array without its tag: how many items there are, as a number (LEB128), and each item with its tag. After
/// an error `out` may hold a part of it.
#[cycle(bytes)]
fn push_items(out: &mut Vec<u8>, items: &Vec<Value>) -> Result<(), AllocError>
    ensures { let ds = array_view items.now in
        OnOk result (out.new.items
        ≡ out.old.items ++ (number_bytes (item_count ds) ++ items_bytes ds)) }
{
    push_number(out, items.len() as u64)?;
    for item in items {
        push_value(out, item)?;
    }
    Ok(())
}

/// Appends a table without its tag: how many entries there are, as a number (LEB128), and of each entry the key without
/// a tag and the value with one. After an error `out` may hold a part of it.
#[cycle(bytes)]
fn push_members(out: &mut Vec<u8>, members: &Table) -> Result<(), AllocError>
    ensures { let ms = table_view members.now in
        OnOk result (out.new.items
        ≡ out.old.items ++ (number_bytes (member_count ms) ++ members_bytes ms)) }
{
    push_number(out, members.len() as u64)?;
    for (key, member) in members.iter() {
        push_text(out, key.as_str())?;
        push_value(out, member)?;
    }
    Ok(())
}

/// The tagged bytes of a value.
///
/// ```ignore
/// let value = Value::from_str(alloc, "[true, 300]")?;
/// let bytes = value_bytes(alloc, &value)?; // 7 2 5 2 172 2
/// ```
pub fn value_bytes(alloc: Global, value: &Value) -> Result<Vec<u8>, AllocError>
    ensures { IfOk result (λ bytes. bytes.items ≡ encoded (view value.now)) }
{
    let mut out = Vec::new(alloc);
    push_value(&mut out, value)?;
    Ok(out)
}

/// The value whose bytes these are: what is read of them is encoded again, and returned only if the bytes are equal. It
/// is `None` where they are the bytes of no value, as where a text is not UTF-8, or the keys of a table do not ascend.
/// Bytes of a value whose arrays and tables nest deeper than `deepest` are refused with [`DecodeError::TooDeep`]; so
/// are bytes of no value where they lead deeper before they are found to be invalid.
///
/// It is proved that a value which is returned has these bytes (`exact`). Of the bytes of a value nothing else is
/// answered than that value, where it nests at most `deepest` deep, and `TooDeep` where it nests deeper, unless memory
/// runs out (`inverse`); that holds of each value that [`each_value_fits`](crate::laws::each_value_fits) speaks of,
/// which are all. So `None` is only answered to bytes of no value, and `TooDeep` neither to those of a value that nests
/// at most `deepest` deep nor to `deepest` bytes or fewer (`deep`). Which of the two is answered to other bytes of no
/// value, and that the stack grows with `deepest` alone, is only tested.
///
/// ```ignore
/// let value = value_of_bytes(alloc, 128, &[7, 2, 5, 2, 172, 2])?; // `[true, 300]`
/// ```
pub fn value_of_bytes(
    alloc: Global,
    deepest: usize,
    bytes: &[u8],
) -> Result<Option<Value>, DecodeError>
    ensures exact { IfOk result (λ value. IfSome value (λ v. bytes.now ≡ encoded (view v))) }
    ensures inverse { (d : Data) → FitsValue d → bytes.now ≡ encoded d →
        ReadsWithin (depth d) deepest (λ v. view v ≡ d) result }
    ensures deep { IfErr result (λ error. error ≡ TooDeep → deepest < length bytes.now) }
{
    let mut reader = Reader { left: bytes };
    let value = match read_value(alloc, deepest, &mut reader) {
        Ok(value) => value,
        Err(Unread::Invalid) => return Ok(None),
        Err(Unread::Refused(error)) => return Err(error),
    };
    let again = value_bytes(alloc, &value)?;
    if again.as_slice() == bytes {
        Ok(Some(value))
    } else {
        drop(value);
        Ok(None)
    }
}
