//! Values that are the same data.

ghost use Rattle.std.specs.Prelude.{◌≡◌, ◌↔◌, IsTrue, string_bytes};
ghost use Rattle.toml.specs.View.{view, items_view, table_view};

use std::num::f64_to_bits_with_nan;
use toml::value::{Date, Datetime, Offset, Time};
use toml::{Table, Value};

/// Whether the two values are the same data. Floats are compared by their bits: `-0.0` is not `0.0`, and NaN is NaN.
///
/// ```ignore
/// let same = same_value(&Value::Integer(1), &Value::Float(1.0)); // false
/// ```
#[cycle(same)]
pub fn same_value(a: &Value, b: &Value) -> bool
    ensures { IsTrue result ↔ (view a.now ≡ view b.now) }
{
    match a {
        Value::String(x) => match b.as_str() {
            Some(y) => x.as_str() == y,
            None => false,
        },
        Value::Integer(x) => match b.as_integer() {
            Some(y) => *x == y,
            None => false,
        },
        Value::Float(x) => match b.as_float() {
            Some(y) => same_float(*x, y),
            None => false,
        },
        Value::Boolean(x) => match b.as_bool() {
            Some(y) => *x == y,
            None => false,
        },
        Value::Datetime(x) => match b.as_datetime() {
            Some(y) => same_datetime(*x, *y),
            None => false,
        },
        Value::Array(x) => match b.as_array() {
            Some(y) => same_items(x.as_slice(), y.as_slice()),
            None => false,
        },
        Value::Table(x) => match b.as_table() {
            Some(y) => same_members(x, y),
            None => false,
        },
    }
}

fn same_datetime(a: Datetime, b: Datetime) -> bool
    ensures { IsTrue result ↔ (a ≡ b) }
{
    same_date(a.date, b.date) && same_time(a.time, b.time) && same_offset(a.offset, b.offset)
}

fn same_date(a: Option<Date>, b: Option<Date>) -> bool
    ensures { IsTrue result ↔ (a ≡ b) }
{
    match a {
        None => b.is_none(),
        Some(x) => match b {
            None => false,
            Some(y) => x.year == y.year && x.month == y.month && x.day == y.day,
        },
    }
}

fn same_time(a: Option<Time>, b: Option<Time>) -> bool
    ensures { IsTrue result ↔ (a ≡ b) }
{
    match a {
        None => b.is_none(),
        Some(x) => match b {
            None => false,
            Some(y) => {
                x.hour == y.hour
                    && x.minute == y.minute
                    && same_second(x.second, y.second)
                    && same_nanosecond(x.nanosecond, y.nanosecond)
            }
        },
    }
}

fn same_second(a: Option<u8>, b: Option<u8>) -> bool
    ensures { IsTrue result ↔ (a ≡ b) }
{
    match a {
        None => b.is_none(),
        Some(x) => match b {
            None => false,
            Some(y) => x == y,
        },
    }
}

fn same_nanosecond(a: Option<u32>, b: Option<u32>) -> bool
    ensures { IsTrue result ↔ (a ≡ b) }
{
    match a {
        None => b.is_none(),
        Some(x) => match b {
            None => false,
            Some(y) => x == y,
        },
    }
}

fn same_offset(a: Option<Offset>, b: Option<Offset>) -> bool
    ensures { IsTrue result ↔ (a ≡ b) }
{
    match a {
        None => b.is_none(),
        Some(x) => match b {
            None => false,
            Some(y) => match x {
                Offset::Z => match y {
                    Offset::Z => true,
                    Offset::Custom { .. } => false,
                },
                Offset::Custom { minutes } => match y {
                    Offset::Z => false,
                    Offset::Custom { minutes: others } => minutes == others,
                },
            },
        },
    }
}

fn same_float(a: f64, b: f64) -> bool
    ensures { IsTrue result ↔ (a ≡ b) }
{
    f64_to_bits_with_nan(a) == f64_to_bits_with_nan(b)
}

#[cycle(same)]
fn same_items(a: &[Value], b: &[Value]) -> bool
    ensures { IsTrue result ↔ (items_view a.now ≡ items_view b.now) }
{
    if a.len() != b.len() {
        return false;
    }
    for i in 0..a.len() {
        if !same_value(&a[i], &b[i]) {
            return false;
        }
    }
    true
}

#[cycle(same)]
fn same_members(a: &Table, b: &Table) -> bool
    ensures { IsTrue result ↔ (table_view a.now ≡ table_view b.now) }
{
    let mut others = b.iter();
    for (key, member) in a.iter() {
        match others.next() {
            None => return false,
            Some((name, other)) => {
                if !same_name(key, name) || !same_value(member, other) {
                    return false;
                }
            }
        }
    }
    others.next().is_none()
}

/// Whether the two texts are the same.
fn same_name(a: &String, b: &String) -> bool
    ensures { IsTrue result ↔ (string_bytes a.now ≡ string_bytes b.now) }
{
    a.as_str() == b.as_str()
}
