//! What is promised of the bytes. Each function is there for its contract, a law of the definitions, and returns at
//! once; but `each_value_fits` walks the value.

ghost use Rattle.manifest_schema.specs.Kinds.{tree_of};
ghost use Rattle.std.specs.Prelude.{IsTrue, FitsSigned};
ghost use Rattle.std.specs.Int.{w64};
ghost use Rattle.std.specs.Float.{binary64};
ghost use lib.Ieee.{fits};
ghost use Rattle.toml.specs.Data.{array, table};
ghost use Rattle.toml.specs.View.{view, array_view, table_view};
ghost use Rattle.manifest_bytes.specs.Held.{FitsText, FitsDatetime, FitsValue};
ghost use Rattle.manifest_bytes.specs.Laws.{EncodedIsDecoded, TableIsDecoded};

use manifest_schema::kinds::AnyKind;
use toml::{Table, Value};
use toml_datetime::Datetime;

/// A value without floats is what its bytes hold: `decoded` of `encoded` of it is the value, by these two definitions.
pub fn encoded_is_decoded()
    ensures { EncodedIsDecoded }
{}

/// The table of a well-formed manifest is what its bytes hold: it has no float, where none is written of metadata.
pub fn table_is_decoded<P: AnyKind, W: AnyKind>()
    ensures { TableIsDecoded (tree_of P.kind) (tree_of W.kind) }
{}

/// Each value is one that `FitsValue` admits, so that what is promised of these is promised of all. It walks the value,
/// since what is known of a part is known where it is read.
#[cycle(held)]
pub fn each_value_fits(value: &Value)
    ensures { FitsValue (view value.now) }
{
    match value {
        Value::String(text) => text_fits(text.as_str()),
        Value::Integer(number) => integer_fits(*number),
        Value::Float(number) => float_fits(*number),
        Value::Boolean(_) => {}
        Value::Datetime(datetime) => datetime_fits(*datetime),
        Value::Array(items) => items_fit(items),
        Value::Table(members) => members_fit(members),
    }
}

/// The items of an array fit.
#[cycle(held)]
fn items_fit(items: &Vec<Value>)
    ensures { FitsValue (array (array_view items.now)) }
{
    let _count = items.len();
    for item in items {
        each_value_fits(item);
    }
}

/// The entries of a table fit.
#[cycle(held)]
fn members_fit(members: &Table)
    ensures { FitsValue (table (table_view members.now)) }
{
    let _count = members.len();
    for (key, member) in members.iter() {
        text_fits(key.as_str());
        each_value_fits(member);
    }
}

/// Each text fits.
fn text_fits(text: &str)
    ensures { FitsText text.now }
{
    let _length = text.len();
}

/// Each integer fits.
fn integer_fits(number: i64)
    ensures { FitsSigned w64 number }
{}

/// Each float fits.
fn float_fits(number: f64)
    ensures { IsTrue (fits binary64 number) }
{}

/// Each date-time fits.
fn datetime_fits(datetime: Datetime)
    ensures { FitsDatetime datetime }
{}
