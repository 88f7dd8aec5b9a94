//! How deep a table is.

ghost use Rattle.std.specs.Prelude.{◌≡◌, min};
ghost use Rattle.toml.specs.Data as spec;
ghost use Rattle.toml.specs.View.{view, array_view, table_view};

use toml::{Table, Value};

/// How deep arrays and tables nest in a value, counted up to `limit`: 0 of any other value, 1 of an array of those.
#[cycle(depth)]
fn value_depth(value: &Value, limit: usize) -> usize
    ensures { result ≡ min limit (spec.depth (view value.now)) }
{
    if limit == 0 {
        return 0;
    }
    match value {
        Value::Array(items) => items_depth(items, limit - 1) + 1,
        Value::Table(members) => depth(members, limit - 1) + 1,
        _ => 0,
    }
}

/// How deep arrays and tables nest in the items of an array, counted up to a limit.
#[cycle(depth)]
fn items_depth(items: &Vec<Value>, limit: usize) -> usize
    ensures { result ≡ min limit (spec.items_depth (array_view items.now)) }
{
    let mut deepest = 0;
    for item in items {
        deepest = deepest.max(value_depth(item, limit));
    }
    deepest
}

/// How deep arrays and tables nest in a table, counted up to a limit. What is deeper is not looked at, so its calls go
/// no deeper than the limit (which no contract says).
///
/// ```ignore
/// let found = depth(&table, 80); // of `a = [[1], { b = 2 }]` 2, as with the limit 2; with the limit 1 it is 1
/// ```
#[cycle(depth)]
pub fn depth(table: &Table, limit: usize) -> usize
    ensures { result ≡ min limit (spec.members_depth (table_view table.now)) }
{
    let mut deepest = 0;
    for (_key, member) in table.iter() {
        deepest = deepest.max(value_depth(member, limit));
    }
    deepest
}
