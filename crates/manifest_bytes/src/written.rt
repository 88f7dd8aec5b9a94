//! The tagged bytes of what is written.

ghost use Rattle.std.specs.Prelude.{◌≡◌, ◌++◌, OnOk, IfOk};
ghost use Rattle.manifest_written.specs.Written.{written_view, list_view, pairs_view};
ghost use Rattle.manifest_bytes.specs.Numbers.{number_bytes};
ghost use Rattle.manifest_bytes.specs.Encoded.{item_count, member_count, encoded, items_bytes, members_bytes};

use crate::values::{push_boolean, push_integer, push_number, push_string, push_text, push_value};
use manifest_written::Written;
use std::alloc::{AllocError, Global};

/// Appends what is written: the bytes of the value that it stands for. After an error `out` may hold a part of it.
#[cycle(written)]
#[tactic(auto, using(manifest_written::proofs::WrittenLemmas::written_levels))]
fn push_written(out: &mut Vec<u8>, written: &Written<'_>) -> Result<(), AllocError>
    ensures { OnOk result (out.new.items ≡ out.old.items ++ encoded (written_view written.now)) }
{
    match written {
        Written::Text(text) => push_string(out, text),
        Written::Integer(number) => push_integer(out, *number),
        Written::Boolean(flag) => push_boolean(out, *flag),
        Written::List(items) => {
            out.push(7)?;
            push_items(out, items.as_slice())
        }
        Written::Table(pairs) => {
            out.push(8)?;
            push_pairs(out, pairs.as_slice())
        }
        Written::Value(value) => push_value(out, value),
    }
}

/// Appends a list without its tag: how many items there are, and each item. After an error `out` may hold a part of it.
#[cycle(written)]
fn push_items(out: &mut Vec<u8>, items: &[Written<'_>]) -> Result<(), AllocError>
    ensures { let ds = list_view items.now in
        OnOk result (out.new.items
        ≡ out.old.items ++ (number_bytes (item_count ds) ++ items_bytes ds)) }
{
    push_number(out, items.len() as u64)?;
    for item in items {
        push_written(out, item)?;
    }
    Ok(())
}

/// Appends a table without its tag: how many entries there are, and of each the key and what is written under it. After
/// an error `out` may hold a part of it.
#[cycle(written)]
fn push_pairs(out: &mut Vec<u8>, pairs: &[(&str, Written<'_>)]) -> Result<(), AllocError>
    ensures { let ms = pairs_view pairs.now in
        OnOk result (out.new.items
        ≡ out.old.items ++ (number_bytes (member_count ms) ++ members_bytes ms)) }
{
    push_number(out, pairs.len() as u64)?;
    for (key, item) in pairs {
        push_text(out, key)?;
        push_written(out, item)?;
    }
    Ok(())
}

/// The tagged bytes of what is written, which are those of the value that it stands for: no such value is made. It fails
/// only when out of memory.
///
/// ```ignore
/// let items = Vec::from_array(alloc, [Written::Boolean(true), Written::Integer(300)])?;
/// let bytes = written_bytes(alloc, &Written::List(items))?; // 7 2 5 2 172 2
/// ```
pub fn written_bytes(alloc: Global, written: &Written<'_>) -> Result<Vec<u8>, AllocError>
    ensures { IfOk result (λ bytes. bytes.items ≡ encoded (written_view written.now)) }
{
    let mut out = Vec::new(alloc);
    push_written(&mut out, written)?;
    Ok(out)
}
