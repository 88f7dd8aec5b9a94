//! Copies of texts.

ghost use Rattle.std.specs.Prelude.{◌≡◌, ◌∷◌, [], IfOk, map, option_map, string_bytes};
ghost use Rattle.std.specs.Option.{option_copied};

use std::alloc::{AllocError, Global};

/// A copy of the text in an option; `None` for `None`.
pub fn copy_optional_text(alloc: Global, text: Option<&str>) -> Result<Option<String>, AllocError>
    ensures { IfOk result (λ o. option_map string_bytes o ≡ option_copied text.entry) }
{
    match text {
        Some(text) => Ok(Some(String::from_str(alloc, text)?)),
        None => Ok(None),
    }
}

/// A list whose only item is a copy of the text.
pub fn one_text(alloc: Global, text: &str) -> Result<Vec<String>, AllocError>
    ensures { IfOk result (λ v. map string_bytes v.items ≡ text.now ∷ []) }
{
    let mut list = Vec::new(alloc);
    list.push(String::from_str(alloc, text)?)?;
    Ok(list)
}
