//! Calls without an input: the examples of comments, and what needs a type or a value of its own.

use crate::lines::{finished, keep, keep_refusal, push_line};
use crate::{errors, examples_of_manifests, examples_of_parts, findings, rows, targets, walks};
use manifest_json::Text;
use std::alloc::Global;

/// Writes the answer of a call on keys, on values or on the rows of a walk.
fn push_of_walks(alloc: Global, of: &str, out: &mut Text) {
    match of {
        "keys" => keep(walks::push_keys(alloc, out), out),
        "sources" => keep(walks::push_sources(alloc, out), out),
        "readers" => walks::push_readers(alloc, out),
        "unfit" => walks::push_unfit(alloc, out),
        _ => push_line("there is no call of this name", out),
    }
}

/// Writes the answer of a call on flags, targets, dates or errors.
fn push_of_values(alloc: Global, of: &str, out: &mut Text) {
    match of {
        "flag" => keep_refusal(
            alloc,
            examples_of_manifests::push_example_of_flags(alloc, out),
            out,
        ),
        "flags" => keep(targets::push_changed_flags(alloc, out), out),
        "legacy" => targets::push_legacy(out),
        "targets" => keep(targets::push_completed_targets(alloc, out), out),
        "unfound" => keep(targets::push_unfound_targets(alloc, out), out),
        "dates" => keep_refusal(alloc, targets::push_dates(alloc, out), out),
        "copies" => keep(errors::push_copies(alloc, out), out),
        "fault" => errors::push_fault(alloc, out),
        "reader" => errors::push_fault_of_a_reader(alloc, out),
        "steps" => errors::push_steps(alloc, out),
        "causes" => errors::push_causes(out),
        _ => push_of_walks(alloc, of, out),
    }
}

/// Writes the answer of a call on the examples of comments.
fn push_examples(alloc: Global, of: &str, out: &mut Text) {
    match of {
        "within" => keep_refusal(
            alloc,
            examples_of_manifests::push_texts_within(alloc, out),
            out,
        ),
        "empty" => keep_refusal(
            alloc,
            examples_of_manifests::push_targets_of_an_empty_folder(alloc, out),
            out,
        ),
        "finished" => keep(examples_of_manifests::push_finished(alloc, out), out),
        "maybe" => examples_of_parts::push_maybe_inherited(out),
        _ => push_of_values(alloc, of, out),
    }
}

/// Writes the answer of a call.
fn push_answer(alloc: Global, of: &str, out: &mut Text) -> anyhow::Result<()> {
    match of {
        "manifests" => examples_of_manifests::push_manifests(alloc, out),
        "defaults" => examples_of_manifests::push_tables(alloc, out),
        "bytes" => examples_of_manifests::push_list_as_bytes(alloc, out),
        "found" => findings::push_examples(alloc, out),
        "inherited" => examples_of_parts::push_inherited(alloc, out),
        "choices" => examples_of_parts::push_choices(alloc, out),
        "detail" => examples_of_parts::push_detail(alloc, out),
        "under" => rows::push_values_under_a_key(alloc, out),
        "rows" => rows::push_rows(alloc, out),
        "maps" => rows::push_maps(alloc, out),
        "writers" => rows::push_writers(alloc, out),
        "walks" => walks::push_walks(alloc, out),
        "tables" => walks::push_tables(alloc, out),
        "rest" => walks::push_rest(alloc, out),
        _ => Ok(push_examples(alloc, of, out)),
    }
}

/// The lines of the call of this name.
pub fn answer(alloc: Global, of: &str) -> anyhow::Result<String> {
    let mut out = Text::new(alloc);
    push_answer(alloc, of, &mut out)?;
    Ok(finished(alloc, out)?)
}
