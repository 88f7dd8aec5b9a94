//! The tables and keys of a text, as an editor shows them.

use crate::reports::{View, push_range, push_range_as};
use manifest_json::Text;
use manifest_places::{Place, Places, Span, Step, places_of};
use std::alloc::Global;

/// What kinds of things an editor shows: a table, and a key.
const TABLE: usize = 19;

const KEY: usize = 8;

/// The path of a table as it is written.
fn push_path(name: &mut Text, steps: &[Step]) {
    for (at, step) in steps.iter().enumerate() {
        if at > 0 {
            name.push('.');
        }
        match step {
            Step::Key(key) => name.push_str(key.as_str()),
            Step::Index(index) => name.push_number(*index),
        }
    }
}

/// Writes what a symbol begins with: its name, its kind, its whole range and the one that is selected.
fn push_symbol(
    body: &mut Text,
    view: &View<'_>,
    steps: &[Step],
    kind: usize,
    whole: Span,
    selected: Span,
) {
    let mut name = Text::new(body.allocator());
    push_path(&mut name, steps);
    let Some(name) = body.made(name.finish()) else {
        return;
    };
    body.open();
    body.text_member("name", name.as_str());
    body.number_member("kind", kind);
    push_range(body, view, whole);
    push_range_as(body, "selectionRange", view, selected);
}

/// Writes the keys of a table whose values stand in a range, and in no other value.
fn push_keys(body: &mut Text, view: &View<'_>, places: &Places, depth: usize, range: Span) {
    body.open_list("children");
    if let Some(round) = places.rounds.first() {
        for (place, key) in round.places.iter().zip(round.keys.iter()) {
            let is_inside = range.from <= place.from && place.to <= range.to;
            let steps = place.path.get(depth..).unwrap_or(&[]);
            if let (true, Some(first), Some(last)) = (
                is_inside,
                key.parts.first(),
                key.parts.last(),
            ) {
                let whole = Span {
                    from: first.from,
                    to: place.to,
                };
                let selected = Span {
                    from: first.from,
                    to: last.to,
                };
                push_symbol(body, view, steps, KEY, whole, selected);
                body.close();
            }
        }
    }
    body.close_list();
}

/// Writes the tables that have headers, each with its keys.
pub(crate) fn push_symbols(alloc: Global, body: &mut Text, view: &View<'_>) {
    let Some(Some(places)) = body.made(places_of(alloc, view.text)) else {
        return;
    };
    for (at, header) in places.headers.iter().enumerate() {
        let end = match places.headers.get(at.saturating_add(1)) {
            Some(next) => next.from,
            None => view.text.len(),
        };
        push_table(body, view, &places, header, end);
    }
}

fn push_table(body: &mut Text, view: &View<'_>, places: &Places, header: &Place, end: usize) {
    let whole = Span {
        from: header.from,
        to: end,
    };
    let selected = Span {
        from: header.from,
        to: header.to,
    };
    push_symbol(body, view, header.path.as_slice(), TABLE, whole, selected);
    push_keys(body, view, places, header.path.len(), whole);
    body.close();
}
