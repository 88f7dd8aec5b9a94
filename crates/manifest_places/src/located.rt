//! The value, the key and the header that belong to a path.

ghost use Rattle.std.specs.Prelude.{◌≡◌, ◌+◌, ◌≤◌, ◌<◌, [], length, IsTrue, Some, None, IfSome, slice_get, option_map};
ghost use Rattle.manifest_places.specs.Paths.{path_of};
ghost use Rattle.manifest_places.specs.Located as spec;
ghost use Rattle.manifest_places.specs.Located.{range_at, GoesOn, IsKeyBut, IsHeaderBefore, IsEntry, IsByValue, IsByHeader, IsWhole, StandsAt, IsLocated};

use crate::finding::Places;
use crate::index::{Entry, Node};
use crate::keys::Span;
use crate::places::Place;
use crate::step::{Step, steps_after};

/// Where in a text that stands which belongs to a path.
#[derive(Clone, Copy, Debug, PartialEq, Eq)]
pub struct Located {
    /// How many steps of the path lead to it: all of them, or fewer where nothing is at the path. Then it is the table,
    /// or the array, in which the path goes on to nothing.
    pub steps: usize,
    /// The value, where it has a place: a table or an array of tables that is written by headers or by dotted keys has
    /// none.
    pub value: Option<Span>,
    /// The whole key of the value, from its first part to its last; of a table that a dotted key goes through, the key
    /// up to that part. An item of an array has none, nor has a table that is written by headers.
    pub key: Option<Span>,
    /// The header that the value, or the key, stands under, and none at the top of the text; of a table that is written
    /// by headers, the one that opens it, or else the first one that goes through it.
    pub header: Option<Span>,
}

/// What the whole document has: no value, no key and no header.
const WHOLE: Located = Located {
    steps: 0,
    value: None,
    key: None,
    header: None,
};

impl Places {
    /// Where that stands which belongs to the path. Where nothing is at the path, as for a key that is missing, it is
    /// what belongs to the longest beginning of the path at which something is: an inline table with its value, its key and
    /// its header, or another table with its header. It takes a few comparisons of keys for each step of the path,
    /// however many places there are. (That something is found where something is, and so the longest beginning, is tested
    /// and not proved.)
    ///
    /// ```ignore
    /// let places = places_of(alloc, "[a]\nb.c = 1\n")?; // of these
    /// let located = places.locate(&path); // at the path a, b, c: 10..11, the key 4..7 and the header 0..3
    /// ```
    pub fn locate(&self, path: &[Step]) -> Located
        ensures { IsLocated self.now (path_of path.now) result }
    {
        let (steps, node) = self.index.reached(path);
        let Some((front, _rest)) = path.split_at_checked(steps) else {
            return WHOLE;
        };
        let Some(found) = node else {
            return WHOLE;
        };
        match self.standing(front, found) {
            Some(located) => located,
            None => WHOLE,
        }
    }

    /// What stands at the path, by what the index has of it.
    fn standing(&self, path: &[Step], found: &Node) -> Option<Located>
        ensures { IfSome result
            (λ l. (l.steps ≡ length path.now) × StandsAt self.now (path_of path.now) l) }
    {
        if let Some(entry) = found.value {
            return self.by_value(path, entry);
        }
        if let Some(entry) = found.through {
            return self.by_value(path, entry);
        }
        self.by_header(path, found.header?)
    }

    /// The value at the path, or the table there that the key of this value goes through.
    fn by_value(&self, path: &[Step], entry: Entry) -> Option<Located>
        ensures { IfSome result
            (λ l. (l.steps ≡ length path.now) × IsByValue self.now (path_of path.now) l) }
    {
        let round = item_at(self.rounds.as_slice(), entry.round)?;
        let place = item_at(round.places.as_slice(), entry.index)?;
        let parts = item_at(round.keys.as_slice(), entry.index)?;
        let more = steps_after(place.path.as_slice(), path)?;
        let key = key_but(parts.parts.as_slice(), more)?;
        let header = header_before(self.headers.as_slice(), path, place.from)?;
        Some(Located {
            steps: path.len(),
            value: value_after(more, place),
            key,
            header,
        })
    }

    /// The table at the path, which this header opens or goes through.
    fn by_header(&self, path: &[Step], index: usize) -> Option<Located>
        ensures { IfSome result
            (λ l. (l.steps ≡ length path.now) × IsByHeader self.now (path_of path.now) l) }
    {
        let header = item_at(self.headers.as_slice(), index)?;
        let _more = steps_after(header.path.as_slice(), path)?;
        Some(Located {
            steps: path.len(),
            value: None,
            key: None,
            header: Some(range_of(header)),
        })
    }
}

fn range_of(place: &Place) -> Span
    ensures { result ≡ range_at place.now }
{
    Span {
        from: place.from,
        to: place.to,
    }
}

/// The value's range, where no step is left to it.
fn value_after(more: usize, place: &Place) -> Option<Span>
    ensures { result ≡ spec.value_after more place.now }
{
    if more == 0 {
        Some(range_of(place))
    } else {
        None
    }
}

/// The item at the index, or `None` where there is none.
fn item_at<T>(items: &[T], index: usize) -> Option<&T>
    ensures { option_map (λ x. x.now) result ≡ slice_get items.now index }
{
    items.get(index)
}

/// The key from its first part to the one with this many parts after it, no key where it has no parts, or `None` where
/// it has fewer.
fn key_but(parts: &[Span], after: usize) -> Option<Option<Span>>
    ensures { IfSome result (λ key. IsKeyBut parts.now after key) }
{
    let Some(first) = parts.first() else {
        return if after == 0 { Some(None) } else { None };
    };
    let end = parts.len().checked_sub(after)?;
    let last = parts.get(end.checked_sub(1)?)?;
    Some(Some(Span {
        from: first.from,
        to: last.to,
    }))
}

/// The last header that begins before the offset, or `None` where its table is not on the way to the path.
fn header_before(headers: &[Place], path: &[Step], at: usize) -> Option<Option<Span>>
    ensures { IfSome result
        (λ header. IsHeaderBefore headers.now (path_of path.now) at header) }
{
    let count = headers.partition_point(|header| header.from < at);
    if !is_after(headers, count, at) {
        return None;
    }
    let Some(last) = count.checked_sub(1) else {
        return Some(None);
    };
    let header = item_at(headers, last)?;
    if header.from >= at {
        return None;
    }
    let _rest = steps_after(path, header.path.as_slice())?;
    Some(Some(range_of(header)))
}

/// Whether the header at the index, if there is one, begins at the offset or after it.
fn is_after(headers: &[Place], index: usize, at: usize) -> bool
    ensures { IsTrue result → IfSome (slice_get headers.now index) (λ h. at ≤ h.from) }
{
    match item_at(headers, index) {
        Some(header) => at <= header.from,
        None => true,
    }
}
