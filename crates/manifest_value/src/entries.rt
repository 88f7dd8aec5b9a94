//! The entries of a table that is read, one after the other, whether it is borrowed or owned.

ghost use Rattle.std.specs.Prelude.{◌≡◌, IfOk, string_bytes};
ghost use Rattle.std.specs.Iterator.{at_most};
ghost use Rattle.manifest_value.specs.Sources.{key_view, entries_view, how_many, gives_entry};

use crate::source::Source;
use std::alloc::{AllocError, Global};
use std::collections::btree_map::{IntoIter, Iter};
use std::vec;
use toml::Value;

/// A key of a table that is read.
#[derive(Drop)]
pub enum Key<'t> {
    /// The table is borrowed: the key is copied where a text of its own is made of it.
    Borrowed(&'t str),
    /// The table is owned: the key is moved.
    Owned(String),
}

impl Key<'_> {
    /// The text of the key, whether it is borrowed or owned.
    #[inline(always)]
    pub fn as_str(&self) -> &str
        ensures { result.now ≡ key_view self.now }
    {
        match self {
            Key::Borrowed(text) => *text,
            Key::Owned(text) => text.as_str(),
        }
    }

    /// The key as a string of its own: copies a borrowed key, which can fail when out of memory, and moves an owned
    /// one.
    ///
    /// ```ignore
    /// let name = Key::Borrowed("serde").into_string(alloc)?; // "serde"
    /// ```
    #[inline(always)]
    pub fn into_string(self, alloc: Global) -> Result<String, AllocError>
        ensures { IfOk result (λ s. string_bytes s ≡ key_view self.entry) }
    {
        match self {
            Key::Borrowed(text) => String::from_str(alloc, text),
            Key::Owned(text) => Ok(text),
        }
    }
}

/// A key of a table that is read, and its value.
pub type Entry<'t> = (Key<'t>, Source<'t>);

/// The entries of a table that is read, in the order of their keys.
#[derive(Drop)]
pub(crate) enum Entries<'t> {
    /// All entries of a table that stays where it is.
    Borrowed(Iter<'t, String, Value>),
    /// All entries of an owned table.
    Owned(IntoIter<String, Value, Global>),
    /// Those that a walk left over.
    Rest(vec::IntoIter<Entry<'t>, Global>),
}

/// Gives each entry, its key and its value, borrowed or owned as the table is.
impl<'t> Iterator for Entries<'t> {
    type Item = Entry<'t>;

    ghost next_gives = { gives_entry };

    ghost remaining = { λ s. at_most (how_many (entries_view s)) };

    #[inline(always)]
    fn next(&mut self) -> Option<Entry<'t>> {
        match self {
            Entries::Borrowed(entries) => match entries.next() {
                Some((key, value)) => Some((Key::Borrowed(key.as_str()), Source::Borrowed(value))),
                None => None,
            },
            Entries::Owned(entries) => match entries.next() {
                Some((key, value)) => Some((Key::Owned(key), Source::Owned(value))),
                None => None,
            },
            Entries::Rest(entries) => entries.next(),
        }
    }
}
