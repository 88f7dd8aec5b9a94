//! Where in the bytes of a TOML text the values, keys and headers of its document stand, their lines and columns, and
//! edits of a text that keep all else as it was. Begin with `src/places.rt`, the places of values, `src/finding.rt`,
//! which finds all of them, `src/located.rt`, what belongs to a path, and `src/edits.rt`.
#![tactic(auto)]

mod blanks;
mod changes;
mod company;
mod compare;
mod edits;
mod elements;
mod finding;
mod findings;
mod headers;
mod index;
mod inserting;
mod keys;
pub mod laws;
mod layout;
mod lines;
mod located;
mod places;
mod planning;
mod putting;
mod reading;
mod removing;
mod renaming;
mod splices;
mod step;
mod walk;

pub use changes::{Change, ChangeAt, with_change, with_changes};
pub use compare::same_value;
pub use edits::{Edit, EditError, Edited, with_edits};
pub use finding::{Places, Round, places_of};
pub use findings::{AtItsKey, AtItsPath, LooksAt};
pub use headers::are_headers;
pub use keys::{KeyParts, Span, is_key};
pub use lines::{Position, position_of, positions_of};
pub use located::Located;
pub use places::{Place, are_places, edited, value_at};
pub use splices::{Splice, spliced};
pub use step::Step;
