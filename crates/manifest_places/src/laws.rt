//! Laws of the definitions, as functions with empty bodies: a caller that calls one has its clause.

ghost use Rattle.manifest_places.specs.Laws.{PutIsThere, OthersAreKept, InsertKeepsOthers, RemoveKeepsOthers, RestoringKeepsOthers, PlacesPart, PlacesHaveValues};

/// What was put at a path is the value there.
#[tactic(auto, using(crate::proofs::There::put_is_there))]
pub fn put_is_there()
    ensures { PutIsThere }
{}

/// A change leaves the value at each path that parts from the path of the changed value.
#[tactic(auto, using(crate::proofs::Kept::others_are_kept))]
pub fn others_are_kept()
    ensures { OthersAreKept }
{}

/// An entry that is put into a table leaves each other one.
#[tactic(auto, using(crate::proofs::Kept::insert_keeps_others))]
pub fn insert_keeps_others()
    ensures { InsertKeepsOthers }
{}

/// An entry that is taken out of a table leaves each other one.
#[tactic(auto, using(crate::proofs::Kept::remove_keeps_others))]
pub fn remove_keeps_others()
    ensures { RemoveKeepsOthers }
{}

/// What is restored at places changes nothing at a path that parts from each of them.
#[tactic(auto, using(crate::proofs::Numbers::restoring_keeps_others))]
pub fn restoring_keeps_others()
    ensures { RestoringKeepsOthers }
{}

/// Paths at which a document has different numbers part.
#[tactic(auto, using(crate::proofs::Numbers::places_part))]
pub fn places_part()
    ensures { PlacesPart }
{}

/// What the range of a place alone reads as is the value at its path.
#[tactic(auto, using(crate::proofs::Numbers::places_have_values))]
pub fn places_have_values()
    ensures { PlacesHaveValues }
{}
