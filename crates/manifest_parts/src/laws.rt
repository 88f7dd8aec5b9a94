//! What is promised of the queries and of the texts of choices.
//!
//! Each function returns at once: it is there for its contract, a law of the definitions.

ghost use Rattle.manifest_schema.specs.Prelude.{string, edition, edition_text, level, level_text};
ghost use Rattle.std.specs.Prelude.{◌≡◌};
ghost use Rattle.manifest_schema.specs.Contents;
ghost use Rattle.manifest_parts.specs.Queries.{simplify, req, req_features, is_optional, package_of, git_of, is_crates_io};

/// Simplifying a dependency that was simplified changes nothing.
pub fn simplify_twice_is_once()
    ensures { (d : Contents.Dependency) → simplify (simplify d) ≡ simplify d }
{}

/// A dependency that is simplified asks for the same, and comes from the same place.
pub fn simplify_keeps_the_rest()
    ensures req { (d : Contents.Dependency) → req (simplify d) ≡ req d }
    ensures features { (d : Contents.Dependency) → req_features (simplify d) ≡ req_features d }
    ensures is_optional { (d : Contents.Dependency) → is_optional (simplify d) ≡ is_optional d }
    ensures package_of { (d : Contents.Dependency) → package_of (simplify d) ≡ package_of d }
    ensures git { (d : Contents.Dependency) → git_of (simplify d) ≡ git_of d }
    ensures is_crates_io { (d : Contents.Dependency) → is_crates_io (simplify d) ≡ is_crates_io d }
{}

/// The text of an edition is read as this edition.
pub fn edition_text_is_read()
    ensures { (e : Contents.Edition) → edition.reads (string (edition_text e)) e }
{}

/// The text of a level is read as this level.
pub fn level_text_is_read()
    ensures { (l : Contents.LintLevel) → level.reads (string (level_text l)) l }
{}
