//! Rules of what the profiles of `[profile]` inherit. See
//! [Custom profiles](https://doc.rust-lang.org/cargo/reference/profiles.html#custom-profiles).

use crate::profiles::is_profile_name;
use manifest_rules::codes::{
    CIRCULAR_INHERITS, INHERITS_DEBUG, INHERITS_OF_BUILT_IN, MISSING_INHERITS, UNKNOWN_INHERITS,
};
use manifest_rules::look::{Look, table_in, text_in};
use manifest_rules::report::{At, File, Out, Part};
use std::alloc::AllocError;
use std::collections::BTreeSet;
use toml::{Table, Value};

/// The profiles that Cargo has itself.
const BUILT_IN: [&str; 5] = ["dev", "release", "test", "bench", "doc"];

fn is_built_in(name: &str) -> bool {
    matches!(name, "dev" | "release" | "test" | "bench" | "doc")
}

/// Whether Cargo's own profile inherits from nothing.
fn is_first(name: &str) -> bool {
    matches!(name, "dev" | "release")
}

/// All rules of what profiles inherit.
pub fn inherited_profiles(look: &Look<'_>, out: &mut Out) {
    let Some(profiles) = table_in(look.document, "profile") else {
        return;
    };
    for (name, value) in profiles {
        if let Value::Table(table) = value {
            let name = name.as_str();
            match text_in(table, "inherits") {
                Some(parent) => rules_of_parent(look, profiles, name, parent, out),
                None => missing_inherits(look, name, table, out),
            }
        }
    }
    circular_inherits(profiles, out);
}

fn rules_of_parent<'a>(
    look: &Look<'a>,
    profiles: &'a Table,
    name: &'a str,
    parent: &'a str,
    out: &mut Out,
) {
    if parent == "debug" {
        inherits_debug(name, out);
        return;
    }
    if is_first(name) {
        inherits_of_built_in(name, out);
        return;
    }
    unknown_inherits(look, profiles, name, parent, out);
}

/// The path of `inherits` in a profile.
fn inherits_path(name: &str) -> [At<'_>; 3] {
    [At::Key("profile"), At::Key(name), At::Key("inherits")]
}

/// The suggestion to inherit from another profile.
fn inherit_from(name: &str, parent: &str, is_certain: bool, out: &mut Out) {
    let help = ["inherit from `{}`", parent];
    out.set_text(&inherits_path(name), &[], parent, is_certain, &help);
}

fn inherits_debug(name: &str, out: &mut Out) {
    let words = [
        "profile `{}` inherits from `debug`, which is named `dev`",
        name,
    ];
    out.value(INHERITS_DEBUG, &inherits_path(name), &[], &words);
    inherit_from(name, "dev", true, out);
}

fn inherits_of_built_in(name: &str, out: &mut Out) {
    let words = [
        "`inherits` must not be specified in root profile `{}`",
        name,
    ];
    out.key(INHERITS_OF_BUILT_IN, &inherits_path(name), &[], &words);
}

/// The profile of this name in the configuration.
fn configured<'a>(look: &Look<'a>, name: &str) -> Option<&'a Table> {
    table_in(table_in(look.around.config?, "profile")?, name)
}

/// A profile of one's own says what it inherits, here or in the configuration.
fn missing_inherits(look: &Look<'_>, name: &str, table: &Table, out: &mut Out) {
    let is_configured = match configured(look, name) {
        Some(other) => other.contains_key("inherits"),
        None => false,
    };
    let has_none = !table.contains_key("inherits") && !is_configured && !is_built_in(name);
    if !has_none || out.made(is_profile_name(out.alloc, name)) != Some(true) {
        return;
    }
    let path = [At::Key("profile"), At::Key(name)];
    let words = ["profile `{}` is missing `inherits`", name];
    out.header(MISSING_INHERITS, &path, &[], &words);
    out.note(&["each profile but those of Cargo itself inherits from another one"]);
    let help = ["inherit from `release`"];
    out.insert_text(&path, &[At::Key("inherits")], "release", false, &help);
}

fn unknown_inherits<'a>(
    look: &Look<'a>,
    profiles: &'a Table,
    name: &'a str,
    parent: &'a str,
    out: &mut Out,
) {
    let is_known = is_built_in(parent) || profiles.contains_key(parent);
    if is_known || configured(look, parent).is_some() {
        return;
    }
    let near = nearest_profile(profiles, name, parent, out);
    let words = [
        "profile `{}` inherits from `{}`, but that profile is not defined",
        name,
        parent,
    ];
    out.value(UNKNOWN_INHERITS, &inherits_path(name), &[], &words);
    if let Some(near) = near {
        inherit_from(name, near, false, out);
    }
}

/// The profile whose name is nearest to that from which a profile inherits.
fn nearest_profile<'a>(
    profiles: &'a Table,
    name: &str,
    parent: &'a str,
    out: &mut Out,
) -> Option<&'a str> {
    let mut nearest = out.nearest(parent);
    for other in BUILT_IN {
        out.offer(&mut nearest, other);
    }
    for (other, _profile) in profiles {
        if other.as_str() != name {
            out.offer(&mut nearest, other.as_str());
        }
    }
    nearest.found()
}

/// The profile from which another one inherits, where that is written here.
fn parent_of<'a>(profiles: &'a Table, name: &str) -> Option<&'a str> {
    if is_first(name) {
        return None;
    }
    text_in(table_in(profiles, name)?, "inherits")
}

/// Profiles do not inherit from one another in a circle: each profile of one is reported.
fn circular_inherits(profiles: &Table, out: &mut Out) {
    let mut done = BTreeSet::new(out.alloc);
    for (start, _profile) in profiles {
        for seen in way_from(profiles, start.as_str(), &done, out) {
            let _is_new = out.made(done.insert(seen).map_err(AllocError::from));
        }
    }
}

/// The profiles from which one inherits, and itself, up to one that was looked at; a circle to which they lead is reported.
fn way_from<'a>(
    profiles: &'a Table,
    start: &'a str,
    done: &BTreeSet<&'a str>,
    out: &mut Out,
) -> BTreeSet<&'a str> {
    let mut way = BTreeSet::new(out.alloc);
    let mut name = start;
    for _step in 0..=profiles.len() {
        if done.contains(&name) {
            break;
        }
        let _is_new = out.made(way.insert(name).map_err(AllocError::from));
        let Some(parent) = parent_of(profiles, name) else {
            break;
        };
        if way.contains(&parent) {
            all_of_circle(profiles, parent, out);
            break;
        }
        name = parent;
    }
    way
}

/// Reports each profile of the circle to which this one belongs.
fn all_of_circle(profiles: &Table, first: &str, out: &mut Out) {
    let mut name = first;
    for _step in 0..=profiles.len() {
        let Some(parent) = parent_of(profiles, name) else {
            break;
        };
        circle(name, parent, out);
        if parent == first {
            break;
        }
        name = parent;
    }
}

fn circle<'a>(name: &'a str, parent: &'a str, out: &mut Out) {
    let words = [
        "profile inheritance loop: `{}` inherits from `{}`, which inherits from `{}`",
        name,
        parent,
        name,
    ];
    out.value(CIRCULAR_INHERITS, &inherits_path(name), &[], &words);
    if name == parent {
        return;
    }
    let other = inherits_path(parent);
    out.label(
        File::Own,
        Part::Value,
        &other,
        &[],
        &["the loop goes on here"],
    );
}
