//! Keys that Cargo reads and the schema does not know: of which kind their values are, and which keys these have.

use manifest_rules::codes::{Code, MISSPELLED_KEY, UNKNOWN_KEY, WRONG_KIND};
use manifest_rules::look::{Look, table_in};
use manifest_rules::report::{At, Out};
use std::alloc::{AllocError, Global};
use toml::{Table, Value};

/// All rules of such keys, but of those in a profile.
pub fn keys(look: &Look<'_>, out: &mut Out) {
    hints(look, out);
    replacements(look, out);
    for target in &look.targets {
        kinds(target.path.as_slice(), None, target.table, &OF_TARGETS, out);
    }
    keys_of_dependencies(look, out);
    project(look, out);
    badges(look, out);
}

/// Of which kind the value of a key is.
#[derive(Clone, Copy)]
enum Wanted {
    Flag,
    Text,
    /// A text, or a list of texts.
    Texts,
}

static OF_TARGETS: [(&str, Wanted); 2] = [
    ("doc-scrape-examples", Wanted::Flag),
    ("filename", Wanted::Text),
];

static OF_DEPENDENCIES: [(&str, Wanted); 5] = [
    ("artifact", Wanted::Texts),
    ("base", Wanted::Text),
    ("lib", Wanted::Flag),
    ("public", Wanted::Flag),
    ("target", Wanted::Text),
];

/// Of a dependency that is inherited Cargo reads no other one of them.
static OF_INHERITED: [(&str, Wanted); 1] = [("public", Wanted::Flag)];

impl Wanted {
    fn fits(self, value: &Value) -> bool {
        match (self, value) {
            (Wanted::Flag, Value::Boolean(_)) => true,
            (Wanted::Text | Wanted::Texts, Value::String(_)) => true,
            (Wanted::Texts, Value::Array(items)) => items.iter().all(|item| item.is_str()),
            _ => false,
        }
    }

    fn name(self) -> &'static str {
        match self {
            Wanted::Flag => "a boolean",
            Wanted::Text => "a string",
            Wanted::Texts => "a string or a list of strings",
        }
    }
}

/// The values of these keys are of their kinds, in the table at a path, or below it in that of a name.
fn kinds(
    base: &[At<'_>],
    name: Option<&str>,
    table: &Table,
    keys: &[(&'static str, Wanted)],
    out: &mut Out,
) {
    for (key, wanted) in keys {
        let key = *key;
        let Some(value) = table.get(key) else {
            continue;
        };
        if wanted.fits(value) {
            continue;
        }
        match name {
            Some(name) => {
                let rest = [At::Key(name), At::Key(key)];
                wrong_kind_at(base, &rest, key, wanted.name(), value, out);
            }
            None => wrong_kind(base, key, wanted.name(), value, out),
        }
    }
}

fn keys_of_dependencies(look: &Look<'_>, out: &mut Out) {
    for section in &look.dependencies {
        let may_inherit = section.section.is_of_package();
        for (name, dependency) in section.table {
            let Value::Table(table) = dependency else {
                continue;
            };
            let keys: &[(&str, Wanted)] = if may_inherit && table.contains_key("workspace") {
                &OF_INHERITED
            } else {
                &OF_DEPENDENCIES
            };
            kinds(
                section.path.as_slice(),
                Some(name.as_str()),
                table,
                keys,
                out,
            );
        }
    }
}

/// What kind of value it is.
pub(crate) fn kind_of(value: &Value) -> &str {
    value.type_str()
}

/// Says that the value of a key is of another kind than Cargo reads there.
pub(crate) fn wrong_kind<'a>(
    base: &[At<'_>],
    key: &'a str,
    wanted: &'a str,
    value: &'a Value,
    out: &mut Out,
) {
    wrong_kind_at(base, &[At::Key(key)], key, wanted, value, out);
}

/// The same for a key to which all these steps lead.
pub(crate) fn wrong_kind_at<'a>(
    base: &[At<'_>],
    rest: &[At<'_>],
    key: &'a str,
    wanted: &'a str,
    value: &'a Value,
    out: &mut Out,
) {
    let words = [
        "invalid type: {}, expected {} for `{}`",
        kind_of(value),
        wanted,
        key,
    ];
    out.value(WRONG_KIND, base, rest, &words);
}

/// Says of each key of a table that it is none of these, and which of them it may be meant for.
pub(crate) fn unknown_keys(base: &[At<'_>], table: &Table, known: &[&'static str], out: &mut Out) {
    for (key, _value) in table {
        let key = key.as_str();
        if !known.iter().any(|known| *known == key) {
            unknown_key(base, table, key, known, out);
        }
    }
}

fn unknown_key(base: &[At<'_>], table: &Table, key: &str, known: &[&'static str], out: &mut Out) {
    let Some(word) = out.nearest_of(key, known) else {
        unused_key(UNKNOWN_KEY, base, key, out);
        return;
    };
    unused_key(MISSPELLED_KEY, base, key, out);
    let help = ["a key with a similar name exists: `{}`", word];
    if table.contains_key(word) {
        out.help(&help);
        return;
    }
    out.rename(base, &[At::Key(key)], word, false, &help);
}

/// The keys of a path, with a dot after each.
fn dotted(alloc: Global, path: &[At<'_>]) -> Result<String, AllocError> {
    let mut keys = String::new(alloc);
    for at in path {
        if let At::Key(step) = at {
            keys.push_str(step)?;
            keys.push_str(".")?;
        }
    }
    Ok(keys)
}

/// Says that nothing reads this key, whose whole name has those above it.
fn unused_key(code: Code, base: &[At<'_>], key: &str, out: &mut Out) {
    let above = out.text(dotted(out.alloc, base));
    let words = ["unused manifest key: {}{}", above.as_str(), key];
    out.key(code, base, &[At::Key(key)], &words);
}

/// `[hints]`, which Cargo reads since 1.90.
/// (<https://doc.rust-lang.org/cargo/reference/manifest.html#the-hints-section>)
fn hints(look: &Look<'_>, out: &mut Out) {
    match look.document.get("hints") {
        Some(Value::Table(hints)) => {
            unknown_keys(&[At::Key("hints")], hints, &["mostly-unused"], out);
        }
        Some(value) => wrong_kind(&[], "hints", "a table", value, out),
        None => {}
    }
}

/// `[replace]` is a table.
fn replacements(look: &Look<'_>, out: &mut Out) {
    match look.document.get("replace") {
        Some(value) if !value.is_table() => wrong_kind(&[], "replace", "a table", value, out),
        _ => {}
    }
}

/// `[project]` is a table, also where there is a package.
fn project(look: &Look<'_>, out: &mut Out) {
    match look.document.get("project") {
        Some(value) if !value.is_table() && look.document.contains_key("package") => {
            wrong_kind(&[], "project", "a table", value, out);
        }
        _ => {}
    }
}

/// The badges that the schema knows: it says of which kind they are.
static KNOWN_BADGES: [&str; 9] = [
    "appveyor",
    "circle-ci",
    "gitlab",
    "travis-ci",
    "codecov",
    "coveralls",
    "is-it-maintained-issue-resolution",
    "is-it-maintained-open-issues",
    "maintenance",
];

/// The badges of a package, and those of `workspace.package`, are tables of texts.
fn badges(look: &Look<'_>, out: &mut Out) {
    if let Some(badges) = table_in(look.document, "badges") {
        rules_of_badges(&[], badges, &KNOWN_BADGES, out);
    }
    let Some(workspace) = look.workspace else {
        return;
    };
    let Some(package) = table_in(workspace, "package") else {
        return;
    };
    let base = [At::Key("workspace"), At::Key("package")];
    match package.get("badges") {
        Some(Value::Table(badges)) => rules_of_badges(&base, badges, &[], out),
        Some(value) => wrong_kind(&base, "badges", "a table", value, out),
        None => {}
    }
}

/// Each of these badges, but for those that are known, is a table of texts.
fn rules_of_badges(base: &[At<'_>], badges: &Table, known: &[&str], out: &mut Out) {
    for (name, badge) in badges {
        let name = name.as_str();
        if !known.iter().any(|known| *known == name) {
            rules_of_badge(base, name, badge, out);
        }
    }
}

fn rules_of_badge<'a>(base: &[At<'_>], name: &'a str, badge: &'a Value, out: &mut Out) {
    let Value::Table(attributes) = badge else {
        let rest = [At::Key("badges"), At::Key(name)];
        wrong_kind_at(base, &rest, name, "a table", badge, out);
        return;
    };
    for (key, value) in attributes {
        if !value.is_str() {
            let key = key.as_str();
            let rest = [At::Key("badges"), At::Key(name), At::Key(key)];
            wrong_kind_at(base, &rest, key, "a string", value, out);
        }
    }
}
