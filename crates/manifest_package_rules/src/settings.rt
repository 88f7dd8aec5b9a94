//! Settings of the program that checks manifests, which stand in the metadata of a package and of a workspace. Cargo reads
//! no metadata, so that nobody else says that a setting has a wrong name.

use manifest_rules::codes::{ALL, IGNORED_SETTING, code_named};
use manifest_rules::look::{Look, table_in};
use manifest_rules::report::{At, Out, quoted};
use toml::{Table, Value};

/// The settings: each has a list of codes.
static SETTINGS: [&str; 3] = ["allow", "warn", "deny"];

/// What is no setting.
pub fn settings(look: &Look<'_>, out: &mut Out) {
    for owner in ["package", "workspace"] {
        if let Some(table) = table_in(look.document, owner) {
            settings_of(owner, table, out);
        }
    }
}

fn settings_of(owner: &str, table: &Table, out: &mut Out) {
    let Some(metadata) = table_in(table, "metadata") else {
        return;
    };
    let base = [
        At::Key(owner),
        At::Key("metadata"),
        At::Key("manifest-check"),
    ];
    match metadata.get("manifest-check") {
        Some(Value::Table(settings)) => rules_of_settings(&base, settings, out),
        Some(_) => out.value(
            IGNORED_SETTING,
            &base,
            &[],
            &["`manifest-check` must be a table"],
        ),
        None => {}
    }
}

fn rules_of_settings(base: &[At<'_>], settings: &Table, out: &mut Out) {
    for (key, value) in settings {
        let key = key.as_str();
        match value {
            _ if !SETTINGS.contains(&key) => unknown_setting(base, settings, key, out),
            Value::Array(codes) => rules_of_codes(base, key, codes.as_slice(), out),
            _ => setting_without_list(base, key, value, out),
        }
    }
}

fn unknown_setting(base: &[At<'_>], settings: &Table, key: &str, out: &mut Out) {
    let rest = [At::Key(key)];
    let words = ["no setting has the name `{}`", key];
    out.key(IGNORED_SETTING, base, &rest, &words);
    out.note(&["the settings are `allow`, `warn` and `deny`"]);
    match out.nearest_of(key, &SETTINGS) {
        Some(near) if !settings.contains_key(near) => {
            out.rename(base, &rest, near, false, &["write `{}`", near]);
        }
        _ => {}
    }
}

/// A setting has a list, also of one code.
fn setting_without_list(base: &[At<'_>], key: &str, value: &Value, out: &mut Out) {
    let rest = [At::Key(key)];
    let words = ["`{}` must be a list of codes", key];
    out.value(IGNORED_SETTING, base, &rest, &words);
    let Value::String(code) = value else {
        return;
    };
    let code = out.text(quoted(out.alloc, code.as_str()));
    let list = ["[{}]", code.as_str()];
    out.set(base, &rest, &list, false, &["write a list of it"]);
}

/// The items of a setting are codes, or `all`.
fn rules_of_codes(base: &[At<'_>], key: &str, codes: &[Value], out: &mut Out) {
    for (index, code) in codes.iter().enumerate() {
        let rest = [At::Key(key), At::Index(index)];
        match code {
            Value::String(name) => unless_code(base, &rest, name.as_str(), out),
            _ => {
                let words = ["an item of `{}` must be a string", key];
                out.value(IGNORED_SETTING, base, &rest, &words);
            }
        }
    }
}

fn unless_code(base: &[At<'_>], rest: &[At<'_>], name: &str, out: &mut Out) {
    if name == "all" || code_named(name).is_some() {
        return;
    }
    let words = ["no code has the name `{}`", name];
    out.value(IGNORED_SETTING, base, rest, &words);
    let mut nearest = out.nearest(name);
    for code in ALL {
        out.offer(&mut nearest, code.name);
    }
    if let Some(near) = nearest.found() {
        out.set_text(base, rest, near, false, &["write `{}`", near]);
    }
}
