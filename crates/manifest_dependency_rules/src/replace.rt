//! Rules of [`[patch]` and `[replace]`](https://doc.rust-lang.org/cargo/reference/overriding-dependencies.html), in addition to
//! those of any dependency.

use manifest_rules::codes::{
    IGNORED_IN_PATCH, INHERITED_PATCH, INVALID_REPLACE_KEY, Level, REPLACE_BESIDE_PATCH,
    UNKNOWN_PATCH_SOURCE, VERSION_IN_REPLACE,
};
use manifest_rules::look::{Look, flag_in, is_inherited, items_in, table_in};
use manifest_rules::report::{At, File, Out, Part};
use manifest_rules::words::{IdVersion, UrlFault, Word, package_id, url_fault};
use toml::{Table, Value};

/// All rules of patches and replacements.
pub fn replace(look: &Look<'_>, out: &mut Out) {
    replace_beside_patch(look, out);
    if let Some(sources) = table_in(look.document, "patch") {
        for (source, elements) in sources {
            unknown_patch_source(look, sources, source.as_str(), out);
            if let Value::Table(elements) = elements {
                rules_of_source(source.as_str(), elements, out);
            }
        }
    }
    let Some(elements) = table_in(look.document, "replace") else {
        return;
    };
    for (id, element) in elements {
        invalid_replace_key(id.as_str(), out);
        version_in_replace(id.as_str(), element, out);
    }
}

fn rules_of_source<'a>(source: &'a str, elements: &'a Table, out: &mut Out) {
    for (name, element) in elements {
        if let Value::Table(detail) = element {
            let path = [At::Key("patch"), At::Key(source), At::Key(name.as_str())];
            if is_inherited(element) {
                inherited_patch(&path, detail, out);
            }
            ignored_in_patch(&path, detail, out);
        }
    }
}

fn replace_beside_patch(look: &Look<'_>, out: &mut Out) {
    if !look.document.contains_key("replace") || !look.document.contains_key("patch") {
        return;
    }
    let words = ["`[replace]` stands next to `[patch]`"];
    out.key(REPLACE_BESIDE_PATCH, &[At::Key("replace")], &[], &words);
    let other = [At::Key("patch")];
    out.label(File::Own, Part::Key, &other, &[], &["`[patch]` is here"]);
    out.note(&["`[replace]` is deprecated: what it does, `[patch]` does too"]);
}

/// What is patched is `crates-io`, a URL, or a registry of the configuration.
fn unknown_patch_source(look: &Look<'_>, sources: &Table, source: &str, out: &mut Out) {
    if source == "crates-io" || is_configured(look, source) {
        return;
    }
    let Some(Some(fault)) = out.made(url_fault(out.alloc, source)) else {
        return;
    };
    let path = [At::Key("patch"), At::Key(source)];
    say_unknown_source(&path, source, fault, out);
    out.note(&["a source is `crates-io`, a URL, or a registry of `.cargo/config.toml`"]);
    if !matches!(source, "crates" | "crates.io" | "crates_io")
        || sources.contains_key("crates-io")
    {
        return;
    }
    let help = ["write `crates-io`, with a dash"];
    out.rename(&path, &[], "crates-io", false, &help);
}

/// Says that a source is no registry: one of its name may be known elsewhere, if it is a name.
fn say_unknown_source(path: &[At<'_>], source: &str, fault: UrlFault, out: &mut Out) {
    if Word::Name.fault(source).is_none() {
        let words = ["`{}` is no registry that is known here", source];
        out.key(UNKNOWN_PATCH_SOURCE, path, &[], &words);
        return;
    }
    let fault = out.shown(&fault);
    let words = [
        "`{}` is neither a URL nor the name of a registry: {}",
        source,
        fault.as_str(),
    ];
    out.key(UNKNOWN_PATCH_SOURCE, path, &[], &words);
    out.at_level(Level::Error);
}

/// Whether the configuration has a registry of this name.
fn is_configured(look: &Look<'_>, name: &str) -> bool {
    let registries = match look.around.config {
        Some(config) => table_in(config, "registries"),
        None => None,
    };
    match registries {
        Some(registries) => registries.contains_key(name),
        None => false,
    }
}

/// A patch is not inherited: without a source of its own it is refused, and else the key is ignored.
fn inherited_patch(path: &[At<'_>], detail: &Table, out: &mut Out) {
    let has_source = ["version", "path", "git"]
        .iter()
        .any(|key| detail.contains_key(*key));
    let rest = [At::Key("workspace")];
    let words = ["a patch is not inherited from the workspace"];
    out.key(INHERITED_PATCH, path, &rest, &words);
    out.note(&["`[patch]` ignores `workspace = true`, and needs `path`, `git` or `version`"]);
    if !has_source {
        return;
    }
    out.at_level(Level::Warning);
    out.remove(path, &rest, true, &["remove `workspace`"]);
}

fn ignored_in_patch(path: &[At<'_>], detail: &Table, out: &mut Out) {
    let keys = [
        ("features", !items_in(detail, "features").is_empty()),
        (
            "default-features",
            flag_in(detail, "default-features") == Some(false),
        ),
    ];
    for (key, is_used) in keys {
        if is_used {
            without_effect(path, key, out);
        }
    }
}

fn without_effect(path: &[At<'_>], key: &str, out: &mut Out) {
    let rest = [At::Key(key)];
    let words = ["`{}` has no effect in `[patch]`", key];
    out.key(IGNORED_IN_PATCH, path, &rest, &words);
    out.note(&["the dependency that is patched says which features are enabled"]);
    out.remove(path, &rest, true, &["remove `{}`", key]);
}

/// A key of `[replace]` is a package id with a whole version.
fn invalid_replace_key(id: &str, out: &mut Out) {
    let Some(version) = out.made(package_id(out.alloc, id)) else {
        return;
    };
    let note = match version {
        Some(IdVersion::Whole) => return,
        Some(_version) => "the version that is replaced stands after the name, as in `name:1.2.3`",
        None => "it is `name:version`, or a URL and `#name:version`",
    };
    let path = [At::Key("replace"), At::Key(id)];
    let words = [
        "`{}` does not say which version of a package to replace",
        id,
    ];
    out.key(INVALID_REPLACE_KEY, &path, &[], &words);
    out.note(&[note]);
}

/// The key says which version is replaced, and by which it is replaced the source says.
fn version_in_replace(id: &str, element: &Value, out: &mut Out) {
    let path = [At::Key("replace"), At::Key(id)];
    let words = ["replacement of `{}` has a version requirement", id];
    match element {
        Value::String(_version) => out.value(VERSION_IN_REPLACE, &path, &[], &words),
        Value::Table(detail) if detail.contains_key("version") => {
            out.key(VERSION_IN_REPLACE, &path, &[At::Key("version")], &words);
        }
        _ => return,
    }
    out.note(&["a replacement has `path` or `git`, and the version stands in its key"]);
}
