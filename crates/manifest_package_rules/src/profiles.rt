//! Rules of [`[profile]`](https://doc.rust-lang.org/cargo/reference/profiles.html), but of what its profiles inherit,
//! which `inherits.rt` has.

use crate::keys::{unknown_keys, wrong_kind_at};
use manifest_rules::codes::{
    Code, DOC_PROFILE, INVALID_LTO, INVALID_PACKAGE_SPEC, INVALID_PROFILE_NAME,
    INVALID_PROFILE_OVERRIDE, NO_CODEGEN_UNITS, OPT_LEVEL_TOO_HIGH, OUT_OF_RANGE, PANIC_OF_TESTS,
    RESERVED_PROFILE_NAME, UNKNOWN_STRIP, UNKNOWN_WORD,
};
use manifest_rules::look::{Look, table_in, text_in};
use manifest_rules::report::{At, Out, Part, quoted};
use manifest_rules::words::{Word, WrongWord, package_id, say_wrong_word};
use std::alloc::{AllocError, Global};
use toml::{Table, Value};

/// A table of settings: a profile, or one of its overrides.
#[derive(Clone, Copy)]
struct Settings<'a> {
    /// The name of the profile.
    profile: &'a str,
    path: &'a [At<'a>],
    table: &'a Table,
    is_override: bool,
}

impl Settings<'_> {
    /// Says this of the value of a key.
    fn value(&self, code: Code, key: &str, words: &[&str], out: &mut Out) {
        out.value(code, self.path, &[At::Key(key)], words);
    }

    /// Says this of a key.
    fn key(&self, code: Code, key: &str, words: &[&str], out: &mut Out) {
        out.key(code, self.path, &[At::Key(key)], words);
    }

    /// The suggestion to write this value at the key.
    fn instead(&self, key: &str, value: &str, is_certain: bool, out: &mut Out) {
        let help = ["write `{}`", value];
        out.set(self.path, &[At::Key(key)], &[value], is_certain, &help);
    }
}

/// All rules of profiles.
pub fn profiles(look: &Look<'_>, out: &mut Out) {
    let Some(profiles) = table_in(look.document, "profile") else {
        return;
    };
    for (name, value) in profiles {
        let name = name.as_str();
        invalid_profile_name(profiles, name, out);
        doc_profile(name, out);
        if let Value::Table(table) = value {
            let settings = Settings {
                profile: name,
                path: &[At::Key("profile"), At::Key(name)],
                table,
                is_override: false,
            };
            rules_of_settings(&settings, out);
            panic_of_tests(&settings, out);
            overrides(name, table, out);
        }
    }
}

/// The rules of what overrides a profile, for a package or for what builds.
fn overrides<'a>(profile: &'a str, table: &'a Table, out: &mut Out) {
    if let Some(value) = table.get("build-override") {
        let path = [
            At::Key("profile"),
            At::Key(profile),
            At::Key("build-override"),
        ];
        override_at(profile, &path, "build-override", value, out);
    }
    let Some(packages) = table_in(table, "package") else {
        return;
    };
    for (id, value) in packages {
        let id = id.as_str();
        let judged = invalid_package_spec(profile, id, out);
        let _done = out.made(judged);
        let path = [
            At::Key("profile"),
            At::Key(profile),
            At::Key("package"),
            At::Key(id),
        ];
        override_at(profile, &path, id, value, out);
    }
}

/// The rules of an override at a path that ends with this key: it is a table.
fn override_at<'a>(
    profile: &'a str,
    path: &'a [At<'a>],
    key: &'a str,
    value: &'a Value,
    out: &mut Out,
) {
    let Value::Table(table) = value else {
        wrong_kind_at(path, &[], key, "a table", value, out);
        return;
    };
    let settings = Settings {
        profile,
        path,
        table,
        is_override: true,
    };
    rules_of_override(&settings, out);
}

/// The keys of settings that Cargo knows, some of which it refuses or ignores, as other rules say.
static KEYS: [&str; 23] = [
    "opt-level",
    "opt_level",
    "debug",
    "split-debuginfo",
    "strip",
    "debug-assertions",
    "debug_assertions",
    "overflow-checks",
    "overflow_checks",
    "lto",
    "panic",
    "incremental",
    "codegen-units",
    "codegen_units",
    "rpath",
    "inherits",
    "dir-name",
    "package",
    "build-override",
    "codegen-backend",
    "rustflags",
    "trim-paths",
    "hint-mostly-unused",
];

/// The rules of settings in an override, which is read as any value: the schema says the like of a profile.
fn rules_of_override(settings: &Settings<'_>, out: &mut Out) {
    rules_of_settings(settings, out);
    invalid_profile_override(settings, out);
    unknown_keys(settings.path, settings.table, &KEYS, out);
}

fn rules_of_settings(settings: &Settings<'_>, out: &mut Out) {
    opt_level(settings, out);
    debug(settings, out);
    panic_word(settings, out);
    invalid_lto(settings, out);
    no_codegen_units(settings, out);
    unknown_strip(settings, out);
    rustflags(settings, out);
    kinds_of_override(settings, out);
}

/// `rustflags`, which is unstable, is a list of texts.
fn rustflags(settings: &Settings<'_>, out: &mut Out) {
    match settings.table.get("rustflags") {
        Some(Value::Array(items)) if items.iter().all(|item| item.is_str()) => {}
        Some(value) => wrong_kind(settings, "rustflags", "a list of strings", value, out),
        None => {}
    }
}

/// The names that Cargo keeps, in addition to those that begin with its own.
static RESERVED: [&str; 21] = [
    "debug",
    "build-override",
    "build",
    "check",
    "clean",
    "config",
    "fetch",
    "fix",
    "install",
    "metadata",
    "package",
    "publish",
    "report",
    "root",
    "run",
    "rust",
    "rustc",
    "rustdoc",
    "target",
    "tmp",
    "uninstall",
];

/// Whether the name is one that Cargo keeps, whatever the case of its letters.
fn is_reserved(alloc: Global, name: &str) -> Result<bool, AllocError> {
    let mut lower = String::from_str(alloc, name)?;
    lower.make_ascii_lowercase();
    Ok(lower.as_str().starts_with("cargo") || RESERVED.contains(&lower.as_str()))
}

/// Whether Cargo takes the name for a profile.
pub(crate) fn is_profile_name(alloc: Global, name: &str) -> Result<bool, AllocError> {
    Ok(Word::Profile.fault(name).is_none() && !is_reserved(alloc, name)?)
}

fn invalid_profile_name(profiles: &Table, name: &str, out: &mut Out) {
    if let Some(fault) = Word::Profile.fault(name) {
        let path = [At::Key("profile"), At::Key(name)];
        let wrong = WrongWord {
            what: "profile name",
            word: name,
            fault,
        };
        say_wrong_word(INVALID_PROFILE_NAME, Part::Key, &path, &[], &wrong, out);
        out.note(&[Word::Profile.rule()]);
        return;
    }
    if out.made(is_reserved(out.alloc, name)) == Some(true) {
        reserved_profile_name(profiles, name, out);
    }
}

fn reserved_profile_name(profiles: &Table, name: &str, out: &mut Out) {
    let path = [At::Key("profile"), At::Key(name)];
    let words = ["profile name `{}` is reserved", name];
    out.key(RESERVED_PROFILE_NAME, &path, &[], &words);
    if name.eq_ignore_ascii_case("build-override") {
        out.note(&["what builds has settings of its own in `[profile.dev.build-override]`"]);
        return;
    }
    if !name.eq_ignore_ascii_case("debug") || profiles.contains_key("dev") {
        return;
    }
    let help = ["the profile of `cargo build` is named `dev`"];
    out.rename(&path, &[], "dev", false, &help);
}

fn doc_profile(name: &str, out: &mut Out) {
    if name != "doc" {
        return;
    }
    let path = [At::Key("profile"), At::Key(name)];
    let words = ["profile `doc` is deprecated and has no effect"];
    out.key(DOC_PROFILE, &path, &[], &words);
}

/// `opt-level` is a whole number from 0 to 3, `"s"` or `"z"`.
fn opt_level(settings: &Settings<'_>, out: &mut Out) {
    let key = "opt-level";
    match settings.table.get(key) {
        None => {}
        Some(Value::Integer(level)) if *level >= 0 && *level <= 3 => {}
        Some(Value::Integer(level)) => {
            let level = out.shown(level);
            let words = [
                "`opt-level` must be from 0 to 3, `\"s\"` or `\"z\"`, and not {}",
                level.as_str(),
            ];
            settings.value(OPT_LEVEL_TOO_HIGH, key, &words, out);
        }
        Some(Value::String(word)) if matches!(word.as_str(), "s" | "z") => {}
        Some(Value::String(word)) => opt_level_word(settings, word.as_str(), out),
        Some(value) => wrong_kind(
            settings,
            key,
            "a whole number, `\"s\"` or `\"z\"`",
            value,
            out,
        ),
    }
}

fn opt_level_word(settings: &Settings<'_>, word: &str, out: &mut Out) {
    let key = "opt-level";
    say_of_word(
        settings,
        UNKNOWN_WORD,
        key,
        "`opt-level` must be a whole number, `\"s\"` or `\"z\"`, and not `",
        word,
        out,
    );
    if !matches!(word, "0" | "1" | "2" | "3") {
        return;
    }
    settings.instead(key, word, true, out);
}

/// Says these words and then the word that stands there, as Rust writes it.
fn say_of_word(
    settings: &Settings<'_>,
    code: Code,
    key: &str,
    before: &str,
    word: &str,
    out: &mut Out,
) {
    let word = out.text(format!(in out.alloc; "{word:?}"));
    settings.value(code, key, &["{}{}`", before, word.as_str()], out);
}

/// `debug` is a boolean, a whole number from 0 to 2, or a word.
fn debug(settings: &Settings<'_>, out: &mut Out) {
    let key = "debug";
    match settings.table.get(key) {
        None => {}
        Some(Value::Boolean(_)) => {}
        Some(Value::Integer(level)) if *level >= 0 && *level <= 2 => {}
        Some(Value::Integer(level)) => {
            let level = out.shown(level);
            let words = ["`debug` must be from 0 to 2, and not {}", level.as_str()];
            settings.value(OUT_OF_RANGE, key, &words, out);
        }
        Some(Value::String(word)) => {
            one_of(settings, UNKNOWN_WORD, key, word.as_str(), &DEBUG, out);
        }
        Some(value) => wrong_kind(
            settings,
            key,
            "a boolean, a whole number from 0 to 2 or a word",
            value,
            out,
        ),
    }
}

/// The words of `debug`.
static DEBUG: [&str; 5] = [
    "none",
    "limited",
    "full",
    "line-tables-only",
    "line-directives-only",
];

fn panic_word(settings: &Settings<'_>, out: &mut Out) {
    let Some(word) = text_in(settings.table, "panic") else {
        return;
    };
    // The last one needs a feature of Cargo that is not stable.
    if word == "immediate-abort" {
        return;
    }
    let words = ["unwind", "abort"];
    one_of(settings, UNKNOWN_WORD, "panic", word, &words, out);
}

/// Says that a text is none of the words that its key has.
fn one_of(
    settings: &Settings<'_>,
    code: Code,
    key: &str,
    word: &str,
    words: &[&'static str],
    out: &mut Out,
) {
    if words.iter().any(|known| *known == word) {
        return;
    }
    let near = out.nearest_of(word, words);
    unknown_word(settings, code, key, word, out);
    note_of_words(words, out);
    if let Some(near) = near {
        let value = out.text(quoted(out.alloc, near));
        settings.instead(key, value.as_str(), false, out);
    }
}

fn unknown_word(settings: &Settings<'_>, code: Code, key: &str, word: &str, out: &mut Out) {
    let before = out.text(["unknown `", key, "` setting `"].concat(out.alloc));
    say_of_word(settings, code, key, before.as_str(), word, out);
}

/// The note that says which words a key has.
fn note_of_words(words: &[&str], out: &mut Out) {
    let list = out.text(words.join(out.alloc, "\"`, `\""));
    out.note(&["it is one of `\"{}\"`", list.as_str()]);
}

fn wrong_kind<'a>(
    settings: &Settings<'_>,
    key: &'a str,
    wanted: &'a str,
    value: &'a Value,
    out: &mut Out,
) {
    wrong_kind_at(settings.path, &[At::Key(key)], key, wanted, value, out);
}

/// `lto` is a boolean, or one of some words.
fn invalid_lto(settings: &Settings<'_>, out: &mut Out) {
    let key = "lto";
    // Of an override it is refused whatever it is.
    if settings.is_override {
        return;
    }
    match settings.table.get(key) {
        None => {}
        Some(Value::Boolean(_)) => {}
        Some(Value::String(word)) => match word.as_str() {
            "true" | "false" => boolean_in_quotes(settings, word.as_str(), out),
            // Cargo or rustc takes these for a boolean.
            "n" | "no" | "none" | "y" | "yes" | "on" => {}
            _ => one_of(
                settings,
                INVALID_LTO,
                key,
                word.as_str(),
                &["thin", "fat", "off"],
                out,
            ),
        },
        Some(value) => wrong_kind(settings, key, "a boolean or a word", value, out),
    }
}

fn boolean_in_quotes(settings: &Settings<'_>, word: &str, out: &mut Out) {
    let before = "`lto` is a boolean without quotes, and not `";
    say_of_word(settings, INVALID_LTO, "lto", before, word, out);
    settings.instead("lto", word, true, out);
}

fn no_codegen_units(settings: &Settings<'_>, out: &mut Out) {
    if settings.table.get("codegen-units") != Some(&Value::Integer(0)) {
        return;
    }
    let words = ["`codegen-units` must be at least 1"];
    settings.value(NO_CODEGEN_UNITS, "codegen-units", &words, out);
}

/// `strip` of an override, which is read as any value: the schema says this of a profile.
fn unknown_strip(settings: &Settings<'_>, out: &mut Out) {
    match text_in(settings.table, "strip") {
        Some(word) if settings.is_override => one_of(
            settings,
            UNKNOWN_STRIP,
            "strip",
            word,
            &["none", "debuginfo", "symbols"],
            out,
        ),
        _ => {}
    }
}

/// The kinds of what an override holds, which is read as any value: the schema says this of a profile.
fn kinds_of_override(settings: &Settings<'_>, out: &mut Out) {
    if !settings.is_override {
        return;
    }
    for key in ["debug-assertions", "incremental", "overflow-checks"] {
        match settings.table.get(key) {
            Some(value) if !value.is_bool() => wrong_kind(settings, key, "a boolean", value, out),
            _ => {}
        }
    }
    match settings.table.get("codegen-units") {
        Some(Value::Integer(count)) if *count < 0 => {
            let words = ["`codegen-units` must be at least 1"];
            settings.value(OUT_OF_RANGE, "codegen-units", &words, out);
        }
        Some(Value::Integer(_)) => {}
        Some(value) => wrong_kind(settings, "codegen-units", "a whole number", value, out),
        None => {}
    }
}

fn panic_of_tests(settings: &Settings<'_>, out: &mut Out) {
    let profile = settings.profile;
    if !matches!(profile, "test" | "bench") || !settings.table.contains_key("panic") {
        return;
    }
    let words = ["`panic` setting is ignored for `{}` profile", profile];
    settings.key(PANIC_OF_TESTS, "panic", &words, out);
    out.remove(
        settings.path,
        &[At::Key("panic")],
        true,
        &["remove `panic`"],
    );
}

fn invalid_profile_override(settings: &Settings<'_>, out: &mut Out) {
    for key in ["panic", "lto", "rpath"] {
        if settings.table.contains_key(key) {
            let words = ["`{}` may not be specified in an override of a profile", key];
            settings.key(INVALID_PROFILE_OVERRIDE, key, &words, out);
        }
    }
    for key in ["package", "build-override"] {
        if settings.table.contains_key(key) {
            let words = ["`{}` cannot be nested in an override", key];
            settings.key(INVALID_PROFILE_OVERRIDE, key, &words, out);
        }
    }
}

/// A key of `package` is `*` or a package id.
fn invalid_package_spec(profile: &str, id: &str, out: &mut Out) -> Result<(), AllocError> {
    if id == "*" || package_id(out.alloc, id)?.is_some() {
        return Ok(());
    }
    let path = [At::Key("profile"), At::Key(profile), At::Key("package")];
    let words = ["invalid package ID specification `{}`", id];
    out.key(INVALID_PACKAGE_SPEC, &path, &[At::Key(id)], &words);
    out.note(&["it is `*`, `name`, `name@version` or a URL"]);
    Ok(())
}
