//! Spellings that Cargo ignores or that are of an earlier time.

use manifest_rules::codes::{IGNORED_SPELLING, OLD_SPELLING};
use manifest_rules::look::{Look, Section, table_in};
use manifest_rules::report::{At, Out};
use toml::{Table, Value};

/// A spelling, and the one that Cargo knows.
struct Spelling {
    written: &'static str,
    known: &'static str,
}

/// Of the tables of a document, and of a platform.
static OLD_SECTIONS: [Spelling; 2] = [
    Spelling {
        written: "dev_dependencies",
        known: "dev-dependencies",
    },
    Spelling {
        written: "build_dependencies",
        known: "build-dependencies",
    },
];

/// Of a dependency.
static OLD_OF_DEPENDENCIES: Spelling = Spelling {
    written: "default_features",
    known: "default-features",
};

/// Of a target.
static OLD_OF_TARGETS: [Spelling; 2] = [
    Spelling {
        written: "crate_type",
        known: "crate-type",
    },
    Spelling {
        written: "proc_macro",
        known: "proc-macro",
    },
];

/// What Cargo ignores in a profile.
static IGNORED_OF_PROFILES: [Spelling; 4] = [
    Spelling {
        written: "opt_level",
        known: "opt-level",
    },
    Spelling {
        written: "debug_assertions",
        known: "debug-assertions",
    },
    Spelling {
        written: "codegen_units",
        known: "codegen-units",
    },
    Spelling {
        written: "overflow_checks",
        known: "overflow-checks",
    },
];

static IGNORED_OF_TARGETS: Spelling = Spelling {
    written: "required_features",
    known: "required-features",
};

static IGNORED_OF_DEPENDENCIES: Spelling = Spelling {
    written: "registry_index",
    known: "registry-index",
};

static IGNORED_OF_WORKSPACES: Spelling = Spelling {
    written: "default_members",
    known: "default-members",
};

/// All rules of spellings.
pub fn spellings(look: &Look<'_>, out: &mut Out) {
    old_spellings(&[], look.document, &OLD_SECTIONS, out);
    old_project(look, out);
    spellings_of_platforms(look, out);
    for target in &look.targets {
        let path = target.path.as_slice();
        old_spellings(path, target.table, &OLD_OF_TARGETS, out);
        let written = [At::Key(IGNORED_OF_TARGETS.written)];
        ignored_spelling(path, &written, target.table, &IGNORED_OF_TARGETS, out);
        ignored_plugin(path, target.table, out);
    }
    spellings_of_dependencies(look, out);
    spellings_of_profiles(look, out);
    if let Some(workspace) = look.workspace {
        let path = [At::Key("workspace"), At::Key(IGNORED_OF_WORKSPACES.written)];
        ignored_spelling(&path, &[], workspace, &IGNORED_OF_WORKSPACES, out);
    }
}

fn spellings_of_platforms(look: &Look<'_>, out: &mut Out) {
    let Some(platforms) = table_in(look.document, "target") else {
        return;
    };
    for (name, platform) in platforms {
        if let Value::Table(platform) = platform {
            let path = [At::Key("target"), At::Key(name.as_str())];
            old_spellings(&path, platform, &OLD_SECTIONS, out);
        }
    }
}

fn spellings_of_dependencies(look: &Look<'_>, out: &mut Out) {
    for section in &look.dependencies {
        for (name, dependency) in section.table {
            let Value::Table(table) = dependency else {
                continue;
            };
            let base = section.path.as_slice();
            let name = At::Key(name.as_str());
            if section.section != Section::Replace {
                let old = [name, At::Key(OLD_OF_DEPENDENCIES.written)];
                old_spelling(base, &old, table, &OLD_OF_DEPENDENCIES, out);
            }
            let ignored = [name, At::Key(IGNORED_OF_DEPENDENCIES.written)];
            ignored_spelling(base, &ignored, table, &IGNORED_OF_DEPENDENCIES, out);
        }
    }
}

fn spellings_of_profiles(look: &Look<'_>, out: &mut Out) {
    let Some(profiles) = table_in(look.document, "profile") else {
        return;
    };
    for (name, profile) in profiles {
        if let Value::Table(profile) = profile {
            spellings_of_profile(name.as_str(), profile, out);
        }
    }
}

fn spellings_of_profile<'a>(name: &'a str, profile: &'a Table, out: &mut Out) {
    ignored_in_profile(&[At::Key("profile"), At::Key(name)], profile, out);
    if let Some(inner) = table_in(profile, "build-override") {
        let path = [At::Key("profile"), At::Key(name), At::Key("build-override")];
        ignored_in_profile(&path, inner, out);
    }
    let Some(packages) = table_in(profile, "package") else {
        return;
    };
    for (id, inner) in packages {
        if let Value::Table(inner) = inner {
            let path = [
                At::Key("profile"),
                At::Key(name),
                At::Key("package"),
                At::Key(id.as_str()),
            ];
            ignored_in_profile(&path, inner, out);
        }
    }
}

/// What Cargo ignores in a profile, or in what overrides one.
fn ignored_in_profile(base: &[At<'_>], table: &Table, out: &mut Out) {
    for spelling in &IGNORED_OF_PROFILES {
        ignored_spelling(base, &[At::Key(spelling.written)], table, spelling, out);
    }
}

/// Whether a spelling stands in a table without the one that Cargo knows. (Of both the schema tells.)
fn stands_alone(table: &Table, spelling: &Spelling) -> bool {
    table.contains_key(spelling.written) && !table.contains_key(spelling.known)
}

/// The old spellings of a table.
fn old_spellings(base: &[At<'_>], table: &Table, spellings: &[Spelling], out: &mut Out) {
    for spelling in spellings {
        old_spelling(base, &[At::Key(spelling.written)], table, spelling, out);
    }
}

/// An old spelling of a table, and the path of its key.
fn old_spelling(
    base: &[At<'_>],
    rest: &[At<'_>],
    table: &Table,
    spelling: &Spelling,
    out: &mut Out,
) {
    if !stands_alone(table, spelling) {
        return;
    }
    let words = [
        "`{}` is deprecated in favor of `{}` and not supported in the 2024 edition",
        spelling.written,
        spelling.known,
    ];
    out.key(OLD_SPELLING, base, rest, &words);
    write_instead(base, rest, spelling.known, out);
}

/// A spelling of a table that Cargo does not know, and the path of its key.
fn ignored_spelling(
    base: &[At<'_>],
    rest: &[At<'_>],
    table: &Table,
    spelling: &Spelling,
    out: &mut Out,
) {
    if !stands_alone(table, spelling) {
        return;
    }
    let words = [
        "Cargo ignores `{}`: the key is `{}`",
        spelling.written,
        spelling.known,
    ];
    out.key(IGNORED_SPELLING, base, rest, &words);
    write_instead(base, rest, spelling.known, out);
}

/// The suggestion to write the key at the path as Cargo knows it.
fn write_instead(base: &[At<'_>], rest: &[At<'_>], known: &str, out: &mut Out) {
    out.rename(base, rest, known, true, &["write `{}`", known]);
}

/// `project`, where there is no `package`.
fn old_project(look: &Look<'_>, out: &mut Out) {
    if look.package.is_none() || look.package_key == "package" {
        return;
    }
    let path = [At::Key("project")];
    let words = ["`[project]` is deprecated in favor of `[package]`"];
    out.key(OLD_SPELLING, &path, &[], &words);
    write_instead(&path, &[], "package", out);
}

/// `plugin` of a target, which Cargo ignores.
fn ignored_plugin(base: &[At<'_>], table: &Table, out: &mut Out) {
    if !table.contains_key("plugin") {
        return;
    }
    let rest = [At::Key("plugin")];
    let words = ["Cargo ignores `plugin`: compiler plugins are gone"];
    out.key(IGNORED_SPELLING, base, &rest, &words);
    out.remove(base, &rest, true, &["remove it"]);
}
