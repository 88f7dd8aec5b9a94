//! Rules of dependencies that look at packages and at the configuration, and what to look for.

use manifest_rules::codes::{MISSING_PATH_PACKAGE, UNKNOWN_REGISTRY};
use manifest_rules::look::{Look, PathPackage, Section, table_in, text_in};
use manifest_rules::report::{At, Out};
use std::alloc::AllocError;
use std::collections::BTreeMap;
use toml::{Table, Value};

/// All rules of what the sources of dependencies lead to.
pub fn sources_around(look: &Look<'_>, out: &mut Out) {
    let Some(packages) = out.made(packages_by_path(look)) else {
        return;
    };
    for section in &look.dependencies {
        if section.section == Section::Replace {
            continue;
        }
        for (name, dependency) in section.table {
            if section.inherits(dependency) {
                continue;
            }
            if let Value::Table(dependency) = dependency {
                let base = section.path.as_slice();
                path_package(&packages, base, name.as_str(), dependency, out);
                unknown_registry(look, base, name.as_str(), dependency, out);
            }
        }
    }
}

/// The packages that are known, by the paths that lead to them.
fn packages_by_path<'a>(look: &Look<'a>) -> Result<BTreeMap<String, &'a PathPackage>, AllocError> {
    let mut packages = BTreeMap::new(look.alloc);
    for package in look.around.packages.unwrap_or(&[]) {
        let _other = packages.insert(package.path.clone()?, package)?;
    }
    Ok(packages)
}

/// The `path` of a dependency leads to a package of its name.
fn path_package<'a>(
    packages: &BTreeMap<String, &'a PathPackage>,
    base: &[At<'_>],
    name: &'a str,
    dependency: &'a Table,
    out: &mut Out,
) {
    let Some(path) = text_in(dependency, "path") else {
        return;
    };
    let Some(package) = packages.get(path) else {
        return;
    };
    let wanted = text_in(dependency, "package").unwrap_or(name);
    let rest = [At::Key(name), At::Key("path")];
    match &package.name {
        None => {
            let words = [
                "no package at `{}`: there is no Cargo.toml with a package",
                path,
            ];
            out.value(MISSING_PATH_PACKAGE, base, &rest, &words);
        }
        Some(there) if there.as_str() == wanted => {}
        Some(there) => {
            let words = [
                "no matching package named `{}` at `{}`: the package there is `{}`",
                wanted,
                path,
                there.as_str(),
            ];
            out.value(MISSING_PATH_PACKAGE, base, &rest, &words);
        }
    }
}

/// Whether the configuration has this registry.
fn is_configured(config: &Table, registry: &str) -> bool {
    match table_in(config, "registries") {
        Some(registries) => registries.contains_key(registry),
        None => false,
    }
}

fn unknown_registry(
    look: &Look<'_>,
    base: &[At<'_>],
    name: &str,
    dependency: &Table,
    out: &mut Out,
) {
    let Some(registry) = text_in(dependency, "registry") else {
        return;
    };
    let Some(config) = look.around.config else {
        return;
    };
    if registry == "crates-io" || is_configured(config, registry) {
        return;
    }
    let words = [
        "registry index was not found in any configuration: `{}`",
        registry,
    ];
    let rest = [At::Key(name), At::Key("registry")];
    out.value(UNKNOWN_REGISTRY, base, &rest, &words);
}
