//! Rules that compare where dependencies come from.

use crate::dependencies::Dependency;
use manifest_rules::codes::{REPEATED_DEPENDENCY, SELF_DEPENDENCY, TWO_SOURCES};
use manifest_rules::files::plain_path;
use manifest_rules::look::{Look, Section, text_in};
use manifest_rules::report::{At, File, Out, Part};
use manifest_rules::words::url_fault;
use std::alloc::{AllocError, Global};
use std::collections::{BTreeMap, BTreeSet};
use toml::Table;

/// Where a dependency comes from, as far as the manifest says.
#[derive(PartialEq, Eq, Drop)]
enum Source {
    /// The folder, without `.` and, where that can be, without `..`.
    Path(String),
    /// The URL and the revision.
    Git(String),
    CratesIo,
    /// A registry of this name.
    Registry(String),
}

impl Source {
    /// The source of this table; nothing where only Cargo can tell.
    fn new(alloc: Global, detail: &Table) -> Result<Option<Source>, AllocError> {
        if let Some(url) = text_in(detail, "git") {
            return git_source(alloc, url, detail);
        }
        if let Some(path) = text_in(detail, "path") {
            return Ok(Some(Source::Path(plain_path(alloc, path)?)));
        }
        if detail.contains_key("registry-index") {
            return Ok(None);
        }
        let registry = text_in(detail, "registry").unwrap_or("crates-io");
        if registry == "crates-io" {
            return Ok(Some(Source::CratesIo));
        }
        Ok(Some(Source::Registry(String::from_str(alloc, registry)?)))
    }

    /// Whether two sources are two, whatever the folders and the configuration are.
    fn differs(&self, other: &Source) -> bool {
        match (self, other) {
            (Source::Registry(_), Source::Registry(_)) => false,
            (Source::Path(one), Source::Path(another)) => {
                ups(one.as_str()) == ups(another.as_str()) && one.as_str() != another.as_str()
            }
            _ => self != other,
        }
    }

    /// The two parts of a text that no other source has.
    fn words(&self) -> [&str; 2] {
        match self {
            Source::Path(path) => ["path ", path.as_str()],
            Source::Git(url) => ["git ", url.as_str()],
            Source::CratesIo => ["registry", ""],
            Source::Registry(name) => ["registry ", name.as_str()],
        }
    }
}

/// How a path leads out of its folder: what stands for an absolute path, or each `..` at its beginning.
fn ups(path: &str) -> Option<usize> {
    if path.starts_with('/') {
        return None;
    }
    Some(path.split('/').take_while(|part| *part == "..").count())
}

/// The source of a repository; nothing where its URL is invalid, or has a query or a fragment.
fn git_source(alloc: Global, url: &str, detail: &Table) -> Result<Option<Source>, AllocError> {
    if url.contains('?') || url.contains('#') || url_fault(alloc, url)?.is_some() {
        return Ok(None);
    }
    // As Cargo compares them: without a last `/` and `.git`, and without regard to case at GitHub.
    let bare = url.strip_suffix('/').unwrap_or(url);
    let bare = bare.strip_suffix(".git").unwrap_or(bare);
    let mut text = String::from_str(alloc, bare)?;
    if text.as_str().contains("://github.com/") {
        text.make_ascii_lowercase();
    }
    push_revision(detail, &mut text)?;
    Ok(Some(Source::Git(text)))
}

/// Writes the revisions that a dependency names after its URL.
fn push_revision(detail: &Table, text: &mut String) -> Result<(), AllocError> {
    for key in ["branch", "tag", "rev"] {
        if let Some(name) = text_in(detail, key) {
            text.push_str(" ")?;
            text.push_str(key)?;
            text.push_str(" ")?;
            text.push_str(name)?;
        }
    }
    Ok(())
}

/// A dependency of the package, and where it comes from.
#[derive(Drop)]
struct Sourced<'a> {
    dependency: Dependency<'a>,
    source: Source,
}

/// The dependencies of the package whose sources the manifest says.
fn all_sourced<'a>(look: &'a Look<'_>) -> Result<Vec<Sourced<'a>>, AllocError> {
    let mut all = Vec::new(look.alloc);
    for table in look.dependencies.iter() {
        if !table.section.is_of_package() {
            continue;
        }
        for (name, value) in table.table {
            let dependency = Dependency {
                section: table.section,
                base: table.path.as_slice(),
                name: name.as_str(),
                value,
            };
            let source = match dependency.detail() {
                Some(detail) => Source::new(look.alloc, detail)?,
                None if value.is_str() => Some(Source::CratesIo),
                None => None,
            };
            if let Some(source) = source {
                all.push(Sourced { dependency, source })?;
            }
        }
    }
    Ok(all)
}

/// All rules that compare dependencies.
pub fn sources(look: &Look<'_>, out: &mut Out) {
    let Some(all) = out.made(all_sourced(look)) else {
        return;
    };
    // (in one table no name stands twice)
    if look
        .dependencies
        .iter()
        .filter(|table| table.section.is_of_package())
        .count()
        > 1
    {
        let compared = two_sources(all.as_slice(), out);
        let _done = out.made(compared);
    }
    let compared = repeated_dependency(all.as_slice(), out);
    let _done = out.made(compared);
    for one in all.iter() {
        self_dependency(look, one, out);
    }
}

/// One name has one source in all tables.
fn two_sources(all: &[Sourced<'_>], out: &mut Out) -> Result<(), AllocError> {
    let mut seen = BTreeMap::new(out.alloc);
    for one in all {
        let name = one.dependency.name;
        let Some(first) = seen.insert(name, one)? else {
            continue;
        };
        if one.source.differs(&first.source) {
            differing_sources(&one.dependency, &first.dependency, out);
        }
        // (the others are compared with the first one too)
        seen.insert(name, first)?;
    }
    Ok(())
}

/// Says that two dependencies of one name have two sources.
fn differing_sources(one: &Dependency<'_>, first: &Dependency<'_>, out: &mut Out) {
    let name = [At::Key(one.name)];
    let words = [
        "dependency `{}` has different sources in two tables",
        one.name,
    ];
    out.key(TWO_SOURCES, one.base, &name, &words);
    let label = ["its other source is here"];
    out.label(File::Own, Part::Key, first.base, &name, &label);
    out.note(&["one name has one source; `package` gives one of two another name"]);
}

/// What says whether two dependencies are one package: its name, its source and, of a registry, the requirement.
fn identity(alloc: Global, one: &Sourced<'_>) -> Result<String, AllocError> {
    let [kind, source] = one.source.words();
    let requirement = match one.source {
        Source::CratesIo | Source::Registry(_) => match one.dependency.requirement() {
            Some((text, _is_alone)) => text.trim(),
            None => "",
        },
        _ => "",
    };
    let package = one.dependency.package();
    lines(alloc, package, kind, source, requirement)
}

fn lines<'a>(
    alloc: Global,
    package: &'a str,
    kind: &'a str,
    source: &'a str,
    requirement: &'a str,
) -> Result<String, AllocError> {
    [package, "\n", kind, source, "\n", requirement].concat(alloc)
}

/// Whether Rust code sees two keys as one name.
fn is_one_crate(one: &str, another: &str) -> bool {
    one.chars()
        .map(|ch| if ch == '-' { '_' } else { ch })
        .eq(another.chars().map(|ch| if ch == '-' { '_' } else { ch }))
}

/// The packages that are dependencies by other names than their own.
fn renamed_packages<'a>(
    alloc: Global,
    all: &[Sourced<'a>],
) -> Result<BTreeSet<&'a str>, AllocError> {
    let mut packages = BTreeSet::new(alloc);
    for one in all {
        let package = one.dependency.package();
        if package != one.dependency.name {
            packages.insert(package)?;
        }
    }
    Ok(packages)
}

/// A package has one name among the dependencies.
fn repeated_dependency(all: &[Sourced<'_>], out: &mut Out) -> Result<(), AllocError> {
    let renamed = renamed_packages(out.alloc, all)?;
    let mut seen = BTreeMap::new(out.alloc);
    for one in all {
        if !renamed.contains(&one.dependency.package()) {
            continue;
        }
        let identity = identity(out.alloc, one)?;
        let Some(first) = seen.get(&identity) else {
            seen.insert(identity, one)?;
            continue;
        };
        if !is_one_crate(one.dependency.name, first.dependency.name) {
            two_names(&one.dependency, &first.dependency, out);
        }
    }
    Ok(())
}

/// Says that one package is two dependencies.
fn two_names(one: &Dependency<'_>, first: &Dependency<'_>, out: &mut Out) {
    let words = [
        "package `{}` is a dependency by two names, `{}` and `{}`",
        one.package(),
        &*first.name,
        one.name,
    ];
    out.key(REPEATED_DEPENDENCY, one.base, &[At::Key(one.name)], &words);
    let other = [At::Key(first.name)];
    let label = ["it has another name here"];
    out.label(File::Own, Part::Key, first.base, &other, &label);
}

/// A package does not depend on itself, but for its tests.
fn self_dependency(look: &Look<'_>, one: &Sourced<'_>, out: &mut Out) {
    let is_own = match &one.source {
        Source::Path(path) => path.is_empty(),
        _ => false,
    };
    if !is_own || one.dependency.section == Section::Dev {
        return;
    }
    let Some(package) = look.package else {
        return;
    };
    if text_in(package, "name") != Some(one.dependency.package()) {
        return;
    }
    let Dependency { base, name, .. } = one.dependency;
    let words = ["package `{}` depends on itself", one.dependency.package()];
    out.key(SELF_DEPENDENCY, base, &[At::Key(name)], &words);
    out.note(&["only a dev-dependency may be the package itself"]);
}
