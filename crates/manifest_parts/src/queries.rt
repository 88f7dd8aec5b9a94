//! What is asked of a dependency, of lints and of where a package may be published, once they are read.

ghost use Rattle.manifest_schema.specs.Prelude.{option_copied, detailed, inherited};
ghost use Rattle.std.specs.Prelude.{◌≡◌, false, is_some, map, option_map, string_bytes, unwrap_or};
ghost use Rattle.manifest_parts.specs.Parts.{inh_content, level_content, publish_content};
ghost use Rattle.manifest_parts.specs.Records.{detail_content, dependency_content, lint_content, lints_content};
ghost use Rattle.manifest_parts.specs.Queries.{is_elsewhere, says_more, simplify, req, req_features, is_optional, package_of, git_of, is_crates_io, detail_part, items_part, features_part, as_inheritable, local_part, level_of, priority_of, is_inherited, eq_bool};

use crate::choices::LintLevel;
use crate::dependency::{Dependency, DependencyDetail};
use crate::inherited::{MaybeInherited, True};
use crate::lints::{Lint, MaybeInheritedLintsSet};
use crate::publish::Publish;
use manifest_value::Schema;

impl Dependency {
    /// The detail of a `Detailed` dependency; of another there is none.
    ///
    /// ```ignore
    /// let detail = dependency.detail(); // of `{ version = '1', optional = true }`, with these two fields
    /// ```
    pub fn detail(&self) -> Option<&DependencyDetail>
        ensures { option_copied result ≡ detail_part self.now }
    {
        match self {
            Dependency::Simple(_) => None,
            Dependency::Inherited(_) => None,
            Dependency::Detailed(detail) => Some(detail),
        }
    }

    /// A `Detailed` dependency that says a version and nothing else becomes `Simple`; any other stays as it is. See the
    /// [Cargo reference](https://doc.rust-lang.org/cargo/reference/specifying-dependencies.html): `a = "1"` is short
    /// for `a = { version = "1" }`.
    ///
    /// ```ignore
    /// let dependency = dependency.simplify(); // of `{ workspace = false, version = '1' }`, `Simple` of this version
    /// ```
    pub fn simplify(self) -> Dependency
        ensures { dependency_content result ≡ simplify (dependency_content self) }
    {
        match self {
            Dependency::Simple(version) => Dependency::Simple(version),
            Dependency::Inherited(detail) => Dependency::Inherited(detail),
            Dependency::Detailed(detail) => simplify_detail(detail),
        }
    }

    /// The version requirement. Where none is said, as of what comes from a folder, a repository or the workspace, it
    /// is `*`, which any version meets. See the
    /// [Cargo reference](https://doc.rust-lang.org/cargo/reference/specifying-dependencies.html#wildcard-requirements).
    ///
    /// ```ignore
    /// let req = dependency.req(); // of `{ path = '../a' }`, "*"
    /// ```
    pub fn req(&self) -> &str
        ensures { result.now ≡ req (dependency_content self.now) }
    {
        match self {
            Dependency::Simple(version) => version.as_str(),
            Dependency::Inherited(_) => "*",
            Dependency::Detailed(detail) => text_or(&detail.version, "*"),
        }
    }

    /// The features that are turned on: of an `Inherited` dependency those that the member adds. See the
    /// [Cargo reference](https://doc.rust-lang.org/cargo/reference/features.html#dependency-features).
    ///
    /// ```ignore
    /// let features = dependency.req_features(); // of `{ version = '1', features = ['x'] }`, "x" alone
    /// ```
    pub fn req_features(&self) -> &[String]
        ensures part { result.now ≡ features_part self.now }
        ensures content { map string_bytes result.now ≡ req_features (dependency_content self.now) }
    {
        match self {
            Dependency::Simple(_) => &[],
            Dependency::Inherited(detail) => texts_of(&detail.features),
            Dependency::Detailed(detail) => texts_of(&detail.features),
        }
    }

    /// Whether the dependency is optional: it is built only where a feature turns it on. See the
    /// [Cargo reference](https://doc.rust-lang.org/cargo/reference/features.html#optional-dependencies).
    ///
    /// ```ignore
    /// let is_optional = dependency.optional(); // of `{ workspace = true, optional = true }`, true
    /// ```
    pub fn optional(&self) -> bool
        ensures { result ≡ is_optional (dependency_content self.now) }
    {
        match self {
            Dependency::Simple(_) => false,
            Dependency::Inherited(detail) => flag_or_false(&detail.optional),
            Dependency::Detailed(detail) => flag_or_false(&detail.optional),
        }
    }

    /// The name of the package, where the dependency stands under another; without one its own name is the package's.
    /// See the
    /// [Cargo reference](https://doc.rust-lang.org/cargo/reference/specifying-dependencies.html#renaming-dependencies-in-cargotoml).
    ///
    /// ```ignore
    /// let package = dependency.package(); // of `{ version = '1', package = 'b' }`, "b"
    /// ```
    pub fn package(&self) -> Option<&str>
        ensures { option_copied result ≡ package_of (dependency_content self.now) }
    {
        match self {
            Dependency::Simple(_) => None,
            Dependency::Inherited(_) => None,
            Dependency::Detailed(detail) => detail.package.as_deref(),
        }
    }

    /// The repository that the dependency comes from. See the
    /// [Cargo reference](https://doc.rust-lang.org/cargo/reference/specifying-dependencies.html#specifying-dependencies-from-git-repositories).
    ///
    /// ```ignore
    /// let git = dependency.git(); // of `{ git = 'https://example.com/a' }`, this address
    /// ```
    pub fn git(&self) -> Option<&str>
        ensures { option_copied result ≡ git_of (dependency_content self.now) }
    {
        match self {
            Dependency::Simple(_) => None,
            Dependency::Inherited(_) => None,
            Dependency::Detailed(detail) => detail.git.as_deref(),
        }
    }

    /// Whether the dependency comes from crates.io: it is `Simple`, or `Detailed` without any of `path`, `registry`,
    /// `registry-index`, `git`, `tag`, `branch` and `rev`. An `Inherited` one is not, since only the workspace says
    /// where it comes from. See the [Cargo
    /// reference](https://doc.rust-lang.org/cargo/reference/specifying-dependencies.html).
    ///
    /// ```ignore
    /// let is_crates_io = dependency.is_crates_io(); // of `{ version = '1', path = '../a' }`, false
    /// ```
    pub fn is_crates_io(&self) -> bool
        ensures { result ≡ is_crates_io (dependency_content self.now) }
    {
        match self {
            Dependency::Simple(_) => true,
            Dependency::Inherited(_) => false,
            Dependency::Detailed(detail) => !is_elsewhere(detail),
        }
    }
}

/// The text in the option, or `default` for `None`.
fn text_or<'a>(text: &'a Option<String>, default: &'a str) -> &'a str
    ensures { result.now ≡ unwrap_or (option_map string_bytes text.now) default.now }
{
    match text {
        Some(text) => text.as_str(),
        None => default,
    }
}

/// The texts in the option, or an empty slice for `None`.
fn texts_of(texts: &Option<Vec<String>>) -> &[String]
    ensures { result.now ≡ items_part texts.now }
{
    match texts {
        Some(texts) => texts.as_slice(),
        None => &[],
    }
}

/// The boolean in the option, or false for `None`.
fn flag_or_false(flag: &Option<bool>) -> bool
    ensures { result ≡ unwrap_or (option_map (λ b. b) flag.now) false }
{
    match flag {
        Some(flag) => *flag,
        None => false,
    }
}

/// Whether a field is given: `is_some`, with a contract that speaks of its content.
fn is_given<T: Schema>(field: &Option<T>) -> bool
    ensures { result ≡ is_some (option_map T.content field.now) }
{
    field.is_some()
}

/// Whether any of `path`, `registry`, `registry-index`, `git`, `tag`, `branch`, `rev` is given: then it is no
/// dependency on crates.io.
fn is_elsewhere(detail: &DependencyDetail) -> bool
    ensures { result ≡ is_elsewhere (detail_content detail.now) }
{
    is_given(&detail.path)
        || is_given(&detail.registry)
        || is_given(&detail.registry_index)
        || is_given(&detail.git)
        || is_given(&detail.tag)
        || is_given(&detail.branch)
        || is_given(&detail.rev)
}

/// Whether any field other than `version` is given.
fn says_more(detail: &DependencyDetail) -> bool
    ensures { result ≡ says_more (detail_content detail.now) }
{
    is_elsewhere(detail)
        || is_given(&detail.features)
        || is_given(&detail.optional)
        || is_given(&detail.default_features)
        || is_given(&detail.package)
}

/// `Simple` of the version, where that is the only field that is given; else `Detailed`, unchanged.
fn simplify_detail(mut detail: DependencyDetail) -> Dependency
    ensures { dependency_content result ≡ simplify (detailed (detail_content detail)) }
{
    if says_more(&detail) {
        return Dependency::Detailed(detail);
    }
    match detail.version.take() {
        Some(version) => Dependency::Simple(version),
        None => Dependency::Detailed(detail),
    }
}

impl<T> MaybeInherited<T> {
    /// The mark that the value is inherited from the workspace.
    ///
    /// ```ignore
    /// let edition = MaybeInherited::<Edition>::inherited();
    /// ```
    pub fn inherited() -> MaybeInherited<T>
        ensures { as_inheritable result ≡ inherited }
    {
        MaybeInherited::Inherited { workspace: True }
    }

    /// The value of the package's own, where it is `Local`.
    ///
    /// ```ignore
    /// let edition = MaybeInherited::Local(Edition::E2021).as_local(); // `Some(E2021)`
    /// ```
    pub fn as_local(self) -> Option<T>
        ensures { result ≡ local_part (as_inheritable self) }
    {
        match self {
            MaybeInherited::Inherited { .. } => None,
            MaybeInherited::Local(x) => Some(x),
        }
    }

    /// The same variant with a reference to the value, as `Option::as_ref`.
    ///
    /// ```ignore
    /// let version = version.as_ref(); // of `Local(x)`, `Local(&x)`
    /// ```
    pub fn as_ref(&self) -> MaybeInherited<&T>
        ensures { inh_content (λ x. x.now) result ≡ as_inheritable self.now }
    {
        match self {
            MaybeInherited::Inherited { .. } => MaybeInherited::Inherited { workspace: True },
            MaybeInherited::Local(x) => MaybeInherited::Local(x),
        }
    }
}

impl Lint {
    /// The level of the lint. See the
    /// [Cargo reference](https://doc.rust-lang.org/cargo/reference/manifest.html#the-lints-section).
    ///
    /// ```ignore
    /// let level = lint.level(); // of `{ level = 'deny', priority = -1 }`, `Deny`
    /// ```
    pub fn level(&self) -> LintLevel
        ensures { level_content result ≡ level_of (lint_content self.now) }
    {
        match self {
            Lint::Level(level) => *level,
            Lint::Config(config) => config.level,
        }
    }

    /// The priority of the lint, 0 of a level alone: where lints of one name or group overlap, the higher priority
    /// wins. See the [Cargo reference](https://doc.rust-lang.org/cargo/reference/manifest.html#the-lints-section).
    ///
    /// ```ignore
    /// let priority = lint.priority(); // of `'deny'`, 0
    /// ```
    pub fn priority(&self) -> i8
        ensures { result ≡ priority_of (lint_content self.now) }
    {
        match self {
            Lint::Level(_) => 0,
            Lint::Config(config) => config.priority,
        }
    }
}

impl MaybeInheritedLintsSet {
    /// Whether the lints come from the workspace. See the
    /// [Cargo reference](https://doc.rust-lang.org/cargo/reference/workspaces.html#the-lints-table).
    ///
    /// ```ignore
    /// let is_inherited = lints.is_inherited(); // of `{ workspace = true }`, true
    /// ```
    pub fn is_inherited(&self) -> bool
        ensures { result ≡ is_inherited (lints_content self.now) }
    {
        is_given(&self.workspace)
    }
}

impl Publish {
    /// Whether this says whether the package may be published at all: `Flag` of this boolean; a `Registry` with a name
    /// in it stands for true, one without for false. See the
    /// [Cargo reference](https://doc.rust-lang.org/cargo/reference/manifest.html#the-publish-field).
    ///
    /// ```ignore
    /// let may_be_published = publish.eq_bool(true); // of `['crates-io']`, true
    /// ```
    pub fn eq_bool(&self, b: bool) -> bool
        ensures { result ≡ eq_bool (publish_content self.now) b }
    {
        match self {
            Publish::Flag(flag) => *flag == b,
            Publish::Registry(registries) => registries.is_empty() != b,
        }
    }
}
