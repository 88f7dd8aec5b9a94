//! The codes of diagnostics: one line each, with its level and what it looks at. `docs/CHECKS.md` has a page for each.

ghost use Rattle.std.specs.Prelude.{◌≡◌};
ghost use Rattle.manifest_rules.specs.Rules as spec;

use crate::look::Edition;

/// How grave a diagnostic is.
#[derive(Clone, Copy, PartialEq, Eq)]
pub enum Level {
    /// Cargo refuses the manifest, when it reads it or when it builds the package.
    Error,
    /// Cargo warns of it, or it rests on the configuration or on the version of Cargo.
    Warning,
    /// It is worth knowing, and nobody refuses it.
    Note,
}

/// What a rule looks at.
#[derive(Clone, Copy, PartialEq, Eq)]
pub enum Needs {
    /// The manifest alone.
    Text,
    /// The names of the files in the folders of the package, and the manifests of the members.
    Folder,
    /// The manifest of the workspace's root.
    Root,
    /// The configuration of Cargo.
    Config,
    /// The channel and the version of Cargo or of the compiler: 1.95, stable.
    Host,
}

/// A kind of diagnostic.
#[derive(Clone, Copy, PartialEq, Eq)]
pub struct Code {
    /// Its name in words, as `unknown-feature`.
    pub name: &'static str,
    pub level: Level,
    /// The level in a package of the edition 2024.
    pub in_2024: Level,
    pub needs: Needs,
}

impl Code {
    /// The level in a package of this edition.
    pub fn level_in(&self, edition: Edition) -> Level
        ensures { result ≡ spec.level_in edition self.now }
    {
        match edition {
            Edition::E2024 => self.in_2024,
            Edition::E2021 => self.level,
            Edition::E2018 => self.level,
            Edition::E2015 => self.level,
        }
    }
}

/// A code of this level and name, which looks at this.
macro_rules! code {
    ($level:ident, $name:literal, $needs:ident) => {
        code!($level to $level, $name, $needs)
    };
    ($level:ident to $in_2024:ident, $name:literal, $needs:ident) => {
        Code {
            name: $name,
            level: Level::$level,
            in_2024: Level::$in_2024,
            needs: Needs::$needs,
        }
    };
}

// The text and its schema

/// The bytes are not UTF-8.
pub const NOT_UTF8: Code = code!(Error, "not-utf8", Text);
/// The text is no TOML (a key or a table twice, a number of more than 64 bits, and so on).
pub const INVALID_TOML: Code = code!(Error, "invalid-toml", Text);
/// Arrays and tables stand in one another too deep.
pub const NESTS_TOO_DEEP: Code = code!(Error, "nests-too-deep", Text);
/// Neither `package` nor `workspace` (nor `project`).
pub const NO_PACKAGE: Code = code!(Error, "no-package", Text);
/// A table of packages (`features`, `lib`, `dependencies` ..) where there is a workspace and no package.
pub const TABLE_WITHOUT_PACKAGE: Code = code!(Error, "table-without-package", Text);
/// A value of another kind than its key has.
pub const WRONG_KIND: Code = code!(Error, "wrong-kind", Text);
/// A key that has to be there is not.
pub const MISSING_KEY: Code = code!(Error, "missing-key", Text);
/// A key by both of its spellings.
pub const TWO_SPELLINGS: Code = code!(Warning to Error, "two-spellings", Text);
/// A text that is not one of the words that its key has.
pub const UNKNOWN_WORD: Code = code!(Error, "unknown-word", Text);
/// A whole number out of the range of its key.
pub const OUT_OF_RANGE: Code = code!(Error, "out-of-range", Text);
/// A `workspace` that is not `true` where a value is inherited.
pub const NOT_TRUE: Code = code!(Error, "not-true", Text);
/// A float in metadata, which Cargo reads and this library's manifests do not hold.
pub const FLOAT_IN_METADATA: Code = code!(Note, "float-in-metadata", Text);
/// A whole number that Cargo reads and this library's manifests do not hold.
pub const NUMBER_NOT_KEPT: Code = code!(Note, "number-not-kept", Text);
/// A value that does not fit, and counts as absent (of a badge).
pub const IGNORED_VALUE: Code = code!(Warning, "ignored-value", Text);
/// A key that nothing reads.
pub const UNKNOWN_KEY: Code = code!(Warning, "unknown-key", Text);
/// A key that nothing reads, with one of nearly that name in its table.
pub const MISSPELLED_KEY: Code = code!(Warning, "misspelled-key", Text);
/// A key that Cargo reads and this library does not keep.
pub const CARGO_KEY: Code = code!(Note, "cargo-key", Text);
/// A key of Cargo's that needs a nightly Cargo, or a feature that is not stable.
pub const UNSTABLE_KEY: Code = code!(Warning, "unstable-key", Host);
/// A key of `.cargo/config.toml` at the top of a manifest.
pub const CONFIGURATION_KEY: Code = code!(Warning, "configuration-key", Text);
/// A spelling with `_` that Cargo does not know and ignores (`opt_level`), and `plugin`.
pub const IGNORED_SPELLING: Code = code!(Warning, "ignored-spelling", Text);
/// A spelling or a name of an earlier time (`project`, `dev_dependencies`).
pub const OLD_SPELLING: Code = code!(Warning to Error, "old-spelling", Text);

// cargo-features

/// A feature of Cargo's twice.
pub const REPEATED_CARGO_FEATURE: Code = code!(Error, "repeated-cargo-feature", Text);
/// A feature that was removed.
pub const REMOVED_CARGO_FEATURE: Code = code!(Error, "removed-cargo-feature", Text);
/// A feature that is stable by now.
pub const STABLE_CARGO_FEATURE: Code = code!(Warning, "stable-cargo-feature", Host);
/// A feature that a stable Cargo does not take.
pub const UNSTABLE_CARGO_FEATURE: Code = code!(Warning, "unstable-cargo-feature", Host);
/// A feature that Cargo 1.95 does not know.
pub const UNKNOWN_CARGO_FEATURE: Code = code!(Warning, "unknown-cargo-feature", Host);
/// `cargo-features` inside `[package]`.
pub const MISPLACED_CARGO_FEATURES: Code = code!(Error, "misplaced-cargo-features", Text);

// The package

/// A name that is no word of names.
pub const INVALID_PACKAGE_NAME: Code = code!(Error, "invalid-package-name", Text);
/// A version that is no whole semantic version.
pub const INVALID_VERSION: Code = code!(Error, "invalid-version", Text);
/// `publish` asks for a registry, and there is no version.
pub const MISSING_VERSION: Code = code!(Error, "missing-version", Text);
/// No edition.
pub const MISSING_EDITION: Code = code!(Warning, "missing-edition", Text);
/// A `rust-version` that is not one to three numbers.
pub const INVALID_RUST_VERSION: Code = code!(Error, "invalid-rust-version", Text);
/// An edition that needs a newer compiler than `rust-version`.
pub const RUST_VERSION_BELOW_EDITION: Code = code!(Error, "rust-version-below-edition", Text);
/// Both of them.
pub const LICENSE_AND_LICENSE_FILE: Code = code!(Warning, "license-and-license-file", Text);
/// `links` without a build script.
pub const LINKS_WITHOUT_BUILD_SCRIPT: Code = code!(Error, "links-without-build-script", Folder);
/// The file of `build` is not there.
pub const MISSING_BUILD_SCRIPT: Code = code!(Error, "missing-build-script", Folder);
/// A path of a build script without a file name.
pub const INVALID_BUILD_PATH: Code = code!(Error, "invalid-build-path", Text);
/// `default-run` names no binary.
pub const UNKNOWN_DEFAULT_RUN: Code = code!(Error, "unknown-default-run", Folder);
/// `resolver` in the package and in the workspace of one file.
pub const TWO_RESOLVERS: Code = code!(Error, "two-resolvers", Text);
/// The key `package.workspace` where there is `[workspace]`.
pub const WORKSPACE_BESIDE_ROOT: Code = code!(Error, "workspace-beside-root", Text);
/// Nothing to build.
pub const NO_TARGETS: Code = code!(Error, "no-targets", Folder);

// Inherited from the workspace

/// Something is inherited, and no root is found, or it has no workspace.
pub const NO_WORKSPACE: Code = code!(Error, "no-workspace", Root);
/// The workspace does not have what is inherited.
pub const NOT_IN_WORKSPACE: Code = code!(Error, "not-in-workspace", Root);
/// `default-features = false` of an inherited dependency whose workspace does not say false.
pub const IGNORED_DEFAULT_FEATURES: Code =
    code!(Warning to Error, "ignored-default-features", Root);
/// A key that is ignored next to `workspace = true`.
pub const IGNORED_WHEN_INHERITED: Code = code!(Warning, "ignored-when-inherited", Text);

// Targets

/// A binary, example, test or bench without a name.
pub const MISSING_TARGET_NAME: Code = code!(Error, "missing-target-name", Text);
/// A name of white space alone.
pub const EMPTY_TARGET_NAME: Code = code!(Error, "empty-target-name", Text);
/// The name of a library with `-`.
pub const INVALID_LIBRARY_NAME: Code = code!(Error, "invalid-library-name", Text);
/// A binary named `deps`, `examples`, `build` or `incremental`.
pub const RESERVED_BINARY_NAME: Code = code!(Error, "reserved-binary-name", Folder);
/// Two targets of one kind with one name.
pub const REPEATED_TARGET_NAME: Code = code!(Error, "repeated-target-name", Folder);
/// A name that rustc refuses.
pub const INVALID_TARGET_NAME: Code = code!(Error, "invalid-target-name", Text);
/// A declared target without a path, and no file is found for it.
pub const MISSING_TARGET_FILE: Code = code!(Error, "missing-target-file", Folder);
/// Two files fit a declared target.
pub const AMBIGUOUS_TARGET_FILE: Code = code!(Error, "ambiguous-target-file", Folder);
/// The path of a target names no file.
pub const WRONG_TARGET_PATH: Code = code!(Error, "wrong-target-path", Folder);
/// One file in two targets.
pub const SHARED_TARGET_FILE: Code = code!(Warning, "shared-target-file", Folder);
/// A binary with a crate type.
pub const CRATE_TYPE_OF_BINARY: Code = code!(Error, "crate-type-of-binary", Text);
/// A binary that is a procedural macro.
pub const PROC_MACRO_BINARY: Code = code!(Error, "proc-macro-binary", Text);
/// A library of both types.
pub const DYLIB_AND_CDYLIB: Code = code!(Error, "dylib-and-cdylib", Text);
/// `proc-macro` among the crate types (with others an error).
pub const PROC_MACRO_CRATE_TYPE: Code = code!(Warning, "proc-macro-crate-type", Text);
/// A crate type that rustc 1.95 does not know.
pub const UNKNOWN_CRATE_TYPE: Code = code!(Warning, "unknown-crate-type", Host);
/// The crate types of a library are empty or have `bin`.
pub const INVALID_LIBRARY_TYPE: Code = code!(Error, "invalid-library-type", Text);
/// An edition of a target.
pub const EDITION_OF_TARGET: Code = code!(Warning, "edition-of-target", Text);
/// `dep:x` or `x?/y` among the required features.
pub const INVALID_REQUIRED_FEATURE: Code = code!(Error, "invalid-required-feature", Text);
/// A required feature that is not there.
pub const UNKNOWN_REQUIRED_FEATURE: Code = code!(Warning, "unknown-required-feature", Text);
/// Edition 2015: files that are not found, as targets of their kind are declared.
pub const UNDECLARED_TARGET_FILES: Code = code!(Warning, "undeclared-target-files", Folder);

// Dependencies

/// A name, or a `package`, that is no word of names.
pub const INVALID_DEPENDENCY_NAME: Code = code!(Error, "invalid-dependency-name", Text);
/// A dependency without version, path and git.
pub const NO_SOURCE: Code = code!(Error, "no-source", Text);
/// `git` with `path`, `registry` or `registry-index`; `registry` with `registry-index`.
pub const CONFLICTING_SOURCES: Code = code!(Error, "conflicting-sources", Text);
/// `branch`, `tag` or `rev` without `git`.
pub const REVISION_WITHOUT_GIT: Code = code!(Error, "revision-without-git", Text);
/// More than one of `branch`, `tag` and `rev`.
pub const SEVERAL_REVISIONS: Code = code!(Error, "several-revisions", Text);
/// An invalid URL, or one without a base.
pub const INVALID_URL: Code = code!(Error, "invalid-url", Text);
/// A `#` in the URL of `git`.
pub const FRAGMENT_IN_URL: Code = code!(Warning, "fragment-in-url", Text);
/// An invalid version requirement.
pub const INVALID_REQUIREMENT: Code = code!(Error, "invalid-requirement", Text);
/// `+` in a requirement.
pub const METADATA_IN_REQUIREMENT: Code = code!(Warning, "metadata-in-requirement", Text);
/// A feature of a dependency with `/`, or `dep:` at its beginning.
pub const INVALID_DEPENDENCY_FEATURE: Code = code!(Error, "invalid-dependency-feature", Text);
/// A registry that is no word of names.
pub const INVALID_REGISTRY_NAME: Code = code!(Error, "invalid-registry-name", Text);
/// A registry that no configuration has.
pub const UNKNOWN_REGISTRY: Code = code!(Warning, "unknown-registry", Config);
/// `optional` in dev-dependencies.
pub const OPTIONAL_DEV_DEPENDENCY: Code = code!(Error, "optional-dev-dependency", Text);
/// One name with two sources in two tables.
pub const TWO_SOURCES: Code = code!(Error, "two-sources", Text);
/// `lib` or `target` without `artifact`.
pub const ARTIFACT_WITHOUT_ARTIFACT: Code = code!(Error, "artifact-without-artifact", Text);
/// `base` without `path`.
pub const BASE_WITHOUT_PATH: Code = code!(Error, "base-without-path", Text);
/// `optional` or `public` that is true in `workspace.dependencies`.
pub const OPTIONAL_IN_WORKSPACE: Code = code!(Error, "optional-in-workspace", Text);
/// Two names of one package.
pub const REPEATED_DEPENDENCY: Code = code!(Error, "repeated-dependency", Text);
/// A package that depends on itself.
pub const SELF_DEPENDENCY: Code = code!(Error, "self-dependency", Text);
/// A path without a package, or with a package of another name.
pub const MISSING_PATH_PACKAGE: Code = code!(Error, "missing-path-package", Folder);

// Platforms

/// A platform that is no name and no `cfg(..)`.
pub const INVALID_PLATFORM: Code = code!(Error, "invalid-platform", Text);
/// `test`, `debug_assertions`, `proc_macro` or `feature = ".."`.
pub const NEVER_TRUE_CFG: Code = code!(Warning, "never-true-cfg", Text);
/// `true = ".."` or `false = ".."`.
pub const BOOLEAN_AS_CFG_KEY: Code = code!(Warning, "boolean-as-cfg-key", Text);

// Features

/// A name that is no name of a feature.
pub const INVALID_FEATURE_NAME: Code = code!(Error, "invalid-feature-name", Text);
/// A feature enables what is neither a feature nor a dependency.
pub const UNKNOWN_FEATURE: Code = code!(Error, "unknown-feature", Text);
/// A feature enables a dependency that is not optional.
pub const DEPENDENCY_NOT_OPTIONAL: Code = code!(Error, "dependency-not-optional", Text);
/// `dep:` with `/`, or two `/`.
pub const INVALID_FEATURE_REFERENCE: Code = code!(Error, "invalid-feature-reference", Text);
/// An optional dependency that a feature of its name hides, and no feature enables.
pub const UNREACHABLE_DEPENDENCY: Code = code!(Error, "unreachable-dependency", Text);
/// A feature named `default-features`.
pub const DEFAULT_FEATURES_FEATURE: Code = code!(Warning, "default-features-feature", Text);
/// A feature that names itself.
pub const FEATURE_ENABLES_ITSELF: Code = code!(Error, "feature-enables-itself", Text);

// Profiles

/// A name that is no name of a profile.
pub const INVALID_PROFILE_NAME: Code = code!(Error, "invalid-profile-name", Text);
/// A name that Cargo keeps.
pub const RESERVED_PROFILE_NAME: Code = code!(Error, "reserved-profile-name", Text);
/// `lto` that is `"true"`, `"false"` or another word that rustc refuses.
pub const INVALID_LTO: Code = code!(Error, "invalid-lto", Text);
/// An `opt-level` over 3 or below 0.
pub const OPT_LEVEL_TOO_HIGH: Code = code!(Error, "opt-level-too-high", Text);
/// `codegen-units = 0`.
pub const NO_CODEGEN_UNITS: Code = code!(Error, "no-codegen-units", Text);
/// `strip` with a word that rustc 1.95 does not know.
pub const UNKNOWN_STRIP: Code = code!(Warning, "unknown-strip", Host);
/// `panic` in the profile `test` or `bench`.
pub const PANIC_OF_TESTS: Code = code!(Warning, "panic-of-tests", Text);
/// `inherits = "debug"`.
pub const INHERITS_DEBUG: Code = code!(Error, "inherits-debug", Text);
/// `inherits` in `dev` or `release`.
pub const INHERITS_OF_BUILT_IN: Code = code!(Error, "inherits-of-built-in", Text);
/// A profile of one's own without `inherits`.
pub const MISSING_INHERITS: Code = code!(Error, "missing-inherits", Text);
/// `inherits` of a profile that is not here.
pub const UNKNOWN_INHERITS: Code = code!(Warning, "unknown-inherits", Config);
/// Profiles that inherit from one another in a circle.
pub const CIRCULAR_INHERITS: Code = code!(Error, "circular-inherits", Text);
/// `dir-name`.
pub const REMOVED_DIR_NAME: Code = code!(Error, "removed-dir-name", Text);
/// The profile `doc`, which is not used.
pub const DOC_PROFILE: Code = code!(Warning, "doc-profile", Text);
/// `panic`, `lto`, `rpath`, `package` or `build-override` in an override.
pub const INVALID_PROFILE_OVERRIDE: Code = code!(Error, "invalid-profile-override", Text);
/// A key of `profile.*.package` that is no package id.
pub const INVALID_PACKAGE_SPEC: Code = code!(Error, "invalid-package-spec", Text);
/// `profile`, `patch`, `replace` (or another `resolver`) of a member that is not the root.
pub const IGNORED_IN_MEMBER: Code = code!(Warning, "ignored-in-member", Root);

// Lints

/// A tool of lints that is not `rust`, `clippy`, `rustdoc` or `cargo`.
pub const UNKNOWN_LINT_TOOL: Code = code!(Warning, "unknown-lint-tool", Text);
/// Lints of `cargo`.
pub const UNSTABLE_LINT_TOOL: Code = code!(Warning, "unstable-lint-tool", Host);
/// `::` in the name of a lint.
pub const TOOL_IN_LINT_NAME: Code = code!(Error, "tool-in-lint-name", Text);
/// A key of a lint that nothing reads.
pub const IGNORED_LINT_KEY: Code = code!(Warning, "ignored-lint-key", Text);
/// A `check-cfg` that is no list of texts.
pub const INVALID_CHECK_CFG: Code = code!(Error, "invalid-check-cfg", Text);
/// Lints of a tool where they are inherited.
pub const LINTS_BESIDE_WORKSPACE: Code = code!(Error, "lints-beside-workspace", Text);

// Workspaces

/// A member, or a pattern, that leads to no manifest.
pub const MISSING_MEMBER: Code = code!(Error, "missing-member", Folder);
/// An invalid pattern.
pub const INVALID_MEMBER_PATTERN: Code = code!(Error, "invalid-member-pattern", Text);
/// A default member that is no member.
pub const UNKNOWN_DEFAULT_MEMBER: Code = code!(Error, "unknown-default-member", Folder);
/// Two members of one name.
pub const REPEATED_PACKAGE_NAME: Code = code!(Error, "repeated-package-name", Folder);
/// A member that is the root of a workspace.
pub const NESTED_WORKSPACE: Code = code!(Error, "nested-workspace", Folder);
/// A package below a root that neither lists nor excludes it.
pub const NOT_A_MEMBER: Code = code!(Error, "not-a-member", Root);
/// `package.workspace` leads to no root.
pub const WRONG_WORKSPACE_PATH: Code = code!(Error, "wrong-workspace-path", Root);
/// A `Cargo.toml` in a folder above that Cargo cannot read.
pub const UNREADABLE_ROOT: Code = code!(Error, "unreadable-root", Root);
/// No package, no `resolver`, and a member of edition 2021 or later.
pub const MISSING_RESOLVER: Code = code!(Warning, "missing-resolver", Folder);
/// A source to patch that is no URL and no registry that is known.
pub const UNKNOWN_PATCH_SOURCE: Code = code!(Warning, "unknown-patch-source", Config);
/// `workspace = true` in `patch`.
pub const INHERITED_PATCH: Code = code!(Error, "inherited-patch", Text);
/// `features` or `default-features` in `patch`.
pub const IGNORED_IN_PATCH: Code = code!(Warning, "ignored-in-patch", Text);
/// Both of them.
pub const REPLACE_BESIDE_PATCH: Code = code!(Error, "replace-beside-patch", Text);
/// A key of `replace` that is no package id with a whole version.
pub const INVALID_REPLACE_KEY: Code = code!(Error, "invalid-replace-key", Text);
/// An element of `replace` with a version.
pub const VERSION_IN_REPLACE: Code = code!(Error, "version-in-replace", Text);
/// A dependency of the workspace that no member inherits.
pub const UNUSED_WORKSPACE_DEPENDENCY: Code = code!(Note, "unused-workspace-dependency", Folder);
/// The workspace has lints, and the member does not take them.
pub const LINTS_NOT_INHERITED: Code = code!(Note, "lints-not-inherited", Root);

// Text, time and settings

/// Characters that turn the direction of a text.
pub const DIRECTION_CHARACTERS: Code = code!(Warning, "direction-characters", Text);
/// Something that is newer than `rust-version` says.
pub const NEWER_THAN_RUST_VERSION: Code = code!(Note, "newer-than-rust-version", Text);
/// What stands in the metadata for this program, and is no setting.
pub const IGNORED_SETTING: Code = code!(Warning, "ignored-setting", Text);

// Publishing (said by --publish only)

/// A path dependency without a version.
pub const PATH_WITHOUT_VERSION: Code = code!(Warning, "path-without-version", Text);
/// No description.
pub const MISSING_DESCRIPTION: Code = code!(Warning, "missing-description", Text);
/// Neither license nor license-file.
pub const MISSING_LICENSE: Code = code!(Warning, "missing-license", Text);
/// A license that is no SPDX expression.
pub const INVALID_LICENSE: Code = code!(Warning, "invalid-license", Text);
/// None of documentation, homepage, repository.
pub const MISSING_LINKS: Code = code!(Warning, "missing-links", Text);
/// Both of them.
pub const INCLUDE_AND_EXCLUDE: Code = code!(Warning, "include-and-exclude", Text);
/// The file of `license-file` or `readme` is not there.
pub const MISSING_PACKAGE_FILE: Code = code!(Warning, "missing-package-file", Folder);
/// More than five keywords, or one that a registry refuses.
pub const INVALID_KEYWORDS: Code = code!(Warning, "invalid-keywords", Text);
/// More than five categories.
pub const TOO_MANY_CATEGORIES: Code = code!(Warning, "too-many-categories", Text);
/// The requirement `*`.
pub const WILDCARD_REQUIREMENT: Code = code!(Warning, "wildcard-requirement", Text);

/// All of them, in the order of `docs/CHECKS.md`.
pub const ALL: &[Code] = &[
    NOT_UTF8,
    INVALID_TOML,
    NESTS_TOO_DEEP,
    NO_PACKAGE,
    TABLE_WITHOUT_PACKAGE,
    WRONG_KIND,
    MISSING_KEY,
    TWO_SPELLINGS,
    UNKNOWN_WORD,
    OUT_OF_RANGE,
    NOT_TRUE,
    FLOAT_IN_METADATA,
    NUMBER_NOT_KEPT,
    IGNORED_VALUE,
    UNKNOWN_KEY,
    MISSPELLED_KEY,
    CARGO_KEY,
    UNSTABLE_KEY,
    CONFIGURATION_KEY,
    IGNORED_SPELLING,
    OLD_SPELLING,
    REPEATED_CARGO_FEATURE,
    REMOVED_CARGO_FEATURE,
    STABLE_CARGO_FEATURE,
    UNSTABLE_CARGO_FEATURE,
    UNKNOWN_CARGO_FEATURE,
    MISPLACED_CARGO_FEATURES,
    INVALID_PACKAGE_NAME,
    INVALID_VERSION,
    MISSING_VERSION,
    MISSING_EDITION,
    INVALID_RUST_VERSION,
    RUST_VERSION_BELOW_EDITION,
    LICENSE_AND_LICENSE_FILE,
    LINKS_WITHOUT_BUILD_SCRIPT,
    MISSING_BUILD_SCRIPT,
    INVALID_BUILD_PATH,
    UNKNOWN_DEFAULT_RUN,
    TWO_RESOLVERS,
    WORKSPACE_BESIDE_ROOT,
    NO_TARGETS,
    NO_WORKSPACE,
    NOT_IN_WORKSPACE,
    IGNORED_DEFAULT_FEATURES,
    IGNORED_WHEN_INHERITED,
    MISSING_TARGET_NAME,
    EMPTY_TARGET_NAME,
    INVALID_LIBRARY_NAME,
    RESERVED_BINARY_NAME,
    REPEATED_TARGET_NAME,
    INVALID_TARGET_NAME,
    MISSING_TARGET_FILE,
    AMBIGUOUS_TARGET_FILE,
    WRONG_TARGET_PATH,
    SHARED_TARGET_FILE,
    CRATE_TYPE_OF_BINARY,
    PROC_MACRO_BINARY,
    DYLIB_AND_CDYLIB,
    PROC_MACRO_CRATE_TYPE,
    UNKNOWN_CRATE_TYPE,
    INVALID_LIBRARY_TYPE,
    EDITION_OF_TARGET,
    INVALID_REQUIRED_FEATURE,
    UNKNOWN_REQUIRED_FEATURE,
    UNDECLARED_TARGET_FILES,
    INVALID_DEPENDENCY_NAME,
    NO_SOURCE,
    CONFLICTING_SOURCES,
    REVISION_WITHOUT_GIT,
    SEVERAL_REVISIONS,
    INVALID_URL,
    FRAGMENT_IN_URL,
    INVALID_REQUIREMENT,
    METADATA_IN_REQUIREMENT,
    INVALID_DEPENDENCY_FEATURE,
    INVALID_REGISTRY_NAME,
    UNKNOWN_REGISTRY,
    OPTIONAL_DEV_DEPENDENCY,
    TWO_SOURCES,
    ARTIFACT_WITHOUT_ARTIFACT,
    BASE_WITHOUT_PATH,
    OPTIONAL_IN_WORKSPACE,
    REPEATED_DEPENDENCY,
    SELF_DEPENDENCY,
    MISSING_PATH_PACKAGE,
    INVALID_PLATFORM,
    NEVER_TRUE_CFG,
    BOOLEAN_AS_CFG_KEY,
    INVALID_FEATURE_NAME,
    UNKNOWN_FEATURE,
    DEPENDENCY_NOT_OPTIONAL,
    INVALID_FEATURE_REFERENCE,
    UNREACHABLE_DEPENDENCY,
    DEFAULT_FEATURES_FEATURE,
    FEATURE_ENABLES_ITSELF,
    INVALID_PROFILE_NAME,
    RESERVED_PROFILE_NAME,
    INVALID_LTO,
    OPT_LEVEL_TOO_HIGH,
    NO_CODEGEN_UNITS,
    UNKNOWN_STRIP,
    PANIC_OF_TESTS,
    INHERITS_DEBUG,
    INHERITS_OF_BUILT_IN,
    MISSING_INHERITS,
    UNKNOWN_INHERITS,
    CIRCULAR_INHERITS,
    REMOVED_DIR_NAME,
    DOC_PROFILE,
    INVALID_PROFILE_OVERRIDE,
    INVALID_PACKAGE_SPEC,
    IGNORED_IN_MEMBER,
    UNKNOWN_LINT_TOOL,
    UNSTABLE_LINT_TOOL,
    TOOL_IN_LINT_NAME,
    IGNORED_LINT_KEY,
    INVALID_CHECK_CFG,
    LINTS_BESIDE_WORKSPACE,
    MISSING_MEMBER,
    INVALID_MEMBER_PATTERN,
    UNKNOWN_DEFAULT_MEMBER,
    REPEATED_PACKAGE_NAME,
    NESTED_WORKSPACE,
    NOT_A_MEMBER,
    WRONG_WORKSPACE_PATH,
    UNREADABLE_ROOT,
    MISSING_RESOLVER,
    UNKNOWN_PATCH_SOURCE,
    INHERITED_PATCH,
    IGNORED_IN_PATCH,
    REPLACE_BESIDE_PATCH,
    INVALID_REPLACE_KEY,
    VERSION_IN_REPLACE,
    UNUSED_WORKSPACE_DEPENDENCY,
    LINTS_NOT_INHERITED,
    DIRECTION_CHARACTERS,
    NEWER_THAN_RUST_VERSION,
    IGNORED_SETTING,
    PATH_WITHOUT_VERSION,
    MISSING_DESCRIPTION,
    MISSING_LICENSE,
    INVALID_LICENSE,
    MISSING_LINKS,
    INCLUDE_AND_EXCLUDE,
    MISSING_PACKAGE_FILE,
    INVALID_KEYWORDS,
    TOO_MANY_CATEGORIES,
    WILDCARD_REQUIREMENT,
];

/// The code of this name.
///
/// ```ignore
/// let code = code_named("unknown-feature"); // `UNKNOWN_FEATURE`
/// ```
pub fn code_named(name: &str) -> Option<Code> {
    for code in ALL {
        if code.name == name {
            return Some(*code);
        }
    }
    None
}
