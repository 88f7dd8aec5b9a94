//! The keys of the tables of a manifest, a line each: the name, a second spelling or nothing, what it holds, whether it is
//! required or what stands for it, where the Cargo reference has it, and what it is. And the words of each choice, in a line
//! after its name (made by `scripts/keys --write`).

pub(crate) static MANIFEST: &str = "\
package |  | table Package | optional | manifest.html#the-package-section | `[package]`; a virtual workspace has none.
cargo-features |  | list of texts | optional | unstable.html | The unstable features of Cargo that are enabled; only a nightly Cargo has them.
workspace |  | table Workspace | optional | workspaces.html | `[workspace]`, where the manifest is that of a workspace's root.
dependencies |  | map of dependencies | optional | specifying-dependencies.html | `[dependencies]`, by name; one that is renamed by its new name.
dev-dependencies | dev_dependencies | map of dependencies | optional | specifying-dependencies.html#development-dependencies | `[dev-dependencies]`: those of tests, examples and benches.
build-dependencies | build_dependencies | map of dependencies | optional | specifying-dependencies.html#build-dependencies | `[build-dependencies]`: those of the build script.
target |  | map of tables Platform | optional | specifying-dependencies.html#platform-specific-dependencies | `[target]`: the dependencies for single platforms, by target triple or `cfg(..)`.
features |  | map of lists of texts | optional | features.html#the-features-section | `[features]`: each with what it enables; an optional dependency can be a feature that is not listed.
bin |  | list of tables Target | default [] | cargo-targets.html#binaries | Each `[[bin]]`: not all binaries, unless the manifest is completed, since others are discovered.
bench |  | list of tables Target | default [] | cargo-targets.html#benchmarks | Each `[[bench]]`: not all benches, unless the manifest is completed, since others are discovered.
test |  | list of tables Target | default [] | cargo-targets.html#tests | Each `[[test]]`: not all integration tests, unless the manifest is completed, since others are discovered.
example |  | list of tables Target | default [] | cargo-targets.html#examples | Each `[[example]]`: not all examples, unless the manifest is completed, since others are discovered.
patch |  | map of maps of dependencies | optional | overriding-dependencies.html#the-patch-section | `[patch]`: the dependencies that patch others, by the registry or URL of these; Cargo takes those of the root alone.
lib |  | table Target | optional | cargo-targets.html#library | `[lib]`; where there is none, one may be discovered, unless the manifest is completed.
profile |  | table Profiles | optional | profiles.html | `[profile]`; Cargo takes those of the workspace's root alone.
badges |  | table Badges | optional | manifest.html#the-badges-section | `[badges]`.
lints |  | table Lints | optional | manifest.html#the-lints-section | `[lints]`: the package's own, or inherited.
";

pub(crate) static PACKAGE: &str = "\
name |  | text | required | manifest.html#the-name-field | The name, from which its library and its main binary take theirs by default; it may have capital letters.
edition |  | edition, or inherited | optional | manifest.html#the-edition-field | The edition of its targets, its own or inherited; Cargo takes 2015 where there is none.
version |  | text, or inherited | optional | manifest.html#the-version-field | The version, its own or inherited; Cargo takes `0.0.0` where there is none: [`Package::version`] says which one holds.
build |  | text or boolean | optional | manifest.html#the-build-field | The build script by its path, or false for none; absent or true, it is discovered: completion fills it in.
workspace |  | text | optional | manifest.html#the-workspace-field | The path of its workspace's root; Cargo searches the folders above where there is none.
authors |  | list of texts, or inherited | optional | manifest.html#the-authors-field | The people and organizations that made it, such as `Alice <alice@example.com>`.
links |  | text | optional | manifest.html#the-links-field | The name of the native library that it links to.
description |  | text, or inherited | optional | manifest.html#the-description-field | What it is, in a few words of plain text, not Markdown.
homepage |  | text, or inherited | optional | manifest.html#the-homepage-field | The URL of its home page.
documentation |  | text, or inherited | optional | manifest.html#the-documentation-field | The URL of its documentation; crates.io links to docs.rs where there is none.
readme |  | text or boolean, or inherited | optional | manifest.html#the-readme-field | The readme by its path, relative to the manifest; true for `README.md`, false for none.
keywords |  | list of texts, or inherited | optional | manifest.html#the-keywords-field | The keywords by which a registry finds it; crates.io takes at most five.
categories |  | list of texts, or inherited | optional | manifest.html#the-categories-field | The categories of crates.io in which it stands, by their slugs; at most five.
license |  | text, or inherited | optional | manifest.html#the-license-and-license-file-fields | The licence: an SPDX expression such as `MIT OR Apache-2.0`.
license-file |  | text, or inherited | optional | manifest.html#the-license-and-license-file-fields | The path of the licence's text, relative to the manifest, where the licence is not a standard one.
repository |  | text, or inherited | optional | manifest.html#the-repository-field | The URL of its source repository.
metadata |  | metadata | optional | manifest.html#the-metadata-table | `[package.metadata]`: what tools other than Cargo read.
rust-version |  | text, or inherited | optional | manifest.html#the-rust-version-field | The oldest version of Rust that it supports, such as `1.75`: a bare version, no requirement.
exclude |  | list of texts, or inherited | optional | manifest.html#the-exclude-and-include-fields | The files that are not packaged, by patterns as of gitignore; of no effect next to `include`.
include |  | list of texts, or inherited | optional | manifest.html#the-exclude-and-include-fields | The files that are packaged, by patterns as of gitignore.
default-run |  | text | optional | manifest.html#the-default-run-field | The name of the binary that `cargo run` takes by default.
autolib |  | boolean | optional | cargo-targets.html#target-auto-discovery | False turns the discovery of a library off.
autobins |  | boolean | optional | cargo-targets.html#target-auto-discovery | Whether binaries are discovered, where the package says it; [`Manifest::autobins`](crate::Manifest::autobins) says what holds.
autoexamples |  | boolean | optional | cargo-targets.html#target-auto-discovery | Whether examples are discovered, where the package says it; [`Manifest::autoexamples`](crate::Manifest::autoexamples) says what holds.
autotests |  | boolean | optional | cargo-targets.html#target-auto-discovery | Whether tests are discovered, where the package says it; [`Manifest::autotests`](crate::Manifest::autotests) says what holds.
autobenches |  | boolean | optional | cargo-targets.html#target-auto-discovery | Whether benches are discovered, where the package says it; [`Manifest::autobenches`](crate::Manifest::autobenches) says what holds.
publish |  | boolean or list of texts, or inherited | optional | manifest.html#the-publish-field | Whether, or to which registries, it may be published; to any where nothing is said.
resolver |  | resolver | optional | resolver.html#resolver-versions | The resolver, of a root package alone; by default 1, in the edition 2021 it is 2, and in 2024 it is 3.
";

pub(crate) static WORKSPACE_PACKAGE: &str = "\
edition |  | edition | optional | manifest.html#the-edition-field | The edition that members can inherit.
version |  | text | optional | manifest.html#the-version-field | The version that members can inherit.
authors |  | list of texts | optional | manifest.html#the-authors-field | The authors that members can inherit.
description |  | text | optional | manifest.html#the-description-field | The description that members can inherit, in plain text.
homepage |  | text | optional | manifest.html#the-homepage-field | The URL of the home page that members can inherit.
documentation |  | text | optional | manifest.html#the-documentation-field | The URL of the documentation that members can inherit.
readme |  | text or boolean | optional | manifest.html#the-readme-field | The readme that members can inherit: its path, relative to the workspace's root, or a boolean.
keywords |  | list of texts | optional | manifest.html#the-keywords-field | The keywords that members can inherit.
categories |  | list of texts | optional | manifest.html#the-categories-field | The categories that members can inherit.
license |  | text | optional | manifest.html#the-license-and-license-file-fields | The licence that members can inherit, as an SPDX expression.
license-file |  | text | optional | manifest.html#the-license-and-license-file-fields | The path of the licence's text that members can inherit, relative to the workspace's root.
repository |  | text | optional | manifest.html#the-repository-field | The URL of the source repository that members can inherit.
rust-version |  | text | optional | manifest.html#the-rust-version-field | The oldest supported version of Rust that members can inherit.
exclude |  | list of texts | optional | manifest.html#the-exclude-and-include-fields | The patterns that members can inherit of files that are not packaged, relative to each member.
include |  | list of texts | optional | manifest.html#the-exclude-and-include-fields | The patterns that members can inherit of files that are packaged, relative to each member.
publish |  | boolean or list of texts | optional | manifest.html#the-publish-field | Whether, or to which registries, members that inherit it may be published.
";

pub(crate) static WORKSPACE: &str = "\
members |  | list of texts | default [] | workspaces.html#the-members-and-exclude-fields | The paths of members, or globs; not all, since the root package and path dependencies inside are members too.
default-members | default_members | list of texts | optional | workspaces.html#the-default-members-field | The members, by paths or globs, on which a command at the workspace's root works by default.
exclude |  | list of texts | optional | workspaces.html#the-members-and-exclude-fields | The paths that are not members, though `members` or a path dependency names them.
resolver |  | resolver | optional | resolver.html#resolver-versions | The resolver of all members; by default that of the root package, or 1 in a virtual workspace.
dependencies |  | map of dependencies | optional | workspaces.html#the-dependencies-table | `[workspace.dependencies]`: the dependencies that members can inherit; Cargo allows no optional one.
package |  | table Package of the workspace | optional | workspaces.html#the-package-table | `[workspace.package]`: the package fields that members can inherit.
metadata |  | metadata | optional | workspaces.html#the-metadata-table | `[workspace.metadata]`: what tools other than Cargo read.
lints |  | map of maps of lints | optional | workspaces.html#the-lints-table | `[workspace.lints]`: the lints that members can inherit, by tool and by the name of the lint or lint group.
";

pub(crate) static DETAILED: &str = "\
version |  | text | optional | specifying-dependencies.html#version-requirement-syntax | The version requirement, such as `1.2` or `>=1.2, <1.5`; any version where it is absent.
registry |  | text | optional | specifying-dependencies.html#specifying-dependencies-from-other-registries | The registry that has the package, by its name; crates.io where no other source is named.
registry-index | registry_index | text | optional | specifying-dependencies.html#specifying-dependencies-from-other-registries | The registry that has the package, by the URL of its index.
path |  | text | optional | specifying-dependencies.html#specifying-path-dependencies | The path of the package's folder, relative to the manifest.
git |  | text | optional | specifying-dependencies.html#specifying-dependencies-from-git-repositories | The URL of the git repository that has the package.
branch |  | text | optional | specifying-dependencies.html#choice-of-commit | The branch of the git repository.
tag |  | text | optional | specifying-dependencies.html#choice-of-commit | The tag of the git repository.
rev |  | text | optional | specifying-dependencies.html#choice-of-commit | The revision of the git repository: a commit's hash, or a reference such as `refs/pull/1/head`.
features |  | list of texts | optional | features.html#dependency-features | The features of the package that are enabled.
optional |  | boolean | optional | features.html#optional-dependencies | Whether the dependency is optional: it is built only where a feature enables it.
default-features | default_features | boolean | optional | features.html#dependency-features | Whether the default features are enabled; they are where nothing is said.
package |  | text | optional | specifying-dependencies.html#renaming-dependencies-in-cargotoml | The name of the package, where the dependency is renamed: its key is then the new name.
";

pub(crate) static INHERITED: &str = "\
workspace |  | true | required | specifying-dependencies.html#inheriting-a-dependency-from-a-workspace | `workspace = true`: the rest is inherited from `[workspace.dependencies]`.
features |  | list of texts | optional | specifying-dependencies.html#inheriting-a-dependency-from-a-workspace | The features that are enabled in addition to those that the workspace enables.
optional |  | boolean | optional | specifying-dependencies.html#inheriting-a-dependency-from-a-workspace | Whether the dependency is optional in the member.
default-features | default_features | boolean | optional | specifying-dependencies.html#inheriting-a-dependency-from-a-workspace | Whether the default features are enabled, where the member chooses; where it does not, the workspace does. The crate `cargo-manifest` does not have this field.
";

pub(crate) static LINT: &str = "\
level |  | level | required | manifest.html#the-lints-section | The level of the lint or lint group.
priority |  | whole number from -128 to 127 | default 0 | manifest.html#the-lints-section | Where lints and lint groups overlap, the one with the higher priority decides.
";

pub(crate) static PRODUCT: &str = "\
path |  | text | optional | cargo-targets.html#the-path-field | The path of the target's source file, relative to the manifest; discovered where there is none.
name |  | text | optional | cargo-targets.html#the-name-field | The name of the target and of what is built; a library's is by default the package's, with `_` for each `-`.
test |  | boolean | default true | cargo-targets.html#the-test-field | Whether `cargo test` tests it by default.
doctest |  | boolean | default true | cargo-targets.html#the-doctest-field | Whether `cargo test` tests the examples in its documentation; of a library alone.
bench |  | boolean | default true | cargo-targets.html#the-bench-field | Whether `cargo bench` benches it by default.
doc |  | boolean | default true | cargo-targets.html#the-doc-field | Whether `cargo doc` documents it by default.
plugin |  | boolean | default false | cargo-targets.html#the-plugin-field | Whether it is a compiler plugin; obsolete.
proc-macro | proc_macro | boolean | default false | cargo-targets.html#the-proc-macro-field | Whether the library is a procedural macro.
harness |  | boolean | default true | cargo-targets.html#the-harness-field | Whether it is tested and benched by the harness of `libtest`; where not, it has a `main` of its own.
edition |  | edition | optional | cargo-targets.html#the-edition-field | The edition of the target; where there is none, the package's, which completion puts there.
required-features | required_features | list of texts | default [] | cargo-targets.html#the-required-features-field | The features without which it is not built; on a library they have no effect.
crate-type | crate_type | list of texts | optional | cargo-targets.html#the-crate-type-field | The crate types that are built, such as `rlib` and `cdylib`; of a library or an example alone.
";

pub(crate) static PROFILE: &str = "\
opt-level | opt_level | any value without a float | optional | profiles.html#opt-level | The optimization level, kept as it is: 0 to 3, `\"s\"` or `\"z\"`.
debug |  | any value without a float | optional | profiles.html#debug | How much debug information there is, kept as it is: 0 to 2, a boolean, or a text such as `\"limited\"`.
rpath |  | boolean | optional | profiles.html#rpath | Whether `rpath` is on: rustc's `-C rpath`.
inherits |  | text | optional | profiles.html#custom-profiles | The profile from which it inherits what it does not set; Cargo requires it of a custom profile.
lto |  | any value without a float | optional | profiles.html#lto | The link-time optimization, kept as it is: a boolean, `\"fat\"`, `\"thin\"` or `\"off\"`.
debug-assertions | debug_assertions | boolean | optional | profiles.html#debug-assertions | Whether `cfg(debug_assertions)` is on, and `debug_assert!` with it.
codegen-units | codegen_units | whole number from 0 to 65535 | optional | profiles.html#codegen-units | How many code generation units a crate is split into, at most.
panic |  | text | optional | profiles.html#panic | The panic strategy: `unwind` or `abort`.
incremental |  | boolean | optional | profiles.html#incremental | Whether incremental compilation is on.
overflow-checks | overflow_checks | boolean | optional | profiles.html#overflow-checks | Whether the overflow of integers is checked at run time.
strip |  | strip | optional | profiles.html#strip | What is stripped from a binary: nothing, debug information, or all symbols.
package |  | map of values without a float | default {} | profiles.html#overrides | Overrides for single packages, by package ID spec or `*`; each is kept as it is.
split-debuginfo |  | text | optional | profiles.html#split-debuginfo | Whether debug information stands in the binary or next to it: `off`, `packed` or `unpacked`.
build-override |  | any value without a float | optional | profiles.html#build-dependencies | Overrides for build scripts, procedural macros and their dependencies, kept as they are.
";

pub(crate) static PROFILES: &str = "\
release |  | table Profile | optional | profiles.html#release | `[profile.release]`, of `--release` and of `cargo install`.
dev |  | table Profile | optional | profiles.html#dev | `[profile.dev]`, which `cargo build` and others take by default.
test |  | table Profile | optional | profiles.html#test | `[profile.test]`, of `cargo test`; it inherits from `dev`.
bench |  | table Profile | optional | profiles.html#bench | `[profile.bench]`, of `cargo bench`; it inherits from `release`.
doc |  | table Profile | optional | profiles.html | `[profile.doc]`, which Cargo no longer uses: it has no effect.
";

pub(crate) static PLATFORM: &str = "\
dependencies |  | map of dependencies | default {} | specifying-dependencies.html#platform-specific-dependencies | The dependencies of the package that are built only where the target platform is this one.
dev-dependencies | dev_dependencies | map of dependencies | default {} | specifying-dependencies.html#platform-specific-dependencies | The dependencies of its tests, examples and benches on this platform.
build-dependencies | build_dependencies | map of dependencies | default {} | specifying-dependencies.html#platform-specific-dependencies | The dependencies of its build script, built only where the host platform is this one.
";

pub(crate) static CHOICES: &str = "\
edition | 2015 | 2018 | 2021 | 2024
resolver | 1 | 2 | 3
level | forbid | deny | warn | allow
status | none | actively-developed | passively-maintained | as-is | experimental | looking-for-maintainer | deprecated
strip | none | symbols | debuginfo
";
