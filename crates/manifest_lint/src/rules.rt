//! What the rules say, group by group.

use manifest_dependency_rules::around::sources_around;
use manifest_dependency_rules::dependencies::dependencies;
use manifest_dependency_rules::features::features;
use manifest_dependency_rules::inherited::inherited;
use manifest_dependency_rules::replace::replace;
use manifest_dependency_rules::sources::sources;
use manifest_dependency_rules::workspace::workspace;
use manifest_package_rules::inherits::inherited_profiles;
use manifest_package_rules::keys::keys;
use manifest_package_rules::lints::lints;
use manifest_package_rules::newer::newer;
use manifest_package_rules::package::package;
use manifest_package_rules::platforms::platforms;
use manifest_package_rules::profiles::profiles;
use manifest_package_rules::publish::publishing;
use manifest_package_rules::settings::settings;
use manifest_package_rules::spellings::spellings;
use manifest_package_rules::target_files::target_files;
use manifest_package_rules::targets::targets;
use manifest_package_rules::text::text;
use manifest_rules::look::Look;
use manifest_rules::report::Out;
use manifest_rules::{Report, Surroundings};
use std::alloc::{AllocError, Global};
use toml::Table;

/// What the rules say of a document, with this text, in these surroundings.
pub(crate) fn judged(
    alloc: Global,
    text: &str,
    document: &Table,
    around: &Surroundings<'_>,
) -> Result<Vec<Report>, AllocError> {
    let look = Look::new(alloc, text, document, around)?;
    let mut out = Out::new(alloc, look.edition);
    all_rules(&look, &mut out);
    drop(look);
    out.finish()
}

fn all_rules(look: &Look<'_>, out: &mut Out) {
    text(look, out);
    spellings(look, out);
    keys(look, out);
    package(look, out);
    targets(look, out);
    target_files(look, out);
    dependencies(look, out);
    sources(look, out);
    platforms(look, out);
    features(look, out);
    profiles(look, out);
    inherited_profiles(look, out);
    lints(look, out);
    replace(look, out);
    inherited(look, out);
    sources_around(look, out);
    workspace(look, out);
    newer(look, out);
    settings(look, out);
    publishing(look, out);
}
