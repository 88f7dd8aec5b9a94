//! Choices of one text among several.

ghost use Rattle.std.specs.Prelude.{◌≡◌, option_map};
ghost use Rattle.manifest_schema.specs.Contents;
ghost use Rattle.manifest_schema.specs.Choices.{edition, edition_text, resolver, resolver_text, level, level_text, status, status_text, status_words, meaning_of};
ghost use Rattle.manifest_schema.proofs.Values.ChoiceLaws.{edition_sound, edition_plain, resolver_sound, level_sound, status_sound};
ghost use Rattle.manifest_parts.specs.Parts.{edition_content, resolver_content, level_content, status_content};

use manifest_fault::fault::fault_here;
use manifest_value::{Cause, Choices, Findings, Found, Plain, ReadFault, Schema, Source};
use manifest_written::Written;
use std::alloc::{AllocError, Global};
use toml::Value;

/// The editions, as they are written.
const EDITIONS: Choices = &["2015", "2018", "2021", "2024"];

/// The versions of the resolver, as they are written.
const RESOLVERS: Choices = &["1", "2", "3"];

/// The levels of lints, as they are written.
const LEVELS: Choices = &["forbid", "deny", "warn", "allow"];

/// The statuses of maintenance, as they are written.
const STATUSES: Choices = &[
    "none",
    "actively-developed",
    "passively-maintained",
    "as-is",
    "experimental",
    "looking-for-maintainer",
    "deprecated",
];

/// A Rust edition. See the
/// [Cargo reference](https://doc.rust-lang.org/cargo/reference/manifest.html#the-edition-field).
#[derive(Clone, Copy, Debug, PartialEq, Eq, Hash)]
pub enum Edition {
    /// The edition 2015, that of a package without one.
    E2015,
    /// The edition 2018.
    E2018,
    /// The edition 2021.
    E2021,
    /// The edition 2024.
    E2024,
}

impl Edition {
    /// The text of the edition in a manifest, as `2021`.
    ///
    /// ```ignore
    /// let text = Edition::E2021.as_str(); // "2021"
    /// ```
    pub fn as_str(&self) -> &'static str
        ensures { result.now ≡ edition_text (edition_content self.now) }
    {
        match self {
            Edition::E2015 => "2015",
            Edition::E2018 => "2018",
            Edition::E2021 => "2021",
            Edition::E2024 => "2024",
        }
    }
}

/// Read from one of the texts of `as_str`, and written as it. A value that is no text is refused with `WrongKind`,
/// another text with `NotAChoice`. Reading is never out of memory (`takes_no_memory`); writing may be.
impl Schema for Edition {
    ghost Content = { Contents.Edition };

    ghost content = { edition_content };

    ghost kind = { edition };

    ghost takes_no_memory = { Unit {0} };

    fn read(alloc: Global, source: Source<'_>) -> Result<Edition, ReadFault> {
        match source.value() {
            Value::String(s) => match s.as_str() {
                "2015" => Ok(Edition::E2015),
                "2018" => Ok(Edition::E2018),
                "2021" => Ok(Edition::E2021),
                "2024" => Ok(Edition::E2024),
                _ => Err(fault_here(alloc, Cause::NotAChoice)),
            },
            _ => Err(fault_here(alloc, Cause::WrongKind)),
        }
    }

    #[tactic(auto, using(manifest_value::proofs::FoundLemmas::one_fault_read, manifest_value::proofs::FoundLemmas::one_fault_refused, manifest_schema::proofs::Values::OneFaultLaws::choice_one_fault))]
    fn findings(alloc: Global, value: &Value) -> Found {
        match Edition::read(alloc, Source::Borrowed(value)) {
            Ok(_) => Ok(Findings::none(alloc)),
            Err(refused) => Findings::of_refusal(alloc, refused, EDITIONS),
        }
    }

    fn written(&self, _alloc: Global) -> Result<Written<'_>, AllocError> {
        Ok(Written::Text(self.as_str()))
    }

    fn is_well_formed(&self) -> bool {
        true
    }

    ghost lawful = { edition_sound };
}

impl Plain for Edition {
    ghost plain = { edition_plain };
}

/// 2015, the edition of a package that names none.
impl Default for Edition {
    ghost is_default = { λ x. edition_content x ≡ Contents.e2015 };

    fn default() -> Edition {
        Edition::E2015
    }
}

/// The version of the resolver of dependencies and their features. See the
/// [Cargo reference](https://doc.rust-lang.org/cargo/reference/resolver.html#resolver-versions).
#[derive(Clone, Copy, Debug, PartialEq, Eq, Hash)]
pub enum Resolver {
    /// By default that of the editions 2015 and 2018: a package has the features of all its uses together.
    V1,
    /// By default that of the edition 2021: uses in build scripts, in tests and on other platforms are kept apart.
    V2,
    /// By default that of the edition 2024: as the second, and versions that fit `rust-version` are preferred.
    V3,
}

impl Resolver {
    /// The text of the resolver's version in a manifest, as `2`.
    fn as_str(&self) -> &'static str
        ensures { result.now ≡ resolver_text (resolver_content self.now) }
    {
        match self {
            Resolver::V1 => "1",
            Resolver::V2 => "2",
            Resolver::V3 => "3",
        }
    }
}

/// Read from one of the texts of `as_str`, and written as it. A value that is no text is refused with `WrongKind`,
/// another text with `NotAChoice`. Reading is never out of memory (`takes_no_memory`); writing may be.
impl Schema for Resolver {
    ghost Content = { Contents.Resolver };

    ghost content = { resolver_content };

    ghost kind = { resolver };

    ghost takes_no_memory = { Unit {0} };

    fn read(alloc: Global, source: Source<'_>) -> Result<Resolver, ReadFault> {
        match source.value() {
            Value::String(s) => match s.as_str() {
                "1" => Ok(Resolver::V1),
                "2" => Ok(Resolver::V2),
                "3" => Ok(Resolver::V3),
                _ => Err(fault_here(alloc, Cause::NotAChoice)),
            },
            _ => Err(fault_here(alloc, Cause::WrongKind)),
        }
    }

    #[tactic(auto, using(manifest_value::proofs::FoundLemmas::one_fault_read, manifest_value::proofs::FoundLemmas::one_fault_refused, manifest_schema::proofs::Values::OneFaultLaws::choice_one_fault))]
    fn findings(alloc: Global, value: &Value) -> Found {
        match Resolver::read(alloc, Source::Borrowed(value)) {
            Ok(_) => Ok(Findings::none(alloc)),
            Err(refused) => Findings::of_refusal(alloc, refused, RESOLVERS),
        }
    }

    fn written(&self, _alloc: Global) -> Result<Written<'_>, AllocError> {
        Ok(Written::Text(self.as_str()))
    }

    fn is_well_formed(&self) -> bool {
        true
    }

    ghost lawful = { resolver_sound };
}

/// The first resolver. A package that names none may have another, by its edition.
impl Default for Resolver {
    ghost is_default = { λ x. resolver_content x ≡ Contents.v1 };

    fn default() -> Resolver {
        Resolver::V1
    }
}

/// The level of a lint. See the
/// [Cargo reference](https://doc.rust-lang.org/cargo/reference/manifest.html#the-lints-section).
#[derive(Clone, Copy, Debug, PartialEq, Eq, Hash)]
pub enum LintLevel {
    /// An error, and no attribute in the code can lower the level.
    Forbid,
    /// An error.
    Deny,
    /// A warning.
    Warn,
    /// Not reported.
    Allow,
}

impl LintLevel {
    /// The text of the level in a manifest, as `warn`.
    ///
    /// ```ignore
    /// let text = LintLevel::Deny.as_str(); // "deny"
    /// ```
    pub fn as_str(&self) -> &'static str
        ensures { result.now ≡ level_text (level_content self.now) }
    {
        match self {
            LintLevel::Forbid => "forbid",
            LintLevel::Deny => "deny",
            LintLevel::Warn => "warn",
            LintLevel::Allow => "allow",
        }
    }
}

/// Read from one of the texts of `as_str`, and written as it. A value that is no text is refused with `WrongKind`,
/// another text with `NotAChoice`. Reading is never out of memory (`takes_no_memory`); writing may be.
impl Schema for LintLevel {
    ghost Content = { Contents.LintLevel };

    ghost content = { level_content };

    ghost kind = { level };

    ghost takes_no_memory = { Unit {0} };

    fn read(alloc: Global, source: Source<'_>) -> Result<LintLevel, ReadFault> {
        match source.value() {
            Value::String(s) => match s.as_str() {
                "forbid" => Ok(LintLevel::Forbid),
                "deny" => Ok(LintLevel::Deny),
                "warn" => Ok(LintLevel::Warn),
                "allow" => Ok(LintLevel::Allow),
                _ => Err(fault_here(alloc, Cause::NotAChoice)),
            },
            _ => Err(fault_here(alloc, Cause::WrongKind)),
        }
    }

    #[tactic(auto, using(manifest_value::proofs::FoundLemmas::one_fault_read, manifest_value::proofs::FoundLemmas::one_fault_refused, manifest_schema::proofs::Values::OneFaultLaws::choice_one_fault))]
    fn findings(alloc: Global, value: &Value) -> Found {
        match LintLevel::read(alloc, Source::Borrowed(value)) {
            Ok(_) => Ok(Findings::none(alloc)),
            Err(refused) => Findings::of_refusal(alloc, refused, LEVELS),
        }
    }

    fn written(&self, _alloc: Global) -> Result<Written<'_>, AllocError> {
        Ok(Written::Text(self.as_str()))
    }

    fn is_well_formed(&self) -> bool {
        true
    }

    ghost lawful = { level_sound };
}

/// How a package is maintained. See the
/// [Cargo reference](https://doc.rust-lang.org/cargo/reference/manifest.html#the-badges-section).
#[derive(Clone, Copy, Debug, PartialEq, Eq, Hash)]
pub enum MaintenanceStatus {
    /// No status is given, and no badge displayed: the default.
    None,
    /// New features are added, and bugs fixed.
    ActivelyDeveloped,
    /// No new features are planned, but the maintainer means to answer issues.
    PassivelyMaintained,
    /// It is complete and serves its purpose; the maintainer does no more work on it and gives no support.
    AsIs,
    /// It is shared, but not meant to serve anyone's particular use.
    Experimental,
    /// The maintainer is looking for someone to take it over.
    LookingForMaintainer,
    /// The maintainer advises against its use.
    Deprecated,
}

impl MaintenanceStatus {
    /// The text of the status in a manifest, as `as-is`.
    fn as_str(&self) -> &'static str
        ensures { result.now ≡ status_text (status_content self.now) }
    {
        match self {
            MaintenanceStatus::None => "none",
            MaintenanceStatus::ActivelyDeveloped => "actively-developed",
            MaintenanceStatus::PassivelyMaintained => "passively-maintained",
            MaintenanceStatus::AsIs => "as-is",
            MaintenanceStatus::Experimental => "experimental",
            MaintenanceStatus::LookingForMaintainer => "looking-for-maintainer",
            MaintenanceStatus::Deprecated => "deprecated",
        }
    }
}

/// The status that a text says, by the list `status_words` of `Choices.antt`; `None` for any other text.
fn status_of(text: &str) -> Option<MaintenanceStatus>
    ensures { option_map status_content result ≡ meaning_of status_words text.now }
{
    match text {
        "none" => Some(MaintenanceStatus::None),
        "actively-developed" => Some(MaintenanceStatus::ActivelyDeveloped),
        "passively-maintained" => Some(MaintenanceStatus::PassivelyMaintained),
        "as-is" => Some(MaintenanceStatus::AsIs),
        "experimental" => Some(MaintenanceStatus::Experimental),
        "looking-for-maintainer" => Some(MaintenanceStatus::LookingForMaintainer),
        "deprecated" => Some(MaintenanceStatus::Deprecated),
        _ => None,
    }
}

/// Read from one of the texts of `as_str`, and written as it. A value that is no text is refused with `WrongKind`,
/// another text with `NotAChoice`. Reading is never out of memory (`takes_no_memory`); writing may be.
impl Schema for MaintenanceStatus {
    ghost Content = { Contents.MaintenanceStatus };

    ghost content = { status_content };

    ghost kind = { status };

    ghost takes_no_memory = { Unit {0} };

    fn read(alloc: Global, source: Source<'_>) -> Result<MaintenanceStatus, ReadFault> {
        match source.value() {
            Value::String(s) => match status_of(s.as_str()) {
                Some(status) => Ok(status),
                None => Err(fault_here(alloc, Cause::NotAChoice)),
            },
            _ => Err(fault_here(alloc, Cause::WrongKind)),
        }
    }

    #[tactic(auto, using(manifest_value::proofs::FoundLemmas::one_fault_read, manifest_value::proofs::FoundLemmas::one_fault_refused, manifest_schema::proofs::Values::OneFaultLaws::choice_one_fault))]
    fn findings(alloc: Global, value: &Value) -> Found {
        match MaintenanceStatus::read(alloc, Source::Borrowed(value)) {
            Ok(_) => Ok(Findings::none(alloc)),
            Err(refused) => Findings::of_refusal(alloc, refused, STATUSES),
        }
    }

    fn written(&self, _alloc: Global) -> Result<Written<'_>, AllocError> {
        Ok(Written::Text(self.as_str()))
    }

    fn is_well_formed(&self) -> bool {
        true
    }

    ghost lawful = { status_sound };
}

/// No status.
impl Default for MaintenanceStatus {
    ghost is_default = { λ x. status_content x ≡ Contents.no_status };

    fn default() -> MaintenanceStatus {
        MaintenanceStatus::None
    }
}
