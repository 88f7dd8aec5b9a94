//! What the schema finds, as diagnostics.

ghost use Rattle.manifest_schema.specs.Prelude.{table_view, key as key_step};
ghost use Rattle.std.specs.Prelude.{◌≡◌, ◌∷◌, ◌++◌, [], IfOk, map};
ghost use Rattle.manifest_fault.specs.Faults.{path_of};
ghost use Rattle.manifest_fault.specs.Found.{finding_at, findings_of};
ghost use Rattle.manifest_fault.specs.Placed.{place_of};
ghost use Rattle.manifest_lint.specs.Lint.{reported_by, findings_reported, ReportFindings};

use crate::diagnostic::{Diagnostic, Subject};
use crate::tables::{TableKind, key_at, table_kind, value_at};
use crate::unused::unused_key;
use crate::words::fault_message;
use cargo_manifest::inspect;
use manifest_fault::{Cause, Choices, Finding, KeyPath, Step};
use manifest_rules::codes::{
    FLOAT_IN_METADATA, IGNORED_VALUE, MISSING_KEY, NOT_TRUE, NUMBER_NOT_KEPT, OUT_OF_RANGE,
    TWO_SPELLINGS, UNKNOWN_STRIP, UNKNOWN_WORD, WRONG_KIND,
};
use manifest_rules::{Code, Edition, Part};
use std::alloc::{AllocError, Global};
use toml::{Table, Value};

/// The code of a fault with this cause at a path.
fn fault_code(document: &Table, cause: Cause, path: &[Step]) -> Code {
    let key = key_at(path);
    if is_refused_value(cause) && is_ignored_key(document, path) {
        return IGNORED_VALUE;
    }
    match cause {
        // of a text: rustc says which words there are
        Cause::NotAChoice if key == "strip" => UNKNOWN_STRIP,
        // Cargo's range is wider
        Cause::OutOfRange if key == "codegen-units" && is_u32(document, path) => NUMBER_NOT_KEPT,
        Cause::WrongKind if is_not_inherited(document, path) => NOT_TRUE,
        Cause::WrongKind => WRONG_KIND,
        Cause::Missing => MISSING_KEY,
        Cause::TwoSpellings => TWO_SPELLINGS,
        Cause::NotAChoice => UNKNOWN_WORD,
        Cause::OutOfRange => OUT_OF_RANGE,
        Cause::NotTrue => NOT_TRUE,
        Cause::HoldsFloat => FLOAT_IN_METADATA,
        Cause::Metadata => WRONG_KIND,
    }
}

/// Whether a fault is one of the value itself.
fn is_refused_value(cause: Cause) -> bool {
    matches!(
        cause,
        Cause::WrongKind | Cause::NotAChoice | Cause::OutOfRange
    )
}

/// Whether the value at a path is that of a key, or an item in it, that this library reads and Cargo ignores.
fn is_ignored_key(document: &Table, path: &[Step]) -> bool {
    match path.split_last() {
        Some((Step::Index(_), above)) => is_ignored_in(document, above),
        _ => is_ignored_in(document, path),
    }
}

fn is_ignored_in(document: &Table, path: &[Step]) -> bool {
    let Some((Step::Key(key), above)) = path.split_last() else {
        return false;
    };
    match table_kind(document, above) {
        TableKind::Workspace => key.as_str() == "default_members",
        TableKind::Target => matches!(key.as_str(), "required_features" | "plugin"),
        TableKind::Dependency | TableKind::MemberDependency | TableKind::SharedDependency => {
            key.as_str() == "registry_index"
        },
        _ => false,
    }
}

/// Whether the value at a path is a whole number of 32 bits without a sign.
fn is_u32(document: &Table, path: &[Step]) -> bool {
    match value_at(document, path) {
        Some(Value::Integer(number)) => u32::try_from(*number).is_ok(),
        _ => false,
    }
}

/// Whether the value at a path is a table that has `workspace`, as where something is inherited, which is not true.
fn is_not_inherited(document: &Table, path: &[Step]) -> bool {
    match value_at(document, path) {
        Some(Value::Table(table)) => match table.get("workspace") {
            Some(flag) => *flag != Value::Boolean(true),
            None => false,
        },
        _ => false,
    }
}

/// The code of what the library ignores: Cargo refuses a value of another kind all the same.
fn ignored_code(cause: Cause) -> Code {
    match cause {
        Cause::WrongKind => WRONG_KIND,
        _ => IGNORED_VALUE,
    }
}

/// What of the entry is meant: of a key that is missing the header of its table, of one with two spellings the key.
fn fault_part(cause: Cause) -> Part {
    match cause {
        Cause::Missing => Part::Header,
        Cause::TwoSpellings => Part::Key,
        _ => Part::Value,
    }
}

/// The path with one more key.
fn path_to(alloc: Global, path: KeyPath, key: &str) -> Result<KeyPath, AllocError>
    ensures { IfOk result (λ p. path_of p ≡ path_of path ++ key_step key.now ∷ []) }
{
    let mut steps = path.steps;
    steps.push(Step::Key(String::from_str(alloc, key)?))?;
    Ok(KeyPath { steps })
}

/// What is said of a fault with this code.
fn message_of(
    alloc: Global,
    document: &Table,
    path: &KeyPath,
    code: Code,
    cause: Cause,
    choices: Choices,
) -> Result<String, AllocError> {
    if code == NOT_TRUE {
        String::from_str(alloc, "`workspace` cannot be false")
    } else if code == NUMBER_NOT_KEPT {
        let words = "Cargo takes this number, and this library keeps none over 65535";
        String::from_str(alloc, words)
    } else {
        fault_message(alloc, document, path, cause, choices)
    }
}

/// What is said of a finding at this path.
fn diagnostic_of(
    alloc: Global,
    document: &Table,
    edition: Edition,
    path: KeyPath,
    finding: &Finding,
) -> Result<Diagnostic, AllocError>
    ensures { IfOk result
        (λ d. reported_by d.subject d ≡ finding_at (path_of path) finding.now ∷ []) }
{
    match finding {
        Finding::Fault(cause, choices) => {
            let code = fault_code(document, *cause, path.steps.as_slice());
            let message = message_of(alloc, document, &path, code, *cause, choices)?;
            let subject = Subject::Fault(*cause, choices);
            Ok(Diagnostic::new(
                alloc,
                code,
                edition,
                subject,
                path,
                fault_part(*cause),
                message,
            ))
        }
        Finding::Ignored(cause, choices) => {
            let message = fault_message(alloc, document, &path, *cause, choices)?;
            let subject = Subject::Ignored(*cause, choices);
            Ok(Diagnostic::new(
                alloc,
                ignored_code(*cause),
                edition,
                subject,
                path,
                fault_part(*cause),
                message,
            ))
        }
        Finding::Unused(key) => {
            let path = path_to(alloc, path, key.as_str())?;
            unused_key(alloc, document, edition, path, key.as_str())
        }
    }
}

/// What is said of the findings in a document: one diagnostic each, in their order.
fn diagnostics_of(
    alloc: Global,
    document: &Table,
    edition: Edition,
    findings: Vec<(KeyPath, &Finding)>,
) -> Result<Vec<Diagnostic>, AllocError>
    ensures { IfOk result
        (λ ds. findings_reported ds.items ≡ findings_of (map place_of findings.entry.items)) }
{
    let mut all = Vec::new(alloc);
    for (path, finding) in findings {
        all.push(diagnostic_of(alloc, document, edition, path, finding)?)?;
    }
    Ok(all)
}

/// What is said of all that the schema finds in a document.
pub(crate) fn schema_diagnostics(
    alloc: Global,
    document: &Table,
    edition: Edition,
) -> Result<Vec<Diagnostic>, AllocError>
    ensures { IfOk result (λ ds. ReportFindings (table_view document.now) ds.items) }
{
    let found = inspect(alloc, document)?;
    let findings = found.to_vec(alloc)?;
    let all = diagnostics_of(alloc, document, edition, findings)?;
    drop(found);
    Ok(all)
}
