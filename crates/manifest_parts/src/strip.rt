//! What is stripped from a binary.

ghost use Rattle.manifest_schema.specs.Prelude.{string, view, strip, strip_meaning};
ghost use Rattle.std.specs.Prelude.{◌≡◌, Some, IfOk, IfErr};
ghost use Rattle.manifest_schema.specs.Contents;
ghost use Rattle.manifest_schema.proofs.Values.ChoiceLaws.{strip_sound};
ghost use Rattle.manifest_parts.specs.Parts.{strip_content};
ghost use Rattle.manifest_value.specs.Reading.{Reads};
ghost use Rattle.manifest_parts.specs.Refusals.{RefusesStrip};

use manifest_fault::fault::fault_here;
use manifest_value::{Cause, Choices, Error, Findings, Found, ReadFault, Schema, Source};
use manifest_written::Written;
use std::alloc::{AllocError, Global};
use toml::Value;

/// The texts of the settings.
const SETTINGS: Choices = &["none", "symbols", "debuginfo"];

/// What is stripped from a binary, from nothing to all symbols. See the
/// [Cargo reference](https://doc.rust-lang.org/cargo/reference/profiles.html#strip).
#[derive(Clone, Debug, PartialEq, Eq, PartialOrd, Ord, Drop)]
pub enum StripSetting {
    /// `false` or `"none"`: nothing is stripped.
    None,
    /// `"debuginfo"`: debug information is stripped.
    Debuginfo,
    /// `true` or `"symbols"`: debug information and all other symbols are stripped.
    Symbols,
}

impl StripSetting {
    /// Reads a setting as `Schema::from_value` does, but refuses with `Error::Other` of a text: `'X' is not a valid
    /// value for 'strip'` of another text X, and `wrong data type for strip setting` of another kind.
    ///
    /// ```ignore
    /// let strip = StripSetting::try_from(alloc, Value::Boolean(true))?; // `Symbols`
    /// ```
    pub fn try_from(alloc: Global, value: Value) -> Result<StripSetting, Error>
        ensures ok { IfOk result (Reads strip strip_content (view value)) }
        ensures refused { IfErr result (RefusesStrip (view value)) }
    {
        match &value {
            Value::Boolean(true) => Ok(StripSetting::Symbols),
            Value::Boolean(false) => Ok(StripSetting::None),
            Value::String(s) => setting_of(alloc, s.as_str()),
            _ => {
                let text = String::from_str(alloc, "wrong data type for strip setting")?;
                Err(Error::Other(text))
            }
        }
    }
}

/// The setting that `none`, `symbols` or `debuginfo` says; any other text is refused with `Error::Other` of a text that
/// names it.
fn setting_of(alloc: Global, text: &str) -> Result<StripSetting, Error>
    ensures ok { IfOk result (λ x. strip_meaning (string text.now) ≡ Some (strip_content x)) }
    ensures refused { IfErr result (RefusesStrip (string text.now)) }
{
    match text {
        "none" => Ok(StripSetting::None),
        "symbols" => Ok(StripSetting::Symbols),
        "debuginfo" => Ok(StripSetting::Debuginfo),
        _ => {
            let text = format!(in alloc; "'{text}' is not a valid value for 'strip'")?;
            Err(Error::Other(text))
        }
    }
}

/// Read from a boolean or from one of its texts, and written as `false`, `"debuginfo"` or `true`. Another text is
/// refused with `NotAChoice`, another kind with `WrongKind`. Reading is never out of memory (`takes_no_memory`); writing may be.
impl Schema for StripSetting {
    ghost Content = { Contents.StripSetting };

    ghost content = { strip_content };

    ghost kind = { strip };

    ghost takes_no_memory = { Unit {0} };

    fn read(alloc: Global, source: Source<'_>) -> Result<StripSetting, ReadFault> {
        match source.value() {
            Value::Boolean(true) => Ok(StripSetting::Symbols),
            Value::Boolean(false) => Ok(StripSetting::None),
            Value::String(s) => match s.as_str() {
                "none" => Ok(StripSetting::None),
                "symbols" => Ok(StripSetting::Symbols),
                "debuginfo" => Ok(StripSetting::Debuginfo),
                _ => Err(fault_here(alloc, Cause::NotAChoice)),
            },
            _ => Err(fault_here(alloc, Cause::WrongKind)),
        }
    }

    #[tactic(auto, using(manifest_value::proofs::FoundLemmas::one_fault_read, manifest_value::proofs::FoundLemmas::one_fault_refused, manifest_schema::proofs::Values::OneFaultLaws::choice_one_fault))]
    fn findings(alloc: Global, value: &Value) -> Found {
        match StripSetting::read(alloc, Source::Borrowed(value)) {
            Ok(_) => Ok(Findings::none(alloc)),
            Err(refused) => Findings::of_refusal(alloc, refused, SETTINGS),
        }
    }

    fn written(&self, _alloc: Global) -> Result<Written<'_>, AllocError> {
        Ok(match self {
            StripSetting::None => Written::Boolean(false),
            StripSetting::Debuginfo => Written::Text("debuginfo"),
            StripSetting::Symbols => Written::Boolean(true),
        })
    }

    fn is_well_formed(&self) -> bool {
        true
    }

    ghost lawful = { strip_sound };
}
