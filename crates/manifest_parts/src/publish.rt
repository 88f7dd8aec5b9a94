//! A text or a boolean, and where a package may be published.

ghost use Rattle.std.specs.Prelude.{◌≡◌, true};
ghost use Rattle.manifest_schema.specs.Contents;
ghost use Rattle.manifest_schema.specs.PartForms.{text_or_flag, publish};
ghost use Rattle.manifest_schema.proofs.Forms.RowLaws.{text_or_flag_sound, text_or_flag_plain, publish_sound, publish_plain};
ghost use Rattle.manifest_parts.specs.Parts.{text_or_flag_content, publish_content};

use manifest_value::{Findings, Found, Plain, ReadFault, Schema, Source};
use manifest_written::Written;
use std::alloc::{AllocError, Global};
use toml::Value;

/// A text or a boolean, as `build` and `readme` have one.
#[derive(Clone, Debug, PartialEq, Eq, Drop)]
pub enum StringOrBool {
    /// A text: the path of a file, such as the build script or the readme.
    String(String),
    /// A boolean: true for the file of the default name, as `build.rs` or `README.md`, false for none.
    Bool(bool),
}

/// Read from a text or a boolean. Any other value is refused with `WrongKind`.
impl Schema for StringOrBool {
    ghost Content = { Contents.StringOrBool };

    ghost content = { text_or_flag_content };

    ghost kind = { text_or_flag };

    fn read(alloc: Global, source: Source<'_>) -> Result<StringOrBool, ReadFault> {
        match source.value() {
            Value::Boolean(b) => Ok(StringOrBool::Bool(*b)),
            _ => Ok(StringOrBool::String(String::read(alloc, source)?)),
        }
    }

    fn findings(alloc: Global, value: &Value) -> Found {
        match value {
            Value::Boolean(_) => Ok(Findings::none(alloc)),
            _ => String::findings(alloc, value),
        }
    }

    fn written(&self, _alloc: Global) -> Result<Written<'_>, AllocError> {
        match self {
            StringOrBool::Bool(b) => Ok(Written::Boolean(*b)),
            StringOrBool::String(s) => Ok(Written::Text(s.as_str())),
        }
    }

    fn is_well_formed(&self) -> bool {
        true
    }

    ghost lawful = { text_or_flag_sound };
}

impl Plain for StringOrBool {
    ghost plain = { text_or_flag_plain };
}

/// Whether a package may be published, or to which registries. See the
/// [Cargo reference](https://doc.rust-lang.org/cargo/reference/manifest.html#the-publish-field).
#[derive(Clone, Debug, PartialEq, Eq, Drop)]
pub enum Publish {
    /// Whether the package may be published: true to any registry, which is Cargo's default, false to none.
    Flag(bool),
    /// The names of the registries to which the package may be published; with no name, to none.
    Registry(Vec<String>),
}

/// Read from a boolean or a list of texts. Any other value, and an item that is no text, is refused with `WrongKind`.
impl Schema for Publish {
    ghost Content = { Contents.Publish };

    ghost content = { publish_content };

    ghost kind = { publish };

    fn read(alloc: Global, source: Source<'_>) -> Result<Publish, ReadFault> {
        match source.value() {
            Value::Boolean(b) => Ok(Publish::Flag(*b)),
            _ => Ok(Publish::Registry(Schema::read(alloc, source)?)),
        }
    }

    fn findings(alloc: Global, value: &Value) -> Found {
        match value {
            Value::Boolean(_) => Ok(Findings::none(alloc)),
            _ => <Vec<String> as Schema>::findings(alloc, value),
        }
    }

    fn written(&self, alloc: Global) -> Result<Written<'_>, AllocError> {
        match self {
            Publish::Flag(b) => Ok(Written::Boolean(*b)),
            Publish::Registry(registries) => registries.written(alloc),
        }
    }

    fn is_well_formed(&self) -> bool {
        match self {
            Publish::Flag(_) => true,
            Publish::Registry(registries) => registries.is_well_formed(),
        }
    }

    ghost lawful = { publish_sound };
}

impl Plain for Publish {
    ghost plain = { publish_plain };
}

/// A package may be published.
impl Default for Publish {
    ghost is_default = { λ x. publish_content x ≡ Contents.publish_flag true };

    fn default() -> Publish {
        Publish::Flag(true)
    }
}
