//! Which codes are errors, warnings, or not said at all.

use crate::tables::{items_in, table_in, text_of};
use manifest_lint::Diagnostic;
use manifest_rules::Level;
use std::alloc::{AllocError, Global};
use std::collections::BTreeMap;
use toml::Table;

/// What is to become of a code.
#[derive(Clone, Copy, PartialEq, Eq)]
pub enum Setting {
    Allow,
    Warn,
    Deny,
}

/// The keys of metadata, and the options, that set them.
pub const SETTINGS: [(&str, Setting); 3] = [
    ("allow", Setting::Allow),
    ("warn", Setting::Warn),
    ("deny", Setting::Deny),
];

/// A setting, and how many were made before it.
#[derive(Clone, Copy)]
struct Ranked {
    rank: usize,
    setting: Setting,
}

/// The settings of codes: the last that was made counts.
#[derive(Drop)]
pub(crate) struct Levels {
    count: usize,
    of_all: Option<Ranked>,
    of_codes: BTreeMap<String, Ranked>,
}

impl Levels {
    pub(crate) fn new(alloc: Global) -> Levels {
        Levels {
            count: 0,
            of_all: None,
            of_codes: BTreeMap::new(alloc),
        }
    }

    /// Sets a code, or `all`.
    pub(crate) fn set(
        &mut self,
        alloc: Global,
        name: &str,
        setting: Setting,
    ) -> Result<(), AllocError> {
        self.count = self.count.saturating_add(1);
        let ranked = Ranked {
            rank: self.count,
            setting,
        };
        if name == "all" {
            self.of_all = Some(ranked);
        } else {
            self.of_codes
                .insert(String::from_str(alloc, name)?, ranked)?;
        }
        Ok(())
    }

    /// Sets what `metadata.manifest-check` of a table says.
    pub(crate) fn set_by_metadata(
        &mut self,
        alloc: Global,
        table: Option<&Table>,
    ) -> Result<(), AllocError> {
        let Some(settings) = metadata_in(table) else {
            return Ok(());
        };
        for (key, setting) in &SETTINGS {
            for value in items_in(settings, *key) {
                if let Some(name) = text_of(value) {
                    self.set(alloc, name, *setting)?;
                }
            }
        }
        Ok(())
    }

    /// The setting for a diagnostic: `all` makes no error less than it is.
    fn setting(&self, diagnostic: &Diagnostic) -> Option<Setting> {
        let own = self.of_codes.get(diagnostic.code.name);
        let all = match self.of_all {
            Some(ranked) if diagnostic.level == Level::Error && ranked.setting != Setting::Deny => {
                None
            },
            other => other,
        };
        match (own, all) {
            (Some(own), Some(all)) => Some(if own.rank > all.rank {
                own.setting
            } else {
                all.setting
            }),
            (Some(own), None) => Some(own.setting),
            (None, Some(all)) => Some(all.setting),
            (None, None) => None,
        }
    }

    /// These diagnostics at the levels that are set, without those that are allowed.
    pub(crate) fn applied(
        &self,
        alloc: Global,
        diagnostics: Vec<Diagnostic>,
    ) -> Result<Vec<Diagnostic>, AllocError> {
        let mut kept = Vec::new(alloc);
        for diagnostic in diagnostics {
            let mut diagnostic = diagnostic;
            match self.setting(&diagnostic) {
                Some(Setting::Allow) => continue,
                Some(Setting::Warn) => diagnostic.level = Level::Warning,
                Some(Setting::Deny) => diagnostic.level = Level::Error,
                None => {}
            }
            kept.push(diagnostic)?;
        }
        Ok(kept)
    }
}

fn metadata_in(table: Option<&Table>) -> Option<&Table> {
    table_in(table_in(table?, "metadata")?, "manifest-check")
}
