//! The formats.

use crate::github::push_github;
use crate::ink::Style;
use crate::json::push_json;
use crate::marks::{Shown, all_shown};
use crate::people::push_people;
use crate::sarif::{push_foot, push_head, push_sarif};
use crate::short::push_short;
use crate::source::Sources;
use manifest_json::Text;
use manifest_lint::Diagnostic;
use manifest_rules::Level;
use std::alloc::Global;

/// How diagnostics are written.
#[derive(Clone, Copy, PartialEq, Eq)]
pub enum Format {
    /// For people, as rustc prints.
    People,
    /// `FILE:LINE:COLUMN: error[CODE]: MESSAGE`.
    Short,
    /// One line of JSON for each, as rustc writes them.
    Json,
    /// Commands of GitHub's actions.
    Github,
    /// SARIF 2.1.0.
    Sarif,
}

impl Format {
    /// The format of this name, as `people`.
    pub fn named(name: &str) -> Option<Format> {
        match name {
            "people" => Some(Format::People),
            "short" => Some(Format::Short),
            "json" => Some(Format::Json),
            "github" => Some(Format::Github),
            "sarif" => Some(Format::Sarif),
            _ => None,
        }
    }
}

/// The name of a level, as `error`.
pub fn level_name(level: Level) -> &'static str {
    match level {
        Level::Error => "error",
        Level::Warning => "warning",
        Level::Note => "note",
    }
}

/// What writes the diagnostics of manifests, one manifest after the other.
#[derive(Drop)]
pub struct Reporter {
    alloc: Global,
    format: Format,
    style: Style,
    is_first: bool,
}

impl Reporter {
    pub fn new(alloc: Global, format: Format, style: Style) -> Reporter {
        Reporter {
            alloc,
            format,
            style,
            is_first: true,
        }
    }

    /// Writes what stands before the diagnostics of all manifests.
    pub fn begin(&self, out: &mut Text) {
        match self.format {
            Format::Sarif => push_head(out),
            _ => {}
        }
    }

    /// Writes the diagnostics of one manifest, in their order.
    pub fn report<'a>(
        &mut self,
        out: &mut Text,
        sources: &Sources<'a>,
        diagnostics: &'a [Diagnostic],
    ) {
        let Some(all) = out.made(all_shown(self.alloc, sources, diagnostics)) else {
            return;
        };
        for one in &all {
            self.push(out, sources, one);
            self.is_first = false;
        }
    }

    fn push<'a>(&self, out: &mut Text, sources: &Sources<'a>, shown: &Shown<'a>) {
        let own = sources.own;
        let file = own.name;
        match self.format {
            Format::People => push_people(self.alloc, out, self.style, sources, shown),
            Format::Short => push_short(out, file, shown),
            Format::Json => push_json(self.alloc, out, self.style, sources, shown),
            Format::Github => push_github(out, file, shown),
            Format::Sarif => push_sarif(self.alloc, out, self.is_first, sources, shown),
        }
    }

    /// Writes what stands after the diagnostics of all manifests.
    pub fn end(&self, out: &mut Text) {
        match self.format {
            Format::Sarif => push_foot(out),
            _ => {}
        }
    }
}
