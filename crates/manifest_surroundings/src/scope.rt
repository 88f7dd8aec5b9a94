//! What is looked at of a manifest.

use crate::levels::Setting;
use std::alloc::Global;

/// How many bytes a file may have where nothing else is said.
pub const MOST: u64 = 67_108_864;

/// A setting of a code by a word.
#[derive(Drop)]
pub struct LevelWord {
    /// Where it stands among the words.
    pub at: usize,
    pub name: String,
    pub setting: Setting,
}

/// What is looked at of a manifest, and how its codes are set.
#[derive(Drop)]
pub struct Scope {
    /// Whether the root of its workspace is looked for.
    pub uses_workspace: bool,
    /// Whether the configurations above it are read.
    pub uses_config: bool,
    /// The configuration that is read in place of them.
    pub config: Option<String>,
    /// Whether what a registry wants is asked for.
    pub publishes: bool,
    /// The settings of codes, in the order of the words.
    pub levels: Vec<LevelWord>,
}

impl Scope {
    /// All that there is, with no words.
    pub fn whole(alloc: Global) -> Scope {
        Scope {
            uses_workspace: true,
            uses_config: true,
            config: None,
            publishes: false,
            levels: Vec::new(alloc),
        }
    }
}
