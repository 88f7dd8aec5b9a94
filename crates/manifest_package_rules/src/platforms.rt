//! Rules of the platforms of `[target]`: a name, as `x86_64-pc-windows-gnu`, or `cfg(..)` with an expression in it. See
//! [Platform specific dependencies](https://doc.rust-lang.org/cargo/reference/specifying-dependencies.html#platform-specific-dependencies).

use crate::cfg::{CfgFault, Fact, facts};
use manifest_rules::codes::{BOOLEAN_AS_CFG_KEY, Code, INVALID_PLATFORM, NEVER_TRUE_CFG};
use manifest_rules::look::{Look, table_in};
use manifest_rules::report::{At, Out};
use std::alloc::AllocError;

/// All rules of platforms.
pub fn platforms(look: &Look<'_>, out: &mut Out) {
    let Some(platforms) = table_in(look.document, "target") else {
        return;
    };
    for (name, _platform) in platforms {
        let name = name.as_str();
        match expression(name) {
            Some(text) => {
                let judged = cfg_platform(name, text, out);
                let _done = out.made(judged);
            }
            None => named_platform(name, out),
        }
    }
}

/// What stands in the parentheses of `cfg(..)`.
pub(crate) fn expression(name: &str) -> Option<&str> {
    name.strip_prefix("cfg(")?.strip_suffix(')')
}

/// Says this of a key of `[target]`.
fn say(platform: &str, code: Code, words: &[&str], note: &str, out: &mut Out) {
    let path = [At::Key("target"), At::Key(platform)];
    out.key(code, &path, &[], words);
    out.note(&[note]);
}

/// A name is of letters and digits, `_`, `-` and `.`.
fn named_platform(name: &str, out: &mut Out) {
    let wrong = name.chars().find(|ch| !ch.is_alphanumeric() && !matches!(*ch, '_' | '-' | '.'));
    if let Some(ch) = wrong {
        wrong_character(name, ch, out);
    }
}

fn wrong_character(name: &str, ch: char, out: &mut Out) {
    let note = if name.contains('(') {
        "an expression stands in `cfg(..)`, with nothing around it"
    } else {
        "a platform is named by letters, digits, `_`, `-` and `.`, or is an expression in `cfg(..)`"
    };
    let ch = out.shown(&ch);
    let words = ["invalid character `{}` in platform `{}`", ch.as_str(), name];
    say(name, INVALID_PLATFORM, &words, note, out);
}

fn cfg_platform(platform: &str, text: &str, out: &mut Out) -> Result<(), AllocError> {
    match facts(out.alloc, text)? {
        Err(fault) => invalid_cfg(platform, fault, out),
        Ok(facts) => {
            for fact in facts.iter() {
                never_true_cfg(platform, fact, out);
                boolean_as_cfg_key(platform, fact, out);
            }
        }
    }
    Ok(())
}

fn invalid_cfg(platform: &str, fault: CfgFault<'_>, out: &mut Out) {
    let fault = out.shown(&fault);
    let words = [
        "failed to parse `{}` as a cfg expression: {}",
        platform,
        fault.as_str(),
    ];
    let note = "an expression is `name`, `name = \"text\"`, `all(..)`, `any(..)` or `not(..)`";
    say(platform, INVALID_PLATFORM, &words, note, out);
}

/// What Cargo does not know when it chooses dependencies.
fn never_true_cfg(platform: &str, fact: &Fact<'_>, out: &mut Out) {
    let is_feature = fact.name == "feature" && fact.value.is_some();
    let is_of_build = matches!(fact.name, "test" | "debug_assertions" | "proc_macro")
        && fact.value.is_none();
    if !is_feature && !is_of_build {
        return;
    }
    let (shown, note) = if is_feature {
        (
            "feature = ..",
            "a feature enables an optional dependency by `dep:name` in `[features]`",
        )
    } else {
        (
            fact.name,
            "only what the platform itself sets can select dependencies",
        )
    };
    let words = ["`{}` is never true where dependencies are selected", shown];
    say(platform, NEVER_TRUE_CFG, &words, note, out);
}

fn boolean_as_cfg_key(platform: &str, fact: &Fact<'_>, out: &mut Out) {
    if fact.is_raw || fact.value.is_none() || !matches!(fact.name, "true" | "false") {
        return;
    }
    let words = ["`{}` is used as the key of a cfg", fact.name];
    let note = "a later Cargo will refuse this; the key can be written with `r#` before it";
    say(platform, BOOLEAN_AS_CFG_KEY, &words, note, out);
}
