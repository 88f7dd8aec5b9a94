//! Rules of [`[lints]`](https://doc.rust-lang.org/cargo/reference/manifest.html#the-lints-section), of a package and of
//! a workspace.

use manifest_rules::codes::{
    INVALID_CHECK_CFG, LINTS_BESIDE_WORKSPACE, TOOL_IN_LINT_NAME, UNKNOWN_LINT_TOOL,
    UNSTABLE_LINT_TOOL,
};
use manifest_rules::look::{Look, flag_in, items_in, table_in, text_in};
use manifest_rules::report::{At, File, Out, Part, quoted};
use toml::{Table, Value};

/// The tools whose lints Cargo knows.
static TOOLS: [&str; 4] = ["cargo", "clippy", "rust", "rustdoc"];

fn is_known(tool: &str) -> bool {
    matches!(tool, "cargo" | "clippy" | "rust" | "rustdoc")
}

/// The lints of a tool.
#[derive(Clone, Copy)]
struct Tool<'a> {
    /// The path of the table of tools.
    base: &'a [At<'a>],
    /// The table of tools.
    tools: &'a Table,
    tool: &'a str,
}

/// All rules of lints.
pub fn lints(look: &Look<'_>, out: &mut Out) {
    if let Some(tools) = table_in(look.document, "lints") {
        lints_of_package(tools, out);
    }
    let Some(workspace) = look.workspace else {
        return;
    };
    let Some(tools) = table_in(workspace, "lints") else {
        return;
    };
    for (tool, _lints) in tools {
        let of = Tool {
            base: &[At::Key("workspace"), At::Key("lints")],
            tools,
            tool: tool.as_str(),
        };
        rules_of_tool(&of, out);
    }
}

fn lints_of_package(tools: &Table, out: &mut Out) {
    let is_inherited = flag_in(tools, "workspace") == Some(true);
    for (tool, _lints) in tools {
        let of = Tool {
            base: &[At::Key("lints")],
            tools,
            tool: tool.as_str(),
        };
        match of.tool {
            "workspace" => {}
            _ if is_inherited => lints_beside_workspace(&of, out),
            _ => rules_of_tool(&of, out),
        }
    }
}

fn rules_of_tool(of: &Tool<'_>, out: &mut Out) {
    if !is_known(of.tool) {
        unknown_lint_tool(of, out);
        return;
    }
    unstable_lint_tool(of, out);
    let Some(lints) = table_in(of.tools, of.tool) else {
        return;
    };
    for (lint, _value) in lints {
        let lint = lint.as_str();
        tool_in_lint_name(of, lint, out);
        match table_in(lints, lint) {
            Some(detail) if !lint.contains("::") => check_cfg(of, lint, detail, out),
            _ => {}
        }
    }
}

fn lints_beside_workspace(of: &Tool<'_>, out: &mut Out) {
    let words = ["lints of `{}` stand next to `workspace = true`", of.tool];
    out.key(LINTS_BESIDE_WORKSPACE, of.base, &[At::Key(of.tool)], &words);
    let other = [At::Key("workspace")];
    let label = ["all lints are inherited here"];
    out.label(File::Own, Part::Key, of.base, &other, &label);
    out.note(&["a package inherits the lints of its workspace or has its own, not both"]);
}

fn unknown_lint_tool(of: &Tool<'_>, out: &mut Out) {
    let rest = [At::Key(of.tool)];
    let near = out.nearest_of(of.tool, &TOOLS);
    let words = ["unrecognized lint tool `{}`", of.tool];
    out.key(UNKNOWN_LINT_TOOL, of.base, &rest, &words);
    out.note(&["the tools are `cargo`, `clippy`, `rust` and `rustdoc`"]);
    match near {
        Some(near) if !of.tools.contains_key(near) => {
            out.rename(of.base, &rest, near, false, &["write `{}`", near]);
        }
        _ => {}
    }
}

fn unstable_lint_tool(of: &Tool<'_>, out: &mut Out) {
    if of.tool != "cargo" {
        return;
    }
    let words = ["lints of `cargo` are unstable"];
    out.key(UNSTABLE_LINT_TOOL, of.base, &[At::Key("cargo")], &words);
    out.note(&["Cargo 1.95 ignores them; a nightly Cargo takes them with `-Z cargo-lints`"]);
}

/// The name of a lint has no tool before it: the key above it is the tool.
fn tool_in_lint_name<'a>(of: &Tool<'a>, lint: &'a str, out: &mut Out) {
    if let Some((front, bare)) = lint.split_once("::") {
        tool_in_front(of, lint, front, bare, out);
    }
}

fn tool_in_front<'a>(of: &Tool<'a>, lint: &'a str, front: &'a str, bare: &'a str, out: &mut Out) {
    let rest = [At::Key(of.tool), At::Key(lint)];
    let words = ["`{}` is no valid name of a lint of `{}`", lint, of.tool];
    out.key(TOOL_IN_LINT_NAME, of.base, &rest, &words);
    if front == of.tool {
        out.rename(of.base, &rest, bare, false, &["write `{}`", bare]);
        return;
    }
    if of.tool != "rust" || !is_known(front) {
        return;
    }
    out.help(&["write it as `{}` among the lints of `{}`", bare, front]);
}

/// `check-cfg` of a lint. (Of the keys that nothing reads the schema tells.)
fn check_cfg<'a>(of: &Tool<'a>, lint: &'a str, detail: &Table, out: &mut Out) {
    if of.tool == "rust" && lint == "unexpected_cfgs" {
        items_of_check_cfg(of, lint, items_in(detail, "check-cfg"), out);
        check_cfg_without_list(of, lint, detail, out);
    }
}

/// The items of `check-cfg` are texts.
fn items_of_check_cfg<'a>(of: &Tool<'a>, lint: &'a str, items: &[Value], out: &mut Out) {
    for (index, item) in items.iter().enumerate() {
        if !item.is_str() {
            let rest = [
                At::Key(of.tool),
                At::Key(lint),
                At::Key("check-cfg"),
                At::Index(index),
            ];
            let words = ["an item of `check-cfg` must be a string"];
            out.value(INVALID_CHECK_CFG, of.base, &rest, &words);
        }
    }
}

/// `check-cfg` is a list.
fn check_cfg_without_list<'a>(of: &Tool<'a>, lint: &'a str, detail: &Table, out: &mut Out) {
    let is_wrong = match detail.get("check-cfg") {
        Some(value) => !value.is_array(),
        None => false,
    };
    if !is_wrong {
        return;
    }
    let rest = [At::Key(of.tool), At::Key(lint), At::Key("check-cfg")];
    let words = ["`check-cfg` must be a list of strings"];
    out.value(INVALID_CHECK_CFG, of.base, &rest, &words);
    let Some(text) = text_in(detail, "check-cfg") else {
        return;
    };
    let text = out.text(quoted(out.alloc, text));
    let list = ["[{}]", text.as_str()];
    out.set(of.base, &rest, &list, true, &["write a list of it"]);
}
