//! Printing the canonical text of a manifest.

ghost use Rattle.manifest_schema.specs.Prelude.{Appends, view};
ghost use Rattle.std.specs.Prelude.{OnOk, OnErr, IfErr};
ghost use Rattle.cargo_manifest.specs.Whole.{manifest_content};
ghost use Rattle.manifest_command.specs.Run.{Begins, Prints, FailsToPrint};

use cargo_manifest::{Error, Manifest};
use std::alloc::Global;
use std::io;
use std::io::{ErrorKind, Write};

/// Writes all of a text. An interrupted write is tried again; one that takes nothing is refused, and so is an output
/// that has not taken the text after 4,294,967,295 writes.
fn write_text<W: Write>(output: &mut W, text: &[u8]) -> io::Result<()>
    ensures ok { OnOk result (Appends (W.contents output.old) (W.contents output.new) text.now) }
    ensures refused { OnErr result
        (Begins (W.contents output.old) (W.contents output.new) text.now) }
{
    let mut rest = text;
    for _ in 0..u32::MAX {
        if rest.is_empty() {
            return Ok(());
        }
        match output.write(rest) {
            Ok(0) => return Err(io::Error::from(ErrorKind::WriteZero)),
            Ok(n) => rest = &rest[n..],
            Err(fault) => {
                if fault.kind() != ErrorKind::Interrupted {
                    return Err(fault);
                }
            }
        }
    }
    Err(io::Error::other("the output has not taken the text"))
}

/// Writes all of a text, as [`write_text`] does, and flushes the output.
#[tactic(auto, using(crate::proofs::Printed::appends_kept, crate::proofs::Printed::begins_whole))]
fn print<W: Write>(output: &mut W, text: &str) -> io::Result<()>
    ensures ok { OnOk result (Appends (W.contents output.old) (W.contents output.new) text.now) }
    ensures refused { OnErr result
        (Begins (W.contents output.old) (W.contents output.new) text.now) }
{
    write_text(output, text.as_bytes())?;
    output.flush()
}

/// Makes the canonical text of a manifest, drops the manifest, and writes the text to `output`. After a refusal
/// `output` has at most a beginning of the text.
#[tactic(auto, using(crate::proofs::Printed::fails_unwritten))]
pub fn print_manifest<W: Write>(
    alloc: Global,
    manifest: Manifest,
    output: &mut W,
) -> Result<(), Error>
    ensures ok { OnOk result
        (Prints (manifest_content view view manifest) (W.contents output.old)
        (W.contents output.new)) }
    ensures refused { IfErr result
        (FailsToPrint (manifest_content view view manifest)
        (W.contents output.old) (W.contents output.new)) }
{
    let text = manifest.to_toml_string(alloc);
    drop(manifest);
    let text = match text {
        Ok(text) => text,
        Err(refused) => return Err(refused),
    };
    print(output, text.as_str())?;
    Ok(())
}
