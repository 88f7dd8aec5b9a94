//! A run of the program over any reader and writers, and over the files of a runtime.

ghost use Rattle.std.specs.Prelude.{◌≡◌, ◌⊎◌, IfOk, IfErr, OnOk, OnErr, IfSome};
ghost use Rattle.std.specs.Io.KnownBytes.{Keeps};
ghost use Rattle.cargo_manifest.specs.Canonical.{IsAccepted};
ghost use Rattle.manifest_command.specs.Run.{IsCanonInput, Asked, Asks, AreWrong, MayPrint, PrintsOne, BeginsOne, IsPrinted, IsBegun, IsRefused};
ghost use Rattle.manifest_command.specs.Words.{asked_by, Serves, Fails};

use crate::files::{canon_at, complete_at};
use crate::printing::print_manifest;
use crate::refusal::tell;
use crate::words::{Request, refuse_words, request_from_words};
use cargo_manifest::{Error, Manifest};
use manifest_inherit::FinishError;
use std::alloc::Global;
use std::io;
use std::io::{ErrorKind, Read, Write};
use std::rt::Files;

/// How many bytes are read at a time.
const CHUNK: usize = 4096;

/// The whole input. One that has not ended after 4,294,967,295 reads is refused.
fn read_all<R: Read>(alloc: Global, input: &mut R) -> io::Result<Vec<u8>>
    ensures { IfOk result (λ v. IfSome (R.remaining input.old) (λ xs. v.items ≡ xs)) }
{
    let mut bytes = Vec::new(alloc);
    let mut chunk = [0u8; CHUNK];
    for _ in 0..u32::MAX {
        match input.read(&mut chunk) {
            Ok(0) => return Ok(bytes),
            Ok(n) => bytes.extend_from_slice(&chunk[..n])?,
            Err(fault) => {
                if fault.kind() != ErrorKind::Interrupted {
                    return Err(fault);
                }
            }
        }
    }
    Err(io::Error::other("the input has not ended"))
}

/// Reads the manifest that the bytes mean, and writes its canonical text to `output`. After a refusal `output` has at
/// most a beginning of the text.
#[tactic(auto, using(crate::proofs::Printed::refused_by_bytes, crate::proofs::Printed::refused_as_printed))]
fn print_canonical<W: Write>(alloc: Global, bytes: &[u8], output: &mut W) -> Result<(), Error>
    ensures ok { OnOk result (IsPrinted bytes.now (W.contents output.old) (W.contents output.new)) }
    ensures refused { IfErr result
        (IsRefused bytes.now (W.contents output.old) (W.contents output.new)) }
{
    let manifest = match Manifest::from_slice(alloc, bytes) {
        Ok(manifest) => manifest,
        Err(refused) => return Err(refused),
    };
    print_manifest(alloc, manifest, output)
}

/// Reads the input to its end, and writes the canonical text of its manifest to `output`, as [`print_canonical`] does.
fn canon<R: Read, W: Write>(alloc: Global, input: &mut R, output: &mut W) -> Result<(), Error>
    ensures ok { OnOk result (IfSome (R.remaining input.old)
        (λ bytes. IsPrinted bytes (W.contents output.old) (W.contents output.new))) }
    ensures refused { IfErr result (λ e. IfSome (R.remaining input.old)
        (λ bytes. IsRefused bytes (W.contents output.old) (W.contents output.new) e)) }
{
    let bytes = read_all(alloc, input)?;
    print_canonical(alloc, bytes.as_slice(), output)
}

/// Does what a request asks for: reads the manifest, completes it if asked to, and prints it.
fn serve<H: Files + AllocGlobal + Clone + Drop, R: Read, W: Write>(
    rt: &H,
    request: Request<'_>,
    input: &mut R,
    output: &mut W,
) -> Result<(), FinishError>
    ensures ok { OnOk result (Serves (asked_by request.entry)
        (R.remaining input.old) (W.contents output.old) (W.contents output.new)) }
    ensures refused { OnErr result (Fails (asked_by request.entry)
        (R.remaining input.old) (W.contents output.old) (W.contents output.new)) }
{
    match request {
        Request::CanonInput => {
            canon(rt.alloc(), input, output)?;
            Ok(())
        }
        Request::CanonFile(file) => canon_at(rt, file, output),
        Request::CompleteFile(file) => complete_at(rt, file, None, output),
        Request::CompleteMember(file, root) => complete_at(rt, file, Some(root), output),
    }
}

/// Does what the words ask for, and answers the status: 0, or 1 with one line on `errors` and nothing on `output`
/// (but for an `output` that fails half-way, which has a beginning of the text), or 2 with the usage line for other
/// words than `canon -` or none, `canon FILE`, `complete FILE` and `complete FILE --workspace ROOT`. `-` is never a
/// FILE or ROOT.
///
/// `canon` prints the canonical text of the manifest; `complete` first completes the manifest over the folder that FILE
/// stands in; with a ROOT, what is inherited from the workspace of ROOT is put in before.
///
/// The lines are `error: toml`, `error: schema: CAUSE at PATH`, `error: io`, `error: utf8`, `error: memory` and
/// `error: other: TEXT`; and with a ROOT `error: no workspace`, `error: not in workspace: KEY`, `error: inherited in
/// workspace: NAME`, `error: mixed lints` and `error: tool named workspace`. A fault of FILE, of ROOT, of a folder, of
/// `input` or of `output` is `error: io`; an input that has not ended after 4,294,967,295 reads is one, and so is an
/// output that has not taken the text after as many writes. A fault of `errors` changes no status.
///
/// ```ignore
/// let status = run(&rt, &[], &mut input, &mut output, &mut errors);
/// ```
pub fn run<H: Files + AllocGlobal + Clone + Drop, R: Read, W: Write, E: Write>(
    rt: &H,
    words: &[String],
    input: &mut R,
    output: &mut W,
    errors: &mut E,
) -> u8
    ensures status { IsCanonInput words.now → (result ≡ 0) ⊎ (result ≡ 1) }
    ensures printed { IsCanonInput words.now → result ≡ 0 → IfSome (R.remaining input.old)
        (λ bytes. IsPrinted bytes (W.contents output.old) (W.contents output.new)) }
    ensures refused { IsCanonInput words.now → result ≡ 1 → IfSome (R.remaining input.old)
        (λ bytes. IsBegun bytes (W.contents output.old) (W.contents output.new)) }
    ensures no_document { IsCanonInput words.now → IfSome (R.remaining input.old)
        (λ bytes. ¬ IsAccepted bytes
        → (result ≡ 1) × Keeps (W.contents output.old) (W.contents output.new)) }
    ensures file_status { (a : Asked) → Asks a words.now → (result ≡ 0) ⊎ (result ≡ 1) }
    ensures file_printed { (a : Asked) → Asks a words.now → result ≡ 0
        → PrintsOne (MayPrint a) (W.contents output.old) (W.contents output.new) }
    ensures file_refused { (a : Asked) → Asks a words.now → result ≡ 1
        → BeginsOne (MayPrint a) (W.contents output.old) (W.contents output.new) }
    ensures wrong_words { AreWrong words.now
        → (result ≡ 2) × Keeps (W.contents output.old) (W.contents output.new) }
{
    let request = match request_from_words(words) {
        Some(request) => request,
        None => return refuse_words(errors),
    };
    match serve(rt, request, input, output) {
        Ok(()) => 0,
        Err(refusal) => {
            tell(rt.alloc(), errors, &refusal);
            1
        }
    }
}
