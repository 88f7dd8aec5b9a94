//! The words of the program: its command-line arguments.

ghost use Rattle.std.specs.Prelude.{◌≡◌};
ghost use Rattle.manifest_command.specs.Words.{IsRequestOf, IsPairOf, IsFourOf};

use std::io::Write;

const USAGE: &str =
    "usage: manifest_canon canon FILE | canon - | complete FILE [--workspace ROOT]\n";

/// What the words ask for.
#[derive(Clone, Copy)]
pub enum Request<'a> {
    /// To print the manifest of standard input: `canon -`, or no words.
    CanonInput,
    /// To print the manifest of a file: `canon FILE`.
    CanonFile(&'a str),
    /// To print the manifest of a file, completed over its folder: `complete FILE`.
    CompleteFile(&'a str),
    /// To print the manifest of a file, with what it inherits from the workspace of another file, and completed over
    /// its folder: `complete FILE --workspace ROOT`.
    CompleteMember(&'a str, &'a str),
}

/// What two arguments ask for; `None` where they are wrong. `-` names no file.
fn pair_request<'a>(verb: &str, file: &'a str) -> Option<Request<'a>>
    ensures { IsPairOf verb.now file.now result }
{
    if file == "-" {
        if verb == "canon" {
            return Some(Request::CanonInput);
        }
        return None;
    }
    match verb {
        "canon" => Some(Request::CanonFile(file)),
        "complete" => Some(Request::CompleteFile(file)),
        _ => None,
    }
}

/// What four arguments ask for, `complete FILE --workspace ROOT`; `None` where they are wrong.
fn member_request<'a>(verb: &str, file: &'a str, option: &str, root: &'a str) -> Option<Request<'a>>
    ensures { IsFourOf verb.now file.now option.now root.now result }
{
    if verb == "complete" && file != "-" && option == "--workspace" && root != "-" {
        Some(Request::CompleteMember(file, root))
    } else {
        None
    }
}

/// What the arguments of the program ask for, as `complete FILE`; `None` where they are wrong, which the usage line is
/// printed for.
pub fn request_from_words(words: &[String]) -> Option<Request<'_>>
    ensures { IsRequestOf words.now result }
{
    match words {
        [] => Some(Request::CanonInput),
        [verb, file] => pair_request(verb.as_str(), file.as_str()),
        [verb, file, option, root] => member_request(
            verb.as_str(),
            file.as_str(),
            option.as_str(),
            root.as_str(),
        ),
        _ => None,
    }
}

/// Writes the usage line, and returns the exit status of wrong arguments, 2.
///
/// ```ignore
/// let status = refuse_words(errors); // 2
/// ```
pub fn refuse_words<E: Write>(errors: &mut E) -> u8
    ensures { result ≡ 2 }
{
    let _ = errors.write_all(USAGE.as_bytes());
    2
}
