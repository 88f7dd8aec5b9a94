//! The URIs of files, and their paths.

use percent_encoding::{
    AsciiSet, NON_ALPHANUMERIC, ascii_set, percent_decode, utf8_percent_encode,
};
use std::alloc::{AllocError, Global};

/// What the URI of a file begins with.
const SCHEME: &str = "file://";

/// What is escaped in the path of a URI.
const ESCAPED: AsciiSet = ascii_set!(
    NON_ALPHANUMERIC
        .remove(b'/')
        .remove(b'-')
        .remove(b'.')
        .remove(b'_')
        .remove(b'~')
);

/// The absolute path that the URI of a file has; `None` where it is no such URI.
pub(crate) fn path_of(alloc: Global, uri: &str) -> Result<Option<String>, AllocError> {
    let Some(rest) = uri.strip_prefix(SCHEME) else {
        return Ok(None);
    };
    let path = rest.strip_prefix("localhost").unwrap_or(rest);
    if !path.starts_with('/') {
        return Ok(None);
    }
    let mut bytes = Vec::new(alloc);
    percent_decode(path.as_bytes()).append_to(&mut bytes)?;
    Ok(String::from_utf8(bytes).ok())
}

/// The URI of the file with an absolute path.
pub(crate) fn uri_of(alloc: Global, path: &str) -> Result<String, AllocError> {
    let mut uri = String::from_str(alloc, SCHEME)?;
    utf8_percent_encode(path, ESCAPED).append_to(&mut uri)?;
    Ok(uri)
}
