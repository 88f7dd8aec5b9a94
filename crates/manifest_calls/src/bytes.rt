//! Values as tagged bytes, by their digits.

use crate::answers::value_line;
use anyhow::bail;
use cargo_manifest::Value;
use manifest_bytes::{DecodeError, value_bytes, value_of_bytes};
use std::alloc::Global;

/// The bytes of a value.
pub fn encode(alloc: Global, text: &str) -> anyhow::Result<String> {
    let value = Value::from_str(alloc, text)?;
    let bytes = value_bytes(alloc, &value);
    drop(value);
    Ok(hex::encode(alloc, bytes?.as_slice())?)
}

/// A value that was read from bytes; and a further line where it has other bytes.
fn line_of_value(alloc: Global, value: &Value, bytes: &[u8]) -> anyhow::Result<String> {
    let line = value_line(alloc, value)?;
    if value_bytes(alloc, value)?.as_slice() == bytes {
        Ok(line)
    } else {
        Ok(format!(in alloc; "{line}\nwhich has other bytes")?)
    }
}

/// The value of bytes that nests at most this deep.
pub fn decode(alloc: Global, depth: &str, digits: &str) -> anyhow::Result<String> {
    let bytes = hex::decode(alloc, digits)?;
    match value_of_bytes(alloc, depth.parse::<usize>()?, bytes.as_slice()) {
        Ok(Some(value)) => {
            let line = line_of_value(alloc, &value, bytes.as_slice());
            drop(value);
            line
        }
        Ok(None) => Ok(String::from_str(alloc, "none")?),
        Err(DecodeError::TooDeep) => Ok(String::from_str(alloc, "error: too deep")?),
        Err(DecodeError::Memory(_)) => bail!("memory"),
    }
}
