//! What a message is: a request, which is answered, or a notification, which is not.

use serde_json::Value;
use std::alloc::{AllocError, Global};

/// A message of the client.
#[derive(Drop)]
pub(crate) enum Message {
    /// With its id, as it is written in JSON.
    Request(String, Call),
    Notification(Call),
    /// The answer to a request of the server.
    Answer,
    /// It is no JSON.
    NotJson,
    /// It is JSON, and no message.
    Wrong,
}

/// What is called, and with what.
#[derive(Drop)]
pub(crate) struct Call {
    pub(crate) method: String,
    pub(crate) params: Value,
}

/// Takes a member out of an object.
fn take_member(value: &mut Value, key: &str) -> Value {
    match value.get_mut(key) {
        Some(member) => member.take(),
        None => Value::Null,
    }
}

/// What the content of a frame says.
pub(crate) fn message_of(alloc: Global, content: &[u8]) -> Result<Message, AllocError> {
    match Value::from_slice(alloc, content) {
        Ok(value) => message_in(alloc, value),
        Err(fault) if fault.is_memory() => Err(AllocError),
        Err(_) => Ok(Message::NotJson),
    }
}

/// The message that a value is.
fn message_in(alloc: Global, value: Value) -> Result<Message, AllocError> {
    let mut value = value;
    let method = match value.get("method") {
        Some(Value::String(method)) => method.clone()?,
        Some(_) => return Ok(Message::Wrong),
        None if value.get("id").is_some() => return Ok(Message::Answer),
        None => return Ok(Message::Wrong),
    };
    let params = take_member(&mut value, "params");
    let call = Call { method, params };
    match value.get("id") {
        Some(id) => Ok(Message::Request(id.to_string(alloc)?, call)),
        None => Ok(Message::Notification(call)),
    }
}

/// The text at a pointer, as `/textDocument/uri`.
pub(crate) fn text_at<'a>(params: &'a Value, pointer: &str) -> Option<&'a str> {
    params.pointer(pointer)?.as_str()
}

/// The number at a pointer.
pub(crate) fn number_at(params: &Value, pointer: &str) -> Option<usize> {
    let number = params.pointer(pointer)?.as_u64()?;
    usize::try_from(number).ok()
}

/// The items of the list at a pointer.
pub(crate) fn items_at<'a>(params: &'a Value, pointer: &str) -> &'a [Value] {
    match params.pointer(pointer) {
        Some(Value::Array(items)) => items.as_slice(),
        _ => &[],
    }
}
