//! Messages of the server.

use manifest_json::Text;
use std::alloc::Global;

/// Why a request has no answer.
#[derive(Clone, Copy)]
pub(crate) enum Refusal {
    NotJson,
    NotAMessage,
    UnknownMethod,
    NotInitialized,
    Cancelled,
}

impl Refusal {
    /// The number that the protocol has for it, without its sign.
    fn code(self) -> usize {
        match self {
            Refusal::NotJson => 32700,
            Refusal::NotAMessage => 32600,
            Refusal::UnknownMethod => 32601,
            Refusal::NotInitialized => 32002,
            Refusal::Cancelled => 32800,
        }
    }

    fn message(self) -> &'static str {
        match self {
            Refusal::NotJson => "the message is no JSON",
            Refusal::NotAMessage => "that is no message, or none that can be sent now",
            Refusal::UnknownMethod => "the method is not known",
            Refusal::NotInitialized => "the session was not initialized",
            Refusal::Cancelled => "the request was cancelled",
        }
    }
}

/// Writes a message after its header.
pub(crate) fn push_frame(out: &mut Text, body: Text) {
    let Some(body) = out.made(body.finish()) else {
        return;
    };
    out.push_str("Content-Length: ");
    out.push_number(body.len());
    out.push_str("\r\n\r\n");
    out.push_str(body.as_str());
}

/// What an answer to a request begins with.
pub(crate) fn begun(alloc: Global, id: &str) -> Text {
    let mut body = Text::new(alloc);
    body.open();
    body.text_member("jsonrpc", "2.0");
    body.push_key("id");
    body.push_str(id);
    body
}

/// What a notification begins with, up to the members of its parameters.
pub(crate) fn begun_notification(alloc: Global, method: &str) -> Text {
    let mut body = Text::new(alloc);
    body.open();
    body.text_member("jsonrpc", "2.0");
    body.text_member("method", method);
    body.open_member("params");
    body
}

/// Answers that there is no answer.
pub(crate) fn push_error(body: &mut Text, refusal: Refusal) {
    body.open_member("error");
    body.push_key("code");
    body.push('-');
    body.push_number(refusal.code());
    body.text_member("message", refusal.message());
    body.close();
}

/// Refuses a request.
pub(crate) fn push_refusal(out: &mut Text, id: &str, refusal: Refusal) {
    let mut body = begun(out.allocator(), id);
    push_error(&mut body, refusal);
    body.close();
    push_frame(out, body);
}
