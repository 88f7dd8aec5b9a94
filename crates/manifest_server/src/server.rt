//! The server: it reads messages to the end of its input, or to the client's word, and writes its own.

use crate::answers::{Refusal, push_refusal};
use crate::frames::{Frame, Frames};
use crate::message::{Message, message_of};
use crate::session::{Session, Stage};
use manifest_json::Text;
use std::alloc::{AllocError, Global};
use std::collections::BTreeSet;
use std::io;
use std::io::{Read, Write};
use std::rt::Files;

/// The messages that were read, and which requests are cancelled among them.
#[derive(Drop)]
struct Queue {
    messages: Vec<Message>,
    cancelled: BTreeSet<String>,
}

/// All messages that are there.
fn queued(alloc: Global, frames: &mut Frames) -> Result<Queue, AllocError> {
    let mut queue = Queue {
        messages: Vec::new(alloc),
        cancelled: BTreeSet::new(alloc),
    };
    for _ in 0..u64::MAX {
        let message = match frames.next()? {
            Some(Frame::Content(content)) => message_of(alloc, content.as_slice())?,
            Some(Frame::Wrong) => Message::NotJson,
            None => return Ok(queue),
        };
        if let Message::Notification(call) = &message {
            if call.method.as_str() == "$/cancelRequest" {
                if let Some(id) = call.params.get("id") {
                    queue.cancelled.insert(id.to_string(alloc)?)?;
                }
            }
        }
        queue.messages.push(message)?;
    }
    Ok(queue)
}

/// Takes one message. It says whether the client ends the session.
fn take<H: Files + AllocGlobal + Clone + Drop>(
    rt: &H,
    session: &mut Session,
    message: &Message,
    cancelled: &BTreeSet<String>,
    version: &str,
    out: &mut Text,
) -> bool {
    match message {
        Message::Request(id, _call) if cancelled.contains(id.as_str()) => {
            push_refusal(out, id.as_str(), Refusal::Cancelled);
        }
        Message::Request(id, call) => session.answer(rt, id.as_str(), call, version, out),
        Message::Notification(call) if call.method.as_str() == "exit" => return true,
        Message::Notification(call) => session.note(rt.alloc(), call, out),
        Message::Answer => {}
        Message::NotJson => push_refusal(out, "null", Refusal::NotJson),
        Message::Wrong => push_refusal(out, "null", Refusal::NotAMessage),
    }
    false
}

/// Takes all messages that are there, and tells what has changed by them. It says whether the client ends the session.
fn take_all<H: Files + AllocGlobal + Clone + Drop>(
    rt: &H,
    session: &mut Session,
    queue: &Queue,
    version: &str,
    out: &mut Text,
) -> bool {
    for message in &queue.messages {
        if take(rt, session, message, &queue.cancelled, version, out) {
            return true;
        }
    }
    session.publish_all(rt, out);
    false
}

/// Serves an editor until the input ends or the client says so: answers what is asked of the texts that are open, and tells
/// what is wrong with them, over files that are read where no text is open. `version` is what it says of itself. It says
/// whether the client had asked for the end, and an error is one of reading or writing, or of memory.
pub fn serve<H, R, W>(rt: &H, version: &str, input: &mut R, output: &mut W) -> io::Result<bool>
where
    H: Files + AllocGlobal + Clone + Drop,
    R: Read,
    W: Write,
{
    let alloc = rt.alloc();
    let mut session = Session::new(alloc);
    let mut frames = Frames::new(alloc);
    let ended = serve_in(rt, version, &mut session, &mut frames, input, output);
    drop(session);
    drop(frames);
    ended
}

/// Serves an editor in a session.
fn serve_in<H, R, W>(
    rt: &H,
    version: &str,
    session: &mut Session,
    frames: &mut Frames,
    input: &mut R,
    output: &mut W,
) -> io::Result<bool>
where
    H: Files + AllocGlobal + Clone + Drop,
    R: Read,
    W: Write,
{
    for _ in 0..u64::MAX {
        if !frames.fill(input)? || serve_round(rt, version, session, frames, output)? {
            break;
        }
    }
    Ok(session.stage == Stage::Ending)
}

/// Takes all messages that were read, and writes what is said of them; nothing, where memory runs out for one of them. It
/// says whether the client ends the session.
fn serve_round<H, W>(
    rt: &H,
    version: &str,
    session: &mut Session,
    frames: &mut Frames,
    output: &mut W,
) -> io::Result<bool>
where
    H: Files + AllocGlobal + Clone + Drop,
    W: Write,
{
    let queue = queued(rt.alloc(), frames)?;
    let mut out = Text::new(rt.alloc());
    let is_over = take_all(rt, session, &queue, version, &mut out);
    drop(queue);
    let said = out.finish()?;
    output.write_all(said.as_bytes())?;
    output.flush()?;
    Ok(is_over)
}
