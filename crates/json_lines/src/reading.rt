//! A line of JSON as a message of a format.
ghost use Rattle.std.specs.Prelude.{◌≡◌, ◌≢◌, IfOk, IfErr, Err};
ghost use Rattle.json_lines.specs.Prelude.{Message, NoMemory};
ghost use Rattle.json_lines.specs.Messages.{IsMessage, message_line};
ghost use Rattle.json_lines.specs.Tests.{message_at, IsUnresolved, MayWantMemory};

use crate::fault::MessageFault;
use crate::texts::message_of;
use crate::tree::meant_by;
use crate::written::texts_written;
use spans::Message;
use std::alloc::Global;
use text_format::Format;

/// The message whose line it is, with its newline. Its key and its value are as long as the format lets them be.
#[tactic(auto, using(crate::proofs::Readings::may_want, crate::proofs::Readings::no_json, crate::proofs::Readings::no_text))]
pub fn read_message(alloc: Global, line: &[u8], format: Format) -> Result<Message, MessageFault>
    // What is read is the line of this message, byte for byte.
    ensures found { IfOk result (λ m. (line.now ≡ message_line m) × IsMessage format m) }
    // A message's line is read, unless memory runs out.
    ensures whole { IfErr result (λ e. (m : Message) → IsMessage format m → line.now ≡ message_line m → e ≡ NoMemory) }
    // Another line doesn't pass one of the tests, and this is the first.
    ensures first { IfErr result (λ e. e ≢ NoMemory → message_at format line.now ≡ Err e) }
    // Memory is wanted only for UTF-8, and never for a resolved message's line.
    ensures memory { IfErr result (λ e. e ≡ NoMemory → MayWantMemory line.now) }
{
    let fault = match read_written(alloc, line, format) {
        Ok(message) => return Ok(message),
        Err(fault) => fault,
    };
    let Ok(text) = std::str::from_utf8(line) else {
        return Err(MessageFault::NotJson);
    };
    match fault {
        MessageFault::NoMemory => Err(MessageFault::NoMemory),
        _ => Err(first_fault(alloc, text, format)),
    }
}

/// The message of a line that is spelled as a message's line is. No tree is built for it.
#[tactic(auto, using(crate::proofs::Readings::unwritten))]
fn read_written(alloc: Global, line: &[u8], format: Format) -> Result<Message, MessageFault>
    ensures found { IfOk result (λ m. (line.now ≡ message_line m) × IsMessage format m) }
    ensures whole { IfErr result (λ e. (m : Message) → IsMessage format m → line.now ≡ message_line m → e ≡ NoMemory) }
    ensures memory { IfErr result (λ e. e ≡ NoMemory → IsUnresolved line.now) }
{
    let Ok(texts) = texts_written(line) else {
        return Err(MessageFault::Shape);
    };
    message_of(alloc, texts, format)
}

/// The first test that a text doesn't pass which is no message's line.
#[tactic(auto, unfolding(crate::specs::Tests::message_at))]
fn first_fault(alloc: Global, text: &str, format: Format) -> MessageFault
    requires { (m : Message) → IsMessage format m → text.now ≢ message_line m }
    ensures { result ≢ NoMemory → message_at format text.now ≡ Err result }
{
    match meant_by(alloc, text, format) {
        // it says what a message says, in another spelling
        Ok(_) => MessageFault::Shape,
        Err(fault) => fault,
    }
}
