//! The first line of an event: its position, its session, its command and what its reply's words say.
ghost use Rattle.std.specs.Prelude.{◌≡◌, drop, true, IfErr};
ghost use Rattle.script.specs.Prelude.{Gives, NoMemory, is_long};
ghost use Rattle.script.specs.EventLines.{behind_arrow, heading_of, heading_at, event_words_at, event_words_of, ok_has};
ghost use Rattle.std.specs.List.{list_any};

use crate::reply_reading::{Shape, read_reply};
use spans::Cmd;
use spans::limits::MAX_SEATS;
use std::alloc::Global;
use text_format::Format;
use word_lines::arguments::take_number;
use word_lines::commands::{take_arguments, take_form, take_seat};
use word_lines::fault::{LineFault, Parsed, ReadError};
use word_lines::words::{Words, text_of, words_of};

/// The words of an event's first line, read.
#[derive(Drop)]
pub(crate) struct Heading {
    pub(crate) position: u64,
    pub(crate) seat: u8,
    pub(crate) cmd: Cmd,
    pub(crate) shape: Shape,
}

/// Reads the first line of an event, with its newline. All commands are known here.
#[tactic(auto, unfolding(crate::specs::EventLines::heading_at, crate::specs::EventLines::event_words_at))]
pub(crate) fn read_heading(alloc: Global, line: &[u8], format: Format) -> Parsed<Heading>
    ensures exact { Gives (λ x. x) result (heading_at format line.now) }
    ensures memory { IfErr result (λ e. e ≡ NoMemory → ok_has (list_any is_long) (event_words_at format line.now) ≡ true) }
{
    let text = text_of(line, format)?;
    let mut words = words_of(text)?;
    if words.len() < 3 {
        return Err(ReadError::Fault(LineFault::WordCount));
    }
    take_heading(alloc, &mut words, format)
}

/// Reads the words of an event's first line.
#[tactic(auto, unfolding(crate::specs::EventLines::heading_of, crate::specs::EventLines::event_words_of))]
fn take_heading(alloc: Global, words: &mut Words, format: Format) -> Parsed<Heading>
    ensures exact { Gives (λ x. x) result (heading_of format words.old) }
    ensures memory { IfErr result (λ e. e ≡ NoMemory → ok_has (list_any is_long) (event_words_of words.old) ≡ true) }
{
    let position = take_number(words)?;
    let seat = take_seat(words, MAX_SEATS)?;
    let form = take_form(words)?;
    let mut answer = words_behind_arrow(words, form.arguments)?;
    let cmd = take_arguments(alloc, form.verb, words, format)?;
    let shape = read_reply(alloc, &mut answer, format)?;
    Ok(Heading {
        position,
        seat,
        cmd,
        shape,
    })
}

/// The words of the reply: those behind so many arguments and `=>`.
fn words_behind_arrow<'a>(words: &Words<'a>, arguments: usize) -> Result<Words<'a>, LineFault>
    ensures { result ≡ behind_arrow arguments words.now }
{
    let mut ahead = words.fork();
    skip(&mut ahead, arguments);
    let Some(arrow) = ahead.take_word() else {
        return Err(LineFault::WordCount);
    };
    if arrow == b"=>".as_slice() {
        return Ok(ahead);
    }
    Err(LineFault::WordCount)
}

/// Takes so many words away, or all where there are fewer.
fn skip(words: &mut Words, count: usize)
    ensures { words.new ≡ drop count words.old }
{
    for _ in 0..count {
        let _ = words.take_word();
    }
}
