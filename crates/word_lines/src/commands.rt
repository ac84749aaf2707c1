//! Commands as lines: the session's number, the command's name and its arguments.
ghost use Rattle.std.specs.Prelude.{◌≡◌, ◌++◌, ◌∷◌, [], ◌<◌, decimal, true, IfOk, IfErr, OnOk, OnErr};
ghost use Rattle.word_lines.specs.Prelude.{is_long};
ghost use Rattle.word_lines.specs.Reading.{Gives, Takes, TakesFree, session_at, row_at, arguments_at, counted_at, taken_of, command_at, WantsMemory, byte_words, byte_words_of, byte_words_at};
ghost use Rattle.std.specs.List.{list_any};
ghost use Rattle.spelled_words.specs.declared.fault.ReadError.TheVariants.{NoMemory};
ghost use Rattle.word_lines.specs.Table.{table};
ghost use Rattle.word_lines.specs.Words.{words, spelling};
ghost use Rattle.word_lines.specs.Limits.{IsCommand};
ghost use Rattle.word_lines.specs.Messages.{Keeps};
ghost use Rattle.word_lines.specs.Events.{joined, bound_word, words_of, command_line};

use crate::arguments::{
    take_number, take_number_and_key, take_number_and_span, take_opening, take_opening_every,
    take_value,
};
use crate::buffer::or_undo;
use crate::fault::{LineFault, Parsed, ReadError};
use crate::numbers::{number_of, put_number};
use crate::spelling::put_spelling;
use crate::table::{Form, Verb, form_of};
use crate::words::{Words, check_words, text_of, words_in};
use spans::{Bound, Cmd, Span};
use std::alloc::{AllocError, Global};
use text_format::Format;
use timestamps::Key;

/// A writer's result.
pub(crate) type Written = Result<(), AllocError>;

/// Reads a command's line of a format, with its newline: the session, below `seats`, and the command. It
/// allocates for the command's keys, values and bounds alone.
///
/// A line that parses passes the tests of bytes and of the count of words by itself. They run only after a parse has
/// failed, to tell the fault that comes first.
#[tactic(auto, using(crate::proofs::ReadCommands::counted_right, crate::proofs::ReadCommands::counted_fault), unfolding(crate::specs::Reading::command_at, crate::specs::Reading::byte_words_at))]
#[inline(always)]
pub fn read_command(
    alloc: Global,
    line: &[u8],
    seats: u8,
    format: Format,
) -> Result<(u8, Cmd), ReadError>
    // What is read is the text of this command, byte for byte.
    ensures found { IfOk result (λ x. (line.now ≡ command_line x.0 x.1) × (x.0 < seats) × IsCommand format x.1) }
    // Which fault it is: the first from the left.
    ensures exact { Gives (λ x. x) result (command_at format table seats line.now) }
    // Memory is wanted only for a key, a value or a bound that is a word of more than 24 bytes.
    ensures memory { IfErr result (λ e. e ≡ NoMemory → WantsMemory (byte_words_at format table seats line.now)) }
{
    let text = text_of(line, format)?;
    match take_command(alloc, text, seats, format) {
        Ok(read) => Ok(read),
        Err(ReadError::NoMemory) => Err(ReadError::NoMemory),
        Err(ReadError::Fault(fault)) => {
            check_words(text)?;
            check_count(text, seats)?;
            Err(ReadError::Fault(fault))
        }
    }
}

/// Reads a command from the words of a text, which aren't counted before the last was read.
#[tactic(auto, unfolding(crate::specs::Reading::taken_of, crate::specs::Reading::byte_words_of))]
#[inline(always)]
fn take_command(alloc: Global, text: &[u8], seats: u8, format: Format) -> Parsed<(u8, Cmd)>
    ensures exact { Gives (λ x. x) result (taken_of format table seats (words text.now)) }
    ensures memory { IfErr result (λ e. e ≡ NoMemory → WantsMemory (byte_words_of table seats (words text.now))) }
{
    let mut words = words_in(text);
    let seat = take_seat(&mut words, seats)?;
    let form = take_form(&mut words)?;
    let cmd = take_arguments(alloc, form.verb, &mut words, format)?;
    if !words.is_empty() {
        return Err(ReadError::Fault(LineFault::WordCount));
    }
    Ok((seat, cmd))
}

/// Whether a text has as many words as its command takes, where it has a session and a command.
#[cold]
#[tactic(auto, unfolding(crate::specs::Reading::counted_at))]
fn check_count(text: &[u8], seats: u8) -> Result<(), LineFault>
    ensures { result ≡ counted_at table seats (words text.now) }
{
    let mut words = words_in(text);
    if words.len() < 2 {
        return Err(LineFault::WordCount);
    }
    take_seat(&mut words, seats)?;
    let form = take_form(&mut words)?;
    if words.len() != form.arguments {
        return Err(LineFault::WordCount);
    }
    Ok(())
}

/// A session's number, below `seats`.
#[tactic(auto, unfolding(crate::specs::Reading::session_at))]
pub fn take_seat(words: &mut Words, seats: u8) -> Result<u8, LineFault>
    ensures { TakesFree result words.new (session_at seats words.old) }
{
    let word = words.take_word().ok_or(LineFault::WordCount)?;
    match number_of(word) {
        Some(seat) if seat < u64::from(seats) => Ok(seat as u8),
        _ => Err(LineFault::Session),
    }
}

/// The row of a command's name.
#[inline(always)]
#[tactic(auto, unfolding(crate::specs::Reading::row_at))]
pub fn take_form(words: &mut Words) -> Result<Form, LineFault>
    ensures { TakesFree result words.new (row_at table words.old) }
{
    let name = words.take_word().ok_or(LineFault::WordCount)?;
    form_of(name).ok_or(LineFault::UnknownCommand)
}

/// The command, from the words of its arguments.
#[inline(always)]
#[tactic(auto, unfolding(crate::specs::Reading::arguments_at, crate::specs::Reading::parts_at))]
pub fn take_arguments(alloc: Global, verb: Verb, words: &mut Words, format: Format) -> Parsed<Cmd>
    ensures exact { Takes result words.new (arguments_at format verb words.old) }
    ensures memory { IfErr result (λ e. e ≡ NoMemory → list_any is_long (byte_words verb words.old) ≡ true) }
{
    match verb {
        Verb::Begin => take_number(words).map(|ts| Cmd::Begin { ts }),
        Verb::Commit => take_number(words).map(|ts| Cmd::Commit { ts }),
        Verb::Abort => take_number(words).map(|ts| Cmd::Abort { ts }),
        Verb::Close => take_number(words).map(|to| Cmd::Close { to }),
        Verb::CloseHard => take_number(words).map(|to| Cmd::CloseHard { to }),
        Verb::Protect => take_number(words).map(|t| Cmd::Protect { t }),
        Verb::Release => take_number(words).map(|id| Cmd::Release { id }),
        Verb::Collect => take_number(words).map(|to| Cmd::Collect { to }),
        Verb::Poll => Ok(Cmd::Poll {
            feed: take_number(words)?,
            max: take_number(words)?,
        }),
        Verb::Cancel => take_number(words).map(|feed| Cmd::Cancel { feed }),
        Verb::Stats => Ok(Cmd::Stats),
        Verb::Get => {
            let (ts, key) = take_number_and_key(alloc, words, format)?;
            Ok(Cmd::Get { ts, key })
        }
        Verb::Put => {
            let (ts, key) = take_number_and_key(alloc, words, format)?;
            let value = take_value(alloc, words, format)?;
            Ok(Cmd::Put { ts, key, value })
        }
        Verb::Del => {
            let (ts, key) = take_number_and_key(alloc, words, format)?;
            Ok(Cmd::Del { ts, key })
        }
        Verb::Scan => {
            let (ts, span) = take_number_and_span(alloc, words, format)?;
            Ok(Cmd::Scan { ts, span })
        }
        Verb::ReadAt => {
            let (t, key) = take_number_and_key(alloc, words, format)?;
            Ok(Cmd::ReadAt { t, key })
        }
        Verb::ScanAt => {
            let (t, span) = take_number_and_span(alloc, words, format)?;
            Ok(Cmd::ScanAt { t, span })
        }
        Verb::Open => {
            let (span, cursor) = take_opening(alloc, words, format)?;
            Ok(Cmd::Open { span, cursor })
        }
        Verb::OpenInitial => {
            let (span, cursor) = take_opening(alloc, words, format)?;
            Ok(Cmd::OpenInitial { span, cursor })
        }
        Verb::OpenEvery => {
            let (span, cursor, gap) = take_opening_every(alloc, words, format)?;
            Ok(Cmd::OpenEvery { span, cursor, gap })
        }
        Verb::OpenInitialEvery => {
            let (span, cursor, gap) = take_opening_every(alloc, words, format)?;
            Ok(Cmd::OpenInitialEvery { span, cursor, gap })
        }
    }
}

/// Writes a command's line, with its newline, at the end.
/// After an error it is as it was.
#[tactic(auto, using(crate::proofs::Writing::undone))]
pub fn write_command(out: &mut Vec<u8>, seat: u8, cmd: &Cmd) -> Result<(), AllocError>
    ensures ok { OnOk result (out.new.items ≡ out.old.items ++ command_line seat cmd.now) }
    ensures err { OnErr result (out.new.items ≡ out.old.items) }
{
    let length_before = out.len();
    let written = put_command(out, seat, cmd);
    or_undo(out, length_before, written)
}

#[tactic(auto, using(crate::proofs::Writing::keeping))]
fn put_command(out: &mut Vec<u8>, seat: u8, cmd: &Cmd) -> Written
    ensures ok { OnOk result (out.new.items ≡ out.old.items ++ command_line seat cmd.now) }
    ensures err { OnErr result (Keeps out.old.items out.new.items) }
{
    put_number(out, u64::from(seat))?;
    put_words(out, cmd)?;
    Ok(out.push(b'\n')?)
}

/// Writes a command's name and its arguments, a space before each.
#[tactic(auto, using(crate::proofs::Writing::keeping), unfolding(crate::specs::Events::words_of))]
pub(crate) fn put_words(out: &mut Vec<u8>, cmd: &Cmd) -> Written
    ensures ok { OnOk result (out.new.items ≡ out.old.items ++ 32 ∷ joined (words_of cmd.now)) }
    ensures err { OnErr result (Keeps out.old.items out.new.items) }
{
    match cmd {
        Cmd::Begin { ts } => put_named(out, b" begin ", *ts),
        Cmd::Get { ts, key } => put_named_key(out, b" get ", *ts, key),
        Cmd::Scan { ts, span } => put_named_span(out, b" scan ", *ts, span),
        Cmd::Put { ts, key, value } => {
            put_named_key(out, b" put ", *ts, key)?;
            put_word(out, value.bytes())
        }
        Cmd::Del { ts, key } => put_named_key(out, b" del ", *ts, key),
        Cmd::Commit { ts } => put_named(out, b" commit ", *ts),
        Cmd::Abort { ts } => put_named(out, b" abort ", *ts),
        Cmd::Close { to } => put_named(out, b" close ", *to),
        Cmd::CloseHard { to } => put_named(out, b" closehard ", *to),
        Cmd::ReadAt { t, key } => put_named_key(out, b" readat ", *t, key),
        Cmd::ScanAt { t, span } => put_named_span(out, b" scanat ", *t, span),
        Cmd::Protect { t } => put_named(out, b" protect ", *t),
        Cmd::Release { id } => put_named(out, b" release ", *id),
        Cmd::Collect { to } => put_named(out, b" collect ", *to),
        Cmd::Open { span, cursor } => put_opening(out, b" open", span, *cursor),
        Cmd::OpenInitial { span, cursor } => put_opening(out, b" openinitial", span, *cursor),
        Cmd::OpenEvery { span, cursor, gap } => {
            put_opening_every(out, b" openevery", span, *cursor, *gap)
        }
        Cmd::OpenInitialEvery { span, cursor, gap } => {
            put_opening_every(out, b" openinitialevery", span, *cursor, *gap)
        }
        Cmd::Poll { feed, max } => put_pair(out, b" poll ", *feed, *max),
        Cmd::Cancel { feed } => put_named(out, b" cancel ", *feed),
        Cmd::Stats => out.extend_from_slice(b" stats"),
    }
}

/// Writes a name, which ends in a space, a number and a key.
#[tactic(auto, using(crate::proofs::Writing::keeping))]
fn put_named_key(out: &mut Vec<u8>, name: &[u8], number: u64, key: &Key) -> Written
    ensures ok { OnOk result (out.new.items ≡ out.old.items ++ (name.now ++ joined (decimal number ∷ spelling key.now ∷ []))) }
    ensures err { OnErr result (Keeps out.old.items out.new.items) }
{
    put_named(out, name, number)?;
    put_word(out, key.bytes())
}

/// Writes a name, which ends in a space, a number and a span.
#[tactic(auto, using(crate::proofs::Writing::keeping))]
fn put_named_span(out: &mut Vec<u8>, name: &[u8], number: u64, span: &Span) -> Written
    ensures ok { OnOk result (out.new.items ≡ out.old.items ++ (name.now ++ joined (decimal number ∷ bound_word span.now.lo ∷ bound_word span.now.hi ∷ []))) }
    ensures err { OnErr result (Keeps out.old.items out.new.items) }
{
    put_named(out, name, number)?;
    put_span(out, span)
}

/// Writes a name, a span and a cursor.
#[tactic(auto, using(crate::proofs::Writing::keeping))]
fn put_opening(out: &mut Vec<u8>, name: &[u8], span: &Span, cursor: u64) -> Written
    ensures ok { OnOk result (out.new.items ≡ out.old.items ++ (name.now ++ 32 ∷ joined (bound_word span.now.lo ∷ bound_word span.now.hi ∷ decimal cursor ∷ []))) }
    ensures err { OnErr result (Keeps out.old.items out.new.items) }
{
    out.extend_from_slice(name)?;
    put_span(out, span)?;
    put_named(out, b" ", cursor)
}

/// Writes a name, a span, a cursor and a gap.
#[tactic(auto, using(crate::proofs::Writing::keeping))]
fn put_opening_every(out: &mut Vec<u8>, name: &[u8], span: &Span, cursor: u64, gap: u64) -> Written
    ensures ok { OnOk result (out.new.items ≡ out.old.items ++ (name.now ++ 32 ∷ joined (bound_word span.now.lo ∷ bound_word span.now.hi ∷ decimal cursor ∷ decimal gap ∷ []))) }
    ensures err { OnErr result (Keeps out.old.items out.new.items) }
{
    put_opening(out, name, span, cursor)?;
    put_named(out, b" ", gap)
}

/// Writes a name, which ends in a space, and a number.
#[tactic(auto, using(crate::proofs::Writing::keeping))]
pub(crate) fn put_named(out: &mut Vec<u8>, name: &[u8], number: u64) -> Written
    ensures ok { OnOk result (out.new.items ≡ out.old.items ++ (name.now ++ decimal number)) }
    ensures err { OnErr result (Keeps out.old.items out.new.items) }
{
    out.extend_from_slice(name)?;
    put_number(out, number)
}

/// Writes a name, which ends in a space, and two numbers.
#[tactic(auto, using(crate::proofs::Writing::keeping))]
pub(crate) fn put_pair(out: &mut Vec<u8>, name: &[u8], first: u64, second: u64) -> Written
    ensures ok { OnOk result (out.new.items ≡ out.old.items ++ (name.now ++ joined (decimal first ∷ decimal second ∷ []))) }
    ensures err { OnErr result (Keeps out.old.items out.new.items) }
{
    put_named(out, name, first)?;
    put_named(out, b" ", second)
}

/// Writes a space and the word that spells bytes.
#[tactic(auto, using(crate::proofs::Writing::keeping))]
pub(crate) fn put_word(out: &mut Vec<u8>, bytes: &[u8]) -> Written
    ensures ok { OnOk result (out.new.items ≡ out.old.items ++ 32 ∷ spelling bytes.now) }
    ensures err { OnErr result (Keeps out.old.items out.new.items) }
{
    out.push(b' ')?;
    put_spelling(out, bytes)
}

#[tactic(auto, using(crate::proofs::Writing::keeping))]
fn put_span(out: &mut Vec<u8>, span: &Span) -> Written
    ensures ok { OnOk result (out.new.items ≡ out.old.items ++ 32 ∷ joined (bound_word span.now.lo ∷ bound_word span.now.hi ∷ [])) }
    ensures err { OnErr result (Keeps out.old.items out.new.items) }
{
    put_bound(out, &span.lo)?;
    put_bound(out, &span.hi)
}

#[tactic(auto, using(crate::proofs::Writing::keeping))]
fn put_bound(out: &mut Vec<u8>, bound: &Option<Bound>) -> Written
    ensures ok { OnOk result (out.new.items ≡ out.old.items ++ 32 ∷ bound_word bound.now) }
    ensures err { OnErr result (Keeps out.old.items out.new.items) }
{
    match bound {
        None => out.extend_from_slice(b" -"),
        Some(bound) => put_word(out, bound.bytes()),
    }
}
