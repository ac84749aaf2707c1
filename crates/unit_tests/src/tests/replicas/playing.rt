//! The calls of a script's lines.
use replica::{Fault, Replica};
use spans::{Bound, Message, Span};
use std::alloc::Global;
use timestamps::{Key, Row, Ts, Value};

/// Whether the call of a line is answered as it says.
pub(super) fn is_answered(
    alloc: Global,
    replica: &mut Option<Replica>,
    line: &str,
) -> Option<bool> {
    let (call, wanted) = line.split_once('=')?;
    let mut words = Words { rest: call };
    let mut out = Vec::new(alloc);
    match words.word().as_bytes().first()? {
        b'f' => {
            let (made, code) = begin(alloc, &mut words)?;
            *replica = made;
            put_number(alloc, &mut out, u64::from(code))?;
        }
        b'i' => {
            *replica = Some(Replica::new_initial(alloc, words.span(alloc)?, words.number()?));
            put_number(alloc, &mut out, 0)?;
        }
        name => ask(alloc, replica.as_mut()?, *name, &mut words, &mut out)?,
    }
    Some(out.as_slice() == wanted.as_bytes())
}

/// A replica with rows to begin with, or the number of the fault.
fn begin(alloc: Global, words: &mut Words<'_>) -> Option<(Option<Replica>, u8)> {
    let span = words.span(alloc)?;
    match (words.number(), rows(alloc, words)) {
        (Some(cursor), Some(rows)) => Some(begun(Replica::new(alloc, span, cursor, rows))),
        _ => None,
    }
}

fn begun(made: Result<Replica, Fault>) -> (Option<Replica>, u8) {
    match made {
        Ok(replica) => (Some(replica), 0),
        Err(fault) => (None, fault.code()),
    }
}

/// Two rows at most.
fn rows(alloc: Global, words: &mut Words<'_>) -> Option<Vec<(Key, Value)>> {
    let mut rows = Vec::new(alloc);
    for _ in 0..2 {
        put_row(alloc, &mut rows, words)?;
    }
    Some(rows)
}

fn put_row(alloc: Global, rows: &mut Vec<(Key, Value)>, words: &mut Words<'_>) -> Option<()> {
    match Key::new(alloc, words.word().as_bytes()) {
        Ok(key) => {
            let value = Value::new(alloc, words.word().as_bytes()).ok()?;
            rows.push((key, value)).ok()
        }
        Err(_) => Some(()),
    }
}

/// Makes a call, and writes what it is answered.
fn ask(
    alloc: Global,
    replica: &mut Replica,
    name: u8,
    words: &mut Words<'_>,
    out: &mut Vec<u8>,
) -> Option<()> {
    match name {
        b'a' => put_number_or_none(alloc, out, replica.at_resolved()),
        b't' => put_number_or_none(alloc, out, replica.complete_through()),
        b'b' => put_number_or_none(alloc, out, replica.ready(&message(alloc, words)?)),
        b'l' => put_length(alloc, out, replica),
        b'k' => put_keys(alloc, out, replica, words.word()),
        b'g' => put_value(alloc, out, replica, words.word()),
        b'r' => match words.rest.split_once(' ') {
            None if words.rest.is_empty() => put_rows(out, replica),
            _ => put_code(alloc, out, replica.apply(message(alloc, words)?)),
        },
        _ => None,
    }
}

/// A message: a row, or a timestamp alone, which is resolved.
fn message(alloc: Global, words: &mut Words<'_>) -> Option<Message> {
    match words.rest.split_once(' ') {
        None => resolved(words),
        Some(_) => row(alloc, words),
    }
}

/// The message of a row: a value, or a delete.
fn row(alloc: Global, words: &mut Words<'_>) -> Option<Message> {
    let ts = Ts::new(words.number()?)?;
    let key = Key::new(alloc, words.word().as_bytes()).ok()?;
    let after = match words.word() {
        "-" => None,
        value => Some(Value::new(alloc, value.as_bytes()).ok()?),
    };
    Some(Message::Row(Row { ts, key, after }))
}

fn resolved(words: &mut Words<'_>) -> Option<Message> {
    Some(Message::Resolved(Ts::new(words.number()?)?))
}

fn put_code(alloc: Global, out: &mut Vec<u8>, applied: Result<(), Fault>) -> Option<()> {
    let code = match applied {
        Ok(()) => 0,
        Err(fault) => fault.code(),
    };
    put_number(alloc, out, u64::from(code))
}

fn put_length(alloc: Global, out: &mut Vec<u8>, replica: &Replica) -> Option<()> {
    let length = if replica.is_empty() {
        None
    } else {
        Some(replica.len() as u64)
    };
    put_number_or_none(alloc, out, length)
}

fn put_value(alloc: Global, out: &mut Vec<u8>, replica: &Replica, key: &str) -> Option<()> {
    match replica.get(&Key::new(alloc, key.as_bytes()).ok()?) {
        None => out.extend_from_slice(b"none").ok(),
        Some(value) => out.extend_from_slice(value.bytes()).ok(),
    }
}

/// Its rows, each as a space, its key and its value.
fn put_rows(out: &mut Vec<u8>, replica: &Replica) -> Option<()> {
    for (key, value) in replica.rows() {
        out.push(b' ').ok()?;
        out.extend_from_slice(key.bytes()).ok()?;
        out.extend_from_slice(value.bytes()).ok()?;
    }
    Some(())
}

/// Its keys that have a value, each behind a space.
fn put_keys(alloc: Global, out: &mut Vec<u8>, replica: &Replica, value: &str) -> Option<()> {
    let value = Value::new(alloc, value.as_bytes()).ok()?;
    for key in replica.keys_with(alloc, &value).ok()? {
        out.push(b' ').ok()?;
        out.extend_from_slice(key.bytes()).ok()?;
    }
    Some(())
}

fn put_number_or_none(alloc: Global, out: &mut Vec<u8>, number: Option<u64>) -> Option<()> {
    match number {
        None => out.extend_from_slice(b"none").ok(),
        Some(number) => put_number(alloc, out, number),
    }
}

fn put_number(alloc: Global, out: &mut Vec<u8>, number: u64) -> Option<()> {
    let text = format!(in alloc; "{number}").ok()?;
    out.extend_from_slice(text.as_bytes()).ok()
}

/// The words of a line that are left.
#[derive(Drop)]
struct Words<'a> {
    rest: &'a str,
}

impl<'a> Words<'a> {
    /// The next word, of no letter behind the last.
    fn word(&mut self) -> &'a str {
        let (word, rest) = self.rest.split_once(' ').unwrap_or((self.rest, ""));
        self.rest = rest;
        word
    }

    /// The next word as a number, if it is one.
    fn number(&mut self) -> Option<u64> {
        self.word().parse::<u64>().ok()
    }

    /// The span between two bounds.
    fn span(&mut self, alloc: Global) -> Option<Span> {
        let lo = bound(alloc, self.word())?;
        let hi = bound(alloc, self.word())?;
        Some(Span { lo, hi })
    }
}

/// A bound; `-` is none.
fn bound(alloc: Global, word: &str) -> Option<Option<Bound>> {
    if word == "-" {
        return Some(None);
    }
    Some(Some(Bound::new(alloc, word.as_bytes()).ok()?))
}
