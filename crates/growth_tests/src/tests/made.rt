//! Texts that are made from forms.
//!
//! A form's lines stand as they are, but that `L` is a word too long to be held in place. Between two `@` stand lines that
//! come many times. Behind the first stand a number, how many times they come, how much the number grows each time, and how
//! much more the next letter has: `A` is the number, `B` so much more, and `C` and `D` more again.
//!
//! ```text
//! @10 3 20 5            0 begin 10
//! 0 begin A             0 begin 15
//! 0 begin B             0 begin 30 ..
//! @
//! ```
use script::transcripts::read_transcript;
use spans::Event;
use std::alloc::{AllocError, Global};
use text_format::Format;

const LONG: &str = "bbbbbbbbbbbbbbbbbbbbbbbbbbbbbbbb";

/// A text, and the position of its next event, where it has events.
#[derive(Drop)]
struct Lines {
    alloc: Global,
    text: Vec<u8>,
    next: Option<u64>,
}

/// The events of a form, whose lines have no positions.
pub(super) fn events_of(alloc: Global, form: &str) -> Option<Vec<Event>> {
    let text = text_of_form(alloc, form, Some(0)).ok()?;
    read_transcript(alloc, &text, Format::One).ok()
}

/// The text of a form, where the events, if it has some, stand behind their positions from one on.
pub(super) fn text_of_form(
    alloc: Global,
    form: &str,
    first: Option<u64>,
) -> Result<Vec<u8>, AllocError> {
    let mut lines = Lines {
        alloc,
        text: Vec::new(alloc),
        next: first,
    };
    lines.add_form(form)?;
    Ok(lines.text)
}

impl Lines {
    fn add_form(&mut self, form: &str) -> Result<(), AllocError> {
        let mut is_many = false;
        for part in form.split('@') {
            if is_many {
                self.add_many(part)?;
            } else {
                self.add_lines(part, &[])?;
            }
            is_many = !is_many;
        }
        Ok(())
    }

    /// Adds the lines behind the first so many times as it says.
    fn add_many(&mut self, part: &str) -> Result<(), AllocError> {
        let (head, lines) = part.split_once('\n').unwrap_or((part, ""));
        let [mut number, times, step, more] = numbers_of(head);
        for _ in 0..times {
            let b = number.saturating_add(more);
            let c = b.saturating_add(more);
            self.add_lines(lines, &[number, b, c, c.saturating_add(more)])?;
            number = number.saturating_add(step);
        }
        Ok(())
    }

    fn add_lines(&mut self, lines: &str, numbers: &[u64]) -> Result<(), AllocError> {
        for line in lines.lines() {
            if is_event(line) {
                self.add_position()?;
            }
            if !line.is_empty() {
                put_form(self.alloc, &mut self.text, line, numbers)?;
                self.text.push(b'\n')?;
            }
        }
        Ok(())
    }

    fn add_position(&mut self) -> Result<(), AllocError> {
        if let Some(position) = self.next {
            self.next = Some(position.saturating_add(1));
            put_form(self.alloc, &mut self.text, "A ", &[position])?;
        }
        Ok(())
    }
}

/// Whether a line begins with a seat.
fn is_event(line: &str) -> bool {
    matches!(line.as_bytes().first(), Some(b'0'..=b'9'))
}

fn numbers_of(head: &str) -> [u64; 4] {
    let mut words = head.split(' ');
    [
        number_of(words.next()),
        number_of(words.next()),
        number_of(words.next()),
        number_of(words.next()),
    ]
}

fn number_of(word: Option<&str>) -> u64 {
    match word {
        Some(word) => word.parse::<u64>().unwrap_or(0),
        None => 0,
    }
}

fn put_form(
    alloc: Global,
    out: &mut Vec<u8>,
    form: &str,
    numbers: &[u64],
) -> Result<(), AllocError> {
    for byte in form.as_bytes() {
        match *byte {
            letter @ b'A'..=b'D' => {
                put_number(alloc, out, numbers, letter.saturating_sub(b'A'))?;
            }
            b'L' => out.extend_from_slice(LONG.as_bytes())?,
            other => out.push(other)?,
        }
    }
    Ok(())
}

fn put_number(
    alloc: Global,
    out: &mut Vec<u8>,
    numbers: &[u64],
    place: u8,
) -> Result<(), AllocError> {
    let number = numbers.get(usize::from(place)).copied().unwrap_or(0);
    out.extend_from_slice(format!(in alloc; "{number}")?.as_bytes())
}
