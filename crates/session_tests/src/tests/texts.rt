//! Scripts and transcripts that are written line by line, so that long ones are short here.
use script::scripts::read_script;
use spans::{Cmd, Event};
use std::alloc::{AllocError, Global};
use std::test::Fail;
use text_format::Format;
use word_lines::events::write_event;

/// The form of lines, with the first number that they are written for, and the one behind the last.
pub(super) type Lines = (&'static str, u64, u64);

/// Puts a form with its capital letters replaced: the first number stands at A, the second at B, and so on. Ends the
/// line.
pub(super) fn put_form(
    alloc: Global,
    out: &mut Vec<u8>,
    form: &str,
    numbers: &[u64],
) -> Result<(), AllocError> {
    for byte in form.as_bytes() {
        match *byte {
            letter @ b'A'..=b'E' => {
                let number = numbers
                    .get(usize::from(letter.saturating_sub(b'A')))
                    .copied()
                    .unwrap_or(0);
                out.extend_from_slice(format!(in alloc; "{number}")?.as_bytes())?;
            }
            other => out.push(other)?,
        }
    }
    out.push(b'\n')?;
    Ok(())
}

/// A text of forms, each written for all its numbers.
pub(super) fn text_of(alloc: Global, forms: &[Lines]) -> Result<Vec<u8>, AllocError> {
    let mut out = Vec::new(alloc);
    for (form, from, to) in forms {
        for number in *from..*to {
            put_form(alloc, &mut out, form, &[number])?;
        }
    }
    Ok(out)
}

/// The commands of a script, for each of its sessions.
pub(super) fn commands_of(
    alloc: Global,
    script: &[u8],
    sessions: u8,
) -> Result<Vec<Vec<Cmd>>, Fail> {
    let mut lists = Vec::new(alloc);
    for _session in 0..sessions {
        lists.push(Vec::new(alloc))?;
    }
    for (session, cmd) in read_script(alloc, script, sessions, Format::One)? {
        let list: &mut Vec<Cmd> = lists
            .get_mut(usize::from(session))
            .ok_or("no such session")?;
        list.push(cmd)?;
    }
    Ok(lists)
}

/// The transcript of events.
pub(super) fn transcript_of(alloc: Global, events: &[Event]) -> Result<Vec<u8>, AllocError> {
    let mut out = Vec::new(alloc);
    for event in events {
        write_event(&mut out, event)?;
    }
    Ok(out)
}
