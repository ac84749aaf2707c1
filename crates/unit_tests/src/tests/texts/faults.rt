//! The faults' numbers, names and lines.
use json_lines::MessageFault;
use script::fault::TranscriptError;
use std::alloc::{AllocError, Global};
use word_lines::events::{write_fault, write_spent};
use word_lines::fault::{LineFault, ReadError};

const LINE_FAULTS: [LineFault; 11] = [
    LineFault::WordCount,
    LineFault::UnknownCommand,
    LineFault::Number,
    LineFault::KeyLength,
    LineFault::ValueLength,
    LineFault::Session,
    LineFault::NoNewline,
    LineFault::LineTooLong,
    LineFault::BadByte,
    LineFault::Reply,
    LineFault::Follow,
];

const MESSAGE_FAULTS: [MessageFault; 6] = [
    MessageFault::NotJson,
    MessageFault::Shape,
    MessageFault::Number,
    MessageFault::Base64,
    MessageFault::Length,
    MessageFault::NoMemory,
];

/// The line that ends a run with each fault, its text and that of its error; then each fault of a message, with its
/// number and its text.
pub(super) fn faults(alloc: Global) -> Result<Vec<u8>, AllocError> {
    let mut out = Vec::new(alloc);
    for fault in LINE_FAULTS {
        write_fault(&mut out, 1, fault)?;
        let text = format!(in alloc; "{fault} {}\n", ReadError::Fault(fault))?;
        out.extend_from_slice(text.as_bytes())?;
    }
    for fault in MESSAGE_FAULTS {
        let text = format!(in alloc; "{} {fault}\n", fault as u8)?;
        out.extend_from_slice(text.as_bytes())?;
    }
    Ok(out)
}

/// The texts of other errors, and the line of a run whose positions are used up.
pub(super) fn other_lines(alloc: Global) -> Result<Vec<u8>, AllocError> {
    let mut out = Vec::new(alloc);
    let fault = TranscriptError::Fault {
        line: 3,
        fault: LineFault::Follow,
    };
    let text = format!(in alloc;
        "{fault}\n{}\n{}\n",
        ReadError::NoMemory,
        TranscriptError::NoMemory
    )?;
    out.extend_from_slice(text.as_bytes())?;
    write_spent(&mut out, 3)?;
    Ok(out)
}
