//! The rows of a replica as text: lines `row KEY VALUE`.
ghost use Rattle.std.specs.Prelude.{◌≡◌, flat_map, IfOk};
ghost use Rattle.word_lines.specs.Reading.{Gives};
ghost use Rattle.word_lines.specs.Events.{row_line};
ghost use Rattle.embedded_replica.specs.Consumers.{pairs_at};

use replica::KeysAndValues;
use script::following::read_row;
use script::lines::first_line;
use std::alloc::{AllocError, Global};
use text_format::Format;
use timestamps::{Key, Value};
use word_lines::fault::ReadError;
use word_lines::spelling::put_spelling;

/// The rows of lines, up to the first line that is none of a row.
pub(crate) fn pairs_of(alloc: Global, text: &[u8]) -> Result<Vec<(Key, Value)>, ReadError>
    ensures { Gives (λ rows. rows.items) result (pairs_at text.now) }
{
    let mut rows = Vec::new(alloc);
    let mut rest = text;
    while !rest.is_empty() {
        let (line, others) = first_line(rest);
        let row = read_row(alloc, line, Format::Two)?;
        rows.push(row)?;
        rest = others;
    }
    Ok(rows)
}

/// The lines of rows, as they stand in transcripts.
pub(crate) fn text_of(alloc: Global, rows: KeysAndValues<'_>) -> Result<Vec<u8>, AllocError>
    ensures { IfOk result (λ text. text.items ≡ flat_map row_line rows.entry) }
{
    let mut text = Vec::new(alloc);
    for (key, value) in rows {
        text.extend_from_slice(b"row ")?;
        put_spelling(&mut text, key.bytes())?;
        text.push(b' ')?;
        put_spelling(&mut text, value.bytes())?;
        text.push(b'\n')?;
    }
    Ok(text)
}
