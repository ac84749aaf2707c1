//! The lines that are told of a feed.
ghost use Rattle.std.specs.Prelude.{◌≡◌, ◌++◌, OnOk};
ghost use Rattle.std.specs.List.{flat_map};
ghost use Rattle.std.specs.Option.{option_copied};
ghost use Rattle.follow.specs.Prelude.{row_line, view_in};
ghost use Rattle.follow.specs.Following.{fault_line};
ghost use Rattle.follow.specs.Reports.{change_line, count_line};

use crate::fault::FollowFault;
use json_lines::numbers::put_number;
use replica::{KeysAndValues, Replica};
use std::alloc::AllocError;
use std::collections::BTreeSet;
use timestamps::{Key, Value};
use word_lines::spelling::put_spelling;

/// Writes a word, a timestamp at which the rows are complete, and how many there are.
pub(crate) fn put_count(
    out: &mut Vec<u8>,
    word: &[u8],
    at: u64,
    rows: u64,
) -> Result<(), AllocError>
    ensures { OnOk result (out.new.items ≡ out.old.items ++ count_line word.now at rows) }
{
    out.extend_from_slice(word)?;
    out.push(b' ')?;
    put_number(out, at)?;
    out.push(b' ')?;
    put_number(out, rows)?;
    out.push(b'\n')?;
    Ok(())
}

/// Writes the lines of rows.
pub(crate) fn put_rows(out: &mut Vec<u8>, rows: KeysAndValues<'_>) -> Result<(), AllocError>
    ensures { OnOk result (out.new.items ≡ out.old.items ++ flat_map row_line rows.entry) }
{
    for (key, value) in rows {
        put_row(out, key, value)?;
    }
    Ok(())
}

/// Writes of each key its value, or that it has none any more.
pub(crate) fn put_changes(
    out: &mut Vec<u8>,
    changed: &BTreeSet<Key>,
    replica: &Replica,
) -> Result<(), AllocError>
    ensures { OnOk result (out.new.items ≡ out.old.items ++ flat_map (λ x. change_line x (view_in replica.now x)) changed.now.keys) }
{
    for key in changed.iter() {
        put_change(out, key, replica.get(key))?;
    }
    Ok(())
}

/// Writes what a key has, or that it has no value any more.
fn put_change(out: &mut Vec<u8>, key: &Key, value: Option<&Value>) -> Result<(), AllocError>
    ensures { OnOk result (out.new.items ≡ out.old.items ++ change_line key.now (option_copied value.entry)) }
{
    if let Some(value) = value {
        return put_row(out, key, value);
    }
    out.extend_from_slice(b"gone ")?;
    put_spelling(out, key.bytes())?;
    out.push(b'\n')?;
    Ok(())
}

/// Writes the line of a row, as it stands in transcripts.
fn put_row(out: &mut Vec<u8>, key: &Key, value: &Value) -> Result<(), AllocError>
    ensures { OnOk result (out.new.items ≡ out.old.items ++ row_line (key.now, value.now)) }
{
    out.extend_from_slice(b"row ")?;
    put_spelling(out, key.bytes())?;
    out.push(b' ')?;
    put_spelling(out, value.bytes())?;
    out.push(b'\n')?;
    Ok(())
}

/// Writes the line that names a fault and the line where it stands, counted from 1.
pub(crate) fn put_fault(out: &mut Vec<u8>, line: u64, fault: FollowFault) -> Result<(), AllocError>
    ensures { OnOk result (out.new.items ≡ out.old.items ++ fault_line line fault) }
{
    out.extend_from_slice(b"fault ")?;
    put_number(out, line)?;
    out.push(b' ')?;
    put_number(out, u64::from(fault.code()))?;
    out.push(b' ')?;
    out.extend_from_slice(fault.name().as_bytes())?;
    out.push(b'\n')?;
    Ok(())
}
