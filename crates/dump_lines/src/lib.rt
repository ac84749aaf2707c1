//! The lines of a dump, row by row: commands of session 0.
//!
//! `jobs` writes the dump of a transcript by it, and `embedded` the one of a database in use, piece by piece. Rows come
//! by timestamp and then by key, so what is left of a transaction stands together, between its `begin` and its `commit`.
//!
//! 1. What is written for a row follows from the row, and from which transaction is open before it.
//! 2. At most one transaction is open: that of the row that was written last.
//!
//! ```text
//! open    call                         writes
//! none    write_row   20 a = 2         0 begin 20\n0 put 20 a 2\n
//! 20      write_row   20 b, deleted    0 del 20 b\n
//! 20      write_row   25 b = 1         0 commit 20\n0 begin 25\n0 put 25 b 1\n
//! 25      write_end                    0 commit 25\n
//! none    write_close 30, 20           0 close 30\n0 collect 20\n
//! ```
//!
//! Costs: each call the bytes that it writes. A row is given away, so neither its key nor its value is copied.
//!
//! A call takes memory where the buffer has to grow, and leaves that as it was where it finds none.
//!
//! Tests: `job_tests`.
#![tactic(auto)]

ghost use Rattle.std.specs.Prelude.{◌≡◌, ◌++◌, ◌∷◌, [], OnOk, OnErr};
ghost use Rattle.json_lines.specs.Messages.{Keeps};
ghost use Rattle.restarts.specs.Dump.{started};
ghost use Rattle.dump_lines.specs.Lines.{close_text, end_text, lines_of, row_command, row_text};

use json_lines::buffer::or_undo;
use spans::Cmd;
use std::alloc::AllocError;
use timestamps::Row;
use word_lines::commands::write_command;

/// Writes the lines of a row at the end: what comes before it, where `latest` may be open, and its write.
/// After an error it is as it was.
#[tactic(auto, using(json_lines::proofs::Writing::undone))]
pub fn write_row(out: &mut Vec<u8>, latest: Option<u64>, row: Row) -> Result<(), AllocError>
    ensures ok { OnOk result (out.new.items ≡ out.old.items ++ row_text latest row) }
    ensures err { OnErr result (out.new.items ≡ out.old.items) }
{
    let length_before = out.len();
    let ts = row.ts.get();
    let cmd = command_of(row);
    let written = put_row(out, latest, ts, &cmd);
    or_undo(out, length_before, written)
}

/// Writes the end of the transaction that is open, where one is. After an error it is as it was.
pub fn write_end(out: &mut Vec<u8>, latest: Option<u64>) -> Result<(), AllocError>
    ensures ok { OnOk result (out.new.items ≡ out.old.items ++ end_text latest) }
    ensures err { OnErr result (out.new.items ≡ out.old.items) }
{
    match latest {
        None => Ok(()),
        Some(ts) => write_command(out, 0, &Cmd::Commit { ts }),
    }
}

/// Writes the end of a dump that closes at `to`. After an error it is as it was.
#[tactic(auto, using(json_lines::proofs::Writing::undone, json_lines::proofs::Writing::keeping))]
pub fn write_close(out: &mut Vec<u8>, to: u64, horizon: u64) -> Result<(), AllocError>
    ensures ok { OnOk result (out.new.items ≡ out.old.items ++ close_text to horizon) }
    ensures err { OnErr result (out.new.items ≡ out.old.items) }
{
    let length_before = out.len();
    write_command(out, 0, &Cmd::Close { to })?;
    let written = write_command(out, 0, &Cmd::Collect { to: horizon });
    or_undo(out, length_before, written)
}

/// The command that writes a row.
fn command_of(row: Row) -> Cmd
    ensures { result ≡ row_command row }
{
    let Row { ts, key, after } = row;
    let ts = ts.get();
    match after {
        None => Cmd::Del { ts, key },
        Some(value) => Cmd::Put { ts, key, value },
    }
}

#[tactic(auto, using(json_lines::proofs::Writing::keeping))]
fn put_row(out: &mut Vec<u8>, latest: Option<u64>, ts: u64, cmd: &Cmd) -> Result<(), AllocError>
    ensures ok { OnOk result (out.new.items ≡ out.old.items ++ lines_of (started latest ts ++ cmd.now ∷ [])) }
    ensures err { OnErr result (Keeps out.old.items out.new.items) }
{
    if latest == Some(ts) {
        return write_command(out, 0, cmd);
    }
    write_end(out, latest)?;
    write_command(out, 0, &Cmd::Begin { ts })?;
    write_command(out, 0, cmd)
}
