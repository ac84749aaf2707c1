//! A report as lines of JSON: what an operator may ask of a database, as text.
//!
//! `embedded` writes the report of a database in use by it, and `jobs` the one after a transcript.
//!
//! A line is one object and a newline. Its members stand in one order, all of them, without spaces; a number is a
//! string of digits, bytes are base64 (RFC 4648, with padding), and what isn't there is `null`. First comes the line of
//! the database, then one for each undecided transaction, each protection and each live feed. A whole report has two
//! members more than a live one, each the last of its line: `removable`, and `untold` of each feed.
//!
//! ```text
//! {"kind":"database","closed":"11","horizon":"0","limit":"11","holder":"closed","holder_number":null,"oldest":"12",..}
//! {"kind":"transaction","timestamp":"12","seat":"5","keys":"0"}
//! {"kind":"transaction","timestamp":"20","seat":"3","keys":"2"}
//! ```
//!
//! Costs: `write_report`: O(protections + feeds), and the bytes that it writes.
//!
//! It takes memory where the buffer has to grow, and leaves that as it was where it finds none.
//!
//! Tests: `unit_tests`.
#![tactic(auto)]

mod lines;
mod members;

ghost use Rattle.std.specs.Prelude.{◌≡◌, ◌++◌, OnOk, OnErr};
ghost use Rattle.json_lines.specs.Messages.{Keeps};
ghost use Rattle.report_lines.specs.Lines.{report_text};

use crate::lines::{put_database, put_feeds, put_protections, put_transactions};
use json_lines::buffer::or_undo;
use spans::Report;
use std::alloc::AllocError;

/// Writes a report at the end.
/// After an error it is as it was.
#[tactic(auto, using(json_lines::proofs::Writing::undone))]
pub fn write_report(report: &Report, out: &mut Vec<u8>) -> Result<(), AllocError>
    ensures ok { OnOk result (out.new.items ≡ out.old.items ++ report_text report.now) }
    ensures err { OnErr result (out.new.items ≡ out.old.items) }
{
    let length_before = out.len();
    let written = put_report(out, report);
    or_undo(out, length_before, written)
}

#[tactic(auto, using(json_lines::proofs::Writing::keeping, json_lines::proofs::Writing::on_error), unfolding(crate::specs::Lines::report_text))]
fn put_report(out: &mut Vec<u8>, report: &Report) -> Result<(), AllocError>
    ensures ok { OnOk result (out.new.items ≡ out.old.items ++ report_text report.now) }
    ensures err { OnErr result (Keeps out.old.items out.new.items) }
{
    put_database(out, report)?;
    put_transactions(out, &report.transactions)?;
    put_protections(out, &report.protections)?;
    put_feeds(out, report.closed, &report.feeds)
}
