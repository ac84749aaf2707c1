//! The lines of a report.
ghost use Rattle.std.specs.Prelude.{◌≡◌, ◌++◌, codes, option_map, OnOk, OnErr};
ghost use Rattle.std.specs.List.{flat_map};
ghost use Rattle.json_lines.specs.Messages.{Keeps};
ghost use Rattle.spans.specs.Collection.{VersionName};
ghost use Rattle.spans.specs.Report.{limit_in};
ghost use Rattle.report_lines.specs.Lines.{holder_word, holder_number, member, number_or_null, oldest_members, database_line, transaction_line, protection_line, feed_line};

use crate::members::Member::{Bytes, Number, NumberIfAny, Truth, Word};
use crate::members::{Written, put_line};
use spans::report::Holder;
use spans::{Bound, FeedReport, ProtectionReport, Report, ToldRow, TransactionReport};

/// The word for what holds a collection, and its number.
#[tactic(auto, unfolding(crate::specs::Lines::holder_word, crate::specs::Lines::holder_number))]
fn told_of(holder: Holder) -> (&'static [u8], Option<u64>)
    ensures word { result.0.now ≡ holder_word holder }
    ensures number { result.1 ≡ holder_number holder }
{
    match holder {
        Holder::Closed => (b"closed", None),
        Holder::Protection { number } => (b"protection", Some(number)),
        Holder::Feed { number } => (b"feed", Some(number)),
    }
}

/// The bytes of a bound.
fn bytes_of(bound: &Option<Bound>) -> Option<&[u8]>
    ensures { option_map (λ b. b.now) result ≡ bound.now }
{
    match bound {
        None => None,
        Some(bound) => Some(bound.bytes()),
    }
}

/// The timestamp of a row, and the bytes of its key.
fn parts_of(row: &Option<ToldRow>) -> (Option<u64>, Option<&[u8]>)
    ensures ts { result.0 ≡ option_map (λ (n : VersionName). n.ts) row.now }
    ensures key { option_map (λ b. b.now) result.1 ≡ option_map (λ (n : VersionName). n.key) row.now }
{
    match row {
        None => (None, None),
        Some(row) => (Some(row.ts), Some(row.key.bytes())),
    }
}

/// The oldest of the transactions, and its seat.
#[tactic(auto, unfolding(crate::specs::Lines::oldest_members))]
fn oldest_of(transactions: &[TransactionReport]) -> (Option<u64>, Option<u64>)
    ensures { member (codes "oldest") (number_or_null result.0) ++ member (codes "oldest_seat") (number_or_null result.1) ≡ oldest_members transactions.now }
{
    match transactions {
        [] => (None, None),
        [oldest, ..] => (Some(oldest.timestamp), Some(u64::from(oldest.seat))),
    }
}

/// Writes the line of the database.
pub(crate) fn put_database(out: &mut Vec<u8>, report: &Report) -> Written
    ensures ok { OnOk result (out.new.items ≡ out.old.items ++ database_line (limit_in report.now) report.now) }
    ensures err { OnErr result (Keeps out.old.items out.new.items) }
{
    let limit = report.limit();
    let (holder, holder_number) = told_of(limit.by);
    let (oldest, oldest_seat) = oldest_of(&report.transactions);
    put_line(
        out,
        b"database",
        &[
            Number(b"closed", Some(report.closed)),
            Number(b"horizon", Some(report.horizon)),
            Number(b"limit", Some(limit.at)),
            Word(b"holder", holder),
            Number(b"holder_number", holder_number),
            Number(b"oldest", oldest),
            Number(b"oldest_seat", oldest_seat),
            Number(b"versions", Some(report.versions)),
            NumberIfAny(b"removable", report.removable),
        ],
    )
}

/// Writes the line of an undecided transaction.
#[tactic(auto, unfolding(crate::specs::Lines::transaction_line, crate::specs::Lines::number_or_null, crate::specs::Lines::line_of, crate::specs::Lines::up_to_end, crate::specs::Lines::text_of))]
fn put_transaction(out: &mut Vec<u8>, transaction: &TransactionReport) -> Written
    ensures ok { OnOk result (out.new.items ≡ out.old.items ++ transaction_line transaction.now) }
    ensures err { OnErr result (Keeps out.old.items out.new.items) }
{
    put_line(
        out,
        b"transaction",
        &[
            Number(b"timestamp", Some(transaction.timestamp)),
            Number(b"seat", Some(u64::from(transaction.seat))),
            Number(b"keys", Some(transaction.keys)),
        ],
    )
}

/// Writes the line of a protection.
#[tactic(auto, unfolding(crate::specs::Lines::protection_line, crate::specs::Lines::number_or_null, crate::specs::Lines::line_of, crate::specs::Lines::up_to_end, crate::specs::Lines::text_of))]
fn put_protection(out: &mut Vec<u8>, protection: &ProtectionReport) -> Written
    ensures ok { OnOk result (out.new.items ≡ out.old.items ++ protection_line protection.now) }
    ensures err { OnErr result (Keeps out.old.items out.new.items) }
{
    put_line(
        out,
        b"protection",
        &[
            Number(b"number", Some(protection.number)),
            Number(b"timestamp", Some(protection.timestamp)),
        ],
    )
}

/// Writes the line of a feed, where the database is closed so far.
fn put_feed(out: &mut Vec<u8>, closed: u64, feed: &FeedReport) -> Written
    ensures ok { OnOk result (out.new.items ≡ out.old.items ++ feed_line closed feed.now) }
    ensures err { OnErr result (Keeps out.old.items out.new.items) }
{
    let (updated, key) = parts_of(&feed.row);
    put_line(
        out,
        b"feed",
        &[
            Number(b"number", Some(feed.number)),
            Number(b"seat", Some(u64::from(feed.seat))),
            Truth(b"initial", feed.kind.initial),
            Number(b"gap", feed.kind.gap),
            Bytes(b"lo", bytes_of(&feed.span.lo)),
            Bytes(b"hi", bytes_of(&feed.span.hi)),
            Number(b"cursor", Some(feed.cursor)),
            Number(b"updated", updated),
            Bytes(b"key", key),
            Number(b"resolved", feed.resolved),
            Number(b"complete", feed.complete),
            Number(b"floor", Some(feed.floor)),
            Number(b"behind", Some(closed.saturating_sub(feed.floor))),
            NumberIfAny(b"untold", feed.untold),
        ],
    )
}

/// Writes a line for each undecided transaction.
#[tactic(auto, using(json_lines::proofs::Writing::keeping, json_lines::proofs::Writing::on_error))]
pub(crate) fn put_transactions(out: &mut Vec<u8>, transactions: &[TransactionReport]) -> Written
    ensures ok { OnOk result (out.new.items ≡ out.old.items ++ flat_map transaction_line transactions.now) }
    ensures err { OnErr result (Keeps out.old.items out.new.items) }
{
    for transaction in transactions {
        put_transaction(out, transaction)?;
    }
    Ok(())
}

/// Writes a line for each protection.
#[tactic(auto, using(json_lines::proofs::Writing::keeping, json_lines::proofs::Writing::on_error))]
pub(crate) fn put_protections(out: &mut Vec<u8>, protections: &[ProtectionReport]) -> Written
    ensures ok { OnOk result (out.new.items ≡ out.old.items ++ flat_map protection_line protections.now) }
    ensures err { OnErr result (Keeps out.old.items out.new.items) }
{
    for protection in protections {
        put_protection(out, protection)?;
    }
    Ok(())
}

/// Writes a line for each feed, where the database is closed so far.
#[tactic(auto, using(json_lines::proofs::Writing::keeping, json_lines::proofs::Writing::on_error))]
pub(crate) fn put_feeds(out: &mut Vec<u8>, closed: u64, feeds: &[FeedReport]) -> Written
    ensures ok { OnOk result (out.new.items ≡ out.old.items ++ flat_map (feed_line closed) feeds.now) }
    ensures err { OnErr result (Keeps out.old.items out.new.items) }
{
    for feed in feeds {
        put_feed(out, closed, feed)?;
    }
    Ok(())
}
