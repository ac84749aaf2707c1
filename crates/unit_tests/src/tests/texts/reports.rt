//! Reports, as an operator reads them.
use report_lines::write_report;
use spans::{Bound, FeedReport, Kind, ProtectionReport, Report, Span, ToldRow, TransactionReport};
use std::alloc::{AllocError, Global};
use std::test::Fail;
use timestamps::Key;

/// Two undecided transactions; protections and feeds that hold at one timestamp; an initial feed in its snapshot.
pub(super) const REPORTS: &str =
    "{'kind':'database','closed':'11','horizon':'0','limit':'11','holder':'closed','holder_number':null,'oldest':'12','oldest_seat':'5','versions':'3'}|\
{'kind':'transaction','timestamp':'12','seat':'5','keys':'0'}|\
{'kind':'transaction','timestamp':'20','seat':'3','keys':'2'}|\
{'kind':'database','closed':'10','horizon':'0','limit':'6','holder':'protection','holder_number':'2','oldest':null,'oldest_seat':null,'versions':'5','removable':'3'}|\
{'kind':'protection','number':'2','timestamp':'6'}|\
{'kind':'protection','number':'3','timestamp':'6'}|\
{'kind':'feed','number':'3','seat':'1','initial':false,'gap':'4','lo':null,'hi':'Yw==','cursor':'6','updated':null,'key':null,'resolved':null,'complete':'6','floor':'6','behind':'4','untold':'1'}|\
{'kind':'database','closed':'9','horizon':'7','limit':'7','holder':'feed','holder_number':'1','oldest':null,'oldest_seat':null,'versions':'5','removable':'0'}|\
{'kind':'feed','number':'1','seat':'1','initial':true,'gap':null,'lo':null,'hi':null,'cursor':'7','updated':'7','key':'Yg==','resolved':null,'complete':null,'floor':'7','behind':'2','untold':'3'}|";

/// Their lines, as they are written.
pub(super) fn reports(alloc: Global) -> Result<Vec<u8>, Fail> {
    let mut out = Vec::new(alloc);
    write_report(&undecided(alloc)?, &mut out)?;
    write_report(&tied(alloc, feed_three(alloc)?)?, &mut out)?;
    write_report(&in_snapshot(alloc, initial_feed(alloc)?)?, &mut out)?;
    Ok(out)
}

/// A live report of two transactions.
fn undecided(alloc: Global) -> Result<Report, AllocError> {
    let begun = TransactionReport {
        timestamp: 12,
        seat: 5,
        keys: 0,
    };
    let writing = TransactionReport {
        timestamp: 20,
        seat: 3,
        keys: 2,
    };
    let transactions = Vec::from_array(alloc, [begun, writing])?;
    Ok(Report {
        closed: 11,
        horizon: 0,
        versions: 3,
        removable: None,
        transactions,
        protections: Vec::new(alloc),
        feeds: Vec::new(alloc),
    })
}

/// A whole report of two protections and a feed.
fn tied(alloc: Global, feed: FeedReport) -> Result<Report, AllocError> {
    let one = ProtectionReport {
        number: 2,
        timestamp: 6,
    };
    let other = ProtectionReport {
        number: 3,
        timestamp: 6,
    };
    let protections = Vec::from_array(alloc, [one, other])?;
    whole(alloc, 10, 0, 3, protections, feed)
}

/// A whole report of an initial feed that was told two rows of three.
fn in_snapshot(alloc: Global, feed: FeedReport) -> Result<Report, AllocError> {
    whole(alloc, 9, 7, 0, Vec::new(alloc), feed)
}

/// A whole report of five versions and a feed, where it is closed, its horizon, and how many versions can go.
fn whole(
    alloc: Global,
    closed: u64,
    horizon: u64,
    removable: u64,
    protections: Vec<ProtectionReport>,
    feed: FeedReport,
) -> Result<Report, AllocError> {
    let feeds = Vec::from_array(alloc, [feed])?;
    Ok(Report {
        closed,
        horizon,
        versions: 5,
        removable: Some(removable),
        transactions: Vec::new(alloc),
        protections,
        feeds,
    })
}

fn feed_three(alloc: Global) -> Result<FeedReport, Fail> {
    let hi = Some(Bound::new(alloc, b"c")?);
    Ok(FeedReport {
        number: 3,
        seat: 1,
        kind: Kind {
            initial: false,
            gap: Some(4),
        },
        span: Span { lo: None, hi },
        cursor: 6,
        row: None,
        resolved: None,
        complete: Some(6),
        floor: 6,
        untold: Some(1),
    })
}

fn initial_feed(alloc: Global) -> Result<FeedReport, Fail> {
    let key = Key::new(alloc, b"b")?;
    Ok(FeedReport {
        number: 1,
        seat: 1,
        kind: Kind {
            initial: true,
            gap: None,
        },
        span: Span { lo: None, hi: None },
        cursor: 7,
        row: Some(ToldRow { ts: 7, key }),
        resolved: None,
        complete: None,
        floor: 7,
        untold: Some(3),
    })
}
