//! The table of replies: the name of each.
ghost use Rattle.std.specs.Prelude.{◌≡◌, map};
ghost use Rattle.script.specs.ReplyReading.{reply_row, kind_of};

/// A reply's kind.
#[derive(Clone, Copy, PartialEq, Eq)]
pub(crate) enum Kind {
    Started,
    Absent,
    Value,
    Rows,
    Written,
    Committed,
    Aborted,
    Closed,
    Messages,
    Protected,
    Released,
    Collected,
    Opened,
    Cancelled,
    Stats,
    Refused(Reason),
}

/// A refusal's kind.
#[derive(Clone, Copy, PartialEq, Eq)]
pub(crate) enum Reason {
    BelowClosed,
    TsUsed,
    TsRange,
    Blocked,
    NoTxn,
    NotOwner,
    Ended,
    TooLate,
    NotClosed,
    BelowHorizon,
    NoProtection,
    NoFeed,
    FeedCancelled,
    NoMemory,
    GapRange,
}

/// All replies, the most frequent first.
pub(crate) static REPLIES: [(&[u8], Kind); 30] = [
    (b"started", Kind::Started),
    (b"none", Kind::Absent),
    (b"value", Kind::Value),
    (b"rows", Kind::Rows),
    (b"written", Kind::Written),
    (b"committed", Kind::Committed),
    (b"aborted", Kind::Aborted),
    (b"closed", Kind::Closed),
    (b"messages", Kind::Messages),
    (b"protected", Kind::Protected),
    (b"released", Kind::Released),
    (b"collected", Kind::Collected),
    (b"opened", Kind::Opened),
    (b"cancelled", Kind::Cancelled),
    (b"stats", Kind::Stats),
    (b"belowclosed", Kind::Refused(Reason::BelowClosed)),
    (b"tsused", Kind::Refused(Reason::TsUsed)),
    (b"tsrange", Kind::Refused(Reason::TsRange)),
    (b"blocked", Kind::Refused(Reason::Blocked)),
    (b"notxn", Kind::Refused(Reason::NoTxn)),
    (b"notowner", Kind::Refused(Reason::NotOwner)),
    (b"ended", Kind::Refused(Reason::Ended)),
    (b"toolate", Kind::Refused(Reason::TooLate)),
    (b"notclosed", Kind::Refused(Reason::NotClosed)),
    (b"belowhorizon", Kind::Refused(Reason::BelowHorizon)),
    (b"noprotection", Kind::Refused(Reason::NoProtection)),
    (b"nofeed", Kind::Refused(Reason::NoFeed)),
    (b"feedcancelled", Kind::Refused(Reason::FeedCancelled)),
    (b"nomemory", Kind::Refused(Reason::NoMemory)),
    (b"gaprange", Kind::Refused(Reason::GapRange)),
];

/// The reply of a name among the rows.
pub(crate) fn kind_of(rows: &[(&[u8], Kind)], name: &[u8]) -> Option<Kind>
    ensures { result ≡ kind_of (map reply_row rows.now) name.now }
{
    for row in rows {
        if row.0 == name {
            return Some(row.1);
        }
    }
    None
}
