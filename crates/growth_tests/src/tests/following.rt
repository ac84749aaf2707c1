//! A feed that is followed while a growth may be refused: one of its lines, of the replica, or of what is told.
use super::playing::sum;
use follow::{FollowEnd, FollowOptions, Shown, Start, follow_io};
use sessions::{Reading, Writing};
use spans::Span;
use std::alloc::Global;
use std::io::Cursor;
use text_format::Format;

/// The feed's messages. One row has a key and a value that are too long to be held in place.
const MESSAGES: &[u8] = b"{\"after\":\"MQ==\",\"key\":\"YQ==\",\"updated\":\"10\"}
{\"after\":\"YmJiYmJiYmJiYmJiYmJiYmJiYmJiYmJiYmJiYmJiYmI=\",\"key\":\"YWFhYWFhYWFhYWFhYWFhYWFhYWFhYWFhYWFhYWFhYWE=\",\"updated\":\"10\"}
{\"resolved\":\"10\"}
{\"after\":null,\"key\":\"YQ==\",\"updated\":\"12\"}
{\"resolved\":\"20\"}
";

/// The follower's report, with the rows.
const REPORT: &[u8] = b"complete 9 0
resolved 10 2
row a 1
row aaaaaaaaaaaaaaaaaaaaaaaaaaaaaaaa bbbbbbbbbbbbbbbbbbbbbbbbbbbbbbbb
complete 11 2
row a 1
row aaaaaaaaaaaaaaaaaaaaaaaaaaaaaaaa bbbbbbbbbbbbbbbbbbbbbbbbbbbbbbbb
resolved 20 1
row aaaaaaaaaaaaaaaaaaaaaaaaaaaaaaaa bbbbbbbbbbbbbbbbbbbbbbbbbbbbbbbb
";

/// Follows the feed twice. How often memory was wanting, unless one of the two is another report, or ends otherwise.
pub(super) fn follow_twice(alloc: Global) -> Option<u64> {
    sum(follow(alloc), follow(alloc))
}

/// Follows the feed. How often memory was wanting: then a beginning of the report was told, and else all of it.
fn follow(alloc: Global) -> Option<u64> {
    let options = FollowOptions {
        span: Span { lo: None, hi: None },
        start: Start::Cursor(0),
        feed: None,
        shown: Shown::Rows,
        complete: true,
        format: Format::One,
    };
    let mut input = Reading::new(MESSAGES);
    // it has room for the report, and takes no memory
    let mut output = Writing::new(Cursor::new([0u8; 512]));
    let end = follow_io(alloc, options, &mut input, &mut output);
    let count = output.writer.position() as usize;
    told_in(end, output.writer.get_ref().get(..count)?)
}

fn told_in(end: FollowEnd, told: &[u8]) -> Option<u64> {
    match end {
        FollowEnd::Done if told == REPORT => Some(0),
        FollowEnd::Memory if REPORT.starts_with(told) => Some(1),
        _ => None,
    }
}
