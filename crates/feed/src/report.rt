//! What a report tells of the feeds.
ghost use Rattle.std.specs.Prelude.{◌≡◌, IfOk, filter_map, nat_eq};
ghost use Rattle.std.specs.List.{IsDistinct};
ghost use Rattle.std.specs.Map.{keys_of};
ghost use Rattle.feed.specs.Prelude.{AreLive};
ghost use Rattle.feed.specs.Standing.{place_at, report_at};

use crate::live::LiveFeed;
use indexmap::IndexMap;
use spans::FeedReport;
use std::alloc::{AllocError, Global};

/// Feeds by number.
type Lives = IndexMap<u64, LiveFeed>;

/// The feeds that live, numbers rising.
pub(crate) fn feed_reports(alloc: Global, live: &Lives) -> Result<Vec<FeedReport>, AllocError>
    ensures { IfOk result (λ ns. AreLive (place_at live.now.entries) ns.items) }
{
    let mut numbers = numbers_of(alloc, live)?;
    numbers.sort_unstable();
    reports_of(alloc, live, numbers.as_slice())
}

/// Those of these numbers.
fn reports_of(alloc: Global, live: &Lives, numbers: &[u64]) -> Result<Vec<FeedReport>, AllocError>
    ensures { IfOk result (λ ns. ns.items ≡ filter_map (report_at live.now.entries) numbers.now) }
{
    let mut reports = Vec::new(alloc);
    for number in numbers {
        if let Some(feed) = live.get(number) {
            reports.push(feed.report(*number)?)?;
        }
    }
    Ok(reports)
}

/// Their numbers.
fn numbers_of(alloc: Global, live: &Lives) -> Result<Vec<u64>, AllocError>
    ensures keys { IfOk result (λ fs. fs.items ≡ keys_of live.now.entries) }
    ensures distinct { IsDistinct nat_eq (keys_of live.now.entries) }
{
    live.keys().copied().collect(alloc)
}
