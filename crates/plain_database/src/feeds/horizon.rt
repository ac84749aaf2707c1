//! The horizon that a collection reaches, as the checker finds it.
ghost use Rattle.plain_database.specs.ProtectionTie.{IsReached};

use crate::feeds::book::FeedBook;
use crate::feeds::protections::Protections;

/// The horizon after a collection through `to`. It passes no protection and no live feed's floor.
/// It goes not above `closed`, and never below the horizon that stands.
pub fn horizon_reached(
    feeds: &FeedBook,
    protections: &Protections,
    to: u64,
    closed: u64,
    horizon: u64,
) -> u64
    ensures { IsReached feeds.now protections.now to closed horizon result }
{
    let unread = feeds.least_floor(to.min(closed));
    horizon.max(protections.least(unread))
}
