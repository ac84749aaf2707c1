//! One block of a long row of versions: which one a place is in, and how blocks are halved, thinned and dropped.
ghost use Rattle.std.specs.Prelude.{◌≡◌, ◌<◌, ◌≤◌, ◌^◌, ◌++◌, [], drop, length, take, not};
ghost use Rattle.std.specs.List.{filter};
ghost use Rattle.version_chain.specs.declared.chain.Version.{Version};
ghost use Rattle.version_chain.specs.Blocks.{AreNumbered, IsBlockOf, all_in};
ghost use Rattle.version_chain.specs.Dead.{is_dead_version};

use crate::chain::Version;
use std::alloc::AllocError;

/// A block of more versions than these is halved.
pub(crate) const FULL: usize = 256;

/// Versions that lie together in memory.
#[derive(Drop)]
pub(crate) struct Block {
    /// How many versions stand in the blocks before it.
    pub(crate) start: usize,
    pub(crate) versions: Vec<Version>,
}

/// The block that has a place. The place behind all versions belongs to the last block.
pub(crate) fn block_of(blocks: &[Block], place: usize) -> usize
    requires some { 0 < length blocks.now }
    requires numbered { AreNumbered blocks.now }
    requires place { place ≤ length (all_in blocks.now) }
    ensures { IsBlockOf blocks.now place result }
{
    blocks.partition_point(|block| block.start <= place) - 1
}

/// Numbers the blocks from `first` on: each says how many versions stand before it. The blocks before are numbered, and
/// hold `start` versions.
pub(crate) fn number_from(blocks: &mut Vec<Block>, first: usize, start: usize)
    requires first { first ≤ length blocks.old.items }
    requires before { AreNumbered (take first blocks.old.items) }
    requires start { start ≡ length (all_in (take first blocks.old.items)) }
    requires few { length (all_in blocks.old.items) < 2 ^ 64 }
    ensures versions { all_in blocks.new.items ≡ all_in blocks.old.items }
    ensures numbered { AreNumbered blocks.new.items }
    ensures len { length blocks.new.items ≡ length blocks.old.items }
{
    let mut start = start;
    for i in first..blocks.len() {
        blocks[i].start = start;
        start += blocks[i].versions.len();
    }
}

/// Makes two blocks of one, where it has become too full. Where memory runs out, the one stays. Those from its place on
/// are then to be numbered.
pub(crate) fn halve_full(blocks: &mut Vec<Block>, k: usize) -> Result<(), AllocError>
    requires { k < length blocks.old.items }
    ensures versions { all_in blocks.new.items ≡ all_in blocks.old.items }
    ensures before { take k blocks.new.items ≡ take k blocks.old.items }
    ensures some { k < length blocks.new.items }
{
    if blocks[k].versions.len() <= FULL {
        return Ok(());
    }
    blocks.reserve(1)?;
    let lower = &mut blocks[k].versions;
    let versions = lower.split_off(lower.len() / 2)?;
    lower.shrink_to_fit();
    let upper = Block { start: 0, versions };
    let Ok(()) = blocks.insert(k + 1, upper) else {
        unreachable!()
    };
    Ok(())
}

/// Takes a block out that has become empty, unless it is the only one. Those from its place on are then to be numbered.
pub(crate) fn drop_empty(blocks: &mut Vec<Block>, k: usize)
    requires { k < length blocks.old.items }
    ensures versions { all_in blocks.new.items ≡ all_in blocks.old.items }
    ensures before { take k blocks.new.items ≡ take k blocks.old.items }
    ensures some { 0 < length blocks.new.items }
    ensures within { k ≤ length blocks.new.items }
{
    if blocks[k].versions.is_empty() && blocks.len() > 1 {
        blocks.remove(k);
    }
}

/// Drops the versions of the first blocks that are dead by the horizon. The blocks are then to be numbered.
pub(crate) fn thin(blocks: &mut Vec<Block>, end: usize, horizon: u64, top: u64)
    requires { end ≤ length blocks.old.items }
    ensures versions { all_in blocks.new.items ≡ filter (λ (v : Version). not (is_dead_version horizon top v)) (all_in (take end blocks.old.items)) ++ all_in (drop end blocks.old.items) }
    ensures len { length blocks.new.items ≡ length blocks.old.items }
{
    for i in 0..end {
        blocks[i]
            .versions
            .retain(|version| !version.is_dead_by(horizon, top));
    }
}

/// How many of the first blocks are empty, up to one that isn't.
pub(crate) fn empty_ahead(blocks: &[Block]) -> usize
    ensures within { result ≤ length blocks.now }
    ensures empty { all_in (take result blocks.now) ≡ [] }
{
    let mut empty = 0;
    while empty < blocks.len() && blocks[empty].versions.is_empty() {
        empty += 1;
    }
    empty
}
