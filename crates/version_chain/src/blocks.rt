//! A long row of versions, in blocks: read, inserted and dropped by place.
ghost use Rattle.std.specs.Prelude.{◌≡◌, ◌<◌, ◌≤◌, length, drop, slice_set, slice_index_or, not, false, IfOk, OnOk, OnErr};
ghost use Rattle.std.specs.List.{All, filter, insert, remove};
ghost use Rattle.version_chain.specs.declared.chain.Version.{Version};
ghost use Rattle.version_chain.specs.Versions.{as_committed};
ghost use Rattle.version_chain.specs.Dead.{is_dead_version};

use crate::block::{Block, block_of, drop_empty, empty_ahead, halve_full, number_from, thin};
use crate::chain::Version;
use std::alloc::AllocError;
use std::marker::Model;
use std::mem;

/// Versions in blocks, each with the number of versions before it, its start.
///
/// ```text
/// starts     blocks of at most three
/// 0 3 5      10 20 30 | 40 50 | 60 70
///            insert 45 at place 4: the others of its block move, and later starts rise
/// 0 3 6      10 20 30 | 40 45 50 | 60 70
///            insert 47 at place 5: four are too many, so the block is halved
/// 0 3 5 7    10 20 30 | 40 45 | 47 50 | 60 70
/// ```
#[derive(Drop)]
pub(crate) struct Blocks {
    blocks: Vec<Block>,
}

impl Model for Blocks {
    ghost use Rattle.std.specs.Prelude.{List};
    ghost use Rattle.version_chain.specs.declared.chain.Version.{Version};
    ghost use Rattle.version_chain.specs.Blocks.{IsSound, all_in};

    ghost Value = { List Version };

    ghost view = { λ b. all_in b.blocks.items };

    ghost invariant = { λ b. IsSound b.blocks.items };
}

impl Blocks {
    /// Takes versions out of a list, as the first block.
    pub(crate) fn take(versions: &mut Vec<Version>) -> Result<Blocks, AllocError>
        ensures ok { IfOk result (λ blocks. blocks ≡ versions.old.items) }
        ensures err { OnErr result (versions.new ≡ versions.old) }
    {
        let alloc = *versions.allocator();
        // room for a second, since the insert that follows halves the first
        let mut blocks = Vec::with_capacity(alloc, 2)?;
        let versions = mem::replace(versions, Vec::new(alloc));
        blocks.push_reserved(Block { start: 0, versions });
        Ok(Blocks { blocks })
    }

    pub(crate) fn len(&self) -> usize
        ensures { result ≡ length self.now }
    {
        match self.blocks.last() {
            None => 0,
            Some(last) => last.start + last.versions.len(),
        }
    }

    pub(crate) fn at(&self, place: usize) -> &Version
        requires { place < length self.now }
        ensures { result.now ≡ slice_index_or self.now place result.now }
    {
        let block = &self.blocks[block_of(&self.blocks, place)];
        &block.versions[place - block.start]
    }

    pub(crate) fn set(&mut self, place: usize, version: Version)
        requires { place < length self.old }
        ensures { self.new ≡ slice_set self.old place version }
    {
        let k = block_of(&self.blocks, place);
        let block = &mut self.blocks[k];
        block.versions[place - block.start] = version;
    }

    pub(crate) fn commit(&mut self, place: usize)
        requires { place < length self.old }
        ensures { (d : Version) → self.new ≡ slice_set self.old place (as_committed (slice_index_or self.old place d)) }
    {
        let k = block_of(&self.blocks, place);
        let block = &mut self.blocks[k];
        block.versions[place - block.start].committed = true;
    }

    pub(crate) fn insert(&mut self, place: usize, version: Version) -> Result<(), AllocError>
        requires { place ≤ length self.old }
        ensures ok { OnOk result (self.new ≡ insert self.old place version) }
        ensures err { OnErr result (self.new ≡ self.old) }
    {
        // so that one more can be counted
        if self.len() == usize::MAX {
            return Err(AllocError);
        }
        let k = block_of(&self.blocks, place);
        let block = &mut self.blocks[k];
        let start = block.start;
        block.versions.insert(place - start, version)?;
        let _ = halve_full(&mut self.blocks, k);
        number_from(&mut self.blocks, k, start);
        Ok(())
    }

    pub(crate) fn remove(&mut self, place: usize)
        requires { place < length self.old }
        ensures { self.new ≡ remove self.old place }
    {
        let k = block_of(&self.blocks, place);
        let block = &mut self.blocks[k];
        let start = block.start;
        block.versions.remove(place - start);
        drop_empty(&mut self.blocks, k);
        number_from(&mut self.blocks, k, start);
    }

    /// Drops those that are dead by the horizon, which stand before a place.
    pub(crate) fn drop_dead(&mut self, place: usize, horizon: u64, top: u64)
        requires place { place ≤ length self.old }
        requires live { All (λ (v : Version). is_dead_version horizon top v ≡ false) (drop place self.old) }
        ensures { self.new ≡ filter (λ (v : Version). not (is_dead_version horizon top v)) self.old }
    {
        let last = block_of(&self.blocks, place);
        thin(&mut self.blocks, last + 1, horizon, top);
        let empty = empty_ahead(&self.blocks[..last]);
        self.blocks.drain(..empty);
        number_from(&mut self.blocks, 0, 0);
    }
}
