//! Where the versions of one key lie: in a list as long as they are few, or in blocks.
ghost use Rattle.std.specs.Prelude.{◌≡◌, ◌<◌, ◌≤◌, length, drop, slice_set, slice_index_or, not, false, OnOk, OnErr};
ghost use Rattle.std.specs.List.{All, filter, insert, remove};
ghost use Rattle.version_chain.specs.declared.chain.Version.{Version};
ghost use Rattle.version_chain.specs.Versions.{as_committed, versions_in};
ghost use Rattle.version_chain.specs.Dead.{is_dead_version};

use crate::block::FULL;
use crate::blocks::Blocks;
use crate::chain::Version;
use std::alloc::AllocError;

/// Versions in a row, in one list until there have been more than 256, and then in blocks.
#[derive(Drop)]
pub(crate) enum Versions {
    Short(Vec<Version>),
    Long(Blocks),
}

impl Versions {
    pub(crate) fn len(&self) -> usize
        ensures { result ≡ length (versions_in self.now) }
    {
        match self {
            Versions::Short(versions) => versions.len(),
            Versions::Long(blocks) => blocks.len(),
        }
    }

    pub(crate) fn at(&self, place: usize) -> &Version
        requires { place < length (versions_in self.now) }
        ensures { result.now ≡ slice_index_or (versions_in self.now) place result.now }
    {
        match self {
            Versions::Short(versions) => &versions[place],
            Versions::Long(blocks) => blocks.at(place),
        }
    }

    pub(crate) fn set(&mut self, place: usize, version: Version)
        requires { place < length (versions_in self.old) }
        ensures { versions_in self.new ≡ slice_set (versions_in self.old) place version }
    {
        match self {
            Versions::Short(versions) => versions[place] = version,
            Versions::Long(blocks) => blocks.set(place, version),
        }
    }

    pub(crate) fn commit(&mut self, place: usize)
        requires { place < length (versions_in self.old) }
        ensures { (d : Version) → versions_in self.new ≡ slice_set (versions_in self.old) place (as_committed (slice_index_or (versions_in self.old) place d)) }
    {
        match self {
            Versions::Short(versions) => versions[place].committed = true,
            Versions::Long(blocks) => blocks.commit(place),
        }
    }

    pub(crate) fn insert(&mut self, place: usize, version: Version) -> Result<(), AllocError>
        requires { place ≤ length (versions_in self.old) }
        ensures ok { OnOk result (versions_in self.new ≡ insert (versions_in self.old) place version) }
        ensures err { OnErr result (versions_in self.new ≡ versions_in self.old) }
    {
        self.lengthen()?;
        match self {
            Versions::Short(versions) => {
                versions.insert(place, version)?;
                Ok(())
            }
            Versions::Long(blocks) => blocks.insert(place, version),
        }
    }

    // A list that is full becomes the first block.
    fn lengthen(&mut self) -> Result<(), AllocError>
        ensures { versions_in self.new ≡ versions_in self.old }
    {
        if let Versions::Short(versions) = self {
            if versions.len() >= FULL {
                let blocks = Blocks::take(versions)?;
                *self = Versions::Long(blocks);
            }
        }
        Ok(())
    }

    pub(crate) fn remove(&mut self, place: usize)
        requires { place < length (versions_in self.old) }
        ensures { versions_in self.new ≡ remove (versions_in self.old) place }
    {
        match self {
            Versions::Short(versions) => {
                versions.remove(place);
            }
            Versions::Long(blocks) => blocks.remove(place),
        }
    }

    /// Drops those that are dead by the horizon, which stand before a place.
    pub(crate) fn drop_dead(&mut self, place: usize, horizon: u64, top: u64)
        requires place { place ≤ length (versions_in self.old) }
        requires live { All (λ (v : Version). is_dead_version horizon top v ≡ false) (drop place (versions_in self.old)) }
        ensures { versions_in self.new ≡ filter (λ (v : Version). not (is_dead_version horizon top v)) (versions_in self.old) }
    {
        match self {
            Versions::Short(versions) => {
                versions.retain(|version| !version.is_dead_by(horizon, top));
            }
            Versions::Long(blocks) => blocks.drop_dead(place, horizon, top),
        }
    }
}
