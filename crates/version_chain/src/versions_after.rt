//! A walk from one version to the next.
ghost use Rattle.version_chain.specs.Walking.{IsNextFound, IsWalkedTo, IsFirstTaken, keys_ahead, Walk, IsAhead};
ghost use Rattle.std.specs.Option.{option_copied};
ghost use Rattle.version_chain.specs.Records.{stored_of};

use crate::chains::Chains;
use key_set::{KeySet, Keys};
use std::collections::btree_map::Range;
use std::iter::Iterator;
use std::marker::Model;
use timestamps::{Key, TsKey};

/// The places of versions after a place and at or below a timestamp, by timestamp and then by key. The place is that of
/// the version that was told last. The index alone is read: whether a version is committed, `Store::committed_at` tells.
///
/// ```text
/// index 10 a b c, 20 d
///
///             tells       at    keys ahead    later
/// after 10 a              10    b c           20
/// next        b at 10     10    c             20
/// next        c at 10     10                  20
/// next        d at 20     20                  none
/// ```
#[derive(Drop)]
pub struct VersionsAfter<'a> {
    // The first four are read by contracts alone. The place is that of `key` at `ts`, or behind all keys of `ts`.
    pub(crate) chains: &'a Chains,
    pub(crate) ts: u64,
    pub(crate) key: Option<&'a Key>,
    /// The greatest timestamp of `later`.
    pub(crate) through: u64,
    /// The timestamp of the keys that are ahead.
    pub(crate) at: u64,
    pub(crate) keys: Option<Keys<'a>>,
    /// The timestamps above that one, with their keys.
    pub(crate) later: Range<'a, TsKey, KeySet>,
}

impl<'a> Model for VersionsAfter<'a> {
    ghost Value = { Walk };

    ghost view = { λ w. record { store = stored_of w.chains.now; ts = w.ts; key = option_copied w.key; through = w.through } };

    ghost invariant = { λ w. IsAhead (record { store = stored_of w.chains.now; ts = w.ts; key = option_copied w.key; through = w.through }) w.at (keys_ahead w.keys) w.later };
}

impl<'a> VersionsAfter<'a> {
    /// The next place: its timestamp and its key.
    pub fn next(&mut self) -> Option<(u64, &'a Key)>
        ensures found { IsNextFound self.old result }
        ensures walked { IsWalkedTo self.old self.new result }
    {
        loop {
            if let Some(key) = first_of(&mut self.keys) {
                self.ts = self.at;
                self.key = Some(key);
                return Some((self.at, key));
            }
            let (at, keys) = self.later.next()?;
            self.at = at.0;
            self.keys = Some(keys.iter());
        }
    }
}

fn first_of<'a>(keys: &mut Option<Keys<'a>>) -> Option<&'a Key>
    ensures { IsFirstTaken (keys_ahead keys.old) (keys_ahead keys.new) result }
{
    keys.as_mut()?.next()
}
