//! What a read finds at a key.
ghost use Rattle.std.specs.Prelude.{◌≡◌, ◌≤◌, ◌<◌, IfOk, IfSome};
ghost use Rattle.std.specs.Option.{option_copied};
ghost use Rattle.mvto_rules.specs.Scans.{value_in, sight_of};

use std::alloc::AllocError;
use timestamps::row::copy_after;
use timestamps::{Ts, Value};
use version_chain::chain::Version;

/// Whose version is the newest at or below the timestamp of a read.
#[derive(Drop)]
pub(crate) enum Sight {
    /// The reader's own.
    Own,
    /// A version of another, which has committed, or none: its timestamp, or 0.
    Other(u64),
    /// A version of another, which is undecided: its timestamp.
    Blocked(u64),
}

impl Sight {
    /// The sight of a read of `ts`, whose newest version is this one, where there is one.
    pub(crate) fn of(newest: Option<&Version>, ts: Ts) -> Sight
        ensures sight { result ≡ sight_of ts (option_copied newest.entry) }
        ensures above { IfSome (option_copied newest.entry) (λ v. 1 ≤ v.ts) }
    {
        let Some(version) = newest else {
            return Sight::Other(0);
        };
        let at = version.ts.get();
        if at == ts.get() {
            Sight::Own
        } else if version.committed {
            Sight::Other(at)
        } else {
            Sight::Blocked(at)
        }
    }
}

/// A copy of what the version left; nothing where there is none.
pub(crate) fn value_of(newest: Option<&Version>) -> Result<Option<Value>, AllocError>
    ensures { IfOk result (λ after. after ≡ value_in (option_copied newest.entry)) }
{
    newest.map_or(Ok(None), |version| copy_after(&version.after))
}
