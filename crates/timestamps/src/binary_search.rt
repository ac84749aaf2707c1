//! A search by halves for the place where timestamps above one begin.
ghost use Rattle.std.specs.Prelude.{◌≡◌, ◌+◌, ◌/◌, ◌≤◌, nat_le, if◌then◌else◌};
ghost use Rattle.timestamps.specs.BinarySearch.{StillLeft};

/// The places of a rising list that are left to search: `size` of them, from `low` on.
///
/// ```text
/// timestamps 10 20 30 40 50, searched for 35: where do those above it begin?
/// of(5)            low 0  size 5    the middle is place 2
/// after 30         low 3  size 2    the middle is place 4
/// after 50         low 3  size 1    the middle is place 3
/// after 40         low 3  size 0    place 3
/// ```
///
/// Each step leaves half of the size, rounded down, so that there are at most as many as the length has binary digits.
#[derive(Debug, Clone, Copy)]
pub struct BinarySearch {
    pub low: usize,
    pub size: usize,
    ghost fits: { low + size ≤ 18446744073709551615 },
}

impl BinarySearch {
    /// All of so many places.
    pub fn of(len: usize) -> BinarySearch
        ensures low { result.low ≡ 0 }
        ensures size { result.size ≡ len }
    {
        BinarySearch { low: 0, size: len }
    }

    /// The place whose timestamp is to be read next, where some are left.
    pub fn middle(&self) -> usize
        ensures { result ≡ self.now.low + self.now.size / 2 }
    {
        self.low + self.size / 2
    }

    /// The half that is left where the timestamp at the middle is `ts` and those above `t` are looked for.
    pub fn after(&self, ts: u64, t: u64) -> BinarySearch
        ensures size { result.size ≡ self.now.size / 2 }
        ensures within { result.low + result.size ≤ self.now.low + self.now.size }
        ensures left { StillLeft ts t self.now.low self.now.size result.low result.size }
    {
        let half = self.size / 2;
        BinarySearch {
            low: self.low + step_up_to(ts, t, self.size - half),
            size: half,
        }
    }
}

/// The step where `ts` is at or below `t`, and otherwise 0. A borrow says which: a comparison would be
/// compiled to a branch, which the processor guesses wrong at every other step of a search.
fn step_up_to(ts: u64, t: u64, step: usize) -> usize
    ensures { result ≡ (if nat_le ts t then step else 0) }
{
    let difference = u128::from(t).wrapping_sub(u128::from(ts));
    let borrow = (difference >> 64) as usize;
    step & !borrow
}
