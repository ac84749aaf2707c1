//! Readers of keys and marks of spans: worked scripts, and random calls beside plain lists.
ghost use Rattle.std.specs.Prelude.{◌<◌};

use super::script::{Asked, Words, put_number};
use read_marks::{Readers, SpanMarks};
use spans::{Bound, Span};
use std::alloc::Global;
use std::collections::BTreeMap;
use timestamps::Key;

/// Scripts of spans. `raise` marks one by a reader, `of` has the latest reader of a key, and `starts` says how many there
/// are.
pub(super) const SPANS: [&str; 4] = [
    // spans overlap; one whose end is not above its beginning holds no key, and leaves nothing
    "raise b d 10=
raise c - 20=
starts=2
of a=0
of b=10
of b\0=10
of c=20
of d=20
raise cc bb 30=
raise c c 30=
starts=2
of c=20
",
    // neighbours are joined, at both ends and between; an earlier read changes nothing
    "raise b d 10=
raise c - 20=
raise a c 15=
starts=2
of a=15
of bb=15
raise a b 5=
starts=2
of a=15
raise - - 20=
starts=1
of a=20
",
    // keys with a common beginning are told apart: starts are compared eight bytes at a time
    "raise kkkkkkk kkkkkkk\0 1=
raise kkkkkkkk kkkkkkkk\0 2=
raise kkkkkkkkkkkkkkkk kkkkkkkkkkkkkkkk\0 4=
raise kkkkkkkkkkkkkkkk\x01 kkkkkkkkkkkkkkkk\x01\0 5=
of kkkkkkk=1
of kkkkkkkk=2
of kkkkkkkk\0=0
of kkkkkkkkkkkkkkkk=4
of kkkkkkkkkkkkkkkk\x01=5
of kkkkkkkkkkkkkkkkk=0
",
    // what is forgotten leaves no start
    "raise - b 5=
raise b d 10=
raise d - 7=
starts=3
forget 7=
starts=2
of a=0
of c=10
of e=0
forget 10=
starts=0
",
];

/// Scripts of one key. `note` has the reader, the timestamps that its gap lies above and up to, and what is forgotten; `of`
/// has the readers, and `none` says whether there is one above a timestamp.
pub(super) const KEYS: [&str; 2] = [
    // a reader in each gap, read in no order; a gap that is read once more, later and earlier, keeps the later
    "note 10 0 20 0=
note 50 40 18446744073709551615 0=
note 30 20 40 0=
of= 10 30 50
note 45 40 18446744073709551615 0=
note 35 20 40 0=
of= 10 35 50
none 49=no
none 50=yes
forget 35=
of= 50
",
    // readers that are forgotten go before a note once they are half; two readers lie in place
    "note 1 0 1 0=
note 2 1 2 0=
note 3 2 3 0=
note 4 3 4 1=
of= 1 2 3 4
note 5 4 5 2=
of= 3 4 5
note 6 5 6 4=
of= 5 6
",
];

impl Asked for SpanMarks {
    fn ask(&mut self, alloc: Global, mut words: Words<'_>, out: &mut Vec<u8>) -> Option<()> {
        match words.word().first() {
            Some(b's') => put_number(alloc, out, self.len() as u64),
            Some(b'r') => {
                let span = words.span(alloc)?;
                self.raise(&span, words.number()).ok()
            }
            Some(b'f') => {
                self.forget_through(words.number());
                Some(())
            }
            Some(b'o') => {
                let key = words.key(alloc)?;
                put_number(alloc, out, self.latest(&key))
            }
            _ => None,
        }
    }
}

impl Asked for Readers {
    fn ask(&mut self, alloc: Global, mut words: Words<'_>, out: &mut Vec<u8>) -> Option<()> {
        let word = words.word();
        match word.get(1) {
            Some(b'o') if word.len() == 4 && word[2] == b'n' => {
                let through = words.number();
                let answer = if self.are_forgotten(through) {
                    "yes"
                } else {
                    "no"
                };
                out.extend_from_slice(answer.as_bytes()).ok()
            }
            Some(b'o') if word.len() == 4 => note(self, &mut words),
            Some(b'o') => {
                self.forget_through(words.number());
                Some(())
            }
            Some(b'f') => put_readers(alloc, self, out),
            _ => None,
        }
    }
}

fn note(readers: &mut Readers, words: &mut Words<'_>) -> Option<()> {
    let ts = words.number();
    let above = words.number();
    let until = words.number();
    let forgotten = words.number();
    if forgotten >= ts || above >= ts || ts > until {
        return None;
    }
    readers.note(ts, above, until, forgotten).ok()
}

/// Writes the readers from 1 to 100.
fn put_readers(alloc: Global, readers: &Readers, out: &mut Vec<u8>) -> Option<()> {
    for reader in 1..101 {
        if readers.any_between(reader - 1, Some(reader)) {
            out.push(b' ').ok()?;
            put_number(alloc, out, reader)?;
        }
    }
    Some(())
}

/// How many keys the random calls read.
const COUNT: u64 = 40;

/// How many random calls there are.
const CALLS: u64 = 2000;

/// Numbers in no order.
#[derive(Drop)]
struct Dice {
    state: u64,
}

impl Dice {
    fn below(&mut self, limit: u64) -> u64
        requires { 0 < limit }
        ensures { result < limit }
    {
        self.state = self
            .state
            .wrapping_mul(6_364_136_223_846_793_005)
            .wrapping_add(1_442_695_040_888_963_407);
        (self.state >> 33) % limit
    }
}

/// The readers of a key, as plain lists.
#[derive(Drop)]
struct Plain {
    alloc: Global,
    lists: BTreeMap<u64, Vec<u64>>,
}

impl Plain {
    /// The readers of a key.
    fn of(&self, number: u64) -> &[u64] {
        match self.lists.get(&number) {
            None => &[],
            Some(list) => list.as_slice(),
        }
    }

    fn latest(&self, number: u64) -> u64 {
        self.of(number).iter().copied().max().unwrap_or(0)
    }

    /// The readers above a timestamp and up to another become their greatest, or that of `ts`.
    fn note(&mut self, number: u64, ts: u64, above: u64, until: u64) -> Option<()> {
        let mut left = Vec::new(self.alloc);
        let mut greatest = ts;
        for reader in self.of(number) {
            if above < *reader && *reader <= until {
                greatest = greatest.max(*reader);
            } else {
                left.push(*reader).ok()?;
            }
        }
        left.push(greatest).ok()?;
        self.lists.insert(number, left).ok()?;
        Some(())
    }

    /// The readers up to `through` go.
    fn forget(&mut self, through: u64) {
        self.lists.retain(|_, list| {
            list.retain(|reader| *reader > through);
            true
        });
    }
}

/// The bytes of a key or of a bound.
fn bytes_of(number: u64) -> [u8; 2] {
    [b'a' + (number / 8 % 8) as u8, b'a' + (number % 8) as u8]
}

/// A bound, or none where the number is that of no key.
fn bound_of(alloc: Global, number: u64) -> Option<Option<Bound>> {
    if number >= COUNT {
        return Some(None);
    }
    Some(Some(Bound::new(alloc, &bytes_of(number)).ok()?))
}

/// Random raises, and whether each key has the latest reader of a plain list then.
pub(super) fn raises_agree(alloc: Global) -> Option<bool> {
    let mut dice = Dice { state: 1 };
    let mut marks = SpanMarks::new(alloc);
    let mut plain = Plain {
        alloc,
        lists: BTreeMap::new(alloc),
    };
    for call in 1..CALLS {
        let ts = call / 4 + dice.below(50);
        raise(&mut dice, &mut marks, &mut plain, ts)?;
        if call % 100 == 0 {
            marks.forget_through(call / 4);
            plain.forget(call / 4);
        }
        if !are_latest(&marks, &plain)? {
            return Some(false);
        }
    }
    Some(true)
}

fn raise(dice: &mut Dice, marks: &mut SpanMarks, plain: &mut Plain, ts: u64) -> Option<()> {
    let low = dice.below(COUNT + 4);
    let high = dice.below(COUNT + 4);
    let lo = bound_of(plain.alloc, low)?;
    let hi = bound_of(plain.alloc, high)?;
    marks.raise(&Span { lo, hi }, ts).ok()?;
    for number in 0..COUNT {
        if (low >= COUNT || low <= number) && (high >= COUNT || number < high) {
            plain.note(number, ts, ts, ts)?;
        }
    }
    Some(())
}

fn are_latest(marks: &SpanMarks, plain: &Plain) -> Option<bool> {
    for number in 0..COUNT {
        let key = Key::new(plain.alloc, &bytes_of(number)).ok()?;
        if marks.latest(&key) != plain.latest(number) {
            return Some(false);
        }
    }
    Some(true)
}

/// Random notes of one key, and whether it has the readers of a plain list then. Gaps end at each tenth timestamp.
pub(super) fn notes_agree(alloc: Global) -> Option<bool> {
    let mut dice = Dice { state: 2 };
    let mut readers = Readers::new(alloc);
    let mut plain = Plain {
        alloc,
        lists: BTreeMap::new(alloc),
    };
    for call in 1..CALLS {
        let forgotten = call / 10;
        let ts = forgotten + 1 + dice.below(100);
        let above = (ts - 1) / 10 * 10;
        readers.make_room().ok()?;
        readers.note(ts, above, above + 10, forgotten).ok()?;
        plain.note(0, ts, above, above + 10)?;
        if !have_same(&readers, plain.of(0), forgotten) {
            return Some(false);
        }
    }
    Some(true)
}

/// Whether both have the same readers above what is forgotten.
fn have_same(readers: &Readers, list: &[u64], forgotten: u64) -> bool {
    for step in 0..120 {
        let before = forgotten.saturating_add(step);
        let reader = before.saturating_add(1);
        if readers.any_between(before, Some(reader)) != list.contains(&reader) {
            return false;
        }
    }
    true
}
