//! Spans, and the keys that they hold.
ghost use Rattle.std.specs.Prelude.{IfOk};
ghost use Rattle.std.specs.List.Sorted.{IsStrictlySortedBy};
ghost use Rattle.timestamps.specs.Bytes.{key_cmp};

use spans::law::law_of_histories;
use spans::{Bound, Span};
use std::alloc::Global;
use std::cmp::Ordering;
use std::test::Fail;
use timestamps::Key;

/// The span between two bounds; no letter makes no bound.
fn span_of(alloc: Global, lo: &str, hi: &str) -> Span {
    Span {
        lo: Bound::new(alloc, lo.as_bytes()).ok(),
        hi: Bound::new(alloc, hi.as_bytes()).ok(),
    }
}

/// Two keys that rise.
fn rising_keys(alloc: Global, low: &[u8], high: &[u8]) -> Result<Vec<Key>, Fail>
    ensures { IfOk result (λ keys. IsStrictlySortedBy key_cmp keys.items) }
{
    let low = Key::new(alloc, low)?;
    let high = Key::new(alloc, high)?;
    if low.cmp(&high) == Ordering::Less {
        let mut keys = Vec::new(alloc);
        keys.push(low)?;
        keys.push(high)?;
        return Ok(keys);
    }
    Err(Fail::new("they don't rise"))
}

/// The pieces of a span without the keys b and d.
fn pieces_of(alloc: Global, span: &Span) -> Result<Vec<Span>, Fail> {
    let keys = rising_keys(alloc, b"b", b"d")?;
    Ok(span.without(alloc, &keys)?)
}

/// How many of the spans hold the key.
fn count_of(spans: &[Span], key: &Key) -> usize {
    let mut count = 0usize;
    for span in spans {
        if span.contains(key) {
            count = count.saturating_add(1);
        }
    }
    count
}

/// Bounds of a span, how many pieces it has without the keys b and d, and the keys of `a b b%0 c d e` that these hold,
/// in the places of the others a point.
const HELD: &str = ",=3 a.xc.e
b,d=2 ..xc..
b,da=3 ..xc..
ba,z=2 ...c.e
e,b=1 ......
x,=1 ......
b,b=1 ......
,b=1 a.....
a,c=2 a.x...
b,=3 ..xc.e";

const KEYS: [(&[u8], u8); 6] = [
    (b"a", b'a'),
    (b"b", b'b'),
    (b"b\0", b'x'),
    (b"c", b'c'),
    (b"d", b'd'),
    (b"e", b'e'),
];

/// The letters of the keys that one of the pieces holds, and points for the others.
fn letters_of(alloc: Global, pieces: &[Span]) -> Option<Vec<u8>> {
    let mut held = Vec::new(alloc);
    for (bytes, letter) in KEYS {
        let key = Key::new(alloc, bytes).ok()?;
        let has = count_of(pieces, &key) == 1;
        held.push(if has { letter } else { b'.' }).ok()?;
    }
    Some(held)
}

/// Whether the pieces of a span hold what its row says.
fn are_held(alloc: Global, row: &str, pieces: &[Span]) -> Option<bool> {
    let (count, wanted) = row.split_once(' ')?;
    let held = letters_of(alloc, pieces)?;
    Some(held.as_slice() == wanted.as_bytes() && Some(pieces.len()) == count.parse::<usize>().ok())
}

#[test]
fn spans_without_keys(rt: HostRuntime) -> Result<(), Fail> {
    for row in HELD.lines() {
        let (bounds, wanted) = row.split_once('=').ok_or("a row")?;
        let (lo, hi) = bounds.split_once(',').ok_or("two bounds")?;
        let span = span_of(rt.alloc(), lo, hi).copy()?;
        let pieces = pieces_of(rt.alloc(), &span)?;
        assert!(rt;
            are_held(rt.alloc(), wanted, &pieces) == Some(true),
            "{row}"
        );
    }
    let above = Bound::successor(rt.alloc(), &Key::new(rt.alloc(), b"ab")?)?;
    assert!(rt; above.bytes() == b"ab\0".as_slice());
    law_of_histories();
    Ok(())
}
