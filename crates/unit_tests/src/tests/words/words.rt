//! Timestamps, keys, values, rows and bounds: what is taken, and how keys are ordered.
use spans::{Bound, BoundError};
use std::alloc::{AllocError, Global};
use std::test::Fail;
use timestamps::ts::MAX;
use timestamps::{Key, KeyError, Row, Ts, TsKey, Value, ValueError};

/// So many bytes, each a 7.
fn sevens(alloc: Global, length: u64) -> Result<Vec<u8>, AllocError> {
    let mut bytes = Vec::new(alloc);
    for _ in 0..length {
        bytes.push(7)?;
    }
    Ok(bytes)
}

/// Numbers of bytes, each with what takes so many: `v` a value, `b` a bound and `k` a key.
const LENGTHS: &str = "0 v
1 vbk
256 vbk
257 vb
258 v
65536 v
65537 ";

/// Whether so many bytes are taken as a row says.
fn are_taken(alloc: Global, row: &str) -> Option<bool> {
    let (length, taken) = row.split_once(' ')?;
    let bytes = sevens(alloc, length.parse::<u64>().ok()?).ok()?;
    let as_value = Value::new(alloc, &bytes).is_ok() == taken.contains("v");
    let as_bound = Bound::new(alloc, &bytes).is_ok() == taken.contains("b");
    let as_key = Key::new(alloc, &bytes).is_ok() == taken.contains("k");
    Some(as_value && as_bound && as_key)
}

#[test]
fn limits(rt: HostRuntime) {
    for row in LENGTHS.lines() {
        assert!(rt; are_taken(rt.alloc(), row) == Some(true), "{row}");
    }
    assert!(rt; Ts::new(0).is_none() && Ts::new(1).is_some());
    assert!(rt; Ts::new(MAX).is_some() && Ts::new(9223372036854775808).is_none());
    assert!(rt; KeyError::KeyLength as u8 == 1 && KeyError::NoMemory as u8 == 2);
    assert!(rt; ValueError::ValueLength as u8 == 1 && ValueError::NoMemory as u8 == 2);
    assert!(rt; BoundError::BoundLength as u8 == 1 && BoundError::NoMemory as u8 == 2);
}

/// Keys that rise.
const RISING: [&str; 6] = ["a", "a\0", "aa", "b", "b\x7f", "\u{ff}"];

/// Whether the first key is below the second, and equal to its copy alone.
fn is_below(alloc: Global, low: &str, high: &str) -> Result<bool, Fail> {
    let low = Key::new(alloc, low.as_bytes())?;
    let high = Key::new(alloc, high.as_bytes())?;
    Ok(low < high && low == low.copy()? && low != high)
}

#[test]
fn order(rt: HostRuntime) -> Result<(), Fail> {
    let mut low = "A";
    for high in RISING {
        assert!(rt; is_below(rt.alloc(), low, high)?, "{low} and {high}");
        low = high;
    }
    Ok(())
}

#[test]
fn copies(rt: HostRuntime) -> Result<(), Fail> {
    let row = Row {
        ts: Ts::new(10).ok_or("in range")?,
        key: Key::new(rt.alloc(), b"a")?,
        after: Some(Value::new(rt.alloc(), b"1")?),
    };
    assert!(rt; row.copy()? == row);
    Ok(())
}
