//! What no clause says: that texts are taken and written, by the tables of the format.

mod faults;
mod reports;
mod rows;
mod told;
mod unfolding;

use faults::{faults, other_lines};
use reports::{REPORTS, reports};
use std::test::Fail;
use text_format::Format;
use told::{is_right, is_row_right, of_message, spelled, vectors};
use unfolding::unfolded;

#[test]
fn texts_that_are_read(rt: HostRuntime) -> Result<(), Fail> {
    for table in rows::TABLES {
        for row in table.lines() {
            assert!(rt; is_row_right(rt.alloc(), row), "{row}");
        }
    }
    for row in rows::TWICE.lines() {
        let line = unfolded(rt.alloc(), row)?;
        let code = of_message(rt.alloc(), &line, Format::One).1;
        assert!(rt;
            is_right((1, 1), (1, code)) || is_right((1, 2), (1, code)),
            "{row}"
        );
    }
    Ok(())
}

#[test]
fn texts_that_are_written(rt: HostRuntime) -> Result<(), Fail> {
    let words = spelled(rt.alloc())?;
    assert!(rt; words.as_slice() == rows::SPELLED.as_bytes());
    let lines = vectors(rt.alloc())?;
    assert!(rt; lines.as_slice() == unfolded(rt.alloc(), rows::VECTORS)?.as_slice());
    let named = faults(rt.alloc())?;
    assert!(rt; named.as_slice() == rows::FAULTS.as_bytes());
    let others = other_lines(rt.alloc())?;
    assert!(rt; others.as_slice() == rows::OTHER_LINES.as_bytes());
    Ok(())
}

#[test]
fn reports_that_are_written(rt: HostRuntime) -> Result<(), Fail> {
    let lines = reports(rt.alloc())?;
    assert!(rt; lines.as_slice() == unfolded(rt.alloc(), REPORTS)?.as_slice());
    Ok(())
}
