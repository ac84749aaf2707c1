//! What no clause says: that a draw with no other beside it gives a lease, and which.
ghost use Rattle.std.specs.Prelude.{IfOk};
ghost use Rattle.timestamps.specs.Passes.{IsOf};

use std::alloc::Global;
use std::test::Fail;
use timestamps::lease::Lease;
use timestamps::oracle::{DrawError, Oracle, OraclePass};

fn with_one_pass(alloc: Global, first_block: u64) -> Result<(Oracle, OraclePass), Fail>
    ensures { IfOk result (λ r. IsOf r.0 r.1) }
{
    let (oracle, mut passes) = Oracle::new(alloc, first_block, 1)?;
    let pass = passes.pop().ok_or("one pass")?;
    Ok((oracle, pass))
}

/// Whether a lease gives the 32 timestamps from `first` on, and no more.
fn gives_32_from(mut lease: Lease, first: u64) -> bool {
    for place in 0..32 {
        let number = lease.next().map(|ts| ts.get());
        if number != first.checked_add(place) {
            return false;
        }
    }
    lease.next().is_none()
}

/// Whether the next draw gives them.
fn draws_32_from(oracle: &Oracle, pass: &mut OraclePass, first: u64) -> bool
    requires own { IsOf oracle.now pass.old }
    ensures own { IsOf oracle.now pass.new }
{
    match oracle.draw(pass) {
        Ok(lease) => gives_32_from(lease, first),
        Err(_) => false,
    }
}

/// Whether nothing is left to draw.
fn is_spent(oracle: &Oracle, pass: &mut OraclePass) -> bool
    requires own { IsOf oracle.now pass.old }
    ensures own { IsOf oracle.now pass.new }
{
    matches!(oracle.draw(pass), Err(DrawError::Spent))
}

#[test]
fn leases_in_order(rt: HostRuntime) -> Result<(), Fail> {
    let (oracle, mut pass) = with_one_pass(rt.alloc(), 0)?;
    assert!(rt; draws_32_from(&oracle, &mut pass, 1));
    assert!(rt; draws_32_from(&oracle, &mut pass, 33));
    let (oracle, mut pass) = with_one_pass(rt.alloc(), 288230376151711742)?;
    assert!(rt; draws_32_from(&oracle, &mut pass, 9223372036854775745));
    assert!(rt; is_spent(&oracle, &mut pass));
    assert!(rt; is_spent(&oracle, &mut pass));
    Ok(())
}

#[test]
fn passes_that_met_go_on(rt: HostRuntime) -> Result<(), Fail> {
    let (oracle, mut passes) = Oracle::new(rt.alloc(), 7, 2)?;
    let mut two = passes.pop().ok_or("two passes")?;
    let mut one = passes.pop().ok_or("two passes")?;
    assert!(rt; draws_32_from(&oracle, &mut one, 225));
    oracle.meet(&mut one, &mut two);
    assert!(rt; draws_32_from(&oracle, &mut two, 257));
    assert!(rt; draws_32_from(&oracle, &mut one, 289));
    Ok(())
}
