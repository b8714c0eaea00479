use crate::index::Index;
use crate::parity::Parity;
use exact::fault::NumberFault;
use exact::number::Number;
use exact::shown::Shown;
use std::test::Fail;

#[test]
fn index_halves(rt: HostRuntime) -> Result<(), Fail> {
    let one = Index::whole(1)?;
    let half = one.quotient(Index::whole(2)?)?;
    assert!(rt; half.parts().top == 64);
    assert!(rt; one.less_times(half, Index::whole(2)?)?.is_zero());
    assert!(rt; half.same(Index::whole(-63)?));
    Ok(())
}

#[test]
fn index_by_zero(rt: HostRuntime) -> Result<(), Fail> {
    let full = Index::whole(127)?;
    assert!(rt; Index::whole(5)?.quotient(full) == Err(NumberFault::ByZero));
    Ok(())
}

#[test]
fn parity_turns(rt: HostRuntime) {
    assert!(rt; Parity::whole(-3) == Ok(Parity::Open));
    assert!(rt; Parity::Shut.less_times(Parity::Open, Parity::Open) == Ok(Parity::Open));
    assert!(rt; Parity::Open.quotient(Parity::Shut) == Err(NumberFault::ByZero));
}
