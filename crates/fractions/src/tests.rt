use crate::ratio::Ratio;
use exact::fault::NumberFault;
use exact::number::Number;
use exact::shown::{Parts, Shown};
use std::test::Fail;

#[test]
fn differences(rt: HostRuntime) -> Result<(), Fail> {
    let half = Ratio::new(1, 2)?;
    let third = Ratio::new(1, 3)?;
    let none = half.less_times(third, Ratio::new(-3, -2)?)?;
    assert!(rt; none.is_zero());
    assert!(rt; none.same(Ratio::whole(0)?));
    Ok(())
}

#[test]
fn limits(rt: HostRuntime) -> Result<(), Fail> {
    let one = Ratio::whole(1)?;
    let less_one = Ratio::whole(-1)?;
    let largest = Ratio::whole(999_999)?.less_times(less_one, one)?;
    assert!(rt;
        largest.parts()
            == Parts {
                top: 1_000_000,
                bottom: 1,
            }
    );
    assert!(rt; largest.less_times(less_one, one) == Err(NumberFault::Beyond));
    assert!(rt; Ratio::whole(1_000_001) == Err(NumberFault::Beyond));
    assert!(rt; one.quotient(largest)?.quotient(Ratio::new(2, 1)?) == Err(NumberFault::Beyond));
    Ok(())
}

#[test]
fn quotients(rt: HostRuntime) -> Result<(), Fail> {
    let two = Ratio::whole(2)?;
    assert!(rt; two.quotient(Ratio::whole(0)?) == Err(NumberFault::ByZero));
    let lowest = two.quotient(Ratio::whole(-4)?)?;
    assert!(rt; lowest.parts() == Parts { top: -1, bottom: 2 });
    Ok(())
}
