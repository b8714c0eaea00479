use crate::limits::blank;
use crate::trials::{opened, withdrawn};
use exact::value::zero;
use fractions::ratio::Ratio;
use sheet::answer::Stated;
use sheet::fault::WaitFault;
use sheet::sheet::Sheet;

#[test]
fn placed_and_dropped(rt: HostRuntime) {
    let mut memory: [Ratio; 21] = [zero(); 21];
    let mut sheet = Sheet::make(2, 7, &mut memory);
    assert_eq!(rt; sheet.wait(0), Err(WaitFault::SetPoint));
    assert_eq!(rt; sheet.wait(3), Err(WaitFault::SetPoint));
    assert_eq!(rt; sheet.drop(3), Err(WaitFault::SetPoint));
    assert_eq!(rt; sheet.drop(2), Err(WaitFault::NotWaiting));
    assert_eq!(rt; sheet.wait(2), Ok(()));
    assert_eq!(rt; sheet.wait(2), Err(WaitFault::Waiting));
    assert_eq!(rt; sheet.wait(1), Ok(()));
    assert_eq!(rt; sheet.drop(2), Ok(()));
    assert_eq!(rt; sheet.drop(2), Err(WaitFault::NotWaiting));
    assert_eq!(rt; sheet.wait(1), Err(WaitFault::Waiting));
    assert_eq!(rt; sheet.wait(2), Ok(()));
}

#[test]
fn settled_before_the_wait(rt: HostRuntime) {
    let mut memory: [Ratio; 8] = [zero(); 8];
    let mut records = [blank(); 2];
    let mut sheet = Sheet::make(1, 7, &mut memory);
    assert_eq!(rt;
        sheet.state(&[1, 5], 1, &mut records),
        Ok(Stated::Held { place: 1 })
    );
    assert_eq!(rt; sheet.wait(1), Ok(()));
    assert_eq!(rt; sheet.wait(1), Err(WaitFault::Waiting));
}

// A withdrawal leaves the waits.
#[test]
fn wait_in_a_trial(rt: HostRuntime) {
    let mut memory: [Ratio; 8] = [zero(); 8];
    let mut sheet = Sheet::make(1, 7, &mut memory);
    let trial = opened(&rt, &mut sheet);
    assert_eq!(rt; sheet.wait(1), Ok(()));
    withdrawn(&rt, &mut sheet, trial);
    assert_eq!(rt; sheet.wait(1), Err(WaitFault::Waiting));
}

#[test]
fn no_set_point(rt: HostRuntime) {
    let mut memory: [Ratio; 0] = [];
    let mut sheet = Sheet::make(0, 7, &mut memory);
    assert_eq!(rt; sheet.wait(1), Err(WaitFault::SetPoint));
    assert_eq!(rt; sheet.drop(1), Err(WaitFault::SetPoint));
    assert_eq!(rt; sheet.wait(0), Err(WaitFault::SetPoint));
}
