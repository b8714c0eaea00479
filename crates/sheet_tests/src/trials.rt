use crate::limits::blank;
use exact::value::zero;
use fractions::ratio::Ratio;
use sheet::answer::Stated;
use sheet::fault::TrialFault;
use sheet::sheet::Sheet;
use sheet::trial::{HandedBack, Trial};
use std::process::Abort;

pub(crate) fn opened(rt: &impl Abort, sheet: &mut Sheet<'_, Ratio>) -> Trial {
    match sheet.open() {
        Ok(trial) => trial,
        Err(_) => panic!(rt; "no trial was opened"),
    }
}

// Closes the innermost trial.
fn kept(rt: &impl Abort, sheet: &mut Sheet<'_, Ratio>, trial: Trial) {
    match sheet.keep(trial) {
        Ok(()) => {}
        Err(_) => panic!(rt; "the trial was handed back"),
    }
}

pub(crate) fn withdrawn(rt: &impl Abort, sheet: &mut Sheet<'_, Ratio>, trial: Trial) {
    match sheet.withdraw(trial) {
        Ok(()) => {}
        Err(_) => panic!(rt; "the trial was handed back"),
    }
}

// Tries to close a trial that is not the innermost one of this sheet, and gives it back.
fn not_kept(rt: &impl Abort, sheet: &mut Sheet<'_, Ratio>, trial: Trial) -> Trial {
    match sheet.keep(trial) {
        Ok(()) => panic!(rt; "another trial was closed"),
        Err(HandedBack { trial, fault }) => {
            assert!(rt; fault == TrialFault::OtherTrial);
            trial
        }
    }
}

fn not_withdrawn(rt: &impl Abort, sheet: &mut Sheet<'_, Ratio>, trial: Trial) -> Trial {
    match sheet.withdraw(trial) {
        Ok(()) => panic!(rt; "another trial was closed"),
        Err(HandedBack { trial, fault }) => {
            assert!(rt; fault == TrialFault::OtherTrial);
            trial
        }
    }
}

// Opens trials inside one another until none is opened, closes them all, and tells how many there were.
fn opened_at_once(rt: &impl Abort, sheet: &mut Sheet<'_, Ratio>, left: usize) -> usize {
    if left == 0 {
        return 0;
    }
    match sheet.open() {
        Ok(trial) => {
            let inside = opened_at_once(rt, sheet, left - 1);
            kept(rt, sheet, trial);
            inside.saturating_add(1)
        }
        Err(fault) => {
            assert!(rt; fault == TrialFault::Depth);
            0
        }
    }
}

#[test]
fn ninth_open(rt: HostRuntime) {
    let mut memory: [Ratio; 8] = [zero(); 8];
    let mut sheet = Sheet::make(1, 7, &mut memory);
    assert_eq!(rt; opened_at_once(&rt, &mut sheet, 20), 8);
    assert_eq!(rt; opened_at_once(&rt, &mut sheet, 20), 8);
}

#[test]
fn ninth_open_no_set_point(rt: HostRuntime) {
    let mut memory: [Ratio; 0] = [];
    let mut sheet = Sheet::make(0, 7, &mut memory);
    assert_eq!(rt; opened_at_once(&rt, &mut sheet, 20), 8);
}

// A trial of another sheet, of the other's number, and of an outer depth, is handed back, and still has to be closed.
#[test]
fn other_trials(rt: HostRuntime) {
    let mut memory: [Ratio; 8] = [zero(); 8];
    let mut other_memory: [Ratio; 8] = [zero(); 8];
    let mut sheet = Sheet::make(1, 7, &mut memory);
    let mut other = Sheet::make(1, 8, &mut other_memory);
    let outer = opened(&rt, &mut sheet);
    let foreign = opened(&rt, &mut other);
    let foreign = not_kept(&rt, &mut sheet, foreign);
    let foreign = not_withdrawn(&rt, &mut sheet, foreign);
    assert_eq!(rt; foreign.number(), 8);
    let inner = opened(&rt, &mut sheet);
    assert_eq!(rt; inner.depth(), 2);
    let outer = not_kept(&rt, &mut sheet, outer);
    let outer = not_withdrawn(&rt, &mut sheet, outer);
    assert_eq!(rt; outer.depth(), 1);
    kept(&rt, &mut sheet, inner);
    withdrawn(&rt, &mut sheet, outer);
    kept(&rt, &mut other, foreign);
}

#[test]
fn other_trials_no_set_point(rt: HostRuntime) {
    let mut memory: [Ratio; 0] = [];
    let mut other_memory: [Ratio; 0] = [];
    let mut sheet = Sheet::make(0, 7, &mut memory);
    let mut other = Sheet::make(0, 8, &mut other_memory);
    let outer = opened(&rt, &mut sheet);
    let foreign = opened(&rt, &mut other);
    let foreign = not_kept(&rt, &mut sheet, foreign);
    let inner = opened(&rt, &mut sheet);
    let outer = not_withdrawn(&rt, &mut sheet, outer);
    withdrawn(&rt, &mut sheet, inner);
    kept(&rt, &mut sheet, outer);
    withdrawn(&rt, &mut other, foreign);
}

// What an inner trial keeps goes when the outer one is withdrawn; what stood before it stays, with its values.
#[test]
fn withdrawn_after_kept(rt: HostRuntime) {
    let mut memory: [Ratio; 40] = [zero(); 40];
    let mut records = [blank(); 4];
    let mut sheet = Sheet::make(3, 7, &mut memory);
    assert_eq!(rt;
        sheet.state(&[1, 0, 0, 2], 1, &mut records),
        Ok(Stated::Held { place: 1 })
    );
    let outer = opened(&rt, &mut sheet);
    assert_eq!(rt;
        sheet.state(&[1, 1, 0, 5], 2, &mut records),
        Ok(Stated::Held { place: 2 })
    );
    let inner = opened(&rt, &mut sheet);
    assert_eq!(rt;
        sheet.state(&[0, 1, 1, 7], 3, &mut records),
        Ok(Stated::Held { place: 3 })
    );
    let innermost = opened(&rt, &mut sheet);
    kept(&rt, &mut sheet, innermost);
    kept(&rt, &mut sheet, inner);
    assert_eq!(rt; sheet.settled(3).is_ok_and(|value| value.is_some()), true);
    withdrawn(&rt, &mut sheet, outer);
    assert_eq!(rt; sheet.settled(1).is_ok_and(|value| value.is_some()), true);
    assert_eq!(rt; sheet.settled(2), Ok(None));
    assert_eq!(rt; sheet.settled(3), Ok(None));
    assert_eq!(rt;
        sheet.state(&[1, 0, 0, 2], 1, &mut records),
        Ok(Stated::Follows)
    );
    assert_eq!(rt;
        sheet.state(&[0, 1, 1, 8], 3, &mut records),
        Ok(Stated::Held { place: 2 })
    );
}

#[test]
fn withdrawn_no_set_point(rt: HostRuntime) {
    let mut memory: [Ratio; 0] = [];
    let mut records = [blank(); 1];
    let mut sheet = Sheet::make(0, 7, &mut memory);
    let outer = opened(&rt, &mut sheet);
    let inner = opened(&rt, &mut sheet);
    assert_eq!(rt; sheet.state(&[0], 1, &mut records), Ok(Stated::Follows));
    kept(&rt, &mut sheet, inner);
    withdrawn(&rt, &mut sheet, outer);
    assert_eq!(rt; sheet.state(&[0], 1, &mut records), Ok(Stated::Follows));
}
