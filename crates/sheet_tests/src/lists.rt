use crate::limits::blank;
use elimination::fault::SheetFault;
use elimination::record::Record;
use exact::report::Report;
use exact::value::zero;
use fractions::ratio::Ratio;
use sheet::answer::Stated;
use sheet::fault::ListFault;
use sheet::sheet::Sheet;
use std::test::Fail;

fn stopped(index: usize, fault: SheetFault) -> Result<usize, ListFault> {
    Err(ListFault { index, fault })
}

#[test]
fn lengths(rt: HostRuntime) {
    let list = [0; 2_002];
    let mut memory: [Ratio; 8] = [zero(); 8];
    let mut records = [blank(); 2];
    let mut sheet = Sheet::make(1, 7, &mut memory);
    assert_eq!(rt; sheet.check(&list[0..2_000], 1, &mut records), Ok(1_001));
    assert_eq!(rt;
        sheet.check(&list, 1, &mut records),
        stopped(0, SheetFault::Length)
    );
    assert_eq!(rt;
        sheet.check(&list[0..3], 1, &mut records),
        stopped(0, SheetFault::Length)
    );
    assert_eq!(rt; sheet.check(&[], 0, &mut records), Ok(1));
}

#[test]
fn records_and_labels(rt: HostRuntime) {
    let mut memory: [Ratio; 8] = [zero(); 8];
    let mut one = [blank(); 1];
    let mut records = [blank(); 2];
    let mut sheet = Sheet::make(1, 7, &mut memory);
    assert_eq!(rt; sheet.check(&[], 1, &mut one), stopped(0, SheetFault::Room));
    assert_eq!(rt;
        sheet.check(&[1, 2, 3, 6], 0, &mut records),
        stopped(0, SheetFault::Label)
    );
    assert_eq!(rt;
        sheet.check(&[1, 2, 3, 6], 1_000_000, &mut records),
        stopped(0, SheetFault::Label)
    );
    assert_eq!(rt;
        sheet.check(&[1, 2, 3, 6], u32::MAX, &mut records),
        stopped(0, SheetFault::Label)
    );
    assert_eq!(rt; sheet.check(&[1, 2, 3, 6], 999_999, &mut records), Ok(3));
}

#[test]
fn clash_in_the_second(rt: HostRuntime) -> Result<(), Fail> {
    let mut memory: [Ratio; 21] = [zero(); 21];
    let mut records = [blank(); 3];
    let mut sheet = Sheet::make(2, 7, &mut memory);
    assert_eq!(rt;
        sheet.check(&[1, 1, 3, 1, 1, 4, 1, 0, 1], 10, &mut records),
        stopped(2, SheetFault::Clash { count: 2 })
    );
    assert_eq!(rt; records[0].label, 10);
    assert_eq!(rt; records[0].multiplier, Ratio::new(-1, 1)?);
    assert_eq!(rt; records[1].label, 11);
    assert_eq!(rt;
        sheet.state(&[1, 1, 3], 20, &mut records),
        Ok(Stated::Follows)
    );
    assert_eq!(rt;
        sheet.state(&[1, 0, 1], 21, &mut records),
        Ok(Stated::Held { place: 2 })
    );
    Ok(())
}

#[test]
fn limit_in_the_third(rt: HostRuntime) {
    let mut memory: [Ratio; 21] = [zero(); 21];
    let mut records = [blank(); 3];
    let mut sheet = Sheet::make(2, 7, &mut memory);
    let fault = ListFault {
        index: 3,
        fault: SheetFault::Limit { position: 1 },
    };
    assert_eq!(rt;
        sheet.check(&[1, 1, 3, 1, 0, 1, 10_001, 0, 0], 1, &mut records),
        Err(fault)
    );
    assert_eq!(rt; Report::from(fault).number, 20);
    assert_eq!(rt; Report::from(fault).place, 1);
}

#[test]
fn no_set_point_whole_list(rt: HostRuntime) {
    let list = [0; 1_001];
    let mut memory: [Ratio; 0] = [];
    let mut none: [Record<Ratio>; 0] = [];
    let mut records = [blank(); 1];
    let mut sheet = Sheet::make(0, 7, &mut memory);
    assert_eq!(rt; sheet.check(&list[0..1_000], 1, &mut records), Ok(1_001));
    assert_eq!(rt;
        sheet.check(&list, 1, &mut records),
        stopped(0, SheetFault::Length)
    );
    assert_eq!(rt;
        sheet.check(&[0], 1, &mut none),
        stopped(0, SheetFault::Room)
    );
    assert_eq!(rt;
        sheet.check(&[0, 0], 1_000_000, &mut records),
        stopped(0, SheetFault::Label)
    );
    assert_eq!(rt; sheet.check(&[0, 0], 999_999, &mut records), Ok(3));
}

#[test]
fn no_set_point_line_by_line(rt: HostRuntime) {
    let mut memory: [Ratio; 0] = [];
    let mut records = [blank(); 1];
    let mut sheet = Sheet::make(0, 7, &mut memory);
    assert_eq!(rt; sheet.check(&[], 0, &mut records), Ok(1));
    assert_eq!(rt;
        sheet.check(&[0, 5, 0], 1, &mut records),
        stopped(2, SheetFault::Clash { count: 1 })
    );
    assert_eq!(rt; records[0].label, 2);
    assert_eq!(rt;
        sheet.check(&[0, 1_000_001], 1, &mut records),
        stopped(2, SheetFault::Limit { position: 1 })
    );
}
