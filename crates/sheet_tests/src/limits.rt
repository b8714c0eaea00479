use elimination::fault::SheetFault;
use elimination::record::Record;
use exact::value::zero;
use fractions::ratio::Ratio;
use sheet::answer::Stated;
use sheet::sheet::Sheet;
use std::test::Fail;

pub(crate) fn blank() -> Record<Ratio> {
    Record {
        place: 0,
        label: 0,
        multiplier: zero(),
    }
}

#[test]
fn coefficients(rt: HostRuntime) {
    let mut memory: [Ratio; 8] = [zero(); 8];
    let mut records = [blank(); 2];
    let mut sheet = Sheet::make(1, 7, &mut memory);
    assert_eq!(rt;
        sheet.state(&[10_001, 0], 1, &mut records),
        Err(SheetFault::Limit { position: 1 })
    );
    assert_eq!(rt;
        sheet.state(&[-10_001, 0], 1, &mut records),
        Err(SheetFault::Limit { position: 1 })
    );
    assert_eq!(rt;
        sheet.state(&[1, 1_000_001], 1, &mut records),
        Err(SheetFault::Limit { position: 2 })
    );
    assert_eq!(rt;
        sheet.state(&[10_000, -1_000_000], 1, &mut records),
        Ok(Stated::Held { place: 1 })
    );
}

#[test]
fn refusals_in_order(rt: HostRuntime) {
    let mut memory: [Ratio; 8] = [zero(); 8];
    let mut records = [blank(); 1];
    let mut none: [Record<Ratio>; 0] = [];
    let mut sheet = Sheet::make(1, 7, &mut memory);
    assert_eq!(rt;
        sheet.state(&[10_001], 0, &mut none),
        Err(SheetFault::Length)
    );
    assert_eq!(rt;
        sheet.state(&[10_001, 0], 0, &mut none),
        Err(SheetFault::Room)
    );
    assert_eq!(rt;
        sheet.state(&[10_001, 0], 0, &mut records),
        Err(SheetFault::Label)
    );
    assert_eq!(rt;
        sheet.state(&[10_001, 0], 1_000_001, &mut records),
        Err(SheetFault::Label)
    );
    assert_eq!(rt;
        sheet.state(&[1, 0], 1_000_000, &mut records),
        Ok(Stated::Held { place: 1 })
    );
    assert_eq!(rt;
        sheet.state(&[1, 0], 1_000_000, &mut records),
        Err(SheetFault::Room)
    );
}

#[test]
fn no_set_point(rt: HostRuntime) {
    let mut memory: [Ratio; 0] = [];
    let mut records = [blank(); 1];
    let mut numbers: [Ratio; 0] = [];
    let mut sheet = Sheet::make(3, 7, &mut memory);
    assert_eq!(rt; sheet.set_points(), 0);
    assert_eq!(rt; sheet.state(&[0], 11, &mut records), Ok(Stated::Follows));
    assert_eq!(rt;
        sheet.state(&[5], 12, &mut records),
        Err(SheetFault::Clash { count: 1 })
    );
    assert_eq!(rt; records[0].place, 1);
    assert_eq!(rt; records[0].label, 12);
    assert_eq!(rt; sheet.settled(1), Err(SheetFault::SetPoint));
    assert_eq!(rt; sheet.solution(&mut numbers), Ok(()));
}

#[test]
fn answers(rt: HostRuntime) -> Result<(), Fail> {
    let mut memory: [Ratio; 21] = [zero(); 21];
    let mut records = [blank(); 3];
    let mut numbers: [Ratio; 3] = [zero(); 3];
    let mut sheet = Sheet::make(2, 7, &mut memory);
    assert_eq!(rt; sheet.settled(0), Err(SheetFault::SetPoint));
    assert_eq!(rt; sheet.settled(3), Err(SheetFault::SetPoint));
    assert_eq!(rt; sheet.settled(1), Ok(None));
    assert_eq!(rt;
        sheet.state(&[2, 0, 1], 1, &mut records),
        Ok(Stated::Held { place: 1 })
    );
    assert_eq!(rt; sheet.settled(1), Ok(Some(Ratio::new(1, 2)?)));
    assert_eq!(rt; sheet.solution(&mut numbers), Ok(()));
    assert_eq!(rt; numbers[0], Ratio::new(1, 2)?);
    assert_eq!(rt; numbers[1], zero());
    Ok(())
}

#[test]
fn memory_past_the_sheet(rt: HostRuntime) -> Result<(), Fail> {
    let mark = Ratio::new(5, 7)?;
    let mut memory: [Ratio; 22] = [mark; 22];
    let mut records = [blank(); 3];
    {
        let mut sheet = Sheet::make(2, 7, &mut memory);
        assert_eq!(rt;
            sheet.state(&[3, 4, 5], 1, &mut records),
            Ok(Stated::Held { place: 1 })
        );
        assert_eq!(rt;
            sheet.state(&[3, 4, 6], 2, &mut records),
            Err(SheetFault::Clash { count: 2 })
        );
    }
    assert_eq!(rt; memory[21], mark);
    Ok(())
}
