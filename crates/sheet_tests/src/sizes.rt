use crate::limits::blank;
use elimination::fault::SheetFault;
use exact::value::zero;
use fractions::ratio::Ratio;
use sheet::answer::Stated;
use sheet::sheet::Sheet;
use sheet::size::measure;
use std::test::Fail;

#[test]
fn measured(rt: HostRuntime) {
    assert_eq!(rt; measure(48, 7_105), Ok(7_105));
    assert_eq!(rt; measure(48, 7_104), Err(SheetFault::Size));
    assert_eq!(rt; measure(1, 8), Ok(8));
    assert_eq!(rt; measure(0, 8), Err(SheetFault::Size));
    assert_eq!(rt; measure(49, 10_000), Err(SheetFault::Size));
}

#[test]
fn largest(rt: HostRuntime) -> Result<(), Fail> {
    let nothing: Ratio = zero();
    let mut memory = vec![in rt.alloc(); nothing; 7_105]?;
    let mut line = [1; 49];
    let mut records = [blank(); 49];
    let mut sheet = Sheet::make(48, 7, &mut memory);
    assert_eq!(rt; sheet.set_points(), 48);
    assert_eq!(rt;
        sheet.state(&line, 1, &mut records),
        Ok(Stated::Held { place: 1 })
    );
    line[0] = 2;
    assert_eq!(rt;
        sheet.state(&line, 2, &mut records),
        Ok(Stated::Held { place: 2 })
    );
    Ok(())
}

#[test]
fn one_number_short(rt: HostRuntime) -> Result<(), Fail> {
    let nothing: Ratio = zero();
    let mut memory = vec![in rt.alloc(); nothing; 7_104]?;
    let sheet = Sheet::make(48, 7, &mut memory);
    assert_eq!(rt; sheet.set_points(), 0);
    Ok(())
}
