use elimination::fault::SheetFault;
use exact::report::Report;
use placing::column::refusal_of;
use placing::numbers::read_numbers;
use reading::read::read_line;
use std::test::Fail;

// The column where a text stops being a line, if it does.
fn column(text: &[u8]) -> Option<usize> {
    let fault = read_line(text).err()?;
    Some(fault.column)
}

// A text, and the column where it stops being a line.
struct Case {
    text: &'static [u8],
    column: Option<usize>,
}

static LINES: &[Case] = &[
    Case {
        text: b"q1 + q2 + q3 = 6",
        column: None,
    },
    Case {
        text: b" - 12 q3+q4=- 0000005 ",
        column: None,
    },
    Case {
        text: b"q1234567=1234567",
        column: None,
    },
    Case {
        text: b"",
        column: Some(1),
    },
    Case {
        text: b"   ",
        column: Some(4),
    },
    Case {
        text: b"q",
        column: Some(2),
    },
    Case {
        text: b"q 1=0",
        column: Some(2),
    },
    Case {
        text: b"12345678q1=0",
        column: Some(8),
    },
    Case {
        text: b"1 2q1=0",
        column: Some(3),
    },
    Case {
        text: b"--q1=0",
        column: Some(2),
    },
    Case {
        text: b"+q1=0",
        column: Some(1),
    },
    Case {
        text: b"q1+=3",
        column: Some(4),
    },
    Case {
        text: b"q1=5x",
        column: Some(5),
    },
    Case {
        text: b"q1=5 6",
        column: Some(6),
    },
    Case {
        text: b"q1=\r",
        column: Some(4),
    },
];

#[test]
fn good_and_damaged_lines(rt: HostRuntime) {
    for case in LINES {
        assert_eq!(rt; column(case.text), case.column);
    }
}

// The number and place that a text over two set points is refused with, if it is.
fn refusal(text: &[u8]) -> Option<(u8, usize)> {
    let mut out = [0; 3];
    let fault = read_numbers(text, 2, &mut out).err()?;
    let report = Report::from(fault);
    Some((report.number, report.place))
}

#[test]
fn refused_lines(rt: HostRuntime) {
    assert_eq!(rt; refusal(b"q1 + q1 + q3 = 0"), Some((24, 6)));
    assert_eq!(rt; refusal(b"q1 + q3 + q1 = 0"), Some((23, 6)));
    assert_eq!(rt; refusal(b"q1 + 5q0 = 0"), Some((23, 7)));
    assert_eq!(rt; refusal(b"q3 + q = 0"), Some((22, 7)));
}

#[test]
fn numbers(rt: HostRuntime) -> Result<(), Fail> {
    let mut out = [7; 4];
    let line = read_numbers(b"q2 - 3q1 = -4", 2, &mut out)?;
    assert!(rt; out[0] == -3);
    assert!(rt; out[1] == 1);
    assert!(rt; out[2] == -4);
    assert!(rt; out[3] == 7);
    let first = refusal_of(SheetFault::Limit { position: 1 }, &line, 2);
    assert_eq!(rt; Report::from(first).place, 6);
    let constant = refusal_of(SheetFault::Limit { position: 3 }, &line, 2);
    assert_eq!(rt; Report::from(constant).place, 13);
    Ok(())
}
