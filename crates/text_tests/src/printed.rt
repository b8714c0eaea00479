use exact::report::{Layer, Report};
use exact::shown::Parts;
use printing::entry::Entry;
use printing::fault::PrintFault;
use printing::row::{clash_row, follows_row, held_row, refused_row, settled_row};

// Whether a call wrote just this row, and left the byte after it.
fn wrote(out: &[u8], answer: Result<usize, PrintFault>, row: &[u8]) -> bool {
    answer.is_ok_and(|n| n < out.len() && &out[..n] == row && out[n] == 7)
}

#[test]
fn rows(rt: HostRuntime) {
    let mut out = [7; 2048];
    let held = held_row(&mut out, 12, 3);
    assert!(rt; wrote(&out, held, b"12 held 3\n"));
    let report = Report {
        number: 22,
        layer: Layer::Text,
        place: 17,
    };
    let refused = refused_row(&mut out, 4, report);
    assert!(rt; wrote(&out, refused, b"4 refused 22 17\n"));
}

#[test]
fn values(rt: HostRuntime) {
    let mut out = [7; 2048];
    let half = Parts { top: -1, bottom: 2 };
    let two = Parts { top: 2, bottom: 1 };
    let settled = settled_row(&mut out, 1, two);
    assert!(rt; wrote(&out, settled, b"q1 = 2\n"));
    let entries = [
        Entry {
            label: 1,
            multiplier: half,
        },
        Entry {
            label: 30,
            multiplier: two,
        },
    ];
    let clash = clash_row(&mut out, 30, &entries);
    assert!(rt; wrote(&out, clash, b"30 clash 1:-1/2 30:2\n"));
}

#[test]
fn short_slice(rt: HostRuntime) {
    let mut out = [7; 2047];
    assert!(rt; follows_row(&mut out, 1).is_err());
    assert!(rt; out[0] == 7);
}
