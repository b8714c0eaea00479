use crate::case::{Case, run_all};
use std::test::Fail;

// Headings: the form, and n outside 1 to 48.
static HEADINGS: &[Case] = &[
    Case {
        recipe: b"",
        rows: b"0 refused 22 0\n",
    },
    Case {
        recipe: b"\n",
        rows: b"0 refused 22 0\n",
    },
    Case {
        recipe: b"R3\n",
        rows: b"0 refused 22 0\n",
    },
    Case {
        recipe: b"R 3 \n",
        rows: b"0 refused 22 0\n",
    },
    Case {
        recipe: b" R 3\n",
        rows: b"0 refused 22 0\n",
    },
    Case {
        recipe: b"R  3\n",
        rows: b"0 refused 22 0\n",
    },
    Case {
        recipe: b"r 3\n",
        rows: b"0 refused 22 0\n",
    },
    Case {
        recipe: b"Q 3\n",
        rows: b"0 refused 22 0\n",
    },
    Case {
        recipe: b"R \n",
        rows: b"0 refused 22 0\n",
    },
    Case {
        recipe: b"R x\n",
        rows: b"0 refused 22 0\n",
    },
    Case {
        recipe: b"R 123\n",
        rows: b"0 refused 22 0\n",
    },
    Case {
        recipe: b"R 3\r\nq1 = 1\n",
        rows: b"0 refused 22 0\n",
    },
    Case {
        recipe: b"\nR 3\nq1 = 1\n",
        rows: b"0 refused 22 0\n",
    },
    Case {
        recipe: b"R 0\n",
        rows: b"0 refused 1 0\n",
    },
    Case {
        recipe: b"P 00\nq1 = 1\n",
        rows: b"0 refused 1 0\n",
    },
    Case {
        recipe: b"I 49\n",
        rows: b"0 refused 1 0\n",
    },
    Case {
        recipe: b"R 99\nq1 = 1\n",
        rows: b"0 refused 1 0\n",
    },
    Case {
        recipe: b"R 1",
        rows: b"",
    },
    Case {
        recipe: b"P 48\nq48 = 1\n",
        rows: b"1 held 1\nq48 = 1\n",
    },
    Case {
        recipe: b"I 05\nq5 = 3",
        rows: b"1 held 1\nq5 = 3\n",
    },
];

// Limits, the form, set points outside the sheet or twice, and numbers beyond a million.
static LINES: &[Case] = &[
    Case {
        recipe: b"R 2\n10000q1 = 0\n10001q1 = 0\n-10001q2 = 0\nq2 - 10001 q1 = 1\n",
        rows: b"1 held 1\n2 refused 20 1\n3 refused 20 2\n4 refused 20 6\nq1 = 0\n",
    },
    Case {
        recipe: b"R 2\nq1 = 1000000\nq1 = 1000001\nq2 = - 1000001\n9999999q2 = 9999999\n",
        rows: b"1 held 1\n2 refused 20 6\n3 refused 20 8\n4 refused 20 1\nq1 = 1000000\n",
    },
    Case {
        recipe: b"R 2\n \nq\nq1\nq1 =\nq1 = x\n+q1 = 1\n--q1 = 1\nq1 + = 1\nq1 = 1 2\n12345678q1 = 0\nq12345678 = 0\nq1 = 12345678\n = 1\n",
        rows: b"1 refused 22 2\n2 refused 22 2\n3 refused 22 3\n4 refused 22 5\n5 refused 22 6\n6 refused 22 1\n7 refused 22 2\n8 refused 22 6\n9 refused 22 8\n10 refused 22 8\n11 refused 22 9\n12 refused 22 13\n13 refused 22 2\n",
    },
    Case {
        recipe: b"R 2\nq3 = 0\nq1 + 5q0 = 0\nq1 + q0000003 = 0\nq1 + q1 = 0\nq2 - q1 + 3 q2 = 1\nq1 + q3 + q1 = 0\nq1 + q1 + q3 = 0\n",
        rows: b"1 refused 23 1\n2 refused 23 7\n3 refused 23 6\n4 refused 24 6\n5 refused 24 13\n6 refused 23 6\n7 refused 24 6\n",
    },
    Case {
        recipe: b"P 2\n10001q1 = 0\nq1 = 1000001\nq3 = 0\n",
        rows: b"1 refused 20 1\n2 refused 20 6\n3 refused 23 1\n",
    },
    Case {
        recipe: b"I 2\n10001q1 = 0\nq1 = 1000001\nq3 = 0\n",
        rows: b"1 refused 20 1\n2 refused 20 6\n3 refused 23 1\n",
    },
    Case {
        recipe: b"R 2\n9999q1 + 9998q2 = 1000000\n9973q1 - 9967q2 = 999999\nq1 = 1\n",
        rows: b"1 held 1\n2 refused 40 1\n3 held 2\nq1 = 1\nq2 = 990001/9998\n",
    },
    Case {
        recipe: b"R 3\n9999q1 + 10000q2 = 1\n9999q2 + 10000q3 = 1\nq3 = 5\n9999q3 + 10000q1 = 1\n",
        rows: b"1 held 1\n2 refused 40 1\n3 held 2\n4 refused 40 4\nq3 = 5\n",
    },
    Case {
        recipe: b"R 1\n7919q1 = 1000000\nq1 = 1\n10000q1 = 999999\n",
        rows: b"1 held 1\n2 clash 1:-1/7919 2:1\n3 refused 40 2\nq1 = 1000000/7919\n",
    },
];

#[test]
fn headings(rt: HostRuntime) -> Result<(), Fail> {
    run_all(&rt, rt.alloc(), HEADINGS)
}

#[test]
fn refused_lines(rt: HostRuntime) -> Result<(), Fail> {
    run_all(&rt, rt.alloc(), LINES)
}
