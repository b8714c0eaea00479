use crate::case::{Case, run_all};
use std::test::Fail;

// Empty lines count, the last line may lack its end, and any byte may stand anywhere.
static DAMAGED: &[Case] = &[
    Case {
        recipe: b"R 2\n\n\nq1 = 1\n\n\n\nq2 = 2\n\n",
        rows: b"3 held 1\n7 held 2\nq1 = 1\nq2 = 2\n",
    },
    Case {
        recipe: b"R 1\nq1 = 1",
        rows: b"1 held 1\nq1 = 1\n",
    },
    Case {
        recipe: b"R 2\r\nq1 = 1\r\n",
        rows: b"0 refused 22 0\n",
    },
    Case {
        recipe: b"R 2\nq1 = 1\r\nq2 = 1\n\r\n",
        rows: b"1 refused 22 7\n2 held 1\n3 refused 22 1\nq2 = 1\n",
    },
    Case {
        recipe: b"R 2\nq1\0 = 1\n\0\nq2 = 1\0",
        rows: b"1 refused 22 3\n2 refused 22 1\n3 refused 22 7\n",
    },
    Case {
        recipe: b"R 2\nq1 = 1\xff\n\xc3\xa9q1 = 1\nq1 \xe2\x88\x92 q2 = 1\n",
        rows: b"1 refused 22 7\n2 refused 22 1\n3 refused 22 4\n",
    },
    Case {
        recipe: b"R 2\n\tq1 = 1\nq1\t= 1\n",
        rows: b"1 refused 22 1\n2 refused 22 3\n",
    },
    Case {
        recipe: b"\0",
        rows: b"0 refused 22 0\n",
    },
    Case {
        recipe: b"\xef\xbb\xbfR 2\nq1 = 1\n",
        rows: b"0 refused 22 0\n",
    },
    Case {
        recipe: b"R 2\nR 2\nq1 = 1/2\nq1 = 0.5\n",
        rows: b"1 refused 22 1\n2 refused 22 7\n3 refused 22 7\n",
    },
];

#[test]
fn damaged_recipes(rt: HostRuntime) -> Result<(), Fail> {
    run_all(&rt, rt.alloc(), DAMAGED)
}
