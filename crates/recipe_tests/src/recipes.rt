use crate::case::{Case, run_all};
use std::test::Fail;

// The recipes of the folder recipes/, byte by byte.
static RECIPES: &[Case] = &[
    Case {
        recipe: b"R 3\nq1 + q2 + q3 = 6\nq2 + q3 = 4\n2q1 + q2 + q3 = 9\n",
        rows: b"1 held 1\n2 held 2\n3 clash 1:-2 2:1 3:1\nq1 = 2\n",
    },
    Case {
        recipe: b"R 6\nq2 - 2q1 = 0\nq3 - 45q2 = 0\nq4 - 3q6 = 0\nq5 - q3 + q4 = 0\nq1 = 30\nq6 = 100\nq5 + q4 = 2700\nq5 = 2401\n",
        rows: b"1 held 1\n2 held 2\n3 held 3\n4 held 4\n5 held 5\n6 held 6\n7 follows\n8 clash 1:-45 2:-1 3:1 4:-1 5:-90 6:3 8:1\nq1 = 30\nq2 = 60\nq3 = 2700\nq4 = 300\nq5 = 2400\nq6 = 100\n",
    },
    Case {
        recipe: b"R 5\nq1 + q2 - q3 - q4 = 0\nq3 - q5 = 0\nq1 = 120\nq2 = 80\n3q3 - 5q4 = 0\n\nq5 = 130\nq5 = 125\nq1 + q2 - q4 - q5 = 0\n",
        rows: b"1 held 1\n2 held 2\n3 held 3\n4 held 4\n5 held 5\n7 clash 1:5/8 2:1 3:-5/8 4:-5/8 5:-1/8 7:1\n8 follows\n9 follows\nq1 = 120\nq2 = 80\nq3 = 125\nq4 = 75\nq5 = 125\n",
    },
    Case {
        recipe: b"P 5\nq1 + q2 = 0\nq2 + q3 = 1\nq3 + q4 = 1\nq1 + q4 = 1\nq1 + q4 = 0\nq5 = 3\n3q4 - q5 = 6\n",
        rows: b"1 held 1\n2 held 2\n3 held 3\n4 clash 1:1 2:1 3:1 4:1\n5 follows\n6 held 4\n7 held 5\nq1 = 1\nq2 = 1\nq3 = 0\nq4 = 1\nq5 = 1\n",
    },
    Case {
        recipe: b"I 4\n2q1 = 1\nq2 - q1 = 100\n3q3 + q2 = 0\n127q4 = 5\nq4 - 64q3 = -1\nq1 + q2 + q3 + q4 = 0\n",
        rows: b"1 held 1\n2 held 2\n3 held 3\n4 clash 4:1\n5 held 4\n6 clash 1:31 2:63 3:63 5:126 6:1\nq1 = 64\nq2 = 37\nq3 = 30\nq4 = 14\n",
    },
    Case {
        recipe: b"R 3\nq1 + 2q2 = 7\nq1 + q4 = 1\nq2 + q3 - q2 = 0\nq1 ++ q2 = 0\n10001q1 = 0\nq1 = 1000001\n\n999q1 - 1000q2 = 1\n9999q1 + 9998q3 = 1\nq3 = 1/2\n2q3 = 1",
        rows: b"1 held 1\n2 refused 23 6\n3 refused 24 11\n4 refused 22 5\n5 refused 20 1\n6 refused 20 6\n8 held 2\n9 refused 40 4\n10 refused 22 7\n11 held 3\nq1 = 3501/1499\nq2 = 3496/1499\nq3 = 1/2\n",
    },
];

#[test]
fn recipes_of_the_trade(rt: HostRuntime) -> Result<(), Fail> {
    run_all(&rt, rt.alloc(), RECIPES)
}
