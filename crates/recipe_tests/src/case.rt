use recipe::transcript::transcript;
use std::alloc::Global;
use std::process::Abort;
use std::test::Fail;

// A recipe, and the rows that it prints.
pub(crate) struct Case {
    pub recipe: &'static [u8],
    pub rows: &'static [u8],
}

// Checks that a recipe prints just these rows.
pub(crate) fn prints(
    rt: &impl Abort,
    heap: Global,
    recipe: &[u8],
    rows: &[u8],
) -> Result<(), Fail> {
    let out = transcript(heap, recipe)?;
    assert!(rt; out.as_slice() == rows);
    Ok(())
}

pub(crate) fn run_all(rt: &impl Abort, heap: Global, cases: &[Case]) -> Result<(), Fail> {
    for case in cases {
        prints(rt, heap, case.recipe, case.rows)?;
    }
    Ok(())
}
