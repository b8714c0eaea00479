ghost use Rattle.std.specs.Prelude.{◌+◌, ◌^◌, ◌<◌, length};

// The lines that are left of an input. `label` counts those before them; the heading is line 0.
#[derive(Drop)]
pub struct Lines<'a> {
    pub rest: &'a [u8],
    pub label: usize,
    ghost countable: { label + length rest.now < 2 ^ 64 },
}

// A line and its label.
#[derive(Clone, Copy)]
pub struct Labelled<'a> {
    pub label: usize,
    pub bytes: &'a [u8],
}
