// Prints the transcript of a recipe: of the file that the first argument names, or of the standard input.
#![tactic(auto)]

use recipe::transcript::transcript;
use std::io::Read;
use std::{env, fs, io};

fn main(rt: HostRuntime) -> anyhow::Result<()> {
    run(&rt)
}

fn run(rt: &HostRuntime) -> anyhow::Result<()> {
    let input = recipe_of(rt)?;
    let output = transcript(rt.alloc(), &input)?;
    rt.write_all(&output)?;
    Ok(())
}

// The bytes of the recipe, whatever they are.
fn recipe_of(rt: &HostRuntime) -> io::Result<Vec<u8>> {
    let mut words = env::args(rt)?.skip(1);
    if let Some(path) = words.next() {
        return fs::read(rt, path.as_str());
    }
    let mut input = Vec::new(rt.alloc());
    rt.stdin().read_to_end(&mut input)?;
    Ok(input)
}
