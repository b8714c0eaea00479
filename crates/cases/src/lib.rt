// The worked examples: one list with one proof.
#![tactic(auto)]

ghost use Rattle.cases.specs.Examples.{Examples};

// What the calls of a sheet answer on small sheets of the bench.
pub fn worked_examples()
    ensures { Examples }
{}
