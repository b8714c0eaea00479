// The text form on examples.
#![tactic(auto)]

#[cfg(test)]
mod lines;
#[cfg(test)]
mod printed;
#[cfg(test)]
mod recipes;
