// Runs of a sheet at its limits, of lists, trials and waits.
#![tactic(auto)]

#[cfg(test)]
mod limits;
#[cfg(test)]
mod lists;
#[cfg(test)]
mod sizes;
#[cfg(test)]
mod trials;
#[cfg(test)]
mod waits;
