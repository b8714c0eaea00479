// Whole recipes, and what is printed of them.
#![tactic(auto)]

#[cfg(test)]
mod case;
#[cfg(test)]
mod damage;
#[cfg(test)]
mod lengths;
#[cfg(test)]
mod recipes;
#[cfg(test)]
mod refusals;
