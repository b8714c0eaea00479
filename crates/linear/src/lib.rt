// What the solved form of held lines says of their solutions, for the numbers of any kind. The theory stands in specs/ and proofs/; the
// functions here only have its theorems as their contracts.
#![tactic(auto)]

ghost use Rattle.linear.specs.Theorems.{SameSolutions, SolutionsExist, SolvedIsFixed, LeastEvidence, FollowsOrStands, MultipliersUnique, StepKeepsSolved};

use exact::number::Number;

// Values solve the held lines exactly when they meet all the rows.
pub fn same_solutions<K: Number>()
    ensures { SameSolutions K.admits K.alike }
{}

// The held lines have a solution, whatever the values of the set points that are no subjects.
pub fn solutions_exist<K: Number>()
    ensures { SolutionsExist K.admits K.alike }
{}

// A subject whose row is 0 in every other set point is fixed at the row's constant, and no other set point has a fixed number.
pub fn solved_is_fixed<K: Number>()
    ensures { SolvedIsFixed K.admits K.alike }
{}

// Where 0 = k is left of a line, k not 0, no solution meets it; the held lines of multiplier not 0 are the least that contradict it; and
// with their multipliers they and the line come to 0 = k.
pub fn least_evidence<K: Number>()
    ensures { LeastEvidence K.admits K.alike }
{}

// A line follows exactly when nothing is left of it. Where a set point is left, some solution meets the line, and some does not.
pub fn follows_or_stands<K: Number>()
    ensures { FollowsOrStands K.admits K.alike }
{}

// Combinations of the held lines with the same coefficients have the same multipliers.
pub fn multipliers_unique<K: Number>()
    ensures { MultipliersUnique K.admits K.alike }
{}

// The solved form stands at the start, and one step of elimination keeps it.
pub fn step_keeps_solved<K: Number>()
    ensures { StepKeepsSolved K.admits K.alike }
{}
