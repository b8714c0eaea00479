// The algebra of exact numbers: a solver for ring identities, and the kinds that prime ideals of the integers give. The theory stands in
// specs/ and proofs/; the functions here only have its theorems as their contracts.
#![tactic(auto)]

ghost use Rattle.std.specs.Prelude.{Bool, ℕ, ◌<◌, ℤ};
ghost use Rattle.exact.specs.Fraction.{Equal};
ghost use Rattle.exact.specs.Kind.{KindLaws};
ghost use Rattle.algebra.specs.Prime.{Prime, Admits, Alike, Tested, Nought, Multiple, Reciprocals};

// Any prime ideal makes a kind of the fractions whose lower number is not in it.
pub fn prime_ideals_are_kinds()
    ensures { (Z : ℤ → Bool) → Prime (Tested Z) → KindLaws (Admits (Tested Z)) (Alike (Tested Z)) }
{}

// Ordinary fractions are the kind of the ideal of 0 alone.
pub fn fractions_are_a_kind()
    ensures { KindLaws (Admits Nought) Equal }
{}

// Residues are a kind wherever all but 0 have reciprocals.
pub fn residues_are_a_kind()
    ensures { (p : ℕ) → 1 < p → Reciprocals p → KindLaws (Admits (Multiple p)) (Alike (Multiple p)) }
{}
