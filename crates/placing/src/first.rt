ghost use Rattle.std.specs.Prelude.{◌≡◌, ◌==◌};
ghost use Rattle.std.specs.List.{find};
ghost use Rattle.std.specs.Option.{option_copied};

use reading::term::Term;

// The first term of a set point.
pub(crate) fn first_of(terms: &[Term], set_point: usize) -> Option<&Term>
    ensures { option_copied result ≡ find (λ t. t.number == set_point) terms.now }
{
    terms.iter().find(|t| t.number as usize == set_point)
}
