// The coordinates of a field in a basis, read off at the pivots.
ghost use Rattle.std.specs.Prelude.{◌≡◌, pos};
ghost use Rattle.lie_math.specs.FiniteSum.{IsCanonical};
ghost use Rattle.lie_math.specs.Polynomial.{terms as terms_shape, coefficient};
ghost use Rattle.lie_spans.specs.Fields.{field_entry};
ghost use Rattle.lie_ring.specs.Ratios.{IsRatio};
ghost use Rattle.lie_jet.specs.Listed.{sum_listed};
ghost use Rattle.lie_brackets.specs.FieldTerms.{field_of_terms, AreTermsOn};
ghost use Rattle.lie_brackets.specs.Generators.{field_of_generator, pivot_column, IsGenerator};

use crate::generators::Generator;
use lie_jet::Space;
use lie_ring::{Mono, Ratio, Ring, Whole};

/// The entry of the field in the pivot column of the generator, over the generator's own entry there.
pub fn coordinate(space: Space, field: &[Vec<(Mono, Whole)>], generator: &Generator) -> Ratio
    requires field { AreTermsOn space field.now }
    requires generator { IsGenerator space generator.now }
    ensures { IsRatio (field_entry (field_of_terms field.now) (pivot_column generator.now))
        (field_entry (field_of_generator generator.now) (pivot_column generator.now)) result }
{
    let pivot = &generator.parts[generator.part][generator.place];
    let number = coefficient_at(field[generator.part].as_slice(), &pivot.0);
    ratio_of(number, pivot.1)
}

/// The fraction of two numbers, the second of which is not 0.
fn ratio_of(number: Whole, over: Whole) -> Ratio
    requires { ¬ (over ≡ pos 0) }
    ensures { IsRatio number over result }
{
    number.fits();
    over.fits();
    match Ratio::new(number.get(), over.get()) {
        Some(ratio) => ratio,
        None => unreachable!(),
    }
}

/// The coefficient of the monomial in a sum of terms in order, found by halving.
fn coefficient_at(terms: &[(Mono, Whole)], mono: &Mono) -> Whole
    requires { IsCanonical terms_shape terms.now }
    ensures { result ≡ coefficient (sum_listed terms.now) mono.now }
{
    match terms.binary_search_by(|term| term.0.compare(mono)) {
        Ok(place) => terms[place].1,
        Err(_) => Whole::zero(),
    }
}
