//! Normalised equations: what divides an equation, what is left of it, and that this is one equation for all its multiples.

ghost use Rattle.std.specs.Prelude.{◌≡◌};
ghost use Rattle.lie_math.specs.LinearForm.{LinearForm, IsMultipleOf};
ghost use Rattle.lie_systems.specs.Normalised.{IsNormalised, primitive};
ghost use Rattle.lie_systems.specs.Laws.{ContentIsGreatest, CommonMonomialIsGreatest, PrimitiveIsNormalised, PrimitiveHasSameSolutions};
ghost use Rattle.lie_systems.specs.Laws.{NormalisedIsUnique, PrimitiveOfMultiple};

/// The content is the greatest common divisor of the numbers.
pub fn content_is_greatest()
    ensures { ContentIsGreatest }
{}

/// The common monomial is the greatest that divides all monomials.
pub fn common_monomial_is_greatest()
    ensures { CommonMonomialIsGreatest }
{}

/// What normalising leaves of an equation that is not empty is normalised.
pub fn primitive_is_normalised()
    ensures { PrimitiveIsNormalised }
{}

/// An equation is its normalised equation times a polynomial that is not 0.
pub fn equation_is_multiple_of_primitive()
    ensures { (E : LinearForm) → IsMultipleOf E (primitive E) }
{}

/// An equation and its normalised equation have the same solutions.
pub fn primitive_has_same_solutions()
    ensures { PrimitiveHasSameSolutions }
{}

/// Of the multiples of a form by terms one alone is normalised.
pub fn normalised_is_unique()
    ensures { NormalisedIsUnique }
{}

/// A multiple by a term has the same normalised equation.
pub fn primitive_of_multiple()
    ensures { PrimitiveOfMultiple }
{}

/// A normalised equation is its own normalised equation.
pub fn normalised_is_kept()
    ensures { (N : LinearForm) → IsNormalised N → primitive N ≡ N }
{}
