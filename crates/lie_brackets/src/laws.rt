//! What is said of tables: there is one of a basis, the fields of a basis of symmetries have one, and when its work is past a limit.

ghost use Rattle.lie_brackets.specs.Laws.{FieldInIsFieldOn, InvariantBasisIsClosed, TableIsUnique};
ghost use Rattle.lie_brackets.specs.Laws.{TableIsNotWithinAndPast, TableIsWithinOrPast};

use lie_geometry::invariance::commutator_is_invariant;
use lie_spans::fields::{combination_is_span, coordinates_are_unique};
use lie_systems::works::made_is_within_or_past;

/// A field with p + q components, in the first p + q variables alone, is a field on the space.
pub fn field_in_is_field_on()
    ensures { FieldInIsFieldOn }
{}

/// The reduced basis of the fields that are invariant under solved equations is closed under the bracket.
pub fn invariant_basis_is_closed()
    ensures { InvariantBasisIsClosed }
{
    field_in_is_field_on();
    combination_is_span();
    commutator_is_invariant();
}

/// A reduced list of fields has at most one table.
pub fn table_is_unique()
    ensures { TableIsUnique }
{
    coordinates_are_unique();
}

/// The brackets of the fields of a list are within the limits, or one is past a limit.
pub fn table_is_within_or_past()
    ensures { TableIsWithinOrPast }
{
    made_is_within_or_past();
}

/// Where the brackets of the fields of a list are within the limits, none is past one.
pub fn table_is_not_within_and_past()
    ensures { TableIsNotWithinAndPast }
{}
