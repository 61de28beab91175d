//! Vector fields as vectors: their columns, spans and reduced bases.

ghost use Rattle.lie_spans.specs.Laws.{ColumnOrderIsTotal, CombinationIsSpan, FieldBasisIsUnique, EliminationGivesFieldBasis};
ghost use Rattle.lie_spans.specs.Laws.{SolutionsGiveFields, CoordinatesAreAtPivots, CoordinatesAreUnique};

/// The order of columns, by component, then the lower degree first, then as printed, is total, and two columns tie only where they are
/// equal.
pub fn column_order_is_total()
    ensures { ColumnOrderIsTotal }
{}

/// A multiple of a field is a combination of fields exactly if a multiple of its entries is.
pub fn combination_is_span()
    ensures { CombinationIsSpan }
{}

/// At most one list of fields is the reduced basis of the combinations of fields, and so of any set that has one.
pub fn field_basis_is_unique()
    ensures { FieldBasisIsUnique }
{}

/// The elimination of the rows of fields gives the reduced basis of their combinations.
pub fn elimination_gives_field_basis()
    ensures { EliminationGivesFieldBasis }
{}

/// The solutions of conditions on rows are the reduced basis of the fields whose rows meet them.
pub fn solutions_give_fields()
    ensures { SolutionsGiveFields }
{}

/// A combination of a reduced list is the sum of its fields, each times a fraction, exactly if the fractions are those at the pivots.
pub fn coordinates_are_at_pivots()
    ensures { CoordinatesAreAtPivots }
{}

/// The fractions in lowest terms whose sum a field is are one of each.
pub fn coordinates_are_unique()
    ensures { CoordinatesAreUnique }
{}
