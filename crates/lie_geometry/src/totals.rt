//! Total derivatives (Olver, section 2.3).

ghost use Rattle.lie_geometry.specs.CoordinateLaws.{TotalsAreDerivations, TotalsCommute, TotalsOfCoordinates};

/// `D_i D_j P = D_j D_i P`.
pub fn totals_commute()
    ensures { TotalsCommute }
{}

/// `D_i` is a derivation: it keeps sums, it has the product rule, and of a number it is 0.
pub fn totals_are_derivations()
    ensures { TotalsAreDerivations }
{}

/// `D_i u_J = u_(J+e_i)`, and `D_i x_j` is 1 where i is j and 0 elsewhere. With the law above this determines `D_i`.
pub fn totals_of_coordinates()
    ensures { TotalsOfCoordinates }
{}
