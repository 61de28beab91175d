//! Worked values, each a law that computes.

ghost use Rattle.lie_geometry.specs.WorkedValues.{FieldProlonged, GrowthDetermined, GrowthInvariant, HalvesReduced, JetNumbers};
ghost use Rattle.lie_geometry.specs.WorkedValues.{NormBounds, PlaneUnknowns, SymbolicProlonged, TotalOfProduct};

/// For p = q = 1 the coordinates u, u_x, u_xx and that of order 12 have the numbers 1, 2, 3 and 13; for p = 2 and q = 1 the coordinates
/// u_x, u_y, u_xx, u_xy, u_yy have 3 to 7.
pub fn jet_numbers()
    ensures { JetNumbers }
{}

/// The total derivative of `x*u_x^2` is `2*x*u_x*u_xx + u_x^2`.
pub fn total_of_product()
    ensures { TotalOfProduct }
{}

/// The field `u*d_x` has the prolonged coefficients `0`, `-u_x^2` and `-3*u_x*u_xx`.
pub fn field_prolonged()
    ensures { FieldProlonged }
{}

/// The equation `u_x = u` is kept by `d_x` and by `u*d_u`, and not by `d_u`.
pub fn growth_invariant()
    ensures { GrowthInvariant }
{}

/// For `2*u_x = u` and `2*u_xx = u` the polynomial `u_x - u_xx` is reduced to 0; it does not lie in the ideal, and 2 times it does.
pub fn halves_reduced()
    ensures { HalvesReduced }
{}

/// For p = q = 1 the symbolic coefficient at `u_x` is `f2_x + u_x*f2_u - u_x*f1_x - u_x^2*f1_u`, in this order.
pub fn symbolic_prolonged()
    ensures { SymbolicProlonged }
{}

/// The one determining equation of `u_x = u` is `f2_x + u*f2_u - u*f1_x - u^2*f1_u - f2 = 0`.
pub fn growth_determined()
    ensures { GrowthDetermined }
{}

/// For p = q = 1 the unknowns of a determining system are 1 and 2, of x and u each, and the next number is 3.
pub fn plane_unknowns()
    ensures { PlaneUnknowns }
{}

/// The bound of the norms at order 6 is 13,925 for four independent variables and one dependent, and 797,081 for four of each; for p = q
/// = 1 the coefficient at `u_xx` has the norm 14, and that is the bound.
pub fn norm_bounds()
    ensures { NormBounds }
{}
