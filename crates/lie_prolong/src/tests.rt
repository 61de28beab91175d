// Prolonged coefficients, as tables. The expected ones come from the recursion, worked out apart from this program.
ghost use Rattle.std.specs.Prelude.{◌≡◌, ◌+◌, IsTrue, IfOk};
ghost use Rattle.lie_math.specs.Derivation.{is_below};
ghost use Rattle.lie_math.specs.Variables.{IsIn};
ghost use Rattle.lie_math.proofs.Kept.{pairs_in};
ghost use Rattle.lie_geometry.specs.Coordinates.{Space as SpaceOf};
ghost use Rattle.lie_geometry.specs.Invariance.{IsFieldOn};

use crate::{bounded_coefficient, is_bounded_field, prolong_field};
use lie_jet::{Field, Jet, JetPoly, Space};
use lie_ring::{Mono, PastKind, PolyFail, Polynomial, Ring, Whole};
use std::alloc::Global;
use std::test::Fail;

/// A term: pairs of a variable and an exponent, and a coefficient.
type Term<'a> = (&'a [(u32, u32)], i128);

/// A polynomial of one term in the first `below` variables.
fn part(alloc: Global, below: u32, pairs: &[(u32, u32)], c: i128) -> Result<JetPoly, Fail>
    requires { IsTrue (pairs_in (is_below below) pairs.now) }
    ensures { IfOk result (λ made. IsIn (is_below below) made) }
{
    let mono = Mono::new(alloc, pairs)?.ok_or("pairs in order")?;
    let c = Whole::new(c).ok_or("too wide")?;
    let terms = vec![in alloc; (mono, Whole::one())]?;
    let product = JetPoly::of_terms(alloc, terms.as_slice())?;
    Ok(product.scale(alloc, &c)?)
}

fn field_of_two(alloc: Global, first: JetPoly, second: JetPoly) -> Result<Field, Fail>
    requires first { IsIn (is_below 2) first }
    requires second { IsIn (is_below 2) second }
    ensures { IfOk result (λ made. (S : SpaceOf) → S.p + S.q ≡ 2 → IsFieldOn S made) }
{
    Ok(Field::new(1, vec![in alloc; first, second]?))
}

fn field_of_three(
    alloc: Global,
    first: JetPoly,
    second: JetPoly,
    third: JetPoly,
) -> Result<Field, Fail>
    requires first { IsIn (is_below 3) first }
    requires second { IsIn (is_below 3) second }
    requires third { IsIn (is_below 3) third }
    ensures { IfOk result (λ made. (S : SpaceOf) → S.p + S.q ≡ 3 → IsFieldOn S made) }
{
    Ok(Field::new(1, vec![in alloc; first, second, third]?))
}

/// Whether the coefficient is that of the jet, with these terms.
fn is_coefficient(
    alloc: Global,
    made: &(Jet, JetPoly),
    dep: u8,
    counts: [u8; 4],
    want: &[Term],
) -> Result<bool, Fail> {
    let terms = made.1.terms(alloc)?;
    let mut same = made.0 == Jet { dep, counts } && terms.len() == want.len();
    for (term, other) in terms.as_slice().iter().zip(want) {
        same = same && term.0.pairs() == other.0 && term.1.get() == other.1;
    }
    Ok(same)
}

#[test]
fn dependent_variable_times_derivative(rt: HostRuntime) -> Result<(), Fail> {
    let alloc = rt.alloc();
    let field = field_of_two(
        alloc,
        part(alloc, 2, &[(1, 1)], 1)?,
        part(alloc, 2, &[], 0)?,
    )?;
    let made = prolong_field(alloc, Space { p: 1, q: 1 }, &field, 2)?;
    assert_eq!(rt; made.len(), 3);
    assert!(rt; is_coefficient(alloc, &made[0], 0, [0; 4], &[])?);
    assert!(rt; is_coefficient(alloc, &made[1], 0, [1, 0, 0, 0], &[(&[(2, 2)], -1)])?);
    assert!(rt; is_coefficient(alloc, &made[2], 0, [2, 0, 0, 0], &[(&[(2, 1), (3, 1)], -3)])?);
    Ok(())
}

#[test]
fn independent_variable_times_derivative(rt: HostRuntime) -> Result<(), Fail> {
    let alloc = rt.alloc();
    let field = field_of_two(
        alloc,
        part(alloc, 2, &[(0, 1)], 1)?,
        part(alloc, 2, &[], 0)?,
    )?;
    let made = prolong_field(alloc, Space { p: 1, q: 1 }, &field, 1)?;
    assert_eq!(rt; made.len(), 2);
    assert!(rt; is_coefficient(alloc, &made[0], 0, [0; 4], &[])?);
    assert!(rt; is_coefficient(alloc, &made[1], 0, [1, 0, 0, 0], &[(&[(2, 1)], -1)])?);
    Ok(())
}

/// x*u*d_x + t^2*d_t + x*t*d_u, with the numbers 0 and 1 of x and t, 2 of u, 3 and 4 of u_x and u_t, 5 to 7 of the next order.
#[test]
fn two_independent_variables(rt: HostRuntime) -> Result<(), Fail> {
    let alloc = rt.alloc();
    let field = field_of_three(
        alloc,
        part(alloc, 3, &[(0, 1), (2, 1)], 1)?,
        part(alloc, 3, &[(1, 2)], 1)?,
        part(alloc, 3, &[(0, 1), (1, 1)], 1)?,
    )?;
    let made = prolong_field(alloc, Space { p: 2, q: 1 }, &field, 2)?;
    assert_eq!(rt; made.len(), 6);
    let u_x: &[Term] = &[
        (&[(0, 1), (3, 2)], -1),
        (&[(2, 1), (3, 1)], -1),
        (&[(1, 1)], 1),
    ];
    let u_t: &[Term] = &[
        (&[(0, 1), (3, 1), (4, 1)], -1),
        (&[(1, 1), (4, 1)], -2),
        (&[(0, 1)], 1),
    ];
    let u_xt: &[Term] = &[
        (&[(0, 1), (3, 1), (6, 1)], -2),
        (&[(0, 1), (4, 1), (5, 1)], -1),
        (&[(1, 1), (6, 1)], -2),
        (&[(2, 1), (6, 1)], -1),
        (&[(3, 1), (4, 1)], -1),
        (&[], 1),
    ];
    assert!(rt; is_coefficient(alloc, &made[0], 0, [0; 4], &[(&[(0, 1), (1, 1)], 1)])?);
    assert!(rt; is_coefficient(alloc, &made[1], 0, [1, 0, 0, 0], u_x)?);
    assert!(rt; is_coefficient(alloc, &made[2], 0, [0, 1, 0, 0], u_t)?);
    assert!(rt; is_coefficient(alloc, &made[4], 0, [1, 1, 0, 0], u_xt)?);
    Ok(())
}

/// v*d_x + x*u*d_u - u^2*d_v, with the numbers 0 of x, 1 and 2 of u and v, 3 and 4 of u_x and v_x, 5 and 6 of u_xx and v_xx.
#[test]
fn two_dependent_variables(rt: HostRuntime) -> Result<(), Fail> {
    let alloc = rt.alloc();
    let field = field_of_three(
        alloc,
        part(alloc, 3, &[(2, 1)], 1)?,
        part(alloc, 3, &[(0, 1), (1, 1)], 1)?,
        part(alloc, 3, &[(1, 2)], -1)?,
    )?;
    let made = prolong_field(alloc, Space { p: 1, q: 2 }, &field, 2)?;
    assert_eq!(rt; made.len(), 6);
    let v_x: &[Term] = &[(&[(1, 1), (3, 1)], -2), (&[(4, 2)], -1)];
    let u_xx: &[Term] = &[
        (&[(0, 1), (5, 1)], 1),
        (&[(3, 1), (6, 1)], -1),
        (&[(4, 1), (5, 1)], -2),
        (&[(3, 1)], 2),
    ];
    let v_xx: &[Term] = &[
        (&[(1, 1), (5, 1)], -2),
        (&[(3, 2)], -2),
        (&[(4, 1), (6, 1)], -3),
    ];
    assert!(rt; is_coefficient(alloc, &made[1], 1, [0; 4], &[(&[(1, 2)], -1)])?);
    assert!(rt; is_coefficient(alloc, &made[3], 1, [1, 0, 0, 0], v_x)?);
    assert!(rt; is_coefficient(alloc, &made[4], 0, [2, 0, 0, 0], u_xx)?);
    assert!(rt; is_coefficient(alloc, &made[5], 1, [2, 0, 0, 0], v_xx)?);
    Ok(())
}

/// c*x*d_x + c*u*d_u has the coefficient c*u_x - c*u_x = 0 at u_x, made of absolute values up to 2*c.
fn dilation(alloc: Global, c: i128) -> Result<Field, Fail>
    ensures { IfOk result (λ made. (S : SpaceOf) → S.p + S.q ≡ 2 → IsFieldOn S made) }
{
    field_of_two(
        alloc,
        part(alloc, 2, &[(0, 1)], c)?,
        part(alloc, 2, &[(1, 1)], c)?,
    )
}

#[test]
fn past_where_the_bulk_is(rt: HostRuntime) -> Result<(), Fail> {
    let alloc = rt.alloc();
    let space = Space { p: 1, q: 1 };
    let wide = dilation(alloc, 1 << 126)?;
    assert_eq!(rt; prolong_field(alloc, space, &wide, 0)?.len(), 1);
    let fail = prolong_field(alloc, space, &wide, 1).err();
    assert_eq!(rt; fail, Some(PolyFail::Past(PastKind::Coefficient)));
    let made = prolong_field(alloc, space, &dilation(alloc, (1 << 126) - 1)?, 1)?;
    assert!(rt; is_coefficient(alloc, &made[1], 0, [1, 0, 0, 0], &[])?);
    Ok(())
}

/// x to a power, for d_x alone.
fn power(alloc: Global, exponent: u32) -> Result<Field, Fail> {
    field_of_two(
        alloc,
        part(alloc, 2, &[(0, exponent)], 1)?,
        part(alloc, 2, &[], 0)?,
    )
}

#[test]
fn bounded_by_its_own_numbers(rt: HostRuntime) -> Result<(), Fail> {
    let alloc = rt.alloc();
    let space = Space { p: 1, q: 1 };
    // The bound of the norms is the number itself, and one order above three times that.
    assert!(rt; is_bounded_field(alloc, space, &dilation(alloc, 1_000_000)?, 0)?);
    assert!(rt; !is_bounded_field(alloc, space, &dilation(alloc, 1_000_001)?, 0)?);
    assert!(rt; is_bounded_field(alloc, space, &dilation(alloc, -333_333)?, 1)?);
    assert!(rt; !is_bounded_field(alloc, space, &dilation(alloc, -333_334)?, 1)?);
    // The bound of the degrees is one more than the exponent.
    assert!(rt; is_bounded_field(alloc, space, &power(alloc, 65_534)?, 0)?);
    assert!(rt; !is_bounded_field(alloc, space, &power(alloc, 65_535)?, 0)?);
    Ok(())
}

#[test]
fn one_coefficient_alone(rt: HostRuntime) -> Result<(), Fail> {
    let alloc = rt.alloc();
    let space = Space { p: 1, q: 1 };
    let field = field_of_two(
        alloc,
        part(alloc, 2, &[(1, 1)], 1)?,
        part(alloc, 2, &[], 0)?,
    )?;
    let jet = Jet {
        dep: 0,
        counts: [2, 0, 0, 0],
    };
    assert!(rt; is_bounded_field(alloc, space, &field, 2)?);
    let made = bounded_coefficient(alloc, space, &field, &jet)?;
    assert!(rt;
        is_coefficient(
            alloc,
            &(jet, made),
            0,
            [2, 0, 0, 0],
            &[(&[(2, 1), (3, 1)], -3)]
        )?
    );
    Ok(())
}
