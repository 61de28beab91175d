// Prolonged coefficients of unknown functions, as tables. The expected ones come from the recursion, worked out apart from this program.
use crate::prolong_sym;
use lie_form::SymForm;
use lie_jet::{Der, Space};
use lie_ring::{Polynomial, Ring, Whole};
use std::alloc::Global;
use std::test::Fail;

/// A derivative of an unknown by x and u, and its coefficient of one term: pairs of a variable and an exponent, and a number.
type Row<'a> = (u32, [u8; 2], &'a [(u32, u32)], i128);

/// Whether the form has these terms.
fn has_rows(alloc: Global, form: &SymForm, want: &[Row]) -> Result<bool, Fail> {
    let mut same = form.terms().len() == want.len();
    for (term, row) in form.terms().iter().zip(want) {
        let der = Der {
            unknown: row.0,
            counts: [row.1[0], row.1[1], 0, 0, 0, 0, 0, 0],
        };
        let terms = term.1.terms(alloc)?;
        same = same && term.0 == der && terms.len() == 1;
        for (mono, c) in &terms {
            same = same && mono.pairs() == row.2 && c.get() == row.3;
        }
    }
    Ok(same)
}

#[test]
fn one_variable_each_to_order_one(rt: HostRuntime) -> Result<(), Fail> {
    let alloc = rt.alloc();
    let made = prolong_sym(alloc, Space { p: 1, q: 1 }, 1, &[0, 2])?;
    assert_eq!(rt; made.len(), 3);
    assert!(rt; has_rows(alloc, &made[0], &[(1, [0, 0], &[], 1)])?);
    assert!(rt; has_rows(alloc, &made[1], &[])?);
    assert!(rt;
        has_rows(
            alloc,
            &made[2],
            &[
                (2, [1, 0], &[], 1),
                (2, [0, 1], &[(2, 1)], 1),
                (1, [1, 0], &[(2, 1)], -1),
                (1, [0, 1], &[(2, 2)], -1)
            ]
        )?
    );
    Ok(())
}
