// The rules for equations solved for an unknown or a derivative, on systems over two to four variables: what they leave, where they do
// not apply, and limits that are passed.
use crate::test_systems::{Rule, is_past, leaves};
use lie_linear_texts::{SystemTexts, of_texts};
use lie_ring::PastKind;
use std::test::Fail;

#[test]
fn unknown_is_replaced_by_the_rest(rt: HostRuntime) -> Result<(), Fail> {
    let rows: [(&[u8], usize, SystemTexts, Option<SystemTexts>); 7] = [
        (
            b"xu",
            0,
            of_texts(b"1xu 2x", b"x*f2_x 2*f1", b"f1;f2", 3),
            Some(of_texts(b"2x", b"", b"-x*f2_x;2*f2", 3)),
        ),
        (
            b"xu",
            0,
            of_texts(b"1xu 2x", b"f1", b"f1;f2", 3),
            Some(of_texts(b"2x", b"", b";f2", 3)),
        ),
        (
            b"xu",
            0,
            of_texts(b"1xu 2xu", b"f2_x -3*f1;f1_xu f2", b"2*f1;4*f2", 5),
            Some(of_texts(b"2xu", b"f2_xxu 3*f2", b"f2_x;6*f2", 5)),
        ),
        (
            b"xu",
            1,
            of_texts(
                b"1xu 2xu 3xu",
                b"f1_x f2;2*f3 3*f2 5*f1;f3_x f2 u*f1",
                b"f1;f2",
                4,
            ),
            Some(of_texts(
                b"1xu 2xu",
                b"f1_x f2;3*f2_x 5*f1_x -2*f2 -2*u*f1",
                b"f1;f2",
                4,
            )),
        ),
        (
            b"xtu",
            1,
            of_texts(
                b"1xtu 2xtu 3xu",
                b"f1_tu t*f2;f3 t*f2 -4*f1",
                b"6*f1;f2;10*f3",
                4,
            ),
            Some(of_texts(
                b"2xtu 3xu",
                b"t*f2_tu f2_u 4*t*f2",
                b"3*f3 3*t*f2;2*f2;20*f3",
                4,
            )),
        ),
        (
            b"xtu",
            1,
            of_texts(
                b"1xtu 2xtu 3xtu 4xtu",
                b"f2 f1;f4_xx -2*f3 -u*f2",
                b"2*f1;f2;2*f3",
                6,
            ),
            Some(of_texts(b"1xtu 2xtu 4xtu", b"f2 f1", b"2*f1;f2;f4_xx -u*f2", 6)),
        ),
        (
            b"xytu",
            1,
            of_texts(
                b"1xytu 2xytu 3xytu 4xytu 5x",
                b"x*f3_t f4 f1;f1_xy x*f2_u 7*f3;2*f3_tu 3*f4_x f5",
                b"f1;f2;f4 f3;f5",
                9,
            ),
            Some(of_texts(
                b"1xytu 2xytu 4xytu 5x",
                b"x*f1_xyt xx*f2_tu -7*f4 -7*f1;2*f1_xytu 2*x*f2_tuu -21*f4_x -7*f5",
                b"7*f1;7*f2;-f1_xy -x*f2_u 7*f4;7*f5",
                9,
            )),
        ),
    ];
    for (names, place, before, after) in rows {
        let held = leaves(
            rt.alloc(),
            names,
            Rule::Substitute,
            place,
            &before,
            after.as_ref(),
        );
        assert!(rt; held.map_err(|_| "memory")?);
    }
    Ok(())
}

#[test]
fn other_equations_are_not_solved_for_an_unknown(rt: HostRuntime) -> Result<(), Fail> {
    let rows: [(&[u8], usize, SystemTexts, Option<SystemTexts>); 3] = [
        (
            b"xu",
            0,
            of_texts(b"1xu 2x", b"f1_u -f2", b"f1;f2", 3),
            None,
        ),
        (
            b"xu",
            0,
            of_texts(b"1xu 2xu", b"f2_x f1_x f1", b"f1;f2", 3),
            None,
        ),
        (
            b"xu",
            0,
            of_texts(b"1xu 2xu", b"u*f2 x*f1", b"f1;f2", 3),
            None,
        ),
    ];
    for (names, place, before, after) in rows {
        let held = leaves(
            rt.alloc(),
            names,
            Rule::Substitute,
            place,
            &before,
            after.as_ref(),
        );
        assert!(rt; held.map_err(|_| "memory")?);
    }
    Ok(())
}

#[test]
fn unknown_is_replaced_by_the_integral(rt: HostRuntime) -> Result<(), Fail> {
    let rows: [(&[u8], usize, SystemTexts, Option<SystemTexts>); 10] = [
        (
            b"xu",
            0,
            of_texts(b"1xu 2x", b"f1_u -u*f2", b"f1;f2", 3),
            Some(of_texts(b"2x 3x", b"", b"f3 uu*f2;2*f2", 4)),
        ),
        (
            b"xu",
            1,
            of_texts(b"1xu 2x", b"f1_x f1;f1_uu 3*u*f2", b"f1;2*f2", 7),
            Some(of_texts(
                b"2x 7x 8x",
                b"u*f8_x f7_x -uuu*f2_x u*f8 f7 -uuu*f2",
                b"u*f8 f7 -uuu*f2;4*f2",
                9,
            )),
        ),
        (
            b"xu",
            1,
            of_texts(
                b"1xu 2x 3x",
                b"f1_xu u*f2;3*f1_u 5*uuu*f3 f3 -2*u*f2",
                b"f1;f3 3*f2",
                4,
            ),
            Some(of_texts(
                b"2x 3x 4x",
                b"5*uuu*f3_x f3_x -2*u*f2_x -3*u*f2",
                b"f4 -5*uuuu*f3 -4*u*f3 4*uu*f2;12*f3 36*f2",
                5,
            )),
        ),
        (
            b"xu",
            1,
            of_texts(b"1xu 2x 3x", b"f2 f1;f3_x -6*f1_u u*f2", b"4*f1;2*f3", 4),
            Some(of_texts(
                b"2x 3x 4x",
                b"2*u*f3_x f4 uu*f2 12*f2",
                b"2*u*f3_x f4 uu*f2;6*f3",
                5,
            )),
        ),
        (
            b"xtu",
            1,
            of_texts(
                b"1xtu 2xtu 3xt 4xt",
                b"f2_u f1_x;f2_uu uu*f4 u*f3",
                b"f1;f2;f3",
                5,
            ),
            Some(of_texts(
                b"1xtu 3xt 4xt 5xt 6xt",
                b"12*f1_x f6 -4*uuu*f4 -6*uu*f3",
                b"12*f1;u*f6 f5 -uuuu*f4 -2*uuu*f3;12*f3",
                7,
            )),
        ),
        (
            b"xtu",
            1,
            of_texts(
                b"1xtu 2xtu 3xt 4xt",
                b"f2_u f1_x f2;4*f2_u 3*uu*f4 u*f3",
                b"f1;f2;f3",
                5,
            ),
            Some(of_texts(
                b"1xtu 3xt 4xt 5xt",
                b"8*f1_x f5 -2*uuu*f4 -6*uu*f4 -uu*f3 -2*u*f3",
                b"8*f1;f5 -2*uuu*f4 -uu*f3;8*f3",
                6,
            )),
        ),
        (
            b"xytu",
            1,
            of_texts(
                b"1xytu 2xyt 3xt 4xytu",
                b"f4_u f2_x f1_u;5*f4_uuu xu*f3_x 2*yuu*f3",
                b"f4;f1;-y*f4 f2;f3",
                5,
            ),
            Some(of_texts(
                b"1xytu 2xyt 3xt 5xyt 6xyt 7xyt",
                b"20*xuuu*f3_x -600*f2_x -600*f1_u -2*u*f7 -f6 20*yuuuu*f3",
                b"-5*xuuuu*f3_x uu*f7 u*f6 f5 -4*yuuuuu*f3;600*f1;5*xyuuuu*f3_x -yuu*f7 -yu*f6 -y*f5 4*yyuuuuu*f3 600*f2;600*f3",
                8,
            )),
        ),
        (
            b"xu",
            0,
            of_texts(
                b"1xu 2x 3x",
                b"85070591730234615865843651857942052864*f1_u f3 127605887595351923798765477786913079296*uu*f2",
                b"f1;f2",
                4,
            ),
            Some(of_texts(
                b"2x 3x 4x",
                b"",
                b"f4 -u*f3 -42535295865117307932921825928971026432*uuu*f2;85070591730234615865843651857942052864*f2",
                5,
            )),
        ),
        (
            b"xu",
            0,
            of_texts(b"1xu 2x", b"f1_uu -u*f2", b"f1;f2", 6),
            Some(of_texts(b"2x 6x 7x", b"", b"u*f7 f6 uuu*f2;6*f2", 8)),
        ),
        (
            b"xu",
            0,
            of_texts(
                b"1xu 2x",
                b"f1_u -u*f2",
                b"170141183460469231731687303715884105727*f1;f2",
                5,
            ),
            Some(of_texts(
                b"2x 5x",
                b"",
                b"170141183460469231731687303715884105727*f5 170141183460469231731687303715884105727*uu*f2;2*f2",
                6,
            )),
        ),
    ];
    for (names, place, before, after) in rows {
        let held = leaves(
            rt.alloc(),
            names,
            Rule::Integrate,
            place,
            &before,
            after.as_ref(),
        );
        assert!(rt; held.map_err(|_| "memory")?);
    }
    Ok(())
}

#[test]
fn other_equations_are_not_integrated(rt: HostRuntime) -> Result<(), Fail> {
    let rows: [(&[u8], usize, SystemTexts, Option<SystemTexts>); 3] = [
        (b"xu", 0, of_texts(b"1xu 2x", b"f1_x f2", b"f1;f2", 3), None),
        (b"xu", 0, of_texts(b"1xu 2x", b"f1_uu", b"f1;f2", 3), None),
        (
            b"xu",
            0,
            of_texts(b"1xu 2x", b"f1_xu -f2", b"f1;f2", 3),
            None,
        ),
    ];
    for (names, place, before, after) in rows {
        let held = leaves(
            rt.alloc(),
            names,
            Rule::Integrate,
            place,
            &before,
            after.as_ref(),
        );
        assert!(rt; held.map_err(|_| "memory")?);
    }
    Ok(())
}

#[test]
fn limits_are_told(rt: HostRuntime) -> Result<(), Fail> {
    let rows: [(Rule, SystemTexts, PastKind); 4] = [
        (
            Rule::Substitute,
            of_texts(
                b"1xu 2xu 3xu",
                b"f2_x -85070591730234615865843651857942052863*f1;f3_x 3*f2 f1",
                b"3*f1;f2",
                4,
            ),
            PastKind::Coefficient,
        ),
        (
            Rule::Integrate,
            of_texts(
                b"1xu 2x 3x",
                b"85070591730234615865843651857942052865*f1_u f3 uu*f2",
                b"f3;f2",
                4,
            ),
            PastKind::Coefficient,
        ),
        (
            Rule::Integrate,
            of_texts(b"1xu 2x", b"f1_uu -u*f2", b"f1;f2", 65535),
            PastKind::Unknowns,
        ),
        (
            Rule::Substitute,
            of_texts(
                b"1xu 2xu",
                b"f2_x -2*f1",
                b"f1;85070591730234615865843651857942052864*f2",
                5,
            ),
            PastKind::Coefficient,
        ),
    ];
    for (rule, before, kind) in rows {
        let held = is_past(rt.alloc(), b"xu", rule, 0, &before, kind);
        assert!(rt; held.map_err(|_| "memory")?);
    }
    Ok(())
}
