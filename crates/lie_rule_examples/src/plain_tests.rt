// The rules for f = 0, for the lowest derivative, for a derivative that is 0, and for a variable by which an equation splits.
use crate::test_systems::{Rule, leaves};
use lie_linear_texts::{SystemTexts, of_texts};
use std::test::Fail;

#[test]
fn unknown_is_replaced_by_zero(rt: HostRuntime) -> Result<(), Fail> {
    let rows: [(&[u8], usize, SystemTexts, Option<SystemTexts>); 5] = [
        (
            b"xu",
            0,
            of_texts(b"1u", b"f1;f1_u f1", b";-f1_u", 2),
            Some(of_texts(b"", b"", b";", 2)),
        ),
        (
            b"xtu",
            0,
            of_texts(b"1xt 2xtu", b"f1", b"x*f1_t;-6*f2_x -2*x*f1;", 3),
            Some(of_texts(b"2xtu", b"", b";-6*f2_x;", 3)),
        ),
        (
            b"xu",
            0,
            of_texts(
                b"1u 2",
                b"f2;f1_uu -f1_u;xu*f1_uu -f2",
                b"x*f1_u f1_u;u*f2 -2*f2",
                3,
            ),
            Some(of_texts(b"1u", b"f1_uu;f1_uu -f1_u", b"x*f1_u f1_u;", 3)),
        ),
        (
            b"xu",
            1,
            of_texts(
                b"1u 2",
                b"f2;f1_uu -f1_u;xu*f1_uu -f2",
                b"x*f1_u f1_u;u*f2 -2*f2",
                3,
            ),
            None,
        ),
        (
            b"xytu",
            0,
            of_texts(
                b"1xyt 2xytu",
                b"f1;4*f2_tu xy*f1_t",
                b"f1;;-3*f1_xy y*f2_u;f2",
                3,
            ),
            Some(of_texts(b"2xytu", b"f2_tu", b";;y*f2_u;f2", 3)),
        ),
    ];
    for (names, place, before, after) in rows {
        let held = leaves(
            rt.alloc(),
            names,
            Rule::Zero,
            place,
            &before,
            after.as_ref(),
        );
        assert!(rt; held.map_err(|_| "memory")?);
    }
    Ok(())
}

#[test]
fn equation_becomes_its_lowest_derivative(rt: HostRuntime) -> Result<(), Fail> {
    let rows: [(&[u8], usize, SystemTexts, Option<SystemTexts>); 7] = [
        (
            b"xu",
            0,
            of_texts(b"1xu 2u", b"3*f1_xu -f1", b"-f1;-6*f2_u", 3),
            Some(of_texts(b"1xu 2u", b"f1", b"-f1;-6*f2_u", 3)),
        ),
        (
            b"xtu",
            0,
            of_texts(
                b"1xt 2tu",
                b"6*f2_tt -f2_tu 6*f2",
                b"t*f2_t u*f1_t;3*f2 -6*f1;f2",
                3,
            ),
            Some(of_texts(b"1xt 2tu", b"f2", b"t*f2_t u*f1_t;3*f2 -6*f1;f2", 3)),
        ),
        (
            b"xu",
            1,
            of_texts(b"1xu", b"f1_xu;f1_u -2*f1", b";2*f1_x -2*f1", 2),
            Some(of_texts(b"1xu", b"f1;f1_xu", b";2*f1_x -2*f1", 2)),
        ),
        (
            b"xtu",
            0,
            of_texts(b"1xtu", b"f1_t -2*f1_u;f1_xx -2*f1", b"u*f1;;f1", 2),
            None,
        ),
        (b"xu", 0, of_texts(b"1xu", b"3*f1_xu x*f1", b"f1;", 2), None),
        (
            b"xu",
            0,
            of_texts(b"1xu 2xu", b"f2_x f1", b"f1;f2", 3),
            None,
        ),
        (
            b"xytu",
            0,
            of_texts(b"1xytu", b"f1_xxyt 2*f1_xyu -5*f1_xy", b";f1_t;f1;", 2),
            Some(of_texts(b"1xytu", b"f1_xy", b";f1_t;f1;", 2)),
        ),
    ];
    for (names, place, before, after) in rows {
        let held = leaves(
            rt.alloc(),
            names,
            Rule::Lowest,
            place,
            &before,
            after.as_ref(),
        );
        assert!(rt; held.map_err(|_| "memory")?);
    }
    Ok(())
}

#[test]
fn unknown_becomes_a_sum_of_powers(rt: HostRuntime) -> Result<(), Fail> {
    let rows: [(&[u8], usize, SystemTexts, Option<SystemTexts>); 6] = [
        (
            b"xu",
            0,
            of_texts(b"1xu 2x", b"f1_xu", b"f1;f2", 3),
            Some(of_texts(b"2x 3u 4x", b"", b"f4 f3;f2", 5)),
        ),
        (
            b"xu",
            0,
            of_texts(b"1xu 2u", b"f2_uu", b"-x*f2 f1;x*f1 2*u*f1", 3),
            Some(of_texts(b"1xu 3 4", b"", b"-xu*f4 -x*f3 f1;x*f1 2*u*f1", 5)),
        ),
        (
            b"xu",
            0,
            of_texts(
                b"1x 2x",
                b"f2_x;f2_xx;u*f2_x -6*f1_x",
                b"-6*x*f2_x -x*f1_x f2;",
                3,
            ),
            Some(of_texts(b"1x 3", b"f1_x", b"-x*f1_x f3;", 4)),
        ),
        (
            b"xtu",
            0,
            of_texts(
                b"1xu",
                b"f1_uu;f1_xx",
                b"3*t*f1_x t*f1_u 3*u*f1_u;-6*x*f1_x;f1_x 2*x*f1 f1",
                2,
            ),
            Some(of_texts(
                b"2x 3x",
                b"u*f3_xx f2_xx",
                b"3*tu*f3_x 3*t*f2_x t*f3 3*u*f3;-6*xu*f3_x -6*x*f2_x;u*f3_x f2_x 2*xu*f3 u*f3 2*x*f2 f2",
                4,
            )),
        ),
        (
            b"xu",
            0,
            of_texts(b"1xu 2x", b"f2;f2_x -f1_u", b"f1;f2", 3),
            None,
        ),
        (
            b"xytu",
            0,
            of_texts(b"2xyu 5t", b"f2_xxu;f2_yyu 2*f5", b"f2;u*f2_y;t*f5;", 6),
            Some(of_texts(
                b"5t 6yu 7yu 8xy",
                b"x*f7_yyu f6_yyu 2*f5",
                b"f8 x*f7 f6;u*f8_y xu*f7_y u*f6_y;t*f5;",
                9,
            )),
        ),
    ];
    for (names, place, before, after) in rows {
        let held = leaves(
            rt.alloc(),
            names,
            Rule::Absent,
            place,
            &before,
            after.as_ref(),
        );
        assert!(rt; held.map_err(|_| "memory")?);
    }
    Ok(())
}

#[test]
fn equation_is_split_by_a_variable(rt: HostRuntime) -> Result<(), Fail> {
    let rows: [(&[u8], usize, SystemTexts, Option<SystemTexts>); 6] = [
        (
            b"xu",
            0,
            of_texts(b"1 2", b"6*f2 -3*xu*f1 -u*f1", b"-f1;", 3),
            Some(of_texts(b"1 2", b"f1;6*f2 -u*f1", b"-f1;", 3)),
        ),
        (
            b"xu",
            0,
            of_texts(b"1xu 2u 3u", b"2*f3_uu xu*f3", b"2*f1_x;", 4),
            Some(of_texts(b"1xu 2u 3u", b"f3;f3_uu", b"2*f1_x;", 4)),
        ),
        (
            b"xu",
            2,
            of_texts(
                b"1u",
                b"2*x*f1_u -3*f1;f1_uu f1_u;xx*f1_uu -u*f1_u",
                b"x*f1;2*u*f1_u 3*f1",
                2,
            ),
            Some(of_texts(
                b"1u",
                b"f1_u;f1_uu;2*x*f1_u -3*f1;f1_uu f1_u",
                b"x*f1;2*u*f1_u 3*f1",
                2,
            )),
        ),
        (
            b"xtu",
            1,
            of_texts(
                b"1xu",
                b"f1_xu;2*x*f1_xu -u*f1_x 3*t*f1_u u*f1_u",
                b"u*f1_u 2*t*f1;t*f1;",
                2,
            ),
            Some(of_texts(
                b"1xu",
                b"f1_u;f1_xu;2*x*f1_xu -u*f1_x u*f1_u",
                b"u*f1_u 2*t*f1;t*f1;",
                2,
            )),
        ),
        (
            b"xu",
            0,
            of_texts(b"1x 2u", b"u*f1_x x*f2", b"f1;f2", 3),
            None,
        ),
        (
            b"xytu",
            0,
            of_texts(b"1tu 2u", b"x*f2_u yyy*f1_t -2*xy*f1", b"f1;f2;;y*f1_t", 3),
            Some(of_texts(b"1tu 2u", b"f1_t;f2_u -2*y*f1", b"f1;f2;;y*f1_t", 3)),
        ),
    ];
    for (names, place, before, after) in rows {
        let held = leaves(
            rt.alloc(),
            names,
            Rule::Split,
            place,
            &before,
            after.as_ref(),
        );
        assert!(rt; held.map_err(|_| "memory")?);
    }
    Ok(())
}
