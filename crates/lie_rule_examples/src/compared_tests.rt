// The rules that compare equations, on systems over two to four variables: what they leave, and where they do not apply.
use crate::test_systems::{Rule, leaves_equations};
use std::test::Fail;

#[test]
fn derivatives_are_isolated(rt: HostRuntime) -> Result<(), Fail> {
    let rows: [(&[u8], usize, &[u8], &[u8], Option<&[u8]>); 13] = [
        (b"xy", 0, b"1xy 2x", b"f1_x y*f2", Some(b"f1_xyy;f1_x y*f2")),
        (
            b"xy",
            1,
            b"1xy 2xy",
            b"5*xx*f2 y*f1;f2_xy x*f1_x -4*xx*f1",
            None,
        ),
        (
            b"xy",
            1,
            b"1xy 2",
            b"f1;4*f2 x*f1;5*f2 -4*x*y*f1",
            Some(b"f1;f1_y;4*f2 x*f1;5*f2 -4*x*y*f1"),
        ),
        (
            b"xy",
            1,
            b"1xy 2",
            b"f2;3*y*f1_x f2",
            Some(b"f2;f1_xx;3*y*f1_x f2"),
        ),
        (
            b"xy",
            1,
            b"2y 3y 4xy",
            b"f3;x*f3_yy 2*y*f4",
            Some(b"f3;f4_xx;x*f3_yy 2*y*f4"),
        ),
        (
            b"xyz",
            2,
            b"2z 3xyz",
            b"3*f3_y f2;2*y*f2_zz -5*x*f2_z;2*y*z*f3_xx 3*z*f3_z x*f2_z",
            None,
        ),
        (
            b"xyz",
            1,
            b"1z 2xyz 3xy",
            b"f2;3*x*f3 -z*f1;f2_z f1_z",
            Some(b"f2;f3_y;3*x*f3 -z*f1;f2_z f1_z"),
        ),
        (b"xyz", 0, b"2xyz 4x", b"f2_x f4", Some(b"f2_xy;f2_x f4")),
        (
            b"xyz",
            1,
            b"1xyz 2xz 3yz",
            b"2*x*f3 f2;4*y*f3_y -f1_y",
            Some(b"f1_xy;2*x*f3 f2;4*y*f3_y -f1_y"),
        ),
        (b"xyzw", 0, b"1xyzw 2xzw", b"2*y*f1_y x*f2 -4*f2", None),
        (
            b"xyzw",
            0,
            b"2xyzw 3z 5xzw",
            b"f3_zz -xx*f2_w",
            Some(b"f2_yw;f3_zz -xx*f2_w"),
        ),
        (
            b"xyzw",
            0,
            b"1zw 2xyw 3xyz",
            b"x*f3_yz y*z*f2_w;y*w*f3_x z*f3_y w*f2",
            Some(b"f3_yzzz;x*f3_yz y*z*f2_w;y*w*f3_x z*f3_y w*f2"),
        ),
        (
            b"xyzw",
            1,
            b"2x 3xw 4w",
            b"5*x*z*f4_w f2;4*f4_ww f2",
            Some(b"f2_x;5*x*z*f4_w f2;4*f4_ww f2"),
        ),
    ];
    for (names, place, unknowns, before, after) in rows {
        let held = leaves_equations(
            rt.alloc(),
            names,
            Rule::Isolate,
            place,
            unknowns,
            before,
            after,
        );
        assert!(rt; held.map_err(|_| "memory")?);
    }
    Ok(())
}

#[test]
fn equations_are_reduced(rt: HostRuntime) -> Result<(), Fail> {
    let rows: [(&[u8], usize, &[u8], &[u8], Option<&[u8]>); 13] = [
        (
            b"xy",
            1,
            b"1xy 2x",
            b"f1_x -f2;f1_xx f1_x",
            Some(b"f1_x -f2;f2_x f2"),
        ),
        (b"xy", 0, b"1x", b"x*f1_x 5*y*f1;5*x*f1_xx 2*x*f1 f1", None),
        (b"xy", 1, b"1x 2xy", b"f1;f1_x y*f2", Some(b"f1;f2")),
        (
            b"xy",
            1,
            b"1 2x 3x",
            b"2*yy*f2 -f1;y*f3_x f2 yy*f1",
            Some(b"2*yy*f2 -f1;2*yyy*f3_x 2*yyyy*f1 f1"),
        ),
        (
            b"xy",
            0,
            b"1x",
            b"f1_x;2*x*f1_x f1;f1_x 2*x*f1 2*f1",
            Some(b"f1;2*x*f1_x f1;f1_x 2*x*f1 2*f1"),
        ),
        (
            b"xyz",
            1,
            b"1z 3xyz 4yz",
            b"f1;f3_xy;x*y*f4_z -z*f3 -4*y*f1",
            None,
        ),
        (
            b"xyz",
            2,
            b"1xz 2yz 3z",
            b"f3;f1_z;4*f3_zz -5*y*z*f3",
            Some(b"f3;f1_z"),
        ),
        (
            b"xyz",
            1,
            b"1 2y 3xz",
            b"x*z*f2_y -3*f3;2*f2_yy zz*f1 2*y*f1",
            Some(b"f1;x*z*f2_y -3*f3"),
        ),
        (
            b"xyz",
            0,
            b"1xyz",
            b"2*y*f1_xy -f1_z;f1_y -4*x*z*f1 -4*f1",
            Some(b"f1_y -4*x*z*f1 -4*f1;8*x*y*z*f1_x 8*y*f1_x -f1_z 8*y*z*f1"),
        ),
        (
            b"xyzw",
            1,
            b"1yz 2xyzw 4xyw",
            b"2*zz*f4_y w*f4;4*f1_yy -z*f4_x",
            None,
        ),
        (
            b"xyzw",
            1,
            b"2xw 4xy",
            b"f4_x;z*f2_xw f2;y*f2_xw 4*f4",
            Some(b"f4_x;4*z*f4 -y*f2;y*f2_xw 4*f4"),
        ),
        (
            b"xyzw",
            0,
            b"1xyzw 2xyw",
            b"f2_w;2*x*f2 -3*f1",
            Some(b"f1_w;2*x*f2 -3*f1"),
        ),
        (
            b"xyzw",
            1,
            b"1yz",
            b"f1;f1_yy 3*f1_yz -4*z*f1_y",
            Some(b"f1"),
        ),
    ];
    for (names, place, unknowns, before, after) in rows {
        let held = leaves_equations(
            rt.alloc(),
            names,
            Rule::Reduce,
            place,
            unknowns,
            before,
            after,
        );
        assert!(rt; held.map_err(|_| "memory")?);
    }
    Ok(())
}

#[test]
fn foreign_derivatives_are_added(rt: HostRuntime) -> Result<(), Fail> {
    let rows: [(&[u8], usize, &[u8], &[u8], Option<&[u8]>); 13] = [
        (b"xy", 0, b"1xy 2x", b"f2_x -f1", Some(b"f1_y;f2_x -f1")),
        (b"xy", 0, b"2y", b"f2_y;y*f2_yy -3*f2", None),
        (
            b"xy",
            0,
            b"1 2y",
            b"2*x*f2_y -f2;2*y*f2_y -f2_y -f1",
            Some(b"f2;2*x*f2_y -f2;2*y*f2_y -f2_y -f1"),
        ),
        (
            b"xy",
            0,
            b"1x 2y",
            b"2*f2_y -x*f1_x;y*f2_y 2*f2_y -f1",
            Some(b"2*f2_y -x*f1_x;x*f1_xx f1_x;y*f2_y 2*f2_y -f1"),
        ),
        (
            b"xy",
            0,
            b"2y 4xy",
            b"5*f2_y xx*f4 x*y*f2",
            Some(b"5*f2_y xx*f4 x*y*f2;xx*f4_x 2*x*f4 y*f2"),
        ),
        (b"xyz", 1, b"1xyz", b"5*f1_y -2*f1_z;f1_xz z*f1_x", None),
        (
            b"xyz",
            1,
            b"2y",
            b"f2_yy -f2_y;3*z*f2_yy -2*x*f2_y 5*z*f2",
            Some(b"f2_y;f2_yy -f2_y;3*z*f2_yy -2*x*f2_y 5*z*f2"),
        ),
        (
            b"xyz",
            2,
            b"2y",
            b"2*f2_yy -3*f2;f2_y -2*x*y*f2 -f2;y*f2_y 3*f2_y 5*y*z*f2",
            Some(b"f2;2*f2_yy -3*f2;f2_y -2*x*y*f2 -f2;y*f2_y 3*f2_y 5*y*z*f2"),
        ),
        (
            b"xyz",
            1,
            b"2yz 4xy 5yz",
            b"x*f2_yy f4_x;x*f5_y x*f4_x yy*f2",
            Some(b"x*f2_yy f4_x;xx*f4_xx -yy*f2;x*f5_y x*f4_x yy*f2"),
        ),
        (b"xyzw", 0, b"1xzw 2yw", b"f1;3*z*f1_w f2", None),
        (
            b"xyzw",
            0,
            b"1yw 2x",
            b"3*y*f2_x -4*x*f1",
            Some(b"y*f1_y -f1;3*y*f2_x -4*x*f1"),
        ),
        (
            b"xyzw",
            1,
            b"2xyzw 4yw",
            b"f2_x;4*x*y*f4_w f4 -2*z*f2;w*f2_yw -f2_w xx*f4",
            Some(b"f2_x;f4 -2*z*f2;4*x*y*f4_w f4 -2*z*f2;w*f2_yw -f2_w xx*f4"),
        ),
        (
            b"xyzw",
            0,
            b"1yw 2yzw",
            b"x*z*f1_y -f2;5*z*f2_y f2_y f2;x*f2_ww -xx*f2_y -2*f1_w",
            Some(b"f2;x*z*f1_y -f2;5*z*f2_y f2_y f2;x*f2_ww -xx*f2_y -2*f1_w"),
        ),
    ];
    for (names, place, unknowns, before, after) in rows {
        let held = leaves_equations(
            rt.alloc(),
            names,
            Rule::Foreign,
            place,
            unknowns,
            before,
            after,
        );
        assert!(rt; held.map_err(|_| "memory")?);
    }
    Ok(())
}

#[test]
fn equations_are_crossed(rt: HostRuntime) -> Result<(), Fail> {
    let rows: [(&[u8], (usize, usize), &[u8], &[u8], Option<&[u8]>); 13] = [
        (
            b"xy",
            (0, 1),
            b"1xy 2xy",
            b"f1_xy;f1_xx -f2",
            Some(b"f2_y;f1_xy;f1_xx -f2"),
        ),
        (b"xy", (0, 1), b"1xy", b"f1;f1_y x*f1", None),
        (
            b"xy",
            (0, 1),
            b"1xy",
            b"3*f1_x 2*y*f1;f1_x y*f1 f1",
            Some(b"f1;3*f1_x 2*y*f1;f1_x y*f1 f1"),
        ),
        (
            b"xy",
            (0, 1),
            b"2y",
            b"f2_yy;x*f2_y -f2_y 3*x*y*f2",
            Some(b"f2;f2_yy;x*f2_y -f2_y 3*x*y*f2"),
        ),
        (
            b"xy",
            (1, 2),
            b"1y",
            b"f1_y;5*y*f1_y x*f1;f1_yy y*f1",
            Some(b"f1;f1_y;5*y*f1_y x*f1;f1_yy y*f1"),
        ),
        (
            b"xyz",
            (1, 2),
            b"2xyz",
            b"f2;2*f2_yy -y*z*f2_z;f2_xz y*f2_z",
            None,
        ),
        (
            b"xyz",
            (0, 1),
            b"1xz",
            b"2*f1_z -z*f1 f1;f1_xz -2*z*f1_x -f1",
            Some(b"2*f1_z -z*f1 f1;3*z*f1_x f1_x 2*f1;f1_xz -2*z*f1_x -f1"),
        ),
        (
            b"xyz",
            (0, 1),
            b"2xy 3yz",
            b"4*f3_z f2_y;x*y*f3_y x*f3_y -3*yy*f3",
            Some(b"4*f3_z f2_y;x*y*f3_y x*f3_y -3*yy*f3;x*y*f2_yy x*f2_yy -3*yy*f2_y"),
        ),
        (
            b"xyz",
            (0, 1),
            b"1yz 2xyz 3x",
            b"x*f3_xx -2*y*f2_x;f3_x 2*f2_y x*z*f1_y",
            Some(b"x*f3_xx -2*y*f2_x;f3_x 2*f2_y x*z*f1_y;2*x*f2_xy 2*y*f2_x x*z*f1_y"),
        ),
        (b"xyzw", (0, 2), b"1zw 2x", b"f1;f2_xx;w*f2_x 8*f1", None),
        (
            b"xyzw",
            (0, 1),
            b"1xzw 2xyw",
            b"3*y*z*f2 zz*f1 5*f1;w*f2_yy -x*f1_x -w*f2",
            Some(
                b"3*y*z*f2 zz*f1 5*f1;w*f2_yy -x*f1_x -w*f2;3*x*yyy*z*f1_x -yy*zz*w*f1 -5*yy*w*f1 2*zz*w*f1 10*w*f1",
            ),
        ),
        (
            b"xyzw",
            (0, 2),
            b"1yzw 2xzw",
            b"f2_xw;2*y*f1_ww 5*f2_z -4*x*w*f1;3*f2_ww -2*x*f2_z -y*f1_y",
            Some(b"f2_xw;x*f2_xz f2_z;2*y*f1_ww 5*f2_z -4*x*w*f1;3*f2_ww -2*x*f2_z -y*f1_y"),
        ),
        (
            b"xyzw",
            (1, 2),
            b"1xyzw",
            b"w*f1_z 2*f1;f1_y f1_z;f1_xz -w*f1",
            Some(b"w*f1_z 2*f1;f1_y f1_z;2*f1_x ww*f1;f1_xz -w*f1"),
        ),
    ];
    for (names, (place, second), unknowns, before, after) in rows {
        let held = leaves_equations(
            rt.alloc(),
            names,
            Rule::Cross(second),
            place,
            unknowns,
            before,
            after,
        );
        assert!(rt; held.map_err(|_| "memory")?);
    }
    Ok(())
}
