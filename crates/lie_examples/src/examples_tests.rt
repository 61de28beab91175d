// The systems of the directory `examples`: their reports, and for each a field that is a symmetry and one that is not.
// The expected answers come from a model that was written apart.
use crate::path_tests::puts;
use crate::{example_files as examples, example_reports as reports};
use std::test::Fail;

#[test]
fn examples_are_determined(rt: HostRuntime) -> Result<(), Fail> {
    let alloc = rt.alloc();
    let rows: [(&[u8], &[u8]); 17] = [
        (examples::GROWTH, reports::GROWTH),
        (examples::SLOPE, reports::SLOPE),
        (examples::LINE, reports::LINE),
        (examples::BLASIUS, reports::BLASIUS),
        (examples::CHAZY, reports::CHAZY),
        (examples::PAINLEVE, reports::PAINLEVE),
        (examples::HEAT, reports::HEAT),
        (examples::BURGERS, reports::BURGERS),
        (examples::FISHER, reports::FISHER),
        (examples::KORTEWEG_DE_VRIES, reports::KORTEWEG_DE_VRIES),
        (examples::BOUSSINESQ, reports::BOUSSINESQ),
        (examples::LAPLACE, reports::LAPLACE),
        (examples::WAVE, reports::WAVE),
        (
            examples::KADOMTSEV_PETVIASHVILI,
            reports::KADOMTSEV_PETVIASHVILI,
        ),
        (examples::LORENZ, reports::LORENZ),
        (examples::SCHROEDINGER, reports::SCHROEDINGER),
        (examples::EULER, reports::EULER),
    ];
    for (file, report) in rows {
        puts(&rt, alloc, &["determine", "f"], file, report)?;
    }
    Ok(())
}

#[test]
fn symmetries_of_examples_are_known(rt: HostRuntime) -> Result<(), Fail> {
    let alloc = rt.alloc();
    let rows: [(&[u8], &str); 17] = [
        (examples::GROWTH, "u*d_u"),
        (examples::SLOPE, "x*d_x + 2*u*d_u"),
        (examples::LINE, "x^2*d_x + x*y*d_y"),
        (examples::BLASIUS, "x*d_x - u*d_u"),
        (examples::CHAZY, "x^2*d_x - 2*x*u*d_u - 6*d_u"),
        (examples::PAINLEVE, "0"),
        (examples::HEAT, "x*d_x + 2*t*d_t"),
        (examples::BURGERS, "t*d_x + d_u"),
        (examples::FISHER, "d_x + d_t"),
        (examples::KORTEWEG_DE_VRIES, "x*d_x + 3*t*d_t - 2*u*d_u"),
        (examples::BOUSSINESQ, "x*d_x + 2*t*d_t - 2*u*d_u"),
        (examples::LAPLACE, "x^2*d_x - y^2*d_x + 2*x*y*d_y"),
        (examples::WAVE, "y*d_x - x*d_y"),
        (examples::KADOMTSEV_PETVIASHVILI, "t*d_x + d_u"),
        (examples::LORENZ, "d_t"),
        (examples::SCHROEDINGER, "v*d_u - u*d_v"),
        (examples::EULER, "t*d_x + d_u"),
    ];
    for (file, field) in rows {
        puts(&rt, alloc, &["check", "f", field], file, b"yes\n")?;
    }
    Ok(())
}

#[test]
fn other_fields_on_ordinary_examples_fail(rt: HostRuntime) -> Result<(), Fail> {
    let alloc = rt.alloc();
    let rows: [(&[u8], &str, &[u8]); 7] = [
        (examples::GROWTH, "d_u", b"no equation 1 remainder -1\n"),
        (examples::SLOPE, "u*d_u", b"no equation 1 remainder x\n"),
        (
            examples::LINE,
            "y^2*d_x",
            b"no equation 1 remainder -2*y_x^3\n",
        ),
        (
            examples::BLASIUS,
            "u*d_u",
            b"no equation 1 remainder 2*u*u_xx\n",
        ),
        (examples::CHAZY, "d_u", b"no equation 1 remainder -2*u_xx\n"),
        (examples::PAINLEVE, "d_x", b"no equation 1 remainder -1\n"),
        (examples::LORENZ, "x*d_x", b"no equation 1 remainder 10*y\n"),
    ];
    for (file, field, line) in rows {
        puts(&rt, alloc, &["check", "f", field], file, line)?;
    }
    Ok(())
}

#[test]
fn other_fields_on_evolution_examples_fail(rt: HostRuntime) -> Result<(), Fail> {
    let alloc = rt.alloc();
    let rows: [(&[u8], &str, &[u8]); 5] = [
        (
            examples::HEAT,
            "x*d_x + t*d_t",
            b"no equation 1 remainder u_xx\n",
        ),
        (
            examples::BURGERS,
            "u*d_u",
            b"no equation 1 remainder u*u_x\n",
        ),
        (examples::FISHER, "u*d_u", b"no equation 1 remainder u^2\n"),
        (
            examples::KORTEWEG_DE_VRIES,
            "u*d_u",
            b"no equation 1 remainder u*u_x\n",
        ),
        (
            examples::BOUSSINESQ,
            "d_u",
            b"no equation 1 remainder u_xx\n",
        ),
    ];
    for (file, field, line) in rows {
        puts(&rt, alloc, &["check", "f", field], file, line)?;
    }
    Ok(())
}

#[test]
fn other_fields_on_examples_of_more_variables_fail(rt: HostRuntime) -> Result<(), Fail> {
    let alloc = rt.alloc();
    let rows: [(&[u8], &str, &[u8]); 5] = [
        (
            examples::LAPLACE,
            "x*d_x",
            b"no equation 1 remainder 2*u_yy\n",
        ),
        (
            examples::WAVE,
            "y*d_x + x*d_y",
            b"no equation 1 remainder 4*u_xy\n",
        ),
        (
            examples::KADOMTSEV_PETVIASHVILI,
            "y*d_x",
            b"no equation 1 remainder -2*u_xy\n",
        ),
        (
            examples::SCHROEDINGER,
            "u*d_v",
            b"no equation 1 remainder u^3 + 3*u*v^2 + u_xx\n",
        ),
        (examples::EULER, "t*d_x", b"no equation 2 remainder v_y\n"),
    ];
    for (file, field, line) in rows {
        puts(&rt, alloc, &["check", "f", field], file, line)?;
    }
    Ok(())
}
