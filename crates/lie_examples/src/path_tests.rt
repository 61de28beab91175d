// The whole path of both commands over fakes, with ample memory and with texts from a model that was written apart.
use crate::outcome_tests::check;
use lie_app::{Source, Status};
use lie_ring::PastKind;
use lie_scan::fault::{BadFile, BadKind};
use std::alloc::Global;
use std::process::Abort;
use std::test::Fail;

const GROWTH: &[u8] = b"lie 1\nvars x\ndeps u\neq u_x = u\nend\n";

const GROWTH_REPORT: &[u8] = b"lie determining 1\nvars x\ndeps u\nfree f1(x,u)\nfree f2(x,u)\n\
    general x = f1\ngeneral u = f2\nremaining 1\nf2_x + u*f2_u - u*f1_x - u^2*f1_u - f2 = 0\nend\n";

const LINE: &[u8] = b"lie 1\nvars x\ndeps y\neq y_xx = 0\nend\n";

const LINE_REPORT: &[u8] = b"lie determining 1\nvars x\ndeps y\nfree f1(x,y)\nfree f2(x,y)\n\
    general x = f1\ngeneral y = f2\nremaining 4\nf1_yy = 0\nf2_xx = 0\nf2_yy - 2*f1_xy = 0\n\
    2*f2_xy - f1_xx = 0\nend\n";

const CONSTANT: &[u8] = b"lie 1\nvars x\ndeps u\neq u_x = 0\nend\n";

const CONSTANT_REPORT: &[u8] = b"lie determining 1\nvars x\ndeps u\nfree f1(x,u)\nfree f2(x,u)\n\
    general x = f1\ngeneral u = f2\nremaining 1\nf2_x = 0\nend\n";

const WAVES: &[u8] = b"lie 1\nvars x t\ndeps u\neq u_t + u*u_x + u_xxx = 0\nend\n";

const BURGERS: &[u8] = b"lie 1\nvars x t\ndeps u\neq u_t = u_xx + u*u_x\nend\n";

const EULER: &[u8] = b"lie 1\nvars x y t\ndeps u v p\neq u_x = -v_y\neq u_t = u*v_y - v*u_y - p_x\n\
    eq v_t = -u*v_x - v*v_y - p_y\nend\n";

// A call that puts this text.
pub fn puts(
    rt: &impl Abort,
    alloc: Global,
    words: &[&str],
    file: &[u8],
    text: &[u8],
) -> Result<(), Fail> {
    let want = (&Status::Done, text, b"".as_slice());
    check(rt, alloc, words, file, (&[], &[]), want)
}

// A call that tells this line.
pub fn tells(
    rt: &impl Abort,
    alloc: Global,
    words: &[&str],
    file: &[u8],
    status: Status,
    line: &[u8],
) -> Result<(), Fail> {
    check(rt, alloc, words, file, (&[], &[]), (&status, b"", line))
}

#[test]
fn systems_are_determined(rt: HostRuntime) -> Result<(), Fail> {
    let alloc = rt.alloc();
    puts(&rt, alloc, &["determine", "f"], GROWTH, GROWTH_REPORT)?;
    puts(&rt, alloc, &["determine", "f"], LINE, LINE_REPORT)?;
    puts(&rt, alloc, &["determine", "f"], CONSTANT, CONSTANT_REPORT)
}

#[test]
fn longest_file_is_determined(rt: HostRuntime) -> Result<(), Fail> {
    let alloc = rt.alloc();
    let mut long = CONSTANT.to_vec(alloc)?;
    for _ in CONSTANT.len()..65_536 {
        long.push(b'\n')?;
    }
    puts(&rt, alloc, &["determine", "f"], &long, CONSTANT_REPORT)
}

#[test]
fn fields_are_checked(rt: HostRuntime) -> Result<(), Fail> {
    let alloc = rt.alloc();
    let yes = b"yes\n";
    let scaling = "x*d_x + 3*t*d_t - 2*u*d_u";
    puts(&rt, alloc, &["check", "f", scaling], WAVES, yes)?;
    puts(&rt, alloc, &["check", "f", "0"], WAVES, yes)?;
    puts(&rt, alloc, &["check", "f", "--", "-d_x"], WAVES, yes)?;
    let scaling = "1/2*x*d_x + t*d_t - 1/2*u*d_u";
    puts(&rt, alloc, &["check", "f", scaling], BURGERS, yes)?;
    puts(&rt, alloc, &["check", "f", "t*d_x + d_u"], EULER, yes)?;
    let other = "x*d_x + 3*t*d_t - u*d_u";
    let no = b"no equation 1 remainder u*u_x\n";
    puts(&rt, alloc, &["check", "f", other], WAVES, no)
}

#[test]
fn fault_of_a_field_is_told(rt: HostRuntime) -> Result<(), Fail> {
    let bad = BadFile {
        line: 1,
        column: 3,
        kind: BadKind::UnknownName,
    };
    let line = b"lie: field: UnknownName at 1:3\n";
    let status = Status::Bad(Source::Field, bad);
    tells(
        &rt,
        rt.alloc(),
        &["check", "f", "x*d_w"],
        WAVES,
        status,
        line,
    )
}

// The square of the lead v_x is replaced, the terms without it are multiplied by the square of its factor, and those with u_x go.
const POWERS: &[u8] = b"lie 1\nvars x\ndeps u v\neq u_x = 0\neq 2*v_x = u\nend\n";

#[test]
fn powers_of_leads_are_replaced(rt: HostRuntime) -> Result<(), Fail> {
    let alloc = rt.alloc();
    let no = b"no equation 2 remainder -2*u^3\n";
    puts(&rt, alloc, &["check", "f", "u*v*d_x"], POWERS, no)?;
    let no = b"no equation 2 remainder -6*u^3\n";
    let field = "u*v*d_x + u^3*d_u";
    puts(&rt, alloc, &["check", "f", field], POWERS, no)?;
    let field = "u*v*d_x - 1/2*u^3*d_u";
    puts(&rt, alloc, &["check", "f", field], POWERS, b"yes\n")
}

// The coefficient past 2^127 - 1.
fn is_past(rt: &impl Abort, alloc: Global, words: &[&str], file: &[u8]) -> Result<(), Fail> {
    let past = Status::Past {
        step: 0,
        what: PastKind::Coefficient,
    };
    let line = b"lie: past Coefficient at step 0\n";
    tells(rt, alloc, words, file, past, line)
}

// The square of the number, and three times the number of the field, are the last within the limit.
const WITHIN: &[u8] = b"lie 1\nvars x\ndeps u\neq u_x = 13043817825332782212*u\nend\n";

const WITHIN_REPORT: &[u8] = b"lie determining 1\nvars x\ndeps u\nfree f1(x,u)\nfree f2(x,u)\n\
    general x = f1\ngeneral u = f2\nremaining 1\nf2_x + 13043817825332782212*u*f2_u - \
    13043817825332782212*u*f1_x - 170141183460469231722567801800623612944*u^2*f1_u - \
    13043817825332782212*f2 = 0\nend\n";

const PAST: &[u8] = b"lie 1\nvars x\ndeps u\neq u_x = 13043817825332782213*u\nend\n";

#[test]
fn coefficients_have_a_limit(rt: HostRuntime) -> Result<(), Fail> {
    let alloc = rt.alloc();
    puts(&rt, alloc, &["determine", "f"], WITHIN, WITHIN_REPORT)?;
    is_past(&rt, alloc, &["determine", "f"], PAST)?;
    puts(&rt, alloc, &["check", "f", "u*d_u"], PAST, b"yes\n")?;
    is_past(
        &rt,
        alloc,
        &["check", "f", "13043817825332782212*u*d_u"],
        WITHIN,
    )?;
    let field = "13043817825332782212*u*d_u";
    let text = b"no equation 1 remainder 13043817825332782212*u*u_x\n";
    puts(&rt, alloc, &["check", "f", field], WAVES, text)?;
    let field = "56713727820156410577229101238628035242*u*d_u";
    let text = b"no equation 1 remainder 56713727820156410577229101238628035242*u*u_x\n";
    puts(&rt, alloc, &["check", "f", field], WAVES, text)?;
    let field = "56713727820156410577229101238628035243*u*d_u";
    is_past(&rt, alloc, &["check", "f", field], WAVES)
}

// For u*d_t the terms with the square of the number cancel, but their absolute values are past the limit from 2^63 on.
const ALMOST: &[u8] = b"lie 1\nvars x t\ndeps u\neq u_t = 4611686018427387904*u_xx + u*u_x\nend\n";

const TOO_FAR: &[u8] = b"lie 1\nvars x t\ndeps u\neq u_t = 9223372036854775808*u_xx + u*u_x\nend\n";

#[test]
fn limits_are_those_of_absolute_values(rt: HostRuntime) -> Result<(), Fail> {
    let alloc = rt.alloc();
    let no = b"no equation 1 remainder 9223372036854775808*u_x*u_xt\n";
    puts(&rt, alloc, &["check", "f", "u*d_t"], ALMOST, no)?;
    is_past(&rt, alloc, &["check", "f", "u*d_t"], TOO_FAR)
}

#[test]
fn fault_of_writing_is_told(rt: HostRuntime) -> Result<(), Fail> {
    let words: &[&str] = &["determine", "f"];
    let want = (
        &Status::WriteFault,
        b"".as_slice(),
        b"lie: write fault\n".as_slice(),
    );
    check(&rt, rt.alloc(), words, GROWTH, (&[], &[1]), want)
}
