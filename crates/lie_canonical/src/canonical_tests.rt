// Canonical texts, as a model that was written apart gives them.

use crate::canonical;
use lie_bytes::Text;
use lie_file::read_system;
use lie_jet::Jet;
use std::alloc::Global;
use std::process::Abort;

// The canonical text of a file; None where it has a fault or memory runs out.
fn canonical_of(alloc: Global, file: &[u8]) -> Option<Text> {
    let system = read_system(alloc, file).ok()?;
    canonical(alloc, &system).ok()
}

// The lead of the first equation of a file; None where there is none.
fn first_lead(alloc: Global, file: &[u8]) -> Option<Jet> {
    let system = read_system(alloc, file).ok()?;
    system.equations.as_slice().first()?.lead
}

// The file has this canonical text, and so has that text itself.
fn wants_text(rt: &impl Abort, alloc: Global, file: &[u8], text: &[u8]) {
    match canonical_of(alloc, file) {
        Some(found) => assert_eq!(rt; found.bytes(), text),
        None => panic!(rt; "a canonical text"),
    }
    match canonical_of(alloc, text) {
        Some(found) => assert_eq!(rt; found.bytes(), text),
        None => panic!(rt; "a canonical text of a canonical text"),
    }
}

#[test]
fn files_have_their_canonical_texts(rt: HostRuntime) {
    let alloc = rt.alloc();
    wants_text(
        &rt,
        alloc,
        b"lie 1\nvars x t\ndeps u\neq u_t + u*u_x + u_xxx = 0\nend\n",
        b"lie 1\nvars x t\ndeps u\neq u*u_x + u_t + u_xxx = 0\nend\n",
    );
    wants_text(
        &rt,
        alloc,
        b"lie 1\nvars x y t\ndeps u v p\neq u_x=-v_y\neq u_t = u*v_y - v*u_y - p_x\neq v_t = -u*v_x - v*v_y - p_y\nend",
        b"lie 1\nvars x y t\ndeps u v p\neq u_x = -v_y\neq u_t = u*v_y - v*u_y - p_x\neq v_t = -u*v_x - v*v_y - p_y\nend\n",
    );
    wants_text(
        &rt,
        alloc,
        b"lie 1\nvars x y t\ndeps u v p\neq u_x = -v_y\neq u_t = -p_x - u*u_x - v*u_y\neq v_t = -u*v_x - v*v_y - p_y\nend\n",
        b"lie 1\nvars x y t\ndeps u v p\neq u_x = -v_y\neq u_t = -u*u_x - v*u_y - p_x\neq v_t = -u*v_x - v*v_y - p_y\nend\n",
    );
    wants_text(
        &rt,
        alloc,
        b"lie 1\nvars x y t\ndeps u\neq u_tt = u_yy + u_xx\nend\n",
        b"lie 1\nvars x y t\ndeps u\neq u_tt = u_xx + u_yy\nend\n",
    );
    wants_text(
        &rt,
        alloc,
        b"lie 1 # c\n\nvars  x t\ndeps u\r\neq 2*t^2*u_tx - 3 + x = + u*u - 007*u^3*x # c\nend",
        b"lie 1\nvars x t\ndeps u\neq 7*x*u^3 + 2*t^2*u_xt - u^2 + x - 3 = 0\nend\n",
    );
    wants_text(
        &rt,
        alloc,
        b"lie 1\nvars x t\ndeps u\neq 0 + u_xt = 0\neq u_t - u = u_t\neq u_x + 1 = 1\nend\n",
        b"lie 1\nvars x t\ndeps u\neq u_xt = 0\neq -u = 0\neq u_x = 0\nend\n",
    );
}

#[test]
fn leads_stand_also_in_their_right_sides(rt: HostRuntime) {
    let alloc = rt.alloc();
    wants_text(
        &rt,
        alloc,
        b"lie 1\nvars x t\ndeps u\neq u_t = 2*u_t + 170141183460469231731687303715884105724*u_t\nend\n",
        b"lie 1\nvars x t\ndeps u\neq u_t = 170141183460469231731687303715884105726*u_t\nend\n",
    );
    wants_text(
        &rt,
        alloc,
        b"lie 1\nvars x t\ndeps u\neq u_t = -170141183460469231731687303715884105726*u_t\nend\n",
        b"lie 1\nvars x t\ndeps u\neq u_t = -170141183460469231731687303715884105726*u_t\nend\n",
    );
    wants_text(
        &rt,
        alloc,
        b"lie 1\nvars x t\ndeps u\neq u_t = u_t + x\neq u_t = u_t\neq u_t = u_xx + u_x^2*x - u_t*x + 5 + u_t\nend\n",
        b"lie 1\nvars x t\ndeps u\neq u_t = x + u_t\neq u_t = u_t\neq u_t = x*u_x^2 - x*u_t + u_t + u_xx + 5\nend\n",
    );
}

#[test]
fn derivative_alone_comes_back_as_lead(rt: HostRuntime) {
    let alloc = rt.alloc();
    let written = b"lie 1\nvars x t\ndeps u\neq 0 + u_xt = 0\nend\n";
    let printed = b"lie 1\nvars x t\ndeps u\neq u_xt = 0\nend\n";
    assert!(&rt; first_lead(alloc, written).is_none());
    assert_eq!(&rt;
        first_lead(alloc, printed),
        Some(Jet {
            dep: 0,
            counts: [1, 1, 0, 0]
        })
    );
    assert!(&rt; first_lead(alloc, b"lie 1\nvars x t\ndeps u\neq u + u_xt = 0\nend\n").is_none());
}
