// Reports read back, and texts that are not quite one.
use crate::{read_report, texts_have_one_report};
use lie_report::write_report;
use std::alloc::{AllocError, Global};
use std::test::Fail;

const DETERMINING: &[u8] =
    b"lie determining 1\nvars x\ndeps u\nfree f1(x,u)\nfree f2(x,u)\ngeneral x = f1\ngeneral u = f2\n\
    remaining 1\nf2_x + u*f2_u - u*f1_x - u^2*f1_u - f2 = 0\nend\n";

const SYMMETRIES: &[u8] =
    b"lie symmetries 1, polynomial components only\nvars x t\ndeps u\nfree f1()\nfree f2()\nfree f3()\nfree f4()\n\
    free f5()\ngeneral x = x*t*f4 + t*f3 + x*f2 + f1\ngeneral t = f5 + t^2*f4 + 2*t*f2\ngeneral u = -t*u*f4 + x*f4 + f3 - u*f2\n\
    remaining 0\ngenerators 5\nv1 = d_x\nv2 = x*d_x + 2*t*d_t - u*d_u\nv3 = t*d_x + d_u\n\
    v4 = x*t*d_x + t^2*d_t - t*u*d_u + x*d_u\nv5 = d_t\ncommutators 10\n[v1,v2] = v1\n[v1,v3] = 0\n[v1,v4] = v3\n[v1,v5] = 0\n\
    [v2,v3] = v3\n[v2,v4] = 2*v4\n[v2,v5] = -2*v5\n[v3,v4] = 0\n[v3,v5] = -v1\n[v4,v5] = -v2\nend\n";

const HALVES: &[u8] =
    b"lie symmetries 1, polynomial components only\nvars x\ndeps u\nfree f1()\nfree f2()\ngeneral x = f1\n\
    general u = 3*u^12*f2\nremaining 0\ngenerators 2\nv1 = 2*d_x\nv2 = 3*u^12*d_u - d_u\ncommutators 1\n[v1,v2] = -1/2*v1 + 13/7*v2\n\
    end\n";

const NO_BASIS: &[u8] =
    b"lie symmetries 1, polynomial components only\nvars x\ndeps u\nfree f1(x,u)\ngeneral x = f1\n\
    general u = u*f1\nremaining 0\ngenerators -\ncommutators -\nend\n";

const DEGREE: &[u8] =
    b"lie degree 1\nvars x\ndeps u\ndegree 2\ngenerators 3\nv1 = d_x\nv2 = x*d_x - 2*u*d_u\nv3 = u*d_x\nend\n";

// Whether the bytes are read as a report that has them as its text.
fn is_read(alloc: Global, bytes: &[u8]) -> bool {
    match read_report(alloc, bytes) {
        Ok(Some(report)) => match write_report(alloc, &report) {
            Ok(text) => text.as_slice() == bytes,
            Err(_) => false,
        },
        _ => false,
    }
}

// The bytes, one of them changed.
fn changed(alloc: Global, bytes: &[u8], at: usize) -> Result<Vec<u8>, AllocError> {
    let mut text = Vec::new(alloc);
    for (i, byte) in bytes.iter().enumerate() {
        text.push(if i == at { byte ^ 1 } else { *byte })?;
    }
    Ok(text)
}

// Whether the bytes with one of them changed are the text of no report, or of the one that is read.
fn is_other(alloc: Global, bytes: &[u8], at: usize) -> bool {
    match changed(alloc, bytes, at) {
        Ok(text) => is_none(alloc, text.as_slice()) || is_read(alloc, text.as_slice()),
        Err(_) => false,
    }
}

// Whether the bytes are read as the text of no report.
fn is_none(alloc: Global, bytes: &[u8]) -> bool {
    match read_report(alloc, bytes) {
        Ok(None) => true,
        _ => false,
    }
}

#[test]
fn reports_are_read_back(rt: HostRuntime) -> Result<(), Fail> {
    texts_have_one_report();
    assert!(rt; is_read(rt.alloc(), DETERMINING));
    assert!(rt; is_read(rt.alloc(), SYMMETRIES));
    assert!(rt; is_read(rt.alloc(), HALVES));
    assert!(rt; is_read(rt.alloc(), NO_BASIS));
    assert!(rt; is_read(rt.alloc(), DEGREE));
    Ok(())
}

#[test]
fn other_texts_are_none(rt: HostRuntime) -> Result<(), Fail> {
    let alloc = rt.alloc();
    assert!(rt; is_none(alloc, b""));
    assert!(rt;
        is_none(
            alloc,
            b"lie determining 1\nvars x\ndeps u\nfree f1(x,u)\nfree f2(x,u)\ngeneral x = f1\ngeneral u = f2\n\
        remaining 1\nf2_x + u*f2_u - u*f1_x - u^2*f1_u -f2 = 0\nend\n"
        )
    );
    assert!(rt;
        is_none(
            alloc,
            b"lie degree 1\nvars x\ndeps u\ndegree 2\ngenerators 1\nv1 = d_x\nend\nend\n"
        )
    );
    assert!(rt;
        is_none(
            alloc,
            b"lie degree 1\nvars x\ndeps u\ndegree 2\ngenerators 1\nv1 =  d_x\nend\n"
        )
    );
    assert!(rt;
        is_none(
            alloc,
            b"lie degree 1\nvars x\ndeps u\ndegree 256\ngenerators 1\nv1 = d_x\nend\n"
        )
    );
    assert!(rt;
        is_none(
            alloc,
            b"lie degree 1\nvars x\ndeps u\ndegree 2\ngenerators 1\nv1 = d_t\nend\n"
        )
    );
    Ok(())
}

#[test]
fn another_byte_is_another_report(rt: HostRuntime) -> Result<(), Fail> {
    for at in 0..DETERMINING.len() {
        assert!(rt; is_other(rt.alloc(), DETERMINING, at));
    }
    for at in 0..HALVES.len() {
        assert!(rt; is_other(rt.alloc(), HALVES, at));
    }
    for at in 0..DEGREE.len() {
        assert!(rt; is_other(rt.alloc(), DEGREE, at));
    }
    Ok(())
}
