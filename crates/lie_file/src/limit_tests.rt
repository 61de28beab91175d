// Files at the limits, with places from a model that was written apart.

use crate::read_system;
use crate::tests::{fault_of, file_of, wants_fault};
use lie_scan::fault::{BadFile, BadKind, ReadFail};
use std::process::Abort;
use std::test::Fail;

#[test]
fn equations_are_at_most_sixteen(rt: HostRuntime) -> Result<(), Fail> {
    let mut text = file_of(rt.alloc(), b"eq u_x = 0\n".as_slice(), 16)?;
    let system = read_system(
        rt.alloc(),
        file_of(rt.alloc(), b"eq u_x = u^32\n".as_slice(), 16)?.as_slice(),
    );
    assert!(rt;
        matches!(
            system,
            Err(ReadFail::Bad(BadFile {
                line: 20,
                column: 1,
                kind: BadKind::EndMissing
            }))
        )
    );
    for further in [b"eq u_x = 0\n".as_slice(), b"eq ?\n".as_slice()] {
        text.extend_from_slice(further)?;
        let kind = BadKind::TooManyEquations;
        assert!(rt;
            fault_of(rt.alloc(), text.as_slice())
                == Some(BadFile {
                    line: 20,
                    column: 1,
                    kind
                })
        );
    }
    let mut skipped = file_of(rt.alloc(), b"eq u_x = 0\r\n".as_slice(), 16)?;
    skipped.extend_from_slice(b"\n # c\n  eq u = v\n".as_slice())?;
    wants_fault(
        &rt,
        rt.alloc(),
        skipped.as_slice(),
        22,
        3,
        BadKind::TooManyEquations,
    );
    Ok(())
}

#[test]
fn texts_have_at_most_65536_bytes(rt: HostRuntime) -> Result<(), Fail> {
    let mut text = Vec::new(rt.alloc());
    text.extend_from_slice(b"lie 1\r\nvars x\ndeps u\neq u_x = u^32\nend\n".as_slice())?;
    for _ in text.len()..65_536 {
        text.push(b'\n')?;
    }
    let system = read_system(rt.alloc(), text.as_slice())
        .ok()
        .ok_or("the file is read")?;
    assert_eq!(rt; system.names.bytes(), b"xu".as_slice());
    assert_eq!(rt; system.equations.len(), 1);
    text.push(b'\n')?;
    let kind = BadKind::TooLong;
    assert!(rt;
        fault_of(rt.alloc(), text.as_slice())
            == Some(BadFile {
                line: 1,
                column: 1,
                kind
            })
    );
    Ok(())
}

#[test]
fn texts_past_65536_bytes_are_too_long(rt: HostRuntime) -> Result<(), Fail> {
    let mut blank = Vec::new(rt.alloc());
    for _ in 0..65_535 {
        blank.push(b'\n')?;
    }
    blank.push(1)?;
    wants_fault(
        &rt,
        rt.alloc(),
        blank.as_slice(),
        65_536,
        1,
        BadKind::NotAscii,
    );
    blank.push(b'\n')?;
    wants_fault(&rt, rt.alloc(), blank.as_slice(), 1, 1, BadKind::TooLong);
    blank.push(0)?;
    wants_fault(&rt, rt.alloc(), blank.as_slice(), 1, 1, BadKind::TooLong);
    Ok(())
}
