// The codes and the lines of statuses.
use lie_app::{Source, Status, code, line};
use lie_ring::PastKind;
use lie_scan::fault::{BadFile, BadKind};
use lie_solved::NotKind;
use std::process::Abort;

// A status has this code and this line.
fn told(rt: &impl Abort, status: Status, number: u8, text: &[u8]) {
    assert_eq!(rt; code(&status), number);
    assert_eq!(rt; line(&status).as_str().as_bytes(), text);
}

#[test]
fn faults_have_their_code_and_line(rt: HostRuntime) {
    let order = BadFile {
        line: 4,
        column: 65_536,
        kind: BadKind::TooManyEquations,
    };
    let name = BadFile {
        line: 1,
        column: 10,
        kind: BadKind::UnknownName,
    };
    told(
        &rt,
        Status::Bad(Source::File, order),
        3,
        b"lie: file: TooManyEquations at 4:65536\n",
    );
    told(
        &rt,
        Status::Bad(Source::Field, name),
        3,
        b"lie: field: UnknownName at 1:10\n",
    );
}

#[test]
fn each_other_status_has_its_code_and_line(rt: HostRuntime) {
    let past = Status::Past {
        step: 0,
        what: PastKind::Coefficient,
    };
    told(&rt, Status::Done, 0, b"");
    told(&rt, Status::Usage, 2, b"lie: usage\n");
    told(
        &rt,
        Status::Not(NotKind::LeadInside, 16),
        4,
        b"lie: not solved: LeadInside in equation 16\n",
    );
    told(&rt, past, 5, b"lie: past Coefficient at step 0\n");
    told(
        &rt,
        Status::Spent { steps: 300 },
        6,
        b"lie: spent 300 steps\n",
    );
    told(&rt, Status::NoMemory, 7, b"lie: no memory\n");
    told(&rt, Status::ReadFault, 8, b"lie: read fault\n");
    told(&rt, Status::WriteFault, 9, b"lie: write fault\n");
    told(&rt, Status::Missing, 12, b"lie: missing\n");
}
