// The service over a link in memory: what each connection is answered, which studies are kept, and calls that fail.
use lie_app::{code, run};
use lie_keep::MemoryKeeper;
use lie_outer::{Bytes, MemoryFiles, MemoryLink, MemorySink};
use std::alloc::Global;
use std::process::Abort;
use std::test::Fail;

const STUDY: &[u8] = b"POST /study/a HTTP/1.1\r\nContent-Length: 35\r\n\r\n\
    lie 1\nvars x\ndeps u\neq u_x = 0\nend\n";

const ANALYSE: &[u8] = b"POST /analyse HTTP/1.1\r\nContent-Length: 35\r\n\r\n\
    lie 1\nvars x\ndeps u\neq u_x = 0\nend\n";

const LIST: &[u8] = b"GET /study HTTP/1.1\r\n\r\n";

const REPORT: &[u8] =
    b"Content-Length: 156\r\nContent-Type: text/plain\r\nConnection: close\r\n\r\n\
    lie symmetries 1, polynomial components only\nvars x\ndeps u\nfree f1(x,u)\nfree f2(u)\n\
    general x = f1\ngeneral u = f2\nremaining 0\ngenerators -\ncommutators -\nend\n";

const NAMES: &[u8] =
    b"Content-Length: 15\r\nContent-Type: application/json\r\nConnection: close\r\n\r\n\
    {\"names\":[\"a\"]}";

const NO_NAMES: &[u8] =
    b"Content-Length: 12\r\nContent-Type: application/json\r\nConnection: close\r\n\r\n\
    {\"names\":[]}";

// What is asked on a connection.
#[derive(Clone, Copy)]
enum Request {
    Study,
    Analyse,
    List,
}

// The bytes of a request.
fn bytes_of(request: Request) -> &'static [u8] {
    match request {
        Request::Study => STUDY,
        Request::Analyse => ANALYSE,
        Request::List => LIST,
    }
}

// What is answered on a connection.
#[derive(Clone, Copy)]
enum Answer {
    Nothing,
    NewReport,
    Report,
    Names,
    NoNames,
}

// Whether the bytes are those of an answer.
fn is_answer(bytes: &[u8], answer: Answer) -> bool {
    match answer {
        Answer::Nothing => bytes.len() == 0,
        Answer::NewReport => bytes.starts_with(b"HTTP/1.1 201 Created\r\n")
            && bytes.ends_with(REPORT),
        Answer::Report => bytes.starts_with(b"HTTP/1.1 200 OK\r\n") && bytes.ends_with(REPORT),
        Answer::Names => bytes.starts_with(b"HTTP/1.1 200 OK\r\n") && bytes.ends_with(NAMES),
        Answer::NoNames => bytes.starts_with(b"HTTP/1.1 200 OK\r\n") && bytes.ends_with(NO_NAMES),
    }
}

// A service of two connections over an empty desk, where these calls of the link fail, ends with this exit code, puts or tells this line,
// and has these answers.
fn serves(
    rt: &impl Abort,
    alloc: Global,
    requests: [Request; 2],
    fails: &[u64],
    number: u8,
    line: &str,
    answers: &[Answer],
) -> Result<(), Fail> {
    let mut words = Vec::new(alloc);
    for word in ["serve", "here", "--count", "2"] {
        words.push(String::from_str(alloc, word)?)?;
    }
    let mut coming = Vec::new(alloc);
    for request in requests {
        coming.push(vec![in alloc; Bytes::of(alloc, bytes_of(request))?]?)?;
    }
    let mut link = MemoryLink::new(coming, fails.to_vec(alloc)?);
    let mut keeper = MemoryKeeper::new(Vec::new(alloc), Vec::new(alloc));
    let mut files = MemoryFiles::new(Vec::new(alloc), Vec::new(alloc));
    let mut out = MemorySink::new(Bytes::of(alloc, b"")?, Vec::new(alloc));
    let mut err = MemorySink::new(Bytes::of(alloc, b"")?, Vec::new(alloc));
    let status = run(
        alloc,
        &words,
        &mut files,
        &mut out,
        &mut err,
        &mut keeper,
        &mut link,
    );
    assert_eq!(rt; code(&status), number);
    let told = if number == 0 {
        out.taken()
    } else {
        err.taken()
    };
    assert_eq!(rt; told, line.as_bytes());
    assert_eq!(rt; link.closed().len(), answers.len());
    for (bytes, answer) in link.closed().iter().zip(answers.iter()) {
        assert!(rt; is_answer(bytes.bytes(), *answer));
    }
    Ok(())
}

#[test]
fn connections_are_answered(rt: HostRuntime) -> Result<(), Fail> {
    // The requests, the calls of the link that fail, and then the code, the line and the answers. The first call listens, the second
    // opens a connection, the third reads, and the fifth opens the next.
    let twice = [Request::Study, Request::Study];
    let rows: [([Request; 2], &[u64], u8, &str, &[Answer]); 7] = [
        (
            twice,
            &[],
            0,
            "served 2\n",
            &[Answer::NewReport, Answer::Report],
        ),
        (
            [Request::Study, Request::List],
            &[],
            0,
            "served 2\n",
            &[Answer::NewReport, Answer::Names],
        ),
        (
            [Request::Analyse, Request::List],
            &[],
            0,
            "served 2\n",
            &[Answer::Report, Answer::NoNames],
        ),
        (
            twice,
            &[3],
            0,
            "served 2\n",
            &[Answer::Nothing, Answer::NewReport],
        ),
        (twice, &[5], 11, "lie: link fault\n", &[Answer::NewReport]),
        (twice, &[1], 11, "lie: link fault\n", &[]),
        (twice, &[2], 11, "lie: link fault\n", &[]),
    ];
    for (requests, fails, number, line, answers) in rows {
        serves(&rt, rt.alloc(), requests, fails, number, line, answers)?;
    }
    Ok(())
}
