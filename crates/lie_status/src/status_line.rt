// The line of a status on the error stream, which takes no memory.
ghost use Rattle.std.specs.Prelude.{◌≡◌, ◌≤◌, ◌+◌, ◌<◌, ◌^◌, ◌++◌, length, decimal, codes};
ghost use Rattle.arrayvec.specs.ArrayString.{array_string_len};
ghost use Rattle.lie_status.specs.Status.{bad_text, not_text, past_text, fault_line, not_line, past_line, spent_line, line_of, start_of};

use crate::status::Status;
use arrayvec::ArrayString;
use itoa::Buffer;
use lie_ring::PastKind;
use lie_scan::fault::{BadFile, BadKind};
use lie_solved::NotKind;
use lie_work::Source;

/// Room for any line.
pub type Line = ArrayString<80>;

// The name of a kind of fault.
fn bad_text(kind: BadKind) -> &'static str
    ensures text { result.now ≡ bad_text kind }
    ensures short { length result.now ≤ 16 }
{
    match kind {
        BadKind::TooLong => "TooLong",
        BadKind::NotAscii => "NotAscii",
        BadKind::Header => "Header",
        BadKind::UnknownWord => "UnknownWord",
        BadKind::NameBad => "NameBad",
        BadKind::NameTwice => "NameTwice",
        BadKind::UnknownName => "UnknownName",
        BadKind::Number => "Number",
        BadKind::Exponent => "Exponent",
        BadKind::Order => "Order",
        BadKind::TooManyNames => "TooManyNames",
        BadKind::TooManyEquations => "TooManyEquations",
        BadKind::Syntax => "Syntax",
        BadKind::EndMissing => "EndMissing",
    }
}

// The name of a cause for which an equation cannot be solved.
fn not_text(kind: NotKind) -> &'static str
    ensures text { result.now ≡ not_text kind }
    ensures short { length result.now ≤ 16 }
{
    match kind {
        NotKind::NoDerivative => "NoDerivative",
        NotKind::LeadNotLinear => "LeadNotLinear",
        NotKind::LeadRepeated => "LeadRepeated",
        NotKind::LeadInside => "LeadInside",
    }
}

// The name of a limit.
fn past_text(kind: PastKind) -> &'static str
    ensures text { result.now ≡ past_text kind }
    ensures short { length result.now ≤ 16 }
{
    match kind {
        PastKind::Coefficient => "Coefficient",
        PastKind::Exponent => "Exponent",
        PastKind::Terms => "Terms",
        PastKind::Order => "Order",
        PastKind::Unknowns => "Unknowns",
        PastKind::Width => "Width",
    }
}

// What stands before the fault of a text.
fn start_of(source: Source) -> &'static str
    ensures text { result.now ≡ start_of source }
    ensures short { length result.now ≤ 12 }
{
    match source {
        Source::File => "lie: file: ",
        Source::Field => "lie: field: ",
    }
}

// A line that begins with a text.
fn begun(text: &str) -> Line
    requires { length text.now ≤ 20 }
    ensures text { result.bytes ≡ text.now }
    ensures len { array_string_len result ≤ 20 }
{
    let mut line = Line::new();
    line.push_str(text);
    line
}

// Appends a number in decimal digits.
fn push_number(line: &mut Line, number: u64)
    requires { array_string_len line.old ≤ 60 }
    ensures text { line.new.bytes ≡ line.old.bytes ++ decimal number }
    ensures len { array_string_len line.new ≤ array_string_len line.old + 20 }
{
    let mut buffer = Buffer::new();
    line.push_str(buffer.format(number));
}

// The line of the first fault of a text.
fn fault_line(source: Source, bad: &BadFile) -> Line
    ensures { result.bytes ≡ fault_line source bad.now }
{
    let mut line = begun(start_of(source));
    line.push_str(bad_text(bad.kind));
    line.push_str(" at ");
    push_number(&mut line, u64::from(bad.line));
    line.push_str(":");
    push_number(&mut line, u64::from(bad.column));
    line.push_str("\n");
    line
}

// The line of an equation that cannot be solved.
fn not_line(kind: NotKind, equation: u32) -> Line
    ensures { result.bytes ≡ not_line kind equation }
{
    let mut line = begun("lie: not solved: ");
    line.push_str(not_text(kind));
    line.push_str(" in equation ");
    push_number(&mut line, u64::from(equation));
    line.push_str("\n");
    line
}

// The line of a step that is past a limit.
fn past_line(kind: PastKind, step: u64) -> Line
    ensures { result.bytes ≡ past_line kind step }
{
    let mut line = begun("lie: past ");
    line.push_str(past_text(kind));
    line.push_str(" at step ");
    push_number(&mut line, step);
    line.push_str("\n");
    line
}

// The line of a run that made all steps that it may.
fn spent_line(steps: u64) -> Line
    ensures { result.bytes ≡ spent_line steps }
{
    let mut line = begun("lie: spent ");
    push_number(&mut line, steps);
    line.push_str(" steps\n");
    line
}

/// The line of the status on the error stream, with its end; empty for `Done`. Takes no memory.
pub fn line(status: &Status) -> Line
    ensures { result.bytes ≡ line_of status.now }
{
    match status {
        Status::Done => begun(""),
        Status::Usage => begun("lie: usage\n"),
        Status::Bad(source, bad) => fault_line(*source, bad),
        Status::Not(kind, equation) => not_line(*kind, *equation),
        Status::Past { step, what } => past_line(*what, *step),
        Status::Spent { steps } => spent_line(*steps),
        Status::NoMemory => begun("lie: no memory\n"),
        Status::ReadFault => begun("lie: read fault\n"),
        Status::WriteFault => begun("lie: write fault\n"),
        Status::KeeperFault => begun("lie: keeper fault\n"),
        Status::LinkFault => begun("lie: link fault\n"),
        Status::Missing => begun("lie: missing\n"),
        Status::Taken { .. } => begun("lie: taken\n"),
        Status::Full => begun("lie: full\n"),
    }
}
