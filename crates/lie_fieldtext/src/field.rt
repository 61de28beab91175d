// Reading field texts.
ghost use Rattle.std.specs.Prelude.{◌≡◌, ◌≤◌, ◌+◌, length, IfOk, Ok, Err};
ghost use Rattle.lie_math.specs.VectorField.{VectorField};
ghost use Rattle.lie_jet.specs.ValidFields.{IsValidField};
ghost use Rattle.lie_scan.specs.declared.fault.ReadFail.{ReadFail as AFault};
ghost use Rattle.lie_fieldtext.specs.FieldFaults.{IsFieldFault, IsFieldFaultToldOf, not_in_line_from};
ghost use Rattle.lie_fieldtext.specs.FieldGrammar.{IsFieldText, is_in_line};
ghost use Rattle.lie_fieldtext.specs.FieldReading.{read_terms};
ghost use Rattle.lie_scan.specs.ReadFails.{Answers};
ghost use Rattle.lie_scan.specs.Limits.{greatest_text_length};

use crate::field_parts::field_of;
use crate::field_sum::terms_of;
use crate::field_terms::FieldTerms;
use lie_jet::Field;
use lie_scan::fault::{BadKind, MAX_BYTES, ReadFail, bad};
use lie_scan::stop::LineFail;
use lie_system::System;
use std::alloc::Global;

// Whether a byte is allowed in a line: tab, and space to `~`.
fn is_in_line(byte: u8) -> bool
    ensures { result ≡ is_in_line byte }
{
    byte == b'\t' || (b' ' <= byte && byte <= b'~')
}

// The column of the first byte that is not allowed.
fn first_not_in_line(bytes: &[u8]) -> Option<usize>
    requires { length bytes.now ≤ greatest_text_length }
    ensures { result ≡ not_in_line_from 1 bytes.now }
{
    let mut column = 1;
    for byte in bytes {
        if !is_in_line(*byte) {
            return Some(column);
        }
        column += 1;
    }
    None
}

// The terms of bytes of one line, or their first fault.
#[tactic(auto, unfolding(crate::specs::FieldReading::read_terms))]
fn read_terms(alloc: Global, bytes: &[u8], names: &[u8]) -> Result<FieldTerms, ReadFail>
    requires { length names.now ≤ 8 }
    ensures { Answers (λ t. t.list.items) result (read_terms names.now bytes.now) }
{
    if MAX_BYTES < bytes.len() {
        return Err(bad(1, 1, BadKind::TooLong));
    }
    match first_not_in_line(bytes) {
        Some(column) => Err(bad(1, column, BadKind::NotAscii)),
        None => match terms_of(alloc, names, bytes) {
            Ok(terms) => Ok(terms),
            Err(LineFail::Fault(stop)) => {
                let column = bytes.len().saturating_sub(stop.left) + 1;
                Err(bad(1, column, stop.kind))
            }
            Err(LineFail::NoMemory) => Err(ReadFail::NoMemory),
        },
    }
}

/// The field whose text the bytes are, with the names of a system, or their first fault.
pub fn read_field(alloc: Global, bytes: &[u8], system: &System) -> Result<Field, ReadFail>
    // What is read is the text of the field, of at most 65,536 bytes.
    ensures found { IfOk result (λ field. IsFieldText system.now.space system.now.names bytes.now field
        × (length bytes.now ≤ greatest_text_length)) }
    // It is a field on the space, in lowest terms.
    ensures valid { IfOk result (IsValidField system.now.space) }
    // A text of at most 65,536 bytes is read as its field, unless memory runs out.
    ensures only { (V : VectorField) → IsFieldText system.now.space system.now.names bytes.now V
        → length bytes.now ≤ greatest_text_length → Answers (λ field. field) result (Ok V) }
    // A fault that is told is the first fault of the bytes.
    ensures fault { IsFieldFaultToldOf system.now.names bytes.now result }
    // The first fault is told, unless memory runs out.
    ensures stops { (f : AFault) → IsFieldFault system.now.names bytes.now f → Answers (λ field. field) result (Err f) }
{
    match read_terms(alloc, bytes, system.names.bytes()) {
        Ok(terms) => Ok(field_of(alloc, system.space, &terms)?),
        Err(fail) => Err(fail),
    }
}
