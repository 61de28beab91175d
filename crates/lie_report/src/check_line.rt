// The line of a check.
ghost use Rattle.std.specs.Prelude.{◌≡◌, IfOk};
ghost use Rattle.lie_report.specs.CheckLines.{yes_line, no_line};

use lie_bytes::NoMemory;
use lie_jet::{JetPoly, Space};
use lie_print::name_texts::{push_number, push_text};
use lie_print::printed_term::polynomial_terms;
use lie_print::printer::Printer;
use std::alloc::Global;

/// The line of a check that finds every condition met. An error where there is no memory.
pub fn yes_line(alloc: Global) -> Result<Vec<u8>, NoMemory>
    ensures { IfOk result (λ text. text.items ≡ yes_line) }
{
    let mut text = Vec::new(alloc);
    push_text(&mut text, b"yes\n")?;
    Ok(text)
}

/// The line of a check that finds a condition not met: the number of its equation, and the polynomial that remains of it, in variables
/// with these names. An error where there is no memory.
pub fn no_line(
    alloc: Global,
    space: Space,
    names: &[u8],
    equation: u32,
    remainder: &JetPoly,
) -> Result<Vec<u8>, NoMemory>
    ensures { IfOk result (λ text. text.items ≡ no_line space names.now equation remainder.now) }
{
    let printer = Printer {
        alloc,
        space,
        names,
    };
    let terms = polynomial_terms(alloc, remainder)?;
    let mut text = Vec::new(alloc);
    push_text(&mut text, b"no equation ")?;
    push_number(&mut text, alloc, u128::from(equation))?;
    push_text(&mut text, b" remainder ")?;
    printer.push_sum(&mut text, &terms)?;
    push_text(&mut text, b"\n")?;
    Ok(text)
}
