// The canonical text of a system.
ghost use Rattle.std.specs.Prelude.{◌≡◌, ◌++◌, ◌∷◌, [], ◌≤◌, length, take, drop, map, codes, IfOk, OnOk, Some, None};
ghost use Rattle.std.specs.List.{AllByRecursion as Every, flat_map};
ghost use Rattle.lie_jet.specs.Jets.{coordinate_of, IsJet};
ghost use Rattle.lie_system.specs.Equations.{equation_read};
ghost use Rattle.lie_system.specs.KeptSystems.{system_read};
ghost use Rattle.lie_canonical.specs.CanonicalText.{polynomial_text, right_side as right_side_of};
ghost use Rattle.lie_canonical.specs.CanonicalText.{sides_text, equation_text, canonical_text};
ghost use Rattle.lie_print.specs.Printing.{names_line};
ghost use Rattle.lie_system.specs.LeadsAlone.{with_leads};
ghost use Rattle.lie_file.specs.FileGrammar.{IsFile};
ghost use Rattle.lie_canonical.specs.RightSides.{HasRightSide, IsPrintable};
ghost use Rattle.lie_jet.specs.Limits.{greatest_jet_order};

use crate::right_side::right_side;
use lie_bytes::{NoMemory, Text};
use lie_jet::{Jet, JetPoly, Space, jet_number};
use lie_print::name_texts::{push_names_line, push_text};
use lie_print::printed_term::polynomial_terms;
use lie_print::printer::Printer;
use lie_ring::Mono;
use lie_system::{Equation, System};
use std::alloc::Global;

// Appends a polynomial.
fn push_polynomial(
    printer: &Printer<'_>,
    text: &mut Vec<u8>,
    polynomial: &JetPoly,
) -> Result<(), NoMemory>
    ensures { OnOk result (text.new.items ≡ text.old.items ++ polynomial_text printer.now.space printer.now.names.now polynomial.now) }
{
    let terms = polynomial_terms(printer.alloc, polynomial)?;
    printer.push_sum(text, terms.as_slice())?;
    Ok(())
}

// A jet without counts past the last variable.
fn within(space: Space, jet: &Jet, diff: &JetPoly) -> Jet
    requires { HasRightSide space (coordinate_of space jet.now) diff.now }
    ensures same { coordinate_of space result ≡ coordinate_of space jet.now }
    ensures jet { IsJet space greatest_jet_order result }
{
    let p = usize::from(space.p);
    let mut counts = [0; 4];
    counts[..p].copy_from_slice(&jet.counts[..p]);
    Jet {
        dep: jet.dep,
        counts,
    }
}

// Appends a lead minus a polynomial.
fn push_right_side(
    printer: &Printer<'_>,
    text: &mut Vec<u8>,
    lead: &Jet,
    diff: &JetPoly,
) -> Result<(), NoMemory>
    requires jet { IsJet printer.now.space greatest_jet_order lead.now }
    requires right { HasRightSide printer.now.space (coordinate_of printer.now.space lead.now) diff.now }
    ensures { OnOk result (text.new.items
        ≡ text.old.items ++ polynomial_text printer.now.space printer.now.names.now
        (right_side_of printer.now.space (coordinate_of printer.now.space lead.now) diff.now)) }
{
    let variable = Mono::variable(printer.alloc, jet_number(printer.space, lead));
    let terms = right_side(printer.alloc, variable, diff)?;
    printer.push_sum(text, terms.as_slice())?;
    Ok(())
}

// Appends a lead and what it equals.
fn push_solved(
    printer: &Printer<'_>,
    text: &mut Vec<u8>,
    lead: &Jet,
    diff: &JetPoly,
) -> Result<(), NoMemory>
    requires { HasRightSide printer.now.space (coordinate_of printer.now.space lead.now) diff.now }
    ensures { OnOk result (text.new.items ≡ text.old.items ++ sides_text printer.now.space printer.now.names.now
        (Some (coordinate_of printer.now.space lead.now)) diff.now) }
{
    let lead = within(printer.space, lead, diff);
    printer.push_jet(text, &lead)?;
    push_text(text, b" = ")?;
    push_right_side(printer, text, &lead, diff)
}

// Appends a polynomial that is 0.
fn push_unsolved(printer: &Printer<'_>, text: &mut Vec<u8>, diff: &JetPoly) -> Result<(), NoMemory>
    ensures { OnOk result (text.new.items ≡ text.old.items ++ sides_text printer.now.space printer.now.names.now None diff.now) }
{
    push_polynomial(printer, text, diff)?;
    push_text(text, b" = 0")?;
    Ok(())
}

// Appends the two sides of an equation.
fn push_sides(
    printer: &Printer<'_>,
    text: &mut Vec<u8>,
    equation: &Equation,
) -> Result<(), NoMemory>
    requires { IsPrintable printer.now.space (equation_read printer.now.space equation.now) }
    ensures { OnOk result (text.new.items
        ≡ text.old.items ++ sides_text printer.now.space printer.now.names.now
        (equation_read printer.now.space equation.now).lead equation.now.diff) }
{
    match &equation.lead {
        Some(lead) => push_solved(printer, text, lead, &equation.diff),
        None => push_unsolved(printer, text, &equation.diff),
    }
}

// Appends the line of an equation.
fn push_equation(
    printer: &Printer<'_>,
    text: &mut Vec<u8>,
    equation: &Equation,
) -> Result<(), NoMemory>
    requires { IsPrintable printer.now.space (equation_read printer.now.space equation.now) }
    ensures { OnOk result (text.new.items ≡ text.old.items ++ equation_text printer.now.space printer.now.names.now
        (equation_read printer.now.space equation.now)) }
{
    push_text(text, b"eq ")?;
    push_sides(printer, text, equation)?;
    push_text(text, b"\n")?;
    Ok(())
}

// Appends the lines of equations.
fn push_equations(
    printer: &Printer<'_>,
    text: &mut Vec<u8>,
    equations: &[Equation],
) -> Result<(), NoMemory>
    requires { Every (IsPrintable printer.now.space) (map (equation_read printer.now.space) equations.now) }
    ensures { OnOk result (text.new.items
        ≡ text.old.items ++ flat_map (equation_text printer.now.space printer.now.names.now)
        (map (equation_read printer.now.space) equations.now)) }
{
    for equation in equations {
        push_equation(printer, text, equation)?;
    }
    Ok(())
}

// Appends the header and the lines of names.
fn push_header(text: &mut Vec<u8>, space: Space, names: &[u8]) -> Result<(), NoMemory>
    requires { space.p ≤ length names.now }
    ensures { OnOk result (text.new.items
        ≡ text.old.items ++ codes "lie 1\n" ++ names_line (codes "vars") (take space.p names.now)
        ++ names_line (codes "deps") (drop space.p names.now)) }
{
    let p = usize::from(space.p);
    push_text(text, b"lie 1\n")?;
    push_names_line(text, b"vars", &names[..p])?;
    push_names_line(text, b"deps", &names[p..])?;
    Ok(())
}

// The bytes of the canonical text of a system.
#[tactic(auto, unfolding(crate::specs::CanonicalText::canonical_text))]
fn canonical_bytes(alloc: Global, system: &System) -> Result<Vec<u8>, NoMemory>
    ensures { IfOk result (λ bytes. bytes.items ≡ canonical_text (system_read system.now)) }
{
    let names = system.names.bytes();
    let printer = Printer {
        alloc,
        space: system.space,
        names,
    };
    let mut text = Vec::new(alloc);
    push_header(&mut text, system.space, names)?;
    push_equations(&printer, &mut text, system.equations.as_slice())?;
    push_text(&mut text, b"end\n")?;
    Ok(text)
}

/// The canonical text of a system: five kinds of line with single blanks and no comment. An equation with a lead is the lead and what
/// it equals, another is its polynomial and `= 0`.
pub fn canonical(alloc: Global, system: &System) -> Result<Text, NoMemory>
    ensures text { IfOk result (λ text. text ≡ canonical_text (system_read system.now)) }
    // It is a file of the system, where an equation that is a derivative alone has it as its lead.
    ensures file { IfOk result (λ text. IsFile text (with_leads (system_read system.now))) }
{
    let bytes = canonical_bytes(alloc, system)?;
    match Text::of(alloc, bytes.as_slice())? {
        Some(text) => Ok(text),
        None => unreachable!(),
    }
}
