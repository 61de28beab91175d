// The lines of the names, and those of a linear system.
ghost use Rattle.std.specs.Prelude.{◌≡◌, ◌++◌, ◌∷◌, ◌<◌, OnOk, IfOk, map, take, drop};
ghost use Rattle.std.specs.List.{flat_map};
ghost use Rattle.lie_lin.specs.Systems.{has_bit, unknown_of};
ghost use Rattle.lie_print.specs.Printing.{name_at, sum_text};
ghost use Rattle.lie_report.specs.Terms.{AreRising, form_terms};
ghost use Rattle.lie_report.specs.SystemLines.{ended, lines_text, numbered_lines, head_lines, listed, free_line, component_line};
ghost use Rattle.lie_report.specs.SystemLines.{equation_line, remaining_line, system_lines};

use crate::terms::form_terms;
use lie_bytes::NoMemory;
use lie_lin::{LinEq, LinSystem, Unknown};
use lie_print::name_texts::{push_names_line, push_number, push_text};
use lie_print::printer::Printer;
use std::alloc::{AllocError, Global};

// Whether the bit i is set.
fn has_bit(bits: u8, i: u8) -> bool
    requires { i < 8 }
    ensures { result ≡ has_bit bits i }
{
    (bits >> i) % 2 == 1
}

// The variables on which an unknown depends.
fn variables_of(alloc: Global, unknown: Unknown) -> Result<Vec<u8>, AllocError>
    ensures { IfOk result (λ made. made.items ≡ (unknown_of unknown).variables) }
{
    let mut variables = Vec::new(alloc);
    for i in 0..8 {
        if has_bit(unknown.vars, i) {
            variables.push(i)?;
        }
    }
    Ok(variables)
}

// The first names, of the independent variables, and the others.
fn split_names(names: &[u8], p: usize) -> (&[u8], &[u8])
    ensures independent { result.0.now ≡ take p names.now }
    ensures dependent { result.1.now ≡ drop p names.now }
{
    if names.len() < p {
        return (names, &[]);
    }
    names.split_at(p)
}

/// Appends a first line, and the names.
pub fn push_head(printer: &Printer<'_>, text: &mut Vec<u8>, first: &[u8]) -> Result<(), AllocError>
    ensures { OnOk result (text.new.items ≡ text.old.items ++ lines_text (head_lines first.now
        (record { space = printer.now.space; names = printer.now.names.now }))) }
{
    let (independent, dependent) = split_names(printer.names, usize::from(printer.space.p));
    push_text(text, first)?;
    push_text(text, b"\n")?;
    push_names_line(text, b"vars", independent)?;
    push_names_line(text, b"deps", dependent)?;
    Ok(())
}

// Appends the names of further variables, each behind a comma.
fn push_further_variables(
    printer: &Printer<'_>,
    text: &mut Vec<u8>,
    variables: &[u8],
) -> Result<(), AllocError>
    ensures { OnOk result (text.new.items
        ≡ text.old.items ++ flat_map (λ g. 44 ∷ g) (map (name_at printer.now.names.now) variables.now)) }
{
    for variable in variables {
        push_text(text, b",")?;
        printer.push_name(text, usize::from(*variable))?;
    }
    Ok(())
}

// Appends the names of variables, with commas between them.
fn push_variables(
    printer: &Printer<'_>,
    text: &mut Vec<u8>,
    variables: &[u8],
) -> Result<(), AllocError>
    ensures { OnOk result (text.new.items ≡ text.old.items ++ listed (map (name_at printer.now.names.now) variables.now)) }
{
    match variables {
        [] => Ok(()),
        [first, rest @ ..] => {
            printer.push_name(text, usize::from(*first))?;
            push_further_variables(printer, text, rest)
        }
    }
}

// Appends the line of an unknown, which is shown by a number.
fn push_unknown(
    printer: &Printer<'_>,
    text: &mut Vec<u8>,
    number: usize,
    unknown: Unknown,
) -> Result<(), AllocError>
    ensures { OnOk result (text.new.items
        ≡ text.old.items ++ ended (free_line printer.now.names.now number (unknown_of unknown))) }
{
    let variables = variables_of(printer.alloc, unknown)?;
    push_text(text, b"free f")?;
    push_number(text, printer.alloc, number as u128)?;
    push_text(text, b"(")?;
    push_variables(printer, text, &variables)?;
    push_text(text, b")")?;
    push_text(text, b"\n")
}

// Appends the lines of unknowns, which are numbered anew from 1.
fn push_unknowns(
    printer: &Printer<'_>,
    text: &mut Vec<u8>,
    unknowns: &[Unknown],
) -> Result<(), AllocError>
    ensures { OnOk result (text.new.items ≡ text.old.items
        ++ lines_text (numbered_lines (free_line printer.now.names.now) 1 (map unknown_of unknowns.now))) }
{
    for (i, unknown) in unknowns.iter().enumerate() {
        push_unknown(printer, text, i + 1, *unknown)?;
    }
    Ok(())
}

// Appends a linear form of a system with these unknowns.
fn push_form(
    printer: &Printer<'_>,
    text: &mut Vec<u8>,
    unknowns: &[Unknown],
    form: &LinEq,
) -> Result<(), NoMemory>
    requires { AreRising (map unknown_of unknowns.now) }
    ensures { OnOk result (text.new.items
        ≡ text.old.items ++ sum_text printer.now.space printer.now.names.now (form_terms (map unknown_of unknowns.now) form.now)) }
{
    let terms = form_terms(printer.alloc, unknowns, form)?;
    printer.push_sum(text, &terms)?;
    Ok(())
}

// Appends the line of a component.
fn push_component(
    printer: &Printer<'_>,
    text: &mut Vec<u8>,
    unknowns: &[Unknown],
    i: usize,
    form: &LinEq,
) -> Result<(), NoMemory>
    requires { AreRising (map unknown_of unknowns.now) }
    ensures { OnOk result (text.new.items ≡ text.old.items ++ ended (component_line
        (record { space = printer.now.space; names = printer.now.names.now }) (map unknown_of unknowns.now) i form.now)) }
{
    push_text(text, b"general ")?;
    printer.push_name(text, i)?;
    push_text(text, b" = ")?;
    push_form(printer, text, unknowns, form)?;
    push_text(text, b"\n")?;
    Ok(())
}

// Appends the lines of all components.
fn push_general(
    printer: &Printer<'_>,
    text: &mut Vec<u8>,
    unknowns: &[Unknown],
    general: &[LinEq],
) -> Result<(), NoMemory>
    requires { AreRising (map unknown_of unknowns.now) }
    ensures { OnOk result (text.new.items ≡ text.old.items ++ lines_text (numbered_lines (component_line
        (record { space = printer.now.space; names = printer.now.names.now }) (map unknown_of unknowns.now)) 0 general.now)) }
{
    for (i, form) in general.iter().enumerate() {
        push_component(printer, text, unknowns, i, form)?;
    }
    Ok(())
}

// Appends the line of an equation.
fn push_equation(
    printer: &Printer<'_>,
    text: &mut Vec<u8>,
    unknowns: &[Unknown],
    equation: &LinEq,
) -> Result<(), NoMemory>
    requires { AreRising (map unknown_of unknowns.now) }
    ensures { OnOk result (text.new.items ≡ text.old.items ++ ended (equation_line
        (record { space = printer.now.space; names = printer.now.names.now }) (map unknown_of unknowns.now) equation.now)) }
{
    push_form(printer, text, unknowns, equation)?;
    push_text(text, b" = 0")?;
    push_text(text, b"\n")?;
    Ok(())
}

// Appends the lines of equations.
fn push_equations(
    printer: &Printer<'_>,
    text: &mut Vec<u8>,
    unknowns: &[Unknown],
    equations: &[LinEq],
) -> Result<(), NoMemory>
    requires { AreRising (map unknown_of unknowns.now) }
    ensures { OnOk result (text.new.items ≡ text.old.items ++ flat_map (λ E. ended (equation_line
        (record { space = printer.now.space; names = printer.now.names.now }) (map unknown_of unknowns.now) E)) equations.now) }
{
    for equation in equations {
        push_equation(printer, text, unknowns, equation)?;
    }
    Ok(())
}

// Appends the line that says how many equations remain.
fn push_remaining(text: &mut Vec<u8>, alloc: Global, count: usize) -> Result<(), AllocError>
    ensures { OnOk result (text.new.items ≡ text.old.items ++ ended (remaining_line count)) }
{
    push_text(text, b"remaining ")?;
    push_number(text, alloc, count as u128)?;
    push_text(text, b"\n")
}

/// Appends the unknowns of a system, numbered anew from 1, its general form and its equations.
pub fn push_system(
    printer: &Printer<'_>,
    text: &mut Vec<u8>,
    system: &LinSystem,
) -> Result<(), NoMemory>
    ensures { OnOk result (text.new.items ≡ text.old.items ++ lines_text (system_lines
        (record { space = printer.now.space; names = printer.now.names.now }) system.now.system)) }
{
    system.space();
    let unknowns = system.unknowns();
    let general = system.general();
    let equations = system.equations();
    push_unknowns(printer, text, unknowns)?;
    push_general(printer, text, unknowns, general)?;
    push_remaining(text, printer.alloc, equations.len())?;
    push_equations(printer, text, unknowns, equations)?;
    Ok(())
}
