// The text of a report.
ghost use Rattle.std.specs.Prelude.{◌≡◌, ◌++◌, OnOk, IfOk, option_map};
ghost use Rattle.lie_report.specs.Reports.{determining, symmetries, degree, report_of, found_of};
ghost use Rattle.lie_report.specs.SystemLines.{lines_text};
ghost use Rattle.lie_report.specs.Report.{report_body, report_text, report};

use crate::basis_lines::{push_basis, push_count, push_generators};
use crate::reports::{Found, Report};
use crate::system_lines::{push_head, push_system};
use lie_bytes::NoMemory;
use lie_jet::Field;
use lie_lin::LinSystem;
use lie_print::name_texts::push_text;
use lie_print::printer::Printer;
use std::alloc::Global;

// Appends the lines of a report of determining equations but the last.
fn push_determining(
    printer: &Printer<'_>,
    text: &mut Vec<u8>,
    system: &LinSystem,
) -> Result<(), NoMemory>
    ensures { OnOk result (text.new.items ≡ text.old.items ++ lines_text (report_body (determining
        (record { space = printer.now.space; names = printer.now.names.now }) system.now.system))) }
{
    push_head(printer, text, b"lie determining 1")?;
    push_system(printer, text, system)?;
    Ok(())
}

// Appends the lines of a report of symmetries but the last.
fn push_symmetries(
    printer: &Printer<'_>,
    text: &mut Vec<u8>,
    system: &LinSystem,
    found: &Option<Found>,
) -> Result<(), NoMemory>
    ensures { OnOk result (text.new.items ≡ text.old.items ++ lines_text (report_body (symmetries
        (record { space = printer.now.space; names = printer.now.names.now }) system.now.system (option_map found_of found.now)))) }
{
    push_head(
        printer,
        text,
        b"lie symmetries 1, polynomial components only",
    )?;
    push_system(printer, text, system)?;
    push_basis(printer, text, found)?;
    Ok(())
}

// Appends the lines of a report of the fields up to a degree but the last.
fn push_degree(
    printer: &Printer<'_>,
    text: &mut Vec<u8>,
    most: u8,
    fields: &[Field],
) -> Result<(), NoMemory>
    ensures { OnOk result (text.new.items ≡ text.old.items ++ lines_text (report_body (degree
        (record { space = printer.now.space; names = printer.now.names.now }) most fields.now))) }
{
    push_head(printer, text, b"lie degree 1")?;
    push_count(text, printer.alloc, b"degree ", usize::from(most))?;
    push_generators(printer, text, fields)?;
    Ok(())
}

// Appends the lines of a report but the last.
fn push_body(text: &mut Vec<u8>, alloc: Global, report: &Report) -> Result<(), NoMemory>
    ensures { OnOk result (text.new.items ≡ text.old.items ++ lines_text (report_body (report_of report.now))) }
{
    match report {
        Report::Determining { names, system } => {
            let printer = Printer {
                alloc,
                space: system.space(),
                names: names.bytes(),
            };
            push_determining(&printer, text, system)
        }
        Report::Symmetries {
            names,
            system,
            found,
        } => {
            let printer = Printer {
                alloc,
                space: system.space(),
                names: names.bytes(),
            };
            push_symmetries(&printer, text, system, found)
        }
        Report::Degree {
            names,
            space,
            most,
            fields,
        } => {
            let printer = Printer {
                alloc,
                space: *space,
                names: names.bytes(),
            };
            push_degree(&printer, text, *most, fields)
        }
    }
}

/// The text of a report. The unknowns of its system are numbered anew from 1, in rising order. An error where there is no memory.
#[tactic(auto, unfolding(crate::specs::Report::report_text))]
pub fn write_report(alloc: Global, report: &Report) -> Result<Vec<u8>, NoMemory>
    ensures { IfOk result (λ text. text.items ≡ report_text (report_of report.now)) }
{
    let mut text = Vec::new(alloc);
    push_body(&mut text, alloc, report)?;
    push_text(&mut text, b"end\n")?;
    Ok(text)
}

/// The text of the report of the determining equations in a system whose variables have these names, the independent before the
/// dependent ones. An error where there is no memory.
#[tactic(auto, unfolding(crate::specs::Report::report_text))]
pub fn determining_report(
    alloc: Global,
    names: &[u8],
    system: &LinSystem,
) -> Result<Vec<u8>, NoMemory>
    ensures { IfOk result (λ text. text.items ≡ report system.now.space names.now system.now.system) }
{
    let printer = Printer {
        alloc,
        space: system.space(),
        names,
    };
    let mut text = Vec::new(alloc);
    push_determining(&printer, &mut text, system)?;
    push_text(&mut text, b"end\n")?;
    Ok(text)
}
