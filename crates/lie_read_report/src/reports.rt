// Reports from their texts.
ghost use Rattle.std.specs.Prelude.{◌≡◌, ◌+◌, IfOk, MatchOption, Some, map, option_map};
ghost use Rattle.lie_report.specs.Report.{report_text};
ghost use Rattle.lie_report.specs.Reports.{found_of, report_of, symmetries, degree};
ghost use Rattle.lie_readback.specs.Readings.{Finds};
ghost use Rattle.lie_readback.specs.DraftViews.{terms_seen, named_seen, draft_seen};
ghost use Rattle.lie_readback.specs.WellFormed.{AreNamed, IsWellDrafted};
ghost use Rattle.lie_read_report.specs.Views.{basis_seen, written_seen};
ghost use Rattle.lie_read_report.specs.WellFormed.{IsReportedBasis, IsReportedFound, IsWellFormed, IsWellWritten};
ghost use Rattle.lie_read_report.specs.WellFormed.{basis_written, report_written};
ghost use Rattle.lie_read_report.specs.ReportDrafts as written;
ghost use Rattle.lie_read_report.specs.ReadReports.{IsTextOfNone, IsReportOf};

use crate::drafts::{Basis, Written, read_draft};
use crate::fields::fields_of;
use crate::tables::is_table;
use lie_bytes::NoMemory;
use lie_jet::Space;
use lie_print::printed_term::Term;
use lie_readback::drafts::{Draft, Names};
use lie_readback::systems::{system_of, text_of};
use lie_readback::unread::Unread;
use lie_report::{Found, Report, Table, write_report};
use std::alloc::Global;

// How many variables there are.
fn size_of(space: Space) -> usize
    ensures { result ≡ space.p + space.q }
{
    usize::from(space.p) + usize::from(space.q)
}

// The basis that is written so.
fn found_of(alloc: Global, size: usize, basis: Basis) -> Result<Found, Unread>
    ensures value { Finds found_of (IsReportedBasis size) basis_written (basis_seen basis) result }
    ensures kept { IfOk result (λ found. IsReportedBasis size (found_of found)) }
{
    let Basis { fields, table } = basis;
    let fields = fields_of(alloc, size, fields)?;
    if !is_table(fields.len(), table.as_slice()) {
        return Err(Unread::Other);
    }
    Ok(Found {
        fields,
        table: Table { entries: table },
    })
}

// The basis that is written so, as one that there is.
fn found_some(alloc: Global, size: usize, basis: Basis) -> Result<Option<Found>, Unread>
    ensures value { Finds (option_map found_of) (IsReportedFound size) (option_map basis_written) (Some (basis_seen basis)) result }
    ensures kept { IfOk result (λ found. IsReportedFound size (option_map found_of found)) }
{
    let found = found_of(alloc, size, basis)?;
    Ok(Some(found))
}

// The basis that is written so, where there is one.
fn found_in(alloc: Global, size: usize, basis: Option<Basis>) -> Result<Option<Found>, Unread>
    ensures value { Finds (option_map found_of) (IsReportedFound size) (option_map basis_written) (option_map basis_seen basis) result }
    ensures kept { IfOk result (λ found. IsReportedFound size (option_map found_of found)) }
{
    match basis {
        Some(basis) => found_some(alloc, size, basis),
        None => Ok(None),
    }
}

// The report of determining equations that is written so.
fn determining_of(alloc: Global, draft: Draft) -> Result<Report, Unread>
    requires { IsWellDrafted (draft_seen draft) }
    ensures value { Finds report_of IsWellFormed report_written (written.determining (draft_seen draft)) result }
    ensures kept { IfOk result (λ r. IsWellFormed (report_of r)) }
{
    let (names, system) = system_of(alloc, draft)?;
    Ok(Report::Determining { names, system })
}

// The report of symmetries that is written so.
fn symmetries_of(alloc: Global, draft: Draft, basis: Option<Basis>) -> Result<Report, Unread>
    requires { IsWellDrafted (draft_seen draft) }
    ensures value { Finds report_of IsWellFormed report_written
        (written.symmetries (draft_seen draft) (option_map basis_seen basis)) result }
    ensures kept { IfOk result (λ r. IsWellFormed (report_of r)) }
{
    let (names, system) = system_of(alloc, draft)?;
    let found = found_in(alloc, size_of(system.space()), basis)?;
    Ok(Report::Symmetries {
        names,
        system,
        found,
    })
}

// The report of the fields up to a degree that is written so.
fn degree_of(
    alloc: Global,
    names: Names,
    most: u8,
    fields: Vec<Vec<Term>>,
) -> Result<Report, Unread>
    requires { AreNamed (named_seen names) }
    ensures value { Finds report_of IsWellFormed report_written
        (written.degree (named_seen names) most (map terms_seen fields.items)) result }
    ensures kept { IfOk result (λ r. IsWellFormed (report_of r)) }
{
    let Names { space, letters } = names;
    let fields = fields_of(alloc, size_of(space), fields)?;
    let names = text_of(alloc, letters)?;
    Ok(Report::Degree {
        names,
        space,
        most,
        fields,
    })
}

// The report that is written so.
fn report_of(alloc: Global, draft: Written) -> Result<Report, Unread>
    requires { IsWellWritten (written_seen draft) }
    ensures value { Finds report_of IsWellFormed report_written (written_seen draft) result }
    ensures kept { IfOk result (λ r. IsWellFormed (report_of r)) }
{
    match draft {
        Written::Determining(draft) => determining_of(alloc, draft),
        Written::Symmetries(draft, basis) => symmetries_of(alloc, draft, basis),
        Written::Degree(names, most, fields) => degree_of(alloc, names, most, fields),
    }
}

// The report of a text, whatever the spacing of the text.
fn report_in(alloc: Global, text: &[u8]) -> Result<Report, Unread>
    ensures value { Finds report_of IsWellFormed report_text text.now result }
    ensures kept { IfOk result (λ r. IsWellFormed (report_of r)) }
{
    let draft = read_draft(alloc, text)?;
    report_of(alloc, draft)
}

// The report, where these bytes are its text.
fn with_text(alloc: Global, report: Report, bytes: &[u8]) -> Result<Option<Report>, NoMemory>
    ensures { IfOk result (λ made. MatchOption made
        (¬ (report_text (report_of report) ≡ bytes.now))
        (λ r. (report_of r ≡ report_of report) × (report_text (report_of r) ≡ bytes.now))) }
{
    let text = write_report(alloc, &report)?;
    if text.as_slice() == bytes {
        Ok(Some(report))
    } else {
        Ok(None)
    }
}

/// The report whose text these bytes are, the unknowns of its system numbered from 1; None exactly where they are the text of no well
/// formed report. An error where there is no memory.
pub fn read_report(alloc: Global, bytes: &[u8]) -> Result<Option<Report>, NoMemory>
    ensures { IfOk result (λ made. MatchOption made (IsTextOfNone bytes.now) (λ report. IsReportOf report bytes.now)) }
{
    match report_in(alloc, bytes) {
        Ok(report) => with_text(alloc, report, bytes),
        Err(Unread::Other) => Ok(None),
        Err(Unread::NoMemory) => Err(NoMemory),
    }
}
