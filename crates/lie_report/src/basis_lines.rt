// The lines of generators and of their commutators.
ghost use Rattle.std.specs.Prelude.{◌≡◌, ◌<◌, ◌^◌, ◌==◌, ◌++◌, ◌+◌, ◌∷◌, List, OnOk, IfOk, Some, false, map, option_map};
ghost use Rattle.std.specs.Prelude.{decimal, unsigned_abs};
ghost use Rattle.lie_ring.specs.declared.ratio.Ratio.{Ratio as ARatio};
ghost use Rattle.lie_report.specs.Reports.{entry_of, found_of};
ghost use Rattle.lie_report.specs.SystemLines.{ended, lines_text, numbered_lines};
ghost use Rattle.lie_report.specs.BasisLines.{generator, generator_line, generators_line, generator_lines, ratio_factor, multiple};
ghost use Rattle.lie_report.specs.BasisLines.{unless_further, multiples_from, next_pair, commutator_line, commutator_lines_from};
ghost use Rattle.lie_report.specs.BasisLines.{commutators_line, commutator_lines, basis_lines};

use crate::reports::Found;
use crate::terms::field_terms;
use lie_bytes::NoMemory;
use lie_jet::Field;
use lie_print::name_texts::{push_number, push_text};
use lie_print::printer::Printer;
use lie_print::printing::push_sign;
use lie_ring::Ratio;
use std::alloc::{AllocError, Global};

// Appends a generator by its number.
fn push_generator(text: &mut Vec<u8>, alloc: Global, number: usize) -> Result<(), AllocError>
    ensures { OnOk result (text.new.items ≡ text.old.items ++ generator number) }
{
    push_text(text, b"v")?;
    push_number(text, alloc, number as u128)
}

// Appends the line of a generator.
fn push_field(
    printer: &Printer<'_>,
    text: &mut Vec<u8>,
    number: usize,
    field: &Field,
) -> Result<(), NoMemory>
    ensures { OnOk result (text.new.items ≡ text.old.items ++ ended (generator_line
        (record { space = printer.now.space; names = printer.now.names.now }) number field.now)) }
{
    let terms = field_terms(printer.alloc, field.parts())?;
    push_generator(text, printer.alloc, number)?;
    push_text(text, b" = ")?;
    printer.push_sum(text, &terms)?;
    push_text(text, b"\n")?;
    Ok(())
}

/// Appends a line of a word and a number.
pub fn push_count(
    text: &mut Vec<u8>,
    alloc: Global,
    word: &[u8],
    count: usize,
) -> Result<(), AllocError>
    ensures { OnOk result (text.new.items ≡ text.old.items ++ ended (word.now ++ decimal count)) }
{
    push_text(text, word)?;
    push_number(text, alloc, count as u128)?;
    push_text(text, b"\n")
}

// Appends the lines of generators.
fn push_fields(printer: &Printer<'_>, text: &mut Vec<u8>, fields: &[Field]) -> Result<(), NoMemory>
    ensures { OnOk result (text.new.items ≡ text.old.items ++ lines_text (numbered_lines (generator_line
        (record { space = printer.now.space; names = printer.now.names.now })) 1 fields.now)) }
{
    for (i, field) in fields.iter().enumerate() {
        push_field(printer, text, i + 1, field)?;
    }
    Ok(())
}

/// Appends the number of generators, and their lines.
pub fn push_generators(
    printer: &Printer<'_>,
    text: &mut Vec<u8>,
    fields: &[Field],
) -> Result<(), NoMemory>
    ensures { OnOk result (text.new.items ≡ text.old.items ++ lines_text (generator_lines
        (record { space = printer.now.space; names = printer.now.names.now }) fields.now)) }
{
    push_count(text, printer.alloc, b"generators ", fields.len())?;
    push_fields(printer, text, fields)?;
    Ok(())
}

// Appends a ratio as a factor, where it is not 1.
fn push_ratio(text: &mut Vec<u8>, alloc: Global, size: u128, over: u128) -> Result<(), AllocError>
    ensures { OnOk result (text.new.items ≡ text.old.items ++ ratio_factor size over) }
{
    if over == 1 {
        if size == 1 {
            return Ok(());
        }
        push_number(text, alloc, size)?;
        return push_text(text, b"*");
    }
    push_number(text, alloc, size)?;
    push_text(text, b"/")?;
    push_number(text, alloc, over)?;
    push_text(text, b"*")
}

// Appends a multiple of a generator, as the first term or a further one.
fn push_multiple(
    text: &mut Vec<u8>,
    alloc: Global,
    further: bool,
    number: usize,
    ratio: Ratio,
) -> Result<(), AllocError>
    ensures { OnOk result (text.new.items ≡ text.old.items ++ multiple further number ratio) }
{
    push_sign(text, further, ratio.num < 0)?;
    push_ratio(text, alloc, ratio.num.unsigned_abs(), ratio.den)?;
    push_generator(text, alloc, number)
}

// Appends 0, unless a term stands there.
fn push_unless_further(text: &mut Vec<u8>, further: bool) -> Result<(), AllocError>
    ensures { OnOk result (text.new.items ≡ text.old.items ++ unless_further further) }
{
    if further {
        return Ok(());
    }
    push_text(text, b"0")
}

// Whether a ratio is 0.
fn is_zero(ratio: Ratio) -> bool
    ensures { result ≡ (unsigned_abs ratio.num == 0) }
{
    ratio.num.unsigned_abs() == 0
}

// Appends a multiple of a generator, unless it is by 0. Whether a term stands there then.
fn push_nonzero(
    text: &mut Vec<u8>,
    alloc: Global,
    further: bool,
    number: usize,
    ratio: Ratio,
) -> Result<bool, AllocError>
    ensures { IfOk result (λ more. (rest : List ARatio) → text.new.items ++ multiples_from more (number + 1) rest
        ≡ text.old.items ++ multiples_from further number (ratio ∷ rest)) }
{
    if is_zero(ratio) {
        return Ok(further);
    }
    push_multiple(text, alloc, further, number, ratio)?;
    Ok(true)
}

// Appends a combination of the generators.
fn push_combination(text: &mut Vec<u8>, alloc: Global, ratios: &[Ratio]) -> Result<(), AllocError>
    ensures { OnOk result (text.new.items ≡ text.old.items ++ multiples_from false 1 ratios.now) }
{
    let mut further = false;
    for (i, ratio) in ratios.iter().enumerate() {
        let more = push_nonzero(text, alloc, further, i + 1, *ratio)?;
        further = more;
    }
    push_unless_further(text, further)?;
    Ok(())
}

// A pair of generators by their numbers.
#[derive(Clone, Copy, PartialEq, Eq, Debug)]
struct Pair {
    first: usize,
    second: usize,
}

// The pair behind another, of `count` generators.
fn next_pair(count: usize, pair: Pair) -> Pair
    requires { pair.first + 2 < 2 ^ 64 }
    ensures { (result.first, result.second) ≡ next_pair count (pair.first, pair.second) }
{
    if pair.second < count {
        Pair {
            first: pair.first,
            second: pair.second + 1,
        }
    } else {
        Pair {
            first: pair.first + 1,
            second: pair.first + 2,
        }
    }
}

// Appends the line of the commutator of a pair.
fn push_commutator(
    text: &mut Vec<u8>,
    alloc: Global,
    pair: Pair,
    ratios: &[Ratio],
) -> Result<(), AllocError>
    ensures { OnOk result (text.new.items ≡ text.old.items ++ ended (commutator_line (pair.first, pair.second) ratios.now)) }
{
    push_text(text, b"[")?;
    push_generator(text, alloc, pair.first)?;
    push_text(text, b",")?;
    push_generator(text, alloc, pair.second)?;
    push_text(text, b"] = ")?;
    push_combination(text, alloc, ratios)?;
    push_text(text, b"\n")
}

// Appends the lines of the commutators of `count` generators.
fn push_entries(
    text: &mut Vec<u8>,
    alloc: Global,
    count: usize,
    entries: &[Vec<Ratio>],
) -> Result<(), AllocError>
    ensures { OnOk result (text.new.items ≡ text.old.items ++ lines_text (commutator_lines_from count (1, 2) (map entry_of entries.now))) }
{
    let mut pair = Pair {
        first: 1,
        second: 2,
    };
    for (i, entry) in entries.iter().enumerate() {
        push_commutator(text, alloc, pair, entry.as_slice())?;
        pair = next_pair(count, pair);
    }
    Ok(())
}

// Appends the number of commutators of `count` generators, and their lines.
fn push_commutators(
    text: &mut Vec<u8>,
    alloc: Global,
    count: usize,
    entries: &[Vec<Ratio>],
) -> Result<(), AllocError>
    ensures { OnOk result (text.new.items ≡ text.old.items ++ lines_text (commutator_lines count (map entry_of entries.now))) }
{
    push_count(text, alloc, b"commutators ", entries.len())?;
    push_entries(text, alloc, count, entries)?;
    Ok(())
}

// Appends the lines of a basis and its commutators.
fn push_found(printer: &Printer<'_>, text: &mut Vec<u8>, found: &Found) -> Result<(), NoMemory>
    ensures { OnOk result (text.new.items ≡ text.old.items ++ lines_text (basis_lines
        (record { space = printer.now.space; names = printer.now.names.now }) (Some (found_of found.now)))) }
{
    let fields = found.fields.as_slice();
    let entries = found.table.entries.as_slice();
    push_generators(printer, text, fields)?;
    push_commutators(text, printer.alloc, fields.len(), entries)?;
    Ok(())
}

/// Appends the lines of a basis and its commutators, or that there is none.
pub fn push_basis(
    printer: &Printer<'_>,
    text: &mut Vec<u8>,
    found: &Option<Found>,
) -> Result<(), NoMemory>
    ensures { OnOk result (text.new.items ≡ text.old.items ++ lines_text (basis_lines
        (record { space = printer.now.space; names = printer.now.names.now }) (option_map found_of found.now))) }
{
    match found {
        Some(found) => push_found(printer, text, found),
        None => {
            push_text(text, b"generators -\ncommutators -\n")?;
            Ok(())
        }
    }
}
