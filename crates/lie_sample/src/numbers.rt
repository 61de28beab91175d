// The line that tells the numbers of a report of symmetries.
ghost use Rattle.std.specs.Prelude.{◌≡◌, ◌++◌, IfOk, OnOk, decimal, option_map};
ghost use Rattle.lie_report.specs.Reports.{found_of};
ghost use Rattle.lie_sample.specs.Numbers.{generator_count, numbers_line};

use lie_bytes::NoMemory;
use lie_lin::LinSystem;
use lie_print::name_texts::{push_number, push_text};
use lie_report::Found;
use std::alloc::{AllocError, Global};

// Appends a word, and how many of it there are.
fn push_count(
    text: &mut Vec<u8>,
    alloc: Global,
    word: &[u8],
    count: usize,
) -> Result<(), AllocError>
    ensures { OnOk result (text.new.items ≡ text.old.items ++ word.now ++ decimal count) }
{
    push_text(text, word)?;
    push_number(text, alloc, count as u128)
}

// Appends how many generators there are, or a dash where there is no basis.
fn push_generator_count(
    text: &mut Vec<u8>,
    alloc: Global,
    found: &Option<Found>,
) -> Result<(), AllocError>
    ensures { OnOk result (text.new.items ≡ text.old.items ++ generator_count (option_map found_of found.now)) }
{
    match found {
        Some(found) => push_number(text, alloc, found.fields.len() as u128),
        None => push_text(text, b"-"),
    }
}

/// The line of the k-th member, with the numbers of the report of this system and this basis. An error where there is no memory.
#[tactic(auto, unfolding(crate::specs::Numbers::numbers_line))]
pub fn numbers_line(
    alloc: Global,
    k: u64,
    system: &LinSystem,
    found: &Option<Found>,
) -> Result<Vec<u8>, NoMemory>
    ensures { IfOk result (λ line. line.items ≡ numbers_line k system.now.system (option_map found_of found.now)) }
{
    let unknowns = system.unknowns();
    let equations = system.equations();
    let mut line = Vec::new(alloc);
    push_number(&mut line, alloc, u128::from(k))?;
    push_count(&mut line, alloc, b": unknowns ", unknowns.len())?;
    push_count(&mut line, alloc, b", remaining ", equations.len())?;
    push_text(&mut line, b", generators ")?;
    push_generator_count(&mut line, alloc, found)?;
    push_text(&mut line, b"\n")?;
    Ok(line)
}
