// Names of variables, coordinates and derivatives of unknowns as text.
ghost use Rattle.std.specs.Prelude.{◌≡◌, ◌++◌, ◌∷◌, [], OnOk, take, decimal, nat_lt};
ghost use Rattle.std.specs.List.{list_any, flat_map};
ghost use Rattle.lie_jet.specs.Limits.{greatest_jet_order};
ghost use Rattle.lie_math.specs.Counts.{trimmed};
ghost use Rattle.lie_jet.specs.Jets.{coordinate_of, IsJet};
ghost use Rattle.lie_print.specs.Printing.{name_at, names_line, repeated, letters_from, subscript};
ghost use Rattle.lie_print.specs.Printing.{coordinate_text, variable_text, derivative_text};

use crate::printer::Printer;
use lie_jet::{Jet, jet_of};
use std::alloc::{AllocError, Global};

/// Appends a text.
pub fn push_text(text: &mut Vec<u8>, more: &[u8]) -> Result<(), AllocError>
    ensures { OnOk result (text.new.items ≡ text.old.items ++ more.now) }
{
    text.extend_from_slice(more)?;
    Ok(())
}

/// Appends a number in decimal digits.
pub fn push_number(text: &mut Vec<u8>, alloc: Global, number: u128) -> Result<(), AllocError>
    ensures { OnOk result (text.new.items ≡ text.old.items ++ decimal number) }
{
    let digits = format!(in alloc; "{number}")?;
    push_text(text, digits.as_bytes())
}

// The i-th name; empty where there is none.
fn name_at(names: &[u8], i: usize) -> &[u8]
    ensures { result.now ≡ name_at names.now i }
{
    if i < names.len() {
        &names[i..i + 1]
    } else {
        &[]
    }
}

// Appends names, each behind a blank.
fn push_names(text: &mut Vec<u8>, names: &[u8]) -> Result<(), AllocError>
    ensures { OnOk result (text.new.items ≡ text.old.items ++ flat_map (λ n. 32 ∷ n ∷ []) names.now) }
{
    for name in names {
        push_text(text, &[b' ', *name])?;
    }
    Ok(())
}

/// Appends a line of a keyword and names.
pub fn push_names_line(text: &mut Vec<u8>, keyword: &[u8], names: &[u8]) -> Result<(), AllocError>
    ensures { OnOk result (text.new.items ≡ text.old.items ++ names_line keyword.now names.now) }
{
    push_text(text, keyword)?;
    push_names(text, names)?;
    push_text(text, b"\n")
}

// Appends a text some times.
fn push_repeated(text: &mut Vec<u8>, piece: &[u8], count: u8) -> Result<(), AllocError>
    ensures { OnOk result (text.new.items ≡ text.old.items ++ repeated count piece.now) }
{
    for _ in 0..count {
        push_text(text, piece)?;
    }
    Ok(())
}

// Appends the names of variables, each as often as its count.
fn push_letters(text: &mut Vec<u8>, names: &[u8], counts: &[u8]) -> Result<(), AllocError>
    ensures { OnOk result (text.new.items ≡ text.old.items ++ letters_from names.now 0 counts.now) }
{
    for (i, count) in counts.iter().enumerate() {
        push_repeated(text, name_at(names, i), *count)?;
    }
    Ok(())
}

// Whether a count is not 0.
fn is_derived(counts: &[u8]) -> bool
    ensures { result ≡ list_any (λ c. nat_lt 0 c) counts.now }
{
    counts.iter().any(|count| *count > 0)
}

// Appends what stands behind a name that is derived: `_` and the letters, and nothing for the order 0.
fn push_subscript(text: &mut Vec<u8>, names: &[u8], counts: &[u8]) -> Result<(), AllocError>
    ensures { OnOk result (text.new.items ≡ text.old.items ++ subscript names.now counts.now) }
{
    if is_derived(counts) {
        push_text(text, b"_")?;
        push_letters(text, names, counts)?;
    }
    Ok(())
}

impl Printer<'_> {
    /// Appends the i-th name, and nothing where there is none.
    pub fn push_name(&self, text: &mut Vec<u8>, i: usize) -> Result<(), AllocError>
        ensures { OnOk result (text.new.items ≡ text.old.items ++ name_at self.now.names.now i) }
    {
        push_text(text, name_at(self.names, i))
    }

    /// Appends a jet.
    pub fn push_jet(&self, text: &mut Vec<u8>, jet: &Jet) -> Result<(), AllocError>
        requires { IsJet self.now.space greatest_jet_order jet.now }
        ensures { OnOk result (text.new.items
            ≡ text.old.items ++ coordinate_text self.now.space self.now.names.now (coordinate_of self.now.space jet.now)) }
    {
        let p = usize::from(self.space.p);
        self.push_name(text, p + usize::from(jet.dep))?;
        push_subscript(text, self.names, &jet.counts[..p])
    }

    /// Appends the coordinate with a number.
    pub fn push_variable(&self, text: &mut Vec<u8>, variable: u32) -> Result<(), AllocError>
        ensures { OnOk result (text.new.items ≡ text.old.items ++ variable_text self.now.space self.now.names.now variable) }
    {
        if variable < u32::from(self.space.p) {
            return self.push_name(text, variable as usize);
        }
        match jet_of(self.space, variable) {
            Some(jet) => self.push_jet(text, &jet),
            None => Ok(()),
        }
    }

    /// Appends a derivative of the unknown with a number, as often by each variable as the counts say: `f`, the number and the letters.
    pub fn push_derivative(
        &self,
        text: &mut Vec<u8>,
        unknown: usize,
        counts: &[u8; 8],
    ) -> Result<(), AllocError>
        ensures { OnOk result (text.new.items ≡ text.old.items
            ++ derivative_text self.now.names.now (record { unknown = unknown; counts = trimmed counts.now })) }
    {
        push_text(text, b"f")?;
        push_number(text, self.alloc, unknown as u128)?;
        push_subscript(text, self.names, counts)?;
        Ok(())
    }
}
