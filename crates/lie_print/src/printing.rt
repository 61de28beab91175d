// Terms and sums as text.
ghost use Rattle.std.specs.Prelude.{◌≡◌, ◌++◌, ◌∷◌, [], OnOk, map, true, option_map, decimal, if◌then◌else◌};
ghost use Rattle.std.specs.List.{flat_map};
ghost use Rattle.lie_print.specs.PrintedTerms.{last_of, printed};
ghost use Rattle.lie_print.specs.Printing.{power_text, star, behind, last_text, last_factor, is_shown, is_further};
ghost use Rattle.lie_print.specs.Printing.{term_text, sign_text, signed_text, sum_text};

use crate::name_texts::{push_number, push_text};
use crate::printed_term::{LastFactor, Term};
use crate::printer::Printer;
use lie_ring::Ring;
use std::alloc::{AllocError, Global};

// Appends a star behind what stands before, if anything does.
fn push_star(text: &mut Vec<u8>, further: bool) -> Result<(), AllocError>
    ensures { OnOk result (text.new.items ≡ text.old.items ++ star further) }
{
    if further {
        push_text(text, b"*")?;
    }
    Ok(())
}

// Whether the number of a term is shown: not where it is 1 before other factors.
fn is_shown(size: u128, powers: &[(u32, u32)], last: &Option<LastFactor>) -> bool
    ensures { result ≡ is_shown size powers.now (option_map last_of last.now) }
{
    match (powers, last) {
        ([], None) => true,
        _ => size != 1,
    }
}

// Whether a factor stands before what comes behind powers.
fn is_further(shown: bool, powers: &[(u32, u32)]) -> bool
    ensures { result ≡ is_further shown powers.now }
{
    match powers {
        [] => shown,
        _ => true,
    }
}

// Appends the number of a term where it is not left out.
fn push_shown(text: &mut Vec<u8>, alloc: Global, size: u128, shown: bool) -> Result<(), AllocError>
    ensures { OnOk result (text.new.items ≡ text.old.items ++ (if shown then decimal size else [])) }
{
    if shown {
        push_number(text, alloc, size)?;
    }
    Ok(())
}

/// Appends the sign before a term: a bare minus before the first, and one with blanks before a further term.
pub fn push_sign(text: &mut Vec<u8>, further: bool, negative: bool) -> Result<(), AllocError>
    ensures { OnOk result (text.new.items ≡ text.old.items ++ sign_text further negative) }
{
    match (further, negative) {
        (false, false) => Ok(()),
        (false, true) => push_text(text, b"-"),
        (true, false) => push_text(text, b" + "),
        (true, true) => push_text(text, b" - "),
    }
}

impl Printer<'_> {
    // Appends a power: the variable, and `^` and the exponent where that is not 1.
    fn push_power(&self, text: &mut Vec<u8>, power: (u32, u32)) -> Result<(), AllocError>
        ensures { OnOk result (text.new.items ≡ text.old.items ++ power_text self.now.space self.now.names.now power) }
    {
        self.push_variable(text, power.0)?;
        if power.1 != 1 {
            push_text(text, b"^")?;
            push_number(text, self.alloc, u128::from(power.1))?;
        }
        Ok(())
    }

    // Appends powers, each behind a star.
    fn push_further_powers(
        &self,
        text: &mut Vec<u8>,
        powers: &[(u32, u32)],
    ) -> Result<(), AllocError>
        ensures { OnOk result (text.new.items
            ≡ text.old.items ++ flat_map (λ g. 42 ∷ g) (map (power_text self.now.space self.now.names.now) powers.now)) }
    {
        for power in powers {
            push_text(text, b"*")?;
            self.push_power(text, *power)?;
        }
        Ok(())
    }

    // Appends powers behind other factors, or as the first ones.
    fn push_powers(
        &self,
        text: &mut Vec<u8>,
        further: bool,
        powers: &[(u32, u32)],
    ) -> Result<(), AllocError>
        ensures { OnOk result (text.new.items
            ≡ text.old.items ++ behind further (map (power_text self.now.space self.now.names.now) powers.now)) }
    {
        match powers {
            [] => Ok(()),
            [first, rest @ ..] => {
                push_star(text, further)?;
                self.push_power(text, *first)?;
                self.push_further_powers(text, rest)
            }
        }
    }

    // Appends a last factor.
    fn push_last_factor(&self, text: &mut Vec<u8>, last: &LastFactor) -> Result<(), AllocError>
        ensures { OnOk result (text.new.items ≡ text.old.items ++ last_text self.now.names.now (last_of last.now)) }
    {
        match last {
            LastFactor::Derivative(unknown, counts) => self.push_derivative(text, *unknown, counts),
            LastFactor::BaseVector(variable) => {
                push_text(text, b"d_")?;
                self.push_name(text, *variable)
            }
        }
    }

    // Appends the last factor, where there is one, behind other factors or as the first.
    fn push_last(
        &self,
        text: &mut Vec<u8>,
        further: bool,
        last: &Option<LastFactor>,
    ) -> Result<(), AllocError>
        ensures { OnOk result (text.new.items
            ≡ text.old.items ++ behind further (last_factor self.now.names.now (option_map last_of last.now))) }
    {
        match last {
            Some(last) => {
                push_star(text, further)?;
                self.push_last_factor(text, last)
            }
            None => Ok(()),
        }
    }

    // Appends a term without its sign: the number, unless it is 1 before other factors, the powers and the last factor.
    fn push_term(&self, text: &mut Vec<u8>, term: &Term) -> Result<(), AllocError>
        ensures { OnOk result (text.new.items ≡ text.old.items ++ term_text self.now.space self.now.names.now (printed term.now)) }
    {
        let size = term.number.size();
        let powers = term.monomial.pairs();
        let shown = is_shown(size, powers, &term.last);
        push_shown(text, self.alloc, size, shown)?;
        self.push_powers(text, shown, powers)?;
        self.push_last(text, is_further(shown, powers), &term.last)?;
        Ok(())
    }

    // Appends a term with its sign.
    fn push_signed(&self, text: &mut Vec<u8>, further: bool, term: &Term) -> Result<(), AllocError>
        ensures { OnOk result (text.new.items
            ≡ text.old.items ++ signed_text self.now.space self.now.names.now further (printed term.now)) }
    {
        push_sign(text, further, term.number.get() < 0)?;
        self.push_term(text, term)
    }

    // Appends further terms.
    fn push_further(&self, text: &mut Vec<u8>, terms: &[Term]) -> Result<(), AllocError>
        ensures { OnOk result (text.new.items
            ≡ text.old.items ++ flat_map (signed_text self.now.space self.now.names.now true) (map printed terms.now)) }
    {
        for term in terms {
            self.push_signed(text, true, term)?;
        }
        Ok(())
    }

    /// Appends a sum of terms; that of none is 0.
    pub fn push_sum(&self, text: &mut Vec<u8>, terms: &[Term]) -> Result<(), AllocError>
        ensures { OnOk result (text.new.items ≡ text.old.items ++ sum_text self.now.space self.now.names.now (map printed terms.now)) }
    {
        match terms {
            [] => push_text(text, b"0"),
            [first, rest @ ..] => {
                self.push_signed(text, false, first)?;
                self.push_further(text, rest)
            }
        }
    }
}
