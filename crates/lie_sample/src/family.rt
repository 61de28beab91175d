// The files of the family.
ghost use Rattle.std.specs.Prelude.{◌≡◌, ◌≤◌, ◌++◌, IfOk, OnOk};
ghost use Rattle.lie_sample.specs.Family.{greatest_member, power, family_term, family_sum, family_file};

use lie_bytes::NoMemory;
use lie_print::name_texts::{push_number, push_text};
use std::alloc::{AllocError, Global};

/// The number of the least member that is taken.
pub const MIN_MEMBER: u64 = 2;

/// The number of the greatest member that is taken.
pub const MAX_MEMBER: u64 = 32;

// Appends a variable to a power, as a further factor; none to the power 0.
fn push_power(
    text: &mut Vec<u8>,
    alloc: Global,
    name: &[u8],
    exponent: u64,
) -> Result<(), AllocError>
    ensures { OnOk result (text.new.items ≡ text.old.items ++ power name.now exponent) }
{
    if exponent == 0 {
        return Ok(());
    }
    push_text(text, b"*")?;
    push_text(text, name)?;
    push_text(text, b"^")?;
    push_number(text, alloc, u128::from(exponent))
}

// Appends the term with these exponents of x and y.
fn push_term(text: &mut Vec<u8>, alloc: Global, j: u64, i: u64) -> Result<(), AllocError>
    requires { j ≤ greatest_member }
    ensures { OnOk result (text.new.items ≡ text.old.items ++ family_term j i) }
{
    push_number(text, alloc, u128::from(j + 1))?;
    push_power(text, alloc, b"x", j)?;
    push_power(text, alloc, b"y", i)
}

// Appends the sum of the k-th member.
fn push_sum(text: &mut Vec<u8>, alloc: Global, k: u64) -> Result<(), AllocError>
    requires { k ≤ greatest_member }
    ensures { OnOk result (text.new.items ≡ text.old.items ++ family_sum k k) }
{
    push_term(text, alloc, 0, k)?;
    for j in 0..k {
        push_text(text, b" + ")?;
        push_term(text, alloc, j + 1, k - (j + 1))?;
    }
    Ok(())
}

/// The file of the k-th member of the family: `y_xx` is the sum of `(j+1)*x^j*y^(k-j)` for j from 0 to k. An error where there is no
/// memory.
#[tactic(auto, unfolding(crate::specs::Family::family_file))]
pub fn family_file(alloc: Global, k: u64) -> Result<Vec<u8>, NoMemory>
    requires { k ≤ greatest_member }
    ensures { IfOk result (λ text. text.items ≡ family_file k) }
{
    let mut text = Vec::new(alloc);
    push_text(&mut text, b"lie 1\nvars x\ndeps y\neq y_xx = ")?;
    push_sum(&mut text, alloc, k)?;
    push_text(&mut text, b"\nend\n")?;
    Ok(text)
}
