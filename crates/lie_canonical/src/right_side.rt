// The right side of an equation with a lead: the lead minus what the equation says is 0.
ghost use Rattle.std.specs.Prelude.{◌≡◌, ◌++◌, ◌∷◌, [], ℤ, List, map, pos, ◌+ℤ◌, neg_ℤ, None, Some, IfOk, IfSome, OnOk};
ghost use Rattle.std.specs.List.{AllByRecursion as Every};
ghost use Rattle.lie_math.specs.SortedSum.{put_new};
ghost use Rattle.lie_math.specs.Integer.{coefficients};
ghost use Rattle.lie_math.specs.Limits.{FitsNumber};
ghost use Rattle.lie_math.specs.Monomial.{Monomial, monomial_cmp, single};
ghost use Rattle.lie_math.specs.Polynomial.{term, negᴾ, ◌+ᴾ◌};
ghost use Rattle.lie_print.specs.PrintedTerms.{printed, polynomial_terms};
ghost use Rattle.lie_canonical.specs.RightSides.{turned_terms, plain_terms, Leaves};

use lie_bytes::NoMemory;
use lie_jet::JetPoly;
use lie_print::printed_term::Term;
use lie_ring::{Mono, Polynomial, Ring, Whole};
use std::alloc::Global;
use std::cmp::Ordering;

// Puts a term behind others.
fn push_plain(out: &mut Vec<Term>, monomial: Mono, number: Whole) -> Result<(), NoMemory>
    ensures { OnOk result (map printed out.new.items ≡ map printed out.old.items ++ (number, monomial, None) ∷ []) }
{
    out.push(Term {
        number,
        monomial,
        last: None,
    })?;
    Ok(())
}

// Puts a term behind others, unless its number is 0.
fn push_some(out: &mut Vec<Term>, monomial: Mono, number: Whole) -> Result<(), NoMemory>
    ensures { OnOk result (map printed out.new.items
        ≡ map printed out.old.items ++ plain_terms (put_new monomial_cmp coefficients monomial number [])) }
{
    if number.get() == 0 {
        return Ok(());
    }
    push_plain(out, monomial, number)
}

// 1 minus a number.
fn one_minus(number: &Whole) -> Whole
    requires { FitsNumber (pos 1 +ℤ neg_ℤ number.now) }
    ensures { result ≡ pos 1 +ℤ neg_ℤ number.now }
{
    match Whole::one().add(&number.neg()) {
        Some(rest) => rest,
        None => unreachable!(),
    }
}

// Puts a term with the other sign behind others, and the lead at its place; what is left of the lead.
fn push_turned(
    out: &mut Vec<Term>,
    alloc: Global,
    lead: Option<Mono>,
    term: &(Mono, Whole),
) -> Result<Option<Mono>, NoMemory>
    requires fits { IfSome lead (λ m. Leaves m term.now) }
    ensures turned { IfOk result (λ left. (es : List (Monomial × ℤ))
        → map printed out.new.items ++ plain_terms (turned_terms left es)
        ≡ map printed out.old.items ++ plain_terms (turned_terms lead (term.now ∷ es))) }
    ensures lead { IfOk result (λ left. IfSome left (λ m. lead ≡ Some m)) }
{
    let monomial = term.0.copy(alloc)?;
    match lead {
        None => {
            push_plain(out, monomial, term.1.neg())?;
            Ok(None)
        }
        Some(lead) => match lead.compare(&monomial) {
            Ordering::Less => {
                push_plain(out, lead, Whole::one())?;
                push_plain(out, monomial, term.1.neg())?;
                Ok(None)
            }
            Ordering::Equal => {
                push_some(out, lead, one_minus(&term.1))?;
                Ok(None)
            }
            Ordering::Greater => {
                push_plain(out, monomial, term.1.neg())?;
                Ok(Some(lead))
            }
        },
    }
}

// Puts the lead behind all terms where it is still to come.
fn push_lead(out: &mut Vec<Term>, lead: Option<Mono>) -> Result<(), NoMemory>
    ensures { OnOk result (map printed out.new.items ≡ map printed out.old.items ++ plain_terms (turned_terms lead [])) }
{
    match lead {
        None => Ok(()),
        Some(lead) => push_plain(out, lead, Whole::one()),
    }
}

// The terms with the other sign, and the lead among them.
fn turned_terms(alloc: Global, lead: Mono, terms: &[(Mono, Whole)]) -> Result<Vec<Term>, NoMemory>
    requires { Every (Leaves lead) terms.now }
    ensures { IfOk result (λ ts. map printed ts.items ≡ plain_terms (turned_terms (Some lead) terms.now)) }
{
    let mut out = Vec::new(alloc);
    let mut left = Some(lead);
    for term in terms {
        left = push_turned(&mut out, alloc, left, term)?;
    }
    push_lead(&mut out, left)?;
    Ok(out)
}

/// The terms of a lead minus a polynomial, in print order.
pub fn right_side(alloc: Global, lead: Mono, diff: &JetPoly) -> Result<Vec<Term>, NoMemory>
    requires { Every (Leaves lead) diff.now.list }
    ensures { IfOk result (λ ts. map printed ts.items ≡ polynomial_terms (term lead (pos 1) +ᴾ negᴾ diff.now)) }
{
    let terms = diff.terms(alloc)?;
    turned_terms(alloc, lead, terms.as_slice())
}
