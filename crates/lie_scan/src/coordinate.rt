// Coordinates as they are written.
ghost use Rattle.std.specs.Prelude.{◌≡◌, ◌+◌, ◌≤◌, ◌<◌, IsTrue, IfSome, IfOk, length, slice_index};
ghost use Rattle.lie_geometry.specs.Coordinates.{number as number_in};
ghost use Rattle.lie_scan.specs.Stops.{Gives};
ghost use Rattle.lie_scan.specs.Names.{one_more, place_of, letter_counts};
ghost use Rattle.lie_scan.specs.Tokens.{place_of_word, are_names, derivative, plain, coordinate_at};
ghost use Rattle.lie_scan.specs.Variables.{seen, IsVariable, AreCounts};
ghost use Rattle.lie_jet.specs.Limits.{greatest_variable_count, greatest_written_order};

use crate::fault::BadKind;
use crate::runs::{Class, split_run};
use crate::stop::{Stop, stop_at};
use lie_jet::{Jet, Space, jet_number};

/// The greatest order of a derivative that is written.
const MAX_ORDER: usize = 6;

/// A coordinate: an independent variable by its place, or a jet.
#[derive(Clone, Copy, Debug, PartialEq, Eq)]
pub enum Variable {
    Independent(u8),
    Dependent(Jet),
}

/// The number of a coordinate.
#[tactic(auto, unfolding(lie_geometry::specs::Coordinates::number))]
pub fn number_of(space: Space, variable: Variable) -> u32
    requires { IsVariable space variable }
    ensures { result ≡ number_in space (seen space variable) }
{
    match variable {
        Variable::Independent(place) => u32::from(place),
        Variable::Dependent(jet) => jet_number(space, &jet),
    }
}

// The place of a letter among names.
fn place_of(names: &[u8], letter: u8) -> Option<u8>
    requires { length names.now ≤ 8 }
    ensures value { result ≡ place_of names.now letter }
    ensures within { IfSome result (λ i. i < length names.now) }
{
    for (place, name) in names.iter().enumerate() {
        if *name == letter {
            return Some(place as u8);
        }
    }
    None
}

/// The place among names of a word that is one of them.
pub fn place_of_word(names: &[u8], word: &[u8]) -> Option<u8>
    requires { length names.now ≤ 8 }
    ensures value { result ≡ place_of_word names.now word.now }
    ensures within { IfSome result (λ i. i < length names.now) }
{
    match word {
        [letter] => place_of(names, *letter),
        _ => None,
    }
}

// Puts one more at a place.
fn put_one_more(counts: &mut [u8; 4], place: Option<u8>)
    requires within { IfSome place (λ i. i < greatest_variable_count) }
    requires low { IfSome place (λ i. slice_index counts.old i < 255) }
    ensures { counts.new ≡ one_more counts.old place }
{
    if let Some(place) = place {
        counts[usize::from(place)] += 1;
    }
}

// How often each independent variable stands in a word.
fn letter_counts(independent: &[u8], word: &[u8]) -> [u8; 4]
    requires few { length independent.now ≤ greatest_variable_count }
    requires short { length word.now ≤ greatest_written_order }
    ensures value { result ≡ letter_counts independent.now word.now }
    ensures jet { AreCounts independent.now (length word.now) result }
{
    let mut counts = [0; 4];
    for letter in word {
        let place = place_of(independent, *letter);
        put_one_more(&mut counts, place);
    }
    counts
}

// Whether each letter of a word is a name.
fn are_names(names: &[u8], word: &[u8]) -> bool
    requires { length names.now ≤ 8 }
    ensures { result ≡ are_names names.now word.now }
{
    for letter in word {
        if place_of(names, *letter).is_none() {
            return false;
        }
    }
    true
}

// The derivative of the dependent variable that a word names, by the letters of another.
#[tactic(auto, using(crate::proofs::CountSteps::counts_jet), unfolding(crate::specs::Tokens::derivative))]
fn derivative(
    space: Space,
    names: &[u8],
    word: &[u8],
    by: &[u8],
    text: &[u8],
) -> Result<Variable, Stop>
    requires { length names.now ≡ space.p + space.q }
    ensures value { Gives (λ v. seen space v) result (derivative space names.now word.now by.now text.now) }
    ensures variable { IfOk result (λ v. IsVariable space v) }
{
    let (independent, dependent) = names.split_at(usize::from(space.p));
    match place_of_word(dependent, word) {
        None => Err(stop_at(BadKind::UnknownName, text)),
        Some(dep) => {
            if !are_names(independent, by) {
                Err(stop_at(BadKind::UnknownName, text))
            } else if by.len() > MAX_ORDER {
                Err(stop_at(BadKind::Order, text))
            } else {
                Ok(Variable::Dependent(Jet {
                    dep,
                    counts: letter_counts(independent, by),
                }))
            }
        }
    }
}

// The variable that a word names.
#[tactic(auto, using(crate::proofs::CountSteps::zero_jet), unfolding(crate::specs::Tokens::plain))]
fn plain(space: Space, names: &[u8], word: &[u8], text: &[u8]) -> Result<Variable, Stop>
    requires { length names.now ≡ space.p + space.q }
    ensures value { Gives (λ v. seen space v) result (plain space names.now word.now text.now) }
    ensures variable { IfOk result (λ v. IsVariable space v) }
{
    match place_of_word(names, word) {
        None => Err(stop_at(BadKind::UnknownName, text)),
        Some(place) => {
            if place < space.p {
                Ok(Variable::Independent(place))
            } else {
                Ok(Variable::Dependent(Jet {
                    dep: place - space.p,
                    counts: [0; 4],
                }))
            }
        }
    }
}

/// The coordinate in front, and what is behind.
#[tactic(auto, unfolding(crate::specs::Tokens::coordinate_at))]
pub fn coordinate_at<'a>(
    space: Space,
    names: &[u8],
    text: &'a [u8],
) -> Result<(Variable, &'a [u8]), Stop>
    requires { length names.now ≡ space.p + space.q }
    ensures value { Gives (λ x. (seen space x.0, x.1.now)) result (coordinate_at space names.now text.now) }
    ensures variable { IfOk result (λ x. IsVariable space x.0) }
{
    let (word, rest) = split_run(Class::Letter, text);
    if word.is_empty() {
        return Err(stop_at(BadKind::Syntax, text));
    }
    match rest {
        [b'_', behind @ ..] => {
            let (by, rest) = split_run(Class::Letter, behind);
            if by.is_empty() {
                return Err(stop_at(BadKind::Syntax, behind));
            }
            let variable = derivative(space, names, word, by, text)?;
            Ok((variable, rest))
        }
        _ => {
            let variable = plain(space, names, word, text)?;
            Ok((variable, rest))
        }
    }
}
