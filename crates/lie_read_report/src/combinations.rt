// Combinations of generators. They are read leniently, since what is read is printed again and compared.
ghost use Rattle.std.specs.Prelude.{◌≡◌, ◌<◌, ◌^◌, ◌==◌, IfOk, map, replicate};
ghost use Rattle.std.specs.List.{slice_split};
ghost use Rattle.lie_scan.specs.Tokens.{value_of};
ghost use Rattle.lie_readback.specs.Readings.{Reads};
ghost use Rattle.lie_read_report.specs.Combinations.{ratio_in, read_ratio, read_generator, multiple_in, read_multiple, with_ratio};
ghost use Rattle.lie_read_report.specs.Combinations.{with_multiple, read_word, read_words, combination_in, entry_in, read_entry};
ghost use Rattle.lie_read_report.specs.Combinations.{combination_seen, no_ratio};

use lie_readback::parts::{factors_of, words_of};
use lie_readback::unread::Unread;
use lie_ring::Ratio;
use lie_scan::number::value_of;
use lie_scan::terms::signed;
use std::alloc::{AllocError, Global};

// The parts of a text between slashes.
fn sides_of(alloc: Global, text: &[u8]) -> Result<Vec<&[u8]>, AllocError>
    ensures { IfOk result (λ parts. map (λ p. p.now) parts.items ≡ slice_split (λ b. b == 47) text.now) }
{
    text.split(|b| *b == 47).collect(alloc)
}

// The number that digits spell.
fn read_number(digits: &[u8]) -> Result<u128, Unread>
    ensures value { Reads (λ n. n) result (value_of digits.now) }
    ensures small { IfOk result (λ n. n < 2 ^ 127) }
{
    match value_of(digits) {
        Some(number) => Ok(number),
        None => Err(Unread::Other),
    }
}

// The ratio that is a number, or two of which these are the digits.
fn ratio_in(negative: bool, parts: &[&[u8]]) -> Result<Ratio, Unread>
    ensures { Reads (λ r. r) result (ratio_in negative (map (λ p. p.now) parts.now)) }
{
    match parts {
        [number] => {
            let size = read_number(number)?;
            Ok(Ratio {
                num: signed(negative, size).get(),
                den: 1,
            })
        }
        [number, over] => {
            let size = read_number(number)?;
            let den = read_number(over)?;
            Ok(Ratio {
                num: signed(negative, size).get(),
                den,
            })
        }
        _ => Err(Unread::Other),
    }
}

// The ratio that a text is.
fn read_ratio(alloc: Global, negative: bool, text: &[u8]) -> Result<Ratio, Unread>
    ensures { Reads (λ r. r) result (read_ratio negative text.now) }
{
    let parts = sides_of(alloc, text)?;
    ratio_in(negative, parts.as_slice())
}

// The number of a generator, behind its letter.
fn read_generator(text: &[u8]) -> Result<u128, Unread>
    ensures { Reads (λ n. n) result (read_generator text.now) }
{
    match text {
        [_, digits @ ..] => read_number(digits),
        [] => Err(Unread::Other),
    }
}

// The multiple of a generator that has these factors.
fn multiple_in(alloc: Global, negative: bool, factors: &[&[u8]]) -> Result<(u128, Ratio), Unread>
    ensures { Reads (λ m. m) result (multiple_in negative (map (λ f. f.now) factors.now)) }
{
    match factors {
        [generator] => {
            let number = read_generator(generator)?;
            let one = Ratio {
                num: signed(negative, 1).get(),
                den: 1,
            };
            Ok((number, one))
        }
        [ratio, generator] => {
            let ratio = read_ratio(alloc, negative, ratio)?;
            let number = read_generator(generator)?;
            Ok((number, ratio))
        }
        _ => Err(Unread::Other),
    }
}

// The multiple of a generator that a text is.
fn read_multiple(alloc: Global, negative: bool, text: &[u8]) -> Result<(u128, Ratio), Unread>
    ensures { Reads (λ m. m) result (read_multiple negative text.now) }
{
    let factors = factors_of(alloc, text)?;
    multiple_in(alloc, negative, factors.as_slice())
}

// The ratios, with that of a multiple at the place of its generator.
fn with_ratio(ratios: Vec<Ratio>, number: u128, ratio: Ratio) -> Result<Vec<Ratio>, Unread>
    ensures { Reads (λ rs. rs.items) result (with_ratio ratios.items (number, ratio)) }
{
    let place = number.saturating_sub(1);
    if place < ratios.len() as u128 {
        let mut ratios = ratios;
        ratios[place as usize] = ratio;
        Ok(ratios)
    } else {
        Err(Unread::Other)
    }
}

/// A combination that is read: its ratios so far, one for each generator, and the sign of the multiple that comes next.
#[derive(Drop)]
pub struct Combination {
    pub negative: bool,
    pub ratios: Vec<Ratio>,
}

// The combination with one more multiple.
fn with_multiple(
    alloc: Global,
    ratios: Vec<Ratio>,
    negative: bool,
    text: &[u8],
) -> Result<Combination, Unread>
    ensures { Reads combination_seen result (with_multiple ratios.items negative text.now) }
{
    let (number, ratio) = read_multiple(alloc, negative, text)?;
    let ratios = with_ratio(ratios, number, ratio)?;
    Ok(Combination { negative, ratios })
}

// The combination with a further word: a sign, 0, or a multiple.
fn read_word(alloc: Global, sum: Combination, word: &[u8]) -> Result<Combination, Unread>
    ensures { Reads combination_seen result (read_word (combination_seen sum) word.now) }
{
    match word {
        [] => Err(Unread::Other),
        [b'+'] => Ok(Combination {
            negative: false,
            ratios: sum.ratios,
        }),
        [b'-'] => Ok(Combination {
            negative: true,
            ratios: sum.ratios,
        }),
        [b'0'] => Ok(sum),
        [_] => Err(Unread::Other),
        [b'-', text @ ..] => with_multiple(alloc, sum.ratios, true, text),
        _ => with_multiple(alloc, sum.ratios, sum.negative, word),
    }
}

// The combination with further words.
fn read_words(alloc: Global, sum: Combination, words: &[&[u8]]) -> Result<Combination, Unread>
    ensures { Reads combination_seen result (read_words (combination_seen sum) (map (λ w. w.now) words.now)) }
{
    let mut sum = sum;
    let mut i = 0;
    while i < words.len() {
        let more = read_word(alloc, sum, words[i])?;
        sum = more;
        i += 1;
    }
    Ok(sum)
}

// As many zeros.
fn zeros(alloc: Global, count: usize) -> Result<Vec<Ratio>, AllocError>
    ensures { IfOk result (λ rs. rs.items ≡ replicate count no_ratio) }
{
    let zero = Ratio { num: 0, den: 1 };
    vec![in alloc; zero; count]
}

// The combination of generators that has these words.
fn combination_in(alloc: Global, count: usize, words: &[&[u8]]) -> Result<Vec<Ratio>, Unread>
    ensures { Reads (λ rs. rs.items) result (combination_in count (map (λ w. w.now) words.now)) }
{
    let none = Combination {
        negative: false,
        ratios: zeros(alloc, count)?,
    };
    let sum = read_words(alloc, none, words)?;
    Ok(sum.ratios)
}

// The combination in the words of a line.
fn entry_in(alloc: Global, count: usize, words: &[&[u8]]) -> Result<Vec<Ratio>, Unread>
    ensures { Reads (λ rs. rs.items) result (entry_in count (map (λ w. w.now) words.now)) }
{
    match words {
        [_, _, words @ ..] => combination_in(alloc, count, words),
        _ => Err(Unread::Other),
    }
}

/// The combination in the line of a commutator, a ratio for each generator.
pub fn read_entry(alloc: Global, count: usize, line: &[u8]) -> Result<Vec<Ratio>, Unread>
    ensures { Reads (λ rs. rs.items) result (read_entry count line.now) }
{
    let words = words_of(alloc, line)?;
    entry_in(alloc, count, words.as_slice())
}
