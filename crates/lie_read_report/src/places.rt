// Lines found by the letter that they begin with.
ghost use Rattle.std.specs.Prelude.{◌≡◌, map};
ghost use Rattle.lie_readback.specs.Readings.{Reads};
ghost use Rattle.lie_read_report.specs.ReportDrafts.{begins_with, last_place, is_dash, has_none};

use lie_readback::drafts::behind;
use lie_readback::unread::Unread;

// Whether a line begins with a letter.
fn begins_with(letter: u8, line: &[u8]) -> bool
    ensures { result ≡ begins_with letter line.now }
{
    match line {
        [first, ..] => *first == letter,
        [] => false,
    }
}

/// How many lines are before the last one that begins with a letter.
pub fn last_place(letter: u8, lines: &[&[u8]]) -> Result<usize, Unread>
    ensures { Reads (λ n. n) result (last_place letter (map (λ l. l.now) lines.now)) }
{
    let mut i = lines.len();
    while i > 0 {
        i -= 1;
        if begins_with(letter, lines[i]) {
            return Ok(i);
        }
    }
    Err(Unread::Other)
}

// Whether a text begins with `-`.
fn is_dash(text: &[u8]) -> bool
    ensures { result ≡ is_dash text.now }
{
    match text {
        [first, ..] => *first == b'-',
        [] => false,
    }
}

/// Whether the line of the number of generators says that there is no basis.
pub fn has_none(line: &[u8]) -> bool
    ensures { result ≡ has_none line.now }
{
    is_dash(behind(line, 11))
}
