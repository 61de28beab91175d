// Tables of commutators that are well formed.
ghost use Rattle.std.specs.Prelude.{◌≡◌, MatchBool, map, unsigned_abs};
ghost use Rattle.std.specs.List.{AllByRecursion as Every};
ghost use Rattle.lie_report.specs.Reports.{entry_of};
ghost use Rattle.lie_read_report.specs.WellFormed.{IsReportedRatio, IsReportedEntry, IsReportedTable};

use lie_ring::{Ratio, gcd};

/// The least number that is too wide for a ratio.
const LIMIT: u128 = 1 << 127;

// The absolute value of the numerator.
fn numerator_size(ratio: Ratio) -> u128
    ensures { result ≡ unsigned_abs ratio.num }
{
    ratio.num.unsigned_abs()
}

// Whether a ratio is in lowest terms, and its numbers are within the limits.
fn is_lowest(ratio: &Ratio) -> bool
    ensures { MatchBool result (IsReportedRatio ratio.now) (¬ (IsReportedRatio ratio.now)) }
{
    let size = numerator_size(*ratio);
    if size >= LIMIT {
        return false;
    }
    if ratio.den >= LIMIT {
        return false;
    }
    if ratio.den == 0 {
        return false;
    }
    gcd(size, ratio.den) == 1
}

// Whether this holds of all ratios.
fn are_lowest(ratios: &[Ratio]) -> bool
    ensures { MatchBool result (Every IsReportedRatio ratios.now) (¬ (Every IsReportedRatio ratios.now)) }
{
    for ratio in ratios {
        if !is_lowest(ratio) {
            return false;
        }
    }
    true
}

// Whether there is such a ratio for each of `count` generators.
fn is_entry(count: usize, ratios: &[Ratio]) -> bool
    ensures { MatchBool result (IsReportedEntry count ratios.now) (¬ (IsReportedEntry count ratios.now)) }
{
    if ratios.len() != count {
        return false;
    }
    are_lowest(ratios)
}

// Whether this holds of all entries.
fn are_entries(count: usize, entries: &[Vec<Ratio>]) -> bool
    ensures { MatchBool result (Every (IsReportedEntry count) (map entry_of entries.now))
        (¬ (Every (IsReportedEntry count) (map entry_of entries.now))) }
{
    for entry in entries {
        if !is_entry(count, entry.as_slice()) {
            return false;
        }
    }
    true
}

/// Whether there is such an entry for each pair of `count` generators.
pub fn is_table(count: usize, entries: &[Vec<Ratio>]) -> bool
    ensures { MatchBool result (IsReportedTable count (map entry_of entries.now)) (¬ (IsReportedTable count (map entry_of entries.now))) }
{
    let pairs = count as u128 * (count as u128).saturating_sub(1);
    if 2 * entries.len() as u128 != pairs {
        return false;
    }
    are_entries(count, entries)
}
