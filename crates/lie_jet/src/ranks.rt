// How many lists of counts there are, and the rank of one among those with its sum.
ghost use Rattle.std.specs.Prelude.{◌≡◌, suc, ◌+◌, ◌*◌, ◌<◌, ◌≤◌, length};
ghost use Rattle.lie_math.specs.Counts.{order};
ghost use Rattle.lie_geometry.specs.Coordinates.{sum_below, ways, rank as rank_in};
ghost use Rattle.lie_jet.specs.Limits.{greatest_variable_count, greatest_jet_order};

/// How many lists of `p` counts have a sum below `n`.
pub fn lists_below(p: usize, n: u32) -> u32
    requires few { p ≤ greatest_variable_count }
    requires low { n ≤ suc greatest_jet_order }
    ensures count { result ≡ sum_below (ways p) n }
    ensures small { result ≤ 1820 }
{
    match p {
        0 => n.min(1),
        1 => n,
        2 => n * (n + 1) / 2,
        3 => n * (n + 1) * (n + 2) / 6,
        _ => n * (n + 1) * (n + 2) * (n + 3) / 24,
    }
}

/// The sum of counts.
pub fn sum_of_counts(counts: &[u8]) -> u32
    requires { length counts.now ≤ 8 }
    ensures { result ≡ order counts.now }
{
    let mut sum = 0;
    for count in counts {
        sum += u32::from(*count);
    }
    sum
}

/// How many lists of as many counts with the same sum are lexicographically greater.
pub fn rank_of(counts: &[u8]) -> u32
    requires few { length counts.now ≤ greatest_variable_count }
    requires low { order counts.now ≤ greatest_jet_order }
    ensures rank { result ≡ rank_in counts.now }
    ensures small { result ≤ 1820 }
{
    if counts.len() == 0 {
        return 0;
    }
    let rest = &counts[1..];
    lists_below(rest.len(), sum_of_counts(rest)) + rank_of(rest)
}

/// The greatest number up to `most` below which at most `place` lists of `p` counts, `times` times each, have their sums.
pub fn sum_at(p: usize, times: u32, place: u32, most: u32) -> u32
    requires few { p ≤ greatest_variable_count }
    requires low { most ≤ greatest_jet_order }
    requires positive { 1 ≤ times }
    requires small { times ≤ greatest_variable_count }
    requires within { place < times * sum_below (ways p) (suc most) }
    ensures most { result ≤ most }
    ensures at { times * sum_below (ways p) result ≤ place }
    ensures next { place < times * sum_below (ways p) (suc result) }
{
    let mut sum = most;
    while times * lists_below(p, sum) > place {
        sum -= 1;
    }
    sum
}

/// Makes the counts those with a sum and a rank.
pub fn put_counts(counts: &mut [u8], sum: u32, rank: u32)
    requires few { length counts.old ≤ greatest_variable_count }
    requires low { sum ≤ greatest_jet_order }
    requires within { rank < ways (length counts.old) sum }
    ensures sum { order counts.new ≡ sum }
    ensures rank { rank_in counts.new ≡ rank }
{
    if counts.len() == 0 {
        return;
    }
    let left = counts.len() - 1;
    let rest = sum_at(left, 1, rank, sum);
    counts[0] = (sum - rest) as u8;
    put_counts(&mut counts[1..], rest, rank - lists_below(left, rest));
}
