// Terms, with the sum of the absolute values of like ones.
ghost use Rattle.std.specs.Prelude.{◌≡◌, ℕ, ◌+◌, ◌<◌, ◌^◌, [], ◌∷◌, ◌++◌, IfOk, Some, None, if◌then◌else◌, nat_lt, option_map};
ghost use Rattle.lie_scan.specs.Sizes.{AreSizes, size_in, key_cmp};
ghost use Rattle.std.specs.Ordering.{is_eq};
ghost use Rattle.std.specs.Global.{Vec};
ghost use Rattle.lie_scan.specs.Terms.{with_term};
ghost use Rattle.lie_ring.specs.Ratios.{signed};

use lie_bytes::NoMemory;
use lie_ring::{Mono, Ring, Whole};
use std::alloc::Global;
use std::collections::BTreeMap;

/// Terms, and the sum of the absolute values of like ones by the pairs of their monomial.
#[derive(Drop)]
pub struct Terms {
    pub list: Vec<(Mono, Whole)>,
    pub sizes: BTreeMap<Vec<(u32, u32)>, u128>,
    ghost sized: { AreSizes sizes list.items },
}

/// The sum of two numbers, up to 2^127 - 1.
pub fn grown(size: u128, number: u128) -> Option<u128>
    ensures { result ≡ (if nat_lt (size + number) (2 ^ 127) then Some (size + number) else None) }
{
    let sum = size.checked_add(number)?;
    if sum <= i128::MAX as u128 {
        Some(sum)
    } else {
        None
    }
}

/// The number with a sign.
pub fn signed(negative: bool, number: u128) -> Whole
    requires { number < 2 ^ 127 }
    ensures { result ≡ signed negative number }
{
    match Whole::new(number as i128) {
        Some(size) => { if negative { size.neg() } else { size } }
        None => unreachable!(),
    }
}

impl Terms {
    /// No terms.
    pub fn new(alloc: Global) -> Terms
        ensures { result.list.items ≡ [] }
    {
        Terms {
            list: Vec::new(alloc),
            sizes: BTreeMap::new(alloc),
        }
    }

    // The sum of the absolute values of the terms with the pairs of a monomial.
    fn size_at(&self, key: &Vec<(u32, u32)>) -> u128
        ensures { result ≡ size_in self.now.sizes key.now }
    {
        self.sizes.get(key).copied().unwrap_or(0)
    }

    /// The terms and one more; None where its like terms sum to more than 2^127 - 1.
    pub fn with_term(
        self,
        alloc: Global,
        negative: bool,
        number: u128,
        mono: Mono,
    ) -> Result<Option<Terms>, NoMemory>
        requires { number < 2 ^ 127 }
        ensures { IfOk result (λ terms. option_map (λ t. t.list.items) terms ≡ with_term negative number mono self.list.items) }
    {
        let key = Vec::from_slice(alloc, mono.pairs())?;
        let size = self.size_at(&key);
        match grown(size, number) {
            Some(total) => {
                let Terms { list, sizes } = self;
                let sizes = with_size(sizes, key, total)?;
                let list = with_last(list, mono, signed(negative, number))?;
                Ok(Some(Terms { list, sizes }))
            }
            None => Ok(None),
        }
    }
}

/// The map with a size at a key.
pub fn with_size(
    sizes: BTreeMap<Vec<(u32, u32)>, u128>,
    key: Vec<(u32, u32)>,
    size: u128,
) -> Result<BTreeMap<Vec<(u32, u32)>, u128>, NoMemory>
    ensures { IfOk result (λ new. (other : Vec (ℕ × ℕ))
        → size_in new other ≡ (if is_eq (key_cmp key other) then size else size_in sizes other)) }
{
    let mut sizes = sizes;
    sizes.insert(key, size)?;
    Ok(sizes)
}

// The list with one more term.
fn with_last(
    list: Vec<(Mono, Whole)>,
    mono: Mono,
    value: Whole,
) -> Result<Vec<(Mono, Whole)>, NoMemory>
    ensures { IfOk result (λ new. new.items ≡ list.items ++ (mono, value) ∷ []) }
{
    let mut list = list;
    list.push((mono, value))?;
    Ok(list)
}
