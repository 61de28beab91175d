// Columns: components with monomials.
ghost use Rattle.std.specs.Prelude.{◌≡◌};
ghost use Rattle.lie_math.specs.Limits.{HasLowExponents};
ghost use Rattle.lie_math.specs.Monomial.{degree};
ghost use Rattle.lie_math.specs.Natural.{naturals};
ghost use Rattle.lie_math.specs.SortedSum.{sum_of_entries};
ghost use Rattle.lie_spans.specs.Fields.{column_cmp};

use lie_ring::Mono;
use std::cmp::Ordering;
use std::marker::Model;

/// A component of a field, and a monomial in it whose exponents are at most 65,535.
#[derive(Drop)]
pub struct Column {
    component: u8,
    mono: Mono,
}

impl Model for Column {
    ghost use Rattle.lie_math.specs.Limits.{HasLowExponents};
    ghost use Rattle.lie_spans.specs.Fields as fields;
    ghost use Rattle.lie_algebra.specs.ColumnLists.{column_code};

    ghost Value = { fields.Column };

    ghost coded = { column_code };

    ghost view = { λ c. (c.component, c.mono) };

    ghost invariant = { λ c. HasLowExponents c.mono };
}

impl Column {
    /// The column of a monomial in a component. It takes no memory.
    pub fn new(component: u8, mono: Mono) -> Column
        requires { HasLowExponents mono }
        ensures { result ≡ (component, mono) }
    {
        Column { component, mono }
    }

    /// The component.
    pub fn component(&self) -> u8
        ensures { result ≡ self.now.0 }
    {
        self.component
    }

    /// The monomial.
    pub fn mono(&self) -> &Mono
        ensures mono { result.now ≡ self.now.1 }
        ensures low { HasLowExponents self.now.1 }
    {
        &self.mono
    }

    /// The order of columns: by component, then the lower degree first, then as printed.
    pub fn compare(&self, other: &Column) -> Ordering
        ensures { result ≡ column_cmp self.now other.now }
    {
        let component = self.component.cmp(&other.component);
        let degree = degree_of(&self.mono).cmp(&degree_of(&other.mono));
        component.then(degree.then(self.mono.compare(&other.mono)))
    }
}

/// The sum of the exponents.
pub fn degree_of(mono: &Mono) -> u128
    ensures { result ≡ degree mono.now }
{
    sum_of_exponents(mono.pairs())
}

/// The sum of the exponents of some pairs.
fn sum_of_exponents(pairs: &[(u32, u32)]) -> u128
    ensures { result ≡ sum_of_entries naturals (λ v e. e) pairs.now }
{
    let mut total: u128 = 0;
    for (_, exponent) in pairs {
        total += u128::from(*exponent);
    }
    total
}
