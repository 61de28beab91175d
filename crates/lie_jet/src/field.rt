// Vector fields.
ghost use Rattle.std.specs.Prelude.{◌≡◌, ◌≤◌};

use crate::totals::JetPoly;
use std::marker::Model;

/// A vector field: one part for each variable, the independent and then the dependent ones, all over a number of at least 1.
#[derive(Drop)]
pub struct Field {
    den: u128,
    parts: Vec<JetPoly>,
}

impl Model for Field {
    ghost use Rattle.std.specs.Prelude.{◌≤◌};
    ghost use Rattle.lie_math.specs.Codes.{vector_field_code};
    ghost use Rattle.lie_math.specs.VectorField.{VectorField};

    ghost Value = { VectorField };

    ghost coded = { vector_field_code };

    ghost view = { λ f. record { denominator = f.den; parts = f.parts.items } };

    ghost invariant = { λ f. 1 ≤ f.den };
}

impl Field {
    /// The field with these parts over `den`, which is at least 1. It takes no memory.
    pub fn new(den: u128, parts: Vec<JetPoly>) -> Field
        requires { 1 ≤ den }
        ensures den { result.denominator ≡ den }
        ensures parts { result.parts ≡ parts.items }
    {
        Field { den, parts }
    }

    /// The number under the parts, at least 1.
    pub fn den(&self) -> u128
        ensures den { result ≡ self.now.denominator }
        ensures positive { 1 ≤ result }
    {
        self.den
    }

    /// The parts.
    pub fn parts(&self) -> &[JetPoly]
        ensures { result.now ≡ self.now.parts }
    {
        self.parts.as_slice()
    }

    /// The parts, which are moved: it takes no memory.
    pub fn into_parts(self) -> Vec<JetPoly>
        ensures { result.items ≡ self.parts }
    {
        self.parts
    }
}
