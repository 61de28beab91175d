// The names of kept studies.
ghost use Rattle.std.specs.Prelude.{◌≡◌, ◌↔◌, IsTrue, IfOk, MatchOption};
ghost use Rattle.lie_outer.specs.Names.{IsStudyName, IsStudyNameByte};

use crate::NoMemory;
use std::alloc::Global;
use std::marker::Model;

// A name has no more bytes.
const MAX_NAME_BYTES: usize = 32;

/// The name of a kept study: 1 to 32 small letters, digits and dashes. A contract sees it as its bytes.
#[derive(Drop, Debug)]
pub struct Name {
    items: Vec<u8>,
}

impl Model for Name {
    ghost use Rattle.std.specs.Prelude.{ℕ, List};
    ghost use Rattle.lie_outer.specs.Names.{IsStudyName};

    ghost Value = { List ℕ };

    ghost view = { λ n. n.items.items };

    ghost invariant = { λ n. IsStudyName n.items.items };
}

fn is_name_byte(byte: u8) -> bool
    ensures { IsTrue result ↔ IsStudyNameByte byte }
{
    byte.is_ascii_lowercase() || byte.is_ascii_digit() || byte == b'-'
}

/// Says whether the bytes are a name.
pub fn is_name(bytes: &[u8]) -> bool
    ensures { IsTrue result ↔ IsStudyName bytes.now }
{
    !bytes.is_empty() && bytes.len() <= MAX_NAME_BYTES && bytes.iter().all(|b| is_name_byte(*b))
}

impl Name {
    /// The name with these bytes, or `None` exactly where they are none. `NoMemory` where there is none for it.
    pub fn read(alloc: Global, bytes: &[u8]) -> Result<Option<Name>, NoMemory>
        ensures { IfOk result (λ made. MatchOption made
            (IsStudyName bytes.now → ⊥)
            (λ name. (name ≡ bytes.now) × IsStudyName bytes.now)) }
    {
        if !is_name(bytes) {
            return Ok(None);
        }
        Ok(Some(Name {
            items: bytes.to_vec(alloc)?,
        }))
    }

    /// An equal name. `NoMemory` where there is none for it.
    pub fn copy(&self, alloc: Global) -> Result<Name, NoMemory>
        ensures { IfOk result (λ name. name ≡ self.now) }
    {
        Ok(Name {
            items: self.items.to_vec(alloc)?,
        })
    }

    /// The bytes, from the first on.
    pub fn bytes(&self) -> &[u8]
        ensures value { result.now ≡ self.now }
        ensures name { IsStudyName self.now }
    {
        &self.items
    }
}
