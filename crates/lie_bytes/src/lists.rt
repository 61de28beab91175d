// Lists of bytes that own their memory, and the one error that every call which takes memory may answer.
ghost use Rattle.std.specs.Prelude.{◌≡◌, ◌<◌, ℕ, List, [], All, IfOk, MatchOption};

use std::alloc::{AllocError, AllocFailed, Global};
use std::marker::Model;

/// There was no memory. No clause says when this comes, since no caller can know it.
#[derive(Clone, Copy, Debug, PartialEq, Eq)]
pub struct NoMemory;

impl From<AllocError> for NoMemory {
    fn from(_error: AllocError) -> NoMemory {
        NoMemory
    }
}

impl<T: Drop> From<AllocFailed<T>> for NoMemory {
    fn from(_failed: AllocFailed<T>) -> NoMemory {
        NoMemory
    }
}

/// Any bytes. A contract sees them as their list.
#[derive(Drop, Debug)]
pub struct Bytes {
    items: Vec<u8>,
}

impl Model for Bytes {
    ghost Value = { List ℕ };

    ghost view = { λ b. b.items.items };
}

impl Bytes {
    /// A copy of the bytes. `NoMemory` where there is none for it.
    pub fn of(alloc: Global, bytes: &[u8]) -> Result<Bytes, NoMemory>
        ensures { IfOk result (λ made. made ≡ bytes.now) }
    {
        Ok(Bytes {
            items: bytes.to_vec(alloc)?,
        })
    }

    /// The bytes of the vector, which are moved: it takes no memory.
    pub fn from_vec(items: Vec<u8>) -> Bytes
        ensures { result ≡ items.items }
    {
        Bytes { items }
    }

    /// The vector of the bytes, which are moved: it takes no memory.
    pub fn into_vec(self) -> Vec<u8>
        ensures { result.items ≡ self }
    {
        self.items
    }

    /// The bytes, from the first on.
    pub fn bytes(&self) -> &[u8]
        ensures { result.now ≡ self.now }
    {
        &self.items
    }
}

/// Bytes that are ASCII, each at most hex 7F. A contract sees them as their list.
#[derive(Drop, Debug)]
pub struct Text {
    items: Vec<u8>,
}

impl Model for Text {
    ghost Value = { List ℕ };

    ghost view = { λ t. t.items.items };
}

impl Text {
    /// A copy of the bytes, or `None` exactly where one of them isn't ASCII. `NoMemory` where there is none for the copy.
    pub fn of(alloc: Global, bytes: &[u8]) -> Result<Option<Text>, NoMemory>
        ensures { IfOk result (λ made. MatchOption made
            (All (λ b. b < 128) bytes.now → ⊥)
            (λ text. (text ≡ bytes.now) × All (λ b. b < 128) bytes.now)) }
    {
        if !bytes.iter().all(|b| *b < 128) {
            return Ok(None);
        }
        Ok(Some(Text {
            items: bytes.to_vec(alloc)?,
        }))
    }

    /// The empty text. It takes no memory.
    pub fn empty(alloc: Global) -> Text
        ensures { result ≡ [] }
    {
        Text {
            items: Vec::new(alloc),
        }
    }

    /// An equal text. `NoMemory` where there is none for it.
    pub fn copy(&self, alloc: Global) -> Result<Text, NoMemory>
        ensures { IfOk result (λ text. text ≡ self.now) }
    {
        Ok(Text {
            items: self.items.to_vec(alloc)?,
        })
    }

    /// The bytes, from the first on.
    pub fn bytes(&self) -> &[u8]
        ensures { result.now ≡ self.now }
    {
        &self.items
    }
}

#[cfg(test)]
mod tests {
    use super::*;
    use std::test::Fail;

    #[test]
    fn bytes_and_texts_are_copies(rt: HostRuntime) -> Result<(), Fail> {
        let alloc = rt.alloc();
        let bytes = Bytes::of(alloc, b"\x00\xff")?;
        assert_eq!(rt; bytes.bytes(), b"\x00\xff".as_slice());
        assert_eq!(rt; bytes.into_vec().as_slice(), b"\x00\xff".as_slice());
        let moved = Bytes::from_vec(vec![in alloc; 7]?);
        assert_eq!(rt; moved.bytes(), b"\x07".as_slice());
        let text = Text::of(alloc, b"x\x7f")?.expect(&rt, "ASCII");
        assert_eq!(rt; text.bytes(), b"x\x7f".as_slice());
        assert!(rt; Text::of(alloc, b"x\x80")?.is_none());
        assert_eq!(rt; text.copy(alloc)?.bytes(), b"x\x7f".as_slice());
        assert!(rt; Text::empty(alloc).bytes().is_empty());
        Ok(())
    }
}
