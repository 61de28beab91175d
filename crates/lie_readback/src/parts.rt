// Texts between separators.
ghost use Rattle.std.specs.Prelude.{◌≡◌, ◌==◌, IfOk, map};
ghost use Rattle.std.specs.List.{slice_split};

use std::alloc::{AllocError, Global};

/// The parts of a text between line ends.
pub fn lines_of(alloc: Global, text: &[u8]) -> Result<Vec<&[u8]>, AllocError>
    ensures { IfOk result (λ parts. map (λ p. p.now) parts.items ≡ slice_split (λ b. b == 10) text.now) }
{
    text.split(|b| *b == 10).collect(alloc)
}

/// The parts of a text between blanks.
pub fn words_of(alloc: Global, text: &[u8]) -> Result<Vec<&[u8]>, AllocError>
    ensures { IfOk result (λ parts. map (λ p. p.now) parts.items ≡ slice_split (λ b. b == 32) text.now) }
{
    text.split(|b| *b == 32).collect(alloc)
}

/// The parts of a text between stars.
pub fn factors_of(alloc: Global, text: &[u8]) -> Result<Vec<&[u8]>, AllocError>
    ensures { IfOk result (λ parts. map (λ p. p.now) parts.items ≡ slice_split (λ b. b == 42) text.now) }
{
    text.split(|b| *b == 42).collect(alloc)
}
