// Runs of bytes of one class.
ghost use Rattle.std.specs.Prelude.{◌≡◌};
ghost use Rattle.lie_scan.specs.Runs.{is_in, run, behind, after_blanks};

/// A class of bytes.
#[derive(Clone, Copy, Debug, PartialEq, Eq)]
pub enum Class {
    /// A space or a tab.
    Blank,
    /// A letter `a` to `z`.
    Letter,
    /// A digit.
    Digit,
    /// Any byte but a blank.
    Word,
    /// Any byte of a line before its comment and its end.
    Content,
}

/// Whether a byte is in a class.
pub fn is_in(class: Class, byte: u8) -> bool
    ensures { result ≡ is_in class byte }
{
    match class {
        Class::Blank => byte == b' ' || byte == b'\t',
        Class::Letter => b'a' <= byte && byte <= b'z',
        Class::Digit => b'0' <= byte && byte <= b'9',
        Class::Word => byte != b' ' && byte != b'\t',
        Class::Content => byte != b'#' && byte != b'\r',
    }
}

/// The bytes in front that are in the class, and those behind.
pub fn split_run(class: Class, bytes: &[u8]) -> (&[u8], &[u8])
    ensures front { result.0.now ≡ run class bytes.now }
    ensures back { result.1.now ≡ behind class bytes.now }
{
    for (i, byte) in bytes.iter().enumerate() {
        if !is_in(class, *byte) {
            return bytes.split_at(i);
        }
    }
    bytes.split_at(bytes.len())
}

/// The bytes behind the blanks in front.
pub fn after_blanks(bytes: &[u8]) -> &[u8]
    ensures { result.now ≡ after_blanks bytes.now }
{
    split_run(Class::Blank, bytes).1
}
