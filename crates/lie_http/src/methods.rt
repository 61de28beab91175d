// Methods, by their names.
ghost use Rattle.std.specs.Prelude.{◌≡◌, bytes_eq};

use http::Method;

/// Says whether the bytes name the method.
pub(crate) fn is_method(bytes: &[u8], method: &Method) -> bool
    ensures { result ≡ bytes_eq bytes.now method.now }
{
    bytes == method.as_str().as_bytes()
}
