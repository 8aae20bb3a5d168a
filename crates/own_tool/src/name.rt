//! The names of files.

ghost use Rattle.std.specs.Prelude.{◌≡◌, IsUtf8};

use own_tree::Bytes;

/// The name of a file, as text.
pub(crate) fn name_of(file: &Bytes) -> &str
    requires { IsUtf8 file.now }
    ensures { result.now ≡ file.now }
{
    str::from_utf8(file.as_slice()).unwrap()
}
