//! Byte strings in arrays of a fixed length.
ghost use Rattle.std.specs.Prelude.{◌≡◌, ◌-◌, ◌≤◌, ◌++◌, length, replicate};

/// The bytes, and zeros up to the end.
pub(crate) fn padded<const N: usize>(bytes: &[u8]) -> [u8; N]
    requires { length bytes.now ≤ N }
    ensures { result ≡ bytes.now ++ replicate (N - length bytes.now) 0 }
{
    let mut padded = [0; N];
    let (first, _) = padded.split_at_mut(bytes.len());
    first.copy_from_slice(bytes);
    padded
}
