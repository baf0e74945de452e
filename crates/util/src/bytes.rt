// Bytes laid into places.
ghost use Rattle.std.specs.Prelude.{◌≡◌, length};

// The bytes of one slice into another that is as long. By index, and not by the library's `copy_from_slice`: its copy is a call of memmove,
// which the archive for C would need from outside.
pub fn lay(from: &[u8], to: &mut [u8])
    requires { length to.old ≡ length from.now }
    ensures { to.new ≡ from.now }
{
    for i in 0..from.len() {
        to[i] = from[i];
    }
}
