//! The front of some bytes is copied.
ghost use Rattle.std.specs.Prelude.{◌≡◌, min, take, drop, length};

/// Copies as many of the bytes as there is room for to the front of `out`, and tells how many.
pub fn copy_front(out: &mut [u8], bytes: &[u8]) -> usize
    ensures count { result ≡ min (length bytes.now) (length out.old) }
    ensures front { take result out.new ≡ take result bytes.now }
    ensures behind { drop result out.new ≡ drop result out.old }
{
    let count = bytes.len().min(out.len());
    out[..count].copy_from_slice(&bytes[..count]);
    count
}
