//! Bytes that are read from memory.

ghost use Rattle.std.specs.Prelude.{◌≡◌, ◌<◌, ◌≤◌, take, drop, length, min};

// Copies the front of `from` to the front of `buf`, at most `most` bytes, and reports how many.
pub(crate) fn copy_front(from: &[u8], most: usize, buf: &mut [u8]) -> usize
    ensures count { result ≡ min (length from.now) (min most (length buf.old)) }
    ensures bytes { take result buf.new ≡ take result from.now }
    ensures rest { drop result buf.new ≡ drop result buf.old }
{
    let n = from.len().min(most.min(buf.len()));
    buf[..n].copy_from_slice(&from[..n]);
    n
}

// Copies what stands in `bytes` from byte `at` on to the front of `buf`, and reports how many bytes.
pub(crate) fn copy_from(bytes: &[u8], at: u64, buf: &mut [u8]) -> usize
    ensures count { result ≡ min (length (drop at bytes.now)) (length buf.old) }
    ensures bytes { take result buf.new ≡ take result (drop at bytes.now) }
    ensures rest { drop result buf.new ≡ drop result buf.old }
{
    if at >= bytes.len() as u64 {
        return 0;
    }
    let most = buf.len();
    copy_front(&bytes[at as usize..], most, buf)
}
