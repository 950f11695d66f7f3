// A run of bytes in memory: whether it fits, filled with zeros, filled from another run.
// A compiler makes a call of memset of `fill`, which is all that the archive asks of its host. Copying is a loop and not
// `copy_from_slice`, which is a call of memmove: a host may have none, or one that goes a byte at a time.
#![tactic(auto)]

ghost use Rattle.std.specs.Prelude.{◌≡◌, ◌&&◌, ◌+◌, ◌-◌, length, replicate, leb};

// Whether n bytes from a on end at or before len, with no sum that wraps.
pub fn fits(a: u64, n: u64, len: u64) -> bool
    ensures { result ≡ leb (a + n) len }
{
    a.checked_add(n).is_some_and(|end| end <= len)
}

// Whether the n bytes at the address `at` lie in the len bytes at start.
pub fn is_within(start: u64, len: u64, at: u64, n: u64) -> bool
    ensures { result ≡ (leb start at && leb (at - start + n) len) }
{
    at.checked_sub(start).is_some_and(|o| fits(o, n, len))
}

pub fn zero(s: &mut [u8])
    ensures { s.new ≡ replicate (length s.old) 0 }
{
    s.fill(0);
}

pub fn copy(s: &mut [u8], from: &[u8])
    requires { length s.old ≡ length from.now }
    ensures { s.new ≡ from.now }
{
    for i in 0..from.len() {
        s[i] = from[i];
    }
}
