// Big-endian numbers of one, two and four bytes.
ghost use Rattle.std.specs.Prelude.{◌≡◌, ◌+◌, ◌<◌, ◌≤◌, length, drop};
ghost use Rattle.expr.specs.Number.{number_of};

pub fn byte_at(s: &[u8], at: usize) -> usize
    requires { at + 1 ≤ length s.now }
    ensures { (result ≡ number_of 1 (drop at s.now)) × (result < 256) }
{
    usize::from(s[at])
}

pub fn two_at(s: &[u8], at: usize) -> usize
    requires { at + 2 ≤ length s.now }
    ensures { (result ≡ number_of 2 (drop at s.now)) × (result < 65536) }
{
    usize::from(u16::from_be_bytes([s[at], s[at + 1]]))
}

pub fn word_at(s: &[u8], at: usize) -> u32
    requires { at + 4 ≤ length s.now }
    ensures { result ≡ number_of 4 (drop at s.now) }
{
    u32::from_be_bytes([s[at], s[at + 1], s[at + 2], s[at + 3]])
}
