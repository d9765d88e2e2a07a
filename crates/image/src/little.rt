// Numbers in bytes, the lowest first. Past the end of the bytes each byte is 0.
ghost use Rattle.std.specs.Prelude.{◌≡◌, ◌+◌, ◌≤◌, ◌<◌, length};
ghost use Rattle.image.specs.Little.{le1, le4, le8};

pub fn byte_at(s: &[u8], at: usize) -> u64
    ensures { (result ≡ le1 s.now at) × (result < 256) }
{
    if at < s.len() { u64::from(s[at]) } else { 0 }
}

// A byte that is there.
pub fn byte_in(s: &[u8], at: usize) -> u64
    requires { at < length s.now }
    ensures { (result ≡ le1 s.now at) × (result < 256) }
{
    u64::from(s[at])
}

pub fn u32_at(s: &[u8], at: usize) -> u64
    ensures { (result ≡ le4 s.now at) × (result < 4294967296) }
{
    if s.len() <= at {
        return 0;
    }
    if 4 <= s.len() - at {
        quad(s, at)
    } else {
        byte_at(s, at)
            + 0x100 * byte_at(s, at + 1)
            + 0x10000 * byte_at(s, at + 2)
            + 0x1000000 * byte_at(s, at + 3)
    }
}

pub fn u64_at(s: &[u8], at: usize) -> u64
    ensures { result ≡ le8 s.now at }
{
    if s.len() <= at {
        return 0;
    }
    if 8 <= s.len() - at {
        octet(s, at)
    } else {
        u32_at(s, at) + 0x100000000 * u32_at(s, at + 4)
    }
}

// Eight bytes that are there, and four: one load.
pub fn octet(s: &[u8], at: usize) -> u64
    requires { at + 8 ≤ length s.now }
    ensures { result ≡ le8 s.now at }
{
    u64::from_le_bytes([
        s[at],
        s[at + 1],
        s[at + 2],
        s[at + 3],
        s[at + 4],
        s[at + 5],
        s[at + 6],
        s[at + 7],
    ])
}

pub fn quad(s: &[u8], at: usize) -> u64
    requires { at + 4 ≤ length s.now }
    ensures { (result ≡ le4 s.now at) × (result < 4294967296) }
{
    u64::from(u32::from_le_bytes([s[at], s[at + 1], s[at + 2], s[at + 3]]))
}
