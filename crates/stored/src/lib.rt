// Stored images on standard input, one behind the other, each after a head whose last four bytes are its length.
#![tactic(auto)]

ghost use Rattle.std.specs.Prelude.{◌≤◌, length, IfSome};

use image::little::u32_at;

// The next one: its head, and how many bytes of the buffer it takes. None where there is none, or no room for it.
pub fn next_stored<const N: usize>(head: &mut [u8; N], buffer: &mut [u8]) -> Option<usize>
    ensures { IfSome result (λ n. n ≤ length buffer.new) }
{
    if io::read_full(0, head) < N {
        return None;
    }
    let n = u32_at(head, N.saturating_sub(4)) as usize;
    if buffer.len() < n || io::read_full(0, &mut buffer[..n]) < n {
        return None;
    }
    Some(n)
}
