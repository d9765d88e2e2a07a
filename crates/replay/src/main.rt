// Replays stored images: prints the chart of each.
#![tactic(auto)]

use print::print_chart;
use stored::next_stored;

fn main() {
    let mut buffer = io::large_buffer();
    for _ in 0..1000000usize {
        let Some(n) = next_stored(&mut [0u8; 4], &mut buffer) else {
            return;
        };
        print_chart(&buffer[..n]);
    }
}
