// The program chart: reads an image on standard input and prints its chart.
#![tactic(auto)]

use print::print_chart;

// The greatest image has 42,700 bytes: one more tells whether there are too many.
fn main() {
    let mut buffer = [0u8; 42701];
    let n = io::read_full(0, &mut buffer);
    print_chart(&buffer[..n]);
}
