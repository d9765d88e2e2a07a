// Says of each stored image what the reader finds: how many records its sections have, or the refusal. A byte before an
// image's length tells an image (0) from routes (1).
//
// Not by `println!`, which assumes errno and its text besides the C library's read and write.
#![tactic(auto)]

use image::form::ImageError;
use image::read::{read_image, read_routes};
use image::section::{RouteLayout, Section};
use stored::next_stored;

fn main() {
    let mut head = [0u8; 5];
    let mut buffer = io::large_buffer();
    for _ in 0..1000000usize {
        let Some(n) = next_stored(&mut head, &mut buffer) else {
            return;
        };
        if head[0] == 0 {
            tell_image(&buffer[..n]);
        } else {
            tell_routes(&buffer[..n]);
        }
    }
}

fn tell_image(s: &[u8]) {
    match read_image(s) {
        Err(e) => tell_refusal(e),
        Ok(y) => {
            let c = y.code;
            io::write_all(1, b"read");
            tell_count(c.instructions);
            tell_count(c.cases);
            tell_count(c.sources);
            tell_count(c.edges);
            tell_count(c.handlers);
            tell_layout(y.routes);
        }
    }
}

fn tell_routes(s: &[u8]) {
    match read_routes(s) {
        Err(e) => tell_refusal(e),
        Ok(y) => {
            io::write_all(1, b"read");
            tell_layout(y);
        }
    }
}

fn tell_layout(y: RouteLayout) {
    tell_count(y.routes);
    tell_count(y.paths);
    tell_count(y.steps);
    io::write_all(1, b"\n");
}

fn tell_count(y: Section) {
    io::write_all(1, b" ");
    io::print_decimal(1, y.count as u64);
}

fn tell_refusal(e: ImageError) {
    match e {
        ImageError::BadForm { offset } => tell_offset(b"refused 1 ", offset),
        ImageError::OverLimit { offset } => tell_offset(b"refused 2 ", offset),
    }
}

fn tell_offset(head: &[u8], offset: usize) {
    io::write_all(1, head);
    io::print_decimal(1, offset as u64);
    io::write_all(1, b" 0\n");
}
