// A chart on standard output. No contract can say what is written: `draw` says what the graph and the hops hold whose lines are printed,
// and each line is what `text` says it is.
#![tactic(auto)]

mod draw;

use crate::draw::draw;
use graph::error::AddressBuildError;
use graph::reach::reached;
use graph::store::{Graph, zeros};
use image::section::RouteLayout;
use text::chart::{line_at, line_count, reached_line, refused_line};
use text::hops::{HopText, hop_line, lists_of};
use text::routes::{route_layout, routes_at};
use unwind::hops::{Hops, hop_count};

// The chart of an image.
pub fn print_chart(s: &[u8]) {
    let mut g = zeros();
    let mut h = [0u64; 18440];
    match draw(s, &mut g, &mut h) {
        Err(e) => print_refusal(e),
        Ok(()) => {
            print_graph(&g);
            let at = routes_at(s);
            print_hops(&h, &s[at..]);
            print_reached(&g);
        }
    }
}

// All lines of a graph up to the hops.
fn print_graph(g: &Graph) {
    let mut line = [0u8; 256];
    for k in 0..line_count(g) {
        let n = line_at(g, k, &mut line);
        io::write_all(1, &line[..n]);
    }
}

// All lines of the hops that routes gave.
fn print_hops(h: &Hops, s: &[u8]) {
    let y = route_layout(s);
    let mut line = [0u8; 10816];
    for i in 0..hop_count(h) {
        print_lists(h, s, y, i, &mut line);
    }
}

// A line for each list of hop i.
fn print_lists(h: &Hops, s: &[u8], y: RouteLayout, i: usize, line: &mut HopText) {
    for k in 0..lists_of(h, i) {
        let n = hop_line(h, s, y, i, k, line);
        io::write_all(1, &line[..n]);
    }
}

// How many blocks are reached.
fn print_reached(g: &Graph) {
    let mut line = [0u8; 256];
    let n = reached_line(reached(g).count, &mut line);
    io::write_all(1, &line[..n]);
}

fn print_refusal(e: AddressBuildError) {
    let mut line = [0u8; 256];
    let n = refused_line(e, &mut line);
    io::write_all(1, &line[..n]);
}
