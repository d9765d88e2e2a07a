// Where the routes of a sequence image stand: the bytes from there on are its last three sections, a route image.
ghost use Rattle.std.specs.Prelude.{◌≡◌, ◌+◌, ◌≤◌, length, drop};
ghost use Rattle.image.specs.Image.{routes_in};
ghost use Rattle.image.specs.Read.{read_routes, section_at, end_of};
ghost use Rattle.unwind.specs.Answers.{image_of};
ghost use Rattle.text.specs.Chart.{route_bytes};

use image::kinds::Record;
use image::little::u32_at;
use image::read::read_routes;
use image::record::{Case, GivenEdge, GivenSource, Handler, Instruction};
use image::section::{RouteLayout, Section};

// Behind the instructions, cases, given sources, given edges and handlers. No bytes are left where they end sooner.
#[tactic(auto, using(std::proofs::lemmas::List::drop_min), unfolding(crate::specs::Chart::route_bytes, image::specs::Read::code_layout_of))]
pub fn routes_at(s: &[u8]) -> usize
    ensures within { result ≤ length s.now }
    ensures bytes { drop result s.now ≡ route_bytes s.now }
{
    let cases = section_end::<Instruction>(s, 12);
    let sources = section_end::<Case>(s, cases);
    let edges = section_end::<GivenSource>(s, sources);
    let handlers = section_end::<GivenEdge>(s, edges);
    let routes = section_end::<Handler>(s, handlers);
    routes.min(s.len())
}

// The sections of a route image, empty where it is refused.
#[tactic(auto, unfolding(image::specs::Image::table, image::specs::Image::records_in))]
pub fn route_layout(s: &[u8]) -> RouteLayout
    ensures { routes_in s.now result ≡ image_of (read_routes s.now) }
{
    let none = Section {
        at: 0,
        width: 0,
        count: 0,
    };
    read_routes(s).unwrap_or(RouteLayout {
        routes: none,
        paths: none,
        steps: none,
    })
}

// Where the section of records R ends whose count stands at `at`.
fn section_end<R: Record>(s: &[u8], at: usize) -> usize
    requires { at ≤ 100000 }
    ensures end { result ≡ end_of (section_at R.kind s.now at) }
    ensures near { result ≤ at + 15876 }
{
    let records = u32_at(s, at).min(R::LIMIT) as usize;
    at + 4 + R::WIDTH * records
}
