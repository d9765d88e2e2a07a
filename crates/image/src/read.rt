// The readers: a sequence image, or the routes for a later call.
//
// Nothing is copied: the answer is where the sections stand, or the refusal.
ghost use Rattle.std.specs.Prelude.{◌≡◌, ◌<◌, IfOk, Some, None};
ghost use Rattle.image.specs.Verdict.{check_of};
ghost use Rattle.image.specs.Read.{read_image, read_routes, section_at, end_of, children_of, pair_form, code_form, code_layout_of, routes_form, route_layout_at, end_form};
ghost use Rattle.image.specs.Scanned.{image_answer, routes_answer};
ghost use Rattle.image.specs.There.{Holds, CodeThere, RoutesThere, RoutesReadThere, ImageReadThere};

use crate::form::{ImageError, header_form};
use crate::kinds::Record;
use crate::record::{
    Case, GivenEdge, GivenSource, Handler, Instruction, Path, Route, Step, header_from,
};
use crate::scan::{read_section, section_of};
use crate::section::{CodeLayout, Layout, RouteLayout, Section, end_of};

// A section and that of its children, where this one ends, and how many children it has in turn.
#[derive(Clone, Copy)]
pub struct PairRead {
    pub parents: Section,
    pub children: Section,
    pub end: usize,
    pub grandchildren: u64,
}

#[tactic(auto, using(crate::proofs::Sections::ends), unfolding(crate::specs::Read::read_image, crate::specs::Read::image_form, crate::specs::Read::layout_of))]
pub fn read_image(s: &[u8]) -> Result<Layout, ImageError>
    ensures answer { image_answer s.now result ≡ read_image s.now }
    ensures there { ImageReadThere s.now result }
{
    header_form(s)?;
    let header = header_from(s);
    let code = read_code(s, header.mode == 2)?;
    let routes = read_route_sections(s, end_of(code.handlers), header.mode != 0)?;
    check_end(s, end_of(routes.steps))?;
    Ok(Layout {
        header,
        code,
        routes,
    })
}

#[tactic(auto, unfolding(crate::specs::Read::read_routes))]
pub fn read_routes(s: &[u8]) -> Result<RouteLayout, ImageError>
    ensures answer { routes_answer s.now result ≡ read_routes s.now }
    ensures there { RoutesReadThere s.now result }
{
    let routes = read_route_sections(s, 0, true)?;
    check_end(s, end_of(routes.steps))?;
    Ok(routes)
}

// No byte behind the last section.
fn check_end(s: &[u8], end: usize) -> Result<(), ImageError>
    ensures { check_of result ≡ end_form s.now end }
{
    if end < s.len() {
        return Err(ImageError::BadForm { offset: end });
    }
    Ok(())
}

// The sections from the instructions to the handlers.
#[tactic(auto, using(crate::proofs::Sections::ends), unfolding(crate::specs::Read::code_form, crate::specs::Read::code_layout_of))]
fn read_code(s: &[u8], given: bool) -> Result<CodeLayout, ImageError>
    ensures check { check_of result ≡ code_form s.now given }
    ensures layout { IfOk result (λ y. y ≡ code_layout_of s.now) }
    ensures there { IfOk result (λ y. CodeThere s.now y) }
{
    let instructions = read_pair::<Instruction, Case>(s, 12, true)?;
    let sources = read_pair::<GivenSource, GivenEdge>(s, instructions.end, given)?;
    let handlers = read_section::<Handler>(s, sources.end, true, None)?;
    Ok(CodeLayout {
        instructions: instructions.parents,
        cases: instructions.children,
        sources: sources.parents,
        edges: sources.children,
        handlers: section_of::<Handler>(sources.end, handlers.count),
    })
}

// The three sections of routes, the last of an image.
#[tactic(auto, using(crate::proofs::Sections::ends), unfolding(crate::specs::Read::routes_form, crate::specs::Read::route_layout_at))]
fn read_route_sections(s: &[u8], at: usize, used: bool) -> Result<RouteLayout, ImageError>
    requires { at < 8388608 }
    ensures check { check_of result ≡ routes_form s.now at used }
    ensures layout { IfOk result (λ y. y ≡ route_layout_at s.now at) }
    ensures there { IfOk result (λ y. RoutesThere s.now y) }
{
    let routes = read_pair::<Route, Path>(s, at, used)?;
    let steps = read_section::<Step>(s, routes.end, used, Some(routes.grandchildren))?;
    Ok(RouteLayout {
        routes: routes.parents,
        paths: routes.children,
        steps: section_of::<Step>(routes.end, steps.count),
    })
}

// A section and, behind it, that of its children.
fn read_pair<P: Record, C: Record>(s: &[u8], at: usize, used: bool) -> Result<PairRead, ImageError>
    requires { at < 12582912 }
    ensures check { check_of result ≡ pair_form P.kind C.kind s.now at used }
    ensures parents { IfOk result (λ r. r.parents ≡ section_at P.kind s.now at) }
    ensures children { IfOk result (λ r. r.children ≡ section_at C.kind s.now (end_of (section_at P.kind s.now at))) }
    ensures end { IfOk result (λ r. r.end ≡ end_of (section_at C.kind s.now (end_of (section_at P.kind s.now at)))) }
    ensures grandchildren { IfOk result (λ r. r.grandchildren ≡ children_of C.kind s.now (section_at C.kind s.now (end_of (section_at P.kind s.now at)))) }
    ensures parents_there { IfOk result (λ r. Holds s.now r.parents P.WIDTH) }
    ensures children_there { IfOk result (λ r. Holds s.now r.children C.WIDTH) }
{
    let parents = read_section::<P>(s, at, used, None)?;
    let children = read_section::<C>(s, parents.end, used, Some(parents.children))?;
    Ok(PairRead {
        parents: section_of::<P>(at, parents.count),
        children: section_of::<C>(parents.end, children.count),
        end: children.end,
        grandchildren: children.children,
    })
}
