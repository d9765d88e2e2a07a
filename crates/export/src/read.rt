// The readers: the answer in ten words.
ghost use Rattle.std.specs.Prelude.{List, ◌≡◌, ℕ};
ghost use Rattle.image.specs.Verdict.{refusal_of};
ghost use Rattle.image.specs.Image.{image_in, routes_in};
ghost use Rattle.image.specs.Read.{read, read_image, read_routes};
ghost use Rattle.export.specs.Told.{told_image, told_routes, refusal_words};

use image::form::ImageError;
use image::read::{read_image, read_routes};
use image::section::{Layout, RouteLayout};

#[unsafe(no_mangle)]
pub extern "C" fn foldzine_read_image(s: &[u8], told: &mut [u64; 10])
    ensures { told.new ≡ told_image (read_image s.now) }
{
    *told = match read_image(s) {
        Ok(y) => image_words(y),
        Err(e) => refusal_words(e),
    };
}

#[unsafe(no_mangle)]
pub extern "C" fn foldzine_read_routes(s: &[u8], told: &mut [u64; 10])
    ensures { told.new ≡ told_routes (read_routes s.now) }
{
    *told = match read_routes(s) {
        Ok(y) => route_words(y),
        Err(e) => refusal_words(e),
    };
}

#[tactic(auto, using(crate::proofs::AnswerLaws::counts))]
fn image_words(y: Layout) -> [u64; 10]
    ensures { (l : List ℕ) → result ≡ told_image (read (image_in l y)) }
{
    let c = y.code;
    let r = y.routes;
    [
        0,
        0,
        u64::from(c.instructions.count),
        u64::from(c.cases.count),
        u64::from(c.sources.count),
        u64::from(c.edges.count),
        u64::from(c.handlers.count),
        u64::from(r.routes.count),
        u64::from(r.paths.count),
        u64::from(r.steps.count),
    ]
}

#[tactic(auto, using(crate::proofs::AnswerLaws::counts))]
fn route_words(y: RouteLayout) -> [u64; 10]
    ensures { (l : List ℕ) → result ≡ told_routes (read (routes_in l y)) }
{
    [
        0,
        0,
        0,
        0,
        0,
        0,
        0,
        u64::from(y.routes.count),
        u64::from(y.paths.count),
        u64::from(y.steps.count),
    ]
}

fn refusal_words(e: ImageError) -> [u64; 10]
    ensures { result ≡ refusal_words (refusal_of e) }
{
    match e {
        ImageError::BadForm { offset } => [1, offset as u64, 0, 0, 0, 0, 0, 0, 0, 0],
        ImageError::OverLimit { offset } => [2, offset as u64, 0, 0, 0, 0, 0, 0, 0, 0],
    }
}
