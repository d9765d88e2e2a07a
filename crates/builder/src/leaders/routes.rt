// Marks of the routes: what they protect, and the funclets and handlers that their paths name.
ghost use Rattle.graph.specs.Transfer.{size};
ghost use Rattle.std.specs.Prelude.{◌<◌, length};
ghost use Rattle.graph.specs.Leaders.{route_mark};
ghost use Rattle.builder.specs.Code.{image_of};
ghost use Rattle.builder.specs.Marks.{Marked, route_range, route_range_mark, step_mark, funclet_mark, path_mark, path_end_mark};

use crate::code::Checked;
use crate::marks::{mark_range, mark_target_if};
use crate::ranges::range_check;
use graph::resume::{FUNCLET, HANDLER};

pub fn mark_routes(marks: &mut [bool; 512], checked: &Checked<'_>)
    ensures { Marked (size (image_of checked.now.code)) (route_mark (image_of checked.now.code)) marks.old marks.new }
{
    mark_route_ranges(marks, checked);
    mark_funclets(marks, checked);
    mark_path_ends(marks, checked);
}

fn mark_route_ranges(marks: &mut [bool; 512], checked: &Checked<'_>)
    ensures { Marked (size (image_of checked.now.code)) (route_range_mark (image_of checked.now.code)) marks.old marks.new }
{
    let n = checked.code.image.routes().routes().len();
    for r in 0..n {
        mark_route_range(marks, checked, r);
    }
}

fn mark_route_range(marks: &mut [bool; 512], checked: &Checked<'_>, r: usize)
    requires r_in { r < length (image_of checked.now.code).routes.routes }
    ensures { Marked (size (image_of checked.now.code)) (route_range (image_of checked.now.code) r) marks.old marks.new }
{
    let route = checked.code.image.routes().routes().get(r);
    let range = range_check(&checked.code, route.start, route.end);
    mark_range(marks, range);
}

// The funclets that the routes' paths enter.
fn mark_funclets(marks: &mut [bool; 512], checked: &Checked<'_>)
    ensures { Marked (size (image_of checked.now.code)) (funclet_mark (image_of checked.now.code)) marks.old marks.new }
{
    let n = checked.code.image.routes().steps().len();
    for k in 0..n {
        mark_funclet(marks, checked, k);
    }
}

fn mark_funclet(marks: &mut [bool; 512], checked: &Checked<'_>, k: usize)
    requires k_in { k < length (image_of checked.now.code).routes.steps }
    ensures { Marked (size (image_of checked.now.code)) (step_mark (image_of checked.now.code) k) marks.old marks.new }
{
    let step = checked.code.image.routes().steps().get(k);
    mark_target_if(marks, &checked.code, step.code == FUNCLET, step.value);
}

// The handlers at which they end.
fn mark_path_ends(marks: &mut [bool; 512], checked: &Checked<'_>)
    ensures { Marked (size (image_of checked.now.code)) (path_end_mark (image_of checked.now.code)) marks.old marks.new }
{
    let n = checked.code.image.routes().paths().len();
    for k in 0..n {
        mark_path_end(marks, checked, k);
    }
}

fn mark_path_end(marks: &mut [bool; 512], checked: &Checked<'_>, k: usize)
    requires k_in { k < length (image_of checked.now.code).routes.paths }
    ensures { Marked (size (image_of checked.now.code)) (path_mark (image_of checked.now.code) k) marks.old marks.new }
{
    let path = checked.code.image.routes().paths().get(k);
    mark_target_if(marks, &checked.code, path.end == HANDLER, path.handler);
}
