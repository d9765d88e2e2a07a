// A build: the graph of an image, stored in what a caller lends, or the refusal. All is decided before the first
// store.
ghost use Rattle.std.specs.Prelude.{◌≡◌, ◌≤◌, ◌<◌};
ghost use Rattle.image.specs.Refusal.{clear};
ghost use Rattle.image.specs.Whole.{contents};
ghost use Rattle.graph.specs.Error.{check_of};
ghost use Rattle.graph.specs.Transfer.{size};
ghost use Rattle.graph.specs.Blocks.{entry_of};
ghost use Rattle.graph.specs.Edges.{edges_of, unresolved_of, calls_of};
ghost use Rattle.graph.specs.Adding.{Added};
ghost use Rattle.graph.specs.Build.{entry_check, input_check, result_check, graph_from, build_of, build_from};
ghost use Rattle.graph.specs.Answers.{Laid};
ghost use Rattle.builder.specs.Code.{image_of};
ghost use Rattle.builder.specs.Marks.{Leading};
ghost use Rattle.builder.specs.Emit.{Fits};
ghost use Rattle.builder.specs.Answers.{build_answer, BuildLeaves, Graphed, code_only};

use crate::blocks::{number_blocks, store_blocks, store_table};
use crate::calls::add_calls;
use crate::checks::{check_entry, check_given, check_sources, check_table};
use crate::code::{Checked, Code, Numbered};
use crate::continuations::check_continuations;
use crate::edge_count::check_edge_count;
use crate::edges::add_normal_edges;
use crate::exceptions::add_exception_edges;
use crate::leaders::mark_leaders;
use crate::ranges::check_handlers;
use crate::regions::{add_regions, block_at};
use crate::route::check_routes;
use graph::error::AddressBuildError;
use graph::store::{Graph, empty, set_entry};
use image::whole::Image;

// The graph of an image of any mode: `build_address_cfg` (0), `build_address_cfg_with_routes` (1),
// `build_address_cfg_from_given_edges` (2).
pub fn build(s: &[u8], g: &mut Graph) -> Result<(), AddressBuildError>
    ensures answer { build_answer g.new result ≡ build_from s.now }
    ensures leaves { BuildLeaves g.old g.new result }
    ensures graphed { Graphed g.new result }
{
    let image = Image::read(s)?;
    build_read(&image, g)
}

// The same of an image that was read, in the smaller frame if there is surely room in it: an instruction takes 31 bytes. Fewer
// hints do for few instructions, but not where many bytes name their addresses.
pub fn build_read(image: &Image<'_>, g: &mut Graph) -> Result<(), AddressBuildError>
    ensures answer { build_answer g.new result ≡ build_of (contents image.now) }
    ensures leaves { BuildLeaves g.old g.new result }
{
    if image.bytes.len() < 65 * 31 {
        build_framed::<127, 64>(image, g)
    } else {
        build_framed::<1023, 512>(image, g)
    }
}

// In a frame with room for HINTS hints and for BLOCKS instructions.
fn build_framed<const HINTS: usize, const BLOCKS: usize>(
    image: &Image<'_>,
    g: &mut Graph,
) -> Result<(), AddressBuildError>
    requires few { size (contents image.now) ≤ BLOCKS }
    requires hints { HINTS < 65536 }
    requires blocks { BLOCKS < 65536 }
    ensures answer { build_answer g.new result ≡ build_of (contents image.now) }
    ensures leaves { BuildLeaves g.old g.new result }
{
    let mut hints = [0u16; HINTS];
    let mut blocks = [0u16; BLOCKS];
    build_in(image, g, &mut hints, &mut blocks)
}

// By hints, and by the numbers of the positions' blocks, for which there is room.
fn build_in(
    image: &Image<'_>,
    g: &mut Graph,
    hints: &mut [u16],
    blocks: &mut [u16],
) -> Result<(), AddressBuildError>
    requires fits { Fits (contents image.now) blocks.old }
    ensures answer { build_answer g.new result ≡ build_of (contents image.now) }
    ensures leaves { BuildLeaves g.old g.new result }
{
    let end = check_table(&image.instructions(), hints)?;
    let code = Code {
        image: *image,
        hints,
        end,
    };
    check_input(&code)?;
    let checked = Checked { code };
    let marks = mark_leaders([false; 512], &checked);
    check_result(&checked, &marks)?;
    store_graph(checked, &marks, blocks, g);
    Ok(())
}

// 6 to 15, in their order, behind 3 to 5.
#[tactic(auto, unfolding(graph::specs::Build::input_check))]
fn check_input(code: &Code<'_>) -> Result<(), AddressBuildError>
    ensures { check_of result ≡ input_check (image_of code.now) }
{
    check_entry(code)?;
    check_sources(code)?;
    check_given(code)?;
    check_handlers(code)?;
    check_routes(code)
}

// 16 and 19.
#[tactic(auto, unfolding(graph::specs::Build::result_check))]
fn check_result(checked: &Checked<'_>, marks: &[bool; 512]) -> Result<(), AddressBuildError>
    requires leading { Leading (image_of checked.now.code) marks.now }
    ensures { check_of result ≡ result_check (image_of checked.now.code) }
{
    check_continuations(checked, marks)?;
    check_edge_count(checked, marks)
}

// The graph of an image that no check refused.
fn store_graph(checked: Checked<'_>, marks: &[bool; 512], blocks: &mut [u16], g: &mut Graph)
    requires leading { Leading (image_of checked.code) marks.now }
    requires results_clear { result_check (image_of checked.code) ≡ clear }
    requires fits { Fits (image_of checked.code) blocks.old }
    ensures { Laid g.old g.new (graph_from (image_of checked.entry.code)) }
{
    let code = checked.code;
    let n = code.size();
    number_blocks(blocks, marks, n);
    let numbered = Numbered { code, blocks };
    store_code(&numbered.code, marks, g);
    store_edges(&numbered, marks, g);
    add_regions(g, &numbered);
    set_entry(g, entry_block(&numbered));
}

// The table and its blocks, and nothing else.
fn store_code(code: &Code<'_>, marks: &[bool; 512], g: &mut Graph)
    requires leading { Leading (image_of code.now) marks.now }
    ensures { Laid g.old g.new (code_only (image_of code.now)) }
{
    let n = code.size();
    empty(g);
    store_table(g, code);
    store_blocks(g, marks, n);
}

// The edges, normal ones and those of handlers, the unresolved transfers, and the flattened calls.
fn store_edges(numbered: &Numbered<'_>, marks: &[bool; 512], g: &mut Graph)
    requires leading { Leading (image_of numbered.now.code) marks.now }
    ensures { Added g.old g.new (edges_of (image_of numbered.now.code)) (unresolved_of (image_of numbered.now.code)) (calls_of (image_of numbered.now.code)) }
{
    add_normal_edges(g, numbered, marks);
    add_exception_edges(g, numbered);
    add_calls(g, &numbered.code);
}

// The block at which the sequence is entered.
fn entry_block(numbered: &Numbered<'_>) -> u64
    requires entry_clear { entry_check (image_of numbered.now.code) ≡ clear }
    ensures { result ≡ entry_of (image_of numbered.now.code) }
{
    let header = numbered.code.image.layout.header;
    if header.has_entry {
        return block_at(numbered, header.entry);
    }
    0
}
