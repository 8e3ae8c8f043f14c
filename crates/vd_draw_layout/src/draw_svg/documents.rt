//! Whole drawings.

ghost use Rattle.std.specs.Prelude.{◌≡◌, ◌++◌, IfOk, OnOk};
ghost use Rattle.std.specs.List.{flat_map};
ghost use Rattle.vd_draw_layout.specs.Documents as documents;
ghost use Rattle.vd_draw_layout.specs.Tags.{mark_text};

use crate::draw_svg::marks::Mark;
use crate::draw_svg::tags::{push_attribute, push_mark};
use crate::words::push_number;
use std::alloc::{AllocError, Global};
use vd_base::Bytes;

/// How classes look, and the drawings of shapes and of the heads of arrows.
const LOOK: &str = "<style>
text{font-family:\"DejaVu Sans Mono\",Menlo,Consolas,monospace;font-size:11.5px}
.bold{font-weight:bold}
.small{font-size:9.5px}
.source{font-style:italic;fill:#555}
.heading{font-size:16px;font-weight:bold}
.host{font-weight:bold;text-anchor:middle}
.pair{font-size:9.5px;text-anchor:middle}
.halo{font-size:9.5px;text-anchor:middle;stroke:#fff;stroke-width:7px;stroke-linejoin:round}
.name{font-size:9.5px;text-anchor:middle}
line{fill:none;stroke:#000}
.host-lane{stroke-width:2px}
.pair-lane{stroke:#999;stroke-dasharray:2 4}
.otherwise{stroke:#555;stroke-dasharray:5 3}
.clear{stroke:#820900;stroke-width:2px;marker-start:url(#from);marker-end:url(#full-clear)}
.checked{stroke:#820900;stroke-width:2px;marker-start:url(#from);marker-end:url(#full-checked)}
.opened{stroke:#bb8101;stroke-width:5px;marker-start:url(#from);marker-end:url(#full-opened)}
.middle{stroke:#fff;stroke-width:2px}
.revealed{stroke:#bb8101;stroke-width:4px;stroke-dasharray:1 3;marker-start:url(#from);marker-end:url(#full-opened)}
.shared{stroke:#008cff;stroke-width:2px;stroke-dasharray:7 4;marker-start:url(#from);marker-end:url(#open-shared)}
.committed{stroke:#071426;stroke-width:2px;stroke-dasharray:2 3;marker-start:url(#from);marker-end:url(#box-committed)}
.converted{stroke:#660387;stroke-width:2px;stroke-dasharray:9 3 2 3;marker-start:url(#from);marker-end:url(#open-converted)}
.stays{stroke:#777777;marker-start:url(#from);marker-end:url(#to)}
rect{fill:none;stroke:#000}
.page{fill:#fff;stroke:none}
.host-name{fill:#fff}
.branch{stroke:#555;stroke-dasharray:5 3}
.loop{stroke:#555}
.cost{fill:#bbb}
.dear{fill:#000}
</style>
<defs>
<marker id=\"from\" refX=\"0\" refY=\"0\" markerUnits=\"userSpaceOnUse\" markerWidth=\"8\" markerHeight=\"8\" overflow=\"visible\"><circle r=\"2\"/></marker>
<marker id=\"to\" refX=\"0\" refY=\"0\" markerUnits=\"userSpaceOnUse\" markerWidth=\"8\" markerHeight=\"8\" orient=\"auto\" overflow=\"visible\"><path d=\"M0 0H9\" stroke=\"#777777\"/><circle cx=\"9\" r=\"2\" fill=\"#777777\"/></marker>
<marker id=\"full-clear\" refX=\"0\" refY=\"0\" markerUnits=\"userSpaceOnUse\" markerWidth=\"8\" markerHeight=\"8\" orient=\"auto\" overflow=\"visible\"><path d=\"M0 -5L9 0L0 5z\" fill=\"#820900\"/></marker>
<marker id=\"full-checked\" refX=\"0\" refY=\"0\" markerUnits=\"userSpaceOnUse\" markerWidth=\"8\" markerHeight=\"8\" orient=\"auto\" overflow=\"visible\"><path d=\"M-8 -4v8M-4 -4v8\" stroke=\"#820900\"/><path d=\"M0 -5L9 0L0 5z\" fill=\"#820900\"/></marker>
<marker id=\"full-opened\" refX=\"0\" refY=\"0\" markerUnits=\"userSpaceOnUse\" markerWidth=\"8\" markerHeight=\"8\" orient=\"auto\" overflow=\"visible\"><path d=\"M0 -5L9 0L0 5z\" fill=\"#bb8101\"/></marker>
<marker id=\"open-shared\" refX=\"0\" refY=\"0\" markerUnits=\"userSpaceOnUse\" markerWidth=\"8\" markerHeight=\"8\" orient=\"auto\" overflow=\"visible\"><path d=\"M0 -5L9 0L0 5z\" fill=\"#fff\" stroke=\"#008cff\"/></marker>
<marker id=\"open-converted\" refX=\"0\" refY=\"0\" markerUnits=\"userSpaceOnUse\" markerWidth=\"8\" markerHeight=\"8\" orient=\"auto\" overflow=\"visible\"><path d=\"M0 -5L9 0L0 5z\" fill=\"#fff\" stroke=\"#660387\"/></marker>
<marker id=\"box-committed\" refX=\"0\" refY=\"0\" markerUnits=\"userSpaceOnUse\" markerWidth=\"8\" markerHeight=\"8\" orient=\"auto\" overflow=\"visible\"><path d=\"M0 -4H8V4H0z\" fill=\"#fff\" stroke=\"#071426\" stroke-width=\"2\"/></marker>
<g id=\"at-host\"><circle r=\"5\"/></g>
<g id=\"at-copy\"><circle r=\"5\" fill=\"#fff\" stroke=\"#000\" stroke-width=\"2\"/><circle r=\"2\"/></g>
<g id=\"at-sums\"><path d=\"M-8 0L0 -8L8 0L0 8z\" fill=\"#fff\" stroke=\"#000\"/><path d=\"M-4 0H4M0 -4V4\" stroke=\"#000\"/></g>
<g id=\"at-bits\"><path d=\"M-8 0L0 -8L8 0L0 8z\" fill=\"#fff\" stroke=\"#000\"/><path d=\"M-3 -3L3 3M-3 3L3 -3\" stroke=\"#000\"/></g>
<g id=\"at-committed\"><path d=\"M-6 -6H6V6H-6z\" fill=\"#fff\" stroke=\"#000\"/><path d=\"M-3 -3H3V3H-3z\"/></g>
<g id=\"at-variable\"><path d=\"M-5 -5H5V5H-5z\" fill=\"#fff\" stroke=\"#000\" stroke-width=\"2\"/></g>
<g id=\"at-printed\"><path d=\"M-6 -6H6L0 6z\" fill=\"#fff\" stroke=\"#000\" stroke-width=\"2\"/></g>
</defs>
";

/// What shapes mean.
const LEGEND: &str =
    "<text class=\"plain\" x=\"112\" y=\"0\">not drawn: the masked words that operations on sums and bits exchange</text>
<use xlink:href=\"#at-host\" x=\"30\" y=\"22\"/><text class=\"plain\" x=\"44\" y=\"26\">one host has the word</text>
<use xlink:href=\"#at-copy\" x=\"213\" y=\"22\"/><text class=\"plain\" x=\"227\" y=\"26\">copies</text>
<use xlink:href=\"#at-sums\" x=\"291\" y=\"22\"/><text class=\"plain\" x=\"305\" y=\"26\">sums</text>
<use xlink:href=\"#at-bits\" x=\"355\" y=\"22\"/><text class=\"plain\" x=\"369\" y=\"26\">bits</text>
<use xlink:href=\"#at-committed\" x=\"419\" y=\"22\"/><text class=\"plain\" x=\"433\" y=\"26\">committed</text>
<use xlink:href=\"#at-variable\" x=\"518\" y=\"22\"/><text class=\"plain\" x=\"532\" y=\"26\">variable or array</text>
<use xlink:href=\"#at-printed\" x=\"673\" y=\"22\"/><text class=\"plain\" x=\"687\" y=\"26\">printed</text>
";

#[tactic(auto, unfolding(crate::specs::Documents::look_text))]
fn look() -> &'static str
    ensures { result.now ≡ documents.look_text }
{
    LOOK
}

#[tactic(auto, unfolding(crate::specs::Documents::legend_text))]
fn legend() -> &'static str
    ensures { result.now ≡ documents.legend_text }
{
    LEGEND
}

/// How a drawing begins.
const BEGIN: &str =
    "<svg xmlns=\"http://www.w3.org/2000/svg\" xmlns:xlink=\"http://www.w3.org/1999/xlink\" version=\"1.1\"";

#[tactic(auto, unfolding(crate::specs::Documents::begin_text))]
fn begin() -> &'static str
    ensures { result.now ≡ documents.begin_text }
{
    BEGIN
}

/// How it is told what of a drawing is shown: from its corner on.
const CORNER: &str = " viewBox=\"0 0 ";

#[tactic(auto, unfolding(crate::specs::Documents::corner_text))]
fn corner() -> &'static str
    ensures { result.now ≡ documents.corner_text }
{
    CORNER
}

/// Puts two numbers at the end.
#[tactic(auto, unfolding(crate::specs::Documents::pair_text))]
fn push_pair(text: &mut Bytes, width: u64, height: u64) -> Result<(), AllocError>
    ensures { OnOk result (text.new ≡ text.old ++ documents.pair_text width height) }
{
    push_number(text, width)?;
    text.extend_from_slice(b" ")?;
    push_number(text, height)
}

/// Puts what of a drawing is shown at the end, which is all: so it can be scaled.
fn push_view(text: &mut Bytes, width: u64, height: u64) -> Result<(), AllocError>
    ensures { OnOk result (text.new ≡ text.old ++ documents.view_text width height) }
{
    text.extend_from_slice(corner().as_bytes())?;
    push_pair(text, width, height)?;
    text.extend_from_slice(b"\"")
}

/// Puts the beginning of a drawing at the end.
fn push_head(text: &mut Bytes, width: u64, height: u64) -> Result<(), AllocError>
    ensures { OnOk result (text.new ≡ text.old ++ documents.head_text width height) }
{
    text.extend_from_slice(begin().as_bytes())?;
    push_attribute(text, b" width", width)?;
    push_attribute(text, b" height", height)?;
    push_view(text, width, height)?;
    text.extend_from_slice(b">\n")?;
    text.extend_from_slice(look().as_bytes())
}

/// Puts marks at the end.
fn push_marks(text: &mut Bytes, marks: &[Mark]) -> Result<(), AllocError>
    ensures { OnOk result (text.new ≡ text.old ++ flat_map mark_text marks.now) }
{
    for mark in marks {
        push_mark(text, mark)?;
    }
    Ok(())
}

/// A drawing of this size with these marks. What shapes mean stands behind the marks, in the group that the last of them begins.
pub fn document(alloc: Global, width: u64, height: u64, marks: &[Mark]) -> Result<Bytes, AllocError>
    ensures { IfOk result (λ text. text ≡ documents.document_text width height marks.now) }
{
    let mut text = Bytes::new(alloc);
    push_head(&mut text, width, height)?;
    push_marks(&mut text, marks)?;
    text.extend_from_slice(legend().as_bytes())?;
    text.extend_from_slice(b"</g>\n</svg>\n")?;
    Ok(text)
}
