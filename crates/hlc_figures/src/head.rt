// What stands before the lanes: the title, the description, how things look, the captions and the headings.

ghost use Rattle.std.specs.Prelude.{◌≡◌, ◌++◌, ◌<◌, OnOk, map, string_bytes};
ghost use Rattle.hlc_causality.specs.Places.{places_below};
ghost use Rattle.hlc_figures.specs.Columns.{AreColumnsOf};
ghost use Rattle.hlc_figures.specs.Head.{description_begins, description_text, ground_text, head_text, heading_begins, heading_of, heading_text, headings_text, laneless_text, nodes_word, root_text};

use crate::row::column_x;
use crate::scene::Scene;
use crate::subject::Subject;
use hlc_svg::frame::{Frame, HEADING_Y};
use hlc_svg::text::put;
use std::alloc::AllocError;

// What a picture is, for those who can't see it.
pub(crate) const LEGEND: &str =
    "Time runs down. Each node has a lane, each event a dot on it with its number, and beside it a row. \
An arrow runs from each send to each delivery of its message. A dashed one comes \
in over the upper border, with the number of its send, or leaves over the lower one, with the number of a delivery \
there. What is marked is filled, thick and on a band. The title of a dot tells what is known of its event.";

// How things look, in this picture and nowhere else in a page that it stands in. An arrow that leaves over a border has its head in the row of its dot,
// in the half below: with none of another it stands there, and it is so narrow that lines beside it, which may be 4 pixels off, don't run through it. What of dashes
// begins in one row more begins with the same dash, since their lengths add up to a row: so those that share a line to a border read as one. Against the ground each text has a contrast of
// 5.9 to 1 at least, and of 7.7 in the dark; against a band of 4.7, and of 6.1 in the dark.
pub(crate) const STYLE: &str = "<style type=\"text/css\">\
.hlc text{font:13px monospace;fill:#222}.hlc .h{fill:#5c5c5c}.hlc .n{font-weight:bold;text-anchor:middle}.hlc .w{fill:#fff}\
.hlc .l{stroke:#888;stroke-width:2}.hlc .b{fill:#f3e3dc}.hlc .v{stroke:#a3300d;stroke-width:4}\
.hlc polyline{fill:none}.hlc .m,.hlc .e,.hlc .o{stroke:#2f5f94;stroke-width:1.5}.hlc .p,.hlc .q,.hlc .s{stroke:#a3300d;stroke-width:3}\
.hlc .m,.hlc .e{marker-end:url(#hlc-a)}.hlc .p,.hlc .q{marker-end:url(#hlc-b)}.hlc .o{marker-mid:url(#hlc-d)}.hlc .s{marker-mid:url(#hlc-e)}\
.hlc .e,.hlc .o{stroke-dasharray:3.4 3.4}.hlc .q,.hlc .s{stroke-dasharray:5 3.5}\
.hlc .x,.hlc .c{stroke:#5c5c5c;stroke-width:2}.hlc .x{stroke-width:1.5;stroke-dasharray:9 3 2 3;marker-end:url(#hlc-c)}\
.hlc .f,.hlc .y{font-size:10px;text-anchor:middle;stroke:#fff;stroke-width:4;paint-order:stroke}.hlc .f,.hlc .t{fill:#2f5f94}.hlc .y{fill:#5c5c5c}.hlc .u{fill:#a3300d}\
.hlc g rect,.hlc g polygon{fill:#fff;stroke-width:2}.hlc .k rect,.hlc .k polygon{fill:#a3300d}\
.hlc g .r{fill:none;stroke:#222}.hlc .pill{stroke:#2f5f94}.hlc .box{stroke:#1c6b3c}.hlc .hexagon{stroke:#8a5a00}\
.hlc .slant{stroke:#6b3fa0}.hlc .peak{stroke:#a01c68}.hlc .dip{stroke:#0f6674}\
.hlc g text{font:bold 11px sans-serif;text-anchor:middle}.hlc .k text{fill:#fff}\
@media (prefers-color-scheme:dark){.hlc text{fill:#e8e8e8}.hlc .h{fill:#b4b4b4}.hlc .w{fill:#16191d}.hlc .l{stroke:#6a7078}\
.hlc .b{fill:#3a2821}.hlc .v,.hlc .p,.hlc .q,.hlc .s{stroke:#ff9a76}.hlc .m,.hlc .e,.hlc .o{stroke:#8bb8ea}.hlc .x,.hlc .c{stroke:#b4b4b4}\
.hlc .f,.hlc .y{stroke:#16191d}.hlc .f,.hlc .t{fill:#8bb8ea}.hlc .y{fill:#b4b4b4}.hlc .u{fill:#ff9a76}.hlc g rect,.hlc g polygon{fill:#16191d}.hlc .k rect,.hlc .k polygon{fill:#ff9a76}\
.hlc g .r{fill:none;stroke:#e8e8e8}.hlc .pill{stroke:#8bb8ea}.hlc .box{stroke:#7fd09b}.hlc .hexagon{stroke:#e6b450}\
.hlc .slant{stroke:#c4a5f0}.hlc .peak{stroke:#f08cc4}.hlc .dip{stroke:#6fd0de}.hlc .k text{fill:#16191d}}</style>\n\
<defs><marker id=\"hlc-a\" viewBox=\"0 0 10 10\" refX=\"10\" refY=\"5\" markerWidth=\"7\" markerHeight=\"7\" orient=\"auto\">\
<path class=\"t\" d=\"M0 0L10 5L0 10z\"/></marker>\
<marker id=\"hlc-b\" viewBox=\"0 0 10 10\" refX=\"10\" refY=\"5\" markerWidth=\"5\" markerHeight=\"5\" orient=\"auto\">\
<path class=\"u\" d=\"M0 0L10 5L0 10z\"/></marker>\
<marker id=\"hlc-c\" viewBox=\"0 0 10 10\" refX=\"5\" refY=\"5\" markerWidth=\"7\" markerHeight=\"7\">\
<path class=\"c\" d=\"M1 1L9 9M9 1L1 9\"/></marker>\
<marker id=\"hlc-d\" viewBox=\"0 0 10 10\" refX=\"-4\" refY=\"5\" markerWidth=\"7\" markerHeight=\"7\" orient=\"90\">\
<path class=\"t\" d=\"M0 2L10 5L0 8z\"/></marker>\
<marker id=\"hlc-e\" viewBox=\"0 0 10 10\" refX=\"-3\" refY=\"5\" markerWidth=\"4\" markerHeight=\"4\" orient=\"90\">\
<path class=\"u\" d=\"M0 2L10 5L0 8z\"/></marker></defs>\n";

// The element that all others stand in.
#[tactic(auto, unfolding(crate::specs::Head::root_text))]
fn put_root(text: &mut String, frame: Frame) -> Result<(), AllocError>
    ensures { OnOk result (string_bytes text.new ≡ string_bytes text.old ++ root_text frame) }
{
    let (width, height) = (frame.width, frame.height);
    write!(
        text,
        "<svg xmlns=\"http://www.w3.org/2000/svg\" class=\"hlc\" width=\"{width}\" height=\"{height}\" viewBox=\"0 0 {width} {height}\" xml:space=\"preserve\">\n"
    )
}

// The word for so many nodes.
fn nodes_word(count: u16) -> &'static str
    ensures { result.now ≡ nodes_word count }
{
    if count == 1 { "node" } else { "nodes" }
}

// The title, and the description but for the legend.
fn put_description_start(text: &mut String, frame: Frame, caption: &str) -> Result<(), AllocError>
    ensures { OnOk result (string_bytes text.new ≡ string_bytes text.old ++ description_begins frame caption.now) }
{
    let nodes = frame.nodes;
    let word = nodes_word(nodes);
    write!(
        text,
        "<title>Space-time diagram of {nodes} {word}</title>\n<desc>{caption} {LEGEND} "
    )
}

// That some nodes have no lane, if there are any.
fn laneless(frame: Frame) -> &'static str
    ensures { result.now ≡ laneless_text frame }
{
    if frame.lanes < frame.nodes {
        " Nodes without a row have no lane."
    } else {
        ""
    }
}

// The title and the description.
fn put_description<S: Subject>(
    text: &mut String,
    subject: &S,
    frame: Frame,
    caption: &str,
) -> Result<(), AllocError>
    ensures { OnOk result (string_bytes text.new ≡ string_bytes text.old
        ++ description_text frame caption.now (S.content subject.now).legend) }
{
    put_description_start(text, frame, caption)?;
    subject.put_legend(text)?;
    put(text, laneless(frame))?;
    put(text, "</desc>\n")
}

// How things look, the ground and the caption.
#[tactic(auto, unfolding(crate::specs::Head::ground_text))]
fn put_ground(text: &mut String, frame: Frame, caption: &str) -> Result<(), AllocError>
    ensures { OnOk result (string_bytes text.new ≡ string_bytes text.old ++ (STYLE.now ++ ground_text frame caption.now)) }
{
    let (width, height) = (frame.width, frame.height);
    write!(
        text,
        "{STYLE}<rect class=\"w\" width=\"{width}\" height=\"{height}\"/>\n<text class=\"h\" x=\"24\" y=\"22\">{caption}</text>\n"
    )
}

// What comes before the heading of a column.
fn put_begin(text: &mut String, x: u64) -> Result<(), AllocError>
    ensures { OnOk result (string_bytes text.new ≡ string_bytes text.old ++ heading_begins x HEADING_Y) }
{
    write!(text, "<text class=\"h\" x=\"{x}\" y=\"{HEADING_Y}\">")
}

// The heading of a column.
fn put_heading<S: Subject>(
    text: &mut String,
    subject: &S,
    scene: &Scene<'_>,
    column: u8,
) -> Result<(), AllocError>
    requires begin { AreColumnsOf (S.content subject.now) scene.now.frame scene.now.columns.now }
    requires column { column < (S.content subject.now).columns }
    ensures { OnOk result (string_bytes text.new ≡ string_bytes text.old
        ++ heading_text (heading_of (S.content subject.now) scene.now.frame column)) }
{
    let x = column_x(subject, scene, column);
    put_begin(text, x)?;
    subject.put_heading(text, column)?;
    put(text, "</text>")
}

// The headings of the columns.
fn put_headings<S: Subject>(
    text: &mut String,
    subject: &S,
    scene: &Scene<'_>,
) -> Result<(), AllocError>
    requires { AreColumnsOf (S.content subject.now) scene.now.frame scene.now.columns.now }
    ensures { OnOk result (string_bytes text.new ≡ string_bytes text.old
        ++ headings_text (map (heading_of (S.content subject.now) scene.now.frame) (places_below (S.content subject.now).columns))) }
{
    for column in 0..subject.columns() {
        put_heading(text, subject, scene, column)?;
    }
    put(text, "\n")
}

/// Adds what stands before the lanes.
pub fn put_head<S: Subject>(
    text: &mut String,
    subject: &S,
    scene: &Scene<'_>,
    caption: &str,
) -> Result<(), AllocError>
    requires { AreColumnsOf (S.content subject.now) scene.now.frame scene.now.columns.now }
    ensures { OnOk result (string_bytes text.new ≡ string_bytes text.old
        ++ head_text scene.now.frame caption.now (S.content subject.now).legend
        (map (heading_of (S.content subject.now) scene.now.frame) (places_below (S.content subject.now).columns))) }
{
    put_root(text, scene.frame)?;
    put_description(text, subject, scene.frame, caption)?;
    put_ground(text, scene.frame, caption)?;
    put_headings(text, subject, scene)
}
