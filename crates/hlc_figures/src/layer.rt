ghost use Rattle.std.specs.Prelude.{◌≡◌, ◌++◌, OnOk, string_bytes};
ghost use Rattle.hlc_figures.specs.Columns.{AreColumnsOf};
ghost use Rattle.hlc_figures.specs.DrawnRow.{drawn_in, layer_text};
ghost use Rattle.hlc_figures.specs.Scene.{IsRowOf};

use crate::chain_figure::{put_gap, put_stop};
use crate::figure_text::put_figure;
use crate::rows::Row;
use crate::scene::Scene;
use crate::subject::Subject;
use std::alloc::AllocError;

/// What is drawn one over the other, with the lanes between the first two.
#[derive(Clone, Copy)]
pub enum Layer {
    /// The bands of the chain.
    Back,
    /// What leads to the events, and from them over the border.
    Lines,
    /// The numbers at arrows over a border, the dots, the rows, and how many events lie between two of a chain.
    Front,
}

/// What a layer has of a row.
pub fn put_layer<S: Subject>(
    text: &mut String,
    layer: Layer,
    subject: &S,
    scene: &Scene<'_>,
    row: Row,
) -> Result<(), AllocError>
    requires columns { AreColumnsOf (S.content subject.now) scene.now.frame scene.now.columns.now }
    requires row { IsRowOf (S.content subject.now) scene.now row }
    ensures { OnOk result (string_bytes text.new ≡ string_bytes text.old
        ++ layer_text layer (drawn_in (S.content subject.now) scene.now row)) }
{
    match row {
        Row::Event(event) => put_figure(text, layer, subject, scene, event),
        Row::Chained(stop) => put_stop(text, layer, subject, scene, stop),
        Row::Between(gap) => put_gap(text, layer, scene.frame, gap),
    }
}
