//! The laws of labels and of shapes. Each is the contract of a function that does nothing.

ghost use Rattle.hlc_svg.specs.CutLabel.{CutLabelsAreHarmless, CutLabelsFit, EndsAreEnds, FittingLabelsAreWhole};
ghost use Rattle.hlc_svg.specs.LabelLaws.{LabelsAreHarmless, LettersAreRead, LettersStandAlone, ScriptsAreLetters};
ghost use Rattle.hlc_svg.specs.Reach.{DotsAreInRings, OutlinesAreWithin, RingsAreAround, RowsAreApart, RowsAreBelowTheBorder};

/// Whatever bytes a label has, what a picture shows of it is text and nothing else: it holds no `<`, `>` or
/// quote, `&` only at the start of the name of one of these, or of its own, and beyond ASCII only letters of other scripts, in UTF-8. Those of
/// Latin, Greek, Cyrillic, Japanese, Chinese and Korean are read as they are. None is a control character, has no shape, runs to the left, or
/// is put onto the one before it.
pub fn labels_are_harmless()
    ensures harmless { LabelsAreHarmless }
    ensures read { LettersAreRead }
    ensures alone { LettersStandAlone }
    ensures scripts { ScriptsAreLetters }
{}

/// A name that is cut in the middle is no wider than there is room for. One that there is room for is shown whole. What stands after the two dots
/// is an end of the name, and all that is shown is text and nothing else.
pub fn labels_are_cut_in_the_middle()
    ensures fit { CutLabelsFit }
    ensures whole { FittingLabelsAreWhole }
    ensures ends { EndsAreEnds }
    ensures harmless { CutLabelsAreHarmless }
{}

/// The outline of a dot lies within half the dot's width and height, from which arrows keep clear. A ring is around it, corners too, within what an arrow
/// around the dot keeps from it, and above where arrows cross lanes. Dots in two rows don't touch, nor do their rings, and all stand below
/// the upper border.
pub fn shapes_have_room()
    ensures outlines { OutlinesAreWithin }
    ensures rings { RingsAreAround }
    ensures inside { DotsAreInRings }
    ensures rows { RowsAreApart }
    ensures border { RowsAreBelowTheBorder }
{}
