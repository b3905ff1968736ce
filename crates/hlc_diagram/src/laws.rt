//! The laws of pictures. Each is the contract of a function that does nothing.

ghost use Rattle.hlc_diagram.specs.ChainLaws.{ChainArrowsKeepClear, ChainDotsStandOnLanes, ChainLanesAreOfDots, ChainTitlesAreOfTheDots, DotsAreTheChain, GapsCountWhatLiesBetween};
ghost use Rattle.hlc_diagram.specs.CrossLaws.{CrossesAreOfMessages, CrossesKeepClear, EachMessageHasItsCross, NothingElseChanges, OwnCrossesLieApart};
ghost use Rattle.hlc_diagram.specs.Laws.{ArrowsAreOfDeliveries, ArrowsComeIn, ArrowsKeepClear, ArrowsLeave, BorderArrowsKeepClear, BorderArrowsTurnInRows, DotsAreOfEvents, DotsStandOnLanes, EachDeliveryHasOneArrow, EachEventHasOneDot, EachNodeHasItsLane, LanesAreApart, LanesAreOfDots, MarkedAreTheChain, MessagesComeIn, MessagesLeave, NoTwoDotsInOnePlace, NoneIsMarked, OwnArrowsLieApart, StepsAreThick, StepsGoOn, TimeRunsDown, TitlesAreOfTheDots};
ghost use Rattle.hlc_diagram.specs.View.{ViewsAreAround};

/// Each event of the range has exactly one dot, on the lane of its node and with its number, and there are no others. A later event
/// stands lower, and no two dots stand in one place. The title of a dot and the row beside it are those of its event.
pub fn dots_are_the_events()
    ensures one { EachEventHasOneDot }
    ensures only { DotsAreOfEvents }
    ensures down { TimeRunsDown }
    ensures apart { NoTwoDotsInOnePlace }
    ensures titles { TitlesAreOfTheDots }
{}

/// Each dot stands on the lane of its node, if its events happen at nodes that there are. Only the nodes of dots have a lane, unless each
/// node has one: then the lanes are those of all nodes, in order.
pub fn lanes_are_of_dots()
    ensures dots { DotsStandOnLanes }
    ensures only { LanesAreOfDots }
    ensures every { EachNodeHasItsLane }
{}

/// Each delivery of the range whose send is in the range has exactly one arrow, from the send's dot down to its own, and there
/// are no others. No line of one rises.
pub fn arrows_are_the_deliveries()
    ensures one { EachDeliveryHasOneArrow }
    ensures only { ArrowsAreOfDeliveries }
{}

/// No arrow comes nearer to a dot than half the dot's width and height, be it one between two dots, which it only touches, or one over
/// a border. So none reads as one to or from a dot that it passes. Lanes are apart by more than a dot.
pub fn arrows_keep_clear_of_dots()
    ensures between_dots { ArrowsKeepClear }
    ensures at_borders { BorderArrowsKeepClear }
    ensures lanes { LanesAreApart }
{}

/// A message that a node sends to itself, be it delivered or not, has an arrow that has no more than points in common with those over a border at dots
/// of the same lane. Of the arrows over one border no two turn in one row, so that their heads, which stand in these rows, don't meet.
pub fn arrows_lie_apart()
    ensures own { OwnArrowsLieApart }
    ensures own_crosses { OwnCrossesLieApart }
    ensures rows { BorderArrowsTurnInRows }
{}

/// Each delivery of the range whose send comes before it has an arrow from the upper border, with the number of the send, and
/// each send of the range that is delivered after it has one to the lower border, with the number of such a delivery. There are
/// no others. Each runs on the side of the node of its other end, be there a lane or not.
pub fn arrows_end_at_the_border()
    ensures come_in { MessagesComeIn }
    ensures only_these_come_in { ArrowsComeIn }
    ensures leave { MessagesLeave }
    ensures only_these_leave { ArrowsLeave }
{}

/// Each message that didn't arrive, whose send and the last event by then are of the range, has an arrow that ends in a cross, and there
/// are no others. It runs from the dot of its send down to beside the lane of its node, ends between the row of that event and the
/// next one, and keeps clear of all dots. All else is as in the picture without such messages, so what holds of that holds here.
pub fn crosses_are_of_messages()
    ensures each { EachMessageHasItsCross }
    ensures only { CrossesAreOfMessages }
    ensures clear { CrossesKeepClear }
    ensures same { NothingElseChanges }
{}

/// Exactly the events of the chain that explains the event are marked, and none if there is no such event. Each step of the chain
/// to an event of the range has a thick line, even if it comes from above the range, and so has a step by a message to an event after it. The chain is the one by floors and ticks; where
/// receives tick and no event has a rule of its own, it is the one by readings, as `floor_laws` of `hlc_causality` say.
pub fn marked_are_the_chain()
    ensures chain { MarkedAreTheChain }
    ensures steps { StepsAreThick }
    ensures goes_on { StepsGoOn }
    ensures none { NoneIsMarked }
{}

pub use hlc_figures::laws::{first_lane_has_room, names_have_room};
pub use hlc_svg::laws::{labels_are_cut_in_the_middle, labels_are_harmless, shapes_have_room};

/// The picture of a chain alone has a dot for each event of the chain, in order, and no others. Between two that aren't next to one
/// another it has one row, which counts exactly the events that lie there. No arrow comes nearer to a dot than half its width and height. Each dot
/// stands on the lane of its node, and only nodes of dots have a lane, unless each has one. The title of a dot and the row beside it are those of its event.
pub fn chain_pictures_have_the_chain()
    ensures dots { DotsAreTheChain }
    ensures gaps { GapsCountWhatLiesBetween }
    ensures clear { ChainArrowsKeepClear }
    ensures lanes { ChainLanesAreOfDots }
    ensures stand { ChainDotsStandOnLanes }
    ensures titles { ChainTitlesAreOfTheDots }
{}

/// What is drawn about an event has that event, and as many as were asked for, or all that there are; before it and after it stand as
/// many, or one more after it, unless there are too few on one side.
pub fn views_are_around()
    ensures { ViewsAreAround }
{}
