// The options that say what of a history or a log is drawn, whatever names its events.

ghost use Rattle.std.specs.Prelude.{IfErr, IfOk};
ghost use Rattle.hlc_command_line.specs.PartOptions.{SayNone, SayPart, SayRows};

use crate::drawn_part::{DrawnPart, DrawnRows, USUAL_ROWS};
use crate::line_fault::PartMistake;

// What each of these options is given, where an `E` names an event.
#[derive(Clone, Copy)]
pub(crate) struct PartOptions<E> {
    pub(crate) explained: Option<E>,
    pub(crate) from: Option<E>,
    pub(crate) to: Option<E>,
    pub(crate) around: Option<E>,
    pub(crate) rows: Option<u32>,
    pub(crate) only_chain: bool,
}

impl<E: Copy> PartOptions<E> {
    // Which rows they say.
    fn drawn_rows(self) -> Result<DrawnRows<E>, PartMistake>
        ensures said { IfOk result (SayRows self) }
        ensures none { IfErr result (SayNone self) }
    {
        match (self.around, self.rows) {
            (None, None) => Ok(DrawnRows::Between {
                from: self.from,
                to: self.to,
            }),
            (None, Some(_)) => Err(PartMistake::RowsAlone),
            (Some(event), rows) => {
                if self.from.is_some() || self.to.is_some() {
                    return Err(PartMistake::AroundBetween);
                }
                Ok(DrawnRows::Around {
                    event,
                    rows: rows.unwrap_or(USUAL_ROWS),
                })
            }
        }
    }

    // The part that they say.
    pub(crate) fn drawn_part(self) -> Result<DrawnPart<E>, PartMistake>
        ensures said { IfOk result (SayPart self) }
        ensures none { IfErr result (SayNone self) }
    {
        if !self.only_chain {
            return Ok(DrawnPart::Rows {
                rows: self.drawn_rows()?,
                explained: self.explained,
            });
        }
        match (self.explained, self.around, self.from, self.to) {
            (Some(event), None, None, None) => match self.rows {
                None => Ok(DrawnPart::Chain { event }),
                Some(_) => Err(PartMistake::RowsAlone),
            },
            (Some(_), _, _, _) => Err(PartMistake::ChainAndRows),
            (None, _, _, _) => Err(PartMistake::ChainOfNone),
        }
    }
}
