// A caller of `hlc_log_audit`.

ghost use Rattle.std.specs.Prelude.{◌≡◌, IfOk};
ghost use Rattle.hlc_csv.specs.Rows.{Fields, text_of_row};
ghost use Rattle.hlc_log_text.specs.Question.{plain_asked};
ghost use Rattle.hlc_log_audit.specs.Answers.{IsAnswer};

use hlc_csv::{OutputFault, RowBuffer};
use hlc_log_audit::push_answer;
use hlc_log_text::LogQuestion;
use hlc_open_log::OpenLog;
use std::alloc::Global;

/// The text of the row that answers a question about a log.
pub fn answer_text(
    alloc: Global,
    log: &OpenLog,
    question: &LogQuestion,
) -> Result<Vec<u8>, OutputFault>
    ensures { IfOk result (λ text. (row : Fields)
        × IsAnswer log.now.files log.now.nodes log.now.labels log.now.log log.now.full (plain_asked question.now) row
        × (text.items ≡ text_of_row row)) }
{
    let mut text = Vec::new(alloc);
    let mut rows = RowBuffer::new(alloc);
    push_answer(alloc, &mut rows, log, question, &mut text)?;
    rows.finish(&mut text)?;
    Ok(text)
}
