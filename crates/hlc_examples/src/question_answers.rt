// A caller of `hlc_text`.

ghost use Rattle.std.specs.Prelude.{◌≡◌, IfOk};
ghost use Rattle.hlc_csv.specs.Rows.{text_of};
ghost use Rattle.hlc_text.specs.Questions.{rows_for};
ghost use Rattle.hlc_text.specs.Statement.{plain_question};

use hlc_core::Cluster;
use hlc_csv::{OutputFault, RowBuffer};
use hlc_text::{Question, reply_to};
use std::alloc::Global;

/// The text that answers a question about a cluster, as a script would get it.
pub fn answer_question(
    alloc: Global,
    cluster: &Cluster,
    question: Question<'_>,
) -> Result<Vec<u8>, OutputFault>
    ensures { IfOk result (λ text. text.items ≡ text_of (rows_for cluster.now (plain_question question.entry))) }
{
    let reply = reply_to(question, alloc, cluster)?;
    let mut text = Vec::new(alloc);
    let mut rows = RowBuffer::new(alloc);
    reply.push(&mut rows, &mut text)?;
    rows.finish(&mut text)?;
    Ok(text)
}
