// A caller of `hlc_text`.

ghost use Rattle.std.specs.Prelude.{◌≡◌, ℕ, ◌↔◌, IfOk, Ok, Some, option_map};
ghost use Rattle.csv.specs.Records.{fields_of};
ghost use Rattle.hlc_core.specs.Request.{Request};
ghost use Rattle.hlc_text.specs.Statement.{Act, statement_of};

use csv::ByteRecord;
use hlc_stamp::NodeId;
use hlc_text::Statement;
use std::alloc::{AllocError, Global};

/// The node that a record asks to act, if it asks one.
pub fn acting_node(alloc: Global, fields: &ByteRecord) -> Result<Option<NodeId>, AllocError>
    ensures { IfOk result (λ found. (node : ℕ) → (option_map (λ n. n.0) found ≡ Some node)
        ↔ ((reading : ℕ) × (request : Request) × (statement_of (fields_of fields.now) ≡ Ok (Act node reading request)))) }
{
    match Statement::parse(alloc, fields)? {
        Ok(Statement::Act { node, .. }) => Ok(Some(node)),
        Ok(Statement::Lose { .. } | Statement::Ask(_)) | Err(_) => Ok(None),
    }
}
