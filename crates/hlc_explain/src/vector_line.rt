// The vector of an event as text.

ghost use Rattle.std.specs.Prelude.{◌≡◌, ◌++◌, IfOk, OnOk, length, slice_index};
ghost use Rattle.hlc_explain.specs.VectorLine.{count_text, count_texts, joined, separator_then, shown_count, vector_line};

use crate::node_texts::NodeTexts;
use hlc_stamp::NodeId;
use itoa::Buffer;
use std::alloc::AllocError;

// Adds a node with its number.
fn put_count<N: NodeTexts>(
    text: &mut Vec<u8>,
    nodes: &N,
    node: usize,
    count: u32,
) -> Result<(), AllocError>
    ensures { OnOk result (text.new.items ≡ text.old.items ++ count_text (N.text_of nodes.now node) count) }
{
    text.push(b'"')?;
    nodes.put_node(text, node)?;
    text.extend_from_slice(b"\":")?;
    text.extend_from_slice(Buffer::new().format(count).as_bytes())
}

// Adds a node with its number, if that isn't 0, after what separates it from others, and answers what separates the next one.
fn put_shown<N: NodeTexts>(
    text: &mut Vec<u8>,
    nodes: &N,
    separator: &'static [u8],
    node: usize,
    count: u32,
) -> Result<&'static [u8], AllocError>
    ensures text { OnOk result (text.new.items ≡ text.old.items ++ shown_count separator.now (N.text_of nodes.now node) count) }
    ensures next { IfOk result (λ next. next.now ≡ separator_then separator.now count) }
{
    if count == 0 {
        return Ok(separator);
    }
    text.extend_from_slice(separator)?;
    put_count(text, nodes, node, count)?;
    Ok(b", ")
}

// Adds the nodes of which a vector has events, with their numbers.
fn put_counts<N: NodeTexts>(text: &mut Vec<u8>, nodes: &N, vector: &[u32]) -> Result<(), AllocError>
    ensures { OnOk result (text.new.items ≡ text.old.items
        ++ joined (count_texts (N.text_of nodes.now) (slice_index vector.now) (length vector.now))) }
{
    let mut separator: &'static [u8] = b"";
    for node in 0..vector.len() {
        separator = put_shown(text, nodes, separator, node, vector[node])?;
    }
    Ok(())
}

/// Adds the line of an event's node and vector, as ShiViz and other tools that draw logs read it: `NODE {"NODE":COUNT, "NODE":COUNT}`,
/// with the nodes of which the vector counts events.
pub fn put_vector_line<N: NodeTexts>(
    text: &mut Vec<u8>,
    nodes: &N,
    node: NodeId,
    vector: &[u32],
) -> Result<(), AllocError>
    ensures { OnOk result (text.new.items ≡ text.old.items ++ vector_line (N.text_of nodes.now) node.0 vector.now) }
{
    nodes.put_node(text, node.0 as usize)?;
    text.extend_from_slice(b" {")?;
    put_counts(text, nodes, vector)?;
    text.extend_from_slice(b"}\n")
}
