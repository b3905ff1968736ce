ghost use Rattle.std.specs.Prelude.{◌<◌};

use hlc_stamp::NodeId;

// How many sums of names are told apart.
const SUMS: usize = 1_024;

// Of each sum that a name can have, the node of that sum which was named last. It may be another than the one that is looked for, so each
// is compared: that takes less than to hash a name.
#[derive(Drop)]
pub(crate) struct Hints {
    nodes: [NodeId; SUMS],
}

impl Hints {
    // For each sum the first node, though none was named yet.
    pub(crate) fn new() -> Hints {
        Hints {
            nodes: [NodeId(0); SUMS],
        }
    }

    // The node that this name may have.
    pub(crate) fn node(&self, name: &[u8]) -> NodeId {
        self.nodes[sum_of(name)]
    }

    // Keeps the node of a name.
    pub(crate) fn keep(&mut self, name: &[u8], node: NodeId) {
        self.nodes[sum_of(name)] = node;
    }
}

// A sum of the bytes of a name, in which their places count.
fn sum_of(name: &[u8]) -> usize
    ensures { result < SUMS }
{
    let mut sum: u32 = 0;
    for byte in name {
        sum = sum.wrapping_mul(31).wrapping_add(u32::from(*byte));
    }
    sum as usize % SUMS
}
