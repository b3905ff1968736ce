use hlc_stamp::{EventId, NodeId, Stamp};
use hlc_verdict::{AsClaim, Claim, ClaimKind};

/// What a claim is of, as C says it: an event that is neither a send nor a receive.
pub const HLC_LOCAL: u32 = 0;

/// A send.
pub const HLC_SEND: u32 = 1;

/// A receive of what the claim in the place `sent` sent.
pub const HLC_RECEIVE: u32 = 2;

/// A claim as C sees it: 32 bytes.
#[repr(C)]
#[derive(Clone, Copy)]
pub struct CClaim {
    /// What the node's clock read.
    pub reading: u64,
    /// The logical part of the claimed stamp.
    pub l: u64,
    /// The counter of the claimed stamp.
    pub c: u32,
    /// The place of the send that is received.
    pub sent: u32,
    /// Where the event happened.
    pub node: u32,
    /// `HLC_LOCAL`, `HLC_SEND` or `HLC_RECEIVE`; any other number is a receive of no event.
    pub kind: u32,
}

impl AsClaim for CClaim {
    ghost use Rattle.hlc_c.specs.Claim.{claim_from_c};

    ghost claim_of = { claim_from_c };

    fn as_claim(&self) -> Claim {
        let kind = match self.kind {
            HLC_LOCAL => ClaimKind::Local,
            HLC_SEND => ClaimKind::Send,
            HLC_RECEIVE => ClaimKind::Receive {
                sent: EventId(self.sent),
            },
            _ => ClaimKind::Receive {
                sent: EventId(u32::MAX),
            },
        };
        Claim {
            node: NodeId(self.node.min(65_535) as u16),
            reading: self.reading,
            kind,
            stamp: Stamp {
                l: self.l,
                c: self.c,
            },
        }
    }
}
