// What the words of a generator decide about a step.

ghost use Rattle.std.specs.Prelude.{◌≡◌, ◌<◌, ◌≤◌};
ghost use Rattle.rand_pcg.specs.Lcg.{advance};
ghost use Rattle.rand_pcg.specs.Pcg.{multiplier_64};
ghost use Rattle.hlc_seeded.specs.Storm.{choice_for, draw_of, is_update, key_for, reading_for, target_for, word_at};

use hlc_stamp::NodeId;
use rand_core::utils::NextWord;
use rand_pcg::Lcg64Xsh32;

/// What a step does.
#[derive(Clone, Copy)]
pub(crate) enum Choice {
    Write,
    Erase,
    Send,
    Pull,
}

impl Choice {
    /// Whether it is a write or an erasure.
    pub(crate) fn is_update(self) -> bool
        ensures { result ≡ is_update self }
    {
        matches!(self, Choice::Write | Choice::Erase)
    }
}

/// The two words that are drawn for a step.
#[derive(Clone, Copy)]
pub(crate) struct Draw {
    pub(crate) a: u32,
    pub(crate) b: u32,
}

impl Draw {
    /// Draws the generator's next two words.
    pub(crate) fn next(generator: &mut Lcg64Xsh32) -> Draw
        ensures words { result ≡ draw_of (word_at generator.old) 0 }
        ensures rest { generator.new ≡ advance 64 multiplier_64 2 generator.old }
    {
        let a = generator.next_word();
        let b = generator.next_word();
        Draw { a, b }
    }

    /// What the step of this number does. The first writes.
    pub(crate) fn choice(self, step: u32) -> Choice
        ensures { result ≡ choice_for step self.b }
    {
        if step == 0 {
            return Choice::Write;
        }
        match self.b % 8 {
            0 | 1 => Choice::Write,
            2 => Choice::Erase,
            3 | 4 => Choice::Send,
            _ => Choice::Pull,
        }
    }

    /// What the clock reads at the step of this number.
    pub(crate) fn reading(self, step: u32) -> u64
        ensures { result ≡ reading_for step self.a }
    {
        1_000 + 10 * u64::from(step) + u64::from(self.a % 64)
    }

    /// The key, one of four.
    pub(crate) fn key(self) -> [u8; 2]
        ensures { result ≡ key_for self.a }
    {
        [b'k', b'0' + (self.a / 64 % 4) as u8]
    }

    /// The node that is sent to, another than the sender.
    pub(crate) fn target(self, nodes: u16, node: u16) -> NodeId
        requires enough { 2 ≤ nodes }
        requires exists { node < nodes }
        ensures { result.0 ≡ target_for nodes node self.a }
    {
        let nodes = u32::from(nodes);
        let ahead = 1 + self.a / 256 % (nodes - 1);
        NodeId(((u32::from(node) + ahead) % nodes) as u16)
    }
}
