ghost use Rattle.std.specs.Prelude.{◌≡◌, option_map};

use hlc_log_text::Location;
use hlc_pages::Bytes;

/// Why a log has no causal order.
#[derive(Debug, Drop)]
pub enum Disorder {
    /// An event sends a message that an earlier one sends: the one of this name, if it has a name.
    SentTwice(Option<Bytes<'static>>),
    /// An event receives a message that no event sends, and is taken neither as a local event nor as a receive from outside. The message has this
    /// name, if it has one.
    Unsent(Option<Bytes<'static>>),
    /// Receives wait for one another.
    Cycle,
}

/// An event for which a log has no causal order.
#[derive(Debug, Drop)]
pub struct BadEvent {
    /// The line on which its record begins.
    pub location: Location,
    /// Why there is none.
    pub why: Disorder,
}

// The name of a message, if it has one.
fn message_name<'a>(message: &'a Option<Bytes<'static>>) -> Option<&'a [u8]>
    ensures { option_map (λ name. name.now) result ≡ message.now }
{
    let name = message.as_ref()?;
    Some(name)
}

impl Disorder {
    ghost use Rattle.hlc_open_log.specs.Unopened.{disorder_name, disorder_word};

    /// The word of the row that answers it.
    pub fn word(&self) -> &'static [u8]
        ensures { result.now ≡ disorder_word self.now }
    {
        match self {
            Disorder::SentTwice(_) => b"sent-twice",
            Disorder::Unsent(_) => b"unsent",
            Disorder::Cycle => b"cycle",
        }
    }

    /// The name of the message that the row names besides, if it has one, as the log writes it.
    pub fn name(&self) -> Option<&[u8]>
        ensures { option_map (λ name. name.now) result ≡ disorder_name self.now }
    {
        match self {
            Disorder::SentTwice(message) => message_name(message),
            Disorder::Unsent(message) => message_name(message),
            Disorder::Cycle => None,
        }
    }
}
