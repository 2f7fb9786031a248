// What refuses a line.
ghost use Rattle.std.specs.Prelude.{◌≡◌, ◌+◌, ◌≤◌, ◌++◌, length};
ghost use Rattle.hub_script.specs.RefusalWords.{words_of_refusal, words_of_hub, HasWords, HubHasWords};

use ghes_ack::SubmitError;
use ghes_hub::HubError;
use hest_sources::HestError;
use script_lines::LineText;
use script_text::Refusal;

/// Why a line is refused, the first reason that applies.
#[derive(Clone, Copy, Debug, PartialEq, Eq)]
pub enum HubRefusal {
    /// A hub is open already.
    Open,
    /// The bytes are no table.
    Table(HestError),
    /// No hub is opened for the table.
    Hub(HubError),
    /// No hub is open.
    NoHub,
    /// There is no such source, or no such listener.
    Nobody,
    /// The block is not taken over.
    Submit(SubmitError),
}

impl Refusal for HubRefusal {
    ghost has_words = { HasWords };

    ghost words = { words_of_refusal };

    ghost most_before = { 73 };

    fn add_to(&self, text: &mut LineText) {
        match self {
            HubRefusal::Open => text.add(b"open"),
            HubRefusal::Table(why) => {
                text.add(b"hest ");
                why.add_to(text);
            }
            HubRefusal::Hub(why) => {
                text.add(b"hub ");
                add_hub(why, text);
            }
            HubRefusal::NoHub => text.add(b"no-hub"),
            HubRefusal::Nobody => text.add(b"none"),
            HubRefusal::Submit(why) => why.add_to(text),
        }
    }
}

/// The words of a hub that is not opened.
fn add_hub(why: &HubError, text: &mut LineText)
    requires told { HubHasWords why.now }
    requires room { length text.old ≤ 77 }
    ensures words { text.new ≡ text.old ++ words_of_hub why.now }
    ensures short { length text.new ≤ length text.old + 51 }
{
    match why {
        HubError::NoSource => text.add(b"no-source"),
        HubError::Many { found } => text.add_one(b"many ", *found),
        HubError::BlockLen { index, len } => text.add_two(b"block-len ", *index, *len),
        HubError::Status { index } => text.add_one(b"status ", *index),
        HubError::Ack { index } => text.add_one(b"ack ", *index),
        HubError::Clash { index } => text.add_one(b"clash ", *index),
        HubError::Memory => {}
    }
}
