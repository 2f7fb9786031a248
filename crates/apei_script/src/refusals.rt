// Replies to refused lines.
ghost use Rattle.std.specs.Prelude.{◌≡◌, ◌≤◌, ◌++◌, length};
ghost use Rattle.apei_script.specs.Words.{refused, words_of_fatal};
ghost use Rattle.apei_script.specs.Replies.{IsMade};

use erst_machine::FatalError;
use ghes_ack::SubmitError;
use ghes_block::RegionFull;
use script_lines::LineText;
use script_text::{Refusal, Reply};

/// Makes it the words of a refusal.
pub fn refuse<R: Refusal>(reply: &mut Reply, why: &R)
    requires { R.has_words why.now }
    ensures { IsMade reply.new (refused (R.words why.now)) }
{
    refuse_behind(reply, b"", why);
}

/// The same with a word before them.
pub fn refuse_behind<R: Refusal>(reply: &mut Reply, word: &[u8], why: &R)
    requires told { R.has_words why.now }
    requires short { length word.now ≤ 16 }
    ensures { IsMade reply.new (refused (word.now ++ R.words why.now)) }
{
    let mut text = LineText::new();
    why.add_to(&mut text);
    reply.begin(b"refused ");
    reply.add(word);
    reply.add(text.bytes());
}

/// Makes it the words of a fatal block that is not laid.
pub fn refuse_fatal(reply: &mut Reply, why: FatalError)
    ensures { IsMade reply.new (refused (words_of_fatal why)) }
{
    match why {
        FatalError::Long { len } => refuse(reply, &SubmitError::Long { len }),
        FatalError::Malformed(why) => refuse(reply, &SubmitError::Malformed(why)),
        FatalError::Trailing { bytes } => refuse(reply, &SubmitError::Trailing { bytes }),
        FatalError::Region { need } => refuse(reply, &RegionFull { need }),
    }
}
