// What refuses a line.
ghost use Rattle.std.specs.Prelude.{◌≡◌, ℕ, ◌+◌, ◌≤◌, List, ◌++◌, length, take, OnOk, OnErr};
ghost use Rattle.base_model.specs.Faults.{HasCause};

use apei_bytes::{Sink, SinkFault, write_all};
use script_lines::LineText;

/// A refusal, which has words in a reply. Want of memory is no refusal, and has none.
pub trait Refusal {
    // Whether it has words.
    ghost has_words: { Self → Type 0 } = { λ _. Unit {0} };

    // Its words.
    ghost words: { Self → List ℕ };

    // How many bytes a text may have before them: words of this kind have no more than the rest of 128.
    ghost most_before: { ℕ };

    /// Appends its words to a text.
    fn add_to(&self, text: &mut LineText)
        requires told { has_words self.now }
        requires room { length text.old ≤ most_before }
        ensures words { text.new ≡ text.old ++ words self.now }
        ensures short { length text.new + most_before ≤ length text.old + 128 };

    /// Appends its words to a sink, by one write where the sink takes them whole.
    fn put<O: Sink>(&self, out: &mut O) -> Result<(), SinkFault>
        requires { has_words self.now }
        ensures all { OnOk result (O.tells → O.written out.new ≡ O.written out.old ++ words self.now) }
        ensures part { OnErr result (O.tells
            → (n : ℕ) × (O.written out.new ≡ O.written out.old ++ take n (words self.now))) }
        ensures cause { HasCause (O.faults out.old) (O.faults out.new) result }
    {
        let mut text = LineText::new();
        self.add_to(&mut text);
        write_all(out, text.bytes())
    }
}
