//! What a step asks of a sample.
ghost use Rattle.std.specs.Prelude.{◌≡◌};
ghost use Rattle.fsb_trigger.specs.AskedLines.{asked_line};
ghost use Rattle.fsb_trigger.specs.TriggerSteps.{is_word, test_holds};

use fsb_signal::{Lines, Sample, Word};

/// What a sample must have.
#[derive(Clone, Copy, Debug, PartialEq, Eq)]
pub enum Test {
    /// The line is known and asserted.
    Asserted(Lines),
    /// The line is known and not asserted.
    NotAsserted(Lines),
    /// The request word has no unknown bit and is this.
    Request(u64),
    /// The address word has no unknown bit and is this, which is an address divided by 8.
    Address(u64),
    /// The data word has no unknown bit and is this.
    Data(u64),
}

impl Default for Test {
    fn default() -> Test {
        Test::Asserted(Lines(0))
    }
}

impl Test {
    /// The lines that it asks to be asserted.
    pub(crate) fn asked(&self) -> Lines
        ensures { result.0 ≡ asked_line self.now }
    {
        match *self {
            Test::Asserted(line) => line,
            _ => Lines(0),
        }
    }

    /// Whether the sample has it.
    #[tactic(auto, unfolding(crate::specs::TriggerSteps::test_holds))]
    pub fn holds(&self, sample: &Sample) -> bool
        ensures { result ≡ test_holds sample.now self.now }
    {
        match *self {
            Test::Asserted(line) => !sample.has_unknown(line) && sample.has(line),
            Test::NotAsserted(line) => !sample.has_unknown(line) && !sample.has(line),
            Test::Request(bits) => is_word(&sample.req, bits),
            Test::Address(bits) => is_word(&sample.addr, bits),
            Test::Data(bits) => is_word(&sample.dbus, bits),
        }
    }
}

// Whether the word has no unknown bit and is this.
fn is_word(word: &Word, bits: u64) -> bool
    ensures { result ≡ is_word word.now bits }
{
    word.is_known() && word.bits == bits
}
