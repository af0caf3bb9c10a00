// Why a call is refused: one list for the judge, its core and the library.
ghost use Rattle.std.specs.Prelude.{◌≡◌};
ghost use Rattle.form.specs.Form.{flaw_number};
ghost use Rattle.decision.specs.Refusals.{refusal_number};

use form::Flaw;

#[derive(Clone, Copy, PartialEq, Eq)]
pub enum Refusal {
    Length,
    Kind,
    Value,
    Unused,
    Judge,
    Full,
    Opening,
    Output,
    Ticket,
    Event,
}

impl Refusal {
    // Document 01's and 02's number of a refusal.
    pub fn number(self) -> u64
        ensures { result ≡ refusal_number self }
    {
        match self {
            Refusal::Length => 1,
            Refusal::Kind => 2,
            Refusal::Value => 3,
            Refusal::Unused => 4,
            Refusal::Judge => 5,
            Refusal::Full => 6,
            Refusal::Opening => 7,
            Refusal::Output => 8,
            Refusal::Ticket => 10,
            Refusal::Event => 11,
        }
    }
}

// A record's flaw refuses it, by the same number.
impl From<Flaw> for Refusal {
    ghost from_gives = { λ flaw r. refusal_number r ≡ flaw_number flaw };

    fn from(flaw: Flaw) -> Refusal {
        match flaw {
            Flaw::Length => Refusal::Length,
            Flaw::Kind => Refusal::Kind,
            Flaw::Value => Refusal::Value,
            Flaw::Unused => Refusal::Unused,
        }
    }
}
