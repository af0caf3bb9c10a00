// An answer's two numbers.
ghost use Rattle.std.specs.Prelude.{◌≡◌};
ghost use Rattle.petalchurn.specs.Lookups.{answer_of};

// What a look-up gives: the refusal's number, and the value, which is 0 where the call is refused.
#[repr(C)]
#[derive(Clone, Copy)]
pub struct Answer {
    pub refusal: u64,
    pub value: u64,
}

// An answer: the value only where nothing is refused. Both are numbers since C is given them: a refusal of 0 is none.
pub fn answer_of(refusal: u64, value: u64) -> Answer
    ensures { result ≡ answer_of refusal value }
{
    Answer {
        refusal,
        value: if refusal == 0 { value } else { 0 },
    }
}
