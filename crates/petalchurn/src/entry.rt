// Entering a judge into the tally of a campaign.
ghost use Rattle.petalchurn.specs.Tallies.{TalliesWords};

use decision::refusal::Refusal;
use state_words::{is_state, read_state};
use tally::{enter, number_of};

// Counts the judge that a state's words stand for, or says why not: then the tally is as it stood. A refusal is a number, since C is given one.
pub fn petalchurn_tally_enter(state: &[u64], tally: &mut [u8]) -> u64
    ensures { TalliesWords state.now tally.old result tally.new }
{
    if !is_state(state) {
        return Refusal::Judge.number();
    }
    let judge = read_state(state);
    let entered = enter(judge, tally);
    let refusal = entered.refusal;
    number_of(refusal)
}
