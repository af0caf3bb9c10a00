// The host entry: one judge, lent to be altered, above the push by value.
ghost use Rattle.judge.specs.Pushes.{PushedBy};

use crate::state::Judge;
use decision::refusal::Refusal;

// A push into a judge that the host lends: altered in place.
pub fn push_into(
    judge: &mut Judge,
    log: &mut [u8],
    work: &mut [u64],
    rec: &[u8],
) -> Result<(), Refusal>
    ensures { PushedBy judge.old log.old work.old rec.now (record { outcome = result; judge = judge.new }) log.new work.new }
{
    let p = (*judge).push(log, work, rec);
    *judge = p.judge;
    p.outcome
}
