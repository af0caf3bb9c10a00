// Committing a record by its ticket: a push, where the judge has taken as many records as the ticket says.
ghost use Rattle.judge.specs.Previews.{CommittedBy};

use crate::push::Pushed;
use crate::state::Judge;
use crate::ticket::Ticket;
use decision::refusal::Refusal;

impl Judge {
    // Pushes the ticket's record, unless its count is not the judge's. Nothing rests on where the ticket came from: all is tested anew.
    pub fn commit(self, log: &mut [u8], work: &mut [u64], ticket: Ticket) -> Pushed
        ensures { CommittedBy self log.old work.old ticket result log.new work.new }
    {
        let suiting = self.suits(log.len(), work.len());
        let judge = suiting.judge;
        if suiting.holds & (ticket.count != judge.count) {
            return Pushed {
                outcome: Err(Refusal::Ticket),
                judge,
            };
        }
        let rec = ticket.rec;
        judge.push(log, work, &rec)
    }
}
