// A ticket: a record, with the count of the judge that it was previewed for.
ghost use Rattle.std.specs.Prelude.{◌≡◌};
ghost use Rattle.judge.specs.Tickets.{ticket_of, no_ticket};

use record::Record;
use record::limits::RECORD_SIZE;

// What a preview gives and a commit takes.
#[derive(Clone, Copy)]
pub struct Ticket {
    pub count: usize,
    pub rec: [u8; RECORD_SIZE],
}

// The ticket of a record, for a judge that has taken so many.
pub(crate) fn ticket_of(count: usize, rec: &Record) -> Ticket
    ensures { result ≡ ticket_of count rec.now }
{
    Ticket { count, rec: *rec }
}

// A ticket of zeros. It has a whole record in it, as every ticket does: the library has no heap to hold one on.
pub(crate) fn no_ticket() -> Ticket
    ensures { result ≡ no_ticket }
{
    Ticket {
        count: 0,
        rec: [0u8; RECORD_SIZE],
    }
}
