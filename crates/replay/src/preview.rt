// A record previewed and then taken: what the preview shows has to come true, and its ticket serves once.
ghost use Rattle.judge.specs.Pushes.{PushedBy};

use judge::host::push_into;
use judge::push::Pushed;
use judge::state::{Judge, Refusal};
use judge::ticket::Ticket;
use record::limits::RECORD_SIZE;
use rules::{CHECKS, Report};

// A judge, and whether its calls were refused and taken as they should be. The judge goes on either way: what comes next is tried with it too.
#[derive(Clone, Copy)]
pub struct Taken {
    pub judge: Judge,
    pub right: bool,
}

// Whether a ticket has this count and these bytes.
// Tickets have no `==` of their own: this test alone would use it, and would have to build a second ticket for it.
fn is_ticket_of(ticket: Ticket, count: usize, bytes: &[u8; RECORD_SIZE]) -> bool {
    ticket.count == count && ticket.rec == *bytes
}

// A record that is cut short is previewed and pushed. Both are refused for its length, and leave no mark; the preview shows the
// present reports and a ticket of zeros.
fn torn_refused(
    judge: Judge,
    log: &mut [u8],
    work: &mut [u64],
    torn: &[u8],
    now: &[Report; CHECKS],
) -> Taken {
    let shown = judge.preview(log, work, torn);
    let showed = shown.outcome == Err(Refusal::Length)
        && shown.reports == *now
        && is_ticket_of(shown.ticket, 0, &[0; RECORD_SIZE]);
    let pushed = shown.judge.push(log, work, torn);
    Taken {
        judge: pushed.judge,
        right: showed && pushed.outcome == Err(Refusal::Length),
    }
}

// The record pushed into a judge that is lent, as a host does.
fn pushed_lent(mut judge: Judge, log: &mut [u8], work: &mut [u64], rec: &[u8]) -> Pushed
    ensures { PushedBy judge log.old work.old rec.now result log.new work.new }
{
    let outcome = push_into(&mut judge, log, work, rec);
    Pushed { outcome, judge }
}

// The record taken, by turns: where the count is even it is pushed, else committed by its ticket. Nothing that is
// stored tells the two apart, so a difference between them shows as a wrong trace.
fn taken_by_turns(
    judge: Judge,
    log: &mut [u8],
    work: &mut [u64],
    rec: &[u8],
    ticket: Ticket,
) -> Pushed {
    if judge.count % 2 == 0 {
        pushed_lent(judge, log, work, rec)
    } else {
        judge.commit(log, work, ticket)
    }
}

// A whole record is previewed, with the reports that are stored for after it and a ticket for the judge as it stands, and taken.
// Its ticket is tried once more: that is refused, and the judge has taken no more than before. That the reports are as before that,
// the caller's comparison with the stored ones sees.
fn whole_taken(
    judge: Judge,
    log: &mut [u8],
    work: &mut [u64],
    rec: &[u8; RECORD_SIZE],
    after: &[Report; CHECKS],
) -> Taken {
    let shown = judge.preview(log, work, rec);
    let showed = shown.outcome.is_ok()
        && shown.reports == *after
        && is_ticket_of(shown.ticket, shown.judge.count, rec);
    let taken = taken_by_turns(shown.judge, log, work, rec, shown.ticket);
    let stale = taken.judge.commit(log, work, shown.ticket);
    let refused = stale.outcome == Err(Refusal::Ticket) && stale.judge.count == taken.judge.count;
    Taken {
        judge: stale.judge,
        right: showed && taken.outcome.is_ok() && refused,
    }
}

// The record is taken, and before it the same one without its last byte is refused. The reports given are the stored
// ones of before and after the record.
pub fn taken_after_preview(
    judge: Judge,
    log: &mut [u8],
    work: &mut [u64],
    rec: &[u8; RECORD_SIZE],
    now: &[Report; CHECKS],
    after: &[Report; CHECKS],
) -> Taken {
    let torn = torn_refused(judge, log, work, &rec[..RECORD_SIZE - 1], now);
    let whole = whole_taken(torn.judge, log, work, rec, after);
    Taken {
        judge: whole.judge,
        right: torn.right && whole.right,
    }
}
