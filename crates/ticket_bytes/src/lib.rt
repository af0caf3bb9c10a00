// A ticket as the bytes that a host keeps between a preview and its commit: the count, least byte first, and the record.
#![tactic(auto)]

ghost use Rattle.std.specs.Prelude.{◌≡◌, ◌++◌, ◌≤◌, length, drop, replicate};
ghost use Rattle.ticket_bytes.specs.TicketBytes.{ticket_size, ticket_bytes, is_current};

use record::Record;
use record::copy::copy_items;
use record::limits::RECORD_SIZE;
use record::number::{u64_at, write_number};

// The bytes of the count, and of a ticket.
pub const COUNT_SIZE: usize = 8;

pub const TICKET_SIZE: usize = COUNT_SIZE + RECORD_SIZE;

// Writes a ticket at the front of a list.
pub fn write_ticket(out: &mut [u8], count: u64, rec: &Record)
    requires { ticket_size ≤ length out.old }
    ensures { out.new ≡ ticket_bytes count rec.now ++ drop ticket_size out.old }
{
    write_number(out, 0, COUNT_SIZE, count);
    copy_items(&mut out[COUNT_SIZE..TICKET_SIZE], rec);
}

// Writes a ticket of zeros.
pub fn clear_ticket(out: &mut [u8])
    requires { ticket_size ≤ length out.old }
    ensures { out.new ≡ ticket_bytes 0 (replicate 368 0) ++ drop ticket_size out.old }
{
    write_ticket(out, 0, &[0; RECORD_SIZE]);
}

// Whether a ticket's count is the one given. A list that is too short for a count has none.
#[tactic(auto, unfolding(crate::specs::TicketBytes::is_current))]
pub fn is_current(ticket: &[u8], count: u64) -> bool
    ensures { result ≡ is_current ticket.now count }
{
    ticket.len() >= COUNT_SIZE && u64_at(ticket, 0) == count
}
