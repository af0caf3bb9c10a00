// A judge as the words that a host keeps between calls: a header, and seven words for each check. Read, written, and its rows copied.
#![tactic(auto)]

ghost use Rattle.std.specs.Prelude.{◌≡◌, ◌++◌, ◌≤◌, length, drop};
ghost use Rattle.rows.specs.Rows.{rows_size};
ghost use Rattle.state_words.specs.StateWords.{header_size, state_size, state_words, judge_in, is_state, IsState};

use judge::state::Judge;
use record::copy::copy_items;
use rows::{ROWS, kinds_fit, read_rows, write_rows};
use rules::Opening;

// The words before the reports: capacity, count, events, tenant.
pub const HEADER: usize = 4;

pub const CAPACITY_WORD: usize = 0;

pub const COUNT_WORD: usize = 1;

pub const EVENTS_WORD: usize = 2;

pub const TENANT_WORD: usize = 3;

// The words of a judge.
pub const STATE_WORDS: usize = HEADER + ROWS;

// Whether words are a judge's.
#[tactic(auto, unfolding(crate::specs::StateWords::is_state))]
pub fn is_state(state: &[u64]) -> bool
    ensures { result ≡ is_state state.now }
{
    state.len() == STATE_WORDS && kinds_fit(state, HEADER)
}

// The judge that words stand for. An index and a word have no `From` between them, here and below: `as` is proved to lose nothing.
#[tactic(auto, unfolding(crate::specs::StateWords::judge_in))]
pub fn read_state(state: &[u64]) -> Judge
    requires { IsState state.now }
    ensures { result ≡ judge_in state.now }
{
    Judge {
        capacity: state[CAPACITY_WORD] as usize,
        count: state[COUNT_WORD] as usize,
        events: state[EVENTS_WORD],
        opening: Opening {
            tenant: state[TENANT_WORD],
        },
        reports: read_rows(state, HEADER),
    }
}

// Writes a judge's words.
pub fn write_state(state: &mut [u64], judge: Judge)
    requires { length state.old ≡ state_size }
    ensures { state.new ≡ state_words judge }
{
    state[CAPACITY_WORD] = judge.capacity as u64;
    state[COUNT_WORD] = judge.count as u64;
    state[EVENTS_WORD] = judge.events;
    state[TENANT_WORD] = judge.opening.tenant;
    write_rows(state, HEADER, judge.reports);
}

// Copies the words of a judge's reports to the front of a list. The copying is the slice's own: the function says which words.
pub fn copy_rows(state: &[u64], out: &mut [u64])
    requires { (length state.now ≡ state_size) × (rows_size ≤ length out.old) }
    ensures { out.new ≡ drop header_size state.now ++ drop rows_size out.old }
{
    copy_items(&mut out[..ROWS], &state[HEADER..]);
}
