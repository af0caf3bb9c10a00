// What C and Rust hosts call, include/petalchurn.h: an export for each call of the library, with its name and its clauses.
#![tactic(auto)]

ghost use Rattle.std.specs.Prelude.{◌≡◌, []};
ghost use Rattle.judge.specs.declared.lookup.Question.TheVariants.{Before, At, FirstAtGeneration, Statements, IsEmpty, HoldersOf, Blocks};
ghost use Rattle.petalchurn.specs.Calls.{OpensWords, PushesWords, ReportsWords, TracesWords};
ghost use Rattle.petalchurn.specs.Previews.{PreviewsWords, CommitsWords};
ghost use Rattle.petalchurn.specs.Lookups.{LooksWords};
ghost use Rattle.petalchurn.specs.Tallies.{TalliesWords};

use petalchurn::answer::Answer;

// The number that PETALCHURN_VERSION has in the header: it rises with every change of the interface.
#[unsafe(no_mangle)]
pub extern "C" fn petalchurn_version() -> u64
    ensures { result ≡ 5 }
{
    petalchurn::version::petalchurn_version()
}

// Opens a judge over a log and a work area, and writes its words.
#[unsafe(no_mangle)]
pub extern "C" fn petalchurn_open(
    tenant: u64,
    log: &[u8],
    work: &mut [u64],
    state: &mut [u64],
) -> u64
    ensures { OpensWords (record { tenant = tenant }) log.now work.old state.old result work.new state.new }
{
    petalchurn::calls::petalchurn_open(tenant, log, work, state)
}

// Takes a record, or says why not: then everything is as it stood.
#[unsafe(no_mangle)]
pub extern "C" fn petalchurn_push(
    state: &mut [u64],
    log: &mut [u8],
    work: &mut [u64],
    rec: &[u8],
) -> u64
    ensures { PushesWords state.old log.old work.old rec.now result state.new log.new work.new }
{
    petalchurn::calls::petalchurn_push(state, log, work, rec)
}

// Shows what a push of a record would do, and gives a ticket to commit it with: state, log and work area are lent for reading only.
#[unsafe(no_mangle)]
pub extern "C" fn petalchurn_preview(
    state: &[u64],
    log: &[u8],
    work: &[u64],
    rec: &[u8],
    reports: &mut [u64],
    ticket: &mut [u8],
) -> u64
    ensures { PreviewsWords state.now log.now work.now rec.now reports.old ticket.old result reports.new ticket.new }
{
    petalchurn::preview::petalchurn_preview(state, log, work, rec, reports, ticket)
}

// Pushes a ticket's record, unless its count is not the judge's.
#[unsafe(no_mangle)]
pub extern "C" fn petalchurn_commit(
    state: &mut [u64],
    log: &mut [u8],
    work: &mut [u64],
    ticket: &[u8],
) -> u64
    ensures { CommitsWords state.old log.old work.old ticket.now result state.new log.new work.new }
{
    petalchurn::preview::petalchurn_commit(state, log, work, ticket)
}

// One of the reports, by its number in printing order.
#[unsafe(no_mangle)]
pub extern "C" fn petalchurn_report(state: &[u64], k: u64, out: &mut [u64]) -> u64
    ensures { ReportsWords state.now k out.old result out.new }
{
    petalchurn::calls::petalchurn_report(state, k, out)
}

// Opens a judge, pushes a trace's records up to the first refusal, and writes what it came to.
#[unsafe(no_mangle)]
pub extern "C" fn petalchurn_trace(
    tenant: u64,
    log: &mut [u8],
    work: &mut [u64],
    trace: &[u8],
    out: &mut [u64],
) -> u64
    ensures { TracesWords (record { tenant = tenant }) log.old work.old trace.now out.old result log.new work.new out.new }
{
    petalchurn::trace::petalchurn_trace(tenant, log, work, trace, out)
}

// The value of a range at the greatest index below the one given.
#[unsafe(no_mangle)]
pub extern "C" fn petalchurn_before(
    state: &[u64],
    log: &[u8],
    work: &[u64],
    range: u64,
    index: u64,
) -> Answer
    ensures { LooksWords (Before range index) state.now log.now work.now [] [] result }
{
    petalchurn::lookups::petalchurn_before(state, log, work, range, index)
}

// The value of a range at the greatest index not above the one given.
#[unsafe(no_mangle)]
pub extern "C" fn petalchurn_at(
    state: &[u64],
    log: &[u8],
    work: &[u64],
    range: u64,
    index: u64,
) -> Answer
    ensures { LooksWords (At range index) state.now log.now work.now [] [] result }
{
    petalchurn::lookups::petalchurn_at(state, log, work, range, index)
}

// The first value of a range and generation.
#[unsafe(no_mangle)]
pub extern "C" fn petalchurn_first_at_generation(
    state: &[u64],
    log: &[u8],
    work: &[u64],
    range: u64,
    generation: u64,
) -> Answer
    ensures { LooksWords (FirstAtGeneration range generation) state.now log.now work.now [] [] result }
{
    petalchurn::lookups::petalchurn_first_at_generation(state, log, work, range, generation)
}

// How many statements there are.
#[unsafe(no_mangle)]
pub extern "C" fn petalchurn_statements(state: &[u64], log: &[u8], work: &[u64]) -> Answer
    ensures { LooksWords Statements state.now log.now work.now [] [] result }
{
    petalchurn::lookups::petalchurn_statements(state, log, work)
}

// Whether no value has been put: 1, else 0.
#[unsafe(no_mangle)]
pub extern "C" fn petalchurn_is_empty(state: &[u64], log: &[u8], work: &[u64]) -> Answer
    ensures { LooksWords IsEmpty state.now log.now work.now [] [] result }
{
    petalchurn::lookups::petalchurn_is_empty(state, log, work)
}

// The node of each block that contains an id.
#[unsafe(no_mangle)]
pub extern "C" fn petalchurn_holders_of(
    state: &[u64],
    log: &[u8],
    work: &[u64],
    id: u64,
    out: &mut [u64],
) -> Answer
    ensures { LooksWords (HoldersOf id) state.now log.now work.now out.old out.new result }
{
    petalchurn::lookups::petalchurn_holders_of(state, log, work, id, out)
}

// Three words of each block: first, last, node.
#[unsafe(no_mangle)]
pub extern "C" fn petalchurn_blocks(
    state: &[u64],
    log: &[u8],
    work: &[u64],
    out: &mut [u64],
) -> Answer
    ensures { LooksWords Blocks state.now log.now work.now out.old out.new result }
{
    petalchurn::lookups::petalchurn_blocks(state, log, work, out)
}

// Counts the judge that a state's words stand for, or says why not: then the tally is as it stood.
#[unsafe(no_mangle)]
pub extern "C" fn petalchurn_tally_enter(state: &[u64], tally: &mut [u8]) -> u64
    ensures { TalliesWords state.now tally.old result tally.new }
{
    petalchurn::entry::petalchurn_tally_enter(state, tally)
}
