// The column of the names: as of each record, the number of the latest, and above it a mark; and the names that it leads along. Its
// readers are lent the work area alone: they need no log, and no capacity above 0, as a `Past` does.
ghost use Rattle.std.specs.Prelude.{◌≡◌, ◌+◌, ◌*◌, ◌≤◌, ◌<◌, leb, length, get_or};
ghost use Rattle.history.specs.Places.{latest_name};
ghost use Rattle.meta_never_goes_back.specs.Columns.{name_before};

use history::chain::no_later;
use history::place::LATEST_NAME;

// The mark. Numbers of records are below it.
pub const MARK: u64 = 8192;

// The number of the latest name among the first k records, 0 where there is none: the word without its mark, no later than k.
// k is the length of a beginning: 0 is the one before any record, of which there is no word. A word has no `From` into an index: `as` is proved to
// lose nothing.
#[tactic(auto, unfolding(crate::specs::Columns::name_before))]
pub fn name_before(work: &[u64], cap: usize, k: usize) -> usize
    requires { (32 * cap ≤ length work.now) × ((k ≤ cap) × (cap ≤ 4096)) }
    ensures below { result ≤ k }
    ensures name { result ≡ name_before cap work.now k }
{
    if k == 0 {
        return 0;
    }
    no_later((work[LATEST_NAME * cap + (k - 1)] % MARK) as usize, k)
}

// Whether the name of the record at place i is marked: it surpasses every earlier one.
pub fn is_marked(work: &[u64], cap: usize, i: usize) -> bool
    requires { (32 * cap ≤ length work.now) × ((i < cap) × (cap ≤ 4096)) }
    ensures { result ≡ leb 8192 (get_or work.now (latest_name * cap + i) 0) }
{
    MARK <= work[LATEST_NAME * cap + i]
}
