// The column of the counts: the word of each record has the counts after it, and above them a mark. Its readers are lent the work
// area alone: they need no log, and no capacity above 0, as a `Past` does.
ghost use Rattle.std.specs.Prelude.{◌≡◌, ◌+◌, ◌*◌, ◌≤◌, ◌<◌, leb, length, get_or};
ghost use Rattle.rules.specs.History.{History};
ghost use Rattle.rules.specs.Descriptors.{statements, is_empty};
ghost use Rattle.history.specs.Places.{counts};
ghost use Rattle.descriptors.specs.Columns.{DescriptorsIndexed, counts_of};

use history::chain::link;
use history::place::COUNTS;

// The mark. Counts are below it.
pub const MARK: u64 = 16384;

// No note leaves a greater word: the mark, and the counts of 4096 statements and a value.
const GREATEST: usize = 24577;

// Whether the value of the record at place i is marked: its index is above that of every earlier value of its range.
pub fn is_rising(work: &[u64], cap: usize, i: usize) -> bool
    requires { (32 * cap ≤ length work.now) × ((i < cap) × (cap ≤ 4096)) }
    ensures { result ≡ leb 16384 (get_or work.now (counts * cap + i) 0) }
{
    MARK <= work[COUNTS * cap + i]
}

// The counts after the first count records: the word of the latest without its mark, 0 where it is greater than a note leaves.
// An index has no `From` into a word: `as` is proved to lose nothing.
#[tactic(auto, using(crate::proofs::Noting::counts_none, crate::proofs::Noting::counts_some))]
pub fn counts(work: &[u64], count: usize, cap: usize) -> u64
    requires { (32 * cap ≤ length work.now) × ((count ≤ cap) × (cap ≤ 4096)) }
    ensures below { result < 16384 }
    ensures counts { (h : History) → length h ≡ count → DescriptorsIndexed cap h work.now → result ≡ counts_of h }
{
    if count == 0 {
        return 0;
    }
    link(work, COUNTS * cap + (count - 1), GREATEST) as u64 % MARK
}

// How many statements there are.
#[tactic(auto, using(crate::proofs::Noting::counts_statements))]
pub fn statements(work: &[u64], count: usize, cap: usize) -> u64
    requires { (32 * cap ≤ length work.now) × ((count ≤ cap) × (cap ≤ 4096)) }
    ensures { (h : History) → length h ≡ count → DescriptorsIndexed cap h work.now → result ≡ statements h }
{
    counts(work, count, cap) / 2
}

// Whether no value has been put.
#[tactic(auto, using(crate::proofs::Noting::counts_empty))]
pub fn is_empty(work: &[u64], count: usize, cap: usize) -> bool
    requires { (32 * cap ≤ length work.now) × ((count ≤ cap) × (cap ≤ 4096)) }
    ensures { (h : History) → length h ≡ count → DescriptorsIndexed cap h work.now → result ≡ is_empty h }
{
    counts(work, count, cap) % 2 == 0
}
