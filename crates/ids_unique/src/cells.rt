// The columns of the blocks: the latest one and the greatest last, each as of every record.
// Both are read from the words alone: what they say holds of any history that the words index, also where no log lies beside them.
ghost use Rattle.std.specs.Prelude.{◌≡◌, List, ℕ, ◌*◌, ◌≤◌, length};
ghost use Rattle.rules.specs.IdsUnique.{blocks_of};
ghost use Rattle.history.specs.Logs.{hist};
ghost use Rattle.ids_unique.specs.Columns.{IdsIndexed, latest_block, greatest_of_lasts};

use history::chain::link;
use history::place::{BLOCK_LINKS, GREATEST_LAST};

// The number of the latest record with a block among the first n, 0 where there is none: as the words hold it.
pub fn block_below(work: &[u64], cap: usize, n: usize) -> usize
    requires { (32 * cap ≤ length work.now) × ((n ≤ cap) × (cap ≤ 4096)) }
    ensures below { result ≤ n }
    ensures latest { (log : List ℕ) (count : ℕ) → n ≤ count → count ≤ cap → IdsIndexed cap (hist log count) work.now → result ≡ latest_block (hist log n) }
{
    if n == 0 {
        0
    } else {
        link(work, BLOCK_LINKS * cap + (n - 1), n)
    }
}

// The greatest last among the blocks of the first n records, 0 where there is none: as the words hold it.
// n is the length of a beginning: 0 is the one before any record, of which there is no word.
pub fn greatest_last(work: &[u64], cap: usize, n: usize) -> u64
    requires { (32 * cap ≤ length work.now) × ((n ≤ cap) × (cap ≤ 4096)) }
    ensures { (log : List ℕ) (count : ℕ) → n ≤ count → count ≤ cap → IdsIndexed cap (hist log count) work.now → result ≡ greatest_of_lasts (blocks_of (hist log n)) }
{
    if n == 0 {
        0
    } else {
        work[GREATEST_LAST * cap + (n - 1)]
    }
}
