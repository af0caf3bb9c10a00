// Chains of the records of one bucket: for each bucket the number of its latest record, for each record the number of
// the one before it in its bucket.
ghost use Rattle.std.specs.Prelude.{◌≡◌, ◌+◌, ◌≤◌, ◌<◌, length, get_or, replicate, IfSome};
ghost use Rattle.history.specs.Columns.{clamp, Put, Entered, EnteredIf};

// A record's number, or 0, the beginning before any record, where it is above top: so a walk goes down whatever the area holds.
pub fn no_later(number: usize, top: usize) -> usize
    ensures { (result ≤ top) × (result ≡ clamp number top) }
{
    if top < number { 0 } else { number }
}

// The number at a place of the work area, no later than top.
// The word has no `From` into an index: `as` is proved to lose nothing.
pub fn link(work: &[u64], at: usize, top: usize) -> usize
    requires { at < length work.now }
    ensures { (result ≤ top) × (result ≡ clamp (get_or work.now at 0) top) }
{
    no_later(work[at] as usize, top)
}

// Enters the record at place count into the chain of a bucket. Its number, an index, has no `From` into a word: `as` is proved to lose nothing.
pub fn enter(work: &mut [u64], heads: usize, links: usize, count: usize, bucket: usize)
    requires { (heads + bucket < links) × ((links + count < length work.old) × (count < 4096)) }
    ensures { Entered work.old work.new heads links count bucket }
{
    let old = work[heads + bucket];
    work[links + count] = old;
    work[heads + bucket] = (count + 1) as u64;
}

// Enters it into the chain of its bucket, where it has one.
pub fn enter_if(work: &mut [u64], heads: usize, links: usize, count: usize, bucket: Option<usize>)
    requires room { (links + count < length work.old) × (count < 4096) }
    requires within { IfSome bucket (λ b. heads + b < links) }
    ensures { EnteredIf work.old work.new heads links count bucket }
{
    if let Some(bucket) = bucket {
        enter(work, heads, links, count, bucket);
    }
}

// Writes a word.
pub fn put(work: &mut [u64], at: usize, v: u64)
    requires { at < length work.old }
    ensures { Put work.old work.new at v }
{
    work[at] = v;
}

// Zeroes words: the work area, or the reports of a judge that is none.
pub fn clear(work: &mut [u64])
    ensures { work.new ≡ replicate (length work.old) 0 }
{
    work.fill(0);
}
