// Which of cap buckets numbers belong to: mixed by a multiplication, so that numbers that follow each other spread.
ghost use Rattle.std.specs.Prelude.{◌≡◌, ◌<◌, ◌≤◌};
ghost use Rattle.history.specs.Buckets.{mix, mix_after, fold, bucket, bucket_by, bucket_by_two};

// The two halves of a number, added.
fn folded(a: u64) -> u64
    ensures { result ≡ fold a }
{
    (a % 0x1_0000_0000 + a / 0x1_0000_0000) % 0x1_0000_0000
}

// A number, mixed.
pub fn mixed(a: u64) -> u64
    ensures { (result ≡ mix a) × (result < 4294967296) }
{
    folded(a) * 2654435769 % 0x1_0000_0000
}

// A number mixed with what was mixed before.
pub fn mixed_after(m: u64, a: u64) -> u64
    requires { m < 4294967296 }
    ensures { (result ≡ mix_after m a) × (result < 4294967296) }
{
    mixed(m + folded(a))
}

// The bucket of a mixed number.
// The capacity and the bucket are indexes, which have no `From` into a word, nor from one: each `as` is proved to lose nothing.
pub fn bucket_of(cap: usize, m: u64) -> usize
    requires { (0 < cap) × ((cap ≤ 4096) × (m < 4294967296)) }
    ensures { (result ≡ bucket cap m) × (result < cap) }
{
    (m * (cap as u64) / 0x1_0000_0000) as usize
}

// The bucket of one number, and of two.
pub fn bucket_by(cap: usize, a: u64) -> usize
    requires { (0 < cap) × (cap ≤ 4096) }
    ensures { (result ≡ bucket_by cap a) × (result < cap) }
{
    bucket_of(cap, mixed(a))
}

pub fn bucket_by_two(cap: usize, a: u64, b: u64) -> usize
    requires { (0 < cap) × (cap ≤ 4096) }
    ensures { (result ≡ bucket_by_two cap a b) × (result < cap) }
{
    bucket_of(cap, mixed_after(mixed(a), b))
}
