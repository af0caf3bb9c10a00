// The types that the rules and the crates above share: what a check says of a record, and what it reports of a trace. And of the table
// of checks (specs/Checks.antt) what code needs to know.
#![tactic(auto)]

ghost use Rattle.std.specs.Prelude.{◌≡◌, ◌<◌, get_or};
ghost use Rattle.rules.specs.Cases.{evidence};
ghost use Rattle.rules.specs.Checks.{check_count, check_at};

// How many checks there are: as many as the table has.
pub const CHECKS: usize = 8;

// How many kinds of faults each check has, in printing order.
const KINDS: [usize; CHECKS] = [3, 1, 1, 1, 2, 2, 3, 4];

// The numbers that an opening fixes: the tenant that stands for `RAFT_TENANT`.
#[derive(Clone, Copy, PartialEq, Eq)]
pub struct Opening {
    pub tenant: u64,
}

// The five numbers of a fault, missing ones 0.
#[derive(Clone, Copy, PartialEq, Eq)]
pub struct Evidence {
    pub e0: u64,
    pub e1: u64,
    pub e2: u64,
    pub e3: u64,
    pub e4: u64,
}

// A fault that a check finds at a record, judged by it and those before: its kind and evidence. Where a check finds none it says `None`.
#[derive(Clone, Copy, PartialEq, Eq)]
pub struct Fault {
    pub kind: u8,
    pub evidence: Evidence,
}

// The number at a place, 0 where there is none.
fn number(numbers: &[u64], i: usize) -> u64
    ensures { result ≡ get_or numbers.now i 0 }
{
    numbers.get(i).copied().unwrap_or(0)
}

impl Fault {
    // A fault of a kind with the first numbers of its evidence.
    pub fn new(kind: u8, numbers: &[u64]) -> Self
        ensures { result ≡ record { kind = kind; evidence = evidence numbers.now } }
    {
        Fault {
            kind,
            evidence: Evidence {
                e0: number(numbers, 0),
                e1: number(numbers, 1),
                e2: number(numbers, 2),
                e3: number(numbers, 3),
                e4: number(numbers, 4),
            },
        }
    }
}

// An enum with the kind, and the numbers beside it in the report: so the project's scope wants it in place of the Rust's `Option<String>`.
#[derive(Clone, Copy, PartialEq, Eq)]
pub enum Verdict {
    Pass,
    Faulted(u8),
}

// What a check reports of a trace: a pass, or its first fault's kind, with that fault's position and evidence beside it.
#[derive(Clone, Copy, PartialEq, Eq)]
pub struct Report {
    pub verdict: Verdict,
    pub at: u64,
    pub evidence: Evidence,
}

// How many kinds of faults the check at a place of the table has: they are 1 to that number.
pub fn kinds_of(check: usize) -> usize
    requires { check < check_count }
    ensures { result ≡ (check_at check).kinds }
{
    KINDS[check]
}
