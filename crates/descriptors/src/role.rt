// What a record does: the applied index that it is read at, and whether it puts its value, states it, or neither.
// Kinds are numbers, as the project's scope numbers them and the definitions speak of them (`is_kind`): an enum would be read back into them.
ghost use Rattle.std.specs.Prelude.{◌≡◌, ◌&&◌, ◌||◌, eqb, leb};
ghost use Rattle.record.specs.Records.{decode};
ghost use Rattle.rules.specs.History.{is_kind, is_by, by_node, holds};
ghost use Rattle.rules.specs.Descriptors.{applied, reached, created_role, role_of};
ghost use Rattle.descriptors.specs.Columns.{DescriptorsIndexed};
ghost use Rattle.descriptors.specs.Answers.{role_is};
ghost use Rattle.history.specs.Pasts.{taken, Indexed};

use history::bucket::bucket_by_two;
use history::past::Past;
use history::place::{APPLIED_HEADS, APPLIED_LINKS};
use record::Record;
use record::field::{a, b, c, code, kind, node};
use record::named::{NodeId, RangeCause};

// Three cases, of which two have an index: no option says which of the two.
#[derive(Clone, Copy)]
pub enum Role {
    Puts(u64),
    States(u64),
    Neither,
}

// By the number alone, as the definitions mark a record.
fn is_by(n: Option<NodeId>, id: u32) -> bool
    ensures { result ≡ by_node id n }
{
    n.is_some_and(|marked| marked.0 == id)
}

// Whether a record of a kind tells an applied index, where it is marked.
pub fn applies(k: u8) -> bool
    ensures { result ≡ eqb k 1 || eqb k 3 || eqb k 4 }
{
    matches!(k, 1 | 3 | 4)
}

// Whether a record tells the applied index of a node and range.
fn is_applied(rec: &Record, id: u32, range: u64) -> bool
    ensures { let x = decode rec.now in
        result ≡ is_by id x && (is_kind 1 x || is_kind 3 x || is_kind 4 x) && eqb x.a range }
{
    is_by(node(rec), id) & applies(kind(rec)) & (a(rec) == range)
}

// The applied index of a node and range: that of the latest record that tells it.
pub fn applied_of(past: &Past, id: u32, range: u64) -> Option<u64>
    ensures { Indexed DescriptorsIndexed past.now → result ≡ applied id range (taken past.now) }
{
    let bucket = bucket_by_two(past.cap, u64::from(id), range);
    past.chain(APPLIED_HEADS, APPLIED_LINKS, bucket)
        .find(|old| is_applied(old.record, id, range))
        .map(|old| b(old.record))
}

// Whether an applied index is known, and at least another.
fn at_least(applied: Option<u64>, index: u64) -> bool
    ensures { result ≡ holds (λ x. leb index x) applied }
{
    applied.is_some_and(|known| index <= known)
}

// Whether a record is marked and a known applied index is at least its own.
#[tactic(auto, unfolding(rules::specs::Descriptors::reached))]
fn is_reached(past: &Past, rec: &Record) -> bool
    ensures { Indexed DescriptorsIndexed past.now → result ≡ reached (decode rec.now) (taken past.now) (decode rec.now).node }
{
    let Some(n) = node(rec) else {
        return false;
    };
    at_least(applied_of(past, n.0, a(rec)), c(rec))
}

fn created_role(by: RangeCause, floor: u64) -> Role
    ensures { role_is result ≡ created_role by floor }
{
    match by {
        RangeCause::Bootstrap | RangeCause::Split => Role::Puts(floor),
        RangeCause::Snapshot => Role::States(floor),
    }
}

// The role of a record over those of the log.
#[tactic(auto, unfolding(rules::specs::Descriptors::role_of))]
pub fn role_of(past: &Past, rec: &Record) -> Role
    ensures { Indexed DescriptorsIndexed past.now → role_is result ≡ role_of (decode rec.now) (taken past.now) }
{
    match kind(rec) {
        1 => created_role(RangeCause::from(code(rec)), b(rec)),
        2 if is_reached(past, rec) => Role::States(c(rec)),
        2 => Role::Puts(b(rec)),
        _ => Role::Neither,
    }
}
