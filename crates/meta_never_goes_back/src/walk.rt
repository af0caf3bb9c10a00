// The won span against the names that stand at its keys: kinds 3 and 4.
ghost use Rattle.std.specs.Prelude.{◌≡◌};
ghost use Rattle.record.specs.Keys.{key_in};
ghost use Rattle.record.specs.Records.{decode};
ghost use Rattle.rules.specs.Cases.{fault_if, case_of};
ghost use Rattle.rules.specs.declared.Verdict.TheVariants.{Pass};
ghost use Rattle.rules.specs.MetaNeverGoesBack.{is_won, name_by, names, covers, name_fault, won_fault, meta_at};
ghost use Rattle.rules.specs.Reports.{at_last, report_of};
ghost use Rattle.meta_never_goes_back.specs.Columns.{MetaIndexed};
ghost use Rattle.meta_never_goes_back.specs.Walk.{named, named_by, stood_with, pull};
ghost use Rattle.history.specs.Pasts.{taken, Indexed};

use crate::fault::name_fault;
use crate::names::Names;
use crate::opposed::any_opposed;
use crate::won::is_won;
use history::past::Past;
use history::span::{end_of, start_of};
use history::walk::Taken;
use record::Record;
use record::field::b;
use record::key::key_less;
use rules::Fault;

// Whether a record's won span has a key.
fn does_cover(old: &Record, key: &[u8]) -> bool
    ensures { result ≡ covers (key_in key.now) (name_by (decode old.now)) }
{
    !key_less(key, start_of(old, 1)) && key_less(key, end_of(old, 1))
}

// The name that stands at a key, when one more is looked at, which is earlier than those so far: of equal indexes the earlier.
#[tactic(auto, unfolding(history::specs::Weighing::greater_of))]
fn stands<'a>(key: &[u8], best: Option<Taken<'a>>, old: Taken<'a>) -> Option<Taken<'a>>
    ensures { named result ≡ stood_with (key_in key.now) (named best.entry) (named_by old.entry) }
{
    if !does_cover(old.record, key) {
        return best;
    }
    match best {
        Some(kept) if b(old.record) < b(kept.record) => best,
        _ => Some(old),
    }
}

// Of two places that whose key is above c and lower, b's where x's is not.
fn nearer<'a>(c: &[u8], x: &'a [u8], b: &'a [u8]) -> &'a [u8]
    ensures { key_in result.now ≡ pull (key_in c.now) (key_in x.now) (key_in b.now) }
{
    if key_less(c, x) && key_less(x, b) {
        x
    } else {
        b
    }
}

// The case of a key by the name that stands there.
fn key_case(standing: Option<Taken>, rec: &Record) -> Option<Fault>
    ensures { result ≡ case_of (name_fault (decode rec.now)) (named standing.entry) }
{
    name_fault(rec, standing?.record)
}

// The fault of the won span: piece by piece in key order, each against the name that stands there, up to the first faulty
// one. A piece begins at the cursor and goes up to the next end of a name. The form is the Rust's: nested loops over the
// pieces and the names that can stand there, left by the label with the fault. The project's scope names that form.
fn walk_case(past: &Past, rec: &Record) -> Option<Fault>
    ensures { Indexed MetaIndexed past.now → result ≡ won_fault (decode rec.now) (names (taken past.now)) }
{
    let start = start_of(rec, 1);
    let end = end_of(rec, 1);
    let mut cur: &[u8] = start;
    'walk: loop {
        if !key_less(cur, end) {
            break 'walk None;
        }
        let mut standing: Option<Taken> = None;
        let mut next: &[u8] = end;
        let mut rest = Names::new(past);
        loop {
            let Some(old) = rest.next() else {
                let case = key_case(standing, rec);
                if case.is_some() {
                    break 'walk case;
                }
                break;
            };
            standing = stands(cur, standing, old);
            let near = nearer(cur, start_of(old.record, 1), next);
            let nearest = nearer(cur, end_of(old.record, 1), near);
            next = nearest;
        }
        cur = next;
    }
}

// The case of the keys that a record wins, while the report is a pass.
pub fn won_case(past: &Past, rec: &Record) -> Option<Fault>
    ensures { let x = decode rec.now in
        Indexed MetaIndexed past.now → (report_of (at_last meta_at) (taken past.now)).verdict ≡ Pass
        → result ≡ fault_if (is_won x) (won_fault x (names (taken past.now))) }
{
    if is_won(rec) && any_opposed(past, rec) {
        walk_case(past, rec)
    } else {
        None
    }
}
