// A record, noted as the next in every check's columns of the work area.
ghost use Rattle.std.specs.Prelude.{◌<◌};
ghost use Rattle.record.specs.Records.{decode};
ghost use Rattle.history.specs.Bounds.{Bounds};
ghost use Rattle.history.specs.Logs.{hist};
ghost use Rattle.intake.specs.Words.{Noted};

use record::Record;

// A note that looks back by another's columns comes before it: half's before the owners', generations' before the descriptors'.
// The work area is lent for writing, and so is no part of a `Past`: each note makes its own of the numbers and slices, docs/DECISIONS.md 37.
pub fn note(log: &[u8], work: &mut [u64], n: usize, cap: usize, rec: &Record)
    requires { Bounds log.now work.old n cap × (n < cap) }
    ensures { Noted cap (hist log.now n) (decode rec.now) work.old work.new }
{
    splits::note::note(log, work, n, cap, rec);
    meta_never_goes_back::note::note(log, work, n, cap, rec);
    ids_unique::note::note(log, work, n, cap, rec);
    generations_rise::note::note(log, work, n, cap, rec);
    one_owner_per_key::note::note(log, work, n, cap, rec);
    descriptors::note::note(log, work, n, cap, rec);
}
