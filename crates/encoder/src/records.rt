//! How many bound records an encoding leaves, counted before it.
ghost use Rattle.std.specs.Prelude.{◌≡◌, List, ◌++◌, ℕ, ◌+◌, ◌*◌, ◌/◌, ◌≤◌, min, ℤ, length};
ghost use Rattle.model.specs.Limits.{most_bounds};
ghost use Rattle.model.specs.Bounds.{values_from, missing};
ghost use Rattle.party.specs.Read.{machine_of};
ghost use Rattle.stages.specs.Ask.{values_of};
ghost use Rattle.encoder.specs.Read.{Few, Counts, too_many};

use literal::{BOUND_WORDS, MOST_BOUNDS};
use party::{Encoder, Shared};
use stages::Cut;

/// How many values of one direction have no record among the first old ones, with an index of so many places. Never
/// inlined, so that a call for few values has no frame with the large index.
#[inline(never)]
fn lack_within<const PLACES: usize>(bounds: &[u32], old: u32, cut: Cut) -> usize
    requires values { (3 * old ≤ length bounds.now) × (cut.base + cut.n ≤ 4294967296) }
    requires places { (cut.n ≤ PLACES) × (PLACES ≤ 1024) }
    ensures { result ≡ missing (values_from bounds.now 0 old) (values_of cut) }
{
    let mut places = [0; PLACES];
    bounds::index_of(&mut places, bounds, old, cut.base, cut.n);
    bounds::missing_up(&places, cut.base, cut.n)
}

/// The same for one direction alone. Most calls ask for few values, and a small index is then enough.
fn lack_one(bounds: &[u32], old: u32, cut: Cut) -> usize
    requires { (3 * old ≤ length bounds.now) × (cut.n ≤ 1024) × (cut.base + cut.n ≤ 4294967296) }
    ensures { result ≡ missing (values_from bounds.now 0 old) (values_of cut) }
{
    if cut.n <= 64 {
        return lack_within::<64>(bounds, old, cut);
    }
    lack_within::<1024>(bounds, old, cut)
}

/// The same of both directions, each value counted once. Never inlined, so that a call in one direction has no frame
/// with both indexes.
#[inline(never)]
fn lack_both(bounds: &[u32], old: u32, up: Cut, down: Cut) -> usize
    requires { Counts bounds.now old up down }
    ensures { result ≡ missing (values_from bounds.now 0 old) (values_of up ++ values_of down) }
{
    let mut ups = [0; MOST_BOUNDS];
    let mut downs = [0; MOST_BOUNDS];
    bounds::index_of(&mut ups, bounds, old, up.base, up.n);
    bounds::index_of(&mut downs, bounds, old, down.base, down.n);
    bounds::missing_of(&ups, up.base, up.n, &downs, down.base, down.n)
}

/// How many asked values have no record. Most calls ask in one direction, and one index is then enough.
fn without_record(bounds: &[u32], old: u32, up: Cut, down: Cut) -> usize
    requires { Counts bounds.now old up down }
    ensures { result ≡ missing (values_from bounds.now 0 old) (values_of up ++ values_of down) }
{
    if down.is_empty() {
        return lack_one(bounds, old, up);
    }
    if up.is_empty() {
        return lack_one(bounds, old, down);
    }
    lack_both(bounds, old, up, down)
}

/// Whether the records after the call exceed the table. More values than the table has records are not walked
/// through.
pub fn too_many(encoder: &Encoder, bounds: &[u32], up: Cut, down: Cut) -> bool
    requires { Few encoder.now bounds.now up down }
    ensures { (shared : Shared) (next : ℕ) (t : List ℕ) (ws : List ℤ) → result
        ≡ too_many (values_of up) (values_of down) (machine_of encoder.now shared next t bounds.now ws) }
{
    let room = MOST_BOUNDS.min(bounds.len() / BOUND_WORDS);
    let old = stages::kept_bounds(encoder);
    if room < up.n.max(down.n) {
        return true;
    }
    room < old as usize + without_record(bounds, old, up, down)
}
