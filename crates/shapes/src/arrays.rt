// Leaves written into an array.
ghost use Rattle.std.specs.Prelude.{◌≡◌, ℕ, ◌+◌, ◌≤◌, Bool, true, false, length, Option};
ghost use Rattle.certificate.specs.Known.{decoded};
ghost use Rattle.leaves.specs.Leaves.{basic_in};
ghost use Rattle.trees.specs.Trees.{list_of};
ghost use Rattle.shapes.specs.Gathered.{leaf_of};
ghost use Rattle.shapes.specs.Arrays.{taken, filled, picked, Put};

use certificate::{BasicEntry, Checked, StateEntry};
use leaves::Leaf;
use lookup::state_set;
use nodes::node_at;
use trees::{Leaves, has_kind};

// A state set of kinds 0 to 5 itself; the empty set for another.
#[tactic(auto, unfolding(leaves::specs::Leaves::basic_in))]
fn basic_in(x: StateEntry) -> BasicEntry
    ensures { result ≡ basic_in x }
{
    match x {
        StateEntry::Basic(set) => set,
        _ => BasicEntry::Empty,
    }
}

// The leaf of an entry.
fn leaf_of(file: &Checked, e: u16, after: bool) -> Leaf
    ensures { result ≡ leaf_of file.now.index.now (decoded file.now.bytes.now) (record { entry = e; after = after }) }
{
    Leaf {
        set: basic_in(state_set(file, e)),
        after,
    }
}

// The entry itself, where it is no complement.
pub(crate) fn plain(file: &Checked, e: u16) -> Option<u16>
    ensures { result ≡ taken (decoded file.now.bytes.now) false true e }
{
    if has_kind(file, e, 6) { None } else { Some(e) }
}

// The entry whose complement it is, where it is one.
pub(crate) fn turned(file: &Checked, e: u16) -> Option<u16>
    ensures { result ≡ taken (decoded file.now.bytes.now) true true e }
{
    if has_kind(file, e, 6) {
        Some(node_at(file, e).first)
    } else {
        None
    }
}

// The same entry, where it is not of kind 0.
pub(crate) fn filled(file: &Checked, e: Option<u16>) -> Option<u16>
    ensures { result ≡ filled (decoded file.now.bytes.now) e }
{
    let d = e?;
    if has_kind(file, d, 0) { None } else { Some(d) }
}

// Writes the leaves of what is taken of the entries, from a place on, and returns the place after them.
pub(crate) fn put<F: Fn(u16) -> Option<u16>>(
    file: &Checked,
    xs: &Leaves,
    take: F,
    after: bool,
    out: &mut [Leaf],
    from: usize,
) -> usize
    requires call { F.IsAlwaysCallable take }
    requires room { from + xs.now.count ≤ length out.old }
    requires small { length out.old ≤ 24 }
    ensures few { (result ≤ from + xs.now.count) × (length out.new ≡ length out.old) }
    ensures written { (turned all : Bool)
        → ((e : ℕ) (r : Option ℕ) → F.post take e r → r ≡ taken (decoded file.now.bytes.now) turned all e)
        → Put file.now.index.now (decoded file.now.bytes.now)
        (picked (decoded file.now.bytes.now) turned all after (list_of xs.now)) from out.old out.new result }
{
    let mut n = from;
    for &e in xs.entries() {
        if let Some(d) = take(e) {
            out[n] = leaf_of(file, d, after);
            n += 1;
        }
    }
    n
}
