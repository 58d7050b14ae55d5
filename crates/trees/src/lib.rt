// Lists of few entries: the leaves of a tree, those that pass a test, and a test of all.
#![tactic(auto)]

ghost use Rattle.std.specs.Prelude.{◌≡◌, ◌≤◌, ◌<◌, ℕ, Bool, ◌||◌, [], ◌∷◌, ◌++◌, length, T, eqb};
ghost use Rattle.certificate.specs.Known.{decoded};
ghost use Rattle.task.specs.Reach.{every};
ghost use Rattle.meaning.specs.Shapes.{keep, kind_at, leaves, is_basic, is_literal};

use certificate::{Checked, StateEntry};
use lookup::state_set;
use nodes::{basic, node_at};

// At most nine entries, in an array with a count: the memory is fixed, and there is no heap.
#[derive(Clone, Copy)]
pub struct Leaves {
    pub items: [u16; 9],
    pub count: u8,
    pub ghost room: { length items ≡ 9 },
    pub ghost few: { count ≤ 9 },
}

impl Leaves {
    ghost use Rattle.trees.specs.Trees.{list_of, Lists, Found, Popped};

    // No entries.
    #[tactic(auto, unfolding(crate::specs::Trees::list_of))]
    pub fn none() -> Self
        ensures { Lists result [] }
    {
        Leaves {
            items: [0; 9],
            count: 0,
        }
    }

    // One entry.
    pub fn one(e: u16) -> Self
        ensures { Lists result (e ∷ []) }
    {
        let mut out = Leaves::none();
        out.push(e);
        out
    }

    // The entries.
    #[tactic(auto, unfolding(crate::specs::Trees::list_of))]
    pub fn entries(&self) -> &[u16]
        ensures { result.now ≡ list_of self.now }
    {
        &self.items[..self.count as usize]
    }

    // One entry more.
    fn push(&mut self, e: u16)
        requires { self.old.count < 9 }
        ensures { Lists self.new (list_of self.old ++ e ∷ []) }
    {
        self.items[self.count as usize] = e;
        self.count += 1;
    }

    // Takes the last entry off.
    fn pop(&mut self) -> Option<u16>
        ensures { Popped self.old self.new result }
    {
        if self.count == 0 {
            return None;
        }
        self.count -= 1;
        Some(self.items[self.count as usize])
    }

    // The leaves of the tree of entries of kind k at entry e, where there are at most eight.
    // What is still to be looked at waits in a list, the next entry last. Each that waits has a leaf, so nine in all are too many.
    pub fn of_tree(file: &Checked, k: u8, e: u16) -> Option<Self>
        requires { T (eqb k 7 || eqb k 8) }
        ensures { Found result (leaves (decoded file.now.bytes.now) k e) }
    {
        let mut out = Leaves::none();
        let mut waiting = Leaves::one(e);
        while let Some(d) = waiting.pop() {
            if 8 <= out.count + waiting.count {
                return None;
            }
            let x = node_at(file, d);
            if x.kind == k {
                waiting.push(x.second);
                waiting.push(x.first);
            } else {
                out.push(d);
            }
        }
        Some(out)
    }

    // The entries that pass a test.
    pub fn filter<F: Fn(u16) -> bool>(&self, wanted: F) -> Self
        requires { F.IsAlwaysCallable wanted }
        ensures { (t : ℕ → Bool) → ((e : ℕ) (r : Bool) → F.post wanted e r → r ≡ t e)
            → Lists result (keep t (list_of self.now)) }
    {
        let mut out = Leaves::none();
        for &e in self.entries() {
            if wanted(e) {
                out.push(e);
            }
        }
        out
    }

    // Whether all entries pass a test.
    pub fn all<F: Fn(u16) -> bool>(&self, test: F) -> bool
        requires { F.IsAlwaysCallable test }
        ensures { (t : ℕ → Bool) → ((e : ℕ) (r : Bool) → F.post test e r → r ≡ t e)
            → result ≡ every t (list_of self.now) }
    {
        self.entries().iter().all(|&e| test(e))
    }
}

// Whether an entry is of kind k.
pub fn has_kind(file: &Checked, e: u16, k: u8) -> bool
    ensures { result ≡ eqb (kind_at (decoded file.now.bytes.now) e) k }
{
    node_at(file, e).kind == k
}

// Whether an entry is of kinds 0 to 5.
pub fn is_basic(file: &Checked, e: u16) -> bool
    ensures { result ≡ is_basic (decoded file.now.bytes.now) e }
{
    basic(state_set(file, e))
}

// Whether an entry is of kinds 0 to 5 or the complement of one that is.
pub fn is_literal(file: &Checked, e: u16) -> bool
    ensures { result ≡ is_literal (decoded file.now.bytes.now) e }
{
    match state_set(file, e) {
        StateEntry::Basic(_) => true,
        StateEntry::Complement(a) => is_basic(file, a),
        _ => false,
    }
}
