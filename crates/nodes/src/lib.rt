// An entry as numbers: its kind and the two entries that it names.
#![tactic(auto)]

ghost use Rattle.std.specs.Prelude.{◌≡◌};
ghost use Rattle.certificate.specs.Known.{decoded};
ghost use Rattle.nodes.specs.Nodes.{numbers, node_of, node_at, is_basic_entry};

use certificate::{Checked, StateEntry};
use leaves::kind_of;
use lookup::state_set;

// An entry's kind by its number in the file, which the rules' definitions compare, and the two entries that it names; 0 where it names none.
#[derive(Clone, Copy, PartialEq, Eq, Debug)]
pub struct Node {
    pub kind: u8,
    pub first: u16,
    pub second: u16,
}

fn numbers(kind: u8, a: u16, b: u16) -> Node
    ensures { result ≡ numbers kind a b }
{
    Node {
        kind,
        first: a,
        second: b,
    }
}

// The numbers of an entry.
#[tactic(auto, unfolding(crate::specs::Nodes::node_of))]
pub fn node_of(x: StateEntry) -> Node
    ensures { result ≡ node_of x }
{
    match x {
        StateEntry::Basic(b) => numbers(kind_of(b), 0, 0),
        StateEntry::Complement(a) => numbers(6, a, 0),
        StateEntry::Intersection(a, b) => numbers(7, a, b),
        StateEntry::Union(a, b) => numbers(8, a, b),
        StateEntry::Progression(a, b) => numbers(9, a, b),
        StateEntry::Regression(a, b) => numbers(10, a, b),
    }
}

// The numbers of the entry with a number.
#[tactic(auto, unfolding(crate::specs::Nodes::node_at))]
pub fn node_at(file: &Checked, e: u16) -> Node
    ensures { result ≡ node_at file.now.index.now (decoded file.now.bytes.now) e }
{
    node_of(state_set(file, e))
}

// Whether a state set is of kinds 0 to 5.
#[tactic(auto, unfolding(crate::specs::Nodes::is_basic_entry))]
pub fn basic(x: StateEntry) -> bool
    ensures { result ≡ is_basic_entry x }
{
    matches!(x, StateEntry::Basic(_))
}
