// A leaf of a basic statement: a state set of kinds 0 to 5, and which state it is asked about.
#![tactic(auto)]

ghost use Rattle.std.specs.Prelude.{◌≡◌};
ghost use Rattle.leaves.specs.Leaves.{kind_of};

use certificate::BasicEntry;

// A state set, and whether it is asked about the state after the action or about the one before it.
#[derive(Clone, Copy)]
pub struct Leaf {
    pub set: BasicEntry,
    pub after: bool,
}

// The kind's number, document 01's, which the definitions compare.
pub fn kind_of(x: BasicEntry) -> u8
    ensures { result ≡ kind_of x }
{
    match x {
        BasicEntry::Empty => 0,
        BasicEntry::Init => 1,
        BasicEntry::Goal => 2,
        BasicEntry::Explicit(_) => 3,
        BasicEntry::Horn(_) => 4,
        BasicEntry::TwoCnf(_) => 5,
    }
}
