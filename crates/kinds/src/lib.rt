// What the kinds in the arrays say of a statement: whether it is permitted, and where its anchor is.
#![tactic(auto)]

ghost use Rattle.std.specs.Prelude.{◌≡◌, ◌≤◌, length};
ghost use Rattle.kinds.specs.Summary.{may_anchor, kind_in, flags_in, Sought, from_of, to_of, permits_by, Summary};

use certificate::BasicEntry;
use leaves::{Leaf, kind_of};

// What is known of a statement once its leaves stand in the two arrays.
#[derive(Clone, Copy, PartialEq, Eq, Debug)]
pub struct Gathered {
    // Some leaf is explicit; else all are of clauses.
    pub listed: bool,
    // A left leaf is two-literal.
    pub two: bool,
    pub left_count: usize,
    pub right_count: usize,
    // The first left leaf whose states are listed, of those that may be tried, or the place behind them. An Option would only say `listed`
    // again: where some leaf is explicit, a permitted statement has one.
    pub anchor: usize,
    // The action set of rules 2 and 3; else 0, not read. An Option would only say the rule again.
    pub actions: u16,
}

// Whether leaves of kinds 3, 4 and 5 stand on the left and on the right.
#[derive(Clone, Copy, PartialEq, Eq, Debug)]
pub struct Flags {
    pub l3: bool,
    pub l4: bool,
    pub l5: bool,
    pub r3: bool,
    pub r4: bool,
    pub r5: bool,
}

// Whether some leaf is of kind k, by the number that the file gives the kind: one function for the three that are asked.
fn kind_in(xs: &[Leaf], k: u8) -> bool
    ensures { result ≡ kind_in xs.now k }
{
    xs.iter().any(|x| kind_of(x.set) == k)
}

fn flags_in(left: &[Leaf], right: &[Leaf]) -> Flags
    ensures { result ≡ flags_in left.now right.now }
{
    Flags {
        l3: kind_in(left, 3),
        l4: kind_in(left, 4),
        l5: kind_in(left, 5),
        r3: kind_in(right, 3),
        r4: kind_in(right, 4),
        r5: kind_in(right, 5),
    }
}

// Whether a set's states are listed: none, the initial states where they are few, an explicit list.
fn may_anchor(few: bool, x: BasicEntry) -> bool
    ensures { result ≡ may_anchor few x }
{
    match x {
        BasicEntry::Empty | BasicEntry::Explicit(_) => true,
        BasicEntry::Init => few,
        BasicEntry::Goal | BasicEntry::Horn(_) | BasicEntry::TwoCnf(_) => false,
    }
}

// The first of the leaves from a number up to another whose states are listed.
fn anchor_in(few: bool, left: &[Leaf], from: usize, to: usize) -> Option<usize>
    requires { to ≤ length left.now }
    ensures { Sought few left.now from to result }
{
    for j in from..to {
        if may_anchor(few, left[j].set) {
            return Some(j);
        }
    }
    None
}

// Rule 2 has its anchor inside the bracket, the others outside.
fn find_anchor(few: bool, rule: u8, left: &[Leaf], outside: usize) -> Option<usize>
    requires { outside ≤ length left.now }
    ensures { Sought few left.now (from_of rule outside) (to_of rule outside (length left.now)) result }
{
    if rule == 2 {
        anchor_in(few, left, outside, left.len())
    } else {
        anchor_in(few, left, 0, outside)
    }
}

// The place behind the leaves that may be tried.
fn anchors_end(rule: u8, outside: usize, all: usize) -> usize
    ensures { result ≡ to_of rule outside all }
{
    if rule == 2 { all } else { outside }
}

// Whether the kinds are permitted: all of clauses with at most two right leaves, or listed states with an anchor; for rule 4
// two of the three sorts, the listed states on the left, or clauses that do not both stand on the left.
fn permits(rule: u8, x: Flags, right: usize, anchored: bool) -> bool
    ensures { result ≡ permits_by rule x right anchored }
{
    let h3 = x.l3 | x.r3;
    let h4 = x.l4 | x.r4;
    let h5 = x.l5 | x.r5;
    let clauses = !h3 & !(h4 & h5) & (right <= 2);
    let states = h3 & !h4 & !h5 & anchored;
    let two = (h3 & h4) | (h3 & h5) | (h4 & h5);
    let pair = two & !x.r3 & !(x.l4 & x.l5);
    if rule == 4 { pair } else { clauses | states }
}

// What a statement's leaves tell of it, the first ones on the left outside the bracket, and where the initial states are few or not: Ok
// where it is permitted, Err where it is not.
pub fn summary(
    few: bool,
    rule: u8,
    left: &[Leaf],
    outside: usize,
    right: &[Leaf],
    actions: u16,
) -> Result<Gathered, Gathered>
    requires { outside ≤ length left.now }
    ensures { Summary few rule left.now outside right.now actions result }
{
    let x = flags_in(left, right);
    let anchor = find_anchor(few, rule, left, outside);
    let told = Gathered {
        listed: x.l3 | x.r3,
        two: x.l5,
        left_count: left.len(),
        right_count: right.len(),
        anchor: anchor.unwrap_or(anchors_end(rule, outside, left.len())),
        actions,
    };
    if permits(rule, x, right.len(), anchor.is_some()) {
        Ok(told)
    } else {
        Err(told)
    }
}
