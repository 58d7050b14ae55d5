// Tests of the entries that a rule's pattern names. An entry is taken apart into the wanted case; one of any other kind ends the step
// with 9, `NotDerived`.
#![tactic(auto)]

ghost use Rattle.std.specs.Prelude.{◌≡◌, eqb};
ghost use Rattle.meaning.specs.File.{action_set_at, action_kind};
ghost use Rattle.certificate.specs.Known.{decoded};
ghost use Rattle.patterns.specs.Tests.{of_sort, names, names_both, names_complement, names_goal, names_complement_goal, names_all};
ghost use Rattle.patterns.specs.Matched.{matched};

use certificate::{ActionEntry, BasicEntry, Checked, StateEntry, StepFault};
use lookup::{action_set, state_set};

// Tests alike in shape name different variants of `StateEntry`: no function is generic over a variant, and `==` would lose the `let .. else`.

// What an inclusion of state sets says: entry `left` is within entry `right`.
#[derive(Clone, Copy)]
pub struct Inclusion {
    pub left: u16,
    pub right: u16,
}

// A test of numbers: one that fails ends the step.
pub fn matched(holds: bool) -> Result<(), StepFault>
    ensures { result ≡ matched holds }
{
    if holds {
        Ok(())
    } else {
        Err(StepFault::NotDerived)
    }
}

// The empty set, I and G have a function each: one over the wanted `BasicEntry` would take spans too, of which no rule asks.
// Whether entry e is the empty set, 0.
pub fn is_empty(file: &Checked, e: u16) -> Result<(), StepFault>
    ensures { result ≡ matched (of_sort (decoded file.now.bytes.now) 0 e) }
{
    let StateEntry::Basic(b) = state_set(file, e) else {
        return Err(StepFault::NotDerived);
    };
    let BasicEntry::Empty = b else {
        return Err(StepFault::NotDerived);
    };
    Ok(())
}

// Whether entry e is I, the initial states.
pub fn is_init(file: &Checked, e: u16) -> Result<(), StepFault>
    ensures { result ≡ matched (of_sort (decoded file.now.bytes.now) 1 e) }
{
    let StateEntry::Basic(b) = state_set(file, e) else {
        return Err(StepFault::NotDerived);
    };
    let BasicEntry::Init = b else {
        return Err(StepFault::NotDerived);
    };
    Ok(())
}

// Whether entry e is G, the goal.
pub fn is_goal(file: &Checked, e: u16) -> Result<(), StepFault>
    ensures { result ≡ matched (of_sort (decoded file.now.bytes.now) 2 e) }
{
    let StateEntry::Basic(b) = state_set(file, e) else {
        return Err(StepFault::NotDerived);
    };
    let BasicEntry::Goal = b else {
        return Err(StepFault::NotDerived);
    };
    Ok(())
}

// Whether entry e is the complement of x.
pub fn is_complement(file: &Checked, e: u16, x: u16) -> Result<(), StepFault>
    ensures { result ≡ matched (names (decoded file.now.bytes.now) 6 e x) }
{
    let StateEntry::Complement(a) = state_set(file, e) else {
        return Err(StepFault::NotDerived);
    };
    matched(a == x)
}

// Whether entry e is the intersection of x and y, in this order.
pub fn is_intersection(file: &Checked, e: u16, x: u16, y: u16) -> Result<(), StepFault>
    ensures { result ≡ matched (names_both (decoded file.now.bytes.now) 7 e x y) }
{
    let StateEntry::Intersection(a, b) = state_set(file, e) else {
        return Err(StepFault::NotDerived);
    };
    matched((a == x) & (b == y))
}

// Whether entry e is the intersection of x and G, in this order.
pub fn is_goal_part(file: &Checked, e: u16, x: u16) -> Result<(), StepFault>
    ensures { result ≡ matched (names_goal (decoded file.now.bytes.now) e x) }
{
    let StateEntry::Intersection(a, b) = state_set(file, e) else {
        return Err(StepFault::NotDerived);
    };
    matched(a == x)?;
    is_goal(file, b)
}

// Whether entry e is the intersection of the complement of x and G, in this order.
pub fn is_goal_part_of_complement(file: &Checked, e: u16, x: u16) -> Result<(), StepFault>
    ensures { result ≡ matched (names_complement_goal (decoded file.now.bytes.now) e x) }
{
    let StateEntry::Intersection(a, b) = state_set(file, e) else {
        return Err(StepFault::NotDerived);
    };
    is_complement(file, a, x)?;
    is_goal(file, b)
}

// Whether entry e is the union of x and y, in this order.
pub fn is_union(file: &Checked, e: u16, x: u16, y: u16) -> Result<(), StepFault>
    ensures { result ≡ matched (names_both (decoded file.now.bytes.now) 8 e x y) }
{
    let StateEntry::Union(s, u) = state_set(file, e) else {
        return Err(StepFault::NotDerived);
    };
    matched((s == x) & (u == y))
}

// Whether entry e is x[y], what the actions of y make of x.
pub fn is_progression(file: &Checked, e: u16, x: u16, y: u16) -> Result<(), StepFault>
    ensures { result ≡ matched (names_both (decoded file.now.bytes.now) 9 e x y) }
{
    let StateEntry::Progression(a, b) = state_set(file, e) else {
        return Err(StepFault::NotDerived);
    };
    matched((a == x) & (b == y))
}

// Whether entry e is (~x)[y].
pub fn is_progression_of_complement(file: &Checked, e: u16, x: u16, y: u16) -> Result<(), StepFault>
    ensures { result ≡ matched (names_complement (decoded file.now.bytes.now) 9 e x y) }
{
    let StateEntry::Progression(a, b) = state_set(file, e) else {
        return Err(StepFault::NotDerived);
    };
    is_complement(file, a, x)?;
    matched(b == y)
}

// Whether entry e is [y]~x.
pub fn is_regression_of_complement(file: &Checked, e: u16, x: u16, y: u16) -> Result<(), StepFault>
    ensures { result ≡ matched (names_complement (decoded file.now.bytes.now) 10 e x y) }
{
    let StateEntry::Regression(a, b) = state_set(file, e) else {
        return Err(StepFault::NotDerived);
    };
    is_complement(file, a, x)?;
    matched(b == y)
}

// Whether entry e is x[T]. T is a set of kind 0: a list of all the actions will not do.
pub fn is_progression_of_all(file: &Checked, e: u16, x: u16) -> Result<(), StepFault>
    ensures { result ≡ matched (names_all (decoded file.now.bytes.now) 9 e x) }
{
    let StateEntry::Progression(a, b) = state_set(file, e) else {
        return Err(StepFault::NotDerived);
    };
    matched(a == x)?;
    is_all(file, b)
}

// Whether entry e is [T]x.
pub fn is_regression_of_all(file: &Checked, e: u16, x: u16) -> Result<(), StepFault>
    ensures { result ≡ matched (names_all (decoded file.now.bytes.now) 10 e x) }
{
    let StateEntry::Regression(a, b) = state_set(file, e) else {
        return Err(StepFault::NotDerived);
    };
    matched(a == x)?;
    is_all(file, b)
}

// Whether action set a is all actions by its kind, T.
fn is_all(file: &Checked, a: u16) -> Result<(), StepFault>
    ensures { result ≡ matched (eqb (action_kind (action_set_at (decoded file.now.bytes.now) a)) 0) }
{
    let ActionEntry::All = action_set(file, a) else {
        return Err(StepFault::NotDerived); // whatever a list holds
    };
    Ok(())
}
