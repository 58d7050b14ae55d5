// The verdict on a basic statement, rules 1 to 5: its leaves are gathered, and then its truth is decided by listed states or by clauses.
#![tactic(auto)]

ghost use Rattle.std.specs.Prelude.{◌≡◌, ◌↔◌, true, ◌≤◌, ◌<◌, ◌^◌, T, length};
ghost use Rattle.certificate.specs.Known.{decoded};
ghost use Rattle.inclusion.specs.Search.{Searchable, CounteredBy, SomeCountered, has_bracket, ByRule};
ghost use Rattle.inclusion.specs.Verdict.{verdict_of, verdict_but, fault_of};

use actions::marks::is_marked;
use actions::{action_marks, actions_within};
use certificate::{BasicEntry, Source, StepFault, WithEnds};
use clauses::refuted;
use kinds::Gathered;
use leaves::Leaf;
use listed::shown;
use lookup::{action, actions};
use shapes::shape::gather;
use task::{Action, few_unknown};

// Why a basic statement fails. Document 01 replies 11 to what is untrue and 10 to a shape that is not permitted.
#[derive(Clone, Copy, PartialEq, Eq, Debug)]
pub enum Failure {
    Untrue,
    NotPermitted,
}

impl From<Failure> for StepFault {
    ghost from_gives = { λ failure fault. fault ≡ fault_of failure };

    #[tactic(auto, unfolding(crate::specs::Verdict::fault_of))]
    fn from(failure: Failure) -> StepFault {
        match failure {
            Failure::Untrue => StepFault::Untrue,
            Failure::NotPermitted => StepFault::NotPermitted,
        }
    }
}

// A permitted statement: the arrays that its leaves stand in, and what is told of them. That they may be searched is a clause of three
// functions: a statement that carried it would hold the file too, and each function would say that it is the same one.
#[derive(Clone, Copy)]
struct Statement<'a> {
    left: &'a [Leaf],
    right: &'a [Leaf],
    told: Gathered,
}

// Whether an action makes a statement untrue. The search over clauses looks at two right leaves; those that stand behind the last one
// are of the empty set, which holds nothing.
fn one_refutes(file: &Source, x: &Statement, a: Action) -> bool
    requires searchable { Searchable file.now.bytes.now file.now.index.now file.now.ends x.now.left.now x.now.right.now x.now.told }
    requires add_bound { a.add < 2 ^ file.now.ends.facts }
    ensures { T result ↔ CounteredBy file.now.bytes.now file.now.ends x.now.left.now x.now.right.now x.now.told a }
{
    let told = x.told;
    let left = x.left;
    let right = x.right;
    let moved = &left[..told.left_count];
    if told.listed {
        return shown(file, moved, &right[..told.right_count], told.anchor, a);
    }
    refuted(file.bytes, file.ends, moved, right, told.two, a)
}

// Whether some action of the statement's action set does.
fn some_refutes(file: &WithEnds, x: &Statement) -> bool
    requires searchable { Searchable file.now.entries.bytes.now file.now.entries.index.now file.now.ends x.now.left.now x.now.right.now x.now.told }
    requires actions_in_bounds { x.now.told.actions < length (decoded file.now.entries.bytes.now).action_sets }
    ensures { T result ↔ SomeCountered file.now.entries.bytes.now file.now.ends x.now.left.now x.now.right.now x.now.told }
{
    let source = Source {
        bytes: file.entries.bytes,
        index: file.entries.index,
        ends: file.ends,
    };
    let marks = action_marks(&file.entries, x.told.actions);
    let all = actions(file.entries.bytes);
    for i in 0..all.count {
        if is_marked(marks, i) {
            let a = action(file.entries.bytes, all, i);
            if one_refutes(&source, x, a) {
                return true;
            }
        }
    }
    false
}

// Whether a rule's statement has a bracket, and so an action set.
#[tactic(auto, unfolding(crate::specs::Search::has_bracket))]
fn has_bracket(rule: u8) -> bool
    ensures { result ≡ has_bracket rule }
{
    matches!(rule, 2 | 3)
}

// Whether the statement of a rule is untrue: by an action of its set where it has a bracket, else by none.
fn is_countered(file: &WithEnds, rule: u8, x: &Statement) -> bool
    requires searchable { Searchable file.now.entries.bytes.now file.now.entries.index.now file.now.ends x.now.left.now x.now.right.now x.now.told }
    requires actions_in_bounds { has_bracket rule ≡ true → x.now.told.actions < length (decoded file.now.entries.bytes.now).action_sets }
    ensures { T result ↔ ByRule file.now.entries.bytes.now file.now.ends x.now.left.now x.now.right.now x.now.told rule }
{
    if has_bracket(rule) {
        return some_refutes(file, x);
    }
    let source = Source {
        bytes: file.entries.bytes,
        index: file.entries.index,
        ends: file.ends,
    };
    let nothing = Action {
        pre: 0,
        add: 0,
        del: 0,
        off: 0,
    };
    one_refutes(&source, x, nothing)
}

// The verdict on a permitted statement.
#[tactic(auto, unfolding(crate::specs::Verdict::verdict_but))]
fn verdict_on(untrue: bool) -> Result<(), Failure>
    ensures { result ≡ verdict_but untrue }
{
    if untrue { Err(Failure::Untrue) } else { Ok(()) }
}

// The verdict on rule 1 to 5 at entries e and d.
pub fn decide(file: &WithEnds, rule: u8, e: u16, d: u16) -> Result<(), Failure>
    requires le_rule { (1 ≤ rule) × (rule ≤ 5) }
    requires e_in_bounds { rule ≡ 5 → (e < length (decoded file.now.entries.bytes.now).action_sets) × (d < length (decoded file.now.entries.bytes.now).action_sets) }
    ensures { result ≡ verdict_of (decoded file.now.entries.bytes.now) rule e d }
{
    if rule == 5 {
        return verdict_on(!actions_within(&file.entries, e, d));
    }
    let no_leaf = Leaf {
        set: BasicEntry::Empty,
        after: false,
    };
    let mut left = [no_leaf; 24];
    let mut right = [no_leaf; 16];
    let few = few_unknown(file.ends);
    let Some(told) = gather(&file.entries, few, rule, e, d, &mut left, &mut right) else {
        return Err(Failure::NotPermitted);
    };
    let x = Statement {
        left: &left,
        right: &right,
        told,
    };
    verdict_on(is_countered(file, rule, &x))
}
