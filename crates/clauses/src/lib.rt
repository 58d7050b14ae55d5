// Clause statements for one action: the search for a state in which it applies, that meets every left clause and fails a
// clause of each right leaf.
#![tactic(auto)]

ghost use Rattle.std.specs.Prelude.{◌≡◌, true, false, ◌+◌, ◌<◌, ◌≤◌, ◌^◌, length};
ghost use Rattle.certificate.specs.declared.BasicEntry.TheVariants.{Horn};
ghost use Rattle.leaves.specs.Leaves.{leaves_in};
ghost use Rattle.leaves.specs.Lists.{Each, Countered};
ghost use Rattle.propagation.specs.Clauses.{LeafOf, LeftOf, Unlisted, Clausal};
ghost use Rattle.propagation.specs.Propagation.{Tells, Settled, Opposed, Assumed, Fixed, Ready, Model, Worth, Sought};

use candidates::{is_before, next_open};
use leaves::Leaf;
use meaning::Clause;
use propagation::{Assignment, Search, Setting, alike, clause_at, effect_of, fact, pulled, solve};
use task::{Action, Ends, all_facts};

// The clause is taken to fail: its positive facts are off, its negative ones on. One that is met already is a conflict.
fn opposite(x: Assignment, c: Clause) -> Option<Assignment>
    ensures { Opposed c x result }
{
    let on = x.on | c.negative;
    let off = x.off | c.positive;
    if on & off != 0 {
        return None;
    }
    Some(Assignment { on, off })
}

// The clause is taken to fail, and the left leaves are settled again where that says anything new.
fn assume(q: &Search, x: Assignment, c: Clause) -> Option<Assignment>
    requires { Settled q.now.setting.two (LeftOf q.now.file.now q.now.left.now q.now.setting) x }
    ensures { Assumed q.now.setting.two (LeftOf q.now.file.now q.now.left.now q.now.setting) c x result }
{
    let y = opposite(x, c)?;
    if alike(q.setting.two, x, y) {
        return Some(y);
    }
    solve(q, Some(x), Some(y))
}

// ---- the search

// Fact i is told off where the left leaves can be settled so, else on. A fact that is known stays as it is.
fn tell(q: &Search, x: Assignment, i: u32) -> Option<Assignment>
    requires { (i < 64) × Settled q.now.setting.two (LeftOf q.now.file.now q.now.left.now q.now.setting) x }
    ensures { Fixed q.now.setting.two (LeftOf q.now.file.now q.now.left.now q.now.setting) i x result }
{
    if ((x.on | x.off) >> i) % 2 == 1 {
        return Some(x);
    }
    let bit = fact(i);
    let off = Clause {
        positive: bit,
        negative: 0,
    };
    let on = Clause {
        positive: 0,
        negative: bit,
    };
    if let Some(y) = assume(q, x, off) {
        return Some(y);
    }
    assume(q, x, on)
}

// Whether a state that agrees with a settled assignment meets the left leaves, which are two-literal.
fn satisfiable(q: &Search, start: Assignment) -> bool
    requires two_value { q.now.setting.two ≡ true }
    requires ready { Ready q.now.setting.two (LeftOf q.now.file.now q.now.left.now q.now.setting) start }
    ensures { Tells result (Model (LeftOf q.now.file.now q.now.left.now q.now.setting) start) }
{
    let mut x = start;
    for i in 0..64 {
        let Some(y) = tell(q, x, i) else {
            return false;
        };
        x = y;
    }
    true
}

// Whether what the search finds can be filled up to a state: false only where no state agrees with the settled assignment and
// meets the left leaves.
fn worth(q: &Search, x: Assignment) -> bool
    requires { Ready q.now.setting.two (LeftOf q.now.file.now q.now.left.now q.now.setting) x }
    ensures { Worth q.now.setting.two (LeftOf q.now.file.now q.now.left.now q.now.setting) x result }
{
    if q.setting.two {
        return satisfiable(q, x);
    }
    true
}

// ---- the right leaves

// Whether x can be settled with a clause of each right leaf from j to 1 taken to fail. A clause that x meets cannot fail.
fn seek(q: &Search, right: &[Leaf], j: usize, x: Assignment) -> bool
    requires pair { (length right.now ≡ 2) × (j ≤ 2) }
    requires ready { Ready q.now.setting.two (LeftOf q.now.file.now q.now.left.now q.now.setting) x }
    ensures { Sought q.now.setting.two result (LeftOf q.now.file.now q.now.left.now q.now.setting) (LeafOf q.now.file.now right.now q.now.setting) j x }
{
    if j == 2 {
        return true;
    }
    let leaf = right[j];
    let by = effect_of(q.setting.action, leaf.after);
    let before = is_before(q.left, leaf.set);
    let mut i = 0u32;
    while let Some(o) = next_open(q.file, leaf.set, i, before, by.changed) {
        let c = pulled(by, clause_at(q.file, q.setting.ends, leaf.set, o));
        i = o + 1;
        let Some(y) = assume(q, x, c) else {
            continue;
        };
        if seek(q, right, j + 1, y) {
            return true;
        }
    }
    false
}

// Whether a state of the task's facts in which the action applies is held by each left leaf and by neither of the first two
// right leaves. The left leaves are Horn, or two-literal where `two` says so.
pub fn refuted(file: &[u8], ends: Ends, left: &[Leaf], right: &[Leaf], two: bool, a: Action) -> bool
    requires facts_bound { (ends.facts ≤ 64) × (a.add < 2 ^ ends.facts) }
    requires clausal { Each (Clausal file.now two) left.now }
    requires pair { (2 ≤ length right.now) × Each Unlisted (leaves_in right.now 2) }
    ensures { Tells result (Countered file.now ends a left.now (leaves_in right.now 2)) }
{
    let q = Search {
        file,
        left,
        setting: Setting {
            ends,
            two,
            action: a,
        },
    };
    let nothing = Assignment { on: 0, off: 0 };
    let start = Clause {
        positive: !all_facts(ends.facts) | a.off,
        negative: a.pre,
    };
    let Some(x) = opposite(nothing, start) else {
        return false;
    };
    let Some(y) = solve(&q, None, Some(x)) else {
        return false;
    };
    if seek(&q, &right[..2], 0, y) {
        return worth(&q, y);
    }
    false
}
