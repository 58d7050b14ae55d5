// Unit propagation over the clauses of leaves, for one action: what an assignment comes to know where each clause is to hold, until nothing
// changes. Clauses are read from the file whenever they are looked at; none is kept.
#![tactic(auto)]

ghost use Rattle.std.specs.Prelude.{◌≡◌, true, Some, IfSome, ◌+◌, ◌-◌, ◌*◌, ◌<◌, ◌≤◌, ◌^◌, length};
ghost use Rattle.task.specs.Facts.{without};
ghost use Rattle.propagation.specs.Clauses.{fact_clause, clause_count, words_of, own_clause, clause_of, acting, effect_of};
ghost use Rattle.propagation.specs.Clauses.{met_by, pulled_by, Only, Below, OfWords, OfOwn, OfLeaf, LeftOf, Clausal, Usable};
ghost use Rattle.propagation.specs.Propagation.{Alike, Tells, Based, Passed, SolvedFrom, since};
ghost use Rattle.std.proofs.Props.{props};
ghost use Rattle.propagation.specs.Usable.{usable_prop};

use certificate::{BasicEntry, Span};
use leaves::Leaf;
use meaning::Clause;
use task::{Action, Ends};
use words::{Masks, next_hit, words_at, words_in};

// Facts known to be on and facts known to be off.
#[derive(Clone, Copy)]
pub struct Assignment {
    pub on: u64,
    pub off: u64,
}

// ---- clauses

// The facts of s that are not facts of m.
fn without(s: u64, m: u64) -> u64
    ensures { result ≡ without s m }
{
    s & !m
}

// The mask of one fact.
pub fn fact(i: u32) -> u64
    requires { i < 64 }
    ensures { result ≡ 2 ^ i }
{
    1u64 << i
}

// The clause that says that a fact is on where a mask has it, and off where another has it; where neither does every state meets it.
fn fact_clause(on: u64, off: u64, i: u32) -> Clause
    requires { i < 64 }
    ensures { result ≡ fact_clause on off i }
{
    let bit = fact(i);
    Clause {
        positive: without(bit, off),
        negative: without(bit, on),
    }
}

// How many clauses a set has.
pub fn clause_count(set: BasicEntry) -> u32
    ensures { result ≡ clause_count set }
{
    match set {
        BasicEntry::Empty => 1,
        BasicEntry::Init => 64,
        BasicEntry::Goal => 64,
        BasicEntry::Explicit(_) => 0,
        BasicEntry::Horn(s) => s.count as u32,
        BasicEntry::TwoCnf(s) => s.count as u32,
    }
}

// Where a set's clauses stand in the file, if they do.
pub fn words_of(set: BasicEntry) -> Option<Span>
    ensures { result ≡ words_of set }
{
    match set {
        BasicEntry::Empty => None,
        BasicEntry::Init => None,
        BasicEntry::Goal => None,
        BasicEntry::Explicit(_) => None,
        BasicEntry::Horn(s) => Some(s),
        BasicEntry::TwoCnf(s) => Some(s),
    }
}

// The clause that no state meets.
fn no_literal() -> Clause
    ensures { result ≡ record { positive = 0; negative = 0 } }
{
    Clause {
        positive: 0,
        negative: 0,
    }
}

// Clause i of a set whose clauses do not stand in the file.
fn own_clause(ends: Ends, set: BasicEntry, i: u32) -> Clause
    requires { i < clause_count set }
    ensures { result ≡ own_clause ends set i }
{
    match set {
        BasicEntry::Empty => no_literal(),
        BasicEntry::Init => fact_clause(
            without(ends.init, ends.unknown),
            !(ends.init | ends.unknown),
            i,
        ),
        BasicEntry::Goal => fact_clause(ends.goal, ends.off, i),
        BasicEntry::Explicit(_) => no_literal(),
        BasicEntry::Horn(_) => no_literal(),
        BasicEntry::TwoCnf(_) => no_literal(),
    }
}

// Clause i of a set.
pub fn clause_at(file: &[u8], ends: Ends, set: BasicEntry, i: u32) -> Clause
    requires { i < clause_count set }
    ensures { result ≡ clause_of file.now ends set i }
{
    match words_of(set) {
        Some(s) => words_at(file, s.at, i),
        None => own_clause(ends, set, i),
    }
}

// What an action does to clauses: what it adds, what it deletes for good, and what it changes.
#[derive(Clone, Copy)]
pub struct Effect {
    pub add: u64,
    pub gone: u64,
    pub changed: u64,
}

// What the action does to the clauses of a leaf, which is asked about the state after it or not.
pub fn effect_of(a: Action, through: bool) -> Effect
    ensures { result ≡ effect_of (acting a through) }
{
    if through {
        return Effect {
            add: a.add,
            gone: without(a.del, a.add),
            changed: a.add | a.del,
        };
    }
    Effect {
        add: 0,
        gone: 0,
        changed: 0,
    }
}

// Whether an action meets a clause by what it adds or deletes.
fn is_met(by: Effect, c: Clause) -> bool
    ensures { result ≡ met_by by c }
{
    (c.positive & by.add != 0) | (c.negative & by.gone != 0)
}

// A clause of the state after an action, as a clause of the state before it: what the action changes is struck out, and
// one that the action meets is met by every state. That nothing changes is told first, for the leaves that are asked about the
// state before the action.
pub fn pulled(by: Effect, c: Clause) -> Clause
    ensures { result ≡ pulled_by by c }
{
    if by.add | by.gone | by.changed == 0 {
        return c;
    }
    if is_met(by, c) {
        return Clause {
            positive: 1,
            negative: 1,
        };
    }
    Clause {
        positive: without(c.positive, by.changed),
        negative: without(c.negative, by.changed),
    }
}

// ---- propagation

// A look at one clause: where one literal is left it is told, and where none is there is a conflict.
fn unit(x: Assignment, c: Clause) -> Option<Assignment>
    ensures { Passed true (Only c) x result }
{
    if (c.positive & x.on) | (c.negative & x.off) != 0 {
        return Some(x);
    }
    let left_p = without(c.positive, x.off);
    let left_n = without(c.negative, x.on);
    if left_n == 0 {
        if left_p == 0 {
            return None;
        }
        if left_p & (left_p - 1) == 0 {
            return Some(Assignment {
                on: x.on | left_p,
                off: x.off,
            });
        }
        return Some(x);
    }
    if left_p == 0 {
        if left_n & (left_n - 1) == 0 {
            return Some(Assignment {
                on: x.on,
                off: x.off | left_n,
            });
        }
    }
    Some(x)
}

// A look at each clause of a span.
fn pass_words(file: &[u8], s: Span, by: Effect, start: Assignment) -> Option<Assignment>
    requires { s.at + 16 * s.count ≤ length file.now }
    ensures { Passed true (Below (OfWords file.now s.at by) s.count) start result }
{
    let mut x = start;
    for i in 0..s.count as u32 {
        x = unit(x, pulled(by, words_in(file, s.at, i)))?;
    }
    Some(x)
}

// What came to be known since a base.
fn since(two: bool, base: Assignment, x: Assignment) -> Masks
    ensures { result ≡ since two base x }
{
    Masks {
        two,
        off: without(x.off, base.off),
        on: without(x.on, base.on),
    }
}

// The same where a base has the clauses settled: a look at those that it leaves in doubt.
fn pass_touched(
    file: &[u8],
    s: Span,
    by: Effect,
    two: bool,
    base: Assignment,
    start: Assignment,
) -> Option<Assignment>
    requires count_in_bounds { s.at + 16 * s.count ≤ length file.now }
    requires based { Based two (Below (OfWords file.now s.at by) s.count) (Some base) start }
    ensures { Passed two (Below (OfWords file.now s.at by) s.count) start result }
{
    let mut x = start;
    let mut i = 0u32;
    while let Some(j) = next_hit(file, s.at, s.count as u32, i, since(two, base, x)) {
        x = unit(x, pulled(by, words_in(file, s.at, j)))?;
        i = j + 1;
    }
    Some(x)
}

// A look at each clause of a set whose clauses do not stand in the file.
fn pass_own(ends: Ends, set: BasicEntry, by: Effect, start: Assignment) -> Option<Assignment>
    ensures { Passed true (Below (OfOwn ends set by) (clause_count set)) start result }
{
    let mut x = start;
    for i in 0..clause_count(set) {
        x = unit(x, pulled(by, own_clause(ends, set, i)))?;
    }
    Some(x)
}

// A look at each clause of a span, or at those that a base leaves in doubt.
fn pass_span(
    file: &[u8],
    s: Span,
    by: Effect,
    two: bool,
    base: Option<Assignment>,
    x: Assignment,
) -> Option<Assignment>
    requires count_in_bounds { s.at + 16 * s.count ≤ length file.now }
    requires based { Based two (Below (OfWords file.now s.at by) s.count) base x }
    ensures { Passed two (Below (OfWords file.now s.at by) s.count) x result }
{
    match base {
        None => pass_words(file, s, by, x),
        Some(b) => pass_touched(file, s, by, two, b, x),
    }
}

// What stays the same while one action is looked at: the task's ends, whether the left leaves are two-literal or Horn, and the
// action.
#[derive(Clone, Copy)]
pub struct Setting {
    pub ends: Ends,
    pub two: bool,
    pub action: Action,
}

// A search over clauses: the file, the left leaves, and what stays the same.
#[derive(Clone, Copy)]
pub struct Search<'a> {
    pub file: &'a [u8],
    pub left: &'a [Leaf],
    pub setting: Setting,
    ghost usable: { Usable file.now left.now setting.two } by { usable_prop file.now setting.two (λ s. Prim.hlevel props) left.now },
}

// A look at each clause of a leaf.
fn pass_leaf(
    file: &[u8],
    k: Setting,
    leaf: Leaf,
    base: Option<Assignment>,
    x: Assignment,
) -> Option<Assignment>
    requires clausal { Clausal file.now k.two leaf }
    requires based { Based k.two (OfLeaf file.now k.ends k.action leaf) base x }
    ensures { Passed k.two (OfLeaf file.now k.ends k.action leaf) x result }
{
    let by = effect_of(k.action, leaf.after);
    match words_of(leaf.set) {
        Some(s) => pass_span(file, s, by, k.two, base, x),
        None => pass_own(k.ends, leaf.set, by, x),
    }
}

// A look at each clause of the left leaves.
fn pass(q: &Search, base: Option<Assignment>, start: Assignment) -> Option<Assignment>
    requires { Based q.now.setting.two (LeftOf q.now.file.now q.now.left.now q.now.setting) base start }
    ensures { Passed q.now.setting.two (LeftOf q.now.file.now q.now.left.now q.now.setting) start result }
{
    let mut x = start;
    for leaf in q.left {
        x = pass_leaf(q.file, q.setting, *leaf, base, x)?;
    }
    Some(x)
}

// Whether two assignments say the same. For Horn clauses what is on decides: what came to be off needs no look of its own.
pub fn alike(two: bool, x: Assignment, y: Assignment) -> bool
    ensures { Tells result (Alike two x y) }
{
    (x.on == y.on) & (!two | (x.off == y.off))
}

// Looks until nothing changes, or up to a conflict; a conflict to start with stays one. The first look rests on the base, if there is one,
// and each later one on the one before it.
pub fn solve(q: &Search, base: Option<Assignment>, start: Option<Assignment>) -> Option<Assignment>
    requires { IfSome start (λ x. Based q.now.setting.two (LeftOf q.now.file.now q.now.left.now q.now.setting) base x) }
    ensures { SolvedFrom q.now.setting.two (LeftOf q.now.file.now q.now.left.now q.now.setting) start result }
{
    let mut x = start?;
    let mut from = base;
    loop {
        let y = pass(q, from, x)?;
        if alike(q.setting.two, x, y) {
            return Some(y);
        }
        from = Some(x);
        x = y;
    }
}
