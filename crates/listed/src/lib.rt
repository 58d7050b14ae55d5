// Statements over listed states: whether an action in a listed state makes a statement untrue.
#![tactic(auto)]

ghost use Rattle.std.specs.Prelude.{◌≡◌, ◌↔◌, ◌+◌, ◌*◌, ◌≤◌, ◌<◌, ◌||◌, true, false, length, T, eqb, Some, IsSomeAnd};
ghost use Rattle.std.specs.Int.Bits.{bit_and};
ghost use Rattle.std.specs.Option.{option_eq};
ghost use Rattle.task.specs.Facts.{all_on};
ghost use Rattle.task.specs.Task.{applies, after};
ghost use Rattle.task.specs.Reach.{member};
ghost use Rattle.meaning.specs.Sets.{all_below, some_below};
ghost use Rattle.certificate.specs.Rows.{state_in, InOrder};
ghost use Rattle.leaves.specs.Leaves.{leaf_in};
ghost use Rattle.leaves.specs.Holds.{states_at, Orderly};
ghost use Rattle.leaves.specs.Lists.{Each, Countered};
ghost use Rattle.membership.specs.Found.{Found};
ghost use Rattle.listed.specs.Listed.{Anchored};
ghost use Rattle.listed.specs.Search.{Readable, Readable-prop, StatesAfter, Different, holds_one, told, shows_in};
ghost use Rattle.listed.specs.Search.{LeadsTo, OneLess, OneInitial, Split};

use certificate::{BasicEntry, Source, Span};
use leaves::Leaf;
use membership::{Listed, set_holds};
use task::{Action, after, applies};

// Whether a leaf holds s, or t where it is asked about the state after the action.
fn holds_one(file: &Source, x: &Leaf, s: u64, t: u64) -> bool
    requires { Orderly file.now.bytes.now file.now.index.now x.now.set }
    ensures { result ≡ holds_one file.now.bytes.now file.now.ends s t x.now }
{
    let v = if x.after { t } else { s };
    set_holds(file, x.set, v)
}

// Whether each leaf, but the one that is not asked, holds, or each does not.
fn each_is(file: &Source, leaves: &[Leaf], but: Option<usize>, holds: bool, s: u64, t: u64) -> bool
    requires { Readable file.now.bytes.now file.now.index.now leaves.now }
    ensures { result ≡ all_below (length leaves.now) (λ j. option_eq eqb but (Some j) || told file.now.bytes.now file.now.ends holds s t (leaf_in leaves.now j)) }
{
    for (j, leaf) in leaves.iter().enumerate() {
        if but != Some(j) && holds_one(file, leaf, s, t) != holds {
            return false;
        }
    }
    true
}

// How many listed states differ: by size, those behind them are the last of them again. No partition_point: it promises nothing of rows
// that are not known to be parted.
fn different(x: &Listed) -> usize
    ensures { Different x.now.index.now x.now.span result }
{
    let count = x.len();
    if count == 0 || !x.rows {
        return count;
    }
    let first = 768 + x.span.at as usize / 8;
    let last = x.index[first + (count - 1)];
    let mut lo: usize = 0;
    let mut hi = count - 1;
    while lo < hi {
        let mid = lo + ((hi - lo) >> 1);
        if x.index[first + mid] == last {
            hi = mid;
        } else {
            lo = mid + 1;
        }
    }
    hi + 1
}

// Listed states that an action may lead to, and which number is behind the one of them that was found last.
#[derive(Clone, Copy)]
struct Trail<'a> {
    into: Listed<'a>,
    next: usize,
}

impl<'a> Trail<'a> {
    // Whether a state is the k-th of them.
    #[inline(always)]
    fn is_at(&self, k: usize, s: u64) -> bool
        ensures { result ≡ true → Found self.now.into.bytes.now self.now.into.index.now self.now.into.span s (Some k) }
    {
        k < self.into.len() && self.into.state(k) == s
    }

    // Whether a state is one of them. It is looked for behind the one found last, where it often stands, and not again where it is the same.
    #[inline(always)]
    fn has(&mut self, s: u64) -> bool
        ensures same { self.new.into ≡ self.old.into }
        ensures found { result ≡ true → member s (states_at self.old.into.bytes.now self.old.into.span.at self.old.into.span.count) ≡ true }
    {
        let next = self.next;
        if self.is_at(next, s) {
            self.next = next + 1;
            return true;
        }
        if 0 < next && self.is_at(next - 1, s) {
            return true;
        }
        let Some(k) = self.into.find(next, s) else {
            return false;
        };
        self.next = k + 1;
        true
    }
}

// A statement, one of whose left leaves, the anchor, lists the states that are tried; and an action that needs no fact both on and off.
#[derive(Clone, Copy)]
struct Statement<'a> {
    file: &'a Source<'a>,
    left: &'a [Leaf],
    right: &'a [Leaf],
    anchor: usize,
    a: Action,
    ghost left_readable: { Readable file.now.bytes.now file.now.index.now left.now } by { Readable-prop file.now.bytes.now file.now.index.now left.now },
    ghost right_readable: { Readable file.now.bytes.now file.now.index.now right.now } by { Readable-prop file.now.bytes.now file.now.index.now right.now },
    ghost needs: { bit_and a.pre a.off ≡ 0 },
}

impl<'a> Statement<'a> {
    ghost use Rattle.listed.specs.Told.{shows, Follows, listed_state, Next, NextUnled};

    // Whether the action applies in a state: one look at all that it needs tells.
    fn applies(&self, s: u64) -> bool
        ensures { result ≡ applies self.now.a s }
    {
        s & (self.a.pre | self.a.off) == self.a.pre
    }

    // Whether s, in which the action applies and leads to t, makes the statement untrue: the left leaves but the anchor hold and no right
    // one does.
    fn shows(&self, s: u64, t: u64) -> bool
        requires { (applies self.now.a s ≡ true) × (t ≡ after self.now.a s) }
        ensures { result ≡ shows self.now s }
    {
        each_is(self.file, self.left, Some(self.anchor), true, s, t)
            && each_is(self.file, self.right, None, false, s, t)
    }

    // The states of the first right leaf, where it lists them and is asked about the state after the action, or that is the state before
    // it. A state from which the action leads to one of them does not make the statement untrue.
    fn trail(&self) -> Option<Trail<'a>>
        ensures { Follows result self.now }
    {
        let x = self.right.first()?;
        if !(x.after || self.a.add | self.a.del == 0) {
            return None;
        }
        let BasicEntry::Explicit(states) = x.set else {
            return None;
        };
        Some(Trail {
            into: Listed::new(self.file, states),
            next: 0,
        })
    }

    // Whether a state does.
    fn state_shows(&self, s: u64) -> bool
        ensures { result ≡ shows self.now s }
    {
        self.applies(s) && self.shows(s, after(self.a, s))
    }

    // The first of listed states from number `from` on and before `to`, by size, that may do so: the action applies in it, and leads from
    // it to no state of the trail. A loop of its own, without a call, so that all it goes by stays in registers.
    #[inline(never)]
    fn next_open(
        &self,
        trail: &Option<Trail>,
        states: &Listed,
        from: usize,
        to: usize,
    ) -> Option<usize>
        requires follows { Follows trail.now self.now }
        requires none { some_below from (λ k. shows self.now (listed_state states.now k)) ≡ false }
        requires bounds { (from ≤ to) × (to ≤ states.now.span.count) }
        ensures { Next (λ k. shows self.now (listed_state states.now k)) from to result }
    {
        let Some(mut trail) = *trail else {
            return if from < to { Some(from) } else { None };
        };
        // Copies, so that the loop need not read them again.
        let (x, states) = (*self, *states);
        for i in from..to {
            let s = states.state(i);
            if x.applies(s) && !trail.has(after(x.a, s)) {
                return Some(i);
            }
        }
        None
    }

    // Whether one of the anchor's listed states does.
    fn one_shows(&self, x: Span) -> bool
        requires { InOrder self.now.file.now.bytes.now self.now.file.now.index.now x }
        ensures { result ≡ some_below x.count (λ i. shows self.now (state_in self.now.file.now.bytes.now self.now.file.now.index.now x i)) }
    {
        let states = Listed::new(self.file, x);
        let trail = self.trail();
        let to = different(&states);
        let mut i = 0;
        while let Some(k) = self.next_open(&trail, &states, i, to) {
            if self.state_shows(states.state(k)) {
                return true;
            }
            i = k + 1;
        }
        false
    }

    // Whether one of the states s - e does, for the masks e within a mask, which are no range to go over. The action applies in each of
    // them, and leads to the same state.
    fn some_shows(&self, s: u64, mask: u64) -> bool
        requires within { T (all_on mask s) }
        requires alike { LeadsTo self.now.a s mask (after self.now.a s) }
        ensures { T result ↔ OneLess s mask (shows self.now) }
    {
        let t = after(self.a, s);
        let mut e = mask;
        loop {
            if self.shows(s - e, t) {
                return true;
            }
            if e == 0 {
                return false;
            }
            e = (e - 1) & mask;
        }
    }

    // The first of the states top - d, for the masks d within a mask from `from` down, from which the action leads to no state of the
    // trail. They ascend as d goes down. A loop of its own, as `next_open` is.
    #[inline(never)]
    fn next_unled(&self, trail: &Option<Trail>, top: u64, mask: u64, from: u64) -> Option<u64>
        requires follows { Follows trail.now self.now }
        requires within { T (all_on mask top) × T (all_on from mask) }
        ensures { NextUnled self.now top mask from result }
    {
        let Some(mut trail) = *trail else {
            return Some(from);
        };
        let mut d = from;
        loop {
            if !trail.has(after(self.a, top - d)) {
                return Some(d);
            }
            if d == 0 {
                return None;
            }
            d = (d - 1) & mask;
        }
    }

    // Whether one of the initial states does, where the action applies in `top`. They are tried as top - d - e, for the masks d of facts
    // that it keeps and e of facts that it changes: whatever e is, it leads to the same state, and these ascend as d goes down.
    fn tried_show(&self, top: u64, kept: u64, changed: u64) -> bool
        requires split { Split self.now.file.now.ends self.now.a top kept changed }
        requires top { applies self.now.a top ≡ true }
        ensures { T result ↔ OneInitial self.now.file.now.ends (shows self.now) }
    {
        let trail = self.trail();
        let mut d = kept;
        while let Some(r) = self.next_unled(&trail, top, kept, d) {
            if self.some_shows(top - r, changed) {
                return true;
            }
            if r == 0 {
                return false;
            }
            d = (r - 1) & kept;
        }
        false
    }

    // Whether one of the initial states does. Where the action applies in none of them, as `top` tells, none does; else the unknown facts
    // that it needs are known.
    fn initial_shows(&self) -> bool
        ensures { T result ↔ OneInitial self.now.file.now.ends (shows self.now) }
    {
        let ends = self.file.ends;
        let a = self.a;
        let unknown = ends.unknown;
        let top = (ends.init | unknown) & !(a.off & unknown);
        if !applies(a, top) {
            return false;
        }
        let free = unknown & !(a.pre | a.off);
        let changed = free & (a.add | a.del);
        let kept = free & !(a.add | a.del);
        self.tried_show(top, kept, changed)
    }
}

// Whether an action in a state of the anchor, a left leaf that lists its states, makes the statement untrue. One that needs a fact both on
// and off applies in none, and makes none so.
pub fn shown(file: &Source, left: &[Leaf], right: &[Leaf], anchor: usize, a: Action) -> bool
    requires anchored { (anchor < length left.now) × Anchored file.now.bytes.now file.now.ends (leaf_in left.now anchor) }
    requires each { Each (λ x. Orderly file.now.bytes.now file.now.index.now x.set) left.now × Each (λ x. Orderly file.now.bytes.now file.now.index.now x.set) right.now }
    ensures { T result ↔ Countered file.now.bytes.now file.now.ends a left.now right.now }
{
    if a.pre & a.off != 0 {
        return false;
    }
    let set = left[anchor].set;
    let statement = Statement {
        file,
        left,
        right,
        anchor,
        a,
    };
    match set {
        BasicEntry::Init => statement.initial_shows(),
        BasicEntry::Explicit(states) => statement.one_shows(states),
        _ => false,
    }
}
