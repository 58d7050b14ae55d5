// Whether a set of kinds 0 to 5 holds a state: listed states by search, clauses one by one.
#![tactic(auto)]

ghost use Rattle.std.specs.Prelude.{◌≡◌, ◌+◌, ◌*◌, ◌≤◌, ◌<◌, length, ltb};
ghost use Rattle.task.specs.Reach.{member};
ghost use Rattle.meaning.specs.Sets.{all_below, meets};
ghost use Rattle.words.specs.Words.{words_at};
ghost use Rattle.certificate.specs.Rows.{by_rows, state_in, InOrder};
ghost use Rattle.leaves.specs.Holds.{states_at, set_holds, Orderly};
ghost use Rattle.membership.specs.Found.{Found};
ghost use Rattle.std.proofs.Props.{props};

use certificate::{BasicEntry, Index, Source, Span};
use file_numbers::u64_in;
use meaning::Clause;
use task::{all_on, is_goal, is_init};
use words::words_in;

// The guess, where it is one of so many, else the one in the middle.
fn within(guess: usize, all: usize) -> usize
    ensures { 0 < all → result < all }
{
    if guess < all { guess } else { all >> 1 }
}

// Whether the states of explicit sets are in order by their rows; else they ascend as they stand.
pub fn by_rows(index: &Index) -> bool
    ensures { result ≡ by_rows index.now }
{
    index[8960] != 0
}

// Listed states of a file in order by size: by their rows, where the states of explicit sets have some, else as they stand.
#[derive(Clone, Copy)]
pub struct Listed<'a> {
    pub bytes: &'a [u8],
    pub index: &'a Index,
    pub span: Span,
    pub rows: bool,
    ghost in_order: { InOrder bytes.now index.now span } by { Prim.hlevel props },
    ghost ordered_by: { rows ≡ by_rows index.now },
}

impl<'a> Listed<'a> {
    pub fn new(file: &Source<'a>, span: Span) -> Listed<'a>
        requires { InOrder file.now.bytes.now file.now.index.now span }
        ensures { (result.bytes.now ≡ file.now.bytes.now) × (result.index.now ≡ file.now.index.now) × (result.span ≡ span) }
    {
        Listed {
            bytes: file.bytes,
            index: file.index,
            span,
            rows: by_rows(file.index),
        }
    }

    // How many there are.
    pub fn len(&self) -> usize
        ensures { result ≡ self.now.span.count }
    {
        self.span.count as usize
    }

    // The k-th by size, where ROWS is whether there are rows.
    fn state_by<const ROWS: bool>(&self, k: usize) -> u64
        requires { (k < self.now.span.count) × (ROWS ≡ self.now.rows) }
        ensures { result ≡ state_in self.now.bytes.now self.now.index.now self.now.span k }
    {
        let at = self.span.at as usize;
        if ROWS {
            let row = self.index[768 + at / 8 + k];
            return u64_in(self.bytes, at + 8 * row as usize);
        }
        u64_in(self.bytes, at + 8 * k)
    }

    // The k-th by size.
    pub fn state(&self, k: usize) -> u64
        requires { k < self.now.span.count }
        ensures { result ≡ state_in self.now.bytes.now self.now.index.now self.now.span k }
    {
        if self.rows {
            self.state_by::<true>(k)
        } else {
            self.state_by::<false>(k)
        }
    }

    // Which of them a state is, looked for from a guess in growing steps and then by halves. No binary_search: the states after an action
    // often stand as those before it do, so the guess is mostly right or near (docs/COST.md, W1).
    #[inline(always)]
    fn search<const ROWS: bool>(&self, guess: usize, s: u64) -> Option<usize>
        requires { ROWS ≡ self.now.rows }
        ensures { Found self.now.bytes.now self.now.index.now self.now.span s result }
    {
        let mut lo: usize = 0;
        let mut hi = self.len();
        let mut mid = within(guess, hi);
        let mut step: usize = 1;
        while lo < hi {
            let t = self.state_by::<ROWS>(mid);
            if t == s {
                return Some(mid);
            }
            if t < s {
                lo = mid + 1;
                mid = mid + step;
                if mid < hi {
                    step = step + step;
                } else {
                    mid = lo + ((hi - lo) >> 1);
                }
            } else {
                hi = mid;
                if step <= mid - lo {
                    mid = mid - step;
                    step = step + step;
                } else {
                    mid = lo + ((hi - lo) >> 1);
                }
            }
        }
        None
    }

    // Which of them a state is, by size; None where it is none of them. The search is compiled for each order.
    #[inline(always)]
    pub fn find(&self, guess: usize, s: u64) -> Option<usize>
        ensures { Found self.now.bytes.now self.now.index.now self.now.span s result }
    {
        if self.rows {
            self.search::<true>(guess, s)
        } else {
            self.search::<false>(guess, s)
        }
    }

    // Whether a state is one of them.
    pub fn contains(&self, s: u64) -> bool
        ensures { result ≡ member s (states_at self.now.bytes.now self.now.span.at self.now.span.count) }
    {
        self.find(0, s).is_some()
    }
}

// Whether a state meets a clause.
fn meets(s: u64, c: Clause) -> bool
    ensures { result ≡ meets s c }
{
    (s & c.positive != 0) | !all_on(c.negative, s)
}

// Whether a state meets each clause.
fn meets_all(file: &[u8], x: Span, s: u64) -> bool
    requires { x.at + 16 * x.count ≤ length file.now }
    ensures { result ≡ all_below x.count (λ i. meets s (words_at file.now x.at i)) }
{
    for i in 0..x.count as u32 {
        if !meets(s, words_in(file, x.at, i)) {
            return false;
        }
    }
    true
}

// Whether a set of kinds 0 to 5 holds a state.
pub fn set_holds(file: &Source, set: BasicEntry, s: u64) -> bool
    requires { Orderly file.now.bytes.now file.now.index.now set }
    ensures { result ≡ set_holds file.now.bytes.now file.now.ends set s }
{
    match set {
        BasicEntry::Empty => false,
        BasicEntry::Init => is_init(file.ends, s),
        BasicEntry::Goal => is_goal(file.ends, s),
        BasicEntry::Explicit(x) => Listed::new(file, x).contains(s),
        BasicEntry::Horn(x) | BasicEntry::TwoCnf(x) => meets_all(file.bytes, x, s),
    }
}
