// A file's entries, steps and actions as values.
ghost use Rattle.std.specs.Prelude.{◌≡◌, ◌+◌, ◌-◌, ◌*◌, ◌≤◌, ◌<◌, length};
ghost use Rattle.file_numbers.specs.Numbers.{number_at};
ghost use Rattle.certificate.specs.Views.{head_at, span_of, state_of, actions_of, state_entry_at, action_entry_at, judgement_of, clean_of, step_read, step_of, off_in, action_in};

use crate::{ActionEntry, BasicEntry, Judgement, Premises, Span, StateEntry, Step};
use file_numbers::{byte_in, u16_at, u16_in, u64_at};
use task::Action;

// The numbers of an entry: its kind, where its body starts and how long it is, and the two numbers that start the body. The kind is the
// file's byte: the matches of `state_of` and `actions_of` are what makes an entry of it.
#[derive(Clone, Copy)]
pub struct Head {
    pub kind: u8,
    pub at: u32,
    pub len: u16,
    pub first: u16,
    pub second: u16,
}

// The numbers of the entry at a place. An entry stands before the steps, so that its numbers stand within the file.
fn head_at(file: &[u8], at: u16) -> Head
    requires { at + 7 ≤ length file.now }
    ensures { result ≡ head_at file.now at }
{
    let p = at as usize;
    let second = u16_in(file, p + 5);
    Head {
        kind: byte_in(file, p + 2),
        at: at as u32 + 3,
        len: u16_in(file, p).saturating_sub(1),
        first: u16_in(file, p + 3),
        second,
    }
}

// The items of a body, of `size` bytes each.
#[tactic(auto, unfolding(crate::specs::Views::span_of))]
fn span_of(h: Head, size: u16) -> Span
    requires { 0 < size }
    ensures { result ≡ span_of h size }
{
    Span {
        at: h.at,
        count: h.len / size,
    }
}

// The state set with these numbers.
#[tactic(auto, using(crate::proofs::TableLaws::state_left), unfolding(crate::specs::Views::state_of, crate::specs::Views::state_table))]
fn state_of(h: Head) -> StateEntry
    ensures { result ≡ state_of h }
{
    match h.kind {
        1 => StateEntry::Basic(BasicEntry::Init),
        2 => StateEntry::Basic(BasicEntry::Goal),
        3 => StateEntry::Basic(BasicEntry::Explicit(span_of(h, 8))),
        4 => StateEntry::Basic(BasicEntry::Horn(span_of(h, 16))),
        5 => StateEntry::Basic(BasicEntry::TwoCnf(span_of(h, 16))),
        6 => StateEntry::Complement(h.first),
        7 => StateEntry::Intersection(h.first, h.second),
        8 => StateEntry::Union(h.first, h.second),
        9 => StateEntry::Progression(h.first, h.second),
        10 => StateEntry::Regression(h.first, h.second),
        _ => StateEntry::Basic(BasicEntry::Empty),
    }
}

// The action set with these numbers.
#[tactic(auto, using(crate::proofs::TableLaws::actions_left), unfolding(crate::specs::Views::actions_of, crate::specs::Views::action_table))]
fn actions_of(h: Head) -> ActionEntry
    ensures { result ≡ actions_of h }
{
    match h.kind {
        1 => ActionEntry::Listed(span_of(h, 2)),
        2 => ActionEntry::Either(h.first, h.second),
        _ => ActionEntry::All,
    }
}

// The state set that stands at a place.
#[tactic(auto, unfolding(crate::specs::Views::state_entry_at))]
pub fn state_entry(file: &[u8], at: u16) -> StateEntry
    requires { at + 7 ≤ length file.now }
    ensures { result ≡ state_entry_at file.now at }
{
    state_of(head_at(file, at))
}

// The action set that stands at a place.
#[tactic(auto, unfolding(crate::specs::Views::action_entry_at))]
pub fn action_entry(file: &[u8], at: u16) -> ActionEntry
    requires { at + 7 ≤ length file.now }
    ensures { result ≡ action_entry_at file.now at }
{
    actions_of(head_at(file, at))
}

// What a judgement of a kind says of two entries.
#[tactic(auto, using(crate::proofs::TableLaws::judgement_left), unfolding(crate::specs::Views::judgement_of))]
fn judgement_of(kind: u8, a: u16, b: u16) -> Judgement
    ensures { result ≡ judgement_of kind a b }
{
    match kind {
        0 => Judgement::Dead(a),
        1 => Judgement::Within(a, b),
        2 => Judgement::ActionsWithin(a, b),
        _ => Judgement::Unsolvable,
    }
}

// Whether a judgement kind is one of 0 to 3, and the entry places that it does not use are zero.
#[tactic(auto, using(crate::proofs::TableLaws::clean_left), unfolding(crate::specs::Views::clean_of))]
fn is_clean(kind: u8, a: u16, b: u16) -> bool
    ensures { result ≡ clean_of kind a b }
{
    match kind {
        0 => b == 0,
        1 | 2 => true,
        3 => (a == 0) & (b == 0),
        _ => false,
    }
}

// The step whose first byte is at a place, within the file.
pub fn step_in(file: &[u8], at: u32) -> Step
    requires { at + 12 ≤ length file.now }
    ensures { result ≡ step_of (step_read file.now at) }
{
    let p = at as usize;
    let kind = byte_in(file, p + 1);
    let left = u16_in(file, p + 2);
    let right = u16_in(file, p + 4);
    let premises = Premises {
        first: u16_in(file, p + 6),
        second: u16_in(file, p + 8),
        third: u16_in(file, p + 10),
    };
    Step {
        rule: byte_in(file, p),
        judgement: judgement_of(kind, left, right),
        clean: is_clean(kind, left, right),
        premises,
    }
}

// What the action of `size` bytes at a place needs off: no fact where it has no mask of them.
#[tactic(auto, unfolding(crate::specs::Views::off_in))]
fn off_at(file: &[u8], size: u8, at: u32) -> u64
    ensures { result ≡ off_in file.now size at }
{
    if size == 32 {
        u64_at(file, at as usize + 24)
    } else {
        0
    }
}

// The action of `size` bytes that stands at a place.
#[tactic(auto, unfolding(crate::specs::Views::action_in))]
pub fn action_at(file: &[u8], size: u8, at: u32) -> Action
    ensures { result ≡ action_in file.now size at }
{
    let p = at as usize;
    Action {
        pre: u64_at(file, p),
        add: u64_at(file, p + 8),
        del: u64_at(file, p + 16),
        off: off_at(file, size, at),
    }
}

// The action's number at an index of the body of a listed action set.
pub fn action_in(file: &[u8], span: Span, i: u16) -> u16
    ensures { result ≡ number_at 2 file.now (span.at + 2 * i) }
{
    u16_at(file, span.at as usize + 2 * i as usize)
}
