// The planning task: states as masks of facts, actions, and the move of one action. Nothing here knows of files.
#![tactic(auto)]

ghost use Rattle.std.specs.Prelude.{◌≡◌, ◌-◌, ◌^◌, min, ◌&&◌};
ghost use Rattle.task.specs.Facts.{all_on, all_off};
ghost use Rattle.task.specs.Task.{applies, after};
ghost use Rattle.task.specs.Inner.{at_init, few_unknown, at_goal};

// An action: the facts it needs on, those it adds, those it deletes, and those it needs off.
// Document 01 calls it an event, with needs, sets and clears, and document 02 adds needs-off.
#[derive(Clone, Copy, PartialEq, Eq, Debug)]
pub struct Action {
    pub pre: u64,
    pub add: u64,
    pub del: u64,
    pub off: u64,
}

// The task's ends: over so many facts, an initial state, the facts that may be on or off there, and the goal's masks: facts that are on
// in a goal state, and facts that are off. Document 01 calls them the start and the forbidden mask; the unknown mask between them and the
// forbidden-off mask are document 02's.
#[derive(Clone, Copy, PartialEq, Eq, Debug)]
pub struct Ends {
    pub facts: u8,
    pub init: u64,
    pub unknown: u64,
    pub goal: u64,
    pub off: u64,
}

// Whether every fact of a mask is on in a state.
#[tactic(auto, unfolding(crate::specs::Facts::all_on))]
pub fn all_on(mask: u64, state: u64) -> bool
    ensures { result ≡ all_on mask state }
{
    state & mask == mask
}

// Whether every fact of the one mask is on in a state, and every fact of the other off.
#[tactic(auto, unfolding(crate::specs::Facts::all_off))]
fn is_as_told(on: u64, off: u64, state: u64) -> bool
    ensures { result ≡ (all_on on state && all_off off state) }
{
    all_on(on, state) & (state & off == 0)
}

// Whether a state is an initial one: it agrees with the one that is named on all known facts.
pub fn is_init(ends: Ends, state: u64) -> bool
    ensures { result ≡ at_init ends state }
{
    state & !ends.unknown == ends.init & !ends.unknown
}

// Whether the initial states are few enough to be tried one by one: at most 12 facts are unknown.
pub fn few_unknown(ends: Ends) -> bool
    ensures { result ≡ few_unknown ends }
{
    ends.unknown.count_ones() <= 12
}

// Whether a state is one of the goal's.
#[tactic(auto, unfolding(crate::specs::Inner::at_goal))]
pub fn is_goal(ends: Ends, state: u64) -> bool
    ensures { result ≡ at_goal ends state }
{
    is_as_told(ends.goal, ends.off, state)
}

// The mask of the first n facts, all 64 of them where n is 64 or above.
pub fn all_facts(n: u8) -> u64
    ensures { result ≡ 2 ^ min n 64 - 1 }
{
    if n < 64 { (1u64 << n) - 1 } else { u64::MAX }
}

// Whether an action may happen in a state: what it needs on is on there, and what it needs off is off.
#[tactic(auto, unfolding(crate::specs::Task::applies))]
pub fn applies(a: Action, state: u64) -> bool
    ensures { result ≡ applies a state }
{
    is_as_told(a.pre, a.off, state)
}

// The state after an action: what it deletes goes first, so that a fact it also adds ends on.
pub fn after(a: Action, state: u64) -> u64
    ensures { result ≡ after a state }
{
    (state & !a.del) | a.add
}
