// The file as it stands in memory: the places of its parts, and its entries and steps as values.
#![tactic(auto)]

ghost use Rattle.std.specs.Prelude.{◌≡◌};
ghost use Rattle.std.proofs.Props.{props};
ghost use Rattle.task.specs.Inner.{ends_of};
ghost use Rattle.certificate.specs.Known.{Known, Placed, decoded};
ghost use Rattle.certificate.specs.Faults.{number_of};

use task::Ends;

pub mod index;
pub mod views;

// The table of the entries: the places of the action sets at 0 to 255, those of the state sets at 256 to 767, and 0 where there is no
// entry. Where some explicit set does not ascend, 1 at the end, and in between a row for each 8 bytes of the longest file: a set's rows,
// from its body's place divided by 8 on, name its states in ascending order.
pub type Index = [u16; 8961];

// The task's ends, how many of each part a file has, and where the parts after the actions start.
#[derive(Clone, Copy)]
pub struct Places {
    pub ends: Ends,
    pub actions: u16,
    pub action_sets: u16,
    pub state_sets: u16,
    pub steps: u16,
    pub action_sets_at: u32,
    pub state_sets_at: u32,
    pub steps_at: u32,
}

// A file that was read, and where its parts stand.
#[derive(Clone, Copy)]
pub struct Laid<'a> {
    pub bytes: &'a [u8],
    pub at: Places,
    ghost placed: { Placed bytes.now at } by { Prim.hlevel props },
}

// A file that was read, and the table of its entries.
#[derive(Clone, Copy)]
pub struct Checked<'a> {
    pub bytes: &'a [u8],
    pub index: &'a Index,
    ghost known: { Known bytes.now index.now } by { Prim.hlevel props },
}

// One file as both.
#[derive(Clone, Copy)]
pub struct Whole<'a> {
    pub laid: Laid<'a>,
    pub entries: Checked<'a>,
    ghost same: { laid.bytes.now ≡ entries.bytes.now } by { Prim.hlevel props },
}

// A file that was read, the table of its entries, and its task's ends.
#[derive(Clone, Copy)]
pub struct WithEnds<'a> {
    pub entries: Checked<'a>,
    pub ends: Ends,
    ghost ends_are: { ends ≡ ends_of (decoded entries.bytes.now).task } by { Prim.hlevel props },
}

// What kinds 0 to 5 are told from: a file, the table of its entries, and a task's ends. Nothing is known of them.
#[derive(Clone, Copy)]
pub struct Source<'a> {
    pub bytes: &'a [u8],
    pub index: &'a Index,
    pub ends: Ends,
}

// Items in a body: where the first of them stands, and how many there are.
#[derive(Clone, Copy, PartialEq, Eq, Debug)]
pub struct Span {
    pub at: u32,
    pub count: u16,
}

// The task's actions: where the first of them stands, how many bytes each has, and how many there are.
#[derive(Clone, Copy)]
pub struct Actions {
    pub at: u32,
    pub size: u8,
    pub count: u16,
}

// An action set, kinds 0 to 2.
#[derive(Clone, Copy)]
pub enum ActionEntry {
    All,
    Listed(Span),
    Either(u16, u16),
}

// A state set of kinds 0 to 5, which names no other.
#[derive(Clone, Copy, PartialEq, Eq, Debug)]
pub enum BasicEntry {
    Empty,
    Init,
    Goal,
    Explicit(Span),
    Horn(Span),
    TwoCnf(Span),
}

// A state set, kinds 0 to 10.
#[derive(Clone, Copy)]
pub enum StateEntry {
    Basic(BasicEntry),
    Complement(u16),
    Intersection(u16, u16),
    Union(u16, u16),
    Progression(u16, u16),
    Regression(u16, u16),
}

// What a step says, kinds 0 to 3: a set is dead, a state set is within another, an action set is, or the task is unsolvable.
#[derive(Clone, Copy)]
pub enum Judgement {
    Dead(u16),
    Within(u16, u16),
    ActionsWithin(u16, u16),
    Unsolvable,
}

// The numbers of the steps that are a step's premises; 0 where its rule has fewer.
#[derive(Clone, Copy)]
pub struct Premises {
    pub first: u16,
    pub second: u16,
    pub third: u16,
}

// A step: its rule's number, what it says, and its premises. It is clean where its judgement kind is one of 0 to 3 and the entry
// places that this kind does not use are zero; a flag beside the judgement, since `judgement_at` says of each step what it says.
#[derive(Clone, Copy)]
pub struct Step {
    pub rule: u8,
    pub judgement: Judgement,
    pub clean: bool,
    pub premises: Premises,
}

// Why a step is refused, by document 01's numbers; the place is the step's number.
#[derive(Clone, Copy, PartialEq, Eq, Debug)]
pub enum StepFault {
    IllFormed = 8,
    NotDerived = 9,
    NotPermitted = 10,
    Untrue = 11,
}

impl From<StepFault> for u8 {
    ghost from_gives = { λ fault number. number ≡ number_of fault };

    fn from(fault: StepFault) -> u8 {
        fault as u8
    }
}
