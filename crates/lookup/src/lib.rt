// Entries, actions and steps of a file whose layout was checked, each as the file that was read has it. A number that names none gives what
// the definitions have there.
#![tactic(auto)]

ghost use Rattle.std.specs.Prelude.{◌≡◌, ◌<◌};
ghost use Rattle.task.specs.Task.{action_at};
ghost use Rattle.meaning.specs.File.{action_set_at, state_set_at, step_at};
ghost use Rattle.certificate.specs.Views.{view_of, view_of_actions, actions_in, step_of, judgement_at};
ghost use Rattle.certificate.specs.Index.{state_place, action_place};
ghost use Rattle.certificate.specs.Known.{decoded, IsRead};

use certificate::views::{action_at, action_entry, state_entry, step_in};
use certificate::{
    ActionEntry, Actions, BasicEntry, Checked, Index, Judgement, Laid, StateEntry, Step,
};
use file_numbers::{byte_at, u16_at};
use task::Action;
use versions::{action_count_at, action_size};

// The place of a state set; 0 where the number names none. The two parts of the table have a function each, as their entries do.
fn state_place(index: &Index, e: u16) -> u16
    ensures { result ≡ state_place index.now e }
{
    if e < 512 { index[256 + e as usize] } else { 0 }
}

// The place of an action set; 0 where the number names none.
fn action_place(index: &Index, a: u16) -> u16
    ensures { result ≡ action_place index.now a }
{
    if a < 256 { index[a as usize] } else { 0 }
}

// The state set with a number; the empty set where the number names none.
pub fn state_set(file: &Checked, e: u16) -> StateEntry
    ensures { result ≡ view_of (state_place file.now.index.now e) (state_set_at (decoded file.now.bytes.now) e) }
{
    let place = state_place(file.index, e);
    if place == 0 {
        return StateEntry::Basic(BasicEntry::Empty);
    }
    state_entry(file.bytes, place)
}

// The action set with a number; all actions where the number names none.
pub fn action_set(file: &Checked, a: u16) -> ActionEntry
    ensures { result ≡ view_of_actions (action_place file.now.index.now a) (action_set_at (decoded file.now.bytes.now) a) }
{
    let place = action_place(file.index, a);
    if place == 0 {
        return ActionEntry::All;
    }
    action_entry(file.bytes, place)
}

// Where the task's actions stand, how long each is, and how many there are.
pub fn actions(file: &[u8]) -> Actions
    requires { IsRead file.now }
    ensures { result ≡ actions_in (decoded file.now) }
{
    let version = byte_at(file, 4);
    let at = action_count_at(version);
    Actions {
        at: at + 2,
        size: action_size(version),
        count: u16_at(file, at as usize),
    }
}

// The action with a number, of those; one that does nothing where the number names none.
pub fn action(file: &[u8], all: Actions, i: u16) -> Action
    requires { IsRead file.now × (all ≡ actions_in (decoded file.now)) }
    ensures { result ≡ action_at (decoded file.now).task i }
{
    if all.count <= i {
        return Action {
            pre: 0,
            add: 0,
            del: 0,
            off: 0,
        };
    }
    action_at(file, all.size, all.at + all.size as u32 * i as u32)
}

// The step with a number.
pub fn step(file: &Laid, k: u16) -> Step
    requires { k < file.now.at.steps }
    ensures { result ≡ step_of (step_at (decoded file.now.bytes.now) k) }
{
    let p = file.at.steps_at + 12 * k as u32;
    step_in(file.bytes, p)
}

// What the step with a number says; that entry 0 is dead where the number names none.
pub fn judgement(file: &Laid, k: u16) -> Judgement
    ensures { result ≡ judgement_at (decoded file.now.bytes.now) k }
{
    if file.at.steps <= k {
        return Judgement::Dead(0);
    }
    step(file, k).judgement
}
