// Whether an entry holds a state, by asking the entries that it names; [A]S is asked by trying each action and asking S again.
#![tactic(auto)]

ghost use Rattle.std.specs.Prelude.{◌≡◌, false, ◌<◌, length};
ghost use Rattle.certificate.specs.Known.{decoded};
ghost use Rattle.meaning.specs.Sets.{in_actions, regressed, in_set};
ghost use Rattle.meaning.specs.Question.{has_progression};

use actions::action_marks;
use actions::marks::is_marked;
use certificate::{Source, StateEntry, WithEnds};
use lookup::{action, actions, state_set};
use membership::set_holds;
use task::{after, applies};

// Whether some action of set a applies in a state and leads into the set of entry e. It and `member` call each other, a form that document
// 01 names.
#[cycle(member_try_each_action)]
fn try_each_action(file: &WithEnds, e: u16, a: u16, s: u64) -> bool
    requires { (has_progression (decoded file.now.entries.bytes.now) e ≡ false) × (a < length (decoded file.now.entries.bytes.now).action_sets) }
    ensures { result ≡ regressed (decoded file.now.entries.bytes.now).task (in_set (decoded file.now.entries.bytes.now) e) (in_actions (decoded file.now.entries.bytes.now) a) s }
{
    let marks = action_marks(&file.entries, a);
    let all = actions(file.entries.bytes);
    for i in 0..all.count {
        let act = action(file.entries.bytes, all, i);
        if is_marked(marks, i) && applies(act, s) && member(file, e, after(act, s)) {
            return true;
        }
    }
    false
}

// Whether a state is in the set of entry e, where no progression is at or beneath the entry.
#[cycle(member_try_each_action)]
pub fn member(file: &WithEnds, e: u16, s: u64) -> bool
    requires { has_progression (decoded file.now.entries.bytes.now) e ≡ false }
    ensures { result ≡ in_set (decoded file.now.entries.bytes.now) e s }
{
    match state_set(&file.entries, e) {
        StateEntry::Basic(b) => {
            let source = Source {
                bytes: file.entries.bytes,
                index: file.entries.index,
                ends: file.ends,
            };
            set_holds(&source, b, s)
        }
        StateEntry::Complement(a) => !member(file, a, s),
        StateEntry::Intersection(a, b) => { member(file, a, s) & member(file, b, s) }
        StateEntry::Union(a, b) => { member(file, a, s) | member(file, b, s) }
        StateEntry::Progression(_, _) => false,
        StateEntry::Regression(a, b) => try_each_action(file, a, b, s),
    }
}
