// One entry: its length, its kind and its body, with replies 3 to 7 and 19 at the written places and in the written order.
#![tactic(auto)]

ghost use Rattle.std.specs.Prelude.{◌≡◌, ◌≤◌, length};
ghost use Rattle.meaning.specs.Bytes.{inside};
ghost use Rattle.meaning.specs.Layout.{entry};
ghost use Rattle.bodies.specs.Faults.{fault};
ghost use Rattle.entries.specs.Forms.{action_forms, state_forms, forms_of, form_at, sets_of};

use bodies::{Form, Part, allows, body, fits};
use meaning::Fault;
use reader::entry_head;

// A section of the file. Of the action sets, how many actions they may name; of the state sets, over how many facts they are, how many
// action sets they may name, and how many states an explicit set may list.
#[derive(Clone, Copy)]
pub enum Section {
    ActionSets {
        actions: u16,
    },
    StateSets {
        facts: u8,
        action_sets: u16,
        most: u16,
    },
}

// Whether k bytes from a place do not run past the end.
pub fn inside(file: &[u8], k: usize, at: usize) -> bool
    ensures { result ≡ inside k file.now at }
{
    k <= file.len() && at <= file.len() - k
}

// ---- kinds of entry

// The form of an action set, kinds 0 to 2, that is entry i.
fn action_form(kind: u8, actions: u16, i: u16) -> Option<Form>
    ensures { result ≡ form_at (action_forms actions i) kind }
{
    match kind {
        0 => Some(Form::Bare),
        1 => Some(Form::Numbers(actions)),
        2 => Some(Form::Two(i, i)),
        _ => None,
    }
}

// The form of a state set, kinds 0 to 10, that is entry i.
fn state_form(kind: u8, facts: u8, action_sets: u16, most: u16, i: u16) -> Option<Form>
    ensures { result ≡ form_at (state_forms facts action_sets most i) kind }
{
    match kind {
        0..=2 => Some(Form::Bare),
        3 => Some(Form::States { facts, most }),
        4 => Some(Form::Clauses { facts, two: false }),
        5 => Some(Form::Clauses { facts, two: true }),
        6 => Some(Form::One(i)),
        7 | 8 => Some(Form::Two(i, i)),
        9 | 10 => Some(Form::Two(i, action_sets)),
        _ => None,
    }
}

// The form of entry i of a section.
fn form_at(section: Section, i: u16, kind: u8) -> Option<Form>
    ensures { result ≡ form_at (forms_of section i) kind }
{
    match section {
        Section::ActionSets { actions } => action_form(kind, actions, i),
        Section::StateSets {
            facts,
            action_sets,
            most,
        } => state_form(kind, facts, action_sets, most, i),
    }
}

// ---- entries

// Entry i of a section, at a place.
pub fn entry(file: &[u8], section: Section, i: u16, place: u32) -> Result<(), Fault>
    requires { length file.now ≤ 65536 }
    ensures { result ≡ fault (entry file.now ((sets_of file.now section).kinds i) place) }
{
    let at = place as usize;
    if !inside(file, 2, at) {
        return Err(Fault { number: 3, place });
    }
    let head = entry_head(file, place);
    let len = head.len as usize;
    if !inside(file, 2 + len, at) {
        return Err(Fault { number: 3, place });
    }
    if len < 1 {
        return Err(Fault { number: 4, place });
    }
    let kind_at = place + 2;
    let Some(form) = form_at(section, i, head.kind) else {
        return Err(Fault {
            number: 4,
            place: kind_at,
        });
    };
    if !fits(Some(form), len - 1) {
        return Err(Fault { number: 4, place });
    }
    if !allows(Some(form), len - 1) {
        return Err(Fault { number: 19, place });
    }
    let start = at + 3;
    let end = at + 2 + len;
    let part = Part {
        bytes: &file[start..end],
        start: place + 3,
    };
    body(form, &part)
}
