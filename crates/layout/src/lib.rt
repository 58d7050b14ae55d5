// How a file is read, front to back, with replies 1 to 7 and 16 at the written places and in the written order, and 19 for a check's own
// limits. That a file has at most 65,536 bytes, which `is_whole` tests, is a `requires`: a type for this one bound would be made and taken
// apart at every read.
#![tactic(auto)]

ghost use Rattle.std.specs.Prelude.{◌≡◌, ◌≤◌, length};
ghost use Rattle.meaning.specs.Told.{told};
ghost use Rattle.meaning.specs.Layout.{count, read_task};
ghost use Rattle.certificate.specs.Views.{outline_of};
ghost use Rattle.bodies.specs.Faults.{fault};
ghost use Rattle.layout.specs.Sections.{is_whole, facts_at, start_at, unknown_at, goal_off_at, ends_at};
ghost use Rattle.layout.specs.Sections.{section_at, step_count_at, steps_at, rest_at};

use certificate::Places;
use entries::{Section, inside};
use file_numbers::{byte_at, u16_at, u32_at, u64_at};
use meaning::{Fault, Limits};
use reader::{TaskHead, task_head};
use task::Ends;
use versions::{
    action_count_at, action_size, after_actions, goal_at, goal_span, has_unknown, off_size,
};

mod rows;

// Document 01's limits. That these are the definitions' `full` and `small` is proved in proofs/LimitLaws.antt.
pub const FULL_LIMITS: Limits = Limits {
    size: 65536,
    states: 4096,
    steps: 2048,
};

// Those of document 02, l.
pub const SMALL_LIMITS: Limits = Limits {
    size: 16384,
    states: 512,
    steps: 256,
};

// A count from `low` to `high`.
fn count(file: &[u8], low: u16, high: u16, place: u32) -> Result<u16, Fault>
    ensures { result ≡ told (λ c. c) (count file.now low high place) }
{
    let at = place as usize;
    if !inside(file, 2, at) {
        return Err(Fault { number: 3, place });
    }
    let c = u16_at(file, at);
    if !((low <= c) & (c <= high)) {
        return Err(Fault { number: 4, place });
    }
    Ok(c)
}

// A section, its count and its entries: the place after them.
fn counted(file: &[u8], section: Section, high: u16, place: u32) -> Result<u32, Fault>
    requires { length file.now ≤ 65536 }
    ensures { result ≡ told (λ x. x.1) (section_at file.now section high place) }
{
    let entries = count(file, 0, high, place)?;
    rows::entries(file, section, place + 2, entries)
}

// The count of the steps, of which at most `most` are allowed.
fn step_count(file: &[u8], most: u16, place: u32) -> Result<u16, Fault>
    ensures { result ≡ told (λ c. c) (step_count_at file.now most place) }
{
    let steps = count(file, 1, 2048, place)?;
    if most < steps {
        return Err(Fault { number: 19, place });
    }
    Ok(steps)
}

// The steps, and that nothing follows them.
fn steps(file: &[u8], most: u16, place: u32) -> Result<(), Fault>
    requires { length file.now ≤ 65536 }
    ensures { result ≡ fault (steps_at file.now most place) }
{
    let steps = step_count(file, most, place)?;
    let end = rows::steps(file, place + 2, steps)?;
    if (end as usize) < file.len() {
        return Err(Fault {
            number: 3,
            place: end,
        });
    }
    Ok(())
}

// The version, and that the number of facts is lawful.
fn opening(file: &[u8]) -> Result<u8, Fault>
    ensures { result ≡ told (λ x. x.0) (facts_at file.now) }
{
    if !inside(file, 1, 4) {
        return Err(Fault {
            number: 3,
            place: 4,
        });
    }
    let version = byte_at(file, 4);
    if !((1 <= version) & (version <= 3)) {
        return Err(Fault {
            number: 2,
            place: 4,
        });
    }
    if !inside(file, 1, 5) {
        return Err(Fault {
            number: 3,
            place: 5,
        });
    }
    let facts = byte_at(file, 5);
    if !((1 <= facts) & (facts <= 64)) {
        return Err(Fault {
            number: 4,
            place: 5,
        });
    }
    Ok(version)
}

// The start and, where the version has them, the unknown facts: none of them is on there.
fn start(file: &[u8], version: u8, facts: u8) -> Result<(), Fault>
    requires { (6 ≤ length file.now) × (length file.now ≤ 65536) }
    ensures { result ≡ fault (start_at file.now version facts) }
{
    if !has_unknown(version) {
        return rows::masks(file, facts, 6, 1);
    }
    rows::masks(file, facts, 6, 2)?;
    if u64_at(file, 6) & u64_at(file, 14) != 0 {
        return Err(Fault {
            number: 16,
            place: 14,
        });
    }
    Ok(())
}

// The unknown facts, and none where the version has no field for them.
fn unknown(file: &[u8], version: u8) -> u64
    ensures { result ≡ unknown_at file.now version }
{
    if has_unknown(version) {
        u64_at(file, 14)
    } else {
        0
    }
}

// The goal's facts that are off, and none where the version has no field for them.
fn goal_off(file: &[u8], version: u8) -> u64
    ensures { result ≡ goal_off_at file.now version }
{
    if off_size(version) == 0 {
        0
    } else {
        u64_at(file, goal_at(version) as usize + 8)
    }
}

// The task's ends, by its head.
fn ends(file: &[u8], version: u8, head: TaskHead) -> Ends
    ensures { result ≡ ends_at file.now version head }
{
    Ends {
        facts: head.facts,
        init: head.init,
        unknown: unknown(file, version),
        goal: head.goal,
        off: goal_off(file, version),
    }
}

// The fields from the version up to and with the actions. The goal and an action are masks of eight bytes.
fn task(file: &[u8]) -> Result<(), Fault>
    requires { length file.now ≤ 65536 }
    ensures { result ≡ fault (read_task file.now) }
{
    let version = opening(file)?;
    let off = off_size(version);
    let head = task_head(file, goal_span(version), off);
    start(file, version, head.facts)?;
    let aims = 1 + (off >> 3) as u16;
    rows::masks(file, head.facts, goal_at(version), aims)?;
    let counted = action_count_at(version);
    let actions = count(file, 0, 256, counted)?;
    let masks = (action_size(version) >> 3) as u16 * actions;
    rows::masks(file, head.facts, counted + 2, masks)
}

// What follows the actions, from a place on, of a file with so many facts and actions: the places after the action sets and after the
// state sets.
fn after_task(
    file: &[u8],
    limits: Limits,
    facts: u8,
    actions: u16,
    place: u32,
) -> Result<(u32, u32), Fault>
    requires { length file.now ≤ 65536 }
    ensures { result ≡ told (λ x. x) (rest_at file.now limits facts actions place) }
{
    let sets = Section::ActionSets { actions };
    let action_sets = counted(file, sets, 256, place)?;
    let sets = Section::StateSets {
        facts,
        action_sets: u16_at(file, place as usize),
        most: limits.states,
    };
    let state_sets = counted(file, sets, 512, action_sets)?;
    steps(file, limits.steps, state_sets)?;
    Ok((action_sets, state_sets))
}

// Whether a file has a lawful length, and says so.
fn is_whole(file: &[u8]) -> bool
    ensures { result ≡ is_whole file.now }
{
    let length = file.len();
    (4 <= length) & (length <= 65536) & (u32_at(file, 0) as usize + 4 == length)
}

// The layout check with a check's limits: the file's length, the task, and what follows it.
pub fn read_layout(file: &[u8], limits: Limits) -> Result<Places, Fault>
    ensures { result ≡ outline_of limits file.now }
{
    let whole = is_whole(file);
    let allowed = file.len() <= limits.size as usize;
    if !whole {
        return Err(Fault {
            number: 1,
            place: 0,
        });
    }
    if !allowed {
        return Err(Fault {
            number: 19,
            place: 0,
        });
    }
    task(file)?;
    let version = byte_at(file, 4);
    let head = task_head(file, goal_span(version), off_size(version));
    let first = after_actions(version, head.actions);
    let (action_sets, state_sets) = after_task(file, limits, head.facts, head.actions, first)?;
    Ok(Places {
        ends: ends(file, version, head),
        actions: head.actions,
        action_sets: u16_at(file, first as usize),
        state_sets: u16_at(file, action_sets as usize),
        steps: u16_at(file, state_sets as usize),
        action_sets_at: first + 2,
        state_sets_at: action_sets + 2,
        steps_at: state_sets + 2,
    })
}
