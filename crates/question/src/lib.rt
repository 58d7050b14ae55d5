// The question whether a state is in an entry's set.
#![tactic(auto)]

ghost use Rattle.std.specs.Prelude.{◌≡◌, false, ◌<◌};
ghost use Rattle.certificate.specs.Known.{decoded};
ghost use Rattle.meaning.specs.Question.{shallow, askable, answer_of};
ghost use Rattle.question.specs.Asked.{answer_in};

use certificate::index::with_entries;
use certificate::{Checked, Laid, StateEntry, Whole, WithEnds};
use holding::member;
use layout::{FULL_LIMITS, read_layout};
use lookup::state_set;
use meaning::Answer;
use task::all_facts;

// Whether an entry is at most d levels deep, with no progression on the way.
fn is_shallow(file: &Checked, e: u16, d: u8) -> bool
    ensures { result ≡ shallow (decoded file.now.bytes.now) e d }
{
    if d == 0 {
        return false;
    }
    match state_set(file, e) {
        StateEntry::Basic(_) => true,
        StateEntry::Complement(a) => is_shallow(file, a, d - 1),
        StateEntry::Intersection(a, b) => is_shallow(file, a, d - 1) & is_shallow(file, b, d - 1),
        StateEntry::Union(a, b) => is_shallow(file, a, d - 1) & is_shallow(file, b, d - 1),
        StateEntry::Progression(_, _) => false,
        StateEntry::Regression(a, _) => is_shallow(file, a, d - 1),
    }
}

// Whether a state may be asked about an entry.
fn is_askable(file: &Whole, entry: u64, state: u64) -> bool
    ensures { result ≡ askable (decoded file.now.entries.bytes.now) entry state }
{
    let at = file.laid.at;
    if at.state_sets as u64 <= entry {
        return false;
    }
    (state <= all_facts(at.ends.facts)) & is_shallow(&file.entries, entry as u16, 4)
}

// The answer about a file that was read.
fn answer(file: &Whole, entry: u64, state: u64) -> Answer
    ensures { result ≡ answer_in (decoded file.now.entries.bytes.now) entry state }
{
    if !is_askable(file, entry, state) {
        // A number, since the definition `answer_of` computes with it.
        let number = 13;
        return Answer::Refused { number, place: 0 };
    }
    let posed = WithEnds {
        entries: file.entries,
        ends: file.laid.at.ends,
    };
    if member(&posed, entry as u16, state) {
        Answer::In
    } else {
        Answer::Out
    }
}

// Whether a state is in the set of an entry of a file.
pub fn ask(file: &[u8], entry: u64, state: u64) -> Answer
    ensures answer { result ≡ answer_of file.now entry state }
    ensures untouched { file.exit.now ≡ file.entry.now }
{
    match read_layout(file, FULL_LIMITS) {
        Ok(at) => with_entries(
            &Laid { bytes: file, at },
            |whole| answer(whole, entry, state),
        ),
        Err(fault) => Answer::from(fault),
    }
}
