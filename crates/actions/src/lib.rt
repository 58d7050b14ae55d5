// Action sets of a checked file, worked out as marks in one walk down the entries, and their inclusion.
#![tactic(auto)]

ghost use Rattle.std.specs.Prelude.{◌≡◌, ◌||◌, ◌+◌, ◌≤◌, ◌<◌, length, ltb};
ghost use Rattle.certificate.specs.Known.{decoded};
ghost use Rattle.meaning.specs.Sets.{in_actions, actions_within};
ghost use Rattle.actions.specs.Marks.{marked, Marks, listed_in, Looking};

use crate::marks::{all_marked, is_marked, united, with_mark};
use certificate::views::action_in;
use certificate::{ActionEntry, Checked, Span};
use lookup::{action_set, actions};

pub mod marks;

// The first n numbers marked.
fn first_marks(n: u16) -> [u64; 4]
    requires { n ≤ 256 }
    ensures { Marks result (λ i. ltb i n) }
{
    let mut words = [0u64; 4];
    for i in 0..n {
        // By `next`: no proof is made of a call's array that goes straight into a variable of the loop.
        let next = with_mark(words, i);
        words = next;
    }
    words
}

// The marks with the numbers of a list, those below 256.
fn with_listed(file: &[u8], span: Span, words: [u64; 4]) -> [u64; 4]
    ensures { Marks result (λ j. marked words j || listed_in file.now span.at span.count j) }
{
    let mut more = words;
    for i in 0..span.count {
        let x = action_in(file, span, i);
        if x < 256 {
            // By `next`, as in `first_marks`.
            let next = with_mark(more, x);
            more = next;
        }
    }
    more
}

// What is found of an action set, and the entries that are still to be looked at.
#[derive(Clone, Copy)]
struct Search {
    wanted: [u64; 4],
    found: [u64; 4],
}

// Looks at entry e, where it is wanted.
fn look(file: &Checked, e: u16, search: Search, a: u16) -> Search
    requires { (e < length (decoded file.now.bytes.now).action_sets) × Looking (decoded file.now.bytes.now) a (e + 1) search.wanted search.found }
    ensures { Looking (decoded file.now.bytes.now) a e result.wanted result.found }
{
    let wanted = search.wanted;
    let found = search.found;
    if !is_marked(wanted, e) {
        return search;
    }
    match action_set(file, e) {
        ActionEntry::All => Search {
            wanted,
            found: united(found, first_marks(actions(file.bytes).count)),
        },
        ActionEntry::Listed(span) => Search {
            wanted,
            found: with_listed(file.bytes, span, found),
        },
        ActionEntry::Either(x, y) => Search {
            wanted: with_mark(with_mark(wanted, x), y),
            found,
        },
    }
}

// Action set a as marks.
pub fn action_marks(file: &Checked, a: u16) -> [u64; 4]
    requires { a < length (decoded file.now.bytes.now).action_sets }
    ensures { Marks result (in_actions (decoded file.now.bytes.now) a) }
{
    let mut search = Search {
        wanted: with_mark([0u64; 4], a),
        found: [0u64; 4],
    };
    for e in (0..a + 1).rev() {
        search = look(file, e, search, a);
    }
    search.found
}

// B5: whether every action of set a is in set b.
pub fn actions_within(file: &Checked, a: u16, b: u16) -> bool
    requires { (a < length (decoded file.now.bytes.now).action_sets) × (b < length (decoded file.now.bytes.now).action_sets) }
    ensures { result ≡ actions_within (decoded file.now.bytes.now) a b }
{
    all_marked(action_marks(file, a), action_marks(file, b))
}
