// The table of a file's entries: their places, and rows that name the states of explicit sets in ascending order.
ghost use Rattle.std.specs.Prelude.{◌≡◌, ◌↔◌, ℕ, ◌+◌, ◌≤◌, ◌<◌, length, get_or, T};
ghost use Rattle.certificate.specs.Index.{capped, Indexed};
ghost use Rattle.certificate.specs.Rows.{listed_by, states_of, states_at, Tabled, AllAscend, WithRows};
ghost use Rattle.certificate.specs.Known.{Known, Placed};
ghost use Rattle.std.specs.Fn.{FnOnceReturnsAt};

use crate::views::state_entry;
use crate::{BasicEntry, Checked, Laid, Places, Span, StateEntry, Whole};
use file_numbers::u16_at;
use sorting::{ascends, order_rows};

// Puts the places of `count` entries, of which the first is at `first`, into a table at `from` and after it, as far as the table goes.
pub(crate) fn index_entries(file: &[u8], first: u32, count: u16, index: &mut [u16], from: u16)
    ensures { Indexed file.now first count from index.old index.new }
{
    let mut at = first as usize;
    for k in 0..count {
        let i = from as usize + k as usize;
        if index.len() <= i {
            return;
        }
        index[i] = at.min(65535) as u16;
        at = at + 2 + u16_at(file, at) as usize;
    }
}

// The states that a state set lists. Where it lists none the span is empty: every use passes over it without a case of its own.
#[tactic(auto, unfolding(crate::specs::Rows::states_of, crate::specs::Rows::listed_by))]
fn states_of(set: StateEntry) -> Span
    ensures { result ≡ states_of set }
{
    match set {
        StateEntry::Basic(BasicEntry::Explicit(x)) => x,
        _ => Span { at: 0, count: 0 },
    }
}

// The states that the state set lists whose place is at 256 + e in the table.
fn states_at(file: &[u8], index: &[u16], e: u16) -> Span
    requires { (256 + e < length index.now) × (get_or index.now (256 + e) 0 + 7 ≤ length file.now) }
    ensures { result ≡ states_at file.now index.now e }
{
    states_of(state_entry(file, index[256 + e as usize]))
}

// Whether the states that each of `count` state sets lists ascend as they stand. Their places are in the table.
fn all_ascend(file: &[u8], count: u16, index: &[u16]) -> bool
    requires { Tabled file.now index.now count }
    ensures { T result ↔ AllAscend file.now index.now count }
{
    for e in 0..count {
        let x = states_at(file, index, e);
        if !ascends(file, x.at, x.count as u32) {
            return false;
        }
    }
    true
}

// Puts rows for the states that each of `count` state sets lists into the table.
fn order_sets(file: &[u8], count: u16, index: &mut [u16])
    requires { Tabled file.now index.old count }
    ensures { WithRows file.now count index.old index.new }
{
    for e in 0..count {
        let x = states_at(file, index, e);
        order_rows(file, x.at, x.count as u32, index, 768 + x.at as usize / 8);
    }
}

// Makes a table of zeros the table of a file's entries.
pub fn put_entries(file: &[u8], at: Places, index: &mut [u16])
    requires { Placed file.now at × (length index.old ≡ 8961) × ((j : ℕ) → get_or index.old j 0 ≡ 0) }
    ensures { Known file.now index.new }
{
    index_entries(file, at.action_sets_at, at.action_sets, index, 0);
    index_entries(file, at.state_sets_at, at.state_sets, index, 256);
    if !all_ascend(file, at.state_sets, index) {
        index[8960] = 1;
        order_sets(file, at.state_sets, index);
    }
}

// Makes the table of a file's entries, and hands the file on with it. The table is here and gone with the return.
pub fn with_entries<R, F: FnOnce(&Whole) -> R>(laid: &Laid, then: F) -> R
    requires { F.IsAlwaysCallable then }
    ensures { (whole : _) × (whole.laid ≡ laid.now) × FnOnceReturnsAt F.FnOnce then whole result }
{
    let mut index = [0u16; 8961];
    put_entries(laid.bytes, laid.at, &mut index);
    let entries = Checked {
        bytes: laid.bytes,
        index: &index,
    };
    then(&Whole {
        laid: *laid,
        entries,
    })
}
