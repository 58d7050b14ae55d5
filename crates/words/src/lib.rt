// Clauses as they stand in the file, two words each: one is read, and the next is found that has a fact in common with masks.
#![tactic(auto)]

ghost use Rattle.std.specs.Prelude.{◌≡◌, ◌↔◌, ◌+◌, ◌*◌, ◌<◌, ◌≤◌, ◌^◌, length};
ghost use Rattle.words.specs.Words.{words_at, turned_masks, Misses, MissedAt, FirstHit};

use file_numbers::{u64_at, u64_in};
use meaning::Clause;
use turned::{turned, u64_turned};

// Clause i of those that stand in the file from a place.
pub fn words_at(file: &[u8], at: u32, i: u32) -> Clause
    ensures { result ≡ words_at file.now at i }
{
    let place = at as usize + 16 * (i as usize);
    Clause {
        positive: u64_at(file, place),
        negative: u64_at(file, place + 8),
    }
}

// The same without a test, where the clause stands within the file.
pub fn words_in(file: &[u8], at: u32, i: u32) -> Clause
    requires { at + 16 * i + 16 ≤ length file.now }
    ensures { result ≡ words_at file.now at i }
{
    let place = at as usize + 16 * (i as usize);
    Clause {
        positive: u64_in(file, place),
        negative: u64_in(file, place + 8),
    }
}

// ---- clauses that have a fact in common with masks

// Facts to look for in clauses: positive ones of `off`, where `two` says so, and negative ones of `on`.
#[derive(Clone, Copy)]
pub struct Masks {
    pub two: bool,
    pub off: u64,
    pub on: u64,
}

// The masks in the machine's byte order.
fn turned_masks(m: Masks) -> Masks
    ensures { result ≡ turned_masks m }
{
    Masks {
        two: m.two,
        off: turned(m.off),
        on: turned(m.on),
    }
}

// What a clause in the file has in common with masks, its bytes and theirs in the machine's order: 0 where that is nothing. Of a Horn
// clause only the body is looked at.
fn hit(file: &[u8], at: u32, i: u32, m: Masks) -> u64
    requires { at + 16 * i + 16 ≤ length file.now }
    ensures { (result ≡ 0) ↔ Misses (turned_masks m) (words_at file.now at i) }
{
    let place = at as usize + 16 * (i as usize);
    let n = u64_turned(file, place + 8);
    if m.two {
        let p = u64_turned(file, place);
        return (p & m.off) | (n & m.on);
    }
    n & m.on
}

// The same of four clauses.
fn four_hit(file: &[u8], at: u32, i: u32, m: Masks) -> u64
    requires { (i + 4 < 2 ^ 32) × (at + 16 * i + 64 ≤ length file.now) }
    ensures { result ≡ 0 → MissedAt file.now at (turned_masks m) i (i + 4) }
{
    let a = hit(file, at, i, m);
    let b = hit(file, at, i + 1, m);
    let c = hit(file, at, i + 2, m);
    let d = hit(file, at, i + 3, m);
    a | b | c | d
}

// Past clauses that miss masks, four at a time.
fn past_fours(file: &[u8], at: u32, count: u32, i: u32, m: Masks) -> u32
    requires { (i ≤ count) × (at + 16 * count ≤ length file.now) }
    ensures { (i ≤ result) × (result ≤ count) × MissedAt file.now at (turned_masks m) i result }
{
    let fours = (count - i) / 4;
    for k in 0..fours {
        if four_hit(file, at, i + 4 * k, m) != 0 {
            return i + 4 * k;
        }
    }
    i + 4 * fours
}

// The first of the clauses from i on that has a fact in common with masks, where one has. There may be more clauses than a span of a file
// has.
pub fn next_hit(file: &[u8], at: u32, count: u32, i: u32, wanted: Masks) -> Option<u32>
    requires { (i ≤ count) × (at + 16 * count ≤ length file.now) }
    ensures { FirstHit file.now at count wanted i result }
{
    let m = turned_masks(wanted);
    let first = past_fours(file, at, count, i, m);
    for j in first..count {
        if hit(file, at, j, m) != 0 {
            return Some(j);
        }
    }
    None
}
