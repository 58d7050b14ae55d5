// The bodies of entries by what they hold: how long one may be, by the format and by a check's limits, and replies 5 to 7 at the written
// places and in the written order.
#![tactic(auto)]

ghost use Rattle.std.specs.Prelude.{◌≡◌, ℕ, true, ◌+◌, ◌*◌, ◌/◌, ◌^◌, ◌<◌, ◌≤◌, length};
ghost use Rattle.std.proofs.Props.{props};
ghost use Rattle.meaning.specs.Layout.{items, ascending, mask, reference, clause, up_to};
ghost use Rattle.file_numbers.specs.ClauseRule.{clause_rule};
ghost use Rattle.bodies.specs.Faults.{Answer, each, fault_from, form_fits, may_fit, may_allow, form_body};

use file_numbers::{u16_at, u64_at};
use meaning::Fault;
use task::all_facts;

// A body: a part of the file, and the place at which it starts.
#[derive(Clone, Copy)]
pub struct Part<'a> {
    pub bytes: &'a [u8],
    pub start: u32,
    ghost short: { start + length bytes.now ≤ 65536 } by { Prim.hlevel props },
}

// What an entry's body holds, by its kind. Of states, how many a check's limits allow.
#[derive(Clone, Copy)]
pub enum Form {
    Bare,
    Numbers(u16),
    States { facts: u8, most: u16 },
    Clauses { facts: u8, two: bool },
    One(u16),
    Two(u16, u16),
}

// Whether the masks of a clause pass its kind's rule: at most two facts in both, or at most one positive fact.
fn passes(two: bool, positive: u64, negative: u64) -> bool
    ensures { result ≡ clause_rule two positive negative }
{
    if two {
        u64::count_ones(positive) + u64::count_ones(negative) <= 2
    } else {
        u64::count_ones(positive) <= 1
    }
}

// ---- items

// A mask or state over so many facts.
pub fn mask(part: &Part, at: usize, facts: u8) -> Result<(), Fault>
    requires { at + 8 ≤ length part.now.bytes.now }
    ensures { result ≡ fault_from part.now.start (mask part.now.bytes.now facts at) }
{
    if all_facts(facts) < u64_at(part.bytes, at) {
        return Err(Fault {
            number: 5,
            place: part.start + at as u32,
        });
    }
    Ok(())
}

// A clause over so many facts, under a rule.
fn clause(part: &Part, at: usize, facts: u8, two: bool) -> Result<(), Fault>
    requires { at + 16 ≤ length part.now.bytes.now }
    ensures { result ≡ fault_from part.now.start (clause part.now.bytes.now facts (clause_rule two) at) }
{
    mask(part, at, facts)?;
    mask(part, at + 8, facts)?;
    if !passes(two, u64_at(part.bytes, at), u64_at(part.bytes, at + 8)) {
        return Err(Fault {
            number: 7,
            place: part.start + at as u32,
        });
    }
    Ok(())
}

// A number below a bound.
fn reference(part: &Part, at: usize, bound: u16) -> Result<(), Fault>
    requires { at + 2 ≤ length part.now.bytes.now }
    ensures { result ≡ fault_from part.now.start (reference part.now.bytes.now bound at) }
{
    if u16_at(part.bytes, at) < bound {
        Ok(())
    } else {
        Err(Fault {
            number: 6,
            place: part.start + at as u32,
        })
    }
}

// Two of them.
fn two_references(part: &Part, bound: u16, other: u16) -> Result<(), Fault>
    requires { 4 ≤ length part.now.bytes.now }
    ensures { result ≡ fault_from part.now.start (form_body part.now.bytes.now (Form.Two bound other) 0 4) }
{
    reference(part, 0, bound)?;
    reference(part, 2, other)
}

// Numbers below a bound, which ascend.
fn numbers(part: &Part, bound: u16) -> Result<(), Fault>
    ensures { result ≡ fault_from part.now.start (ascending (reference part.now.bytes.now bound) 2 0 0 (length part.now.bytes.now / 2)) }
{
    let mut low: u32 = 0;
    for i in 0..part.bytes.len() / 2 {
        reference(part, 2 * i, bound)?;
        let x = u16_at(part.bytes, 2 * i) as u32;
        if x < low {
            return Err(Fault {
                number: 7,
                place: part.start + 2 * i as u32,
            });
        }
        low = x + 1;
    }
    Ok(())
}

// So many items of so many bytes each, up to the first fault: `item` says what the item at a place says.
fn each<F: Fn(usize) -> Result<(), Fault>>(count: usize, size: usize, item: F) -> Result<(), Fault>
    requires room { size * count < 2 ^ 64 }
    requires callable { (i : ℕ) → i < count → F.pre item (size * i) }
    ensures { (says : ℕ → Answer) → ((i : ℕ) (r : Answer) → i < count → F.post item (size * i) r → r ≡ says (size * i)) → result ≡ each says size 0 count }
{
    for i in 0..count {
        item(size * i)?;
    }
    Ok(())
}

// States over so many facts.
fn states(part: &Part, facts: u8) -> Result<(), Fault>
    ensures { result ≡ fault_from part.now.start (items (mask part.now.bytes.now facts) 8 0 (length part.now.bytes.now / 8)) }
{
    each(part.bytes.len() / 8, 8, |at| mask(part, at, facts))
}

// Clauses over so many facts, under a rule.
fn clauses(part: &Part, facts: u8, two: bool) -> Result<(), Fault>
    ensures { result ≡ fault_from part.now.start (items (clause part.now.bytes.now facts (clause_rule two)) 16 0 (length part.now.bytes.now / 16)) }
{
    each(part.bytes.len() / 16, 16, |at| clause(part, at, facts, two))
}

// ---- bodies

// Whether a body is made of at most `most` items of `size` bytes each.
fn up_to(size: usize, most: usize, len: usize) -> bool
    requires { 0 < size }
    ensures { result ≡ up_to size most len }
{
    (len % size == 0) & (len / size <= most)
}

// Whether a body's length fits its form; where its kind has none, no length does.
pub fn fits(form: Option<Form>, len: usize) -> bool
    ensures { result ≡ may_fit form len }
{
    let Some(form) = form else {
        return false;
    };
    match form {
        Form::Bare => len == 0,
        Form::Numbers(_) => up_to(2, 256, len),
        Form::States { .. } => up_to(8, 4096, len),
        Form::Clauses { .. } => up_to(16, 256, len),
        Form::One(_) => len == 2,
        Form::Two(_, _) => len == 4,
    }
}

// Whether a check's limits allow it.
pub fn allows(form: Option<Form>, len: usize) -> bool
    ensures { result ≡ may_allow form len }
{
    match form {
        Some(Form::States { most, .. }) => up_to(8, most as usize, len),
        _ => true,
    }
}

// What a body of a form says.
pub fn body(form: Form, part: &Part) -> Result<(), Fault>
    requires { form_fits form (length part.now.bytes.now) ≡ true }
    ensures { result ≡ fault_from part.now.start (form_body part.now.bytes.now form 0 (length part.now.bytes.now)) }
{
    match form {
        Form::Bare => Ok(()),
        Form::Numbers(bound) => numbers(part, bound),
        Form::States { facts, .. } => states(part, facts),
        Form::Clauses { facts, two } => clauses(part, facts, two),
        Form::One(bound) => reference(part, 0, bound),
        Form::Two(bound, other) => two_references(part, bound, other),
    }
}
