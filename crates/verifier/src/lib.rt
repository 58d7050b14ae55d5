// The checker of a file: whole by document 01's rule numbers or a caller's own, whole with smaller limits, and in rounds.
#![tactic(auto)]

ghost use Rattle.std.specs.Prelude.{◌≡◌, ◌&&◌, ℕ, ltb};
ghost use Rattle.task.specs.Reach.{Safe};
ghost use Rattle.meaning.specs.Result.{found};
ghost use Rattle.meaning.specs.File.{File};
ghost use Rattle.meaning.specs.Layout.{read_file};
ghost use Rattle.meaning.specs.declared.Reply.TheVariants.{Accepted};
ghost use Rattle.meaning.specs.Reply.{reply_of, reply_to, check_from};
ghost use Rattle.meaning.specs.Judged.{JudgedBy};
ghost use Rattle.meaning.specs.Numbering.{reply_numbered, rewritten};
ghost use Rattle.meaning.specs.Rounds.{lawful_count, round_of};
ghost use Rattle.meaning.specs.Small.{reply_small};
ghost use Rattle.certificate.specs.Known.{Placed, Known, decoded};
ghost use Rattle.numbering.specs.Table.{Stands};
ghost use Rattle.verifier.specs.Check.{reply_by};
ghost use Rattle.verifier.specs.Round.{or_else};

use certificate::index::with_entries;
use certificate::{Laid, Whole};
use layout::{FULL_LIMITS, SMALL_LIMITS, read_layout};
use meaning::{Limits, Reply, Round};
use numbering::{RuleTable, numbering_of, own_numbers};
use steps::{check_from, check_steps};

// The reply to a file that is read, by its steps.
fn check_whole(file: &Whole, rules: &RuleTable) -> Reply
    ensures { (g : ℕ → ℕ) → Stands rules.now g → result ≡ reply_to (check_from (rewritten g (decoded file.now.laid.bytes.now)) 0) }
{
    check_from(file, rules, 0)
}

// The reply with a check's limits to a file whose rule bytes stand for the rules of a table.
fn check_by(file: &[u8], limits: Limits, rules: &RuleTable) -> Reply
    ensures { (g : ℕ → ℕ) → Stands rules.now g → result ≡ reply_by limits g file.now }
{
    match read_layout(file, limits) {
        Ok(at) => with_entries(&Laid { bytes: file, at }, |whole| check_whole(whole, rules)),
        Err(fault) => Reply::from(fault),
    }
}

// Whether a file's certificate shows that its task is safe.
pub fn check(file: &[u8]) -> Reply
    ensures reply { result ≡ reply_of file.now }
    ensures untouched { file.exit.now ≡ file.entry.now }
    ensures safe { result ≡ Accepted → (f : File) × (read_file file.now ≡ found f) × Safe f.task }
    ensures judged { JudgedBy file.now result }
{
    let rules = own_numbers();
    check_by(file, FULL_LIMITS, &rules)
}

// The same with smaller limits: 19 where the file breaks one of them, and else the reply of `check`. Its contract is promised to
// callers outside, as that of `check` is.
pub fn check_small(file: &[u8]) -> Reply
    ensures reply { result ≡ reply_small file.now }
    ensures untouched { file.exit.now ≡ file.entry.now }
    ensures safe { result ≡ Accepted → (f : File) × (read_file file.now ≡ found f) × Safe f.task }
    ensures judged { JudgedBy file.now result }
{
    let rules = own_numbers();
    check_by(file, SMALL_LIMITS, &rules)
}

// The same for a file whose steps have the rule numbers of a caller's list, the k-th of which stands for rule k. The list's own faults
// come first.
pub fn check_numbered(file: &[u8], numbers: &[u8]) -> Reply
    ensures reply { result ≡ reply_numbered file.now numbers.now }
    ensures untouched { file.exit.now ≡ file.entry.now }
    ensures list_untouched { numbers.exit.now ≡ numbers.entry.now }
    ensures safe { result ≡ Accepted → (f : File) × (read_file file.now ≡ found f) × Safe f.task }
    ensures judged { JudgedBy file.now result }
{
    match numbering_of(numbers) {
        Ok(rules) => check_by(file, FULL_LIMITS, &rules),
        Err(fault) => Reply::Refused {
            number: 18,
            place: fault.place,
        },
    }
}

// What a round says whose steps got a reply: its refusal, or else what is said where they pass, which no `From` could know.
fn round_by(reply: Reply, passed: Round) -> Round
    ensures { result ≡ or_else reply passed }
{
    match reply {
        Reply::Accepted => passed,
        Reply::Refused { number, place } => Round::Refused { number, place },
    }
}

// Whether a round of a file with so many steps may begin at such a step and have such a count.
fn is_lawful(steps: u64, from: u64, count: u64) -> bool
    ensures { result ≡ (lawful_count count && ltb from steps) }
{
    (1 <= count) & (count <= 2048) & (from < steps)
}

// A round of a file that is read.
fn round_of(file: &Whole, from: u64, count: u64) -> Round
    ensures { result ≡ round_of file.now.laid.bytes.now from count }
{
    let steps = file.laid.at.steps as u64;
    if !is_lawful(steps, from, count) {
        // A number, since the definition `check_round` computes with it.
        let number = 17;
        return Round::Refused { number, place: 0 };
    }
    let rules = own_numbers();
    let first = from as u16;
    if count < steps - from {
        let reply = check_steps(file, &rules, first, count as u16);
        round_by(reply, Round::GoOn(from + count))
    } else {
        let reply = check_from(file, &rules, first);
        round_by(reply, Round::Ended)
    }
}

// One round of a check: so many steps from one on. A run of rounds, begun at step 0 and gone on with at the step handed back, ends with
// the reply of `check`; a round by itself speaks of its own steps alone.
pub fn check_round(file: &[u8], from: u64, count: u64) -> Round
    ensures round { result ≡ round_of file.now from count }
    ensures untouched { file.exit.now ≡ file.entry.now }
{
    match read_layout(file, FULL_LIMITS) {
        Ok(at) => with_entries(
            &Laid { bytes: file, at },
            |whole| round_of(whole, from, count),
        ),
        Err(fault) => Round::from(fault),
    }
}
