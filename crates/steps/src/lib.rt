// The steps of a file in turn, some of them or all from one on, each by the rule that its number stands for.
#![tactic(auto)]

ghost use Rattle.std.specs.Prelude.{◌≡◌, ℕ, ◌+◌, ◌-◌, ◌≤◌, ◌<◌, get_or};
ghost use Rattle.meaning.specs.File.{step_at};
ghost use Rattle.meaning.specs.Reply.{check_last, check_from, reply_to};
ghost use Rattle.meaning.specs.Rounds.{check_some};
ghost use Rattle.meaning.specs.Numbering.{rewritten};
ghost use Rattle.certificate.specs.Known.{decoded};
ghost use Rattle.numbering.specs.Table.{Stands};

use certificate::{Judgement, Laid, Whole};
use derivation::reply::check_step;
use lookup::{judgement, step};
use meaning::Reply;
use numbering::RuleTable;

// The rule that the number of step k stands for by a table, where k is one of the steps before `end`.
fn rule_of(file: &Laid, rules: &RuleTable, k: u16, end: u16) -> u8
    requires { end ≤ file.now.at.steps }
    ensures { k < end → (result ≡ get_or rules.now (step_at (decoded file.now.bytes.now) k).rule 0) × ((step_at (decoded file.now.bytes.now) k).rule < 256) }
{
    if end <= k {
        return rules[0];
    }
    let s = step(file, k);
    rules[s.rule as usize]
}

// So many steps in turn, from one on, each by the rule that its number stands for: accepted where they all pass. A rule is looked up one
// step ahead, so that it is there when the step's branches go by it.
pub fn check_steps(file: &Whole, rules: &RuleTable, from: u16, count: u16) -> Reply
    requires { from + count ≤ file.now.laid.at.steps }
    ensures { (g : ℕ → ℕ) → Stands rules.now g → result ≡ reply_to (check_some (rewritten g (decoded file.now.laid.bytes.now)) from count) }
{
    let end = from + count;
    let mut next = rule_of(&file.laid, rules, from, end);
    for k in from..end {
        let s = step(&file.laid, k);
        let rule = next;
        next = rule_of(&file.laid, rules, k + 1, end);
        if let Err(fault) = check_step(file, k, rule, s) {
            return Reply::Refused {
                number: fault.into(),
                place: k.into(),
            };
        }
    }
    Reply::Accepted
}

// Whether the last step, which passed, says "unsolvable".
fn last_step(file: &Laid) -> Reply
    ensures { (step_at (decoded file.now.bytes.now) (file.now.at.steps - 1)).kind < 4 → result ≡ reply_to (check_last (decoded file.now.bytes.now)) }
{
    let last = file.at.steps - 1;
    match judgement(file, last) {
        Judgement::Unsolvable => Reply::Accepted,
        _ => Reply::Refused {
            number: 12,
            place: last.into(),
        },
    }
}

// All steps from one on, and then whether the last one says "unsolvable".
pub fn check_from(file: &Whole, rules: &RuleTable, from: u16) -> Reply
    requires { from < file.now.laid.at.steps }
    ensures { (g : ℕ → ℕ) → Stands rules.now g → result ≡ reply_to (check_from (rewritten g (decoded file.now.laid.bytes.now)) from) }
{
    match check_steps(file, rules, from, file.laid.at.steps - from) {
        Reply::Accepted => last_step(&file.laid),
        refused => refused,
    }
}
