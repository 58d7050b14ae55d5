// The check of one step: replies 8 to 11.
ghost use Rattle.std.specs.Prelude.{◌≡◌, ◌≤◌, T};
ghost use Rattle.meaning.specs.File.{step_at};
ghost use Rattle.meaning.specs.Step.{check_step};
ghost use Rattle.meaning.specs.Numbering.{with_rule};
ghost use Rattle.certificate.specs.Known.{decoded};
ghost use Rattle.inclusion.specs.Verdict.{verdict_of};
ghost use Rattle.numbers.specs.Numbers.{judgement_kind_of};
ghost use Rattle.rules.specs.Derives.{kind_said, left_said, right_said};
ghost use Rattle.formed.specs.Formed.{IsStep, entries_in};
ghost use Rattle.derivation.specs.StepReply.{outcome, verdict_reply};

use crate::step::derived;
use certificate::{Judgement, Step, StepFault, Whole, WithEnds};
use formed::well_formed;
use inclusion::decide;
use numbers::RuleNumber;

// Whether the basic statement that a judgement makes by a rule of 1 to 5, whose kind it has, is permitted and true.
fn basic(file: &Whole, rule: u8, j: Judgement) -> Result<(), StepFault>
    requires le_rule { (1 ≤ rule) × (rule ≤ 5) }
    requires j_value { (kind_said j ≡ judgement_kind_of rule) × T (entries_in (decoded file.now.laid.bytes.now) j) }
    ensures { result ≡ verdict_reply (verdict_of (decoded file.now.laid.bytes.now) rule (left_said j) (right_said j)) }
{
    match j {
        Judgement::Within(a, b) | Judgement::ActionsWithin(a, b) => {
            let posed = WithEnds {
                entries: file.entries,
                ends: file.laid.at.ends,
            };
            decide(&posed, rule, a, b)?;
            Ok(())
        }
        _ => Err(StepFault::IllFormed),
    }
}

// Whether step k passes by the rule that its number stands for: first whether it is well formed, then a basic statement by its verdict
// and a derivation by its rule.
pub fn check_step(file: &Whole, k: u16, rule: u8, s: Step) -> Result<(), StepFault>
    requires { IsStep file.now.laid.bytes.now file.now.laid.at k s }
    ensures { outcome k result ≡ check_step (decoded file.now.laid.bytes.now) k (with_rule rule (step_at (decoded file.now.laid.bytes.now) k)) }
{
    if !well_formed(file.laid.at, k, rule, s) {
        return Err(StepFault::IllFormed);
    }
    if rule <= RuleNumber::B5 {
        basic(file, rule, s.judgement)
    } else {
        derived(file, rule, s)
    }
}
