// Whether a step is derived by its rule of 6 to 28, reply 9.
ghost use Rattle.std.specs.Prelude.{◌≡◌, ◌≤◌, true};
ghost use Rattle.certificate.specs.Views.{judgement_at};
ghost use Rattle.certificate.specs.Known.{decoded};
ghost use Rattle.derivation.specs.StepReply.{rule_reply};

use certificate::{Judgement, Laid, Step, StepFault, Whole};
use lookup::judgement;
use numbers::RuleNumber;

// What step k says, where the rule has such a premise. Where it has not, nothing is read: to read all three places of each step takes a
// file of rule steps a tenth longer.
fn premise(file: &Laid, used: bool, k: u16) -> Judgement
    ensures { used ≡ true → result ≡ judgement_at (decoded file.now.bytes.now) k }
{
    if used {
        judgement(file, k)
    } else {
        Judgement::Unsolvable
    }
}

// Whether what a step says follows by its rule of 6 to 28 from what its premises say.
pub(crate) fn derived(file: &Whole, rule: u8, s: Step) -> Result<(), StepFault>
    requires { (6 ≤ rule) × (rule ≤ 28) }
    ensures { result ≡ rule_reply (decoded file.now.laid.bytes.now) rule s }
{
    let j = s.judgement;
    let premises = s.premises;
    let count = RuleNumber::premises(rule);
    let p = premise(&file.laid, 0 < count, premises.first);
    let q = premise(&file.laid, 1 < count, premises.second);
    if rule <= RuleNumber::CG {
        let o = premise(&file.laid, 2 < count, premises.third);
        dead::by_rule(&file.entries, rule, j, p, q, o)
    } else if rule <= RuleNumber::DI {
        within::alone(&file.entries, rule, j)
    } else {
        within::by_rule(&file.entries, rule, j, p, q)
    }
}
