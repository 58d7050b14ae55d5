// Whether a step is well formed, reply 8.
#![tactic(auto)]

ghost use Rattle.std.specs.Prelude.{◌≡◌, ℕ, ◌<◌, ◌&&◌, List, [], ◌∷◌, ltb, eqb, length, take, drop};
ghost use Rattle.task.specs.Reach.{every};
ghost use Rattle.meaning.specs.File.{File, step_at};
ghost use Rattle.meaning.specs.Numbering.{with_rule};
ghost use Rattle.certificate.specs.Views.{premise_list};
ghost use Rattle.certificate.specs.Known.{decoded};
ghost use Rattle.rules.specs.Derives.{kind_said};
ghost use Rattle.formed.specs.Formed.{formed, IsStep, entries_in};

use certificate::{Judgement, Places, Premises, Step};
use numbers::RuleNumber;

// A judgement's kind, 0 to 3: a number, as the definition `kind_said` and the rules' judgement kinds are.
#[tactic(auto, unfolding(rules::specs::Derives::kind_said))]
fn kind_of(j: Judgement) -> u8
    ensures { result ≡ kind_said j }
{
    match j {
        Judgement::Dead(_) => 0,
        Judgement::Within(_, _) => 1,
        Judgement::ActionsWithin(_, _) => 2,
        Judgement::Unsolvable => 3,
    }
}

// Whether the entries that a judgement is about are in a file of so many state and action sets.
#[tactic(auto, unfolding(crate::specs::Formed::entries_in))]
fn entries_fit(states: u16, actions: u16, j: Judgement) -> bool
    ensures { (f : File) → states ≡ length f.state_sets → actions ≡ length f.action_sets → result ≡ entries_in f j }
{
    match j {
        Judgement::Dead(a) => a < states,
        Judgement::Within(a, b) => (a < states) & (b < states),
        Judgement::ActionsWithin(a, b) => (a < actions) & (b < actions),
        Judgement::Unsolvable => true,
    }
}

// Whether the premises of step k, of which so many are used, are earlier steps, and unused places are zero. The three places are one
// number, whose end is unused: with a branch for each count a file of rule steps takes a quarter longer. Where unused places are zero
// they are earlier steps too, unless k is 0.
fn premises_fit(count: u8, premises: Premises, k: u16) -> bool
    requires { count < 4 }
    ensures { result ≡ (every (λ p. ltb p k) (take count (premise_list premises)) && every (λ p. eqb p 0) (drop count (premise_list premises))) }
{
    let Premises {
        first,
        second,
        third,
    } = premises;
    let places = first as u64 * 4294967296 + second as u64 * 65536 + third as u64;
    let unused = places % (1 << (48 - 16 * count));
    let earlier = (first < k) & (second < k) & (third < k);
    (unused == 0) & ((count == 0) | earlier)
}

// Whether step k passes 8 by the rule that its number stands for: the rule is known and gives the step's judgement kind, its entries
// are in the file, its premises are earlier steps, and unused places are zero.
pub fn well_formed(at: Places, k: u16, rule: u8, s: Step) -> bool
    ensures { (bytes : List ℕ) → IsStep bytes at k s → result ≡ formed (decoded bytes) k (with_rule rule (step_at (decoded bytes) k)) }
{
    if rule < RuleNumber::B1 || RuleNumber::RP < rule {
        return false;
    }
    let j = s.judgement;
    let fits = s.clean & (kind_of(j) == RuleNumber::judgement(rule));
    let count = RuleNumber::premises(rule);
    fits & entries_fit(at.state_sets, at.action_sets, j) & premises_fit(count, s.premises, k)
}
