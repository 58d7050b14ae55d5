// The rules 6 to 14: a set is dead, or the task is unsolvable. The step's judgement and the premises that rules share are taken apart once
// for each group of rules. A judgement or an entry of any other kind ends the step with 9.
// The step says that e is dead, and the first premises of SD, PG, PI, RG and RI the inclusion p and that u is dead.
#![tactic(auto)]

ghost use Rattle.std.specs.Prelude.{◌≡◌, ◌≤◌, List, [], ◌∷◌};
ghost use Rattle.meaning.specs.File.{File};
ghost use Rattle.certificate.specs.declared.Judgement.{Judgement};
ghost use Rattle.certificate.specs.declared.Judgement.TheVariants.{Dead, Within};
ghost use Rattle.certificate.specs.Known.{decoded};
ghost use Rattle.rules.specs.Derives.{by_rule};

use certificate::{Checked, Judgement, StateEntry, StepFault};
use lookup::state_set;
use numbers::RuleNumber;
use patterns::{
    Inclusion, is_complement, is_empty, is_goal, is_goal_part, is_goal_part_of_complement, is_init,
    is_progression_of_all, is_regression_of_all, is_union, matched,
};

// 7 UD: S dead, U dead; S+U dead.
fn ud(file: &Checked, e: u16, p: Judgement, q: Judgement) -> Result<(), StepFault>
    ensures { result ≡ by_rule (decoded file.now.bytes.now) 7 (Dead e) (p ∷ q ∷ []) }
{
    let Judgement::Dead(s) = p else {
        return Err(StepFault::NotDerived);
    };
    let Judgement::Dead(u) = q else {
        return Err(StepFault::NotDerived);
    };
    is_union(file, e, s, u)
}

// 8 SD: S<U, U dead; S dead.
fn sd(e: u16, p: Inclusion, u: u16) -> Result<(), StepFault>
    ensures { (f : File) → result ≡ by_rule f 8 (Dead e) (Within p.left p.right ∷ Dead u ∷ []) }
{
    matched((p.left == e) & (u == p.right))
}

// 9 PG: S[T]<S+U, U dead, S&G dead; S dead.
fn pg(file: &Checked, e: u16, p: Inclusion, u: u16, o: Judgement) -> Result<(), StepFault>
    ensures { result ≡ by_rule (decoded file.now.bytes.now) 9 (Dead e) (Within p.left p.right ∷ Dead u ∷ o ∷ []) }
{
    let Judgement::Dead(m) = o else {
        return Err(StepFault::NotDerived);
    };
    is_progression_of_all(file, p.left, e)?;
    is_union(file, p.right, e, u)?;
    is_goal_part(file, m, e)
}

// 10 PI: S[T]<S+U, U dead, I<S; ~S dead.
fn pi(file: &Checked, e: u16, p: Inclusion, u: u16, o: Judgement) -> Result<(), StepFault>
    ensures { result ≡ by_rule (decoded file.now.bytes.now) 10 (Dead e) (Within p.left p.right ∷ Dead u ∷ o ∷ []) }
{
    let Judgement::Within(i, m) = o else {
        return Err(StepFault::NotDerived);
    };
    let StateEntry::Complement(s) = state_set(file, e) else {
        return Err(StepFault::NotDerived);
    };
    is_progression_of_all(file, p.left, s)?;
    is_union(file, p.right, s, u)?;
    is_init(file, i)?;
    matched(m == s)
}

// 11 RG: [T]S<S+U, U dead, ~S&G dead; ~S dead.
fn rg(file: &Checked, e: u16, p: Inclusion, u: u16, o: Judgement) -> Result<(), StepFault>
    ensures { result ≡ by_rule (decoded file.now.bytes.now) 11 (Dead e) (Within p.left p.right ∷ Dead u ∷ o ∷ []) }
{
    let Judgement::Dead(m) = o else {
        return Err(StepFault::NotDerived);
    };
    let StateEntry::Complement(s) = state_set(file, e) else {
        return Err(StepFault::NotDerived);
    };
    is_regression_of_all(file, p.left, s)?;
    is_union(file, p.right, s, u)?;
    is_goal_part_of_complement(file, m, s)
}

// 12 RI: [T]S<S+U, U dead, I<~S; S dead.
fn ri(file: &Checked, e: u16, p: Inclusion, u: u16, o: Judgement) -> Result<(), StepFault>
    ensures { result ≡ by_rule (decoded file.now.bytes.now) 12 (Dead e) (Within p.left p.right ∷ Dead u ∷ o ∷ []) }
{
    let Judgement::Within(i, m) = o else {
        return Err(StepFault::NotDerived);
    };
    is_regression_of_all(file, p.left, e)?;
    is_union(file, p.right, e, u)?;
    is_init(file, i)?;
    is_complement(file, m, e)
}

// Whether e is dead by a rule of 8 to 12, which have an inclusion and a dead set for their first premises.
fn by_inclusion(
    file: &Checked,
    rule: u8,
    e: u16,
    p: Judgement,
    q: Judgement,
    o: Judgement,
) -> Result<(), StepFault>
    requires { (8 ≤ rule) × (rule ≤ 12) }
    ensures { result ≡ by_rule (decoded file.now.bytes.now) rule (Dead e) (p ∷ q ∷ o ∷ []) }
{
    let Judgement::Within(left, right) = p else {
        return Err(StepFault::NotDerived);
    };
    let p = Inclusion { left, right };
    let Judgement::Dead(u) = q else {
        return Err(StepFault::NotDerived);
    };
    match rule {
        RuleNumber::SD => sd(e, p, u),
        RuleNumber::PG => pg(file, e, p, u, o),
        RuleNumber::PI => pi(file, e, p, u, o),
        RuleNumber::RG => rg(file, e, p, u, o),
        RuleNumber::RI => ri(file, e, p, u, o),
        _ => Err(StepFault::NotDerived),
    }
}

// Whether the task is unsolvable by rule 13 CI, I dead, or 14 CG, G dead.
fn unsolvable(file: &Checked, rule: u8, j: Judgement, p: Judgement) -> Result<(), StepFault>
    requires { (13 ≤ rule) × (rule ≤ 14) }
    ensures { (js : List Judgement) → result ≡ by_rule (decoded file.now.bytes.now) rule j (p ∷ js) }
{
    let Judgement::Unsolvable = j else {
        return Err(StepFault::NotDerived);
    };
    let Judgement::Dead(e) = p else {
        return Err(StepFault::NotDerived);
    };
    match rule {
        RuleNumber::CI => is_init(file, e),
        RuleNumber::CG => is_goal(file, e),
        _ => Err(StepFault::NotDerived),
    }
}

// Whether a judgement follows by a rule of 6 to 14 from its premises, as many of p, q and o as the rule has.
pub fn by_rule(
    file: &Checked,
    rule: u8,
    j: Judgement,
    p: Judgement,
    q: Judgement,
    o: Judgement,
) -> Result<(), StepFault>
    requires { (6 ≤ rule) × (rule ≤ 14) }
    ensures { result ≡ by_rule (decoded file.now.bytes.now) rule j (p ∷ q ∷ o ∷ []) }
{
    if RuleNumber::CI <= rule {
        return unsolvable(file, rule, j, p);
    }
    let Judgement::Dead(e) = j else {
        return Err(StepFault::NotDerived);
    };
    match rule {
        RuleNumber::ED => is_empty(file, e), // 6 ED: 0 dead
        RuleNumber::UD => ud(file, e, p, q),
        _ => by_inclusion(file, rule, e, p, q, o),
    }
}
