// The rules 15 to 28: a state set is within another. The step's judgement and its premises' are taken apart once for each group of rules;
// a rule is then asked about entry numbers. A judgement or an entry of any other kind ends the step with 9.
// The premises that are inclusions are p and q.
#![tactic(auto)]

ghost use Rattle.std.specs.Prelude.{◌≡◌, ◌≤◌, List, [], ◌∷◌};
ghost use Rattle.meaning.specs.File.{File};
ghost use Rattle.certificate.specs.declared.Judgement.{Judgement};
ghost use Rattle.certificate.specs.declared.Judgement.TheVariants.{Within};
ghost use Rattle.certificate.specs.Known.{decoded};
ghost use Rattle.rules.specs.Derives.{by_rule};

use certificate::{ActionEntry, Checked, Judgement, StateEntry, StepFault};
use lookup::{action_set, state_set};
use numbers::RuleNumber;
use patterns::{
    Inclusion, is_complement, is_intersection, is_progression, is_progression_of_complement,
    is_regression_of_complement, is_union, matched,
};

// UR and UL, and IR and IL, differ in which of two fields is looked at: one function told so by a flag would be no shorter than the two.

// 15 UR: S<S+U.
fn ur(file: &Checked, said: Inclusion) -> Result<(), StepFault>
    ensures { result ≡ by_rule (decoded file.now.bytes.now) 15 (Within said.left said.right) [] }
{
    let StateEntry::Union(s, _) = state_set(file, said.right) else {
        return Err(StepFault::NotDerived);
    };
    matched(s == said.left) // by its number: an entry that holds the same will not do
}

// 16 UL: S<U+S.
fn ul(file: &Checked, said: Inclusion) -> Result<(), StepFault>
    ensures { result ≡ by_rule (decoded file.now.bytes.now) 16 (Within said.left said.right) [] }
{
    let StateEntry::Union(_, s) = state_set(file, said.right) else {
        return Err(StepFault::NotDerived);
    };
    matched(s == said.left)
}

// 17 IR: S&U<S.
fn ir(file: &Checked, said: Inclusion) -> Result<(), StepFault>
    ensures { result ≡ by_rule (decoded file.now.bytes.now) 17 (Within said.left said.right) [] }
{
    let StateEntry::Intersection(s, _) = state_set(file, said.left) else {
        return Err(StepFault::NotDerived);
    };
    matched(said.right == s)
}

// 18 IL: U&S<S.
fn il(file: &Checked, said: Inclusion) -> Result<(), StepFault>
    ensures { result ≡ by_rule (decoded file.now.bytes.now) 18 (Within said.left said.right) [] }
{
    let StateEntry::Intersection(_, s) = state_set(file, said.left) else {
        return Err(StepFault::NotDerived);
    };
    matched(said.right == s)
}

// 19 DI: (S+U)&W<(S&W)+(U&W).
fn di(file: &Checked, said: Inclusion) -> Result<(), StepFault>
    ensures { result ≡ by_rule (decoded file.now.bytes.now) 19 (Within said.left said.right) [] }
{
    let StateEntry::Intersection(e, w) = state_set(file, said.left) else {
        return Err(StepFault::NotDerived);
    };
    let StateEntry::Union(s, u) = state_set(file, e) else {
        return Err(StepFault::NotDerived);
    };
    let StateEntry::Union(x, y) = state_set(file, said.right) else {
        return Err(StepFault::NotDerived);
    };
    is_intersection(file, x, s, w)?;
    is_intersection(file, y, u, w)
}

// 20 SU: S<W, U<W; S+U<W.
fn su(file: &Checked, said: Inclusion, p: Inclusion, q: Inclusion) -> Result<(), StepFault>
    ensures { result ≡ by_rule (decoded file.now.bytes.now) 20 (Within said.left said.right) (Within p.left p.right ∷ Within q.left q.right ∷ []) }
{
    is_union(file, said.left, p.left, q.left)?;
    matched((p.right == said.right) & (q.right == said.right))
}

// 21 SI: S<U, S<W; S<U&W.
fn si(file: &Checked, said: Inclusion, p: Inclusion, q: Inclusion) -> Result<(), StepFault>
    ensures { result ≡ by_rule (decoded file.now.bytes.now) 21 (Within said.left said.right) (Within p.left p.right ∷ Within q.left q.right ∷ []) }
{
    is_intersection(file, said.right, p.right, q.right)?;
    matched((p.left == said.left) & (q.left == said.left))
}

// 22 ST: S<U, U<W; S<W.
fn st(said: Inclusion, p: Inclusion, q: Inclusion) -> Result<(), StepFault>
    ensures { (f : File) → result ≡ by_rule f 22 (Within said.left said.right) (Within p.left p.right ∷ Within q.left q.right ∷ []) }
{
    matched((p.left == said.left) & (q.left == p.right) & (q.right == said.right))
}

// 23 AT: S[A]<U, B within A; S[B]<U.
fn at_fewer(file: &Checked, said: Inclusion, p: Inclusion, q: Judgement) -> Result<(), StepFault>
    ensures { result ≡ by_rule (decoded file.now.bytes.now) 23 (Within said.left said.right) (Within p.left p.right ∷ q ∷ []) }
{
    let Judgement::ActionsWithin(x, y) = q else {
        return Err(StepFault::NotDerived);
    };
    let StateEntry::Progression(s, n) = state_set(file, said.left) else {
        return Err(StepFault::NotDerived);
    };
    is_progression(file, p.left, s, y)?;
    matched((p.right == said.right) & (x == n))
}

// 24 AU: S[A]<U, S[B]<U; S[A+B]<U.
fn au(file: &Checked, said: Inclusion, p: Inclusion, q: Inclusion) -> Result<(), StepFault>
    ensures { result ≡ by_rule (decoded file.now.bytes.now) 24 (Within said.left said.right) (Within p.left p.right ∷ Within q.left q.right ∷ []) }
{
    let StateEntry::Progression(s, n) = state_set(file, said.left) else {
        return Err(StepFault::NotDerived);
    };
    let ActionEntry::Either(x, y) = action_set(file, n) else {
        return Err(StepFault::NotDerived);
    };
    is_progression(file, p.left, s, x)?;
    matched(p.right == said.right)?;
    is_progression(file, q.left, s, y)?;
    matched(q.right == said.right)
}

// 25 PT: S[A]<W, U<S; U[A]<W.
fn pt(file: &Checked, said: Inclusion, p: Inclusion, q: Inclusion) -> Result<(), StepFault>
    ensures { result ≡ by_rule (decoded file.now.bytes.now) 25 (Within said.left said.right) (Within p.left p.right ∷ Within q.left q.right ∷ []) }
{
    let StateEntry::Progression(u, n) = state_set(file, said.left) else {
        return Err(StepFault::NotDerived);
    };
    is_progression(file, p.left, q.right, n)?;
    matched((p.right == said.right) & (q.left == u))
}

// 26 PU: S[A]<W, U[A]<W; (S+U)[A]<W.
fn pu(file: &Checked, said: Inclusion, p: Inclusion, q: Inclusion) -> Result<(), StepFault>
    ensures { result ≡ by_rule (decoded file.now.bytes.now) 26 (Within said.left said.right) (Within p.left p.right ∷ Within q.left q.right ∷ []) }
{
    let StateEntry::Progression(e, n) = state_set(file, said.left) else {
        return Err(StepFault::NotDerived);
    };
    let StateEntry::Union(s, u) = state_set(file, e) else {
        return Err(StepFault::NotDerived);
    };
    is_progression(file, p.left, s, n)?;
    matched(p.right == said.right)?;
    is_progression(file, q.left, u, n)?;
    matched(q.right == said.right)
}

// 27 PR: S[A]<U; [A]~U<~S.
fn pr(file: &Checked, said: Inclusion, p: Inclusion) -> Result<(), StepFault>
    ensures { result ≡ by_rule (decoded file.now.bytes.now) 27 (Within said.left said.right) (Within p.left p.right ∷ []) }
{
    let StateEntry::Progression(s, n) = state_set(file, p.left) else {
        return Err(StepFault::NotDerived);
    };
    is_regression_of_complement(file, said.left, p.right, n)?;
    is_complement(file, said.right, s)
}

// 28 RP: [A]S<U; (~U)[A]<~S.
fn rp(file: &Checked, said: Inclusion, p: Inclusion) -> Result<(), StepFault>
    ensures { result ≡ by_rule (decoded file.now.bytes.now) 28 (Within said.left said.right) (Within p.left p.right ∷ []) }
{
    let StateEntry::Regression(s, n) = state_set(file, p.left) else {
        return Err(StepFault::NotDerived);
    };
    is_progression_of_complement(file, said.left, p.right, n)?;
    is_complement(file, said.right, s)
}

// Whether a judgement follows by a rule of 15 to 19, which have no premises.
pub fn alone(file: &Checked, rule: u8, j: Judgement) -> Result<(), StepFault>
    requires { (15 ≤ rule) × (rule ≤ 19) }
    ensures { (js : List Judgement) → result ≡ by_rule (decoded file.now.bytes.now) rule j js }
{
    let Judgement::Within(left, right) = j else {
        return Err(StepFault::NotDerived);
    };
    let said = Inclusion { left, right };
    match rule {
        RuleNumber::UR => ur(file, said),
        RuleNumber::UL => ul(file, said),
        RuleNumber::IR => ir(file, said),
        RuleNumber::IL => il(file, said),
        RuleNumber::DI => di(file, said),
        _ => Err(StepFault::NotDerived),
    }
}

// Whether an inclusion follows by a rule of 20 to 26 that has two inclusions of state sets for premises: all of them but AT.
fn by_two(
    file: &Checked,
    rule: u8,
    said: Inclusion,
    p: Inclusion,
    q: Judgement,
) -> Result<(), StepFault>
    requires le_rule { (20 ≤ rule) × (rule ≤ 26) }
    requires fact { rule ≡ 23 → ⊥ }
    ensures { (js : List Judgement) → result ≡ by_rule (decoded file.now.bytes.now) rule (Within said.left said.right) (Within p.left p.right ∷ q ∷ js) }
{
    let Judgement::Within(left, right) = q else {
        return Err(StepFault::NotDerived);
    };
    let q = Inclusion { left, right };
    match rule {
        RuleNumber::SU => su(file, said, p, q),
        RuleNumber::SI => si(file, said, p, q),
        RuleNumber::ST => st(said, p, q),
        RuleNumber::AU => au(file, said, p, q),
        RuleNumber::PT => pt(file, said, p, q),
        RuleNumber::PU => pu(file, said, p, q),
        _ => Err(StepFault::NotDerived),
    }
}

// Whether a judgement follows by a rule of 20 to 28 from its premises, as many of p and q as the rule has.
pub fn by_rule(
    file: &Checked,
    rule: u8,
    j: Judgement,
    p: Judgement,
    q: Judgement,
) -> Result<(), StepFault>
    requires { (20 ≤ rule) × (rule ≤ 28) }
    ensures { (js : List Judgement) → result ≡ by_rule (decoded file.now.bytes.now) rule j (p ∷ q ∷ js) }
{
    let Judgement::Within(left, right) = j else {
        return Err(StepFault::NotDerived);
    };
    let said = Inclusion { left, right };
    let Judgement::Within(left, right) = p else {
        return Err(StepFault::NotDerived);
    };
    let p = Inclusion { left, right };
    match rule {
        RuleNumber::AT => at_fewer(file, said, p, q),
        RuleNumber::PR => pr(file, said, p),
        RuleNumber::RP => rp(file, said, p),
        _ => by_two(file, rule, said, p, q),
    }
}
