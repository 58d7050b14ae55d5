// A statement's leaves as they are written, before complements change sides.
#![tactic(auto)]

ghost use Rattle.std.specs.Prelude.{◌≡◌, ◌+◌, ◌≤◌, false, MatchOption};
ghost use Rattle.certificate.specs.Known.{decoded};

use certificate::Checked;
use nodes::node_at;
use trees::{Leaves, has_kind, is_basic, is_literal};

// A statement's leaves as written: left ones outside the bracket, those inside it, right ones, and the bracket's action set.
// Rules 1 and 4 have no bracket: their action set is 0, and is not read. An Option would only say the rule again.
#[derive(Clone, Copy)]
pub struct Parts {
    pub outer: Leaves,
    pub inner: Leaves,
    pub right: Leaves,
    pub actions: u16,
    pub ghost few_left: { outer.count + inner.count ≤ 8 },
    pub ghost few_right: { right.count ≤ 8 },
}

impl Parts {
    ghost use Rattle.parts.specs.Written.{sides_in, pair_sides, plain_sides, Bracketed, NoBracket, Parted, shape_of, literals_of};
    ghost use Rattle.meaning.specs.Shapes.{shape₁};

    // Rule 4: one entry within one entry.
    fn pair(a: u16, b: u16) -> Self
        ensures { sides_in result ≡ pair_sides a b }
    {
        Parts {
            outer: Leaves::one(a),
            inner: Leaves::none(),
            right: Leaves::one(b),
            actions: 0,
        }
    }

    // Rule 1: intersections within unions, at most 8 leaves a side.
    fn plain(file: &Checked, a: u16, b: u16) -> Option<Self>
        ensures { MatchOption result
            (shape₁ (decoded file.now.bytes.now) a b ≡ false)
            (λ p. sides_in p ≡ plain_sides (decoded file.now.bytes.now) a b) }
    {
        let outer = Leaves::of_tree(file, 7, a)?;
        let right = Leaves::of_tree(file, 8, b)?;
        Some(Parts {
            outer,
            inner: Leaves::none(),
            right,
            actions: 0,
        })
    }

    // Rules 2 and 3: the same with a bracket, the only left leaf of kind k, 9 or 10.
    fn bracketed(file: &Checked, k: u8, a: u16, b: u16) -> Option<Self>
        ensures { MatchOption result
            (NoBracket (decoded file.now.bytes.now) k a b)
            (λ p. Bracketed (decoded file.now.bytes.now) k a b p) }
    {
        let all = Leaves::of_tree(file, 7, a)?;
        let right = Leaves::of_tree(file, 8, b)?;
        let found = all.filter(|e| has_kind(file, e, k));
        let outer = all.filter(|e| !has_kind(file, e, k));
        let &[p] = found.entries() else {
            return None;
        };
        let x = node_at(file, p);
        let inner = Leaves::of_tree(file, 7, x.first)?;
        if 8 < outer.count + inner.count {
            return None;
        }
        Some(Parts {
            outer,
            inner,
            right,
            actions: x.second,
        })
    }

    // The leaves of a statement as written; none where there are too many, or no bracket or several where one has to be.
    pub fn of_rule(file: &Checked, rule: u8, a: u16, b: u16) -> Option<Self>
        requires le_rule { (1 ≤ rule) × (rule ≤ 4) }
        ensures { MatchOption result
            (shape_of (decoded file.now.bytes.now) rule a b ≡ false)
            (λ p. Parted (decoded file.now.bytes.now) rule a b p) }
    {
        match rule {
            4 => Some(Parts::pair(a, b)),
            1 => Parts::plain(file, a, b),
            _ => Parts::bracketed(file, 7 + rule, a, b),
        }
    }

    // Whether the leaves are literals and, inside the bracket, of kinds 0 to 5.
    pub fn literals(&self, file: &Checked) -> bool
        ensures { result ≡ literals_of (decoded file.now.bytes.now) (sides_in self.now) }
    {
        let outer = self.outer.all(|e| is_literal(file, e));
        let inner = self.inner.all(|e| is_basic(file, e));
        let right = self.right.all(|e| is_literal(file, e));
        outer & inner & right
    }
}
