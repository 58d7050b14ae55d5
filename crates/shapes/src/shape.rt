// The shapes of basic statements on state sets, rules 1 to 4: their leaves are gathered, and told whether they are permitted.
ghost use Rattle.std.specs.Prelude.{◌≡◌, ◌≤◌, IfSome, is_some};
ghost use Rattle.meaning.specs.Shapes.{lists_init};
ghost use Rattle.certificate.specs.Known.{decoded};
ghost use Rattle.parts.specs.Written.{shape_of, sides_in};
ghost use Rattle.shapes.specs.Gathered.{Gathers};
ghost use Rattle.shapes.specs.Arrays.{Filled, Zeros};

use crate::arrays::{filled, plain, put, turned};
use certificate::Checked;
use kinds::{Gathered, summary};
use leaves::Leaf;
use parts::Parts;

// How many leaves the arrays hold: on the left outside the bracket, on the left, on the right.
#[derive(Clone, Copy, PartialEq, Eq, Debug)]
pub struct Counts {
    pub outside: usize,
    pub left: usize,
    pub right: usize,
}

// Writes the leaves, complements on the other side. On the right those of kind 0 are left out.
fn fill(
    file: &Checked,
    after: bool,
    p: &Parts,
    left: &mut [Leaf; 24],
    right: &mut [Leaf; 16],
) -> Counts
    ensures { Filled (decoded file.now.bytes.now) file.now.index.now after (sides_in p.now)
        left.old left.new right.old right.new result }
{
    let own = put(file, &p.outer, |e| plain(file, e), after, left, 0);
    let outside = put(file, &p.right, |e| turned(file, e), after, left, own);
    let all = put(file, &p.inner, |e| plain(file, e), !after, left, outside);
    let some = put(
        file,
        &p.right,
        |e| filled(file, plain(file, e)),
        after,
        right,
        0,
    );
    let others = put(
        file,
        &p.outer,
        |e| filled(file, turned(file, e)),
        after,
        right,
        some,
    );
    Counts {
        outside,
        left: all,
        right: others,
    }
}

// Gathers the leaves of a statement by rule 1 to 4 into two arrays, where kind 1 lists its states or not; none where its shape is not
// permitted.
pub fn gather(
    file: &Checked,
    few: bool,
    rule: u8,
    a: u16,
    b: u16,
    left: &mut [Leaf; 24],
    right: &mut [Leaf; 16],
) -> Option<Gathered>
    requires few { few ≡ lists_init (decoded file.now.bytes.now) }
    requires le_rule { (1 ≤ rule) × (rule ≤ 4) }
    requires zeros { Zeros right.old }
    ensures shape { is_some result ≡ shape_of (decoded file.now.bytes.now) rule a b }
    ensures leaves { IfSome result (λ g. Gathers (decoded file.now.bytes.now) file.now.index.now rule a b left.new right.new g) }
{
    let p = Parts::of_rule(file, rule, a, b)?;
    if !p.literals(file) {
        return None;
    }
    let n = fill(file, rule == 2, &p, left, right);
    summary(
        few,
        rule,
        &left[..n.left],
        n.outside,
        &right[..n.right],
        p.actions,
    )
    .ok()
}
