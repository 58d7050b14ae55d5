// The right clauses that can fail: a clause that the action leaves as it is, and that a left leaf says of the state before it, is passed over.
#![tactic(auto)]

ghost use Rattle.std.specs.Prelude.{◌≡◌, true, ◌+◌, ◌<◌, ◌≤◌, ◌^◌, T, IfSome};
ghost use Rattle.propagation.specs.Clauses.{clause_count, Inside};
ghost use Rattle.propagation.specs.Propagation.{Before, Opens};

use certificate::BasicEntry;
use leaves::Leaf;
use propagation::{clause_count, words_of};
use words::{Masks, next_hit};

// Whether these clauses of the file are among the left leaves, asked about the state before the action.
pub fn is_before(left: &[Leaf], set: BasicEntry) -> bool
    ensures { T result → Before left.now set }
{
    words_of(set).is_some() && left.iter().any(|leaf| (leaf.set == set) & !leaf.after)
}

// The next clause of a set from i on that can fail. Where each is a left clause too (`before`), those in the file that the action
// leaves as they are cannot, and are passed over.
// (`before` is told of the set and `changed` of the action; one Option of the two is no plainer, since the contract speaks of each.)
pub fn next_open(file: &[u8], set: BasicEntry, i: u32, before: bool, changed: u64) -> Option<u32>
    requires { (i ≤ clause_count set) × (before ≡ true → Inside file.now set) }
    ensures opens { Opens file.now set i before changed result }
    ensures next_fits { IfSome result (λ r. r + 1 < 2 ^ 32) }
{
    if before {
        if let Some(s) = words_of(set) {
            let wanted = Masks {
                two: true,
                off: changed,
                on: changed,
            };
            return next_hit(file, s.at, s.count as u32, i, wanted);
        }
    }
    if i < clause_count(set) { Some(i) } else { None }
}
