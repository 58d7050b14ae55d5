// A caller's own rule numbers: the faults of its list, refusal 18, and the table of the rules that its numbers stand for.
#![tactic(auto)]

ghost use Rattle.std.specs.Prelude.{◌≡◌, IfOk};
ghost use Rattle.std.specs.Result.{IfErr};
ghost use Rattle.meaning.specs.Result.{refuse, found};
ghost use Rattle.meaning.specs.Numbering.{check_numbers, rule_meant};
ghost use Rattle.numbering.specs.Table.{Stands};

// The rule that each byte stands for, 0 where it stands for none.
pub type RuleTable = [u8; 256];

// The first fault of a list: its place.
#[derive(Clone, Copy, PartialEq, Eq, Debug)]
pub struct ListFault {
    pub place: u64,
}

// The table of document 01's own numbers: each byte stands for itself.
pub fn own_numbers() -> RuleTable
    ensures { Stands result (λ x. x) }
{
    std::array::from_fn(|x| x as u8)
}

// The table of a list's rules. A list of another length than 28 is refused at its length; then a byte that is zero or was used before,
// at its number from 0.
pub fn numbering_of(numbers: &[u8]) -> Result<RuleTable, ListFault>
    ensures lawful { IfOk result (λ rules. check_numbers numbers.now ≡ found tt) }
    ensures stands { IfOk result (λ rules. Stands rules (rule_meant numbers.now)) }
    ensures fault { IfErr result (λ fault. check_numbers numbers.now ≡ refuse 18 fault.place) }
{
    let place = numbers.len() as u64;
    if place != 28 {
        return Err(ListFault { place });
    }
    let mut rules = [0; 256];
    for (k, x) in numbers.iter().enumerate() {
        let before = rules[*x as usize];
        if (*x == 0) | (0 < before) {
            return Err(ListFault { place: k as u64 });
        }
        rules[*x as usize] = k as u8 + 1;
    }
    Ok(rules)
}
