// The rules' numbers, premise counts and judgement kinds.
#![tactic(auto)]

ghost use Rattle.std.specs.Prelude.{◌≡◌};
ghost use Rattle.numbers.specs.Numbers.{premises_of, judgement_kind_of};

// The rules of document 01's list: the number of each, and by a number how many premises its rule has and which judgement kind it gives.
// Constants and no enum: the form that document 01 wants, and steps carry the number.
#[derive(Clone, Copy)]
pub struct RuleNumber;

impl RuleNumber {
    pub const B1: u8 = 1;

    pub const B2: u8 = 2;

    pub const B3: u8 = 3;

    pub const B4: u8 = 4;

    pub const B5: u8 = 5;

    pub const ED: u8 = 6;

    pub const UD: u8 = 7;

    pub const SD: u8 = 8;

    pub const PG: u8 = 9;

    pub const PI: u8 = 10;

    pub const RG: u8 = 11;

    pub const RI: u8 = 12;

    pub const CI: u8 = 13;

    pub const CG: u8 = 14;

    pub const UR: u8 = 15;

    pub const UL: u8 = 16;

    pub const IR: u8 = 17;

    pub const IL: u8 = 18;

    pub const DI: u8 = 19;

    pub const SU: u8 = 20;

    pub const SI: u8 = 21;

    pub const ST: u8 = 22;

    pub const AT: u8 = 23;

    pub const AU: u8 = 24;

    pub const PT: u8 = 25;

    pub const PU: u8 = 26;

    pub const PR: u8 = 27;

    pub const RP: u8 = 28;

    // How many premises a rule has; 0 for a number that names none.
    #[tactic(auto, using(crate::proofs::Table::premise_counts))]
    pub fn premises(number: u8) -> u8
        ensures { result ≡ premises_of number }
    {
        match number {
            RuleNumber::CI | RuleNumber::CG | RuleNumber::PR | RuleNumber::RP => 1,
            RuleNumber::UD | RuleNumber::SD => 2,
            RuleNumber::SU..=RuleNumber::PU => 2,
            RuleNumber::PG..=RuleNumber::RI => 3,
            _ => 0,
        }
    }

    // The judgement kind that a rule gives; 0 for a number that names none.
    #[tactic(auto, using(crate::proofs::Table::judgement_kinds))]
    pub fn judgement(number: u8) -> u8
        ensures { result ≡ judgement_kind_of number }
    {
        match number {
            RuleNumber::B1..=RuleNumber::B4 | RuleNumber::UR..=RuleNumber::RP => 1,
            RuleNumber::B5 => 2,
            RuleNumber::CI | RuleNumber::CG => 3,
            _ => 0,
        }
    }
}
