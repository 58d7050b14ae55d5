// What the checker means: the file, the sets it names, the rules, the replies, and the theorems about them.
// The code here is the types that the definitions share with the checker.
#![tactic(auto)]

ghost use Rattle.std.specs.Prelude.{◌≡◌};
ghost use Rattle.meaning.specs.declared.Reply.TheVariants.{Refused};
ghost use Rattle.meaning.specs.declared.Round.TheVariants.{Refused as RefusedRound};
ghost use Rattle.meaning.specs.declared.Answer.TheVariants.{Refused as RefusedAnswer};

// A clause: some positive fact is on, or some negative fact is off.
#[derive(Clone, Copy)]
pub struct Clause {
    pub positive: u64,
    pub negative: u64,
}

// How much a check takes: bytes of the file, states in an explicit set, steps.
#[derive(Clone, Copy)]
pub struct Limits {
    pub size: u32,
    pub states: u16,
    pub steps: u16,
}

// What a file is refused with: document 01's or 02's refusal number, and the place. The number is a number and no enum of names, since
// the definitions compute with these numbers: the names would be a second list beside theirs.
#[derive(Clone, Copy, PartialEq, Eq, Debug)]
pub struct Fault {
    pub number: u8,
    pub place: u32,
}

// The checker's reply: accepted, or document 01's or 02's refusal number and place. A place may be the length of a caller's list.
// An enum of its own, since the definition `reply_of` gives one, and the theorem `AcceptedIsSafe` of specs/Points.antt speaks of it.
#[derive(Clone, Copy)]
pub enum Reply {
    Accepted,
    Refused { number: u8, place: u64 },
}

// What a round of a check says: that the last step was reached and says "unsolvable", the step to go on from, or the refusal.
// An enum of its own, since the definition `round_of` gives one, and the theorem `OneRound` of specs/Points.antt speaks of it.
#[derive(Clone, Copy)]
pub enum Round {
    Ended,
    GoOn(u64),
    Refused { number: u8, place: u64 },
}

// The answer to a question: in, out, or document 01's refusal number and place.
// An enum of its own, since the definition `answer_of` gives one, and the theorem `AnswerNumbers` of specs/Points.antt speaks of it.
#[derive(Clone, Copy)]
pub enum Answer {
    In,
    Out,
    Refused { number: u8, place: u32 },
}

impl From<Fault> for Reply {
    ghost from_gives = { λ fault reply. reply ≡ Refused fault.number fault.place };

    fn from(fault: Fault) -> Reply {
        Reply::Refused {
            number: fault.number,
            place: fault.place as u64,
        }
    }
}

impl From<Fault> for Round {
    ghost from_gives = { λ fault round. round ≡ RefusedRound fault.number fault.place };

    fn from(fault: Fault) -> Round {
        Round::Refused {
            number: fault.number,
            place: fault.place as u64,
        }
    }
}

impl From<Fault> for Answer {
    ghost from_gives = { λ fault answer. answer ≡ RefusedAnswer fault.number fault.place };

    fn from(fault: Fault) -> Answer {
        Answer::Refused {
            number: fault.number,
            place: fault.place,
        }
    }
}
