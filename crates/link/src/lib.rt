// The checker, whole, with smaller limits and in rounds, and the question for programs in C or Rust: each reply as one number.
#![tactic(auto)]

ghost use Rattle.std.specs.Prelude.{◌≡◌, ℕ, ◌<◌};
ghost use Rattle.task.specs.Reach.{Safe};
ghost use Rattle.meaning.specs.Result.{found};
ghost use Rattle.meaning.specs.File.{File};
ghost use Rattle.meaning.specs.Layout.{read_file};
ghost use Rattle.meaning.specs.declared.Answer.TheVariants.{In, Out};
ghost use Rattle.meaning.specs.Reply.{reply_of};
ghost use Rattle.meaning.specs.Numbering.{reply_numbered};
ghost use Rattle.meaning.specs.declared.Round.TheVariants.{Ended, GoOn};
ghost use Rattle.meaning.specs.Rounds.{round_of};
ghost use Rattle.meaning.specs.Small.{reply_small};
ghost use Rattle.meaning.specs.Question.{answer_of};
ghost use Rattle.link.specs.Code.{refusal_code, code_of, round_code_of, answer_code_of, JudgedByCode};

use meaning::{Answer, Reply, Round};
use question::ask;
use verifier::{check, check_numbered, check_round, check_small};

// A refusal as one number: the refusal number above the 32 bits of the place, which hold no greater one than their last.
#[tactic(auto, unfolding(crate::specs::Code::refusal_code))]
fn refusal_code(number: u8, place: u64) -> u64
    ensures { result ≡ refusal_code number place }
{
    number as u64 * 4294967296 + place.min(4294967295)
}

// What is told as one number.
trait Code {
    // That number.
    ghost code_of: { Self → ℕ };

    fn code(self) -> u64
        ensures { result ≡ code_of self };
}

impl Code for Reply {
    ghost code_of = { code_of };

    #[tactic(auto, unfolding(crate::specs::Code::code_of))]
    fn code(self) -> u64 {
        match self {
            Reply::Accepted => 0,
            Reply::Refused { number, place } => refusal_code(number, place),
        }
    }
}

impl Code for Round {
    ghost code_of = { round_code_of };

    #[tactic(auto, unfolding(crate::specs::Code::round_code_of))]
    fn code(self) -> u64 {
        match self {
            Round::Ended => 0,
            Round::GoOn(step) => step,
            Round::Refused { number, place } => refusal_code(number, place),
        }
    }
}

impl Code for Answer {
    ghost code_of = { answer_code_of };

    #[tactic(auto, unfolding(crate::specs::Code::answer_code_of))]
    fn code(self) -> u64 {
        match self {
            Answer::Out => 0,
            Answer::In => 1,
            Answer::Refused { number, place } => refusal_code(number, place as u64),
        }
    }
}

// Whether a file's certificate shows that its task is safe: 0 where it does, else the refusal.
#[unsafe(no_mangle)]
pub extern "C" fn certificate_check(file: &[u8]) -> u64
    ensures code { result ≡ code_of (reply_of file.now) }
    ensures safe { result ≡ 0 → (f : File) × (read_file file.now ≡ found f) × Safe f.task }
    ensures judged { JudgedByCode file.now result }
    ensures untouched { file.exit.now ≡ file.entry.now }
{
    check(file).code()
}

// The same for a file whose steps have the rule numbers of a list, the k-th of which stands for rule k.
#[unsafe(no_mangle)]
pub extern "C" fn certificate_check_numbered(file: &[u8], numbers: &[u8]) -> u64
    ensures code { result ≡ code_of (reply_numbered file.now numbers.now) }
    ensures safe { result ≡ 0 → (f : File) × (read_file file.now ≡ found f) × Safe f.task }
    ensures judged { JudgedByCode file.now result }
    ensures untouched { file.exit.now ≡ file.entry.now }
    ensures list_untouched { numbers.exit.now ≡ numbers.entry.now }
{
    check_numbered(file, numbers).code()
}

// The same with smaller limits: 19 where the file breaks one of them, and else what `certificate_check` says.
#[unsafe(no_mangle)]
pub extern "C" fn certificate_check_small(file: &[u8]) -> u64
    ensures code { result ≡ code_of (reply_small file.now) }
    ensures safe { result ≡ 0 → (f : File) × (read_file file.now ≡ found f) × Safe f.task }
    ensures judged { JudgedByCode file.now result }
    ensures untouched { file.exit.now ≡ file.entry.now }
{
    check_small(file).code()
}

// One round of a check, of `count` steps from step `from` on: 0 where the last step was reached and says "unsolvable", else the step to
// go on from, which is below 2,048, or the refusal. A 0 says nothing of the steps before `from`.
#[unsafe(no_mangle)]
pub extern "C" fn certificate_round(file: &[u8], from: u64, count: u64) -> u64
    ensures code { result ≡ round_code_of (round_of file.now from count) }
    ensures told { (result ≡ 0 → round_of file.now from count ≡ Ended) × (0 < result → result < 4294967296 → (round_of file.now from count ≡ GoOn result) × (result < 2048)) }
    ensures untouched { file.exit.now ≡ file.entry.now }
{
    check_round(file, from, count).code()
}

// Whether a state is in the set of an entry of a file: 0 where it is out, 1 where it is in, else the refusal.
#[unsafe(no_mangle)]
pub extern "C" fn certificate_ask(file: &[u8], entry: u64, state: u64) -> u64
    ensures code { result ≡ answer_code_of (answer_of file.now entry state) }
    ensures told { (result ≡ 1 → answer_of file.now entry state ≡ In) × (result ≡ 0 → answer_of file.now entry state ≡ Out) }
    ensures untouched { file.exit.now ≡ file.entry.now }
{
    ask(file, entry, state).code()
}
