// Reads a count (8 bytes, big-endian) and a file on standard input, and checks the file in rounds of so many steps. What each round says
// goes to standard error, and the reply at the end to standard output, one line each.
#![tactic(auto)]

ghost use Rattle.std.specs.Prelude.{◌≡◌, ℕ, replicate, T};
ghost use Rattle.meaning.specs.Reply.{reply_of};
ghost use Rattle.meaning.specs.Judged.{JudgedBy};
ghost use Rattle.meaning.specs.Rounds.{lawful_count, run, at_end};

use file_numbers::u64_at;
use input::{read_part, with_file};
use meaning::{Reply, Round};
use printing::{STDERR, STDOUT, print};
use verifier::check_round;

// A run of rounds: the first from step 0, each later one from the step handed back.
fn run(file: &[u8], count: u64) -> Reply
    ensures rounds { (n : ℕ) × (run file.now (replicate n count) ≡ at_end result) }
    ensures reply { T (lawful_count count) → result ≡ reply_of file.now }
    ensures judged { JudgedBy file.now result }
{
    let mut from = 0u64;
    loop {
        let round = check_round(file, from, count);
        print(STDERR, round);
        match round {
            Round::Ended => return Reply::Accepted,
            Round::GoOn(step) => from = step,
            Round::Refused { number, place } => return Reply::Refused { number, place },
        }
    }
}

fn main() {
    let mut head = [0u8; 8];
    if !read_part(&mut head) {
        io::write_all(STDOUT, b"no count\n");
        return;
    }
    let count = u64_at(&head, 0);
    with_file(|file| print(STDOUT, run(file, count)));
}
