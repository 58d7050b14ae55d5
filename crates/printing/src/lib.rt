// Prints replies, rounds and answers, one line each. What the line is, is proved; that it arrives, no contract can say.
// Not by `Display`: `println!` would ask for a handle, and what it writes is no part of its contract.
#![tactic(auto)]

ghost use Rattle.std.specs.Prelude.{◌≡◌, List, ◌++◌, ℕ, ◌+◌, ◌≤◌, length, take};
ghost use Rattle.io.specs.Counts.{IsPrefixLen};
ghost use Rattle.printing.specs.Lines.{Numeral, RefusedLine, ReplyLine, GoOnLine, RoundLine, AnswerLine};

use meaning::{Answer, Reply, Round};

// The numbers of standard output and standard error.
pub const STDOUT: i32 = 1;

pub const STDERR: i32 = 2;

// What is said in one line.
pub trait Line {
    // A text is its line.
    ghost is_line: { Self → List ℕ → Type 0 };
    // Puts its line into a buffer, and returns where it ends.
    fn put_line(self, line: &mut [u8]) -> usize
        requires { 50 ≤ length line.old }
        ensures prefix_len { IsPrefixLen result line.new }
        ensures is_line { is_line self (take result line.new) };
}

// Puts a text into a line, and returns where it ends.
fn put(line: &mut [u8], at: usize, text: &[u8]) -> usize
    requires { at + length text.now ≤ length line.old }
    ensures line_len_unchanged { length line.new ≡ length line.old }
    ensures value { result ≡ at + length text.now }
    ensures line_after { take result line.new ≡ take at line.old ++ text.now }
{
    let end = at + text.len();
    line[at..end].copy_from_slice(text);
    end
}

// Puts a number into a line, in decimal, and returns where it ends.
fn put_number(line: &mut [u8], at: usize, n: u64) -> usize
    requires { at + 20 ≤ length line.old }
    ensures line_len_unchanged { length line.new ≡ length line.old }
    ensures upper_bound { result ≤ at + 20 }
    ensures by_index { (t : List ℕ) × (Numeral n t × (take result line.new ≡ take at line.old ++ t)) }
{
    let mut text = [0u8; 20];
    let k = io::decimal(n, &mut text);
    put(line, at, &text[..k])
}

fn refused_line(number: u8, place: u64, line: &mut [u8]) -> usize
    requires { 50 ≤ length line.old }
    ensures prefix_len { IsPrefixLen result line.new }
    ensures refused_line { RefusedLine number place (take result line.new) }
{
    let word = put(line, 0, b"refused ");
    let first = put_number(line, word, number as u64);
    let space = put(line, first, b" ");
    let second = put_number(line, space, place);
    put(line, second, b"\n")
}

fn go_on_line(step: u64, line: &mut [u8]) -> usize
    requires { 50 ≤ length line.old }
    ensures prefix_len { IsPrefixLen result line.new }
    ensures go_on_line { GoOnLine step (take result line.new) }
{
    let words = put(line, 0, b"go on from ");
    let number = put_number(line, words, step);
    put(line, number, b"\n")
}

impl Line for Reply {
    ghost is_line = { ReplyLine };

    #[tactic(auto, unfolding(crate::specs::Lines::ReplyLine, crate::specs::Lines::accepted))]
    fn put_line(self, line: &mut [u8]) -> usize {
        match self {
            Reply::Accepted => put(line, 0, b"accepted\n"),
            Reply::Refused { number, place } => refused_line(number, place, line),
        }
    }
}

impl Line for Round {
    ghost is_line = { RoundLine };

    #[tactic(auto, unfolding(crate::specs::Lines::RoundLine, crate::specs::Lines::ended))]
    fn put_line(self, line: &mut [u8]) -> usize {
        match self {
            Round::Ended => put(line, 0, b"ended\n"),
            Round::GoOn(step) => go_on_line(step, line),
            Round::Refused { number, place } => refused_line(number, place, line),
        }
    }
}

impl Line for Answer {
    ghost is_line = { AnswerLine };

    #[tactic(auto, unfolding(crate::specs::Lines::AnswerLine, crate::specs::Lines::in_text, crate::specs::Lines::out_text))]
    fn put_line(self, line: &mut [u8]) -> usize {
        match self {
            Answer::In => put(line, 0, b"in\n"),
            Answer::Out => put(line, 0, b"out\n"),
            Answer::Refused { number, place } => refused_line(number, place as u64, line),
        }
    }
}

// Prints what is said to standard output or standard error.
pub fn print<L: Line>(to: i32, said: L) {
    let mut line = [0u8; 50];
    let end = said.put_line(&mut line);
    io::write_all(to, &line[..end]);
}
