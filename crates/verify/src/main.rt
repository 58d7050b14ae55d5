// Reads a file on standard input and prints the checker's reply to it, one line.
#![tactic(auto)]

use input::with_file;
use printing::{STDOUT, print};
use verifier::check;

fn main() {
    with_file(|file| print(STDOUT, check(file)));
}
