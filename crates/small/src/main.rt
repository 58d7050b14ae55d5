// Reads a file on standard input and prints the reply of the check with smaller limits to it, one line: a file longer than the small
// limits is refused with 1 or with 19.
#![tactic(auto)]

use input::with_file;
use printing::{STDOUT, print};
use verifier::check_small;

fn main() {
    with_file(|file| print(STDOUT, check_small(file)));
}
