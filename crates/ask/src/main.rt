// Reads a question on standard input, entry (8 bytes, big-endian), state (8) and the file, and prints the answer to it, one line.
#![tactic(auto)]

use file_numbers::u64_at;
use input::{read_part, with_file};
use printing::{STDOUT, print};
use question::ask;

fn main() {
    let mut head = [0u8; 16];
    if !read_part(&mut head) {
        io::write_all(STDOUT, b"no question\n");
        return;
    }
    let entry = u64_at(&head, 0);
    let state = u64_at(&head, 8);
    with_file(|file| print(STDOUT, ask(file, entry, state)));
}
