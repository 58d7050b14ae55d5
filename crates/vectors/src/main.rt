// Reads cases on standard input, one record each, and prints a reply a line: what the other checker replied is compared with it.
// A record is its kind (1 byte), entry (8), state (8), the file's length (4) and the file. Kind 0 is a file to check, 1 a question, 2 a
// file with a list of rule numbers: the list's length stands in the entry's place, and the list before the file; 3 is a round, with the
// step that it begins at in the entry's place and the count of its steps in the state's; 4 is a file to check with smaller limits.
#![tactic(auto)]

use file_numbers::{u32_at, u64_at};
use input::read_part;
use printing::{STDOUT, print};
use question::ask;
use verifier::{check, check_numbered, check_round, check_small};

// Replies to a case, whose kind is the record's byte.
fn reply(kind: u8, entry: u64, state: u64, numbers: &[u8], file: &[u8]) {
    match kind {
        0 => print(STDOUT, check(file)),
        1 => print(STDOUT, ask(file, entry, state)),
        2 => print(STDOUT, check_numbered(file, numbers)),
        3 => print(STDOUT, check_round(file, entry, state)),
        _ => print(STDOUT, check_small(file)),
    }
}

// One case: whether there was one.
fn one_case() -> bool {
    let mut head = [0u8; 21];
    if !read_part(&mut head) {
        return false;
    }
    let kind = head[0];
    let entry = u64_at(&head, 1);
    let state = u64_at(&head, 9);
    let len = u32_at(&head, 17) as usize;
    let count = if kind == 2 { entry as usize } else { 0 };
    let mut numbers = [0u8; 1024];
    let mut file = [0u8; 65537];
    if (numbers.len() < count) | (file.len() < len) {
        return false;
    }
    let numbers = &mut numbers[..count];
    let file = &mut file[..len];
    if !read_part(numbers) || !read_part(file) {
        return false;
    }
    reply(kind, entry, state, numbers, file);
    true
}

// At most a million cases, so that it ends.
fn main() {
    for _ in 0..1000000 {
        if !one_case() {
            return;
        }
    }
}
