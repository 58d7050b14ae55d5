// Reads a list of rule numbers on standard input, its length (4 bytes, big-endian) and its bytes, then a file whose steps have these
// numbers, and prints the checker's reply to it, one line.
#![tactic(auto)]

use file_numbers::u32_at;
use input::{read_part, with_file};
use printing::{STDOUT, print};
use verifier::check_numbered;

// Reads a list into a buffer. There is none where the input ends too early, or the list is longer than the buffer.
fn read_list(buffer: &mut [u8]) -> Option<&[u8]> {
    let mut head = [0u8; 4];
    if !read_part(&mut head) {
        return None;
    }
    let count = u32_at(&head, 0) as usize;
    if buffer.len() < count {
        return None;
    }
    let list = &mut buffer[..count];
    if read_part(list) { Some(list) } else { None }
}

fn main() {
    let mut buffer = [0u8; 65536];
    match read_list(&mut buffer) {
        Some(numbers) => with_file(|file| print(STDOUT, check_numbered(file, numbers))),
        None => {
            io::write_all(STDOUT, b"no list\n");
        }
    }
}
