// Reads standard input.
#![tactic(auto)]

ghost use Rattle.std.specs.Prelude.{◌≡◌, ◌≤◌, ℕ, List, length, T};
ghost use Rattle.std.specs.Fn.{FnOnceReturnsAt};

// The number of standard input.
const STDIN: i32 = 0;

// Fills a buffer with the next bytes of standard input, as far as there are any, and tells whether it is full.
pub fn read_part(buffer: &mut [u8]) -> bool
    ensures { length buffer.new ≡ length buffer.old }
{
    io::read_full(STDIN, buffer) == buffer.len()
}

// What is made of the rest of standard input, as a file: one byte more than a file may have is enough to tell that it is too long.
pub fn with_file<R, F: FnOnce(&[u8]) -> R>(then: F) -> R
    requires { F.IsAlwaysCallable then }
    ensures { (file : List ℕ) × (length file ≤ 65537) × FnOnceReturnsAt F.FnOnce then file result }
{
    let mut file = [0u8; 65537];
    let end = io::read_full(STDIN, &mut file);
    then(&file[..end])
}
