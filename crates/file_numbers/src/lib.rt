// Numbers of the file, big-endian. A number that runs past the end reads as 0, so that no caller owes a bound. Each width has its
// functions, as the numbers of std have: a trait for them would repeat the four bodies in its implementations.
#![tactic(auto)]

ghost use Rattle.std.specs.Prelude.{◌≡◌, ◌+◌, ◌≤◌, ◌<◌, length, MatchBool};
ghost use Rattle.meaning.specs.Bytes.{number};
ghost use Rattle.file_numbers.specs.Numbers.{number_at};

// The byte at a place of the file.
pub fn byte_in(file: &[u8], at: usize) -> u8
    requires { at + 1 ≤ length file.now }
    ensures { result ≡ number 1 file.now at }
{
    file[at]
}

// The number in the two, four or eight bytes from a place that has them. Eight are two of four: LLVM makes one load of that.
pub fn u16_in(file: &[u8], at: usize) -> u16
    requires { at + 2 ≤ length file.now }
    ensures { result ≡ number 2 file.now at }
{
    u16::from_be_bytes([file[at], file[at + 1]])
}

fn u32_in(file: &[u8], at: usize) -> u32
    requires { at + 4 ≤ length file.now }
    ensures { result ≡ number 4 file.now at }
{
    u32::from_be_bytes([file[at], file[at + 1], file[at + 2], file[at + 3]])
}

pub fn u64_in(file: &[u8], at: usize) -> u64
    requires { at + 8 ≤ length file.now }
    ensures { result ≡ number 8 file.now at }
{
    let high = u32_in(file, at);
    let low = u32_in(file, at + 4);
    (high as u64) * 4294967296 + (low as u64)
}

// Whether `size` bytes from a place are within the file.
fn reaches(file: &[u8], at: usize, size: usize) -> bool
    ensures { MatchBool result (at + size ≤ length file.now) (length file.now < at + size) }
{
    size <= file.len() && at <= file.len() - size
}

// The byte at a place.
#[tactic(auto, using(crate::proofs::ByteLaws::read_in, crate::proofs::ByteLaws::read_past))]
pub fn byte_at(file: &[u8], at: usize) -> u8
    ensures { result ≡ number_at 1 file.now at }
{
    if reaches(file, at, 1) {
        byte_in(file, at)
    } else {
        0
    }
}

// The number in the two, four or eight bytes from a place.
#[tactic(auto, using(crate::proofs::ByteLaws::read_in, crate::proofs::ByteLaws::read_past))]
pub fn u16_at(file: &[u8], at: usize) -> u16
    ensures { result ≡ number_at 2 file.now at }
{
    if reaches(file, at, 2) {
        u16_in(file, at)
    } else {
        0
    }
}

#[tactic(auto, using(crate::proofs::ByteLaws::read_in, crate::proofs::ByteLaws::read_past))]
pub fn u32_at(file: &[u8], at: usize) -> u32
    ensures { result ≡ number_at 4 file.now at }
{
    if reaches(file, at, 4) {
        u32_in(file, at)
    } else {
        0
    }
}

#[tactic(auto, using(crate::proofs::ByteLaws::read_in, crate::proofs::ByteLaws::read_past))]
pub fn u64_at(file: &[u8], at: usize) -> u64
    ensures { result ≡ number_at 8 file.now at }
{
    if reaches(file, at, 8) {
        u64_in(file, at)
    } else {
        0
    }
}
