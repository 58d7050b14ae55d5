// Numbers in the file's byte order: a word of the file as it stands there, and a word with its bytes turned.
#![tactic(auto)]

ghost use Rattle.std.specs.Prelude.{◌≡◌, ◌+◌, ◌<◌, ◌≤◌, ◌^◌, length};
ghost use Rattle.meaning.specs.Bytes.{number};
ghost use Rattle.turned.specs.Turned.{turned4, turned8};

// The number in four bytes of the file with its bytes in the other order, as the machine has them.
fn u32_turned(file: &[u8], at: usize) -> u32
    requires { at + 4 ≤ length file.now }
    ensures { (number 4 file.now at < 2 ^ 32) × (result ≡ turned4 (number 4 file.now at)) }
{
    (file[at] as u32)
        + (file[at + 1] as u32) * 0x100
        + (file[at + 2] as u32) * 0x1_0000
        + (file[at + 3] as u32) * 0x100_0000
}

// Eight bytes as two of four, since one sum of eight is slower: LLVM makes one load of either, but only here also gives Horn clauses
// a loop of their own.
pub fn u64_turned(file: &[u8], at: usize) -> u64
    requires { at + 8 ≤ length file.now }
    ensures { (number 8 file.now at < 2 ^ 64) × (result ≡ turned8 (number 8 file.now at)) }
{
    let first = u32_turned(file, at);
    let second = u32_turned(file, at + 4);
    (second as u64) * 0x1_0000_0000 + (first as u64)
}

// A number with its bytes in the other order.
pub fn turned(x: u64) -> u64
    ensures { result ≡ turned8 x }
{
    x.swap_bytes()
}
