// The reading place, which walks the file without copying it: thin functions over those of `file_numbers`, and the heads that are read by them.
#![tactic(auto)]

ghost use Rattle.std.specs.Prelude.{◌≡◌, ◌+◌, ◌^◌, ◌<◌};
ghost use Rattle.file_numbers.specs.Numbers.{number_at};
ghost use Rattle.reader.specs.Heads.{entry_head_at, task_head_at};

use file_numbers::{byte_at, u16_at, u64_at};

// The file, and a place in it.
#[derive(Clone, Copy)]
pub struct Reader<'a> {
    pub src: &'a [u8],
    pub at: usize,
}

// How an entry starts: the length of its rest, and its kind.
#[derive(Clone, Copy)]
pub struct EntryHead {
    pub len: u16,
    pub kind: u8,
}

// The task's numbers behind the version, up to the count of actions.
#[derive(Clone, Copy)]
pub struct TaskHead {
    pub facts: u8,
    pub init: u64,
    pub goal: u64,
    pub actions: u16,
}

// A reader at a place.
pub fn reader_at<'a>(src: &'a [u8], at: usize) -> Reader<'a>
    ensures { (result.src ≡ src.entry) × (result.at ≡ at) }
{
    Reader { src, at }
}

// The number in the byte, or in the two or eight bytes, at the reader's place: thin functions, as document 01's form is.
pub(crate) fn byte<'a>(r: Reader<'a>) -> u8
    ensures { result ≡ number_at 1 r.entry.src.now r.entry.at }
{
    byte_at(r.src, r.at)
}

pub(crate) fn half<'a>(r: Reader<'a>) -> u16
    ensures { result ≡ number_at 2 r.entry.src.now r.entry.at }
{
    u16_at(r.src, r.at)
}

pub(crate) fn word<'a>(r: Reader<'a>) -> u64
    ensures { result ≡ number_at 8 r.entry.src.now r.entry.at }
{
    u64_at(r.src, r.at)
}

// The reader n bytes on.
pub fn past<'a>(r: Reader<'a>, n: usize) -> Reader<'a>
    requires { r.at + n < 2 ^ 64 }
    ensures { (result.src ≡ r.entry.src) × (result.at ≡ r.entry.at + n) }
{
    Reader {
        src: r.src,
        at: r.at + n,
    }
}

// The head of the entry at a place. Its parameters are plain, so that whoever calls it has no walk by hand, as of `task_head`.
pub fn entry_head(file: &[u8], place: u32) -> EntryHead
    ensures { result ≡ entry_head_at file.now place }
{
    let r = reader_at(file, place as usize);
    let len = half(r);
    let kind = byte(past(r, 2));
    EntryHead { len, kind }
}

// The head of the task, whose goal's mask stands `span` bytes after the initial state's and has `off` bytes between it and the count of
// actions: one reader walks on from each field to the next.
pub fn task_head(file: &[u8], span: u8, off: u8) -> TaskHead
    ensures { result ≡ task_head_at file.now span off }
{
    let mut r = reader_at(file, 5);
    let facts = byte(r);
    r = past(r, 1);
    let init = word(r);
    r = past(r, span as usize);
    let goal = word(r);
    r = past(r, 8);
    r = past(r, off as usize);
    let actions = half(r);
    TaskHead {
        facts,
        init,
        goal,
        actions,
    }
}
