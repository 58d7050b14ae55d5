// An action set as 256 marks, four words of 64. They go by value, in plain functions: a form that document 01 names for Rattle.
ghost use Rattle.std.specs.Prelude.{◌≡◌, ◌<◌, ◌^◌, ◌%◌, ◌||◌, not, eqb};
ghost use Rattle.meaning.specs.Sets.{all_below};
ghost use Rattle.task.specs.Inner.{has};
ghost use Rattle.actions.specs.Marks.{marked, Marks};

use std::array::from_fn;

// The mark of a number in its word.
fn mark(i: u16) -> u64
    ensures { result ≡ 2 ^ (i % 64) }
{
    1u64 << (i % 64)
}

// Whether a number is marked.
pub fn is_marked(words: [u64; 4], i: u16) -> bool
    requires { i < 256 }
    ensures { result ≡ marked words i }
{
    (words[(i / 64) as usize] >> (i % 64)) % 2 == 1
}

// What is marked in either.
pub(crate) fn united(a: [u64; 4], b: [u64; 4]) -> [u64; 4]
    ensures { Marks result (λ i. marked a i || marked b i) }
{
    from_fn(|k| a[k] | b[k])
}

// The marks with one number more.
pub(crate) fn with_mark(mut words: [u64; 4], i: u16) -> [u64; 4]
    requires { i < 256 }
    ensures { Marks result (λ j. marked words j || eqb j i) }
{
    words[(i / 64) as usize] |= mark(i);
    words
}

// Whether all that is marked in one word is marked in another.
fn within_word(a: u64, b: u64) -> bool
    ensures { result ≡ all_below 64 (λ k. not (has a k) || has b k) }
{
    a | b == b
}

// Whether all that is marked in a is marked in b.
pub(crate) fn all_marked(a: [u64; 4], b: [u64; 4]) -> bool
    ensures { result ≡ all_below 256 (λ i. not (marked a i) || marked b i) }
{
    a.iter().zip(&b).all(|(x, y)| within_word(*x, *y))
}
