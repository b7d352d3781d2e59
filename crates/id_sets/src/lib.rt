//! Sets of ids as words of 64 bits, any number of them (01, section 4).
#![tactic(auto)]

ghost use Rattle.std.specs.Prelude.{◌≡◌, ◌-◌, length};
ghost use Rattle.id_sets.specs.Ids.{has_id, ids_from, ids_of, first_of, with_id, union};

use cells::{get, put};

pub fn has_id(words: &[u64], id: usize) -> bool
    ensures { result ≡ has_id words.now id }
{
    let word = get(words, id / 64);
    let bit = id % 64;
    (word >> bit) % 2 == 1
}

pub fn add_id(words: &mut [u64], id: usize)
    ensures { words.new ≡ with_id words.old id }
{
    let word = get(words, id / 64);
    let bit = id % 64;
    put(words, id / 64, word | (1 << bit));
}

pub fn unite(words: &mut [u64], more: &[u64])
    ensures { words.new ≡ union words.old more.now }
{
    for (i, word) in words.iter_mut().enumerate() {
        let Some(other) = more.get(i) else {
            return;
        };
        *word |= *other;
    }
}

// The first member from `from` on: in each word, by the zeros below its lowest bit.
pub fn next_id(words: &[u64], from: usize) -> Option<usize>
    ensures { result ≡ first_of (ids_from words.now from (65536 - from)) }
{
    let mut passed = from % 64;
    for i in from / 64..words.len().min(1024) {
        let word = words[i] >> passed;
        if word != 0 {
            return Some(i * 64 + passed + word.trailing_zeros() as usize);
        }
        passed = 0;
    }
    None
}

pub fn count_ids(words: &[u64]) -> usize
    ensures { result ≡ length (ids_of words.now) }
{
    words
        .iter()
        .take(1024)
        .map(|word| word.count_ones() as usize)
        .sum()
}
