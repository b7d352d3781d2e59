//! Total reads and writes on lent slices: past the end a read is 0 and a write does nothing, so no stored number can trap.
#![tactic(auto)]

ghost use Rattle.std.specs.Prelude.{◌≡◌, ◌<◌, ◌^◌, ℕ, get_or, set};
ghost use Rattle.cells.specs.Numbers.{part};

pub mod numbers;

/// A number of a lent store. Past the end of a store a cell reads as `empty`.
pub trait Cell: Copy + Drop {
    ghost empty: { Self };

    ghost number: { Self → ℕ };

    ghost limit: { ℕ };

    fn empty() -> Self
        ensures { result ≡ empty };

    fn number(self) -> usize
        ensures value { result ≡ number self }
        ensures bound { result < limit };
}

// Kept as it is: the four impls differ in the type alone, but an impl by a macro of the repository is refused, and no conversion of std takes each of them, u64 too, to usize.
impl Cell for u8 {
    ghost empty = { 0 };

    ghost number = { λ x. x };

    ghost limit = { 2 ^ 8 };

    fn empty() -> u8 {
        0
    }

    fn number(self) -> usize {
        self as usize
    }
}

impl Cell for u16 {
    ghost empty = { 0 };

    ghost number = { λ x. x };

    ghost limit = { 2 ^ 16 };

    fn empty() -> u16 {
        0
    }

    fn number(self) -> usize {
        self as usize
    }
}

impl Cell for u32 {
    ghost empty = { 0 };

    ghost number = { λ x. x };

    ghost limit = { 2 ^ 32 };

    fn empty() -> u32 {
        0
    }

    fn number(self) -> usize {
        self as usize
    }
}

impl Cell for u64 {
    ghost empty = { 0 };

    ghost number = { λ x. x };

    ghost limit = { 2 ^ 64 };

    fn empty() -> u64 {
        0
    }

    fn number(self) -> usize {
        self as usize
    }
}

pub fn get<T: Cell>(s: &[T], i: usize) -> T
    ensures { result ≡ get_or s.now i T.empty }
{
    if i < s.len() { s[i] } else { T::empty() }
}

// The same, widened: the bound is promised, so that sums of what is read never wrap.
pub fn number_at<T: Cell>(s: &[T], i: usize) -> usize
    ensures { (result ≡ T.number (get_or s.now i T.empty)) × (result < T.limit) }
{
    get(s, i).number()
}

pub fn put<T: Cell>(s: &mut [T], i: usize, v: T)
    ensures { s.new ≡ set s.old i v }
{
    if i < s.len() {
        s[i] = v;
    }
}

// The bytes from one index up to another, as far as there are any.
pub fn part_of(s: &[u8], from: usize, to: usize) -> &[u8]
    ensures { result.now ≡ part s.now from to }
{
    let end = to.min(s.len());
    let start = from.min(end);
    &s[start..end]
}
