// One word of 64 bits as a set of the numbers below 64: what the four words of a row are made of.
ghost use Rattle.std.specs.Prelude.{◌≡◌, ℕ, ◌%◌, ◌<◌, ◌≤◌, IfSome, nat_lt};
ghost use Rattle.rows.specs.Values.{Same, both, either, less, without, how_many, Least, Greatest};
ghost use Rattle.rows.specs.Words.{bit};

// The numbers below n.
pub fn first(n: usize) -> u64
    ensures { (k : ℕ) → k < 64 → bit result k ≡ nat_lt k n }
{
    if n >= 64 { u64::MAX } else { (1 << n) - 1 }
}

// Whether v mod 64 is in the word.
pub fn has(word: u64, v: u8) -> bool
    ensures { result ≡ bit word (v % 64) }
{
    word >> (v % 64) & 1 == 1
}

// The word without v mod 64.
pub fn without(word: u64, v: u8) -> u64
    ensures { Same (bit result) (without (bit word) (v % 64)) }
{
    word & !(1 << (v % 64))
}

// The numbers in both words.
pub fn common(a: u64, b: u64) -> u64
    ensures { Same (bit result) (both (bit a) (bit b)) }
{
    a & b
}

// The numbers in either word.
pub fn joined(a: u64, b: u64) -> u64
    ensures { Same (bit result) (either (bit a) (bit b)) }
{
    a | b
}

// The numbers of the first word that the second lacks.
pub fn minus(a: u64, b: u64) -> u64
    ensures { Same (bit result) (less (bit a) (bit b)) }
{
    a & !b
}

// How many numbers are in the word.
pub fn size(word: u64) -> usize
    ensures value { result ≡ how_many 64 (bit word) }
    ensures bound { result ≤ 64 }
{
    word.count_ones() as usize
}

// The least number in the word.
pub fn least(word: u64) -> Option<u8>
    ensures value { Least (bit word) result }
    ensures bound { IfSome result (λ k. k < 64) }
{
    if word == 0 {
        return None;
    }
    Some(word.trailing_zeros() as u8)
}

// The greatest number in the word.
pub fn greatest(word: u64) -> Option<u8>
    ensures value { Greatest (bit word) result }
    ensures bound { IfSome result (λ k. k < 64) }
{
    if word == 0 {
        return None;
    }
    Some((63 - word.leading_zeros()) as u8)
}
