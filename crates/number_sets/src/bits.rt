//! The bits of a word.

ghost use Rattle.std.specs.Prelude.{◌≡◌, ◌≢◌, ℕ, ◌<◌};
ghost use Rattle.std.specs.Int.{bit_at};

/// The word with a bit set.
pub(crate) fn with_bit(word: u64, bit: u32) -> u64
    requires { bit < 64 }
    ensures set { bit_at result bit ≡ 1 }
    ensures others { (i : ℕ) → i ≢ bit → bit_at result i ≡ bit_at word i }
{
    word | (1 << bit)
}

/// The word with a bit cleared.
pub(crate) fn without_bit(word: u64, bit: u32) -> u64
    requires { bit < 64 }
    ensures clear { bit_at result bit ≡ 0 }
    ensures others { (i : ℕ) → i < 64 → i ≢ bit → bit_at result i ≡ bit_at word i }
{
    word & !(1 << bit)
}

/// The lowest bit that isn't set, of a word where one isn't.
pub(crate) fn lowest_clear(word: u64) -> u32
    requires { word ≢ 18446744073709551615 }
    ensures within { result < 64 }
    ensures clear { bit_at word result ≡ 0 }
    ensures lowest { (i : ℕ) → i < result → bit_at word i ≡ 1 }
{
    word.trailing_ones()
}
