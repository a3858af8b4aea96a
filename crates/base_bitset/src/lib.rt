// Bitsets in 64-bit words: which bits a word has, and that `|` is union and `&` intersection.
// For tables with one word a state or a label, so that one operation serves 64 questions.
// Uses `base_bounded` for statements over the bits of a word.
#![tactic(auto)]

ghost use Rattle.std.specs.Prelude.{◌≡◌, not, ◌||◌, ◌<◌, ◌^◌};
ghost use Rattle.base_bounded.specs.Quantifiers.{all};
ghost use Rattle.base_bitset.specs.Internal.Bits.{bit_at, word_bits};

// How many bits a word has.
pub const WORD_BITS: usize = 64;

// The word that has bit b alone.
pub fn bit_of(b: usize) -> u64
    requires { b < word_bits }
    ensures { result ≡ 2 ^ b }
{
    1u64 << b
}

// Whether the word has every bit of the other.
pub fn holds(word: u64, other: u64) -> bool
    ensures { result ≡ all word_bits (λ b. not (bit_at other b) || bit_at word b) }
{
    word & other == other
}
