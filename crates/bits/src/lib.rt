// One bit of a lent slice of 64-bit words: bit i is bit i mod 64, lowest first, of word i / 64.
#![tactic(auto)]

ghost use Rattle.std.specs.Prelude.{◌≡◌, ◌/◌, ◌<◌, length};
ghost use Rattle.bits.specs.Bits.{digit, put_digit, num, bit, mark};

// Digit k of a word.
#[tactic(auto, using(crate::proofs::Digits::digit_shift))]
fn digit_of(w: u64, k: usize) -> u64
    requires { k < 64 }
    ensures { result ≡ digit k w }
{
    (w >> k) % 2
}

// The word with that digit 1 or 0.
#[tactic(auto, using(crate::proofs::Digits::code_set, crate::proofs::Digits::code_clear))]
fn with_digit(w: u64, k: usize, on: bool) -> u64
    requires { k < 64 }
    ensures { result ≡ put_digit k (num on) w }
{
    if on {
        w | (1u64 << k)
    } else {
        w & !(1u64 << k)
    }
}

// Is bit i set?
pub fn test_bit(map: &[u64], i: usize) -> bool
    requires { i / 64 < length map.now }
    ensures { result ≡ bit i map.now }
{
    digit_of(map[i / 64], i % 64) == 1
}

// Sets bit i, or clears it.
#[tactic(auto, unfolding(crate::specs::Bits::mark))]
pub fn put_bit(map: &mut [u64], i: usize, on: bool)
    requires { i / 64 < length map.old }
    ensures { map.new ≡ mark i on map.old }
{
    let at = i / 64;
    map[at] = with_digit(map[at], i % 64, on);
}
