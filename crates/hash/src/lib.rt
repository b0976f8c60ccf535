// The hash BRW over blocks in a lent byte slice (document 01, "Hash").
#![tactic(auto)]

ghost use Rattle.std.specs.Prelude.{◌≡◌, ◌*◌, ◌^◌, ◌≤◌, ◌<◌, ◌++◌, ◌∷◌, [], length};
ghost use Rattle.std.specs.Int.Bits.{bit_xor};
ghost use Rattle.block.specs.Bytes.{blocks_of};
ghost use Rattle.block.specs.Field.{mul, power};
ghost use Rattle.block.specs.Value.{value};
ghost use Rattle.hash.specs.Brw.{log};
ghost use Rattle.hash.specs.Brw as B;
ghost use Rattle.hash.specs.Powers.{key_of, Powers, Powers-prop};

use block::Block;

// The powers h^(2^i), i from 0 to 8, each as two words, which is how `Powers` has them: worked out once for a key and lent to every hash.
// It holds a key, so it is neither printed nor compared.
#[derive(Clone, Copy)]
pub struct KeyPowers {
    pub words: [u64; 18],
    pub ghost made: { Powers words } by { Powers-prop words },
}

#[tactic(auto, using(crate::proofs::PowersLaws::filled_all))]
pub fn powers(h: Block) -> KeyPowers
    ensures { key_of result.words ≡ value h }
{
    let mut words = [0u64; 18];
    words[0] = h.hi;
    words[1] = h.lo;
    let mut v = h;
    for i in 1..9 {
        v = v.square();
        words[2 * i] = v.hi;
        words[2 * i + 1] = v.lo;
    }
    KeyPowers { words }
}

impl KeyPowers {
    // h^(2^i).
    #[tactic(auto, unfolding(block::specs::Value::value, crate::specs::Powers::element_at, crate::specs::Powers::Powers))]
    pub fn at(&self, i: usize) -> Block
        requires { i < 9 }
        ensures { value result ≡ power (key_of self.now.words) i }
    {
        Block {
            hi: self.words[2 * i],
            lo: self.words[2 * i + 1],
        }
    }
}

// An exponent t, and h^t.
#[derive(Clone, Copy, Debug, PartialEq, Eq)]
struct KeyPower {
    exponent: usize,
    element: Block,
}

// h^t for the largest power of two t not above k.
fn largest_power(p: &KeyPowers, k: usize) -> KeyPower
    requires { (0 < k) × (k < 512) }
    ensures exponent_value { (result.exponent ≡ 2 ^ log k) × (value result.element ≡ power (key_of p.now.words) (log k)) }
    ensures exponent_le_k { (result.exponent ≤ k) × (k < 2 * result.exponent) }
{
    // A cast below, since no From leads from u32 to usize.
    let i = k.ilog2();
    KeyPower {
        exponent: 1 << i,
        element: p.at(i as usize),
    }
}

// BRW of at most two blocks of x and then `last`.
#[tactic(auto, using(crate::proofs::SliceLaws::one_block, crate::proofs::SliceLaws::two_blocks, crate::proofs::SliceLaws::three_blocks))]
fn brw_small(p: &KeyPowers, x: &[u8], last: Block) -> Block
    requires { length x.now < 48 }
    ensures { value result ≡ B.brw (key_of p.now.words) (blocks_of x.now ++ (value last ∷ [])) }
{
    let n = x.len() / 16;
    if n == 0 {
        return last;
    }
    let h = p.at(0);
    let x1 = Block::load(x, 0);
    if n == 1 {
        return x1 * h ^ last;
    }
    let h2 = p.at(1);
    let x2 = Block::load(x, 16);
    (h ^ x1) * (h2 ^ x2) ^ last
}

// BRW of the blocks of x and then `last`: it need not lie behind them, so a caller copies nothing.
pub fn brw_last(p: &KeyPowers, x: &[u8], last: Block) -> Block
    requires { length x.now < 8176 }
    ensures { value result ≡ B.brw (key_of p.now.words) (blocks_of x.now ++ (value last ∷ [])) }
{
    let k = x.len() / 16 + 1;
    if k < 4 {
        return brw_small(p, x, last);
    }
    let power = largest_power(p, k);
    let t = power.exponent;
    // The n blocks before Xt, the last of them by value.
    let n = t - 1;
    let at = 16 * (n - 1);
    let before = brw_last(p, &x[..at], Block::load(x, at));
    if t == k {
        return before * (power.element ^ last);
    }
    let xt = Block::load(x, 16 * n);
    let e = 16 * t;
    let after = brw_last(p, &x[e..], last);
    before * (power.element ^ xt) ^ after
}
