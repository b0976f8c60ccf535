// Chains of n operations, each on the result of the last, for the program bench/bench.c to time.
#![tactic(auto)]

ghost use Rattle.std.specs.Prelude.{◌≡◌, ℕ, ◌+◌, ◌*◌, ◌^◌, ◌≤◌, length};
ghost use Rattle.block.specs.Value.{value};
ghost use Rattle.fips197.specs.Aes.{expand, cipher_number};
ghost use Rattle.bench.specs.Chain.{iterate, folded, product, hashed};

use block::Block;

// The ⊕ of a block's two words.
#[tactic(auto, using(crate::proofs::ChainLaws::folded_words), unfolding(block::specs::Value::value))]
fn fold(b: Block) -> u64
    ensures { result ≡ folded (value b) }
{
    b.hi ^ b.lo
}

// n steps from `start`, each on the result of the last. Whatever number each step makes of a block's number, so do they.
fn iterate<F: Fn(Block) -> Block>(step: F, start: Block, n: u64) -> Block
    requires { F.IsAlwaysCallable step }
    ensures { (f : ℕ → ℕ) → ((x y : _) → F.post step x y → value y ≡ f (value x)) → value result ≡ iterate n f (value start) }
{
    let mut b = start;
    for _k in 0..n {
        b = step(b);
    }
    b
}

// n encryptions under a key for AES-128, or 0 if it has not 16 bytes.
pub fn bench_encrypt(key: &[u8], hi: u64, lo: u64, n: u64) -> u64
    ensures { length key.now ≡ 16 →
        result ≡ folded (iterate n (cipher_number (expand 4 10 key.now)) (hi * 2 ^ 64 + lo)) }
{
    if key.len() != 16 {
        return 0;
    }
    let t = aes::table();
    let mut w = [0u32; 44];
    aes::expand(&t, key, &mut w);
    fold(iterate(|b| aes::encrypt(&t, &w, b), Block { hi, lo }, n))
}

// n products by b.
pub fn bench_mul(ahi: u64, alo: u64, bhi: u64, blo: u64, n: u64) -> u64
    ensures { result ≡ folded (iterate n (product (bhi * 2 ^ 64 + blo)) (ahi * 2 ^ 64 + alo)) }
{
    let a = Block { hi: ahi, lo: alo };
    let b = Block { hi: bhi, lo: blo };
    fold(iterate(|x| x * b, a, n))
}

// n hashes of the blocks of x, each with the last hash added to the last block, or 0 if x has no block or more than 4096 bytes.
pub fn bench_brw(hhi: u64, hlo: u64, x: &[u8], n: u64) -> u64
    ensures { 16 ≤ length x.now → length x.now ≤ 4096 →
        result ≡ folded (iterate n (hashed (hhi * 2 ^ 64 + hlo) x.now) 0) }
{
    if x.len() < 16 || 4096 < x.len() {
        return 0;
    }
    let p = hash::powers(Block { hi: hhi, lo: hlo });
    let at = 16 * (x.len() / 16 - 1);
    let last = Block::load(x, at);
    let zero = Block { hi: 0, lo: 0 };
    fold(iterate(|b| hash::brw_last(&p, &x[..at], last ^ b), zero, n))
}
