// Blocks of 16 bytes as elements of GF(2^128) modulo X^128 + X^7 + X^2 + X + 1, and the byte slices that hold them.
#![tactic(auto)]

ghost use Rattle.std.specs.Prelude.{◌≡◌, ℕ, ◌+◌, ◌*◌, ◌/◌, ◌%◌, ◌^◌, ◌<◌, ◌≤◌, ◌++◌, length, take, drop, bit_xor};
ghost use Rattle.block.specs.Bytes.{from_bytes, to_bytes, xor_bytes};
ghost use Rattle.block.specs.Field.{times, x⁻¹, 1⊕x⁻¹};
ghost use Rattle.block.specs.Field as F;
ghost use Rattle.block.specs.Tables.{Multiples};
ghost use Rattle.block.specs.Value.{value};

use std::ops::{BitXor, Mul};

// The element hi * 2^64 + lo.
#[derive(Clone, Copy, Debug, PartialEq, Eq)]
pub struct Block {
    pub hi: u64,
    pub lo: u64,
}

// The sum of the field is ⊕.
impl BitXor for Block {
    type Output = Block;

    ghost bitxor_gives = { λ a b r. value r ≡ bit_xor (value a) (value b) };

    #[tactic(auto, using(crate::proofs::Words::xor_words), unfolding(crate::specs::Value::value))]
    fn bitxor(self, rhs: Block) -> Block {
        Block {
            hi: self.hi ^ rhs.hi,
            lo: self.lo ^ rhs.lo,
        }
    }
}

// The product. Each turn takes four bits of each word of self, the highest first: two chains, which do not wait for each other.
impl Mul for Block {
    type Output = Block;

    ghost mul_gives = { λ a b r. value r ≡ F.mul (value a) (value b) };

    fn mul(self, rhs: Block) -> Block {
        let t = multiples(rhs);
        let mut p = Block { hi: 0, lo: 0 };
        let mut q = Block { hi: 0, lo: 0 };
        let mut u = self.hi;
        let mut v = self.lo;
        for _turn in 0..16usize {
            p = step(p, multiple(&t, u));
            q = step(q, multiple(&t, v));
            u <<= 4;
            v <<= 4;
        }
        join(p, q)
    }
}

impl Block {
    // The product by x: a shift left by one bit, and the reduction byte where the bit pushed out was 1.
    #[tactic(auto, using(crate::proofs::Words::double_words), unfolding(crate::specs::Value::value))]
    pub fn double(self) -> Block
        ensures { value result ≡ F.double (value self) }
    {
        let out = self.hi >> 63;
        let carry = self.lo >> 63;
        let reduction = mask(out) & 0x87;
        let hi = (self.hi << 1) | carry;
        let lo = (self.lo << 1) ^ reduction;
        Block { hi, lo }
    }

    // The product by 1⊕x.
    #[tactic(auto, using(crate::proofs::Field::mul_three_l))]
    pub fn triple(self) -> Block
        ensures { value result ≡ F.mul 3 (value self) }
    {
        self.double() ^ self
    }

    // Undoes `double`: a rotation right by one bit, and ⊕ 43 where the bit pushed out was 1. The bit at the top and 43 are x's inverse.
    #[tactic(auto, using(crate::proofs::Undo::undone_double), unfolding(crate::specs::Value::value))]
    pub fn undo_double(self) -> Block
        ensures { value result ≡ F.mul x⁻¹ (value self) }
    {
        let reduction = mask(self.lo % 2) & 0x43;
        Block {
            hi: (self.lo << 63) | (self.hi >> 1),
            lo: ((self.hi << 63) | (self.lo >> 1)) ^ reduction,
        }
    }

    // Undoes `triple`. The low word's last carry turns every bit of the high word; 7d is what the bit pushed out then leaves.
    #[tactic(auto, using(crate::proofs::Undo::undone_triple), unfolding(crate::specs::Value::value))]
    pub fn undo_triple(self) -> Block
        ensures { value result ≡ F.mul 1⊕x⁻¹ (value self) }
    {
        let l = prefix_xor(self.lo);
        let h = prefix_xor(self.hi) ^ mask(l >> 63);
        Block {
            hi: h,
            lo: l ^ (mask(h >> 63) & 0x7d),
        }
    }

    // The square: that of a sum is the sum of the squares, so each word is squared by itself.
    #[tactic(auto, using(crate::proofs::Squares::block_square), unfolding(crate::specs::Value::value))]
    pub fn square(self) -> Block
        ensures { value result ≡ F.mul (value self) (value self) }
    {
        times_87(square_word(self.hi)) ^ square_word(self.lo)
    }

    // The block in the sixteen bytes from `at` on. A slice of sixteen in place of `at` is no plainer: callers would write `at` twice.
    pub fn load(bytes: &[u8], at: usize) -> Block
        requires { at + 16 ≤ length bytes.now }
        ensures { value result ≡ from_bytes (take 16 (drop at bytes.now)) }
    {
        let hi = load_word(bytes, at);
        let lo = load_word(bytes, at + 8);
        Block { hi, lo }
    }

    // Puts the block into the sixteen bytes from `at` on.
    pub fn store(self, out: &mut [u8], at: usize)
        requires { at + 16 ≤ length out.old }
        ensures { out.new ≡ take at out.old ++ to_bytes 16 (value self) ++ drop (at + 16) out.old }
    {
        store_word(out, at, self.hi);
        store_word(out, at + 8, self.lo);
    }
}

// A bit spread over a word: all ones where it is 1, else zero.
#[tactic(auto, using(crate::proofs::Words::spread_bit))]
fn mask(bit: u64) -> u64
    requires { bit < 2 }
    ensures { result ≡ times bit 0xffff_ffff_ffff_ffff }
{
    bit.wrapping_neg()
}

// The word whose ⊕ with its double is x: each bit is the ⊕ of x's bits up to it.
#[tactic(auto, using(crate::proofs::Undo::prefix_xor_is))]
fn prefix_xor(x: u64) -> u64
    ensures { bit_xor result (result * 2 % 2 ^ 64) ≡ x }
{
    let a = x ^ (x << 1);
    let b = a ^ (a << 2);
    let c = b ^ (b << 4);
    let d = c ^ (c << 8);
    let e = d ^ (d << 16);
    e ^ (e << 32)
}

// The sixteen multiples of b.
fn multiples(b: Block) -> [Block; 16]
    ensures { Multiples 16 (value b) result }
{
    let mut t = [Block { hi: 0, lo: 0 }; 16];
    t[1] = b;
    for i in 1..8usize {
        let even = t[i].double();
        let odd = even ^ b;
        t[2 * i] = even;
        t[2 * i + 1] = odd;
    }
    t
}

// The four highest bits of a word, as an index: there is no From<u64> for usize, so `as`.
fn top_four(w: u64) -> usize
    ensures { result ≡ w / 2 ^ 60 }
{
    (w >> 60) as usize
}

// The multiple for the four highest bits of w.
#[tactic(auto, unfolding(crate::specs::Value::value, crate::specs::Tables::Multiples, crate::specs::Tables::multiple_at))]
fn multiple(t: &[Block; 16], w: u64) -> Block
    ensures { (b : ℕ) → Multiples 16 b t.now → value result ≡ F.mul (w / 2 ^ 60) b }
{
    t[top_four(w)]
}

// What four bits n leave when they are pushed out: n * x^128.
const REDUCTIONS: [u64; 16] = [
    0x000, 0x087, 0x10e, 0x189, 0x21c, 0x29b, 0x312, 0x395, 0x438, 0x4bf, 0x536, 0x5b1, 0x624,
    0x6a3, 0x72a, 0x7ad,
];

fn reduction(n: usize) -> u64
    requires { n < 16 }
    ensures { result ≡ F.mul 0x87 n }
{
    REDUCTIONS[n]
}

// One step of a product: x^4 times s, ⊕ the multiple m for the next four bits.
fn step(s: Block, m: Block) -> Block
    ensures { value result ≡ bit_xor (F.mul 16 (value s)) (value m) }
{
    let out = top_four(s.hi);
    Block {
        hi: ((s.hi << 4) | (s.lo >> 60)) ^ m.hi,
        lo: (s.lo << 4) ^ reduction(out) ^ m.lo,
    }
}

// x^64 times p, ⊕ q.
#[tactic(auto, using(crate::proofs::Product::join_words), unfolding(crate::specs::Value::value))]
fn join(p: Block, q: Block) -> Block
    ensures { value result ≡ bit_xor (F.mul (2 ^ 64) (value p)) (value q) }
{
    let high = times_87(Block { hi: 0, lo: p.hi });
    let low = Block {
        hi: p.lo ^ q.hi,
        lo: q.lo,
    };
    high ^ low
}

// The square of a number below 2^32: its bits spread apart, bit i to bit 2i.
#[tactic(auto, using(crate::proofs::Squares::spread_is))]
fn spread(x: u64) -> u64
    requires { x < 2 ^ 32 }
    ensures { result ≡ F.mul x x }
{
    let a = (x ^ (x << 16)) & 0x0000_ffff_0000_ffff;
    let b = (a ^ (a << 8)) & 0x00ff_00ff_00ff_00ff;
    let c = (b ^ (b << 4)) & 0x0f0f_0f0f_0f0f_0f0f;
    let d = (c ^ (c << 2)) & 0x3333_3333_3333_3333;
    (d ^ (d << 1)) & 0x5555_5555_5555_5555
}

// The square of a word, which needs no reduction.
#[tactic(auto, using(crate::proofs::Squares::word_square), unfolding(crate::specs::Value::value))]
fn square_word(w: u64) -> Block
    ensures { value result ≡ F.mul w w }
{
    Block {
        hi: spread(w >> 32),
        lo: spread(w % 0x1_0000_0000),
    }
}

// The product by 0x87, which is x^128: shifts by 1, 2 and 7, and again what these push out.
#[tactic(auto, using(crate::proofs::Squares::times_87_is), unfolding(crate::specs::Value::value))]
fn times_87(b: Block) -> Block
    ensures { value result ≡ F.mul 0x87 (value b) }
{
    let h = b.hi;
    let l = b.lo;
    let carry = (l >> 63) ^ (l >> 62) ^ (l >> 57);
    let out = (h >> 63) ^ (h >> 62) ^ (h >> 57);
    let low = l ^ out;
    Block {
        hi: h ^ (h << 1) ^ (h << 2) ^ (h << 7) ^ carry,
        lo: low ^ (low << 1) ^ (low << 2) ^ (low << 7),
    }
}

// The eight bytes from `at` on as a number.
#[tactic(auto, using(crate::proofs::WordBytes::word_of))]
pub fn load_word(bytes: &[u8], at: usize) -> u64
    requires { at + 8 ≤ length bytes.now }
    ensures { result ≡ from_bytes (take 8 (drop at bytes.now)) }
{
    let mut word = [0u8; 8];
    word.copy_from_slice(&bytes[at..at + 8]);
    u64::from_be_bytes(word)
}

// Puts a word at `at`.
fn store_word(out: &mut [u8], at: usize, word: u64)
    requires { at + 8 ≤ length out.old }
    ensures { out.new ≡ take at out.old ++ to_bytes 8 word ++ drop (at + 8) out.old }
{
    out[at..at + 8].copy_from_slice(&word.to_be_bytes());
}

// The ⊕ of two slices of one length, into a third of that length.
pub fn xor_bytes(a: &[u8], b: &[u8], out: &mut [u8])
    requires { (length b.now ≡ length a.now) × (length out.old ≡ length a.now) }
    ensures { out.new ≡ xor_bytes a.now b.now }
{
    for i in 0..a.len() {
        out[i] = a[i] ^ b[i];
    }
}
