// AES encryption (FIPS 197), a column at a time and by one table of 256 words.
#![tactic(auto)]

ghost use Rattle.std.specs.Prelude.{◌≡◌, ◌+◌, ◌-◌, ◌*◌, ◌/◌, ◌%◌, ◌<◌, ◌≤◌, length, take};
ghost use Rattle.block.specs.Bytes.{from_bytes, part};
ghost use Rattle.block.specs.Value.{value};
ghost use Rattle.fips197.specs.Aes as FIPS;
ghost use Rattle.fips197.specs.Aes.{cipher_number, rounds_of, key_words, extend_by};
ghost use Rattle.aes.specs.Columns.{state_of, mix_rows};

mod columns;
mod round_table;

use block::Block;
use columns::Columns;
pub use round_table::RoundTable;

// The product by x (FIPS 197, 4.2).
#[tactic(auto, unfolding(fips197::specs::Aes::xtime))]
fn xtime(b: u8) -> u8
    ensures { result ≡ FIPS.xtime b }
{
    (b << 1) ^ (b >> 7) * 0x1b
}

// What the substituted byte b of row 0 adds to its mixed column.
#[tactic(auto, using(crate::proofs::Words::be_word, fips197::proofs::Bytes::double_is, fips197::proofs::Bytes::triple_is))]
fn table_entry(b: u8) -> u32
    ensures { result ≡ from_bytes (mix_rows b) }
{
    let double = xtime(b);
    u32::from_be_bytes([double, b, b, b ^ double])
}

// The round table, made from the S-box, so that this is the only constant table.
// A `for` here: `sbox().map(table_entry)` is proved too, and takes 7,500 instructions more, those of ten encryptions.
#[tactic(auto, using(crate::proofs::Laws::of_table))]
pub fn table() -> RoundTable {
    let s = fips197::sbox();
    let mut words = [0u32; 256];
    for i in 0..256usize {
        words[i] = table_entry(s[i]);
    }
    RoundTable { words }
}

// The cipher (5.1). The length of the expanded key w says how many rounds there are.
#[tactic(auto, using(crate::proofs::Rounds::last_state), unfolding(fips197::specs::Aes::cipher, fips197::specs::Aes::rounds))]
fn cipher(t: &RoundTable, w: &[u32], s: Columns) -> Columns
    requires { 8 ≤ length w.now }
    ensures { state_of result ≡ FIPS.cipher (rounds_of w.now) w.now (state_of s) }
{
    let nr = w.len() / 4 - 1;
    let mut u = s.add_round_key(w, 0);
    for n in 1..nr {
        u = t.round(w, n, u);
    }
    t.last_round(u).add_round_key(w, nr)
}

// The cipher of a block under the expanded key w.
#[tactic(auto, unfolding(fips197::specs::Aes::cipher_number))]
pub fn encrypt(t: &RoundTable, w: &[u32], b: Block) -> Block
    requires { 8 ≤ length w.now }
    ensures { value result ≡ cipher_number w.now (value b) }
{
    let s = cipher(t, w, Columns::from(b));
    Block::from(s)
}

// The round constant: its first byte is x^(j - 1).
#[tactic(auto, using(crate::proofs::Words::be_word), unfolding(fips197::specs::Aes::rcon, fips197::specs::Aes::xpow))]
fn rcon(j: usize) -> u32
    ensures { result ≡ FIPS.rcon j }
{
    let mut x = 1u8;
    for _n in 1..j {
        x = xtime(x);
    }
    u32::from_be_bytes([x, 0, 0, 0])
}

// RotWord (5.2).
fn rot_word(x: u32) -> u32
    ensures { result ≡ FIPS.rot_word x }
{
    x.rotate_left(8)
}

// The word x before word i, as it is added to word i - nk.
#[tactic(auto, unfolding(fips197::specs::Aes::transform))]
fn transform(t: &RoundTable, nk: usize, i: usize, x: u32) -> u32
    requires { 0 < nk }
    ensures { result ≡ FIPS.transform nk i x }
{
    match i % nk {
        0 => t.sub_word(rot_word(x)) ^ rcon(i / nk),
        4 if 6 < nk => t.sub_word(x),
        _ => x,
    }
}

// Word i of the key.
#[tactic(auto, using(crate::proofs::Words::be_word, crate::proofs::Words::part_four))]
fn key_word(key: &[u8], i: usize) -> u32
    requires { i * 4 + 4 ≤ length key.now }
    ensures { result ≡ from_bytes (part 4 i key.now) }
{
    let at = i * 4;
    u32::from_be_bytes([key[at + 0], key[at + 1], key[at + 2], key[at + 3]])
}

// Fills in the first nk words of w.
#[tactic(auto, using(crate::proofs::Laws::of_key))]
fn load_key(key: &[u8], nk: usize, w: &mut [u32])
    requires { (length key.now ≡ nk * 4) × (nk ≤ length w.old) }
    ensures { (take nk w.new ≡ key_words nk key.now)
        × (length w.new ≡ length w.old) }
{
    for i in 0..nk {
        w[i] = key_word(key, i);
    }
}

// Fills in the words of w behind the first nk.
#[tactic(auto, using(crate::proofs::Laws::of_extension))]
fn extend(t: &RoundTable, nk: usize, w: &mut [u32])
    requires { (0 < nk) × (nk ≤ length w.old) }
    ensures { w.new ≡ extend_by nk (take nk w.old) (length w.old - nk) }
{
    for i in nk..w.len() {
        w[i] = w[i - nk] ^ transform(t, nk, i, w[i - 1]);
    }
}

// The key expansion (5.2). The length of w says for how many rounds.
#[tactic(auto, unfolding(fips197::specs::Aes::expand))]
pub fn expand(t: &RoundTable, key: &[u8], w: &mut [u32])
    requires { (4 ≤ length key.now) × (length key.now ≤ 4 * length w.old)
        × (length key.now % 4 ≡ 0) × (length w.old % 4 ≡ 0) }
    ensures { w.new ≡ FIPS.expand (length key.now / 4) (rounds_of w.old) key.now }
{
    let nk = key.len() / 4;
    load_key(key, nk, w);
    extend(t, nk, w);
}
