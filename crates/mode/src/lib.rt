// The double ciphertext mode: a key prepared once, the tag of a plaintext, and a side block by block.
#![tactic(auto)]

ghost use Rattle.std.specs.Prelude.{◌≡◌, true, ◌≤◌, ◌%◌, length};
ghost use Rattle.block.specs.Value.{value};
ghost use Rattle.fips197.specs.Aes.{cipher_number};
ghost use Rattle.hash.specs.Powers.{key_of};
ghost use Rattle.mode.specs.Scheme.{is_key, scheme};
ghost use Rattle.mode.specs.Sealing.{key_from, tweak, tag_block, sides};
ghost use Rattle.mode.specs.Prepared.{PreparedFor};
ghost use Rattle.mode.specs.Lent.{scheme_prepared, scheme_lent};
ghost use Rattle.mode.specs.Transforms.{transformed, transformed_by};

mod lent;

use aes::RoundTable;
use block::Block;
pub use lent::{Keyed, Pads, Prepared};

// What is done to each block of a sector: an enum and no closure, since the definitions go by the same four cases.
#[derive(Clone, Copy, Debug, PartialEq, Eq)]
pub enum Direction {
    SealLocal,
    SealRemote,
    OpenLocal,
    OpenRemote,
}

// Works it out: the hash key is the first half of the key, the AES key the second.
#[tactic(auto, unfolding(crate::specs::Scheme::is_key, block::specs::Value::value))]
pub fn prepare(table: &RoundTable, key: &[u8]) -> Prepared
    requires { is_key (key_from key.now) ≡ true }
    ensures prepared { PreparedFor (key_from key.now) table.now.words result.words result.powers.words result.alpha result.beta }
    ensures of_key { scheme_prepared result ≡ scheme (key_from key.now) }
{
    let mut words = [0u32; 44];
    aes::expand(table, &key[16..], &mut words);
    let powers = hash::powers(Block::load(key, 0));
    let alpha = aes::encrypt(table, &words, Block { hi: 0, lo: 0 });
    let beta = aes::encrypt(table, &words, Block { hi: 0, lo: 1 });
    Prepared {
        words,
        powers,
        alpha,
        beta,
    }
}

impl Prepared {
    // Lends it with the table of AES.
    pub fn lend<'k>(&'k self, table: &'k RoundTable) -> Keyed<'k>
        ensures same_scheme { scheme_lent result ≡ scheme_prepared self.now }
        ensures same_parts { (result.pads.table.now.words ≡ table.now.words) × (result.pads.words.now ≡ self.now.words) × (result.pads.beta ≡ self.now.beta)
            × (result.powers.now.words ≡ self.now.powers.words) × (result.alpha ≡ self.now.alpha) }
    {
        let pads = Pads {
            table,
            words: &self.words,
            beta: self.beta,
        };
        Keyed {
            pads,
            powers: &self.powers,
            alpha: self.alpha,
        }
    }
}

// The tweak of a volume's number and an address: the one place where these become a block.
#[tactic(auto, using(crate::proofs::Laws::tweak_is), unfolding(block::specs::Value::value))]
pub fn tweak_at(volume: u64, address: u64) -> Block
    ensures { value result ≡ tweak volume address }
{
    Block {
        hi: volume,
        lo: address,
    }
}

// The tag of the plaintext p as a block.
pub fn tag_block(keyed: &Keyed, tweak: Block, p: &[u8]) -> Block
    requires { length p.now ≤ 4096 }
    ensures { value result ≡ tag_block (cipher_number keyed.now.pads.words.now) (key_of keyed.now.powers.now.words) (value tweak) p.now }
{
    let h = keyed.powers.at(0);
    let product = h * hash::brw_last(keyed.powers, p, tweak);
    aes::encrypt(keyed.pads.table, keyed.pads.words, product ^ keyed.alpha)
}

// A block of the result, from its pad.
#[tactic(auto, using(block::proofs::Field::mul_two_l))]
fn transform_block(how: Direction, pad: Block, v: Block) -> Block
    ensures { value result ≡ transformed how (value pad) (value v) }
{
    match how {
        Direction::SealLocal => pad ^ v.triple(),
        Direction::SealRemote => pad ^ v.double(),
        Direction::OpenLocal => (pad ^ v).undo_triple(),
        Direction::OpenRemote => (pad ^ v).undo_double(),
    }
}

// Transforms the blocks of x under the pads of the tag. One encryption a block.
#[tactic(auto, using(crate::proofs::Blockwise::written_none), unfolding(crate::specs::Sealing::times_x))]
pub fn transform(pads: &Pads, how: Direction, tag: Block, x: &[u8], out: &mut [u8])
    requires { (length x.now % 16 ≡ 0) × (length out.old ≡ length x.now) }
    ensures { out.new ≡ transformed_by how pads.now.words.now (value tag) x.now }
{
    let mut mask = pads.beta;
    for j in 0..x.len() / 16 {
        let at = 16 * j;
        mask = mask.double();
        let pad = aes::encrypt(pads.table, pads.words, tag ^ mask);
        let v = Block::load(x, at);
        let r = transform_block(how, pad, v);
        r.store(out, at);
    }
}

// Both sides of the plaintext p from its tag, for the pads of one: local is remote ⊕ p.
pub fn seal_sides(pads: &Pads, tag: Block, p: &[u8], local: &mut [u8], remote: &mut [u8])
    requires { (length p.now % 16 ≡ 0) × (length local.old ≡ length p.now) × (length remote.old ≡ length p.now) }
    ensures { (local.new ≡ (sides (cipher_number pads.now.words.now) (value tag) p.now).local)
        × (remote.new ≡ (sides (cipher_number pads.now.words.now) (value tag) p.now).remote) }
{
    transform(pads, Direction::SealRemote, tag, p, remote);
    block::xor_bytes(&remote[..], p, local);
}
