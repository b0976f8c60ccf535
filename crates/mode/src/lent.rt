// What is worked out once of a key, and how it is lent. All three hold a key, so none is printed or compared.

ghost use Rattle.std.proofs.Props.{props};
ghost use Rattle.aes.specs.Columns.{round_table};
ghost use Rattle.hash.specs.Powers.{Powers-prop};
ghost use Rattle.mode.specs.Prepared.{PadsReady, KeyReady};

use aes::RoundTable;
use block::Block;
use hash::KeyPowers;

// For the pads of a side: the round keys, and beta, which is E(1).
#[derive(Clone, Copy)]
pub struct Pads<'k> {
    pub table: &'k RoundTable,
    pub words: &'k [u32],
    pub beta: Block,
    pub ghost ready: { PadsReady table.now.words words.now beta },
}

// For a tag besides: the powers of the hash key, and alpha, which is E(0).
#[derive(Clone, Copy)]
pub struct Keyed<'k> {
    pub pads: Pads<'k>,
    pub powers: &'k KeyPowers,
    pub alpha: Block,
    pub ghost ready: { KeyReady pads.table.now.words pads.words.now powers.now.words alpha pads.beta } by { Prim.hlevel (props, Powers-prop) },
}

// What is worked out once of a key: the round keys, the powers of the hash key, E(0) and E(1).
#[derive(Clone, Copy)]
pub struct Prepared {
    pub words: [u32; 44],
    pub powers: KeyPowers,
    pub alpha: Block,
    pub beta: Block,
    pub ghost ready: { KeyReady round_table words powers.words alpha beta } by { Prim.hlevel (props, Powers-prop) },
}
