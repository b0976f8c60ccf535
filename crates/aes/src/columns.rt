// The state, a column at a time.

ghost use Rattle.std.specs.Prelude.{◌≡◌, ◌+◌, ◌*◌, ◌≤◌, length};
ghost use Rattle.block.specs.Bytes.{from_bytes, to_bytes};
ghost use Rattle.block.specs.Value.{value};
ghost use Rattle.fips197.specs.Aes.{add_round_key};
ghost use Rattle.aes.specs.Columns.{state_of};

use block::Block;

// A state, one word a column: the word's first byte, the most significant, is in row 0.
#[derive(Clone, Copy, Debug, PartialEq, Eq)]
pub(crate) struct Columns {
    pub(crate) c0: u32,
    pub(crate) c1: u32,
    pub(crate) c2: u32,
    pub(crate) c3: u32,
}

impl Columns {
    // AddRoundKey with round key n of the expanded key w (FIPS 197, 5.1.4).
    #[tactic(auto, using(crate::proofs::Rounds::key_state))]
    pub(crate) fn add_round_key(self, w: &[u32], n: usize) -> Columns
        requires { 4 * n + 4 ≤ length w.now }
        ensures { state_of result ≡ add_round_key w.now n (state_of self) }
    {
        let at = 4 * n;
        Columns {
            c0: self.c0 ^ w[at + 0],
            c1: self.c1 ^ w[at + 1],
            c2: self.c2 ^ w[at + 2],
            c3: self.c3 ^ w[at + 3],
        }
    }
}

// Its casts narrow, which no `From` does.
impl From<Block> for Columns {
    ghost from_gives = { λ b r. state_of r ≡ to_bytes 16 (value b) };

    #[tactic(auto, using(crate::proofs::Words::to_columns), unfolding(block::specs::Value::value))]
    fn from(b: Block) -> Columns {
        Columns {
            c0: (b.hi >> 32) as u32,
            c1: (b.hi % 0x1_0000_0000) as u32,
            c2: (b.lo >> 32) as u32,
            c3: (b.lo % 0x1_0000_0000) as u32,
        }
    }
}

impl From<Columns> for Block {
    ghost from_gives = { λ s r. value r ≡ from_bytes (state_of s) };

    fn from(s: Columns) -> Block {
        Block {
            hi: u64::from(s.c0) * 0x1_0000_0000 + u64::from(s.c1),
            lo: u64::from(s.c2) * 0x1_0000_0000 + u64::from(s.c3),
        }
    }
}
