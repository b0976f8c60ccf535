// The table that the rounds look up, and the rounds.

ghost use Rattle.std.specs.Prelude.{◌≡◌, ◌+◌, ◌*◌, ◌<◌, ◌≤◌, length, get_or};
ghost use Rattle.block.specs.Bytes.{to_bytes};
ghost use Rattle.fips197.specs.Aes.{sub_word};
ghost use Rattle.aes.specs.Columns.{sub, last_column, round_column, EachColumn, mix_rows, round_table};

use crate::columns::Columns;

// A caller makes it once and lends it on.
#[derive(Clone, Copy, Debug, PartialEq, Eq)]
pub struct RoundTable {
    pub words: [u32; 256],
    pub ghost made: { words ≡ round_table },
}

impl RoundTable {
    // The entry for row j of the column x.
    #[tactic(auto, using(crate::proofs::Rounds::entry_rows, crate::proofs::Words::be_bytes))]
    fn look_up(&self, x: u32, j: usize) -> u32
        requires { j < 4 }
        ensures { to_bytes 4 result ≡ mix_rows (sub x j) }
    {
        let b = x.to_be_bytes()[j];
        self.words[usize::from(b)]
    }

    // Row j of the column x, substituted: the third byte of the entry, whose factor is 1.
    #[tactic(auto, using(crate::proofs::Words::be_bytes))]
    fn substitute(&self, x: u32, j: usize) -> u8
        requires { j < 4 }
        ensures { result ≡ sub x j }
    {
        self.look_up(x, j).to_be_bytes()[2]
    }

    // A column after SubBytes and ShiftRows (FIPS 197, 5.1.1 and 5.1.2), which draws its rows from the columns a, b, c and d.
    fn last_column(&self, a: u32, b: u32, c: u32, d: u32) -> u32
        ensures { to_bytes 4 result ≡ last_column a b c d }
    {
        u32::from_be_bytes([
            self.substitute(a, 0),
            self.substitute(b, 1),
            self.substitute(c, 2),
            self.substitute(d, 3),
        ])
    }

    // The same after MixColumns and AddRoundKey too (5.1.3 and 5.1.4), where k is its word of the round key: each row adds one
    // entry of the table, rotated to that row. k comes first since it waits for no look-up.
    fn round_column(&self, k: u32, a: u32, b: u32, c: u32, d: u32) -> u32
        ensures { to_bytes 4 result ≡ round_column k a b c d }
    {
        k ^ self.look_up(a, 0)
            ^ self.look_up(b, 1).rotate_right(8)
            ^ self.look_up(c, 2).rotate_right(16)
            ^ self.look_up(d, 3).rotate_right(24)
    }

    // Round n, which is not the last, with its round key in w.
    pub(crate) fn round(&self, w: &[u32], n: usize, s: Columns) -> Columns
        requires { 4 * n + 4 ≤ length w.now }
        ensures { EachColumn (λ i. round_column (get_or w.now (4 * n + i) 0)) s result }
    {
        let at = 4 * n;
        Columns {
            c0: self.round_column(w[at + 0], s.c0, s.c1, s.c2, s.c3),
            c1: self.round_column(w[at + 1], s.c1, s.c2, s.c3, s.c0),
            c2: self.round_column(w[at + 2], s.c2, s.c3, s.c0, s.c1),
            c3: self.round_column(w[at + 3], s.c3, s.c0, s.c1, s.c2),
        }
    }

    // The last round but for its AddRoundKey.
    pub(crate) fn last_round(&self, s: Columns) -> Columns
        ensures { EachColumn (λ _. last_column) s result }
    {
        Columns {
            c0: self.last_column(s.c0, s.c1, s.c2, s.c3),
            c1: self.last_column(s.c1, s.c2, s.c3, s.c0),
            c2: self.last_column(s.c2, s.c3, s.c0, s.c1),
            c3: self.last_column(s.c3, s.c0, s.c1, s.c2),
        }
    }

    // SubWord (5.2): a column that draws its rows from one word is that word substituted.
    #[tactic(auto, using(crate::proofs::Rounds::word_substituted))]
    pub(crate) fn sub_word(&self, x: u32) -> u32
        ensures { result ≡ sub_word x }
    {
        self.last_column(x, x, x, x)
    }
}
