// The sides of a sector, and the check of a call on one.

ghost use Rattle.std.specs.Prelude.{◌≡◌, IfOk};
ghost use Rattle.mode.specs.Sealing.{key_from};
ghost use Rattle.answers.specs.Answers.{done_option, side_number, side_numbered};
ghost use Rattle.answers.specs.Rules.{first_of, open_rules};

use crate::{Refusal, checks};

// A side of a sector. It is a number only where a caller gives it: 0 is local, 1 remote.
#[derive(Clone, Copy, Debug, PartialEq, Eq)]
pub enum Side {
    Local,
    Remote,
}

impl TryFrom<u32> for Side {
    type Error = Refusal;

    ghost try_from_gives = { λ number result. result ≡ side_numbered number };

    fn try_from(number: u32) -> Result<Side, Refusal> {
        match number {
            0 => Ok(Side::Local),
            1 => Ok(Side::Remote),
            _ => Err(Refusal::UnknownSide),
        }
    }
}

// Refusals 1, 14, 2, 3 and 4 of open and rebuild.
pub fn check_open(key: &[u8], s: usize, out: usize, g: usize, side: u32) -> Result<Side, Refusal>
    ensures rules { first_of (open_rules (key_from key.now) s out g side) ≡ done_option result }
    ensures side { IfOk result (λ found. side_number found ≡ side) }
{
    checks::check_key(key)?;
    checks::check_size(s)?;
    checks::check_length(out, s)?;
    checks::check_length(g, 16)?;
    Side::try_from(side)
}
