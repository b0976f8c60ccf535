// The checks of a call's arguments, each by its list of rules: a line a rule, and the first that is broken is the refusal.

ghost use Rattle.std.specs.Prelude.{◌≡◌, Ok, Err, if◌then◌else◌};
ghost use Rattle.mode.specs.Scheme.{is_size};
ghost use Rattle.mode.specs.Sealing.{key_from};
ghost use Rattle.answers.specs.Answers.{done_option};
ghost use Rattle.answers.specs.Rules.{first_of, key_rules, size_rules, length_rules, number_rules, list_rules, pair_rules, parts_rules, is_count};

use crate::Refusal;
use block::Block;

// ---- one rule each

pub fn refuse_unless(holds: bool, refusal: Refusal) -> Result<(), Refusal>
    ensures { result ≡ (if holds then Ok tt else Err refusal) }
{
    if holds { Ok(()) } else { Err(refusal) }
}

// Refusals 1 and 14. One test for both words of the hash key h, so that by its source its time depends on h only by the answer.
#[tactic(auto, unfolding(mode::specs::Scheme::is_key, mode::specs::Sealing::hash_key, crate::specs::Rules::is_zero_hash, block::specs::Value::value), using(block::proofs::Words::both_zero, block::proofs::Words::not_both_zero))]
pub fn check_key(key: &[u8]) -> Result<(), Refusal>
    ensures { first_of (key_rules (key_from key.now)) ≡ done_option result }
{
    refuse_unless(key.len() == 32, Refusal::KeyLength)?;
    let h = Block::load(key, 0);
    refuse_unless(h.hi | h.lo != 0, Refusal::ZeroHashKey)
}

// Whether s is the size of a sector.
#[tactic(auto, unfolding(mode::specs::Scheme::is_size))]
fn is_size(s: usize) -> bool
    ensures { result ≡ is_size s }
{
    16 <= s && s <= 4096 && s % 16 == 0
}

// Refusal 2.
pub fn check_size(s: usize) -> Result<(), Refusal>
    ensures { first_of (size_rules s) ≡ done_option result }
{
    refuse_unless(is_size(s), Refusal::SectorSize)
}

// Refusal 3: a length that is not the one due.
pub fn check_length(length: usize, due: usize) -> Result<(), Refusal>
    ensures { first_of (length_rules length due) ≡ done_option result }
{
    refuse_unless(length == due, Refusal::OtherLength)
}

// Refusal 9.
pub fn check_number(n: usize, i: usize) -> Result<(), Refusal>
    ensures { first_of (number_rules n i) ≡ done_option result }
{
    refuse_unless(i < n, Refusal::SectorNumber)
}

// Refusal 11: a list of `room` numbers that is shorter than n.
pub fn check_list(n: usize, room: usize) -> Result<(), Refusal>
    ensures { first_of (list_rules n room) ≡ done_option result }
{
    refuse_unless(n <= room, Refusal::ListLength)
}

// Whether n is the count of a volume.
#[tactic(auto, unfolding(crate::specs::Rules::is_count))]
pub fn is_count(n: usize) -> bool
    ensures { result ≡ is_count n }
{
    1 <= n && n <= 65536
}

// ---- all refusals that come before the sector is looked at, in order

// Refusals 2 and 3: the size s, and two lengths that must equal it.
pub fn check_pair(s: usize, x: usize, y: usize) -> Result<(), Refusal>
    ensures { first_of (pair_rules s x y) ≡ done_option result }
{
    check_size(s)?;
    check_length(x, s)?;
    check_length(y, s)
}

// Refusals 1, 14, 2 and 3 of seal and judge.
pub fn check_parts(key: &[u8], s: usize, x: usize, y: usize, g: usize) -> Result<(), Refusal>
    ensures { first_of (parts_rules (key_from key.now) s x y g) ≡ done_option result }
{
    check_key(key)?;
    check_pair(s, x, y)?;
    check_length(g, 16)
}
