// A map of suspect sectors: it is started, and its suspects are counted by the ones in each 64-bit word.
#![tactic(auto)]

ghost use Rattle.std.specs.Prelude.{◌≡◌, ◌%◌, ◌^◌, ◌-◌, ◌≤◌, length};
ghost use Rattle.std.specs.Int.Count.{ones};
ghost use Rattle.answers.specs.Answers.{done_number};
ghost use Rattle.answers.specs.Rules.{map_words};
ghost use Rattle.map.specs.Map.{started, suspects, start_outcome, count_outcome};

use answers::Refusal;

// The word with its k lowest bits set.
#[tactic(auto, using(crate::proofs::Words::one_shl_pos, crate::proofs::Words::code_low))]
fn low_ones(k: usize) -> u64
    requires { k ≤ 64 }
    ensures { result ≡ 2 ^ k - 1 }
{
    if k == 64 {
        return u64::MAX;
    }
    (1u64 << k) - 1
}

// The ones among a word's k lowest bits.
#[tactic(auto, using(crate::proofs::Words::ones_masked, crate::proofs::Words::ones_most))]
fn ones_below(w: u64, k: usize) -> u64
    requires { k ≤ 64 }
    ensures { (result ≡ ones (w % 2 ^ k)) × (result ≤ 64) }
{
    u64::from((w & low_ones(k)).count_ones())
}

#[tactic(auto, using(crate::proofs::Starting::filled_none, crate::proofs::Starting::filled_all))]
fn start_checked(n: usize, words: &mut [u64])
    requires { length words.old ≡ map_words n }
    ensures { words.new ≡ started n }
{
    let mut left = n;
    for word in words.iter_mut() {
        let k = left.min(64);
        *word = low_ones(k);
        left -= k;
    }
}

#[tactic(auto, unfolding(answers::specs::Rules::map_words), using(crate::proofs::Counting::counted_none))]
fn count_checked(n: usize, map: &[u64]) -> u64
    requires n_bound { n ≤ 65536 }
    requires map_len { length map.now ≡ map_words n }
    ensures { result ≡ suspects n map.now }
{
    let mut total: u64 = 0;
    let mut left = n;
    for word in map {
        let k = left.min(64);
        total += ones_below(*word, k);
        left -= k;
    }
    total
}

// Starts the map of n sectors, of these words: all n bits set, and those past n clear.
#[tactic(auto, unfolding(crate::specs::Map::start_outcome), using(crate::proofs::Checks::checked))]
pub fn start(n: usize, words: &mut [u64]) -> Result<(), Refusal>
    ensures { start_outcome n words.old ≡ (done_number result, words.new) }
{
    answers::check_count_and_map(n, words.len())?;
    start_checked(n, words);
    Ok(())
}

// Gives the number of suspects among n sectors. It is written, and not given back: `count_outcome` says what `count` holds after a refusal.
#[tactic(auto, unfolding(crate::specs::Map::count_outcome), using(crate::proofs::Checks::checked))]
pub fn count_suspects(n: usize, map: &[u64], count: &mut u64) -> Result<(), Refusal>
    ensures { count_outcome n map.now count.old ≡ (done_number result, count.new) }
{
    answers::check_count_and_map(n, map.len())?;
    *count = count_checked(n, map);
    Ok(())
}
