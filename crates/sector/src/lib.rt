// The sealed sector (document 01): seal, judge, open, rebuild and combine. Each call takes any input and checks it for itself.
//
// Each call prepares its key in the same three lines, since what is lent on points into them. That the key is one stays a clause of what
// prepares it, as `mode::prepare` has it: a type for a checked key would stand beside `Location`, which no check has passed.
#![tactic(auto)]

ghost use Rattle.std.specs.Prelude.{◌≡◌, true, length};
ghost use Rattle.block.specs.Value.{value};
ghost use Rattle.mode.specs.Lent.{scheme_lent};
ghost use Rattle.mode.specs.Scheme.{is_key, scheme};
ghost use Rattle.mode.specs.Sealing.{tweak, sealed, key_from, triple};
ghost use Rattle.answers.specs.Answers.{done_number, judged_number};
ghost use Rattle.answers.specs.Lent.{triple_of};
ghost use Rattle.answers.specs.Passing.{Sizes};
ghost use Rattle.verdict.specs.Judging.{side_named, sealing_of, judged_by};
ghost use Rattle.verdict.specs.Verdict.{other_side};
ghost use Rattle.sector.specs.Calls.{seal_call, judge_call, open_call, rebuild_call, combine_call};
ghost use Rattle.sector.specs.Opening.{opened_as, open_as};

use answers::{Found, Places, Refusal, Side};
use block::Block;
use mode::{Direction, Keyed};
use verdict::Part;

// What a sector is sealed under: the key, the volume's number and the address. It has no Debug, so that no key is printed.
#[derive(Clone, Copy)]
pub struct Location<'k> {
    pub key: &'k [u8],
    pub volume: u64,
    pub address: u64,
}

fn judge_checked(at: &Location, part: &Part, out: &mut [u8]) -> Result<Found, Refusal>
    requires { (is_key (key_from at.now.key.now) ≡ true) × (length out.old ≡ length part.now.places.local.now) }
    ensures { judged_by (scheme (key_from at.now.key.now)) (tweak at.now.volume at.now.address) (triple_of part.now.places) out.old
        ≡ (judged_number result, out.new) }
{
    let table = aes::table();
    let prepared = mode::prepare(&table, at.key);
    let tweak = mode::tweak_at(at.volume, at.address);
    let size = out.len();
    let mut sum = [0u8; 4096];
    let mut scratch = [0u8; 4096];
    verdict::judge_in(
        &prepared.lend(&table),
        tweak,
        part,
        out,
        &mut sum[..size],
        &mut scratch[..size],
    )
}

// Judges a sector: gives the plaintext with whole or the doubtful place.
#[tactic(auto, unfolding(crate::specs::Calls::judge_call), using(answers::proofs::Passing::parts_passed))]
pub fn judge(at: &Location, places: Places, out: &mut [u8]) -> Result<Found, Refusal>
    ensures { judge_call (key_from at.now.key.now) at.now.volume at.now.address (triple_of places.entry) out.old
        ≡ (judged_number result, out.new) }
{
    answers::check_parts(
        at.key,
        places.local.len(),
        places.remote.len(),
        out.len(),
        places.tag.len(),
    )?;
    let part = Part { places };
    judge_checked(at, &part, out)
}

// Seals the plaintext p with a prepared key.
fn seal_in(
    keyed: &Keyed,
    tweak: Block,
    p: &[u8],
    local: &mut [u8],
    tag: &mut [u8],
    remote: &mut [u8],
)
    requires { Sizes (length p.now) (length local.old) (length remote.old) (length tag.old) }
    ensures { triple local.new tag.new remote.new ≡ (scheme_lent keyed.now).sealed (value tweak) p.now }
{
    let sealed_tag = mode::tag_block(keyed, tweak, p);
    mode::seal_sides(&keyed.pads, sealed_tag, p, local, remote);
    sealed_tag.store(tag, 0);
}

fn seal_checked(at: &Location, p: &[u8], local: &mut [u8], tag: &mut [u8], remote: &mut [u8])
    requires { (is_key (key_from at.now.key.now) ≡ true) × Sizes (length p.now) (length local.old) (length remote.old) (length tag.old) }
    ensures { triple local.new tag.new remote.new ≡ sealed (key_from at.now.key.now) at.now.volume at.now.address p.now }
{
    let table = aes::table();
    let prepared = mode::prepare(&table, at.key);
    let tweak = mode::tweak_at(at.volume, at.address);
    seal_in(&prepared.lend(&table), tweak, p, local, tag, remote);
}

// Seals the plaintext p: writes the local sector, the tag and the remote sector.
// The outputs stay three slices: a struct of three `&mut` is no plainer, since the clause would read each as a part of what it leaves.
#[tactic(auto, unfolding(crate::specs::Calls::seal_call), using(answers::proofs::Passing::parts_passed))]
pub fn seal(
    at: &Location,
    p: &[u8],
    local: &mut [u8],
    tag: &mut [u8],
    remote: &mut [u8],
) -> Result<(), Refusal>
    ensures { seal_call (key_from at.now.key.now) at.now.volume at.now.address p.now (triple local.old tag.old remote.old)
        ≡ (done_number result, triple local.new tag.new remote.new) }
{
    answers::check_parts(at.key, p.len(), local.len(), remote.len(), tag.len())?;
    seal_checked(at, p, local, tag, remote);
    Ok(())
}

// Gives local ⊕ remote, which needs no key.
#[tactic(auto, unfolding(crate::specs::Calls::combine_call), using(answers::proofs::Passing::pair_passed))]
pub fn combine(local: &[u8], remote: &[u8], out: &mut [u8]) -> Result<(), Refusal>
    ensures { combine_call local.now remote.now out.old ≡ (done_number result, out.new) }
{
    answers::check_pair(local.len(), remote.len(), out.len())?;
    block::xor_bytes(local, remote, out);
    Ok(())
}

// How the side opposite to this one is sealed. It is no method, since `Side` is another crate's.
fn sealing_opposite(side: Side) -> Direction
    ensures { result ≡ sealing_of (other_side (side_named side)) }
{
    match side {
        Side::Local => Direction::SealRemote,
        Side::Remote => Direction::SealLocal,
    }
}

// What opening a side writes: the plaintext, or the opposite side as the plaintext seals.
// An enum is plainer than a closure here: `wanted_of` has the two cases, and a closure's clause would say them again.
#[derive(Clone, Copy, Debug, PartialEq, Eq)]
enum Wanted {
    Plaintext,
    Opposite,
}

// Opens a side with a prepared key: what is wanted reaches `out` only if the plaintext has the tag.
#[tactic(auto, using(block::proofs::Lists::bytes_all, crate::proofs::Opening::none_fits, crate::proofs::Opening::gives_plaintext))]
fn open_in(
    keyed: &Keyed,
    tweak: Block,
    wanted: Wanted,
    side: Side,
    x: &[u8],
    tag: &[u8],
    out: &mut [u8],
    scratch: &mut [u8],
) -> Result<(), Refusal>
    requires { Sizes (length x.now) (length out.old) (length scratch.old) (length tag.now) }
    ensures { opened_as wanted (scheme_lent keyed.now) (value tweak) (side_named side) x.now tag.now out.old
        ≡ (done_number result, out.new) }
{
    if !verdict::opens(keyed, tweak, side, x, tag, scratch) {
        return Err(Refusal::NoneFits);
    }
    match wanted {
        Wanted::Plaintext => out.copy_from_slice(&scratch[..]),
        Wanted::Opposite => {
            let tag = Block::load(tag, 0);
            mode::transform(&keyed.pads, sealing_opposite(side), tag, &scratch[..], out);
        }
    }
    Ok(())
}

fn open_checked(
    wanted: Wanted,
    at: &Location,
    side: Side,
    x: &[u8],
    tag: &[u8],
    out: &mut [u8],
) -> Result<(), Refusal>
    requires { (is_key (key_from at.now.key.now) ≡ true) × Sizes (length x.now) (length out.old) (length out.old) (length tag.now) }
    ensures { opened_as wanted (scheme (key_from at.now.key.now)) (tweak at.now.volume at.now.address) (side_named side)
        x.now tag.now out.old ≡ (done_number result, out.new) }
{
    let table = aes::table();
    let prepared = mode::prepare(&table, at.key);
    let tweak = mode::tweak_at(at.volume, at.address);
    let mut scratch = [0u8; 4096];
    let scratch = &mut scratch[..x.len()];
    open_in(
        &prepared.lend(&table),
        tweak,
        wanted,
        side,
        x,
        tag,
        out,
        scratch,
    )
}

// Open and rebuild, which differ in what they write.
#[tactic(auto, using(answers::proofs::Passing::open_passed))]
fn open_as(
    wanted: Wanted,
    at: &Location,
    side: u32,
    x: &[u8],
    tag: &[u8],
    out: &mut [u8],
) -> Result<(), Refusal>
    ensures { open_as wanted (key_from at.now.key.now) at.now.volume at.now.address side x.now tag.now out.old
        ≡ (done_number result, out.new) }
{
    // The check shows that the number is a side's; which side it is, `side_numbered` says.
    answers::check_open(at.key, x.len(), out.len(), tag.len(), side)?;
    open_checked(wanted, at, verdict::side_numbered(side), x, tag, out)
}

// Gives the one plaintext that fits the tag and the sector x of a side, by the number that C has for it: 0 is local, 1 remote.
#[tactic(auto, unfolding(crate::specs::Calls::open_call))]
pub fn open(at: &Location, side: u32, x: &[u8], tag: &[u8], out: &mut [u8]) -> Result<(), Refusal>
    ensures { open_call (key_from at.now.key.now) at.now.volume at.now.address side x.now tag.now out.old ≡ (done_number result, out.new) }
{
    open_as(Wanted::Plaintext, at, side, x, tag, out)
}

// Writes the opposite side from the sector x of a side and the tag.
#[tactic(auto, unfolding(crate::specs::Calls::rebuild_call, mode::specs::Sealing::sealed, mode::specs::Scheme::dcm, mode::specs::Scheme::scheme))]
pub fn rebuild(
    at: &Location,
    side: u32,
    x: &[u8],
    tag: &[u8],
    out: &mut [u8],
) -> Result<(), Refusal>
    ensures { rebuild_call (key_from at.now.key.now) at.now.volume at.now.address side x.now tag.now out.old
        ≡ (done_number result, out.new) }
{
    open_as(Wanted::Opposite, at, side, x, tag, out)
}
