// Calls on one sector of a volume (document 01): blank, three write stages, read and mend. Each call takes any input and checks it for
// itself.
//
// The calls stay apart, each with its own lines that prepare the key: they differ in the images that are written, for which no one type
// serves, and a closure around those lines would capture these images. So `Within` stays a clause where images are written. That the key is
// one stays a clause too, as `mode::prepare` has it: a type for a checked key would stand beside `Volume`, which no check has passed.
#![tactic(auto)]

ghost use Rattle.std.specs.Prelude.{◌≡◌, true, length};
ghost use Rattle.mode.specs.Scheme.{is_key};
ghost use Rattle.mode.specs.Sealing.{key_from, triple};
ghost use Rattle.mode.specs.Sealing as M;
ghost use Rattle.block.specs.Value.{value};
ghost use Rattle.answers.specs.Answers.{done_number, judged_number};
ghost use Rattle.answers.specs.Lent.{triple_of, args_of};
ghost use Rattle.verdict.specs.Judging.{verdict_outcome};
ghost use Rattle.verdict.specs.Verdict.{judge};
ghost use Rattle.history.specs.Volume.{mirror, sealing, sector_of, outcome, read_outcome};
ghost use Rattle.history.specs.Volume as W;
ghost use Rattle.images.specs.Lent.{Within};
ghost use Rattle.stages.specs.Inner.{late_outcome};

use answers::{Found, Lengths, Places, Refusal, Volume};
use block::Block;
use images::Sector;

// The tweak of sector i: its number is its address. std has no conversion of a usize to a u64 that cannot fail.
fn tweak(volume: &Volume, i: usize) -> Block
    ensures { value result ≡ M.tweak volume.now.number i }
{
    mode::tweak_at(volume.number, i as u64)
}

fn read_checked(volume: &Volume, i: usize, images: Places, out: &mut [u8]) -> Result<Found, Refusal>
    requires { (is_key (key_from volume.now.key.now) ≡ true)
        × Within volume.now.size i (length images.local.now) (length images.tag.now) (length images.remote.now)
        × (length out.old ≡ volume.now.size) }
    ensures { verdict_outcome (judge (sealing mirror (args_of volume.now i)) i (sector_of volume.now.size i (triple_of images.entry))) out.old
        ≡ (judged_number result, out.new) }
{
    let table = aes::table();
    let prepared = mode::prepare(&table, volume.key);
    let keyed = prepared.lend(&table);
    let size = volume.size;
    let sector = Sector {
        images,
        size,
        number: i,
    };
    let mut sum = [0u8; 4096];
    let mut scratch = [0u8; 4096];
    images::judge_part(
        &keyed,
        tweak(volume, i),
        &sector,
        out,
        &mut sum[..size],
        &mut scratch[..size],
    )
}

#[tactic(auto, using(crate::proofs::Keyed::late_keyed))]
fn first_checked(
    volume: &Volume,
    p: &[u8],
    i: usize,
    local: &mut [u8],
    tags: &[u8],
    remote: &[u8],
) -> Result<(), Refusal>
    requires { (is_key (key_from volume.now.key.now) ≡ true)
        × Within (length p.now) i (length local.old) (length tags.now) (length remote.now) }
    ensures { late_outcome (sealing mirror (args_of volume.now i)) i (length p.now) i (triple local.old tags.now remote.now) (W.first p.now)
        ≡ (done_number result, triple local.new tags.now remote.now) }
{
    let table = aes::table();
    let prepared = mode::prepare(&table, volume.key);
    let keyed = prepared.lend(&table);
    let size = p.len();
    let mut plain = [0u8; 4096];
    let mut sum = [0u8; 4096];
    let mut scratch = [0u8; 4096];
    stages::first_in(
        &keyed,
        tweak(volume, i),
        p,
        i,
        local,
        tags,
        remote,
        &mut plain[..size],
        &mut sum[..size],
        &mut scratch[..size],
    )
}

#[tactic(auto, using(crate::proofs::Keyed::late_keyed))]
fn second_checked(
    volume: &Volume,
    p: &[u8],
    i: usize,
    local: &[u8],
    tags: &mut [u8],
    remote: &[u8],
) -> Result<(), Refusal>
    requires { (is_key (key_from volume.now.key.now) ≡ true)
        × Within (length p.now) i (length local.now) (length tags.old) (length remote.now) }
    ensures { late_outcome (sealing mirror (args_of volume.now i)) i (length p.now) i (triple local.now tags.old remote.now) (W.second p.now)
        ≡ (done_number result, triple local.now tags.new remote.now) }
{
    let table = aes::table();
    let prepared = mode::prepare(&table, volume.key);
    let keyed = prepared.lend(&table);
    let size = p.len();
    let mut scratch = [0u8; 4096];
    stages::second_in(
        &keyed,
        tweak(volume, i),
        p,
        i,
        local,
        tags,
        remote,
        &mut scratch[..size],
    )
}

#[tactic(auto, using(crate::proofs::Keyed::late_keyed))]
fn third_checked(
    volume: &Volume,
    p: &[u8],
    i: usize,
    local: &[u8],
    tags: &[u8],
    remote: &mut [u8],
) -> Result<(), Refusal>
    requires { (is_key (key_from volume.now.key.now) ≡ true)
        × Within (length p.now) i (length local.now) (length tags.now) (length remote.old) }
    ensures { late_outcome (sealing mirror (args_of volume.now i)) i (length p.now) i (triple local.now tags.now remote.old) (W.third p.now)
        ≡ (done_number result, triple local.now tags.now remote.new) }
{
    let table = aes::table();
    let prepared = mode::prepare(&table, volume.key);
    let keyed = prepared.lend(&table);
    let size = p.len();
    let mut scratch = [0u8; 4096];
    stages::third_in(
        &keyed,
        tweak(volume, i),
        p,
        i,
        local,
        tags,
        remote,
        &mut scratch[..size],
    )
}

fn blank_checked(volume: &Volume, i: usize, local: &mut [u8], tags: &mut [u8], remote: &mut [u8])
    requires { (is_key (key_from volume.now.key.now) ≡ true)
        × Within volume.now.size i (length local.old) (length tags.old) (length remote.old) }
    ensures { late_outcome (sealing mirror (args_of volume.now i)) i volume.now.size i (triple local.old tags.old remote.old) W.blank
        ≡ (0, triple local.new tags.new remote.new) }
{
    let table = aes::table();
    let prepared = mode::prepare(&table, volume.key);
    let keyed = prepared.lend(&table);
    let size = volume.size;
    let zeros = [0u8; 4096];
    stages::write_all(
        &keyed,
        tweak(volume, i),
        &zeros[..size],
        i,
        local,
        tags,
        remote,
    );
}

fn mend_checked(
    volume: &Volume,
    i: usize,
    local: &mut [u8],
    tags: &mut [u8],
    remote: &mut [u8],
) -> Result<Found, Refusal>
    requires { (is_key (key_from volume.now.key.now) ≡ true)
        × Within volume.now.size i (length local.old) (length tags.old) (length remote.old) }
    ensures { late_outcome (sealing mirror (args_of volume.now i)) i volume.now.size i (triple local.old tags.old remote.old) W.mend
        ≡ (judged_number result, triple local.new tags.new remote.new) }
{
    let table = aes::table();
    let prepared = mode::prepare(&table, volume.key);
    let keyed = prepared.lend(&table);
    let size = volume.size;
    let mut plain = [0u8; 4096];
    let mut sum = [0u8; 4096];
    let mut scratch = [0u8; 4096];
    stages::mend_in(
        &keyed,
        tweak(volume, i),
        size,
        i,
        local,
        tags,
        remote,
        &mut plain[..size],
        &mut sum[..size],
        &mut scratch[..size],
    )
}

// Writes p's local sector to sector i, if the sector is whole.
#[tactic(auto, using(crate::proofs::Public::stage_within, crate::proofs::Public::first_is, crate::proofs::Public::outcome_is))]
pub fn first_stage(
    volume: &Volume,
    i: usize,
    p: &[u8],
    local: &mut [u8],
    tags: &[u8],
    remote: &[u8],
) -> Result<(), Refusal>
    ensures { outcome mirror (triple local.old tags.now remote.now) (args_of volume.now i) (W.first p.now)
        ≡ (done_number result, triple local.new tags.now remote.now) }
{
    let lengths = Lengths {
        local: local.len(),
        tags: tags.len(),
        remote: remote.len(),
    };
    volume.check_sector_and_length(i, lengths, p.len())?;
    first_checked(volume, p, i, local, tags, remote)
}

// Writes p's tag to sector i, if p fits the local place.
#[tactic(auto, using(crate::proofs::Public::stage_within, crate::proofs::Public::second_is, crate::proofs::Public::outcome_is))]
pub fn second_stage(
    volume: &Volume,
    i: usize,
    p: &[u8],
    local: &[u8],
    tags: &mut [u8],
    remote: &[u8],
) -> Result<(), Refusal>
    ensures { outcome mirror (triple local.now tags.old remote.now) (args_of volume.now i) (W.second p.now)
        ≡ (done_number result, triple local.now tags.new remote.now) }
{
    let lengths = Lengths {
        local: local.len(),
        tags: tags.len(),
        remote: remote.len(),
    };
    volume.check_sector_and_length(i, lengths, p.len())?;
    second_checked(volume, p, i, local, tags, remote)
}

// Writes p's remote sector to sector i, if p fits the local place and the tag.
#[tactic(auto, using(crate::proofs::Public::stage_within, crate::proofs::Public::third_is, crate::proofs::Public::outcome_is))]
pub fn third_stage(
    volume: &Volume,
    i: usize,
    p: &[u8],
    local: &[u8],
    tags: &[u8],
    remote: &mut [u8],
) -> Result<(), Refusal>
    ensures { outcome mirror (triple local.now tags.now remote.old) (args_of volume.now i) (W.third p.now)
        ≡ (done_number result, triple local.now tags.now remote.new) }
{
    let lengths = Lengths {
        local: local.len(),
        tags: tags.len(),
        remote: remote.len(),
    };
    volume.check_sector_and_length(i, lengths, p.len())?;
    third_checked(volume, p, i, local, tags, remote)
}

// Gives sector i's plaintext with whole or the doubtful place.
#[tactic(auto, using(crate::proofs::Public::read_is))]
pub fn read(volume: &Volume, i: usize, images: Places, out: &mut [u8]) -> Result<Found, Refusal>
    ensures { read_outcome mirror (triple_of images.entry) (args_of volume.now i) out.old ≡ (judged_number result, out.new) }
{
    volume.check_sector_and_length(i, images.lengths(), out.len())?;
    read_checked(volume, i, images, out)
}

// Writes sector i's doubtful place as the one plaintext seals, and gives the verdict found.
#[tactic(auto, using(crate::proofs::Public::sector_within, crate::proofs::Public::outcome_is))]
pub fn mend(
    volume: &Volume,
    i: usize,
    local: &mut [u8],
    tags: &mut [u8],
    remote: &mut [u8],
) -> Result<Found, Refusal>
    ensures { outcome mirror (triple local.old tags.old remote.old) (args_of volume.now i) W.mend
        ≡ (judged_number result, triple local.new tags.new remote.new) }
{
    let lengths = Lengths {
        local: local.len(),
        tags: tags.len(),
        remote: remote.len(),
    };
    volume.check_sector(i, lengths)?;
    mend_checked(volume, i, local, tags, remote)
}

// Seals zeros into the three places of sector i.
#[tactic(auto, using(crate::proofs::Public::sector_within, crate::proofs::Public::outcome_is))]
pub fn blank(
    volume: &Volume,
    i: usize,
    local: &mut [u8],
    tags: &mut [u8],
    remote: &mut [u8],
) -> Result<(), Refusal>
    ensures { outcome mirror (triple local.old tags.old remote.old) (args_of volume.now i) W.blank
        ≡ (done_number result, triple local.new tags.new remote.new) }
{
    let lengths = Lengths {
        local: local.len(),
        tags: tags.len(),
        remote: remote.len(),
    };
    volume.check_sector(i, lengths)?;
    blank_checked(volume, i, local, tags, remote);
    Ok(())
}
