// The calls on one sector of a volume with a prepared key: the three stages, the writing of all places and the mend.
//
// The three images stay three slices: which of them is written differs by call, and a struct of `&mut` images would owe a clause for
// each image that stays. So do the slices to work in: a struct of them would be taken apart again where a sector is judged. The
// tweak stands beside the key, since a survey has one key and a tweak a sector.
#![tactic(auto)]

ghost use Rattle.std.specs.Prelude.{◌≡◌, length};
ghost use Rattle.mode.specs.Sealing.{triple};
ghost use Rattle.answers.specs.Answers.{place_named, done_number, judged_number};
ghost use Rattle.history.specs.Volume as W;
ghost use Rattle.images.specs.Lent.{Within, Scratch};
ghost use Rattle.stages.specs.Inner.{all_places, one, seal_by, late_by};

use answers::{Found, Place, Places, Refusal};
use block::Block;
use images::Sector;
use mode::{Direction, Keyed};

// The first stage with a prepared key: p's local sector, if the sector is whole.
pub fn first_in(
    keyed: &Keyed,
    tweak: Block,
    p: &[u8],
    i: usize,
    local: &mut [u8],
    tags: &[u8],
    remote: &[u8],
    plain: &mut [u8],
    sum: &mut [u8],
    scratch: &mut [u8],
) -> Result<(), Refusal>
    requires { Within (length p.now) i (length local.old) (length tags.now) (length remote.now)
        × Scratch (length p.now) plain.old sum.old scratch.old }
    ensures { late_by keyed.now tweak (length p.now) i (triple local.old tags.now remote.now) (W.first p.now)
        ≡ (done_number result, triple local.new tags.now remote.now) }
{
    let images = Places {
        local: &local[..],
        tag: tags,
        remote,
    };
    let sector = Sector {
        images,
        size: p.len(),
        number: i,
    };
    match images::judge_part(keyed, tweak, &sector, plain, sum, scratch) {
        Ok(Found::Whole) => {
            let g = mode::tag_block(keyed, tweak, p);
            images::write_side(&keyed.pads, Direction::SealLocal, g, p, i, local);
            Ok(())
        }
        Ok(Found::Doubtful(_)) => Err(Refusal::StageOrder),
        Err(_) => Err(Refusal::StageOrder),
    }
}

// The second stage with a prepared key: p's tag, if p fits the local place.
#[tactic(auto, using(crate::proofs::Stages::second_fits, crate::proofs::Stages::second_fails))]
pub fn second_in(
    keyed: &Keyed,
    tweak: Block,
    p: &[u8],
    i: usize,
    local: &[u8],
    tags: &mut [u8],
    remote: &[u8],
    scratch: &mut [u8],
) -> Result<(), Refusal>
    requires { Within (length p.now) i (length local.now) (length tags.old) (length remote.now) × (length scratch.old ≡ length p.now) }
    ensures { late_by keyed.now tweak (length p.now) i (triple local.now tags.old remote.now) (W.second p.now)
        ≡ (done_number result, triple local.now tags.new remote.now) }
{
    let g = mode::tag_block(keyed, tweak, p);
    if images::fits_local(&keyed.pads, g, p, i, local, scratch) {
        images::write_tag(g, i, tags);
        return Ok(());
    }
    Err(Refusal::StageOrder)
}

// The third stage with a prepared key: p's remote sector, if p fits the local place and the tag.
#[tactic(auto, using(crate::proofs::Stages::third_fails_local, crate::proofs::Stages::third_fails_tag))]
pub fn third_in(
    keyed: &Keyed,
    tweak: Block,
    p: &[u8],
    i: usize,
    local: &[u8],
    tags: &[u8],
    remote: &mut [u8],
    scratch: &mut [u8],
) -> Result<(), Refusal>
    requires { Within (length p.now) i (length local.now) (length tags.now) (length remote.old) × (length scratch.old ≡ length p.now) }
    ensures { late_by keyed.now tweak (length p.now) i (triple local.now tags.now remote.old) (W.third p.now)
        ≡ (done_number result, triple local.now tags.now remote.new) }
{
    let g = mode::tag_block(keyed, tweak, p);
    if images::fits_local(&keyed.pads, g, p, i, local, scratch) && images::fits_tag(g, i, tags) {
        images::write_side(&keyed.pads, Direction::SealRemote, g, p, i, remote);
        return Ok(());
    }
    Err(Refusal::StageOrder)
}

// Writes the three places of sector i as p seals.
#[tactic(auto, using(crate::proofs::Writes::all_written))]
pub fn write_all(
    keyed: &Keyed,
    tweak: Block,
    p: &[u8],
    i: usize,
    local: &mut [u8],
    tags: &mut [u8],
    remote: &mut [u8],
)
    requires { Within (length p.now) i (length local.old) (length tags.old) (length remote.old) }
    ensures { triple local.new tags.new remote.new ≡ seal_by keyed.now tweak i p.now all_places (triple local.old tags.old remote.old) }
{
    let g = mode::tag_block(keyed, tweak, p);
    images::write_side(&keyed.pads, Direction::SealLocal, g, p, i, local);
    images::write_tag(g, i, tags);
    images::write_side(&keyed.pads, Direction::SealRemote, g, p, i, remote);
}

// Writes one place of sector i as p seals.
#[tactic(auto, using(crate::proofs::Writes::local_written, crate::proofs::Writes::tag_written, crate::proofs::Writes::remote_written))]
fn write_place(
    keyed: &Keyed,
    tweak: Block,
    place: Place,
    p: &[u8],
    i: usize,
    local: &mut [u8],
    tags: &mut [u8],
    remote: &mut [u8],
)
    requires { Within (length p.now) i (length local.old) (length tags.old) (length remote.old) }
    ensures { triple local.new tags.new remote.new
        ≡ seal_by keyed.now tweak i p.now (one (place_named place)) (triple local.old tags.old remote.old) }
{
    let g = mode::tag_block(keyed, tweak, p);
    match place {
        Place::Local => images::write_side(&keyed.pads, Direction::SealLocal, g, p, i, local),
        Place::Tag => images::write_tag(g, i, tags),
        Place::Remote => images::write_side(&keyed.pads, Direction::SealRemote, g, p, i, remote),
    }
}

// The mend with a prepared key: the doubtful place as the one plaintext seals.
#[tactic(auto, using(crate::proofs::Mends::mend_doubtful))]
pub fn mend_in(
    keyed: &Keyed,
    tweak: Block,
    s: usize,
    i: usize,
    local: &mut [u8],
    tags: &mut [u8],
    remote: &mut [u8],
    plain: &mut [u8],
    sum: &mut [u8],
    scratch: &mut [u8],
) -> Result<Found, Refusal>
    requires { Within s i (length local.old) (length tags.old) (length remote.old) × Scratch s plain.old sum.old scratch.old }
    ensures { late_by keyed.now tweak s i (triple local.old tags.old remote.old) W.mend
        ≡ (judged_number result, triple local.new tags.new remote.new) }
{
    let images = Places {
        local: &local[..],
        tag: &tags[..],
        remote: &remote[..],
    };
    let sector = Sector {
        images,
        size: s,
        number: i,
    };
    let found = images::judge_part(keyed, tweak, &sector, plain, sum, scratch)?;
    if let Found::Doubtful(place) = found {
        write_place(keyed, tweak, place, &plain[..], i, local, tags, remote);
    }
    Ok(found)
}
