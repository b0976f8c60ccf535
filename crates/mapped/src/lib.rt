// The calls on a volume with a map of suspects (change request S-4). Each checks 1, 14, 2, 8, 13 and 9 (a survey 11), is then the call of
// the same name without a map, and marks the bit of its sector by the answer. It takes any input and checks it for itself.
//
// Five calls check and mark in the same lines: a closure around them would capture the images, of which each call writes others. Images of
// a call that writes are three slices: a struct of `&mut` would owe a clause for each image that stays.
#![tactic(auto)]

ghost use Rattle.std.specs.Prelude.{◌≡◌, ◌/◌, ◌<◌, length};
ghost use Rattle.mode.specs.Sealing.{triple};
ghost use Rattle.answers.specs.Answers.{refusal_number, done_number, judged_number};
ghost use Rattle.answers.specs.Lent.{triple_of, volume_lent, args_of};
ghost use Rattle.history.specs.Volume.{mirror};
ghost use Rattle.history.specs.Volume as W;
ghost use Rattle.report.specs.Survey.{report_of};
ghost use Rattle.suspects.specs.Marks.{lost_or_clashing, marked, map_outcome, map_read_outcome, map_survey_outcome};
ghost use Rattle.mapped.specs.Inner.{done_mark, judged_mark};

use answers::{Found, Lengths, Places, Refusal, Volume};
use report::Counts;
use suspects::Mark;

// ---- what an answer does to the bit

// Of a call that only writes: `finished` is its mark when it finishes.
#[tactic(auto, using(crate::proofs::Answered::done_finished, crate::proofs::Answered::done_refused))]
fn mark_done(answer: Result<(), Refusal>, finished: Mark) -> Mark
    ensures { result ≡ done_mark finished (done_number answer) }
{
    match answer {
        Ok(()) => finished,
        Err(_) => Mark::Keeps,
    }
}

// Of a read or a mend that is refused. Two arms of one value, so that an edit can turn each.
#[tactic(auto, using(crate::proofs::Answered::lost_sets, crate::proofs::Answered::clashing_sets, crate::proofs::Answered::others_keep))]
fn mark_refused(refusal: Refusal) -> Mark
    ensures { result ≡ lost_or_clashing (refusal_number refusal) }
{
    match refusal {
        Refusal::Lost => Mark::Sets,
        Refusal::Clashing => Mark::Sets,
        _ => Mark::Keeps,
    }
}

// Of a read or a mend: `doubtful` is its mark if it finds the sector doubtful.
#[tactic(auto, using(crate::proofs::Answered::judged_whole, crate::proofs::Answered::judged_doubtful))]
fn mark_judged(answer: Result<Found, Refusal>, doubtful: Mark) -> Mark
    ensures { result ≡ judged_mark doubtful (judged_number answer) }
{
    match answer {
        Ok(Found::Whole) => Mark::Clears,
        Ok(Found::Doubtful(_)) => doubtful,
        Err(refusal) => mark_refused(refusal),
    }
}

// Marks the bit of sector i.
fn put_mark(mark: Mark, i: usize, map: &mut [u64])
    requires { i / 64 < length map.old }
    ensures { map.new ≡ marked mark i map.old }
{
    match mark {
        Mark::Clears => bits::put_bit(map, i, false),
        Mark::Sets => bits::put_bit(map, i, true),
        Mark::Keeps => {}
    }
}

// ---- the calls

// Seals zeros into the three places of sector i, and clears its bit.
#[tactic(auto, using(crate::proofs::Public::bit_within, crate::proofs::Public::call_refused))]
pub fn blank(
    volume: &Volume,
    i: usize,
    local: &mut [u8],
    tags: &mut [u8],
    remote: &mut [u8],
    map: &mut [u64],
) -> Result<(), Refusal>
    ensures { map_outcome mirror (triple local.old tags.old remote.old) (args_of volume.now i) W.blank map.old ≡ (done_number result, (triple local.new tags.new remote.new, map.new)) }
{
    let lengths = Lengths {
        local: local.len(),
        tags: tags.len(),
        remote: remote.len(),
    };
    volume.check_sector_and_map(i, lengths, map.len())?;
    let blanked = volume::blank(volume, i, local, tags, remote);
    put_mark(mark_done(blanked, Mark::Clears), i, map);
    blanked
}

// Writes p's local sector to sector i, if it is whole, and sets its bit.
#[tactic(auto, using(crate::proofs::Public::bit_within, crate::proofs::Public::call_refused))]
pub fn first_stage(
    volume: &Volume,
    i: usize,
    p: &[u8],
    local: &mut [u8],
    tags: &[u8],
    remote: &[u8],
    map: &mut [u64],
) -> Result<(), Refusal>
    ensures { map_outcome mirror (triple local.old tags.now remote.now) (args_of volume.now i) (W.first p.now) map.old ≡ (done_number result, (triple local.new tags.now remote.now, map.new)) }
{
    let lengths = Lengths {
        local: local.len(),
        tags: tags.len(),
        remote: remote.len(),
    };
    volume.check_sector_and_map(i, lengths, map.len())?;
    let first = volume::first_stage(volume, i, p, local, tags, remote);
    put_mark(mark_done(first, Mark::Sets), i, map);
    first
}

// Writes p's tag to sector i, if p fits the local place, and sets its bit.
#[tactic(auto, using(crate::proofs::Public::bit_within, crate::proofs::Public::call_refused))]
pub fn second_stage(
    volume: &Volume,
    i: usize,
    p: &[u8],
    local: &[u8],
    tags: &mut [u8],
    remote: &[u8],
    map: &mut [u64],
) -> Result<(), Refusal>
    ensures { map_outcome mirror (triple local.now tags.old remote.now) (args_of volume.now i) (W.second p.now) map.old ≡ (done_number result, (triple local.now tags.new remote.now, map.new)) }
{
    let lengths = Lengths {
        local: local.len(),
        tags: tags.len(),
        remote: remote.len(),
    };
    volume.check_sector_and_map(i, lengths, map.len())?;
    let second = volume::second_stage(volume, i, p, local, tags, remote);
    put_mark(mark_done(second, Mark::Sets), i, map);
    second
}

// Writes p's remote sector to sector i, if p fits the local place and the tag, and clears its bit.
#[tactic(auto, using(crate::proofs::Public::bit_within, crate::proofs::Public::call_refused))]
pub fn third_stage(
    volume: &Volume,
    i: usize,
    p: &[u8],
    local: &[u8],
    tags: &[u8],
    remote: &mut [u8],
    map: &mut [u64],
) -> Result<(), Refusal>
    ensures { map_outcome mirror (triple local.now tags.now remote.old) (args_of volume.now i) (W.third p.now) map.old ≡ (done_number result, (triple local.now tags.now remote.new, map.new)) }
{
    let lengths = Lengths {
        local: local.len(),
        tags: tags.len(),
        remote: remote.len(),
    };
    volume.check_sector_and_map(i, lengths, map.len())?;
    let third = volume::third_stage(volume, i, p, local, tags, remote);
    put_mark(mark_done(third, Mark::Clears), i, map);
    third
}

// Gives sector i's plaintext with whole or the doubtful place. Whole clears its bit; doubtful, lost and clashing set it.
#[tactic(auto, using(crate::proofs::Public::read_within, crate::proofs::Public::read_refused))]
pub fn read(
    volume: &Volume,
    i: usize,
    images: Places,
    map: &mut [u64],
    out: &mut [u8],
) -> Result<Found, Refusal>
    ensures { map_read_outcome mirror (triple_of images.entry) (args_of volume.now i) out.old map.old ≡ (judged_number result, (out.new, map.new)) }
{
    volume.check_sector_and_map(i, images.lengths(), map.len())?;
    let judged = volume::read(volume, i, images, out);
    put_mark(mark_judged(judged, Mark::Sets), i, map);
    judged
}

// Writes sector i's doubtful place as the one plaintext seals, gives the verdict found, and clears its bit; lost and clashing set it.
#[tactic(auto, using(crate::proofs::Public::bit_within, crate::proofs::Public::call_refused))]
pub fn mend(
    volume: &Volume,
    i: usize,
    local: &mut [u8],
    tags: &mut [u8],
    remote: &mut [u8],
    map: &mut [u64],
) -> Result<Found, Refusal>
    ensures { map_outcome mirror (triple local.old tags.old remote.old) (args_of volume.now i) W.mend map.old ≡ (judged_number result, (triple local.new tags.new remote.new, map.new)) }
{
    let lengths = Lengths {
        local: local.len(),
        tags: tags.len(),
        remote: remote.len(),
    };
    volume.check_sector_and_map(i, lengths, map.len())?;
    let mended = volume::mend(volume, i, local, tags, remote);
    put_mark(mark_judged(mended, Mark::Clears), i, map);
    mended
}

// Judges every sector, and leaves the map alone.
#[tactic(auto, using(crate::proofs::Public::survey_done, crate::proofs::Public::survey_refused))]
pub fn survey(
    volume: &Volume,
    images: Places,
    map: &[u64],
    list: &mut [u32],
) -> Result<Counts, Refusal>
    ensures { map_survey_outcome (triple_of images.entry) (volume_lent volume.now) map.now list.old ≡ (report_of result, list.new) }
{
    volume.check_survey_and_map(images.lengths(), map.len(), list.len())?;
    survey::survey(volume, images, list)
}
