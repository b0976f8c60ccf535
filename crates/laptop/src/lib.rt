// The write in one call, for the laptop product (change request S-6). It sees the promises of the calls with a map, and none of their code:
// a read, a mend and the three stages, one after the other on one sector. It takes any input and checks it for itself, by its read.
//
// Its contract is what these calls leave. No contract says which calls are made on the way, or in which order, and a power cut is only safe
// with these: that is read here, where no other call stands, and tests/check_order sees it in the stores of the compiled library. Images that
// a call writes stay three slices, as in `mapped`.
#![tactic(auto)]

ghost use Rattle.std.specs.Prelude.{◌≡◌, min};
ghost use Rattle.mode.specs.Sealing.{triple};
ghost use Rattle.answers.specs.Answers.{judged_number};
ghost use Rattle.answers.specs.Lent.{triple_of, args_of};
ghost use Rattle.history.specs.Volume.{mirror};
ghost use Rattle.history.specs.Volume as W;
ghost use Rattle.suspects.specs.Marks.{map_outcome};
ghost use Rattle.writes.specs.Write.{stages, calls_leave, write_outcome};
ghost use Rattle.laptop.specs.Inner.{call_of};

use answers::{Found, Places, Refusal, Volume};

// The calls that follow the read. An enum and no closure: an edit puts one call in another's place and leaves the shape, and `call_of`
// says by it what a call leaves.
#[derive(Clone, Copy, Debug, PartialEq, Eq)]
enum Step {
    Mend,
    First,
    Second,
    Third,
}

// The length of an output that is refused, or not, as one of `room` bytes: those longer than every sector are all refused alike.
// A function of its own, so that an edit can turn its promise and its body together.
fn output_length(room: usize) -> usize
    ensures { result ≡ min room 4097 }
{
    room.min(4097)
}

// Judges sector i by a read with an output of `room` bytes, which nobody looks at.
fn judge_sector(
    volume: &Volume,
    i: usize,
    room: usize,
    images: Places,
    map: &mut [u64],
) -> Result<Found, Refusal>
    ensures { map_outcome mirror (triple_of images.entry) (args_of volume.now i) (W.read room) map.old ≡ (judged_number result, (triple_of images.entry, map.new)) }
{
    let mut out = [0u8; 4097];
    let long = output_length(room);
    mapped::read(volume, i, images, map, &mut out[..long])
}

// Makes one of the calls that follow the read. Its answer is not looked at: after a read that is not refused none of them refuses, which is
// proved of the definition (`WriteMeans`).
fn make_call(
    step: Step,
    volume: &Volume,
    i: usize,
    p: &[u8],
    local: &mut [u8],
    tags: &mut [u8],
    remote: &mut [u8],
    map: &mut [u64],
)
    ensures { (map_outcome mirror (triple local.old tags.old remote.old) (args_of volume.now i) (call_of step p.now) map.old).1 ≡ (triple local.new tags.new remote.new, map.new) }
{
    match step {
        Step::Mend => {
            let _ = mapped::mend(volume, i, local, tags, remote, map);
        }
        Step::First => {
            let _ = mapped::first_stage(volume, i, p, local, &tags[..], &remote[..], map);
        }
        Step::Second => {
            let _ = mapped::second_stage(volume, i, p, &local[..], tags, &remote[..], map);
        }
        Step::Third => {
            let _ = mapped::third_stage(volume, i, p, &local[..], &tags[..], remote, map);
        }
    }
}

// The three stages.
fn run_stages(
    volume: &Volume,
    i: usize,
    p: &[u8],
    local: &mut [u8],
    tags: &mut [u8],
    remote: &mut [u8],
    map: &mut [u64],
)
    ensures { calls_leave mirror (args_of volume.now i) (stages p.now) (triple local.old tags.old remote.old, map.old) ≡ (triple local.new tags.new remote.new, map.new) }
{
    make_call(Step::First, volume, i, p, local, tags, remote, map);
    make_call(Step::Second, volume, i, p, local, tags, remote, map);
    make_call(Step::Third, volume, i, p, local, tags, remote, map);
}

// Judges sector i, mends it if doubtful, then runs the three stages with p. Refuses as a read does, with p's length for its output's; else
// gives the verdict that it found.
pub fn write(
    volume: &Volume,
    i: usize,
    p: &[u8],
    local: &mut [u8],
    tags: &mut [u8],
    remote: &mut [u8],
    map: &mut [u64],
) -> Result<Found, Refusal>
    ensures { write_outcome mirror (triple local.old tags.old remote.old) (args_of volume.now i) p.now map.old ≡ (judged_number result, (triple local.new tags.new remote.new, map.new)) }
{
    let images = Places {
        local: &local[..],
        tag: &tags[..],
        remote: &remote[..],
    };
    let found = judge_sector(volume, i, p.len(), images, map)?;
    if let Found::Doubtful(_) = found {
        make_call(Step::Mend, volume, i, p, local, tags, remote, map);
    }
    run_stages(volume, i, p, local, tags, remote, map);
    Ok(found)
}
