// The calls of the C interface, which `mirror_c` exports. Each function's contract is that of the call that it names, with the answer as
// document 01's number: 0 for whole or done, 81, 82 or 83 (hexadecimal) for doubt at local, tag or remote, or the refusal. C calls a
// function by its name, with its parameters in this order: so functions that are alike stay apart, and none takes a struct.
#![tactic(auto)]

ghost use Rattle.std.specs.Prelude.{◌≡◌};
ghost use Rattle.mode.specs.Sealing.{key_from, triple};
ghost use Rattle.answers.specs.Rules.{args, volume_of};
ghost use Rattle.sector.specs.Calls.{seal_call, judge_call, open_call, rebuild_call, combine_call};
ghost use Rattle.history.specs.Volume.{mirror};
ghost use Rattle.history.specs.Volume as W;
ghost use Rattle.map.specs.Map.{start_outcome, count_outcome};
ghost use Rattle.suspects.specs.Marks.{map_outcome, map_read_outcome, map_survey_outcome};
ghost use Rattle.writes.specs.Write.{write_outcome};
ghost use Rattle.mirror.specs.Survey.{numbers, survey_result};
ghost use Rattle.mirror.specs.Version.{release};

use answers::{Answer, Places, Volume};
use report::Counts;
use sector::Location;

// The release that the library is of, 0.8.0, so that a program can tell whether it is the one that the program was compiled for.
pub fn mirror_version() -> u32
    ensures { result ≡ release 0 8 0 }
{
    8000
}

// An answer as the number that C reads.
fn number_of<A: Answer>(answer: A) -> u32
    ensures { result ≡ A.number answer }
{
    u32::from(answer.number())
}

pub fn mirror_seal(
    key: &[u8],
    volume: u64,
    address: u64,
    plain: &[u8],
    local: &mut [u8],
    tag: &mut [u8],
    remote: &mut [u8],
) -> u32
    ensures { seal_call (key_from key.now) volume address plain.now (triple local.old tag.old remote.old) ≡ (result, triple local.new tag.new remote.new) }
{
    let at = Location {
        key,
        volume,
        address,
    };
    number_of(sector::seal(&at, plain, local, tag, remote))
}

pub fn mirror_judge(
    key: &[u8],
    volume: u64,
    address: u64,
    local: &[u8],
    tag: &[u8],
    remote: &[u8],
    out: &mut [u8],
) -> u32
    ensures { judge_call (key_from key.now) volume address (triple local.now tag.now remote.now) out.old ≡ (result, out.new) }
{
    let at = Location {
        key,
        volume,
        address,
    };
    let places = Places { local, tag, remote };
    number_of(sector::judge(&at, places, out))
}

pub fn mirror_open(
    key: &[u8],
    volume: u64,
    address: u64,
    side: u32,
    sector: &[u8],
    tag: &[u8],
    out: &mut [u8],
) -> u32
    ensures { open_call (key_from key.now) volume address side sector.now tag.now out.old ≡ (result, out.new) }
{
    let at = Location {
        key,
        volume,
        address,
    };
    number_of(sector::open(&at, side, sector, tag, out))
}

pub fn mirror_rebuild(
    key: &[u8],
    volume: u64,
    address: u64,
    side: u32,
    sector: &[u8],
    tag: &[u8],
    out: &mut [u8],
) -> u32
    ensures { rebuild_call (key_from key.now) volume address side sector.now tag.now out.old ≡ (result, out.new) }
{
    let at = Location {
        key,
        volume,
        address,
    };
    number_of(sector::rebuild(&at, side, sector, tag, out))
}

pub fn mirror_combine(local: &[u8], remote: &[u8], out: &mut [u8]) -> u32
    ensures { combine_call local.now remote.now out.old ≡ (result, out.new) }
{
    number_of(sector::combine(local, remote, out))
}

pub fn mirror_blank(
    key: &[u8],
    volume: u64,
    s: usize,
    n: usize,
    number: usize,
    local: &mut [u8],
    tags: &mut [u8],
    remote: &mut [u8],
    map: &mut [u64],
) -> u32
    ensures { map_outcome mirror (triple local.old tags.old remote.old) (args (key_from key.now) volume s n number) W.blank map.old ≡ (result, (triple local.new tags.new remote.new, map.new)) }
{
    let lent = Volume {
        key,
        number: volume,
        size: s,
        count: n,
    };
    number_of(mapped::blank(&lent, number, local, tags, remote, map))
}

pub fn mirror_first_stage(
    key: &[u8],
    volume: u64,
    s: usize,
    n: usize,
    number: usize,
    plain: &[u8],
    local: &mut [u8],
    tags: &[u8],
    remote: &[u8],
    map: &mut [u64],
) -> u32
    ensures { map_outcome mirror (triple local.old tags.now remote.now) (args (key_from key.now) volume s n number) (W.first plain.now) map.old ≡ (result, (triple local.new tags.now remote.now, map.new)) }
{
    let lent = Volume {
        key,
        number: volume,
        size: s,
        count: n,
    };
    number_of(mapped::first_stage(&lent, number, plain, local, tags, remote, map))
}

pub fn mirror_second_stage(
    key: &[u8],
    volume: u64,
    s: usize,
    n: usize,
    number: usize,
    plain: &[u8],
    local: &[u8],
    tags: &mut [u8],
    remote: &[u8],
    map: &mut [u64],
) -> u32
    ensures { map_outcome mirror (triple local.now tags.old remote.now) (args (key_from key.now) volume s n number) (W.second plain.now) map.old ≡ (result, (triple local.now tags.new remote.now, map.new)) }
{
    let lent = Volume {
        key,
        number: volume,
        size: s,
        count: n,
    };
    number_of(mapped::second_stage(&lent, number, plain, local, tags, remote, map))
}

pub fn mirror_third_stage(
    key: &[u8],
    volume: u64,
    s: usize,
    n: usize,
    number: usize,
    plain: &[u8],
    local: &[u8],
    tags: &[u8],
    remote: &mut [u8],
    map: &mut [u64],
) -> u32
    ensures { map_outcome mirror (triple local.now tags.now remote.old) (args (key_from key.now) volume s n number) (W.third plain.now) map.old ≡ (result, (triple local.now tags.now remote.new, map.new)) }
{
    let lent = Volume {
        key,
        number: volume,
        size: s,
        count: n,
    };
    number_of(mapped::third_stage(&lent, number, plain, local, tags, remote, map))
}

pub fn mirror_read(
    key: &[u8],
    volume: u64,
    s: usize,
    n: usize,
    number: usize,
    local: &[u8],
    tags: &[u8],
    remote: &[u8],
    map: &mut [u64],
    out: &mut [u8],
) -> u32
    ensures { map_read_outcome mirror (triple local.now tags.now remote.now) (args (key_from key.now) volume s n number) out.old map.old ≡ (result, (out.new, map.new)) }
{
    let lent = Volume {
        key,
        number: volume,
        size: s,
        count: n,
    };
    let images = Places {
        local,
        tag: tags,
        remote,
    };
    number_of(mapped::read(&lent, number, images, map, out))
}

pub fn mirror_mend(
    key: &[u8],
    volume: u64,
    s: usize,
    n: usize,
    number: usize,
    local: &mut [u8],
    tags: &mut [u8],
    remote: &mut [u8],
    map: &mut [u64],
) -> u32
    ensures { map_outcome mirror (triple local.old tags.old remote.old) (args (key_from key.now) volume s n number) W.mend map.old ≡ (result, (triple local.new tags.new remote.new, map.new)) }
{
    let lent = Volume {
        key,
        number: volume,
        size: s,
        count: n,
    };
    number_of(mapped::mend(&lent, number, local, tags, remote, map))
}

// The write in one call: what each of its calls wrote has to land before the next begins, or power must not go within it.
pub fn mirror_write(
    key: &[u8],
    volume: u64,
    s: usize,
    n: usize,
    number: usize,
    plain: &[u8],
    local: &mut [u8],
    tags: &mut [u8],
    remote: &mut [u8],
    map: &mut [u64],
) -> u32
    ensures { write_outcome mirror (triple local.old tags.old remote.old) (args (key_from key.now) volume s n number) plain.now map.old ≡ (result, (triple local.new tags.new remote.new, map.new)) }
{
    let lent = Volume {
        key,
        number: volume,
        size: s,
        count: n,
    };
    number_of(laptop::write(&lent, number, plain, local, tags, remote, map))
}

// No From, since neither type is this crate's; and std has no conversion of a usize to a u64 that cannot fail.
fn count_numbers(c: Counts) -> [u64; 5]
    ensures { result ≡ numbers c }
{
    [
        c.whole as u64,
        c.doubtful as u64,
        c.clashing as u64,
        c.lost as u64,
        c.health as u64,
    ]
}

// `counts` is given whole, doubtful, clashing, lost and the health; `list` is in repair order.
#[tactic(auto, using(crate::proofs::Numbers::survey_refused))]
pub fn mirror_survey(
    key: &[u8],
    volume: u64,
    s: usize,
    n: usize,
    local: &[u8],
    tags: &[u8],
    remote: &[u8],
    map: &[u64],
    list: &mut [u32],
    counts: &mut [u64; 5],
) -> u32
    ensures { survey_result (map_survey_outcome (triple local.now tags.now remote.now) (volume_of (key_from key.now) volume s n) map.now list.old) counts.old ≡ (result, (counts.new, list.new)) }
{
    let lent = Volume {
        key,
        number: volume,
        size: s,
        count: n,
    };
    let images = Places {
        local,
        tag: tags,
        remote,
    };
    match mapped::survey(&lent, images, map, list) {
        Ok(found) => {
            *counts = count_numbers(found);
            0
        }
        Err(refusal) => u32::from(u8::from(refusal)),
    }
}

// Sets the bits of all n sectors, and clears those past n.
pub fn mirror_start_map(n: usize, map: &mut [u64]) -> u32
    ensures { start_outcome n map.old ≡ (result, map.new) }
{
    number_of(map::start(n, map))
}

// `count` is given the number of suspects among n sectors.
pub fn mirror_count_suspects(n: usize, map: &[u64], count: &mut u64) -> u32
    ensures { count_outcome n map.now count.old ≡ (result, count.new) }
{
    number_of(map::count_suspects(n, map, count))
}
