// The C interface: what C links as libmirror.a, by these names. Each function calls that of the same name of the crate `mirror`, and promises
// what that one does, in the same words (tests/check_header compares them).
// Functions that are alike stay apart, and none takes a struct: C calls each by its name, with its parameters in this order.
#![tactic(auto)]

ghost use Rattle.std.specs.Prelude.{◌≡◌};
ghost use Rattle.mode.specs.Sealing.{key_from, triple};
ghost use Rattle.answers.specs.Rules.{args, volume_of};
ghost use Rattle.sector.specs.Calls.{seal_call, judge_call, open_call, rebuild_call, combine_call};
ghost use Rattle.history.specs.Volume.{mirror};
ghost use Rattle.history.specs.Volume as W;
ghost use Rattle.map.specs.Map.{start_outcome, count_outcome};
ghost use Rattle.suspects.specs.Marks.{map_outcome, map_read_outcome, map_survey_outcome};
ghost use Rattle.writes.specs.Write.{write_outcome};
ghost use Rattle.mirror.specs.Survey.{survey_result};
ghost use Rattle.mirror.specs.Version.{release};

#[unsafe(no_mangle)]
pub extern "C" fn mirror_version() -> u32
    ensures { result ≡ release 0 8 0 }
{
    mirror::mirror_version()
}

#[unsafe(no_mangle)]
pub extern "C" fn mirror_seal(
    key: &[u8],
    volume: u64,
    address: u64,
    plain: &[u8],
    local: &mut [u8],
    tag: &mut [u8],
    remote: &mut [u8],
) -> u32
    ensures { seal_call (key_from key.now) volume address plain.now (triple local.old tag.old remote.old) ≡ (result, triple local.new tag.new remote.new) }
{
    mirror::mirror_seal(key, volume, address, plain, local, tag, remote)
}

#[unsafe(no_mangle)]
pub extern "C" fn mirror_judge(
    key: &[u8],
    volume: u64,
    address: u64,
    local: &[u8],
    tag: &[u8],
    remote: &[u8],
    out: &mut [u8],
) -> u32
    ensures { judge_call (key_from key.now) volume address (triple local.now tag.now remote.now) out.old ≡ (result, out.new) }
{
    mirror::mirror_judge(key, volume, address, local, tag, remote, out)
}

#[unsafe(no_mangle)]
pub extern "C" fn mirror_open(
    key: &[u8],
    volume: u64,
    address: u64,
    side: u32,
    sector: &[u8],
    tag: &[u8],
    out: &mut [u8],
) -> u32
    ensures { open_call (key_from key.now) volume address side sector.now tag.now out.old ≡ (result, out.new) }
{
    mirror::mirror_open(key, volume, address, side, sector, tag, out)
}

#[unsafe(no_mangle)]
pub extern "C" fn mirror_rebuild(
    key: &[u8],
    volume: u64,
    address: u64,
    side: u32,
    sector: &[u8],
    tag: &[u8],
    out: &mut [u8],
) -> u32
    ensures { rebuild_call (key_from key.now) volume address side sector.now tag.now out.old ≡ (result, out.new) }
{
    mirror::mirror_rebuild(key, volume, address, side, sector, tag, out)
}

#[unsafe(no_mangle)]
pub extern "C" fn mirror_combine(local: &[u8], remote: &[u8], out: &mut [u8]) -> u32
    ensures { combine_call local.now remote.now out.old ≡ (result, out.new) }
{
    mirror::mirror_combine(local, remote, out)
}

#[unsafe(no_mangle)]
pub extern "C" fn mirror_blank(
    key: &[u8],
    volume: u64,
    s: usize,
    n: usize,
    number: usize,
    local: &mut [u8],
    tags: &mut [u8],
    remote: &mut [u8],
    map: &mut [u64],
) -> u32
    ensures { map_outcome mirror (triple local.old tags.old remote.old) (args (key_from key.now) volume s n number) W.blank map.old ≡ (result, (triple local.new tags.new remote.new, map.new)) }
{
    mirror::mirror_blank(key, volume, s, n, number, local, tags, remote, map)
}

#[unsafe(no_mangle)]
pub extern "C" fn mirror_first_stage(
    key: &[u8],
    volume: u64,
    s: usize,
    n: usize,
    number: usize,
    plain: &[u8],
    local: &mut [u8],
    tags: &[u8],
    remote: &[u8],
    map: &mut [u64],
) -> u32
    ensures { map_outcome mirror (triple local.old tags.now remote.now) (args (key_from key.now) volume s n number) (W.first plain.now) map.old ≡ (result, (triple local.new tags.now remote.now, map.new)) }
{
    mirror::mirror_first_stage(key, volume, s, n, number, plain, local, tags, remote, map)
}

#[unsafe(no_mangle)]
pub extern "C" fn mirror_second_stage(
    key: &[u8],
    volume: u64,
    s: usize,
    n: usize,
    number: usize,
    plain: &[u8],
    local: &[u8],
    tags: &mut [u8],
    remote: &[u8],
    map: &mut [u64],
) -> u32
    ensures { map_outcome mirror (triple local.now tags.old remote.now) (args (key_from key.now) volume s n number) (W.second plain.now) map.old ≡ (result, (triple local.now tags.new remote.now, map.new)) }
{
    mirror::mirror_second_stage(key, volume, s, n, number, plain, local, tags, remote, map)
}

#[unsafe(no_mangle)]
pub extern "C" fn mirror_third_stage(
    key: &[u8],
    volume: u64,
    s: usize,
    n: usize,
    number: usize,
    plain: &[u8],
    local: &[u8],
    tags: &[u8],
    remote: &mut [u8],
    map: &mut [u64],
) -> u32
    ensures { map_outcome mirror (triple local.now tags.now remote.old) (args (key_from key.now) volume s n number) (W.third plain.now) map.old ≡ (result, (triple local.now tags.now remote.new, map.new)) }
{
    mirror::mirror_third_stage(key, volume, s, n, number, plain, local, tags, remote, map)
}

#[unsafe(no_mangle)]
pub extern "C" fn mirror_read(
    key: &[u8],
    volume: u64,
    s: usize,
    n: usize,
    number: usize,
    local: &[u8],
    tags: &[u8],
    remote: &[u8],
    map: &mut [u64],
    out: &mut [u8],
) -> u32
    ensures { map_read_outcome mirror (triple local.now tags.now remote.now) (args (key_from key.now) volume s n number) out.old map.old ≡ (result, (out.new, map.new)) }
{
    mirror::mirror_read(key, volume, s, n, number, local, tags, remote, map, out)
}

#[unsafe(no_mangle)]
pub extern "C" fn mirror_mend(
    key: &[u8],
    volume: u64,
    s: usize,
    n: usize,
    number: usize,
    local: &mut [u8],
    tags: &mut [u8],
    remote: &mut [u8],
    map: &mut [u64],
) -> u32
    ensures { map_outcome mirror (triple local.old tags.old remote.old) (args (key_from key.now) volume s n number) W.mend map.old ≡ (result, (triple local.new tags.new remote.new, map.new)) }
{
    mirror::mirror_mend(key, volume, s, n, number, local, tags, remote, map)
}

#[unsafe(no_mangle)]
pub extern "C" fn mirror_write(
    key: &[u8],
    volume: u64,
    s: usize,
    n: usize,
    number: usize,
    plain: &[u8],
    local: &mut [u8],
    tags: &mut [u8],
    remote: &mut [u8],
    map: &mut [u64],
) -> u32
    ensures { write_outcome mirror (triple local.old tags.old remote.old) (args (key_from key.now) volume s n number) plain.now map.old ≡ (result, (triple local.new tags.new remote.new, map.new)) }
{
    mirror::mirror_write(key, volume, s, n, number, plain, local, tags, remote, map)
}

#[unsafe(no_mangle)]
pub extern "C" fn mirror_survey(
    key: &[u8],
    volume: u64,
    s: usize,
    n: usize,
    local: &[u8],
    tags: &[u8],
    remote: &[u8],
    map: &[u64],
    list: &mut [u32],
    counts: &mut [u64; 5],
) -> u32
    ensures { survey_result (map_survey_outcome (triple local.now tags.now remote.now) (volume_of (key_from key.now) volume s n) map.now list.old) counts.old ≡ (result, (counts.new, list.new)) }
{
    mirror::mirror_survey(key, volume, s, n, local, tags, remote, map, list, counts)
}

#[unsafe(no_mangle)]
pub extern "C" fn mirror_start_map(n: usize, map: &mut [u64]) -> u32
    ensures { start_outcome n map.old ≡ (result, map.new) }
{
    mirror::mirror_start_map(n, map)
}

#[unsafe(no_mangle)]
pub extern "C" fn mirror_count_suspects(n: usize, map: &[u64], count: &mut u64) -> u32
    ensures { count_outcome n map.now count.old ≡ (result, count.new) }
{
    mirror::mirror_count_suspects(n, map, count)
}
