// The survey of a volume (document 01, change requests S-1 and S-2). The call takes any input and checks it for itself.
#![tactic(auto)]

ghost use Rattle.std.specs.Prelude.{◌≡◌, true, ◌<◌, ◌≤◌, length};
ghost use Rattle.mode.specs.Lent.{scheme_lent};
ghost use Rattle.mode.specs.Scheme.{is_key};
ghost use Rattle.mode.specs.Sealing.{key_from};
ghost use Rattle.answers.specs.Lent.{triple_of, volume_lent};
ghost use Rattle.history.specs.Volume.{mirror};
ghost use Rattle.images.specs.Lent.{Scratch};
ghost use Rattle.report.specs.Survey.{verdict_at, health, counted, surveyed, report_of, survey_outcome};
ghost use Rattle.survey.specs.Inner.{kind_of, verdict_by, counting, Empty, AllJudged};

mod lent;
mod maps;

use crate::lent::Images;
use crate::maps::{Kind, Maps};
use answers::{Found, Places, Refusal, Volume};
use images::Sector;
use mode::Keyed;
use report::Counts;

// Judges sector i: the volume's number and the sector's make the tweak. Judging refuses nothing but lost and clashing. The scratch slices
// stay three, as in `verdict::judge_in`.
#[tactic(auto, using(crate::proofs::Surveying::kind_whole, crate::proofs::Surveying::kind_doubtful, crate::proofs::Surveying::kind_lost, crate::proofs::Surveying::kind_clashing))]
fn judge_at(
    keyed: &Keyed,
    volume: u64,
    images: &Images,
    i: usize,
    plain: &mut [u8],
    sum: &mut [u8],
    scratch: &mut [u8],
) -> Kind
    requires { (i < images.now.count) × Scratch images.now.size plain.old sum.old scratch.old }
    ensures { result ≡ kind_of (verdict_by (scheme_lent keyed.now) volume images.now i) }
{
    let sector = Sector {
        images: images.places,
        size: images.size,
        number: i,
    };
    // std has no conversion of a usize to a u64 that cannot fail.
    let tweak = mode::tweak_at(volume, i as u64);
    match images::judge_part(keyed, tweak, &sector, plain, sum, scratch) {
        Ok(Found::Whole) => Kind::Whole,
        Ok(Found::Doubtful(_)) => Kind::Doubtful,
        Err(refusal) => match refusal {
            Refusal::Lost => Kind::Lost,
            _ => Kind::Clashing,
        },
    }
}

// One more sector counted.
fn count_verdict(c: Counts, kind: Kind) -> Counts
    requires { (c.whole < 65536) × (c.doubtful < 65536) × (c.clashing < 65536) × (c.lost < 65536) }
    ensures { result ≡ counting kind c }
{
    match kind {
        Kind::Whole => Counts {
            whole: c.whole + 1,
            ..c
        },
        Kind::Doubtful => Counts {
            doubtful: c.doubtful + 1,
            ..c
        },
        Kind::Clashing => Counts {
            clashing: c.clashing + 1,
            ..c
        },
        Kind::Lost => Counts {
            lost: c.lost + 1,
            ..c
        },
    }
}

// The health of n sectors.
#[tactic(auto, unfolding(report::specs::Survey::health))]
fn thousandths(whole: usize, n: usize) -> usize
    requires { (whole ≤ 65536) × (1 ≤ n) }
    ensures { result ≡ health whole n }
{
    whole * 1000 / n
}

// Judges each sector once, with a prepared key: counts it, and keeps its number in the map of its kind.
#[tactic(auto, using(crate::proofs::Surveying::loop_none))]
fn judge_all(keyed: &Keyed, volume: u64, images: &Images, maps: &mut Maps) -> Counts
    requires { Empty images.now.count maps.old }
    ensures { AllJudged (verdict_by (scheme_lent keyed.now) volume images.now) images.now.count result maps.new }
{
    let s = images.size;
    let mut plain = [0u8; 4096];
    let mut sum = [0u8; 4096];
    let mut scratch = [0u8; 4096];
    let mut counts = Counts {
        whole: 0,
        doubtful: 0,
        clashing: 0,
        lost: 0,
        health: 0,
    };
    for i in 0..images.count {
        let kind = judge_at(
            keyed,
            volume,
            images,
            i,
            &mut plain[..s],
            &mut sum[..s],
            &mut scratch[..s],
        );
        maps.mark(i, kind);
        counts = count_verdict(counts, kind);
    }
    counts.health = thousandths(counts.whole, images.count);
    counts
}

// The survey with a prepared key. Up to 65,536 sectors have a bit each in three maps.
#[tactic(auto, using(crate::proofs::Listing::judged_few))]
fn survey_in(keyed: &Keyed, volume: u64, images: &Images, list: &mut [u32]) -> Counts
    requires { images.now.count ≤ length list.old }
    ensures { surveyed (verdict_by (scheme_lent keyed.now) volume images.now) images.now.count list.old ≡ (counted result, list.new) }
{
    let mut maps = Maps {
        lost: [0; 1024],
        clashing: [0; 1024],
        doubtful: [0; 1024],
    };
    let counts = judge_all(keyed, volume, images, &mut maps);
    maps.list(images.count, list);
    counts
}

fn survey_checked(key: &[u8], volume: u64, images: &Images, list: &mut [u32]) -> Counts
    requires { (is_key (key_from key.now) ≡ true) × (images.now.count ≤ length list.old) }
    ensures { surveyed (verdict_at (mirror (key_from key.now) volume) images.now.size (triple_of images.now.places)) images.now.count list.old ≡ (counted result, list.new) }
{
    let table = aes::table();
    let prepared = mode::prepare(&table, key);
    survey_in(&prepared.lend(&table), volume, images, list)
}

// Counts the sectors by their verdict, and lists those that are not whole in repair order: the lost, the clashing, the doubtful, within a
// kind rising.
#[tactic(auto, using(crate::proofs::Checks::checked_lent, crate::proofs::Checks::checked_room, crate::proofs::Checks::checked_counted, crate::proofs::Checks::checked_refused))]
pub fn survey(volume: &Volume, images: Places, list: &mut [u32]) -> Result<Counts, Refusal>
    ensures { survey_outcome (triple_of images.entry) (volume_lent volume.now) list.old ≡ (report_of result, list.new) }
{
    volume.check_survey(images.lengths(), list.len())?;
    let lent = Images {
        places: images,
        size: volume.size,
        count: volume.count,
    };
    Ok(survey_checked(volume.key, volume.number, &lent, list))
}
