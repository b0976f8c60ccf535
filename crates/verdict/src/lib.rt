// Judging a sector and opening a side with a prepared key (document 01, "The verdict"), which the calls on a sector and on a volume share.
// An inner crate: its functions may require what their callers have checked.
#![tactic(auto)]

ghost use Rattle.std.specs.Prelude.{◌≡◌, length};
ghost use Rattle.block.specs.Bytes.{same};
ghost use Rattle.block.specs.Value.{value};
ghost use Rattle.mode.specs.Lent.{scheme_lent};
ghost use Rattle.answers.specs.Answers.{judged_number};
ghost use Rattle.answers.specs.Lent.{triple_of};
ghost use Rattle.answers.specs.Passing.{Sizes};
ghost use Rattle.verdict.specs.Judging.{side_named, opening_of, judged_by, SumFits, SumFails};
ghost use Rattle.verdict.specs.Verdict.{side_of, open_side};

mod part;

use answers::{Found, Place, Refusal, Side};
use block::Block;
use mode::{Direction, Keyed};
pub use part::Part;

// The side with this number, 0 or 1, of a number that `answers::check_open` has let pass.
pub fn side_numbered(number: u32) -> Side
    ensures { side_named result ≡ side_of number }
{
    if number == 0 {
        Side::Local
    } else {
        Side::Remote
    }
}

// How a side is opened. It is no method, since `Side` is another crate's.
fn opening(side: Side) -> Direction
    ensures { result ≡ opening_of (side_named side) }
{
    match side {
        Side::Local => Direction::OpenLocal,
        Side::Remote => Direction::OpenRemote,
    }
}

// Opens the side x with the tag into `out`, and says whether what it gives has that tag.
#[tactic(auto, using(block::proofs::Lists::bytes_all, crate::proofs::Sides::side_opened))]
pub fn opens(keyed: &Keyed, tweak: Block, side: Side, x: &[u8], tag: &[u8], out: &mut [u8]) -> bool
    requires { Sizes (length x.now) (length out.old) (length out.old) (length tag.now) }
    ensures opened { out.new ≡ open_side (scheme_lent keyed.now) (side_named side) tag.now x.now }
    ensures has_tag { result ≡ same tag.now ((scheme_lent keyed.now).sealed (value tweak) out.new).tag }
{
    let expected = Block::load(tag, 0);
    mode::transform(&keyed.pads, opening(side), expected, x, out);
    mode::tag_block(keyed, tweak, &out[..]) == expected
}

// Copies a slice to one of its length. By `copy_from_slice` the archive needs memmove, and it is to need memcpy and memset alone.
fn copy(from: &[u8], to: &mut [u8])
    requires { length to.old ≡ length from.now }
    ensures { to.new ≡ from.now }
{
    for i in 0..from.len() {
        to[i] = from[i];
    }
}

// Judges where local ⊕ remote, in `sum`, fits both sides and not the tag: it is the one plaintext unless a side and the tag give another.
#[tactic(auto, using(block::proofs::Lists::length_xor, crate::proofs::Judging::clash_left, crate::proofs::Judging::clash_right))]
fn judge_fitting_sum(
    keyed: &Keyed,
    tweak: Block,
    part: &Part,
    out: &mut [u8],
    sum: &[u8],
    scratch: &mut [u8],
) -> Result<Found, Refusal>
    requires { (length out.old ≡ length part.now.places.local.now) × (length scratch.old ≡ length part.now.places.local.now)
        × SumFits (scheme_lent keyed.now) (value tweak) (triple_of part.now.places) sum.now }
    ensures { judged_by (scheme_lent keyed.now) (value tweak) (triple_of part.now.places) out.old ≡ (judged_number result, out.new) }
{
    part.has_bytes();
    let places = part.places;
    let from_local = opens(keyed, tweak, Side::Local, places.local, places.tag, scratch);
    if from_local {
        return Err(Refusal::Clashing);
    }
    let from_remote = opens(
        keyed,
        tweak,
        Side::Remote,
        places.remote,
        places.tag,
        scratch,
    );
    if from_remote {
        return Err(Refusal::Clashing);
    }
    copy(sum, out);
    Ok(Found::Doubtful(Place::Tag))
}

// Judges where local ⊕ remote does not fit the sides: only what a side and the tag give can fit two places.
fn judge_failing_sum(
    keyed: &Keyed,
    tweak: Block,
    part: &Part,
    out: &mut [u8],
    left: &mut [u8],
    right: &mut [u8],
) -> Result<Found, Refusal>
    requires { (length out.old ≡ length part.now.places.local.now) × (length left.old ≡ length part.now.places.local.now)
        × (length right.old ≡ length part.now.places.local.now)
        × SumFails (scheme_lent keyed.now) (value tweak) (triple_of part.now.places) }
    ensures { judged_by (scheme_lent keyed.now) (value tweak) (triple_of part.now.places) out.old ≡ (judged_number result, out.new) }
{
    part.has_bytes();
    let places = part.places;
    let from_local = opens(keyed, tweak, Side::Local, places.local, places.tag, left);
    let from_remote = opens(keyed, tweak, Side::Remote, places.remote, places.tag, right);
    match (from_local, from_remote) {
        (true, true) => Err(Refusal::Clashing),
        (true, false) => {
            copy(&left[..], out);
            Ok(Found::Doubtful(Place::Remote))
        }
        (false, true) => {
            copy(&right[..], out);
            Ok(Found::Doubtful(Place::Local))
        }
        (false, false) => Err(Refusal::Lost),
    }
}

// Judges in two scratch slices. The sum local ⊕ remote comes first: where it fits all three places nothing else can fit two, so a whole
// sector costs one hash and one pad a block.
// The two scratch slices stay parameters: a struct of two `&mut` is no plainer, since it would be taken apart here again.
#[tactic(auto, using(crate::proofs::Judging::sum_fits_remote, crate::proofs::Judging::sum_misses_tag, crate::proofs::Judging::sum_fails))]
pub fn judge_in(
    keyed: &Keyed,
    tweak: Block,
    part: &Part,
    out: &mut [u8],
    sum: &mut [u8],
    scratch: &mut [u8],
) -> Result<Found, Refusal>
    requires { (length out.old ≡ length part.now.places.local.now) × (length sum.old ≡ length part.now.places.local.now)
        × (length scratch.old ≡ length part.now.places.local.now) }
    ensures { judged_by (scheme_lent keyed.now) (value tweak) (triple_of part.now.places) out.old ≡ (judged_number result, out.new) }
{
    part.has_bytes();
    let places = part.places;
    block::xor_bytes(places.local, places.remote, sum);
    let tag = mode::tag_block(keyed, tweak, &sum[..]);
    mode::transform(&keyed.pads, Direction::SealRemote, tag, &sum[..], scratch);
    if places.remote == &scratch[..] {
        if tag == Block::load(places.tag, 0) {
            copy(&sum[..], out);
            return Ok(Found::Whole);
        }
        return judge_fitting_sum(keyed, tweak, part, out, &sum[..], scratch);
    }
    judge_failing_sum(keyed, tweak, part, out, sum, scratch)
}
