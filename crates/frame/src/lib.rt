// A frame of the program `frames`: what it refuses, and the call of `sector` that it asks for. The crate above decodes a line and prints
// the answer. What is lent to it may have a `requires`: a frame has a first byte, its kind, and is called once `check_frame` has passed it.
#![tactic(auto)]

ghost use Rattle.std.specs.Prelude.{◌≡◌, ◌++◌, ◌+◌, ◌*◌, ◌≤◌, eqb, length};
ghost use Rattle.answers.specs.Answers.{judged_number, done_option};
ghost use Rattle.answers.specs.Rules.{first_of};
ghost use Rattle.frame.specs.Frame.{kind, together, judged, combined, called, kind_rules, halves_rules};
ghost use Rattle.frame.specs.Frame as F;
ghost use Rattle.frame.specs.Inner.{Sectors, kind_numbered, plaintext_length};

use answers::{Found, Places, Refusal};
use sector::Location;

// The longest sector.
pub const MOST_SIZE: usize = 4096;

// What stands beside the two sectors of a frame 01: its kind, a key, an address and a tag.
const BESIDE_JUDGED: usize = 1 + 32 + 8 + 16;

// The longest frame: a frame 01 with the longest sectors.
pub const LONGEST: usize = BESIDE_JUDGED + 2 * MOST_SIZE;

// ---- refusals

// What a frame asks for, as its first byte says: 01 or 02.
#[derive(Clone, Copy, Debug, PartialEq, Eq)]
pub enum Kind {
    Judge,
    Combine,
}

impl TryFrom<u8> for Kind {
    type Error = Refusal;

    ghost try_from_gives = { λ byte result. result ≡ kind_numbered byte };

    fn try_from(byte: u8) -> Result<Kind, Refusal> {
        match byte {
            1 => Ok(Kind::Judge),
            2 => Ok(Kind::Combine),
            _ => Err(Refusal::NoFrame),
        }
    }
}

fn check_kind(frame: &[u8]) -> Result<(), Refusal>
    requires { 1 ≤ length frame.now }
    ensures { first_of (kind_rules frame.now) ≡ done_option result }
{
    let kind = Kind::try_from(frame[0])?;
    if kind == Kind::Judge && frame.len() < BESIDE_JUDGED {
        return Err(Refusal::NoFrame);
    }
    Ok(())
}

// Two sectors with n bytes together.
fn check_sectors(n: usize) -> Result<(), Refusal>
    ensures { first_of (halves_rules n) ≡ done_option result }
{
    if n % 2 == 1 {
        return Err(Refusal::OtherLength);
    }
    answers::check_size(n / 2)
}

// Whether a frame asks for Judge. `check_frame` refuses one of neither kind. A bool, since by a `Kind` a frame that has passed would still
// come with a case that never is.
fn is_judged(frame: &[u8]) -> bool
    requires { 1 ≤ length frame.now }
    ensures { result ≡ eqb (kind frame.now) 1 }
{
    Kind::try_from(frame[0]) == Ok(Kind::Judge)
}

// How many bytes stand beside the two sectors.
#[tactic(auto, unfolding(crate::specs::Frame::beside))]
pub fn beside(frame: &[u8]) -> usize
    requires { 1 ≤ length frame.now }
    ensures { result ≡ F.beside frame.now }
{
    if is_judged(frame) { BESIDE_JUDGED } else { 1 }
}

pub fn check_frame(frame: &[u8]) -> Result<(), Refusal>
    requires { 1 ≤ length frame.now }
    ensures { first_of (kind_rules frame.now ++ halves_rules (together frame.now)) ≡ done_option result }
{
    check_kind(frame)?;
    check_sectors(frame.len() - beside(frame))
}

// ---- the call

// Judges a frame 01, which has no volume's number, under 0: its parts are lent on, and the plaintext goes to `plain`.
fn judge_frame(frame: &[u8], plain: &mut [u8]) -> Result<Found, Refusal>
    requires { length frame.now ≡ 57 + 2 * length plain.old }
    ensures { judged frame.now plain.old ≡ (judged_number result, plain.new) }
{
    let at = Location {
        key: &frame[1..33],
        volume: 0,
        address: block::load_word(frame, 33),
    };
    let tag = 41 + plain.len();
    let remote = 57 + plain.len();
    let places = Places {
        local: &frame[41..tag],
        tag: &frame[tag..remote],
        remote: &frame[remote..],
    };
    sector::judge(&at, places, plain)
}

// Combines the sectors of a frame 02. Combined has the number of whole.
fn combine_frame(frame: &[u8], plain: &mut [u8]) -> Result<Found, Refusal>
    requires { length frame.now ≡ 1 + 2 * length plain.old }
    ensures { combined frame.now plain.old ≡ (judged_number result, plain.new) }
{
    let remote = 1 + plain.len();
    sector::combine(&frame[1..remote], &frame[remote..], plain)?;
    Ok(Found::Whole)
}

#[tactic(auto, unfolding(crate::specs::Frame::called, crate::specs::Frame::beside))]
pub fn call_frame(frame: &[u8], plain: &mut [u8]) -> Result<Found, Refusal>
    requires { Sectors (length plain.old) frame.now }
    ensures { called frame.now plain.old ≡ (judged_number result, plain.new) }
{
    if is_judged(frame) {
        judge_frame(frame, plain)
    } else {
        combine_frame(frame, plain)
    }
}

// How many bytes of plaintext come with the answer about a sector of s bytes.
pub fn plaintext_length(answer: Result<Found, Refusal>, s: usize) -> usize
    ensures { (result ≡ plaintext_length answer s) × (result ≤ s) }
{
    match answer {
        Ok(_) => s,
        Err(_) => 0,
    }
}
