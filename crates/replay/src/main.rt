// Replays stored vectors through the sector's calls. Standard input has one vector a line, in hexadecimal, as make_vectors of
// tests/reference prints them: the call's number, then fields, each after its length in two bytes. The fields are the call's parameters
// in order, then the answer's number and each slice that the call writes, as it is after. The volume's number and the address are one
// field, of 16 bytes, or of 8 where the number is 0. A vector agrees where the call gives that answer and leaves every byte of those
// slices so.
#![tactic(auto)]

ghost use Rattle.std.specs.Prelude.{◌≡◌, ◌+◌, ◌≤◌, ◌<◌, ℕ, length, take, IfOk, OnErr};
ghost use Rattle.std.specs.Io.KnownBytes.{Consumes, IsAtEnd};

use answers::{Answer, Places};
use sector::Location;
use std::io::Read;
use std::{fmt, io};

// As long as a slice that a vector's call writes may be.
const MOST_SIZE: usize = 4096;

// As long as a vector may be.
const MOST_FRAME: usize = 65536;

// As long as the input may be.
const MOST_INPUT: usize = 1048576;

// The call that a vector is for.
#[derive(Clone, Copy, Debug, PartialEq, Eq)]
enum Kind {
    Seal,
    Judge,
    Open,
    Rebuild,
    Combine,
    Unknown,
}

impl Kind {
    const ALL: [Kind; 6] = [
        Kind::Seal,
        Kind::Judge,
        Kind::Open,
        Kind::Rebuild,
        Kind::Combine,
        Kind::Unknown,
    ];
}

impl fmt::Display for Kind {
    fn fmt<W: fmt::Write>(&self, f: &mut fmt::Formatter<W>) -> fmt::Result {
        match self {
            Kind::Seal => write!(f, "seal"),
            Kind::Judge => write!(f, "judge"),
            Kind::Open => write!(f, "open"),
            Kind::Rebuild => write!(f, "rebuild"),
            Kind::Combine => write!(f, "combine"),
            Kind::Unknown => write!(f, "unknown"),
        }
    }
}

// How many vectors of one kind agreed, and how many did not.
#[derive(Clone, Copy, Debug, PartialEq, Eq, Default)]
struct Tally {
    agreed: usize,
    differ: usize,
}

// ---- the fields of a frame

// The field that the bytes begin with, and what stands behind it; none where no whole field does.
fn first_field(bytes: &[u8]) -> Option<(&[u8], &[u8])> {
    let [high, low, rest @ ..] = bytes else {
        return None;
    };
    let size = usize::from(u16::from_be_bytes([*high, *low]));
    if rest.len() < size {
        return None;
    }
    Some(rest.split_at(size))
}

// Bytes as a number, high first: the last eight count.
fn number(bytes: &[u8]) -> u64 {
    bytes.iter().fold(0, |n, b| (n << 8) | u64::from(*b))
}

// Where a sector is: `at` has the volume's number before the address of eight bytes, or the address alone.
fn location<'a>(key: &'a [u8], at: &[u8]) -> Location<'a> {
    let (volume, address) = at.split_at(at.len().saturating_sub(8));
    Location {
        key,
        volume: number(volume),
        address: number(address),
    }
}

// The side's number, of which the low 32 bits count.
fn side(bytes: &[u8]) -> u32 {
    (number(bytes) % 0x1_0000_0000) as u32
}

// The fields of a frame that are not taken yet.
#[derive(Clone, Copy)]
struct Fields<'a> {
    rest: &'a [u8],
}

// The fields that come last where a call writes one slice: the slice before, the answer, and the slice after.
#[derive(Clone, Copy)]
struct Due<'a> {
    before: &'a [u8],
    answer: &'a [u8],
    after: &'a [u8],
}

impl<'a> Fields<'a> {
    // They stand behind the call's number.
    fn of(frame: &'a [u8]) -> Option<Fields<'a>> {
        let [_, rest @ ..] = frame else {
            return None;
        };
        Some(Fields { rest })
    }

    fn take(&mut self) -> Option<&'a [u8]> {
        let (field, rest) = first_field(self.rest)?;
        self.rest = rest;
        Some(field)
    }

    fn location(&mut self) -> Option<Location<'a>> {
        let key = self.take()?;
        Some(location(key, self.take()?))
    }

    // What opening and rebuilding take of one side: its number, its sector and the tag.
    fn opening(&mut self) -> Option<(u32, &'a [u8], &'a [u8])> {
        Some((side(self.take()?), self.take()?, self.take()?))
    }

    fn due(&mut self) -> Option<Due<'a>> {
        let due = Due {
            before: self.take()?,
            answer: self.take()?,
            after: self.take()?,
        };
        self.end()?;
        Some(due)
    }

    fn end(&self) -> Option<()> {
        self.rest.is_empty().then_some(())
    }
}

// ---- the calls

// A slice that a call writes, as it was before. None where it is too long.
fn filled<'a>(room: &'a mut [u8; MOST_SIZE], before: &[u8]) -> Option<&'a mut [u8]> {
    if MOST_SIZE < before.len() {
        return None;
    }
    let slice = &mut room[..before.len()];
    slice.copy_from_slice(before);
    Some(slice)
}

// Whether a field is an answer's number, and no more.
fn is_answer(field: &[u8], answer: impl Answer) -> bool {
    field == [answer.number()].as_slice()
}

// Whether a call agrees; none where the frame has other fields.
fn seal_agrees(frame: &[u8]) -> Option<bool> {
    let mut fields = Fields::of(frame)?;
    let at = fields.location()?;
    let plain = fields.take()?;
    let mut rooms = ([0; MOST_SIZE], [0; MOST_SIZE], [0; MOST_SIZE]);
    let local = filled(&mut rooms.0, fields.take()?)?;
    let remote = filled(&mut rooms.1, fields.take()?)?;
    let tag = filled(&mut rooms.2, fields.take()?)?;
    let answer = fields.take()?;
    let same = is_answer(answer, sector::seal(&at, plain, local, tag, remote));
    let local_after = fields.take()?;
    let remote_after = fields.take()?;
    let tag_after = fields.take()?;
    fields.end()?;
    Some(same && &*local == local_after && &*remote == remote_after && &*tag == tag_after)
}

// The same of a call that writes one slice.
fn agrees<F: FnOnce(&mut [u8]) -> u8>(due: Due, call: F) -> Option<bool>
    requires { F.IsAlwaysCallable call }
{
    let mut room = [0; MOST_SIZE];
    let out = filled(&mut room, due.before)?;
    let answer = call(out);
    Some(due.answer == [answer].as_slice() && &*out == due.after)
}

fn judge_agrees(frame: &[u8]) -> Option<bool> {
    let mut fields = Fields::of(frame)?;
    let at = fields.location()?;
    let places = Places {
        local: fields.take()?,
        tag: fields.take()?,
        remote: fields.take()?,
    };
    agrees(
        fields.due()?,
        |out: &mut [u8]| sector::judge(&at, places, out).number(),
    )
}

fn open_agrees(frame: &[u8]) -> Option<bool> {
    let mut fields = Fields::of(frame)?;
    let at = fields.location()?;
    let (side, x, tag) = fields.opening()?;
    agrees(
        fields.due()?,
        |out: &mut [u8]| sector::open(&at, side, x, tag, out).number(),
    )
}

// Rebuild has the fields of open: a closure of five arguments for the one name that differs is no plainer.
fn rebuild_agrees(frame: &[u8]) -> Option<bool> {
    let mut fields = Fields::of(frame)?;
    let at = fields.location()?;
    let (side, x, tag) = fields.opening()?;
    agrees(
        fields.due()?,
        |out: &mut [u8]| sector::rebuild(&at, side, x, tag, out).number(),
    )
}

fn combine_agrees(frame: &[u8]) -> Option<bool> {
    let mut fields = Fields::of(frame)?;
    let local = fields.take()?;
    let remote = fields.take()?;
    agrees(
        fields.due()?,
        |out: &mut [u8]| sector::combine(local, remote, out).number(),
    )
}

fn frame_agrees(kind: Kind, frame: &[u8]) -> bool {
    let agrees = match kind {
        Kind::Seal => seal_agrees(frame),
        Kind::Judge => judge_agrees(frame),
        Kind::Open => open_agrees(frame),
        Kind::Rebuild => rebuild_agrees(frame),
        Kind::Combine => combine_agrees(frame),
        Kind::Unknown => None,
    };
    agrees.unwrap_or(false)
}

// ---- lines

fn line_agrees(kind: Kind, line: &[u8]) -> bool {
    let size = line.len() / 2;
    if MOST_FRAME < size {
        return false;
    }
    let mut room = [0; MOST_FRAME];
    let frame = &mut room[..size];
    text::decode(line, frame) && frame_agrees(kind, frame)
}

fn kind_of(line: &[u8]) -> Kind {
    let [b'0', digit, ..] = line else {
        return Kind::Unknown;
    };
    match text::digit_value(*digit) {
        Some(0) => Kind::Seal,
        Some(1) => Kind::Judge,
        Some(2) => Kind::Open,
        Some(3) => Kind::Rebuild,
        Some(4) => Kind::Combine,
        _ => Kind::Unknown,
    }
}

// The start of the line after the one that ends at `end`.
fn line_after(input: &[u8], at: usize, end: usize) -> usize
    requires { (at ≤ end) × (end ≤ length input.now) × (at < length input.now) }
    ensures { (at < result) × (result ≤ length input.now) }
{
    if end < input.len() { end + 1 } else { end }
}

// ---- the report

// Counts a line if it is of this kind, and says where it differs. It is the n-th line.
fn counted(rt: &impl Print, tally: Tally, kind: Kind, line: &[u8], n: usize) -> io::Result<Tally>
    requires { tally.agreed + tally.differ < n }
    ensures { IfOk result (λ counted. counted.agreed + counted.differ ≤ n) }
{
    let mut counted = tally;
    if kind_of(line) == kind {
        if line_agrees(kind, line) {
            counted.agreed += 1;
        } else {
            println!(rt; "{kind} differs in line {n}")?;
            counted.differ += 1;
        }
    }
    Ok(counted)
}

// Replays the lines of one kind. A `for` over `split_inclusive` was tried: the check takes no invariant there, and the counts need one.
fn replay(rt: &impl Print, input: &[u8], kind: Kind) -> io::Result<Tally> {
    let mut tally = Tally::default();
    let mut at: usize = 0;
    let mut n: usize = 0;
    while at < input.len() {
        let end = text::line_end(input, at);
        n += 1;
        tally = counted(rt, tally, kind, &input[at..end], n)?;
        at = line_after(input, at, end);
    }
    Ok(tally)
}

fn report(rt: &impl Print, input: &[u8], kind: Kind) -> io::Result<()> {
    let Tally { agreed, differ } = replay(rt, input, kind)?;
    println!(rt; "{kind} {agreed} agreed {differ} differ")
}

fn report_all(rt: &impl Print, input: &[u8]) -> io::Result<()> {
    if input.len() == MOST_INPUT {
        println!(rt; "the input is too long")?;
    }
    for kind in Kind::ALL {
        report(rt, input, kind)?;
    }
    Ok(())
}

// Room for the whole input: of a function of its own, since no proof is found where so many zeros are seen.
fn room() -> [u8; MOST_INPUT]
    ensures { 1048576 ≡ length result }
{
    [0; MOST_INPUT]
}

// Reads until the room is full or the input ends, and gives how many bytes that is. std's `read_exact` says nothing of what it read before
// it failed.
fn read_full<R: Read>(reader: &mut R, room: &mut [u8]) -> io::Result<usize>
    ensures within { IfOk result (λ n. n ≤ length room.new) }
    ensures bytes { IfOk result (λ n. Consumes (R.remaining reader.old) (R.remaining reader.new) (take n room.new)) }
    ensures end { IfOk result (λ n. n < length room.new → IsAtEnd (R.remaining reader.new)) }
    ensures part { OnErr result ((n : ℕ) × (n ≤ length room.new)
        × Consumes (R.remaining reader.old) (R.remaining reader.new) (take n room.new)) }
{
    let mut size = 0;
    while size < room.len() {
        let n = reader.read(&mut room[size..])?;
        if n == 0 {
            break;
        }
        size += n;
    }
    Ok(size)
}

fn main(rt: HostRuntime) -> io::Result<()> {
    let mut room = room();
    let size = read_full(&mut rt.reader(), &mut room)?;
    report_all(&rt, &room[..size])
}
