// The program `frames` between its reads and its writes: an input fed one buffer at a time as lines, and what a turn does with what a read
// gave.
#![tactic(auto)]

ghost use Rattle.std.specs.Prelude.{◌≡◌, ◌++◌, ◌+◌, ◌*◌, ◌-◌, ◌≤◌, min, length, take, drop, replicate};
ghost use Rattle.line.specs.Line.{print_line};
ghost use Rattle.line.specs.Inner.{Prints};
ghost use Rattle.input.specs.Lines.{held, fed, finished};
ghost use Rattle.input.specs.Turn.{turn_call};
ghost use Rattle.input.specs.Inner.{Feeds};

// How many bytes a read may give.
pub const BUFFER: usize = 65536;

// How many bytes of a line are held: one more than the longest line has, which is enough to refuse it.
pub const HELD: usize = line::LONGEST + 1;

// Room for what a buffer prints: for each of its bytes at most three, and for each byte held before it one.
pub const PRINTED: usize = 3 * BUFFER + HELD;

// ---- an input fed one buffer at a time

// How many bytes of a line that has not ended are held, and how many there are to print.
#[derive(Clone, Copy, Debug, PartialEq, Eq)]
struct Fed {
    used: usize,
    printed: usize,
}

// Puts a stretch of a line behind its first `used` bytes, as far as there is room, and gives how many bytes are held then. Where there is
// nothing to put it calls no copy, which would cost an input of empty lines at each of them.
fn hold(part: &[u8], line: &mut [u8], used: usize) -> usize
    requires { (length line.old ≡ 16499) × (used ≤ 16499) }
    ensures { (take result line.new ≡ held (take used line.old ++ part.now)) × (result ≤ 16499) × (result ≤ used + length part.now) }
{
    let n = part.len().min(HELD - used);
    if n == 0 {
        return used;
    }
    let end = used + n;
    line[used..end].copy_from_slice(&part[..n]);
    end
}

// Prints a held line behind the first `printed` bytes of `out`, and gives how many bytes are printed then.
fn print_held(line: &[u8], used: usize, out: &mut [u8], printed: usize) -> usize
    requires { (used ≤ length line.now) × (printed + used + 3 ≤ length out.old) }
    ensures { (out.new ≡ take printed out.old ++ (print_line (take used line.now) ++ drop result out.old))
        × (result ≡ printed + length (print_line (take used line.now))) × (result ≤ printed + used + 3) }
{
    printed + line::print_line(&line[..used], &mut out[printed..])
}

// Feeds a whole buffer. No more than 16,499 bytes of a line are held, which are enough to refuse it. A `for` over `split_inclusive` was
// tried: std has no lemma on what its pieces are, and the proof did not close.
fn feed_buffer(buffer: &[u8], line: &mut [u8], used: usize, out: &mut [u8]) -> Fed
    requires { (length line.old ≡ 16499) × (used ≤ 16499) × (used + 3 * length buffer.now ≤ length out.old) }
    ensures { (take result.used line.new ≡ (fed (take used line.old) buffer.now).rest)
        × Prints (fed (take used line.old) buffer.now).printed out.old out.new result.printed (length out.old) × (result.used ≤ 16499) }
{
    let mut at: usize = 0;
    let mut size = used;
    let mut printed: usize = 0;
    let mut end = text::line_end(buffer, 0);
    while end < buffer.len() {
        let n = hold(&buffer[at..end], line, size);
        printed = print_held(&line[..], n, out, printed);
        size = 0;
        at = end + 1;
        end = text::line_end(buffer, at);
    }
    let last = hold(&buffer[at..end], line, size);
    Fed {
        used: last,
        printed,
    }
}

// Puts zeros behind the first n bytes of the store for a line.
fn clear(line: &mut [u8], n: usize)
    requires { n ≤ length line.old }
    ensures { line.new ≡ take n line.old ++ replicate (length line.old - n) 0 }
{
    line[n..].fill(0);
}

// Feeds the first n bytes of a buffer, and clears the store behind what is held.
fn feed_front(buffer: &[u8], n: usize, line: &mut [u8], used: usize, out: &mut [u8]) -> Fed
    requires { (n ≤ length buffer.now) × (length line.old ≡ 16499) × (used ≤ 16499) × (used + 3 * n ≤ length out.old) }
    ensures { Feeds (fed (take used line.old) (take n buffer.now)) result.used line.new result.printed out.old out.new (length out.old) }
{
    let fed = feed_buffer(&buffer[..n], line, used, out);
    clear(line, fed.used);
    fed
}

// Feeds the first n bytes of a buffer, or all where n is more. The first `used` bytes of `line`, or all, are those of a line that has not
// ended. What is to be printed comes to the front of `out`: at most three bytes for each byte fed, and one for each held before.
fn feed(
    buffer: &[u8; BUFFER],
    n: usize,
    line: &mut [u8; HELD],
    used: usize,
    out: &mut [u8; PRINTED],
) -> Fed
    ensures { Feeds (fed (take used line.old) (take n buffer.now)) result.used line.new result.printed out.old out.new 213107 }
{
    feed_front(buffer, n.min(BUFFER), line, used.min(HELD), out)
}

// Prints the line that the end of the input ends, if it is not empty: the first `used` bytes of `line`, or all.
fn finish(line: &[u8; HELD], used: usize, out: &mut [u8; PRINTED]) -> usize
    ensures { Prints (finished (take used line.now)) out.old out.new result 16502 }
{
    let size = used.min(HELD);
    if size == 0 {
        return 0;
    }
    print_held(line, size, out, 0)
}

// ---- a turn of the program

// What the program does after a turn.
#[derive(Clone, Copy, Debug, PartialEq, Eq)]
pub enum Next {
    ReadOn,
    Ended,
    Failed,
}

// What a turn leaves: how many bytes of a line that has not ended are held, how many there are to print, and what comes next.
#[derive(Clone, Copy, Debug, PartialEq, Eq)]
pub struct Outcome {
    pub used: usize,
    pub printed: usize,
    pub next: Next,
}

// One turn: `got` is what a read into `buffer` answered, and the first `used` bytes of `line` are held. What is to be printed comes to the
// front of `out`. A read that fails is no end of the input: what is held of a line then stays without an answer. A number with a sign, and
// `used` beside `line`, are what `turn_call` and `TurnsWhole` speak of: any number, and any `used`.
pub fn turn(
    got: isize,
    buffer: &[u8; BUFFER],
    line: &mut [u8; HELD],
    used: usize,
    out: &mut [u8; PRINTED],
) -> Outcome
    ensures { (turn_call got buffer.now line.old used out.old ≡ (result, line.new, out.new)) × (result.printed ≤ 213107) }
{
    match usize::try_from(got) {
        Ok(0) => {
            let printed = finish(line, used, out);
            clear(line, 0);
            Outcome {
                used: 0,
                printed,
                next: Next::Ended,
            }
        }
        Ok(n) => {
            let fed = feed(buffer, n, line, used, out);
            Outcome {
                used: fed.used,
                printed: fed.printed,
                next: Next::ReadOn,
            }
        }
        Err(_) => {
            clear(line, 0);
            Outcome {
                used: 0,
                printed: 0,
                next: Next::Failed,
            }
        }
    }
}
