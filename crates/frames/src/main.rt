// Answers frames: reads standard input a buffer at a time and prints one line for each of its lines. Memory is fixed, whatever the input
// is.
// What a turn prints and does next is `input::turn`; here is only the reading and the writing.
#![tactic(auto)]

ghost use Rattle.std.specs.Prelude.{Some, ◌≤◌, length, take, IfOk, OnOk, OnErr, IfErr};
ghost use Rattle.std.specs.Io.KnownBytes.{Appends};
ghost use Rattle.input.specs.Turn.{read_of};
ghost use Rattle.frames.specs.Answered.{AnswersAll, AnswersUntil, Fails, Gives, IsWrite, TurnsTo, WritesPart, text_of};

use input::{BUFFER, HELD, Next, PRINTED};
use std::io::{ErrorKind, Read, Write};
use std::process::ExitCode;
use std::{fmt, io};

// Nothing says that an input ends, and a proved loop has to. No run comes to this many turns.
const MOST_TURNS: u64 = u64::MAX;

// Why the program stops before the end of its input, at last after so many turns.
#[derive(Clone, Copy, Debug, PartialEq, Eq)]
enum Failure {
    Read,
    Write(ErrorKind),
    TooManyReads(u64),
}

// Only a write gives an error: that a read fails is told by `read` and by the turn.
impl From<io::Error> for Failure {
    ghost from_gives = { λ error failure. IsWrite failure };

    fn from(error: io::Error) -> Self {
        Failure::Write(error.kind())
    }
}

impl fmt::Display for Failure {
    ghost output = { λ failure. Some (text_of failure) };

    fn fmt<W: fmt::Write>(&self, f: &mut fmt::Formatter<W>) -> fmt::Result {
        match self {
            Failure::Read => write!(f, "cannot read"),
            Failure::Write(_) => write!(f, "cannot write"),
            Failure::TooManyReads(_) => write!(f, "stopped after too many reads"),
        }
    }
}

// How many bytes a read gave, and −1 where it failed, as `input::turn` takes it.
fn read<R: Read>(reader: &mut R, buffer: &mut [u8; BUFFER]) -> isize
    ensures { Gives (R.remaining reader.old) (R.remaining reader.new) (read_of result buffer.new) }
{
    match reader.read(buffer) {
        // `as`, since std has no conversion to isize that cannot fail; a read gives at most the length of its buffer.
        Ok(n) => n as isize,
        Err(_) => -1,
    }
}

// Writes a text. std's `write_all` says nothing of what it wrote before it failed.
fn write_all<W: Write>(writer: &mut W, text: &[u8]) -> io::Result<()>
    ensures all { OnOk result (Appends (W.contents writer.old) (W.contents writer.new) text.now) }
    ensures part { OnErr result (WritesPart (W.contents writer.old) (W.contents writer.new) text.now) }
{
    let mut written = 0;
    while written < text.len() {
        let n = writer.write(&text[written..])?;
        if n == 0 {
            return Err(io::Error::from(ErrorKind::WriteZero));
        }
        written += n;
    }
    Ok(())
}

// Prints the first n bytes of a text, at once: who sent a line may wait for its answer. They are told by their number, as a turn tells them.
fn print<W: Write>(writer: &mut W, text: &[u8], n: usize) -> io::Result<()>
    requires { n ≤ length text.now }
    ensures all { OnOk result (Appends (W.contents writer.old) (W.contents writer.new) (take n text.now)) }
    ensures part { OnErr result (WritesPart (W.contents writer.old) (W.contents writer.new) (take n text.now)) }
{
    write_all(writer, &text[..n])?;
    writer.flush()
}

// One read, the turn that it gives, and one write: how many bytes of a line are held then, and none at the end of the input.
fn step<R: Read, W: Write>(
    reader: &mut R,
    writer: &mut W,
    buffer: &mut [u8; BUFFER],
    line: &mut [u8; HELD],
    used: usize,
    out: &mut [u8; PRINTED],
) -> Result<Option<usize>, Failure>
    ensures ok { IfOk result (λ held. TurnsTo held (take used line.old) line.new
        (R.remaining reader.old) (R.remaining reader.new) (W.contents writer.old) (W.contents writer.new)) }
    ensures err { IfErr result (λ failure. Fails failure (take used line.old)
        (R.remaining reader.old) (R.remaining reader.new) (W.contents writer.old) (W.contents writer.new)) }
{
    let got = read(reader, buffer);
    let turn = input::turn(got, buffer, line, used, out);
    print(writer, out, turn.printed)?;
    match turn.next {
        Next::ReadOn => Ok(Some(turn.used)),
        Next::Ended => Ok(None),
        Next::Failed => Err(Failure::Read),
    }
}

// Takes turns as long as the program reads on. Only 2^64 − 1 turns stop one that would.
fn run<R: Read, W: Write>(
    reader: &mut R,
    writer: &mut W,
    buffer: &mut [u8; BUFFER],
    line: &mut [u8; HELD],
    out: &mut [u8; PRINTED],
) -> Result<(), Failure>
    ensures ok { OnOk result (AnswersAll
        (R.remaining reader.old) (R.remaining reader.new) (W.contents writer.old) (W.contents writer.new)) }
    ensures err { IfErr result (λ failure. AnswersUntil failure
        (R.remaining reader.old) (R.remaining reader.new) (W.contents writer.old) (W.contents writer.new)) }
{
    let mut used = 0;
    let mut turns: u64 = 0;
    for turn in 0..MOST_TURNS {
        let Some(held) = step(reader, writer, buffer, line, used, out)? else {
            return Ok(());
        };
        used = held;
        turns = turn + 1;
    }
    Err(Failure::TooManyReads(turns))
}

// Answers all of a reader's lines.
fn answer<R: Read, W: Write>(reader: &mut R, writer: &mut W) -> Result<(), Failure>
    ensures ok { OnOk result (AnswersAll
        (R.remaining reader.old) (R.remaining reader.new) (W.contents writer.old) (W.contents writer.new)) }
    ensures err { IfErr result (λ failure. AnswersUntil failure
        (R.remaining reader.old) (R.remaining reader.new) (W.contents writer.old) (W.contents writer.new)) }
{
    run(
        reader,
        writer,
        &mut [0; BUFFER],
        &mut [0; HELD],
        &mut [0; PRINTED],
    )
}

fn main(rt: HostRuntime) -> ExitCode {
    let mut reader = rt.reader();
    let mut writer = io::writer(&rt);
    match answer(&mut reader, &mut writer) {
        Ok(()) => ExitCode::SUCCESS,
        // Nobody reads the answers any more: no fault, and the status is that of a tool which the signal SIGPIPE ends.
        Err(Failure::Write(ErrorKind::BrokenPipe)) => ExitCode::from(141),
        Err(failure) => {
            let _ = eprintln!(rt; "frames: {failure}");
            ExitCode::FAILURE
        }
    }
}
