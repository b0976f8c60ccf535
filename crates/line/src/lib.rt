// What the program `frames` prints for one line. `print_line` is what the crate above uses: it asks for room for what it prints, since a
// line that found none would have no answer.
#![tactic(auto)]

ghost use Rattle.std.specs.Prelude.{◌≡◌, [], ◌+◌, ◌*◌, ◌≤◌, ◌<◌, length, replicate};
ghost use Rattle.std.proofs.Math.Option.{none};
ghost use Rattle.answers.specs.Answers.{refusal_number, done_option};
ghost use Rattle.answers.specs.Rules.{first_of};
ghost use Rattle.frame.specs.Frame.{called, answered, frame_answer};
ghost use Rattle.frame.specs.Inner.{Sectors};
ghost use Rattle.line.specs.Line.{line_rules, printed, shown, print_line};
ghost use Rattle.line.specs.Line as L;
ghost use Rattle.line.specs.Inner.{Prints};

use answers::{Answer, Found, Refusal};

// The longest line: the longest frame's digits.
pub const LONGEST: usize = 2 * frame::LONGEST;

// ---- hexadecimal

#[tactic(auto, unfolding(crate::specs::Line::digit))]
fn digit(v: u8) -> u8
    requires { v < 16 }
    ensures { result ≡ L.digit v }
{
    if v <= 9 { v + b'0' } else { v - 10 + b'a' }
}

// Two digits a byte, in lower case.
#[tactic(auto, using(crate::proofs::Digits::encodings))]
fn encode(bytes: &[u8], out: &mut [u8])
    requires { length out.old ≡ 2 * length bytes.now }
    ensures { out.new ≡ L.encode bytes.now }
{
    for i in 0..bytes.len() {
        out[2 * i] = digit(bytes[i] / 16);
        out[2 * i + 1] = digit(bytes[i] % 16);
    }
}

// Prints a number, a plaintext and a line feed, and gives how many bytes that is.
fn show(number: u8, plain: &[u8], out: &mut [u8]) -> usize
    requires { 2 * length plain.now + 3 ≤ length out.old }
    ensures { Prints (printed number plain.now) out.old out.new result (2 * length plain.now + 3) }
{
    let end = 2 * plain.len() + 2;
    out[0] = digit(number / 16);
    out[1] = digit(number % 16);
    encode(plain, &mut out[2..end]);
    out[end] = b'\n';
    end + 1
}

// Prints only a refusal.
fn refuse(refusal: Refusal, out: &mut [u8]) -> usize
    requires { 3 ≤ length out.old }
    ensures { Prints (printed (refusal_number refusal) []) out.old out.new result 3 }
{
    show(u8::from(refusal), b"", out)
}

// ---- a frame

// Answers a frame with sectors as long as `plain`, and prints the answer. A refusal comes without a plaintext.
fn print_answer(frame: &[u8], plain: &mut [u8], out: &mut [u8]) -> usize
    requires { Sectors (length plain.old) frame.now × (2 * length plain.old + 3 ≤ length out.old) }
    ensures { Prints (shown (answered (called frame.now plain.old))) out.old out.new result (2 * length plain.old + 3) }
{
    let answer = frame::call_frame(frame, plain);
    let n = frame::plaintext_length(answer, plain.len());
    show(answer.number(), &plain[..n], out)
}

// Makes the room for the plaintext.
fn print_sectors(frame: &[u8], s: usize, out: &mut [u8]) -> usize
    requires { Sectors s frame.now × (s ≤ 4096) × (2 * s + 3 ≤ length out.old) }
    ensures { Prints (shown (answered (called frame.now (replicate s 0)))) out.old out.new result (2 * s + 3) }
{
    let mut plain = [0; frame::MOST_SIZE];
    print_answer(frame, &mut plain[..s], out)
}

fn print_frame(frame: &[u8], out: &mut [u8]) -> usize
    requires { (1 ≤ length frame.now) × (length frame.now + 2 ≤ length out.old) }
    ensures { Prints (shown (frame_answer frame.now)) out.old out.new result (length frame.now + 2) }
{
    if let Err(refusal) = frame::check_frame(frame) {
        return refuse(refusal, out);
    }
    let s = (frame.len() - frame::beside(frame)) / 2;
    print_sectors(frame, s, out)
}

// ---- a line

// A line of n bytes.
fn check_length(n: usize) -> Result<(), Refusal>
    ensures { first_of (line_rules n) ≡ done_option result }
{
    if n == 0 || LONGEST < n || n % 2 == 1 {
        return Err(Refusal::NoFrame);
    }
    Ok(())
}

// A line whose length is right is decoded into `frame`.
fn print_decoded(line: &[u8], frame: &mut [u8], out: &mut [u8]) -> usize
    requires { (first_of (line_rules (length line.now)) ≡ none) × (length line.now ≡ 2 * length frame.old)
        × (1 ≤ length frame.old) × (length line.now + 3 ≤ length out.old) }
    ensures { Prints (print_line line.now) out.old out.new result (length line.now + 3) }
{
    if text::decode(line, frame) {
        print_frame(frame, out)
    } else {
        refuse(Refusal::NoFrame, out)
    }
}

// Prints what the program prints for a line, whatever bytes it has, and gives how many bytes that is.
pub fn print_line(line: &[u8], out: &mut [u8]) -> usize
    requires { length line.now + 3 ≤ length out.old }
    ensures { Prints (print_line line.now) out.old out.new result (length line.now + 3) }
{
    if let Err(refusal) = check_length(line.len()) {
        return refuse(refusal, out);
    }
    let mut frame = [0; frame::LONGEST];
    print_decoded(line, &mut frame[..line.len() / 2], out)
}
