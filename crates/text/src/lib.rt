// Text: hexadecimal digits, and lines.
#![tactic(auto)]

ghost use Rattle.std.specs.Prelude.{◌≡◌, true, ◌&&◌, cond, if◌then◌else◌, ◌+◌, ◌*◌, ◌<◌, eqb, length, drop};
ghost use Rattle.text.specs.Digits.{is_digit, digit_value, all_digits};
ghost use Rattle.text.specs.Digits as D;
ghost use Rattle.text.specs.Lines.{stretch};

// ---- hexadecimal

// The value of a digit in either case.
#[tactic(auto, using(crate::proofs::Digits::digit_values))]
pub fn digit_value(c: u8) -> Option<u8>
    ensures { result ≡ (if is_digit c then Some (digit_value c) else None) }
{
    match c {
        b'0'..=b'9' => Some(c - b'0'),
        b'A'..=b'F' => Some(c - b'A' + 10),
        b'a'..=b'f' => Some(c - b'a' + 10),
        _ => None,
    }
}

fn all_digits(line: &[u8]) -> bool
    ensures { result ≡ all_digits line.now }
{
    line.iter().all(|c| digit_value(*c).is_some())
}

// The value of a byte that is known to be a digit, without a branch: a frame has up to 16,498 digits.
#[tactic(auto, using(crate::proofs::Digits::known_values))]
fn known_value(c: u8) -> u8
    requires { is_digit c ≡ true }
    ensures value { result ≡ digit_value c }
    ensures small { result < 16 }
{
    c % 16 + 9 * (c / 64)
}

#[tactic(auto, using(crate::proofs::Digits::decodings))]
fn decode_digits(line: &[u8], bytes: &mut [u8])
    requires { (length line.now ≡ 2 * length bytes.old) × (all_digits line.now ≡ true) }
    ensures { bytes.new ≡ D.decode line.now }
{
    for i in 0..bytes.len() {
        let high = known_value(line[2 * i]);
        let low = known_value(line[2 * i + 1]);
        bytes[i] = high * 16 + low;
    }
}

// Decodes a line of digits. False, and nothing is written, where `bytes` is not half as long as the line or a byte is no digit. By hand: no
// clause of the kit's `hex` says that a refused decoding wrote nothing. A bool: both callers only ask whether.
pub fn decode(line: &[u8], bytes: &mut [u8]) -> bool
    ensures { (result ≡ (eqb (length line.now) (2 * length bytes.old) && all_digits line.now))
        × (bytes.new ≡ cond result (D.decode line.now) bytes.old) }
{
    let fits = line.len() % 2 == 0 && line.len() / 2 == bytes.len() && all_digits(line);
    if fits {
        decode_digits(line, bytes);
    }
    fits
}

// ---- lines

// The next line feed from `at` on, or the buffer's end; `at` itself where it lies beyond the end. The whole buffer and `at`, since both
// callers go on from a place in it. A `for`: by `position` of the rest an input of empty lines takes a fifth more time.
pub fn line_end(buffer: &[u8], at: usize) -> usize
    ensures { result ≡ at + stretch (drop at buffer.now) }
{
    for end in at..buffer.len() {
        if buffer[end] == b'\n' {
            return end;
        }
    }
    at.max(buffer.len())
}
