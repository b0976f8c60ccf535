// Prints the examples of FIPS 197 for a key of 16 bytes, appendices B and C.1: on each line the key, the plaintext and
// the ciphertext that the code finds.
#![tactic(auto)]

ghost use Rattle.std.specs.Prelude.{◌≡◌, length};
ghost use Rattle.block.specs.Value.{value};
ghost use Rattle.fips197.specs.Aes.{expand, cipher_number};

use block::Block;
use std::{fmt, io};

// A block that is printed as its 32 hexadecimal digits.
#[derive(Drop)]
struct Hex(Block);

impl fmt::Display for Hex {
    fn fmt<W: fmt::Write>(&self, f: &mut fmt::Formatter<W>) -> fmt::Result {
        write!(f, "{:016x}{:016x}", self.0.hi, self.0.lo)
    }
}

fn encrypted(key: &[u8], b: Block) -> Block
    requires { length key.now ≡ 16 }
    ensures { value result ≡ cipher_number (expand 4 10 key.now) (value b) }
{
    let t = aes::table();
    let mut w = [0u32; 44];
    aes::expand(&t, key, &mut w);
    aes::encrypt(&t, &w, b)
}

fn print_example(rt: &impl Print, key: &[u8], b: Block) -> io::Result<()>
    requires { length key.now ≡ 16 }
{
    let k = Hex(Block::load(key, 0));
    let plaintext = Hex(b);
    let ciphertext = Hex(encrypted(key, b));
    println!(rt; "{k} {plaintext} {ciphertext}")
}

fn main(rt: HostRuntime) -> io::Result<()> {
    print_example(
        &rt,
        b"\x2b\x7e\x15\x16\x28\xae\xd2\xa6\xab\xf7\x15\x88\x09\xcf\x4f\x3c",
        Block {
            hi: 0x3243_f6a8_885a_308d,
            lo: 0x3131_98a2_e037_0734,
        },
    )?;
    print_example(
        &rt,
        b"\x00\x01\x02\x03\x04\x05\x06\x07\x08\x09\x0a\x0b\x0c\x0d\x0e\x0f",
        Block {
            hi: 0x0011_2233_4455_6677,
            lo: 0x8899_aabb_ccdd_eeff,
        },
    )
}
