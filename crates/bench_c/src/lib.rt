// What bench/bench.c and bench/against.c link as libbench.a. Each function calls that of the same name of the crate `bench`, and promises what
// that one does, in the same words.
// They stay apart and one line each: C calls a function by its name.
#![tactic(auto)]

ghost use Rattle.std.specs.Prelude.{◌≡◌, ◌+◌, ◌*◌, ◌^◌, ◌≤◌, length};
ghost use Rattle.fips197.specs.Aes.{expand, cipher_number};
ghost use Rattle.bench.specs.Chain.{iterate, folded, product, hashed};

#[unsafe(no_mangle)]
pub extern "C" fn bench_encrypt(key: &[u8], hi: u64, lo: u64, n: u64) -> u64
    ensures { length key.now ≡ 16 →
        result ≡ folded (iterate n (cipher_number (expand 4 10 key.now)) (hi * 2 ^ 64 + lo)) }
{
    bench::bench_encrypt(key, hi, lo, n)
}

#[unsafe(no_mangle)]
pub extern "C" fn bench_mul(ahi: u64, alo: u64, bhi: u64, blo: u64, n: u64) -> u64
    ensures { result ≡ folded (iterate n (product (bhi * 2 ^ 64 + blo)) (ahi * 2 ^ 64 + alo)) }
{
    bench::bench_mul(ahi, alo, bhi, blo, n)
}

#[unsafe(no_mangle)]
pub extern "C" fn bench_brw(hhi: u64, hlo: u64, x: &[u8], n: u64) -> u64
    ensures { 16 ≤ length x.now → length x.now ≤ 4096 →
        result ≡ folded (iterate n (hashed (hhi * 2 ^ 64 + hlo) x.now) 0) }
{
    bench::bench_brw(hhi, hlo, x, n)
}
