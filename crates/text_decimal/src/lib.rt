// The text of an f32 with six decimals, laid on a lent page from a place on. Each call answers the place behind what it wrote; a full page takes no more.
#![tactic(auto)]

ghost use Rattle.std.specs.Prelude.{◌≡◌, ◌+◌, ◌*◌, ◌/◌, ◌%◌, ◌^◌, ◌<◌, ◌≤◌, leb};
ghost use Rattle.std.specs.Float.{binary32};
ghost use Rattle.std.specs.Float.Ieee.Nearest.{closest};
ghost use Rattle.ieee.specs.inside.PatternParts.{digits_of, power_of};
ghost use Rattle.text_page.specs.Page.{Wrote};
ghost use Rattle.text_decimal.specs.Dec6.{lowest_digits, whole_text, minus_sign, millionths_text, dec6};
ghost use Rattle.text_decimal.specs.inside.Parts.{Sound, whole_of};

// ---- digits

// The digit of a place, which is a power of ten.
fn digit(n: u64, place: u64) -> u8
    requires { 0 < place }
    ensures { result ≡ 48 + n / place % 10 }
{
    48 + (n / place % 10) as u8
}

// The last six digits of a number, zeros in front among them.
fn put_six(page: &mut [u8], at: usize, n: u64) -> usize
    ensures { Wrote (lowest_digits 6 n) at result page.old page.new }
{
    let at = text_page::put_byte(page, at, digit(n, 100000));
    let at = text_page::put_byte(page, at, digit(n, 10000));
    let at = text_page::put_byte(page, at, digit(n, 1000));
    let at = text_page::put_byte(page, at, digit(n, 100));
    let at = text_page::put_byte(page, at, digit(n, 10));
    text_page::put_byte(page, at, digit(n, 1))
}

// A whole number, with no zero in front.
fn put_whole(page: &mut [u8], at: usize, n: u64) -> usize
    ensures { Wrote (whole_text n) at result page.old page.new }
{
    text_page::put_digits(page, at, n)
}

// So many millionths.
fn put_millionths(page: &mut [u8], at: usize, n: u64) -> usize
    ensures { Wrote (millionths_text n) at result page.old page.new }
{
    let at = put_whole(page, at, n / 1000000);
    let at = text_page::put_byte(page, at, b'.');
    put_six(page, at, n)
}

// ---- whole numbers that a u64 does not hold

// Ten to the eighteenth: a part has so many digits.
const PART: u64 = 1000000000000000000;

// A number of up to 39 digits.
#[derive(Clone, Copy)]
struct Parts {
    low: u64,
    middle: u64,
    high: u64,
}

// m * 2^i, doubled step by step.
fn in_parts(m: u64, i: u32) -> Parts
    requires { (m < 2 ^ 24) × (i ≤ 104) }
    ensures { Sound result × (whole_of result ≡ m * 2 ^ i) }
{
    let mut low = m;
    let mut middle: u64 = 0;
    let mut high: u64 = 0;
    for _ in 0..i {
        let lower = low * 2;
        let upper = middle * 2 + lower / PART;
        high = high * 2 + upper / PART;
        middle = upper % PART;
        low = lower % PART;
    }
    Parts { low, middle, high }
}

// The last eighteen digits of a number, zeros in front among them.
fn put_eighteen(page: &mut [u8], at: usize, n: u64) -> usize
    ensures { Wrote (lowest_digits 18 n) at result page.old page.new }
{
    let at = put_six(page, at, n / 1000000000000);
    let at = put_six(page, at, n / 1000000);
    put_six(page, at, n)
}

fn put_parts(page: &mut [u8], at: usize, parts: Parts) -> usize
    requires { Sound parts }
    ensures { Wrote (whole_text (whole_of parts)) at result page.old page.new }
{
    if parts.high > 0 {
        let at = put_whole(page, at, parts.high);
        let at = put_eighteen(page, at, parts.middle);
        return put_eighteen(page, at, parts.low);
    }
    if parts.middle > 0 {
        let at = put_whole(page, at, parts.middle);
        return put_eighteen(page, at, parts.low);
    }
    put_whole(page, at, parts.low)
}

// m * 2^i: up to 2^40 times, a u64 holds it.
fn put_doubled(page: &mut [u8], at: usize, m: u64, i: u32) -> usize
    requires { (m < 2 ^ 24) × (i ≤ 104) }
    ensures { Wrote (whole_text (m * 2 ^ i)) at result page.old page.new }
{
    if i <= 40 {
        return put_whole(page, at, m << i);
    }
    put_parts(page, at, in_parts(m, i))
}

// ---- a float by its pattern

// n / 2^k to the nearest whole number, a tie to the even one. Nothing branches but for a k that leaves nothing of n.
fn nearest_shifted(n: u64, k: u32) -> u64
    requires { (n < 2 ^ 60) × (0 < k) }
    ensures { result ≡ closest n (2 ^ k) }
{
    if k > 62 {
        return 0;
    }
    let unit: u64 = 1 << k;
    (n + (unit / 2 - 1) + n / unit % 2) / unit
}

// m * 2^j of the smallest f32, which is 2^-149, in millionths: from j = 149 on that is a whole number.
fn put_finite(page: &mut [u8], at: usize, m: u64, j: u32) -> usize
    requires { (m < 2 ^ 24) × (j ≤ 253) }
    ensures { Wrote (millionths_text (closest (m * 2 ^ j * 1000000) (2 ^ 149))) at result page.old page.new }
{
    if j < 149 {
        return put_millionths(page, at, nearest_shifted(m * 1000000, 149 - j));
    }
    let at = put_doubled(page, at, m, j - 149);
    text_page::put_bytes(page, at, b".000000")
}

fn digits(pattern: u32) -> u64
    ensures { result ≡ digits_of binary32 pattern }
{
    if pattern % 0x8000_0000 / 0x80_0000 == 0 {
        (pattern % 0x80_0000) as u64
    } else {
        (0x80_0000 + pattern % 0x80_0000) as u64
    }
}

fn power(pattern: u32) -> u32
    ensures { result ≡ power_of binary32 pattern }
{
    let field = pattern % 0x8000_0000 / 0x80_0000;
    if field == 0 { 0 } else { field - 1 }
}

fn put_sign(page: &mut [u8], at: usize, pattern: u32) -> usize
    ensures { Wrote (minus_sign (leb 0x8000_0000 pattern)) at result page.old page.new }
{
    if pattern >= 0x8000_0000 {
        return text_page::put_byte(page, at, b'-');
    }
    at
}

// ---- the text

// An f32 with six decimals, to the nearest, a tie to the even digit; -0 and what is rounded to it keep their sign.
pub fn put_dec6(page: &mut [u8], at: usize, x: f32) -> usize
    ensures { Wrote (dec6 x) at result page.old page.new }
{
    let pattern = ieee_patterns::bits_of_f32(x);
    let size = pattern % 0x8000_0000;
    if size > 0x7F80_0000 {
        return text_page::put_bytes(page, at, b"NaN");
    }
    let at = put_sign(page, at, pattern);
    if size == 0x7F80_0000 {
        return text_page::put_bytes(page, at, b"inf");
    }
    put_finite(page, at, digits(pattern), power(pattern))
}
