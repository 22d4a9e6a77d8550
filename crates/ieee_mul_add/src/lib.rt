// a * b + c with one rounding, at f64 and at f32: what IEEE 754 calls fusedMultiplyAdd, and Rust mul_add.
//
// Where the product needs no rounding, one rounding is what the two operations make, and they are taken. Otherwise the exact sum is made as a whole number, once for both widths:
//   the product's digits are two words, moved up by 20 places, and the addend's two words, moved up by 73; each is times a power of two, in units of 2^-2232;
//   the one with the lower power is cut to the other's, rounded to odd, so that what is lost leaves a mark; then the two are added, or one is taken from the other;
//   from there the format's digits are kept, rounded by two more of them; the pattern is the places dropped and the digits kept, and no case of its own is asked for by a carry, a subnormal or an overflow.
// The room below the digits is what makes every cut deep enough for both roundings to be one.
#![tactic(auto)]

ghost use Rattle.std.specs.Prelude.{◌≡◌, ◌+◌, ◌-◌, ◌*◌, ◌%◌, ◌^◌, ◌<◌, ◌≤◌, true, false, not, ◌&&◌, if◌then◌else◌, from_bits, nat_lt};
ghost use Rattle.std.specs.Float.{binary32, binary64};
ghost use Rattle.std.specs.Float.Ieee.{top, unlike};
ghost use Rattle.ieee.specs.inside.Harmless.{Harmless};
ghost use Rattle.ieee.specs.inside.PatternParts.{digits_of, power_of};
ghost use Rattle.ieee.specs.inside.SumSize.{sum_size};
ghost use Rattle.ieee_odd_cut.specs.OddCut.{made_odd, odd_cut};
ghost use Rattle.ieee_mul_add.specs.MulAdd.{mul_add};
ghost use Rattle.ieee_mul_add.specs.inside.Words.{two_words, words_of};
ghost use Rattle.ieee_mul_add.specs.inside.FinitePatterns.{FinitePatterns};
ghost use Rattle.ieee_mul_add.specs.inside.CutSum.{product_of, addend_of, Summed};
ghost use Rattle.ieee_mul_add.specs.inside.RoundedFromCut.{KeptOf, pattern_size, RoundedFrom};
ghost use Rattle.ieee_mul_add.specs.inside.QuickWays.{ExactProduct};

// ---- whole numbers of two words

// high * 2^64 + low.
#[derive(Clone, Copy)]
pub struct Wide {
    pub high: u64,
    pub low: u64,
}

// q, and where something is left over the odd one of q and q + 1.
fn made_odd(q: u64, rest: u64) -> u64
    ensures { result ≡ made_odd q rest }
{
    if rest == 0 { q } else { q / 2 * 2 + 1 }
}

// Two words / 2^places, rounded to odd.
fn cut_below(high: u64, low: u64, places: u64) -> Wide
    requires { (0 < places) × (places < 64) }
    ensures { words_of result ≡ odd_cut (two_words high low) (2 ^ places) }
{
    Wide {
        high: high >> places,
        low: made_odd(
            (high << (64 - places)) + (low >> places),
            low % (1u64 << places),
        ),
    }
}

// The same for any number of places.
fn cut(high: u64, low: u64, places: u64) -> Wide
    ensures { words_of result ≡ odd_cut (two_words high low) (2 ^ places) }
{
    if places == 0 {
        return Wide { high, low };
    }
    if places < 64 {
        return cut_below(high, low, places);
    }
    let word = made_odd(high, low);
    if places == 64 {
        return Wide { high: 0, low: word };
    }
    if places < 128 {
        return cut_below(0, word, places - 64);
    }
    Wide {
        high: 0,
        low: made_odd(0, word),
    }
}

// The whole product, column by column in base 2^32.
fn product(a: u64, b: u64) -> Wide
    ensures { words_of result ≡ a * b }
{
    let a0 = a % 0x1_0000_0000;
    let a1 = a / 0x1_0000_0000;
    let b0 = b % 0x1_0000_0000;
    let b1 = b / 0x1_0000_0000;
    let w0 = a0 * b0;
    let t = a1 * b0 + w0 / 0x1_0000_0000;
    let w1 = t % 0x1_0000_0000 + a0 * b1;
    Wide {
        high: a1 * b1 + t / 0x1_0000_0000 + w1 / 0x1_0000_0000,
        low: w1 % 0x1_0000_0000 * 0x1_0000_0000 + w0 % 0x1_0000_0000,
    }
}

fn plus(a_high: u64, a_low: u64, b_high: u64, b_low: u64) -> Wide
    requires { a_high + b_high + 1 < 2 ^ 64 }
    ensures { words_of result ≡ two_words a_high a_low + two_words b_high b_low }
{
    let low = std::num::wrapping_add_u64(a_low, b_low);
    if low < a_low {
        Wide {
            high: a_high + b_high + 1,
            low,
        }
    } else {
        Wide {
            high: a_high + b_high,
            low,
        }
    }
}

fn minus(a_high: u64, a_low: u64, b_high: u64, b_low: u64) -> Wide
    requires { two_words b_high b_low ≤ two_words a_high a_low }
    ensures { words_of result + two_words b_high b_low ≡ two_words a_high a_low }
{
    let low = std::num::wrapping_sub_u64(a_low, b_low);
    if a_low < b_low {
        Wide {
            high: a_high - b_high - 1,
            low,
        }
    } else {
        Wide {
            high: a_high - b_high,
            low,
        }
    }
}

// The size of a sum of two numbers of either sign, by their sizes, and whether the second is larger and its sign counts.
#[derive(Clone, Copy)]
pub struct Joined {
    pub high: u64,
    pub low: u64,
    pub second: bool,
}

// Signs that are not alike: how far the two are apart.
fn apart(a_high: u64, a_low: u64, b_high: u64, b_low: u64) -> Joined
    ensures { let a = two_words a_high a_low in
        let b = two_words b_high b_low in
        (two_words result.high result.low ≡ sum_size false a b) × (result.second ≡ nat_lt a b) }
{
    if a_high < b_high {
        let w = minus(b_high, b_low, a_high, a_low);
        return Joined {
            high: w.high,
            low: w.low,
            second: true,
        };
    }
    if a_high == b_high {
        if a_low < b_low {
            return Joined {
                high: 0,
                low: b_low - a_low,
                second: true,
            };
        }
    }
    let w = minus(a_high, a_low, b_high, b_low);
    Joined {
        high: w.high,
        low: w.low,
        second: false,
    }
}

fn join(a_high: u64, a_low: u64, b_high: u64, b_low: u64, alike: bool) -> Joined
    requires { a_high + b_high + 1 < 2 ^ 64 }
    ensures { let a = two_words a_high a_low in
        let b = two_words b_high b_low in
        (two_words result.high result.low ≡ sum_size alike a b) × (result.second ≡ (not alike && nat_lt a b)) }
{
    if alike {
        let w = plus(a_high, a_low, b_high, b_low);
        Joined {
            high: w.high,
            low: w.low,
            second: false,
        }
    } else {
        apart(a_high, a_low, b_high, b_low)
    }
}

// ---- the exact sum, cut

// The digits of an f64's pattern, and the power of two that they are times, in units of the smallest f64.
fn digits(pattern: u64) -> u64
    ensures { result ≡ digits_of binary64 pattern }
{
    if pattern % 0x8000_0000_0000_0000 / 0x10_0000_0000_0000 == 0 {
        pattern % 0x10_0000_0000_0000
    } else {
        0x10_0000_0000_0000 + pattern % 0x10_0000_0000_0000
    }
}

fn power(pattern: u64) -> u64
    ensures { result ≡ power_of binary64 pattern }
{
    let field = pattern % 0x8000_0000_0000_0000 / 0x10_0000_0000_0000;
    if field == 0 { 0 } else { field - 1 }
}

// Two words times 2^exponent, and whether the second summand is larger and its sign counts.
#[derive(Clone, Copy)]
pub struct Sum {
    pub high: u64,
    pub low: u64,
    pub second: bool,
    pub exponent: u64,
}

// p * 2^x and q * 2^z joined: the one with the lower power is cut to the other's.
fn summed(p_high: u64, p_low: u64, x: u64, q_high: u64, q_low: u64, z: u64, alike: bool) -> Sum
    requires { (p_high < 2 ^ 62) × (q_high < 2 ^ 62) × (p_low % 2 ≡ 0) × (q_low % 2 ≡ 0) }
    ensures { Summed alike (two_words p_high p_low) x (two_words q_high q_low) z (two_words result.high result.low) result.exponent result.second }
{
    if x < z {
        let p = cut(p_high, p_low, z - x);
        let j = join(p.high, p.low, q_high, q_low, alike);
        Sum {
            high: j.high,
            low: j.low,
            second: j.second,
            exponent: z,
        }
    } else {
        let q = cut(q_high, q_low, x - z);
        let j = join(p_high, p_low, q.high, q.low, alike);
        Sum {
            high: j.high,
            low: j.low,
            second: j.second,
            exponent: x,
        }
    }
}

// The exact sum of a product a * b and an addend c, by their f64 patterns, in units of 2^-2232.
fn summed_bits(a: u64, b: u64, c: u64, alike: bool) -> Sum
    ensures { let product = product_of (digits_of binary64 a) (digits_of binary64 b) in
        let addend = addend_of (digits_of binary64 c) in
        Summed alike product (power_of binary64 a + power_of binary64 b + 64) addend (power_of binary64 c + 1085) (two_words result.high result.low) result.exponent result.second }
{
    let p = product(digits(a) * 1024, digits(b) * 1024);
    summed(
        p.high,
        p.low,
        power(a) + power(b) + 64,
        digits(c) * 512,
        0,
        power(c) + 1085,
        alike,
    )
}

// ---- rounded from there

// How many places are dropped, and the digits that are kept, rounded.
#[derive(Clone, Copy)]
pub struct Kept {
    pub dropped: u64,
    pub digits: u64,
}

// Of two words times 2^exponent / 2^base, counted in units of the smallest value of a format that keeps so many digits as `precision` says.
fn kept_high(high: u64, low: u64, exponent: u64, precision: u64, base: u64) -> Kept
    requires { (0 < high) × (2 ≤ precision) × (precision ≤ 53) × (exponent ≤ 8000) × (base ≤ 8000) }
    ensures { KeptOf precision base (two_words high low * 2 ^ exponent) result.dropped result.digits × (result.dropped ≤ exponent + 128 - base) }
{
    let over = 128 - (u64::leading_zeros(high) as u64) - precision;
    let shift = if exponent + over < base {
        base - exponent
    } else {
        over
    };
    let quarters = cut(high, low, shift - 2);
    let n = quarters.low;
    Kept {
        dropped: exponent + shift - base,
        digits: (n + 1 + n / 4 % 2) / 4,
    }
}

// The same where the first word may be 0.
fn kept_of(high: u64, low: u64, exponent: u64, precision: u64, base: u64) -> Kept
    requires { (0 < high + low) × (2 ≤ precision) × (precision ≤ 53) × (64 ≤ exponent) × (exponent ≤ 8000) × (base ≤ 8000) }
    ensures { KeptOf precision base (two_words high low * 2 ^ exponent) result.dropped result.digits × (result.dropped ≤ exponent + 128 - base) }
{
    if high == 0 {
        kept_high(low, 0, exponent - 64, precision, base)
    } else {
        kept_high(high, low, exponent, precision, base)
    }
}

// The pattern of a size, no more than an infinity's.
fn size_f64(high: u64, low: u64, exponent: u64) -> u64
    requires { (0 < high + low) × (64 ≤ exponent) × (exponent ≤ 4200) }
    ensures { result ≡ pattern_size binary64 1158 (two_words high low * 2 ^ exponent) }
{
    let r = kept_of(high, low, exponent, 53, 1158);
    let m = r.dropped * 0x10_0000_0000_0000 + r.digits;
    if m < 0x7ff0_0000_0000_0000 {
        m
    } else {
        0x7ff0_0000_0000_0000
    }
}

fn size_f32(high: u64, low: u64, exponent: u64) -> u64
    requires { (0 < high + low) × (64 ≤ exponent) × (exponent ≤ 4200) }
    ensures { result ≡ pattern_size binary32 2083 (two_words high low * 2 ^ exponent) }
{
    let r = kept_of(high, low, exponent, 24, 2083);
    let m = r.dropped * 0x80_0000 + r.digits;
    if m < 0x7f80_0000 { m } else { 0x7f80_0000 }
}

// A pattern with a sign, negative where it is true.
fn signed_f64(size: u64, sign: bool) -> f64
    requires { size ≤ 9218868437227405312 }
    ensures { result ≡ from_bits binary64 ((if sign then top binary64 else 0) + size) }
{
    if sign {
        f64::from_bits(0x8000_0000_0000_0000 + size)
    } else {
        f64::from_bits(size)
    }
}

fn signed_f32(size: u64, sign: bool) -> f32
    requires { size ≤ 2139095040 }
    ensures { result ≡ from_bits binary32 ((if sign then top binary32 else 0) + size) }
{
    if sign {
        f32::from_bits((0x8000_0000 + size) as u32)
    } else {
        f32::from_bits(size as u32)
    }
}

// What cancelled is +0.
fn rounded_f64(high: u64, low: u64, exponent: u64, sign: bool) -> f64
    requires { (64 ≤ exponent) × (exponent ≤ 4200) }
    ensures { RoundedFrom binary64 1158 sign (two_words high low) exponent result }
{
    if high == 0 {
        if low == 0 {
            return 0.0;
        }
        return signed_f64(size_f64(high, low, exponent), sign);
    }
    signed_f64(size_f64(high, low, exponent), sign)
}

fn rounded_f32(high: u64, low: u64, exponent: u64, sign: bool) -> f32
    requires { (64 ≤ exponent) × (exponent ≤ 4200) }
    ensures { RoundedFrom binary32 2083 sign (two_words high low) exponent result }
{
    if high == 0 {
        if low == 0 {
            return 0.0;
        }
        return signed_f32(size_f32(high, low, exponent), sign);
    }
    signed_f32(size_f32(high, low, exponent), sign)
}

fn unlike(s: bool, t: bool) -> bool
    ensures { result ≡ unlike s t }
{
    if s { !t } else { t }
}

fn pick(b: bool, x: bool, y: bool) -> bool
    ensures { result ≡ (if b then x else y) }
{
    if b { x } else { y }
}

// Between numbers, by their f64 patterns, where neither factor is 0.
fn finite_f64(a: u64, b: u64, c: u64) -> f64
    requires { FinitePatterns a b c }
    ensures { result ≡ mul_add binary64 (from_bits binary64 a) (from_bits binary64 b) (from_bits binary64 c) }
{
    let s = unlike(a >= 0x8000_0000_0000_0000, b >= 0x8000_0000_0000_0000);
    let t = c >= 0x8000_0000_0000_0000;
    let r = summed_bits(a, b, c, s == t);
    rounded_f64(r.high, r.low, r.exponent, pick(r.second, t, s))
}

fn finite_f32(a: u64, b: u64, c: u64) -> f32
    requires { FinitePatterns a b c }
    ensures { result ≡ mul_add binary32 (from_bits binary64 a) (from_bits binary64 b) (from_bits binary64 c) }
{
    let s = unlike(a >= 0x8000_0000_0000_0000, b >= 0x8000_0000_0000_0000);
    let t = c >= 0x8000_0000_0000_0000;
    let r = summed_bits(a, b, c, s == t);
    rounded_f32(r.high, r.low, r.exponent, pick(r.second, t, s))
}

// The same for all floats: where a factor is 0 or not finite, by the two operations; and a number plus what is not finite is that.
fn by_words_f64(a: f64, b: f64, c: f64) -> f64
    ensures { result ≡ mul_add binary64 a b c }
{
    if a - a == 0.0 {
        if b - b == 0.0 {
            if c - c == 0.0 {
                let x = f64::to_bits(a);
                let y = f64::to_bits(b);
                if digits(x) == 0 {
                    return a * b + c;
                }
                if digits(y) == 0 {
                    return a * b + c;
                }
                return finite_f64(x, y, f64::to_bits(c));
            }
            return c;
        }
        return a * b + c;
    }
    a * b + c
}

fn by_words_f32(a: f32, b: f32, c: f32) -> f32
    ensures { result ≡ mul_add binary32 a b c }
{
    if a - a == 0.0 {
        if b - b == 0.0 {
            if c - c == 0.0 {
                let x = f64::to_bits(a as f64);
                let y = f64::to_bits(b as f64);
                if digits(x) == 0 {
                    return a * b + c;
                }
                if digits(y) == 0 {
                    return a * b + c;
                }
                return finite_f32(x, y, f64::to_bits(c as f64));
            }
            return c;
        }
        return a * b + c;
    }
    a * b + c
}

// ---- the quick ways

// Whether a product of so many digits as `exact` allows lies in the range of f64, by the exponents' fields.
fn mid_range(x: u64, y: u64) -> bool
    ensures { result ≡ true → (1074 ≤ power_of binary64 x + power_of binary64 y) × (power_of binary64 x + power_of binary64 y ≤ 3066) }
{
    let fields = x % 0x8000_0000_0000_0000 / 0x10_0000_0000_0000
        + y % 0x8000_0000_0000_0000 / 0x10_0000_0000_0000;
    if fields < 1076 {
        return false;
    }
    fields <= 3067
}

// Whether a product is sure to be an f64, by the patterns: the second is a power of two, or it has 24 digits, as an f32 has, and the first 29.
fn exact(x: u64, y: u64) -> bool
    ensures { result ≡ true → ExactProduct (digits_of binary64 x) (power_of binary64 x) (digits_of binary64 y) (power_of binary64 y) }
{
    if y % 0x10_0000_0000_0000 == 0 {
        return mid_range(x, y);
    }
    if y % 0x2000_0000 == 0 {
        if x % 0x100_0000 == 0 {
            return mid_range(x, y);
        }
    }
    false
}

// a * b + c with one rounding. Where the product is sure to be exact, one rounding is what the two operations make.
// The slow way is called in two places, so that the compiler leaves it apart and what is tested first fits into a caller.
pub fn mul_add_f64(a: f64, b: f64, c: f64) -> f64
    ensures { result ≡ mul_add binary64 a b c }
{
    let product = a * b;
    if product == product {
        if exact(f64::to_bits(a), f64::to_bits(b)) {
            return product + c;
        }
        return by_words_f64(a, b, c);
    }
    by_words_f64(a, b, c)
}

// Whether an f64 rounds to f32 as what it was rounded from does, by its pattern: it is no half-way point of f32, no power of two and not below the least normal f32.
fn harmless(pattern: u64) -> bool
    ensures { result ≡ true → Harmless pattern }
{
    if pattern % 0x2000_0000 == 0x1000_0000 {
        return false;
    }
    if pattern % 0x10_0000_0000_0000 == 0 {
        return false;
    }
    897 <= pattern % 0x8000_0000_0000_0000 / 0x10_0000_0000_0000
}

// The same at f32. A product of two f32 is an f64, so the sum is rounded to f64 once, and then to f32 where that does no harm.
pub fn mul_add_f32(a: f32, b: f32, c: f32) -> f32
    ensures { result ≡ mul_add binary32 a b c }
{
    let twice = a * b + c;
    if twice == twice {
        let r = (a as f64) * (b as f64) + (c as f64);
        if r - r == 0.0 {
            if harmless(f64::to_bits(r)) {
                return ieee::narrow_f64(r);
            }
        }
        return by_words_f32(a, b, c);
    }
    by_words_f32(a, b, c)
}
