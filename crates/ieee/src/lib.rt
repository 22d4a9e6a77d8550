// A float to the nearest whole number of an i32, and an f64 narrowed to f32, as IEEE 754 has them.
#![tactic(auto)]

ghost use Rattle.std.specs.Prelude.{◌≡◌, false, not, T, Float, List, map};
ghost use Rattle.ieee.specs.Columns.{as_it_is, column_as_it_is, each_as_it_is};
ghost use Rattle.std.specs.Float.Ieee.{is_nan, lt};
ghost use Rattle.std.specs.Float.Ieee.Scale.{finite};
ghost use Rattle.ieee.specs.Rounding.{rint, hold};
ghost use Rattle.ieee.specs.inside.FloatEnds.{InI32};
ghost use Rattle.ieee.specs.Nearest.{sign_of};
ghost use Rattle.ieee.specs.Narrowing.{narrow};
ghost use Rattle.ieee.specs.inside.Spacing.{with_sign, boundary, Anchor};

// x held at the ends of an i32.
fn within_i32(x: f64) -> f64
    requires { T (finite x) }
    ensures { InI32 result × (rint result ≡ hold (rint x)) }
{
    let below = if x < 2147483647.0 { x } else { 2147483647.0 };
    if below > -2147483648.0 {
        below
    } else {
        -2147483648.0
    }
}

// The whole number nearest to x, a tie to the even one.
fn whole(x: f64) -> i32
    requires { InI32 x }
    ensures { result ≡ rint x }
{
    // 1.5 * 2^52: at this size an f64 has no fraction, so the sum rounds, and its pattern counts on from this number's
    ((f64::to_bits(x + 6755399441055744.0) as i64) - 0x4338_0000_0000_0000) as i32
}

// The whole number nearest to x, a tie to the even one, held at the ends of an i32; 0 for a NaN or an infinity, which differ from themselves by a NaN.
pub fn lrint_f64(x: f64) -> i32
    ensures { result ≡ hold (rint x) }
{
    if x - x == 0.0 {
        whole(within_i32(x))
    } else {
        0
    }
}

// The same of an f32.
pub fn lrint_f32(x: f32) -> i32
    ensures { result ≡ hold (rint x) }
{
    if x - x == 0.0 {
        whole(within_i32(x as f64))
    } else {
        0
    }
}

// |x|.
fn size(x: f64) -> f64
    requires { T (not (is_nan x)) }
    ensures { result ≡ with_sign false x }
{
    f64::from_bits(f64::to_bits(x) % 0x8000_0000_0000_0000)
}

// a with the sign of x.
fn signed_as(a: f64, x: f64) -> f64
    requires { T (not (is_nan a)) × T (not (is_nan x)) }
    ensures { result ≡ with_sign (sign_of x) a }
{
    f64::from_bits(
        f64::to_bits(a) % 0x8000_0000_0000_0000
            + f64::to_bits(x) / 0x8000_0000_0000_0000 * 0x8000_0000_0000_0000,
    )
}

// 2^29 times a's power of two, or that of the least normal f32 where a is less: from there on f64s lie as far apart as f32s do around a.
fn anchor(a: f64) -> f64
    requires { (sign_of a ≡ false) × T (lt a boundary) }
    ensures { Anchor a result }
{
    let scaled = f64::from_bits(
        f64::to_bits(a) / 0x10_0000_0000_0000 * 0x10_0000_0000_0000 + 0x01d0_0000_0000_0000,
    );
    if scaled > 6.310887241768095e-30 {
        scaled
    } else {
        6.310887241768095e-30
    }
}

// a rounded to the values of an f32: the sum rounds, and the difference is exact.
fn snapped(a: f64) -> f64
    requires { (sign_of a ≡ false) × T (lt a boundary) }
    ensures { result ≡ narrow a }
{
    let far = anchor(a);
    (a + far) - far
}

// The same, and an infinity from half way between the largest f32 and 2^128 on.
fn narrowed(a: f64) -> f64
    requires { (sign_of a ≡ false) × T (not (is_nan a)) }
    ensures { result ≡ narrow a }
{
    if a < 3.4028235677973366e38 {
        snapped(a)
    } else {
        1.0 / 0.0
    }
}

// x at the narrower format: the nearest value, a tie to the even one. A NaN gives a NaN.
pub fn narrow_f64(x: f64) -> f32
    ensures { result ≡ narrow x }
{
    if x == x {
        signed_as(narrowed(size(x)), x) as f32
    } else {
        0.0 / 0.0
    }
}

// ---- the two formats

// A number as columns have it, of the one format or the other.
pub trait Real: Copy {
    // Which number it is, and which a column of it has.
    ghost number: { Self → Float };

    ghost numbers: { List Self → List Float };

    // As an f64: each number of an f32 is one of an f64.
    fn widened(self) -> f64
        ensures { result ≡ number self };

    fn is_below(self, other: Self) -> bool
        ensures { result ≡ lt (number self) (number other) };

    ghost each: { (column : List Self) → numbers column ≡ map number column };
}

impl Real for f64 {
    ghost number = { as_it_is };

    ghost numbers = { column_as_it_is };

    ghost each = { each_as_it_is };

    fn widened(self) -> f64 {
        self
    }

    fn is_below(self, other: f64) -> bool {
        self < other
    }
}

impl Real for f32 {
    ghost number = { as_it_is };

    ghost numbers = { column_as_it_is };

    ghost each = { each_as_it_is };

    fn widened(self) -> f64 {
        std::num::f32_to_f64_with_nan(self)
    }

    fn is_below(self, other: f32) -> bool {
        self < other
    }
}
