// Floats by their bit patterns, NaN included, and the hexadecimal digits that patterns are written in.
#![tactic(auto)]

ghost use Rattle.std.specs.Prelude.{◌≡◌, ◌%◌, ◌/◌, ◌<◌, get_or};
ghost use Rattle.std.specs.Float.Ieee.{of_bits, to_bits};
ghost use Rattle.std.specs.Float.{binary32, binary64};
ghost use Rattle.ieee_patterns.specs.Hex.{hex_value, hex_digit, word_at, hex_text};

// The f64 of a pattern; every NaN pattern gives the one NaN.
pub fn f64_of_bits(bits: u64) -> f64
    ensures { result ≡ of_bits binary64 bits }
{
    let magnitude = bits % 0x8000_0000_0000_0000;
    if magnitude > 0x7FF0_0000_0000_0000 {
        return 0.0 / 0.0;
    }
    f64::from_bits(bits)
}

// The f32 of a pattern; every NaN pattern gives the one NaN.
pub fn f32_of_bits(bits: u32) -> f32
    ensures { result ≡ of_bits binary32 bits }
{
    let magnitude = bits % 0x8000_0000;
    if magnitude > 0x7F80_0000 {
        return 0.0 / 0.0;
    }
    f32::from_bits(bits)
}

// The pattern of an f64; of a NaN the usual one.
pub fn bits_of_f64(x: f64) -> u64
    ensures { result ≡ to_bits binary64 x }
{
    if x != x {
        return 0x7FF8_0000_0000_0000;
    }
    f64::to_bits(x)
}

// The pattern of an f32; of a NaN the usual one.
pub fn bits_of_f32(x: f32) -> u32
    ensures { result ≡ to_bits binary32 x }
{
    if x != x {
        return 0x7FC0_0000;
    }
    f32::to_bits(x)
}

// What an upper-case hexadecimal digit stands for; 16 for any other byte.
pub fn hex_value(byte: u8) -> u8
    ensures { result ≡ hex_value byte }
{
    if byte < b'0' {
        return 16;
    }
    if byte <= b'9' {
        return byte - b'0';
    }
    if byte < b'A' {
        return 16;
    }
    if byte <= b'F' {
        return byte - 55;
    }
    16
}

// The upper-case digit of the number's last four bits.
pub fn hex_digit(value: u8) -> u8
    ensures { result ≡ hex_digit (value % 16) }
{
    let low = value % 16;
    if low < 10 {
        return low + 48;
    }
    low + 55
}

// The byte at a place; past the end 0, which is no digit.
fn byte_at(text: &[u8], at: usize) -> u8
    ensures { result ≡ get_or text.now at 0 }
{
    if at < text.len() { text[at] } else { 0 }
}

// The number of the sixteen digits from a place on; what is no digit, or past the end, counts as 0.
pub fn hex_word(text: &[u8], at: usize) -> u64
    ensures { result ≡ word_at text.now at }
{
    if at >= text.len() {
        return 0;
    }
    let mut number: u64 = 0;
    for i in 0..16 {
        let digit = hex_value(byte_at(text, at + i)) % 16;
        number = (number % 0x1000_0000_0000_0000) * 16 + digit as u64;
    }
    number
}

// The digit at a place, which is a power of 16.
fn digit_at(bits: u32, place: u32) -> u8
    requires { 0 < place }
    ensures { result ≡ hex_digit (bits / place % 16) }
{
    hex_digit((bits / place % 16) as u8)
}

// The eight digits of a pattern of 32 bits.
pub fn hex8(bits: u32) -> [u8; 8]
    ensures { result ≡ hex_text 8 bits }
{
    [
        digit_at(bits, 0x1000_0000),
        digit_at(bits, 0x100_0000),
        digit_at(bits, 0x10_0000),
        digit_at(bits, 0x1_0000),
        digit_at(bits, 0x1000),
        digit_at(bits, 0x100),
        digit_at(bits, 0x10),
        digit_at(bits, 1),
    ]
}
