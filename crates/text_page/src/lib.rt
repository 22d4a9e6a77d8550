// Bytes laid on a lent page from a place on. Each call answers the place behind what it wrote; a full page takes no more.
#![tactic(auto)]

ghost use Rattle.std.specs.Prelude.{◌∷◌, []};
ghost use Rattle.text_page.specs.Page.{Wrote};
ghost use Rattle.text_page.specs.Digits.{decimal_text};

pub fn put_byte(page: &mut [u8], at: usize, byte: u8) -> usize
    ensures { Wrote (byte ∷ []) at result page.old page.new }
{
    if at < page.len() {
        page[at] = byte;
        return at + 1;
    }
    at
}

pub fn put_bytes(page: &mut [u8], at: usize, bytes: &[u8]) -> usize
    ensures { Wrote bytes.now at result page.old page.new }
{
    let mut place = at;
    for &byte in bytes {
        place = put_byte(page, place, byte);
    }
    place
}

// A u64 has no more digits.
const MOST_DIGITS: usize = 20;

// A number in decimal digits, with no zero in front.
pub fn put_digits(page: &mut [u8], at: usize, n: u64) -> usize
    ensures { Wrote (decimal_text n) at result page.old page.new }
{
    let mut digits = [0u8; MOST_DIGITS];
    let count = io::decimal(n, &mut digits);
    put_bytes(page, at, &digits[..count])
}
