// What the report program writes, laid on a lent page from a place on. Each call answers the place behind what it wrote; a full page takes no more.
#![tactic(auto)]

ghost use Rattle.std.specs.Prelude.{◌≡◌, ◌∷◌, [], ◌++◌, take};
ghost use Rattle.std.specs.Float.Ieee.{to_bits};
ghost use Rattle.std.specs.Float.{binary32};
ghost use Rattle.text_page.specs.Page.{Wrote};
ghost use Rattle.text_page.specs.Digits.{decimal_text};
ghost use Rattle.report_text.specs.Output.{number, answer_line, offset_line, pair_line, pair_lines, speed_line, speed_lines, warp_line, warp_lines, warped_line, moved_line};

// A number by its pattern, and the byte that ends it.
fn put_number(page: &mut [u8], at: usize, x: f32, end: u8) -> usize
    ensures { Wrote (number x ++ (end ∷ [])) at result page.old page.new }
{
    let digits = ieee_patterns::hex8(ieee_patterns::bits_of_f32(x));
    let at = text_page::put_bytes(page, at, &digits);
    text_page::put_byte(page, at, end)
}

// A number in decimal digits, which ends its line.
fn put_decimal(page: &mut [u8], at: usize, n: u64) -> usize
    ensures { Wrote (decimal_text n ++ (10 ∷ [])) at result page.old page.new }
{
    let at = text_page::put_digits(page, at, n);
    text_page::put_byte(page, at, b'\n')
}

// The answer line: all that is written of a refusal.
pub fn put_answer(page: &mut [u8], at: usize, number: u32) -> usize
    ensures { Wrote (answer_line number) at result page.old page.new }
{
    let at = text_page::put_bytes(page, at, b"answer=");
    put_decimal(page, at, number as u64)
}

// The line of the offset.
pub fn put_offset(page: &mut [u8], at: usize, offset: f32) -> usize
    ensures { Wrote (offset_line offset) at result page.old page.new }
{
    let at = text_page::put_bytes(page, at, b"offset=");
    put_number(page, at, offset, b'\n')
}

fn put_pair(page: &mut [u8], at: usize, word: &[u8], beat: f32, value: f32) -> usize
    ensures { Wrote (pair_line word.now beat value) at result page.old page.new }
{
    let at = text_page::put_bytes(page, at, word);
    let at = put_number(page, at, beat, b',');
    put_number(page, at, value, b'\n')
}

// A line for each of the first entries of a list, as far as both columns go: its word, which ends with the equals sign, the beat and the value.
pub fn put_pairs(
    page: &mut [u8],
    at: usize,
    word: &[u8],
    count: usize,
    beats: &[f32],
    values: &[f32],
) -> usize
    ensures { Wrote (pair_lines word.now (take count beats.now) (take count values.now)) at result page.old page.new }
{
    let mut place = at;
    for i in 0..count {
        if i >= beats.len() {
            return place;
        }
        if i >= values.len() {
            return place;
        }
        place = put_pair(page, place, word, beats[i], values[i]);
    }
    place
}

fn put_speed(page: &mut [u8], at: usize, beat: f32, ratio: f32, delay: f32, unit: u8) -> usize
    ensures { Wrote (speed_line beat ratio delay unit) at result page.old page.new }
{
    let at = text_page::put_bytes(page, at, b"speed=");
    let at = put_number(page, at, beat, b',');
    let at = put_number(page, at, ratio, b',');
    let at = put_number(page, at, delay, b',');
    let at = text_page::put_byte(page, at, b'0' + unit % 10);
    text_page::put_byte(page, at, b'\n')
}

// The same of speeds.
pub fn put_speeds(
    page: &mut [u8],
    at: usize,
    count: usize,
    beats: &[f32],
    ratios: &[f32],
    delays: &[f32],
    units: &[u8],
) -> usize
    ensures { Wrote (speed_lines (take count beats.now) (take count ratios.now) (take count delays.now) (take count units.now))
        at result page.old page.new }
{
    let mut place = at;
    for i in 0..count {
        if i >= beats.len() {
            return place;
        }
        if i >= ratios.len() {
            return place;
        }
        if i >= delays.len() {
            return place;
        }
        if i >= units.len() {
            return place;
        }
        place = put_speed(page, place, beats[i], ratios[i], delays[i], units[i]);
    }
    place
}

fn put_warp(page: &mut [u8], at: usize, beat: f32, length: f32, mark: u8) -> usize
    ensures { Wrote (warp_line beat length mark) at result page.old page.new }
{
    let at = text_page::put_bytes(page, at, b"warp=");
    let at = put_number(page, at, beat, b',');
    let at = put_number(page, at, length, b',');
    let at = text_page::put_byte(page, at, b'0' + mark % 10);
    text_page::put_byte(page, at, b'\n')
}

// The same of warps with their marks.
pub fn put_warps(
    page: &mut [u8],
    at: usize,
    count: usize,
    beats: &[f32],
    lengths: &[f32],
    marks: &[u8],
) -> usize
    ensures { Wrote (warp_lines (take count beats.now) (take count lengths.now) (take count marks.now)) at result page.old page.new }
{
    let mut place = at;
    for i in 0..count {
        if i >= beats.len() {
            return place;
        }
        if i >= lengths.len() {
            return place;
        }
        if i >= marks.len() {
            return place;
        }
        place = put_warp(page, place, beats[i], lengths[i], marks[i]);
    }
    place
}

// The line of how many rows are warped.
pub fn put_warped(page: &mut [u8], at: usize, rows: u64) -> usize
    ensures { Wrote (warped_line rows) at result page.old page.new }
{
    let at = text_page::put_bytes(page, at, b"warped=");
    put_decimal(page, at, rows)
}

// The line of how many entries were off the grid.
pub fn put_moved(page: &mut [u8], at: usize, moved: u64) -> usize
    ensures { Wrote (moved_line moved) at result page.old page.new }
{
    let at = text_page::put_bytes(page, at, b"moved=");
    put_decimal(page, at, moved)
}
