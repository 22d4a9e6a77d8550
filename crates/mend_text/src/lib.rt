// What the program mend writes of what was read: scrolls and speeds mended, and what became of each raw entry.
#![tactic(auto)]

ghost use Rattle.std.specs.Prelude.{◌≡◌, ◌∷◌, [], ◌++◌, map, ◌≤◌, length};
ghost use Rattle.std.specs.Float.Ieee.{to_bits};
ghost use Rattle.std.specs.Float.{binary64};
ghost use Rattle.io.specs.Counts.{IsPrefixLen};
ghost use Rattle.ieee_patterns.specs.Hex.{hex_text};
ghost use Rattle.order.specs.Entries.{entries};
ghost use Rattle.chart.specs.ChartColumns.{list_columns, speed_columns};
ghost use Rattle.text_page.specs.Page.{Wrote};
ghost use Rattle.tidy_speeds_entries.specs.Speed.{speed_entries};
ghost use Rattle.report_form.specs.Text.{entry_line, entry_lines};
ghost use Rattle.mend_scrolls.specs.MendedScrolls.{scroll_tests};
ghost use Rattle.mend_speeds.specs.MendedSpeeds.{speed_tests};
ghost use Rattle.mend_text.specs.MendedText.{form_scroll, form_speed, fate_word, fate_line, fate_lines, scrolls_text, speeds_text, mended_text, mend_text, MendTold};

use limits::Kind;
use report_form::Reading;

// ---- lines

// A number by its pattern, and the byte that ends it.
fn put_number(page: &mut [u8], at: usize, x: f64, end: u8) -> usize
    ensures { Wrote (hex_text 16 (to_bits binary64 x) ++ (end ∷ [])) at result page.old page.new }
{
    let bits = ieee_patterns::bits_of_f64(x);
    let upper = ieee_patterns::hex8(order::upper_half(bits));
    let lower = ieee_patterns::hex8(order::lower_half(bits));
    let at = text_page::put_bytes(page, at, &upper);
    let at = text_page::put_bytes(page, at, &lower);
    text_page::put_byte(page, at, end)
}

fn put_scroll(page: &mut [u8], at: usize, beat: f64, value: f64) -> usize
    ensures { Wrote (entry_line (form_scroll (beat, value))) at result page.old page.new }
{
    let at = text_page::put_bytes(page, at, b"scroll=");
    let at = put_number(page, at, beat, b',');
    put_number(page, at, value, b'\n')
}

fn put_speed(page: &mut [u8], at: usize, beat: f64, ratio: f64, delay: f64, unit: u8) -> usize
    ensures { Wrote (entry_line (form_speed (beat, (ratio, (delay, unit))))) at result page.old page.new }
{
    let at = text_page::put_bytes(page, at, b"speed=");
    let at = put_number(page, at, beat, b',');
    let at = put_number(page, at, ratio, b',');
    let at = put_number(page, at, delay, b',');
    let at = text_page::put_byte(page, at, unit % 10 + b'0');
    text_page::put_byte(page, at, b'\n')
}

fn put_word(page: &mut [u8], at: usize, fate: u8) -> usize
    ensures { Wrote (fate_word fate) at result page.old page.new }
{
    if fate == mend_fates::KEPT {
        return text_page::put_bytes(page, at, b"kept=");
    }
    if fate == mend_fates::REPLACED {
        return text_page::put_bytes(page, at, b"replaced=");
    }
    text_page::put_bytes(page, at, b"merged=")
}

fn put_fate(page: &mut [u8], at: usize, position: usize, fate: u8) -> usize
    ensures { Wrote (fate_line position fate) at result page.old page.new }
{
    let at = put_word(page, at, fate);
    let at = text_page::put_digits(page, at, position as u64);
    text_page::put_byte(page, at, b'\n')
}

// ---- a line for each of the first entries, as far as all columns go

fn put_scrolls(page: &mut [u8], at: usize, beats: &[f64], values: &[f64]) -> usize
    ensures { Wrote (entry_lines (map form_scroll (entries beats.now values.now))) at result page.old page.new }
{
    let n = columns::room_of(beats.len(), values.len());
    let mut place = at;
    for i in 0..n {
        place = put_scroll(page, place, beats[i], values[i]);
    }
    place
}

fn put_speeds(
    page: &mut [u8],
    at: usize,
    beats: &[f64],
    ratios: &[f64],
    delays: &[f64],
    units: &[u8],
) -> usize
    ensures { let list = speed_entries beats.now ratios.now delays.now units.now in
        Wrote (entry_lines (map form_speed list)) at result page.old page.new }
{
    let n = tidy_speeds_entries::least_of(beats.len(), ratios.len(), delays.len(), units.len());
    let mut place = at;
    for i in 0..n {
        place = put_speed(page, place, beats[i], ratios[i], delays[i], units[i]);
    }
    place
}

fn put_fates(page: &mut [u8], at: usize, fates: &[u8]) -> usize
    ensures { Wrote (fate_lines 0 fates.now) at result page.old page.new }
{
    let mut place = at;
    for (i, &fate) in fates.iter().enumerate() {
        place = put_fate(page, place, i, fate);
    }
    place
}

// ---- lists

// Scrolls that are taken, mended in columns of 256 numbers.
fn put_mended_scrolls(page: &mut [u8], at: usize, beats: &[f64], values: &[f64]) -> usize
    requires { (scroll_tests (list_columns beats.now values.now) ≡ 0) × (length beats.now ≤ 256) }
    ensures { Wrote (scrolls_text (list_columns beats.now values.now)) at result page.old page.new }
{
    let mut out_beats = [0.0; report_form::MOST_REPORTED];
    let mut out_values = [0.0; report_form::MOST_REPORTED];
    let mut fates = [0u8; report_form::MOST_REPORTED];
    let done = mend_scrolls::mend_scrolls(
        beats,
        values,
        &mut out_beats,
        &mut out_values,
        &mut fates,
    );
    let count = done.count;
    let at = put_scrolls(
        page,
        at,
        report_form::front(&out_beats, count),
        report_form::front(&out_values, count),
    );
    put_fates(page, at, report_answer::front_units(&fates, beats.len()))
}

// The same of speeds.
fn put_mended_speeds(
    page: &mut [u8],
    at: usize,
    beats: &[f64],
    ratios: &[f64],
    delays: &[f64],
    units: &[u8],
) -> usize
    requires { (speed_tests (speed_columns beats.now ratios.now delays.now units.now) ≡ 0) × (length beats.now ≤ 256) }
    ensures { let speeds = speed_columns beats.now ratios.now delays.now units.now in
        Wrote (speeds_text speeds) at result page.old page.new }
{
    let mut out_beats = [0.0; report_form::MOST_REPORTED];
    let mut out_ratios = [0.0; report_form::MOST_REPORTED];
    let mut out_delays = [0.0; report_form::MOST_REPORTED];
    let mut out_units = [0u8; report_form::MOST_REPORTED];
    let mut fates = [0u8; report_form::MOST_REPORTED];
    let done = mend_speeds::mend_speeds(
        beats,
        ratios,
        delays,
        units,
        &mut out_beats,
        &mut out_ratios,
        &mut out_delays,
        &mut out_units,
        &mut fates,
    );
    let count = done.count;
    let at = put_speeds(
        page,
        at,
        report_form::front(&out_beats, count),
        report_form::front(&out_ratios, count),
        report_form::front(&out_delays, count),
        report_answer::front_units(&out_units, count),
    );
    put_fates(page, at, report_answer::front_units(&fates, beats.len()))
}

// The answer to lists of at most 256 entries, from the page's first byte on.
fn write_lists(
    page: &mut [u8],
    scroll_beats: &[f64],
    scroll_values: &[f64],
    speed_beats: &[f64],
    speed_ratios: &[f64],
    speed_delays: &[f64],
    speed_units: &[u8],
) -> usize
    requires { (length scroll_beats.now ≤ 256) × (length speed_beats.now ≤ 256) }
    ensures fact { let scrolls = list_columns scroll_beats.now scroll_values.now in
        let speeds = speed_columns speed_beats.now speed_ratios.now speed_delays.now speed_units.now in
        Wrote (mended_text scrolls speeds) 0 result page.old page.new }
    ensures prefix_len { IsPrefixLen result page.new }
{
    let scrolls = limits::list_number(Kind::Beat, Kind::Value, scroll_beats, scroll_values);
    let speeds = tidy_speeds::speed_list_number(
        speed_beats,
        speed_ratios,
        speed_delays,
        speed_units,
    );
    let number = limits::lower_of(scrolls, speeds);
    let at = report_text::put_answer(page, 0, number);
    if number != limits::TAKEN {
        return at;
    }
    let at = put_mended_scrolls(page, at, scroll_beats, scroll_values);
    put_mended_speeds(
        page,
        at,
        speed_beats,
        speed_ratios,
        speed_delays,
        speed_units,
    )
}

// Writes the answer to an input that is read, from the page's first byte on, and answers how many bytes it has. Columns and counts are as `report_feed::feed`
// leaves them. A page of 41,000 bytes holds every answer; a shorter one holds its beginning.
pub fn write_mended(
    page: &mut [u8],
    reading: Reading,
    counts: &[u64],
    speed_beats: &[f64],
    speed_ratios: &[f64],
    speed_delays: &[f64],
    speed_units: &[u8],
    scroll_beats: &[f64],
    scroll_values: &[f64],
) -> usize
    ensures fact { let scrolls = list_columns scroll_beats.now scroll_values.now in
        let speeds = speed_columns speed_beats.now speed_ratios.now speed_delays.now speed_units.now in
        MendTold (mend_text reading counts.now scrolls speeds) result page.old page.new }
    ensures prefix_len { IsPrefixLen result page.new }
{
    let number = report_form::answer(reading, counts);
    if number != limits::TAKEN {
        return report_answer::write_refusal(page, number);
    }
    let speeds = report_form::count_of(counts, 6);
    let scrolls = report_form::count_of(counts, 7);
    write_lists(
        page,
        report_form::front(scroll_beats, scrolls),
        report_form::front(scroll_values, scrolls),
        report_form::front(speed_beats, speeds),
        report_form::front(speed_ratios, speeds),
        report_form::front(speed_delays, speeds),
        report_answer::front_units(speed_units, speeds),
    )
}
