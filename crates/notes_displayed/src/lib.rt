// Where a beat is drawn. A scroll says how fast the display moves from its beat on: by its ratio, until the next one.
#![tactic(auto)]

ghost use Rattle.std.specs.Prelude.{◌≡◌, ℕ, ◌<◌, ◌≤◌, length, slice_index, slice_index_or, Float};
ghost use Rattle.std.specs.Float.{nan};
ghost use Rattle.limits.specs.Table.{most_entries};
ghost use Rattle.order.specs.Order.{laid};
ghost use Rattle.columns.specs.Each.{laid_each};
ghost use Rattle.clock_tests.specs.TimingNumbers.{beat_number};
ghost use Rattle.notes_displayed.specs.Scrolls.{scrolled_on, scroll_prefix, displayed_from, behind_scrolls, displayed_beat, found_up_to};
ghost use Rattle.notes_displayed.specs.Answers.{scroll_columns_number, displayed, displayed_at, checked_at, PrefixLaid, BeatsDisplayed};
ghost use Rattle.notes_displayed.specs.inside.Steps.{AllDisplayed};

use columns::Outcome;
use limits::Kind;

// The refusal number, and where the beat is drawn; 0 after a refusal.
#[repr(C)]
#[derive(Clone, Copy)]
pub struct Displayed {
    pub number: u32,
    pub beat: f64,
}

// ---- the tests

// What the scrolls answer by themselves: 1, 2, 3 or 4, 5 where their beats fall, and 0 where they are taken.
fn scroll_columns_number(scroll_beats: &[f32], scroll_ratios: &[f32]) -> u32
    ensures { result ≡ scroll_columns_number scroll_beats.now scroll_ratios.now }
{
    let number = limits::list_number(Kind::Beat, Kind::Value, scroll_beats, scroll_ratios);
    if number == limits::TAKEN {
        if columns_order::never_fall(scroll_beats) {
            return limits::TAKEN;
        }
        return limits::NOT_RISING;
    }
    number
}

// ---- by a walk

// How far the display has moved at a beat, by how far it had at an earlier one and the ratio since: three roundings.
fn scrolled_on(shown: f64, from: f64, ratio: f64, to: f64) -> f64
    ensures { result ≡ scrolled_on shown from ratio to }
{
    shown + (to - from) * ratio
}

// Where a beat behind a scroll is drawn, by how far the display has moved at the scroll: the product and the sum have one rounding.
fn displayed_from(shown: f64, from: f64, ratio: f64, beat: f64) -> f64
    ensures { result ≡ displayed_from shown from ratio beat }
{
    ieee_mul_add::mul_add_f64(beat - from, ratio, shown)
}

// Passes the scrolls up to the beat, one after the other.
fn walk_to(scroll_beats: &[f32], scroll_ratios: &[f32], beat: f64) -> f64
    requires { length scroll_beats.now ≡ length scroll_ratios.now }
    ensures { result ≡ displayed_beat scroll_beats.now scroll_ratios.now beat }
{
    let mut shown = 0.0;
    let mut from = 0.0;
    let mut ratio = 1.0;
    for (i, &scroll_beat) in scroll_beats.iter().enumerate() {
        let next = std::num::f32_to_f64_with_nan(scroll_beat);
        if next <= beat {
            shown = scrolled_on(shown, from, ratio, next);
            from = next;
            ratio = std::num::f32_to_f64_with_nan(scroll_ratios[i]);
            continue;
        }
        if i == 0 {
            return beat;
        }
        return displayed_from(shown, from, ratio, beat);
    }
    if scroll_beats.is_empty() {
        return beat;
    }
    displayed_from(shown, from, ratio, beat)
}

// Where a beat is drawn: at the beat itself before the first scroll and where there is none. Tests the scrolls and the beat: 1 to 5, of several the lowest.
pub fn get_displayed_beat(scroll_beats: &[f32], scroll_ratios: &[f32], beat: f64) -> Displayed
    ensures { result ≡ displayed_at scroll_beats.now scroll_ratios.now beat }
{
    let scrolls = scroll_columns_number(scroll_beats, scroll_ratios);
    let number = limits::lower_of(scrolls, clock_tests::beat_number(beat));
    if number == limits::TAKEN {
        return Displayed {
            number: limits::TAKEN,
            beat: walk_to(scroll_beats, scroll_ratios, beat),
        };
    }
    Displayed {
        number: number,
        beat: 0.0,
    }
}

// ---- the prefix

// How far the display has moved at each scroll, over the front of the room.
fn lay_prefix(scroll_beats: &[f32], scroll_ratios: &[f32], prefix: &mut [f64])
    requires { (length scroll_beats.now ≡ length scroll_ratios.now) × (length scroll_beats.now ≤ length prefix.old) }
    ensures { prefix.new ≡ laid (scroll_prefix scroll_beats.now scroll_ratios.now) prefix.old }
{
    let mut shown = 0.0;
    let mut from = 0.0;
    let mut ratio = 1.0;
    for (i, &scroll_beat) in scroll_beats.iter().enumerate() {
        let next = std::num::f32_to_f64_with_nan(scroll_beat);
        shown = scrolled_on(shown, from, ratio, next);
        prefix[i] = shown;
        from = next;
        ratio = std::num::f32_to_f64_with_nan(scroll_ratios[i]);
    }
}

// Tests the scrolls once and writes what `get_displayed_beat_checked` needs of them, an entry for each. Refused with 1 to 5, then with 7 where the room is shorter.
pub fn build_scroll_prefix(
    scroll_beats: &[f32],
    scroll_ratios: &[f32],
    prefix: &mut [f64],
) -> Outcome
    ensures { PrefixLaid scroll_beats.now scroll_ratios.now result prefix.old prefix.new }
{
    let number = scroll_columns_number(scroll_beats, scroll_ratios);
    if number != limits::TAKEN {
        return columns::refused(number);
    }
    if scroll_beats.len() > prefix.len() {
        return columns::refused(limits::NO_ROOM);
    }
    lay_prefix(scroll_beats, scroll_ratios, prefix);
    Outcome {
        number: limits::TAKEN,
        count: scroll_beats.len(),
    }
}

// ---- by the prefix

// The number at a place of a column; a NaN past its end.
fn number_at(column: &[f64], place: usize) -> f64
    ensures { result ≡ slice_index_or column.now place nan }
{
    if place < column.len() {
        return column[place];
    }
    0.0 / 0.0
}

fn number_at_f32(column: &[f32], place: usize) -> f64
    ensures { result ≡ slice_index_or column.now place nan }
{
    if place < column.len() {
        return std::num::f32_to_f64_with_nan(column[place]);
    }
    0.0 / 0.0
}

// Where a beat is drawn behind some scrolls: by the last of them.
fn draw_behind(
    scroll_beats: &[f32],
    scroll_ratios: &[f32],
    prefix: &[f64],
    count: usize,
    beat: f64,
) -> f64
    ensures { result ≡ behind_scrolls scroll_beats.now scroll_ratios.now prefix.now count beat }
{
    if count == 0 {
        return beat;
    }
    let last = count - 1;
    displayed_from(
        number_at(prefix, last),
        number_at_f32(scroll_beats, last),
        number_at_f32(scroll_ratios, last),
        beat,
    )
}

// How many scrolls a search finds at or before a beat.
fn count_up_to(scroll_beats: &[f32], beat: f64) -> usize
    ensures { result ≡ found_up_to beat scroll_beats.now }
{
    order_search::place_of(scroll_beats, order_search::f32_up_to(beat))
}

// The same position from scrolls that were tested once, by the prefix that `build_scroll_prefix` wrote, in a time that grows with the logarithm of their count
// (`displayed-checked-is-tested`). Takes any lists and any prefix, and refuses only a beat beyond the limit, with 3.
pub fn get_displayed_beat_checked(
    scroll_beats: &[f32],
    scroll_ratios: &[f32],
    prefix: &[f64],
    beat: f64,
) -> Displayed
    ensures { result ≡ checked_at scroll_beats.now scroll_ratios.now prefix.now beat }
{
    let number = clock_tests::beat_number(beat);
    if number == limits::TAKEN {
        let count = count_up_to(scroll_beats, beat);
        return Displayed {
            number: limits::TAKEN,
            beat: draw_behind(scroll_beats, scroll_ratios, prefix, count, beat),
        };
    }
    Displayed {
        number: number,
        beat: 0.0,
    }
}

// ---- many beats

// The searches come first, all of them, and what they find waits in the column of numbers: what is made of it then is at hand when a test depends on it.
fn count_each(scroll_beats: &[f32], beats: &[f64], numbers: &mut [u32])
    requires { (length scroll_beats.now ≤ most_entries) × (length beats.now ≤ length numbers.old) }
    ensures { numbers.new ≡ laid_each (λ (beat : Float). found_up_to beat scroll_beats.now) beats.now numbers.old }
{
    for (i, &beat) in beats.iter().enumerate() {
        numbers[i] = count_up_to(scroll_beats, beat) as u32;
    }
}

// Tests the beat, and draws it behind as many scrolls as were found.
fn answer_behind(
    scroll_beats: &[f32],
    scroll_ratios: &[f32],
    prefix: &[f64],
    count: usize,
    beat: f64,
) -> Displayed
    ensures { result ≡ displayed (beat_number beat) (behind_scrolls scroll_beats.now scroll_ratios.now prefix.now count beat) }
{
    let number = clock_tests::beat_number(beat);
    if number == limits::TAKEN {
        return Displayed {
            number: limits::TAKEN,
            beat: draw_behind(scroll_beats, scroll_ratios, prefix, count, beat),
        };
    }
    Displayed {
        number: number,
        beat: 0.0,
    }
}

// Answers each beat by the count that stands in the column of numbers.
fn answer_each(
    scroll_beats: &[f32],
    scroll_ratios: &[f32],
    prefix: &[f64],
    beats: &[f64],
    numbers: &mut [u32],
    positions: &mut [f64],
)
    requires { (length beats.now ≤ length numbers.old) × (length beats.now ≤ length positions.old)
        × ((i : ℕ) → i < length beats.now → slice_index numbers.old i ≡ found_up_to (slice_index_or beats.now i nan) scroll_beats.now) }
    ensures { let at = checked_at scroll_beats.now scroll_ratios.now prefix.now in
        (numbers.new ≡ laid_each (λ (beat : Float). (at beat).number) beats.now numbers.old)
        × (positions.new ≡ laid_each (λ (beat : Float). (at beat).beat) beats.now positions.old) }
{
    for (i, &beat) in beats.iter().enumerate() {
        let count = numbers[i] as usize;
        let shown = answer_behind(scroll_beats, scroll_ratios, prefix, count, beat);
        numbers[i] = shown.number;
        positions[i] = shown.beat;
    }
}

// By way of a column that has room for the prefix.
fn show_by(
    scroll_beats: &[f32],
    scroll_ratios: &[f32],
    prefix: &mut [f64],
    beats: &[f64],
    numbers: &mut [u32],
    positions: &mut [f64],
)
    requires { (scroll_columns_number scroll_beats.now scroll_ratios.now ≡ 0) × (length scroll_beats.now ≤ length prefix.old)
        × (length beats.now ≤ length numbers.old) × (length beats.now ≤ length positions.old) }
    ensures { AllDisplayed scroll_beats.now scroll_ratios.now beats.now
        numbers.old numbers.new positions.old positions.new }
{
    lay_prefix(scroll_beats, scroll_ratios, prefix);
    count_each(scroll_beats, beats, numbers);
    answer_each(
        scroll_beats,
        scroll_ratios,
        prefix,
        beats,
        numbers,
        positions,
    );
}

fn show_all(
    scroll_beats: &[f32],
    scroll_ratios: &[f32],
    beats: &[f64],
    numbers: &mut [u32],
    positions: &mut [f64],
)
    requires { (scroll_columns_number scroll_beats.now scroll_ratios.now ≡ 0)
        × (length beats.now ≤ length numbers.old) × (length beats.now ≤ length positions.old) }
    ensures { AllDisplayed scroll_beats.now scroll_ratios.now beats.now
        numbers.old numbers.new positions.old positions.new }
{
    let n = scroll_beats.len();
    let mut prefix = [0.0; limits::MOST_ENTRIES];
    show_by(
        scroll_beats,
        scroll_ratios,
        &mut prefix[..n],
        beats,
        numbers,
        positions,
    );
}

// For each beat what `get_displayed_beat` answers, its number and its position, over the fronts of both columns. A beat that is refused has 3 and position 0
// there, and the call is still taken. The scrolls are tested once: 1 to 5 for the whole call, then 7 where there are more beats than the shorter column has room for.
pub fn get_displayed_beats(
    scroll_beats: &[f32],
    scroll_ratios: &[f32],
    beats: &[f64],
    numbers: &mut [u32],
    positions: &mut [f64],
) -> Outcome
    ensures { BeatsDisplayed scroll_beats.now scroll_ratios.now beats.now result
        numbers.old numbers.new positions.old positions.new }
{
    let number = scroll_columns_number(scroll_beats, scroll_ratios);
    if number != limits::TAKEN {
        return columns::refused(number);
    }
    if beats.len() > columns::room_of(numbers.len(), positions.len()) {
        return columns::refused(limits::NO_ROOM);
    }
    show_all(scroll_beats, scroll_ratios, beats, numbers, positions);
    Outcome {
        number: limits::TAKEN,
        count: beats.len(),
    }
}
