// Replays the original's stored answers for the calls that take lists, from standard input: words of 16 hexadecimal digits, one a line.
// The first says how many cases follow. A case is the call's number, then columns, each with its length before it, and the answer.
// A room for results has 300 places, each of which holds the same number before the call; what the call has to write is stored.
#![tactic(auto)]

ghost use Rattle.std.specs.Prelude.{◌≤◌, length};
ghost use Rattle.io.specs.Counts.{IsPrefixLen};

use chart::State;
use clock::{Answer, Cursor};
use clock_bench::BenchAnswer;
use clock_walk::Mark;
use columns::Outcome;
use lookup::Looked;
use notes_displayed::Displayed;
use process_raw::Processed;
use std::io::Read;

// The most numbers of a stored column, and the bytes of a line.
const MOST: usize = 1100;

const LINE: usize = 17;

// The places of a room for results.
const ROOM: usize = 300;

// The bytes that are read at once, and the most words that are stored.
const PIECE: usize = 4096 * LINE;

const WORDS: usize = 81920;

// Whether a case's call answered as stored, and where the next case begins.
#[derive(Clone, Copy)]
struct Replayed {
    same: bool,
    next: usize,
}

// ---- words

fn both(one: bool, other: bool) -> bool {
    if one {
        return other;
    }
    false
}

// A place so many further on; places far past every text are one.
fn further(at: usize, more: usize) -> usize {
    if at >= 0x4000_0000 {
        return 0x4000_0000;
    }
    if more >= 0x4000_0000 {
        return 0x4000_0000;
    }
    at + more
}

// Past the end 0.
fn word_at(words: &[u64], at: usize) -> u64 {
    if at < words.len() { words[at] } else { 0 }
}

// A column's length, held at the most.
fn size_at(words: &[u64], at: usize) -> usize {
    let size = word_at(words, at);
    if size > 1100 {
        return MOST;
    }
    size as usize
}

// The place behind a column.
fn behind(words: &[u64], at: usize) -> usize {
    further(at, further(1, size_at(words, at)))
}

fn entry_at(words: &[u64], column: usize, i: usize) -> u64 {
    word_at(words, further(column, further(1, i)))
}

fn f32_of_word(word: u64) -> f32 {
    ieee_patterns::f32_of_bits((word % 0x1_0000_0000) as u32)
}

// The whole number whose two's complement stands in the lower half.
fn row_of_word(word: u64) -> i32 {
    let low = (word % 0x1_0000_0000) as u32;
    if low < 0x8000_0000 {
        return ieee::lrint_f64(low as f64);
    }
    ieee::lrint_f64((low as f64) - 4294967296.0)
}

fn is_f64(x: f64, word: u64) -> bool {
    ieee_patterns::bits_of_f64(x) == word
}

fn is_row(row: i32, word: u64) -> bool {
    row == row_of_word(word)
}

fn is_byte(byte: u8, word: u64) -> bool {
    byte as u64 == word
}

fn is_u32(number: u32, word: u64) -> bool {
    number as u64 == word
}

fn is_yes(yes: bool, word: u64) -> bool {
    if yes {
        return word == 1;
    }
    word == 0
}

// ---- columns: parts of the words read as numbers, and held against what is stored

// What a column has, as a word of the cases stores it.
trait Stored: Copy {
    // What stood in the column before the call.
    const UNTOUCHED: u64;

    fn is(self, word: u64) -> bool;
}

// What a case can give to a call.
trait Given: Stored {
    fn of_word(word: u64) -> Self;
}

impl Stored for f64 {
    const UNTOUCHED: u64 = 0x3FF8_0000_0000_0000;

    fn is(self, word: u64) -> bool {
        is_f64(self, word)
    }
}

impl Given for f64 {
    fn of_word(word: u64) -> f64 {
        ieee_patterns::f64_of_bits(word)
    }
}

impl Stored for f32 {
    const UNTOUCHED: u64 = 0x3FC0_0000;

    fn is(self, word: u64) -> bool {
        ieee_patterns::bits_of_f32(self) as u64 == word
    }
}

impl Given for f32 {
    fn of_word(word: u64) -> f32 {
        f32_of_word(word)
    }
}

// A row.
impl Stored for i32 {
    const UNTOUCHED: u64 = 77;

    fn is(self, word: u64) -> bool {
        is_row(self, word)
    }
}

impl Given for i32 {
    fn of_word(word: u64) -> i32 {
        row_of_word(word)
    }
}

// A unit, a mark or a flag.
impl Stored for u8 {
    const UNTOUCHED: u64 = 77;

    fn is(self, word: u64) -> bool {
        is_byte(self, word)
    }
}

impl Given for u8 {
    fn of_word(word: u64) -> u8 {
        (word % 256) as u8
    }
}

impl Stored for u32 {
    const UNTOUCHED: u64 = 77;

    fn is(self, word: u64) -> bool {
        is_u32(self, word)
    }
}

// A count.
impl Stored for usize {
    const UNTOUCHED: u64 = 77;

    fn is(self, word: u64) -> bool {
        self as u64 == word
    }
}

// All words as entries of a column.
fn read_column<T: Given>(words: &[u64], to: &mut [T]) {
    for (i, entry) in to.iter_mut().enumerate() {
        *entry = T::of_word(word_at(words, i));
    }
}

// The column at a place; none where it would reach past the end.
fn column<'a, T>(entries: &'a [T], words: &[u64], at: usize) -> &'a [T] {
    let from = further(at, 1);
    let size = size_at(words, at);
    if from > entries.len() {
        return &entries[..0];
    }
    if size > entries.len() - from {
        return &entries[..0];
    }
    &entries[from..from + size]
}

// What a place has to hold: what is stored, and past that what was there before.
fn entry_or(words: &[u64], column: usize, size: usize, i: usize, untouched: u64) -> u64 {
    if i < size {
        return entry_at(words, column, i);
    }
    untouched
}

// Whether a column is what is stored at a place.
fn same_column<T: Stored>(words: &[u64], column: usize, found: &[T]) -> bool {
    let size = size_at(words, column);
    let mut same = true;
    for (i, &entry) in found.iter().enumerate() {
        let stored = entry_or(words, column, size, i, T::UNTOUCHED);
        same = both(same, entry.is(stored));
    }
    same
}

fn same_outcome(words: &[u64], at: usize, outcome: Outcome) -> bool {
    both(
        is_u32(outcome.number, word_at(words, at)),
        outcome.count as u64 == word_at(words, further(at, 1)),
    )
}

// ---- tidying

fn tidy(
    call: u64,
    beats: &[f64],
    values: &[f64],
    out_beats: &mut [f64],
    out_values: &mut [f64],
) -> Outcome {
    if call == 1 {
        return tidy_rows::tidy_row_segments(beats, values, out_beats, out_values);
    }
    if call == 2 {
        return tidy_tempos::tidy_bpms(beats, values, out_beats, out_values);
    }
    tidy_scrolls::tidy_scroll_segments(beats, values, out_beats, out_values)
}

// Rows, tempos and scrolls: two columns in, two out.
fn replay_pair(words: &[u64], numbers: &[f64], at: usize) -> Replayed {
    let beats_at = further(at, 1);
    let values_at = behind(words, beats_at);
    let out_beats_at = behind(words, values_at);
    let out_values_at = behind(words, out_beats_at);
    let answer_at = behind(words, out_values_at);
    let mut out_beats_room = [1.5; ROOM];
    let mut out_values_room = [1.5; ROOM];
    let outcome = tidy(
        word_at(words, at),
        column(numbers, words, beats_at),
        column(numbers, words, values_at),
        &mut out_beats_room,
        &mut out_values_room,
    );
    let mut same = same_outcome(words, answer_at, outcome);
    same = both(same, same_column(words, out_beats_at, &out_beats_room));
    same = both(same, same_column(words, out_values_at, &out_values_room));
    Replayed {
        same: same,
        next: further(answer_at, 2),
    }
}

// Speeds.
fn replay_speeds(words: &[u64], numbers: &[f64], bytes: &[u8], at: usize) -> Replayed {
    let beats_at = further(at, 1);
    let ratios_at = behind(words, beats_at);
    let delays_at = behind(words, ratios_at);
    let units_at = behind(words, delays_at);
    let out_beats_at = behind(words, units_at);
    let out_ratios_at = behind(words, out_beats_at);
    let out_delays_at = behind(words, out_ratios_at);
    let out_units_at = behind(words, out_delays_at);
    let answer_at = behind(words, out_units_at);
    let mut out_beats_room = [1.5; ROOM];
    let mut out_ratios_room = [1.5; ROOM];
    let mut out_delays_room = [1.5; ROOM];
    let mut out_units_room = [77u8; ROOM];
    let outcome = tidy_speeds::tidy_speed_segments(
        column(numbers, words, beats_at),
        column(numbers, words, ratios_at),
        column(numbers, words, delays_at),
        column(bytes, words, units_at),
        &mut out_beats_room,
        &mut out_ratios_room,
        &mut out_delays_room,
        &mut out_units_room,
    );
    let mut same = same_outcome(words, answer_at, outcome);
    same = both(same, same_column(words, out_beats_at, &out_beats_room));
    same = both(same, same_column(words, out_ratios_at, &out_ratios_room));
    same = both(same, same_column(words, out_delays_at, &out_delays_room));
    same = both(same, same_column(words, out_units_at, &out_units_room));
    Replayed {
        same: same,
        next: further(answer_at, 2),
    }
}

// ---- processing

fn same_processed(words: &[u64], at: usize, processed: Processed) -> bool {
    let same = both(
        is_u32(processed.number, word_at(words, at)),
        processed.tempos as u64 == word_at(words, further(at, 1)),
    );
    let same = both(
        same,
        processed.stops as u64 == word_at(words, further(at, 2)),
    );
    let same = both(
        same,
        processed.warps as u64 == word_at(words, further(at, 3)),
    );
    both(
        same,
        is_f64(processed.offset, word_at(words, further(at, 4))),
    )
}

// SSC.
fn replay_ssc(words: &[u64], numbers: &[f64], at: usize) -> Replayed {
    let tempo_beats_at = further(at, 1);
    let tempo_values_at = behind(words, tempo_beats_at);
    let stop_beats_at = behind(words, tempo_values_at);
    let stop_values_at = behind(words, stop_beats_at);
    let out_tempo_beats_at = behind(words, stop_values_at);
    let out_tempo_values_at = behind(words, out_tempo_beats_at);
    let out_stop_beats_at = behind(words, out_tempo_values_at);
    let out_stop_values_at = behind(words, out_stop_beats_at);
    let answer_at = behind(words, out_stop_values_at);
    let mut out_tempo_beats_room = [1.5; ROOM];
    let mut out_tempo_values_room = [1.5; ROOM];
    let mut out_stop_beats_room = [1.5; ROOM];
    let mut out_stop_values_room = [1.5; ROOM];
    let processed = process_ssc::process_bpms_and_stops_ssc(
        column(numbers, words, tempo_beats_at),
        column(numbers, words, tempo_values_at),
        column(numbers, words, stop_beats_at),
        column(numbers, words, stop_values_at),
        &mut out_tempo_beats_room,
        &mut out_tempo_values_room,
        &mut out_stop_beats_room,
        &mut out_stop_values_room,
    );
    let mut same = same_processed(words, answer_at, processed);
    same = both(
        same,
        same_column(words, out_tempo_beats_at, &out_tempo_beats_room),
    );
    same = both(
        same,
        same_column(words, out_tempo_values_at, &out_tempo_values_room),
    );
    same = both(
        same,
        same_column(words, out_stop_beats_at, &out_stop_beats_room),
    );
    same = both(
        same,
        same_column(words, out_stop_values_at, &out_stop_values_room),
    );
    Replayed {
        same: same,
        next: further(answer_at, 5),
    }
}

// SM.
fn replay_sm(words: &[u64], numbers: &[f64], at: usize) -> Replayed {
    let tempo_beats_at = further(at, 1);
    let tempo_values_at = behind(words, tempo_beats_at);
    let stop_beats_at = behind(words, tempo_values_at);
    let stop_values_at = behind(words, stop_beats_at);
    let out_tempo_beats_at = behind(words, stop_values_at);
    let out_tempo_values_at = behind(words, out_tempo_beats_at);
    let out_stop_beats_at = behind(words, out_tempo_values_at);
    let out_stop_values_at = behind(words, out_stop_beats_at);
    let out_warp_beats_at = behind(words, out_stop_values_at);
    let out_warp_lengths_at = behind(words, out_warp_beats_at);
    let answer_at = behind(words, out_warp_lengths_at);
    let mut out_tempo_beats_room = [1.5; ROOM];
    let mut out_tempo_values_room = [1.5; ROOM];
    let mut out_stop_beats_room = [1.5; ROOM];
    let mut out_stop_values_room = [1.5; ROOM];
    let mut out_warp_beats_room = [1.5; ROOM];
    let mut out_warp_lengths_room = [1.5; ROOM];
    let processed = process_sm::process_bpms_and_stops_sm(
        column(numbers, words, tempo_beats_at),
        column(numbers, words, tempo_values_at),
        column(numbers, words, stop_beats_at),
        column(numbers, words, stop_values_at),
        &mut out_tempo_beats_room,
        &mut out_tempo_values_room,
        &mut out_stop_beats_room,
        &mut out_stop_values_room,
        &mut out_warp_beats_room,
        &mut out_warp_lengths_room,
    );
    let mut same = same_processed(words, answer_at, processed);
    same = both(
        same,
        same_column(words, out_tempo_beats_at, &out_tempo_beats_room),
    );
    same = both(
        same,
        same_column(words, out_tempo_values_at, &out_tempo_values_room),
    );
    same = both(
        same,
        same_column(words, out_stop_beats_at, &out_stop_beats_room),
    );
    same = both(
        same,
        same_column(words, out_stop_values_at, &out_stop_values_room),
    );
    same = both(
        same,
        same_column(words, out_warp_beats_at, &out_warp_beats_room),
    );
    same = both(
        same,
        same_column(words, out_warp_lengths_at, &out_warp_lengths_room),
    );
    Replayed {
        same: same,
        next: further(answer_at, 5),
    }
}

// ---- SM stops, row store, lookups

// The stops of an SM chart.
fn replay_sm_stops(words: &[u64], floats: &[f32], at: usize) -> Replayed {
    let tempo_beats_at = further(at, 1);
    let tempo_values_at = behind(words, tempo_beats_at);
    let stops_at = behind(words, tempo_values_at);
    let delay_beats_at = behind(words, stops_at);
    let delay_values_at = behind(words, delay_beats_at);
    let warp_beats_at = behind(words, delay_values_at);
    let warp_lengths_at = behind(words, warp_beats_at);
    let work_at = behind(words, warp_lengths_at);
    let answer_at = behind(words, work_at);
    let mut work_room = [1.5f32; ROOM];
    let filled = stops_for_sm::convert_warps_and_delays_to_sm_stops(
        column(floats, words, tempo_beats_at),
        column(floats, words, tempo_values_at),
        column(floats, words, stops_at),
        column(floats, words, delay_beats_at),
        column(floats, words, delay_values_at),
        column(floats, words, warp_beats_at),
        column(floats, words, warp_lengths_at),
        &mut work_room,
    );
    let mut same = both(
        is_u32(filled.number, word_at(words, answer_at)),
        filled.count as u64 == word_at(words, further(answer_at, 1)),
    );
    same = both(
        same,
        is_yes(filled.own, word_at(words, further(answer_at, 2))),
    );
    same = both(same, same_column(words, work_at, &work_room));
    Replayed {
        same: same,
        next: further(answer_at, 3),
    }
}

// The row store. The original has no marks, so that each warp is a written one.
fn replay_row_store(words: &[u64], floats: &[f32], at: usize) -> Replayed {
    let stop_beats_at = further(at, 1);
    let stop_values_at = behind(words, stop_beats_at);
    let delay_beats_at = behind(words, stop_values_at);
    let delay_values_at = behind(words, delay_beats_at);
    let warp_beats_at = behind(words, delay_values_at);
    let warp_lengths_at = behind(words, warp_beats_at);
    let fake_beats_at = behind(words, warp_lengths_at);
    let fake_lengths_at = behind(words, fake_beats_at);
    let stored_at = behind(words, fake_lengths_at);
    let answer_at = behind(words, stored_at);
    let warp_beats = column(floats, words, warp_beats_at);
    let marks = [0u8; limits::MOST_ENTRIES];
    let mut stored_room = [77i32; ROOM];
    let mut marks_room = [77u8; limits::MOST_ENTRIES];
    let stored = lookup_row_store::build_segment_row_storage(
        column(floats, words, stop_beats_at),
        column(floats, words, stop_values_at),
        column(floats, words, delay_beats_at),
        column(floats, words, delay_values_at),
        warp_beats,
        column(floats, words, warp_lengths_at),
        column(floats, words, fake_beats_at),
        column(floats, words, fake_lengths_at),
        report_answer::front_units(&marks, warp_beats.len()),
        &mut stored_room,
        &mut marks_room,
    );
    let mut same = both(
        is_u32(stored.number, word_at(words, answer_at)),
        stored.stops as u64 == word_at(words, further(answer_at, 1)),
    );
    same = both(
        same,
        stored.delays as u64 == word_at(words, further(answer_at, 2)),
    );
    same = both(
        same,
        stored.warps as u64 == word_at(words, further(answer_at, 3)),
    );
    same = both(
        same,
        stored.fakes as u64 == word_at(words, further(answer_at, 4)),
    );
    same = both(same, same_column(words, stored_at, &stored_room));
    Replayed {
        same: same,
        next: further(answer_at, 5),
    }
}

fn same_looked(words: &[u64], at: usize, looked: Looked) -> bool {
    both(
        is_u32(looked.number, word_at(words, at)),
        is_yes(looked.yes, word_at(words, further(at, 1))),
    )
}

// One lookup twice: the tested one, and where the test of the lists takes them the checked one too.
fn same_twice(words: &[u64], at: usize, number: u32, tested: Looked, checked: Looked) -> bool {
    let same = same_looked(words, at, tested);
    if number != 0 {
        return same;
    }
    both(same, same_looked(words, at, checked))
}

// All six lookups, of a row and of a beat, and their checked twins.
fn replay_lookups(words: &[u64], floats: &[f32], at: usize) -> Replayed {
    let stop_beats_at = further(at, 1);
    let stop_values_at = behind(words, stop_beats_at);
    let delay_beats_at = behind(words, stop_values_at);
    let delay_values_at = behind(words, delay_beats_at);
    let warp_beats_at = behind(words, delay_values_at);
    let warp_lengths_at = behind(words, warp_beats_at);
    let fake_beats_at = behind(words, warp_lengths_at);
    let fake_lengths_at = behind(words, fake_beats_at);
    let answer_at = behind(words, fake_lengths_at);
    let stop_beats = column(floats, words, stop_beats_at);
    let stop_values = column(floats, words, stop_values_at);
    let delay_beats = column(floats, words, delay_beats_at);
    let delay_values = column(floats, words, delay_values_at);
    let warp_beats = column(floats, words, warp_beats_at);
    let warp_lengths = column(floats, words, warp_lengths_at);
    let fake_beats = column(floats, words, fake_beats_at);
    let fake_lengths = column(floats, words, fake_lengths_at);
    let row = row_of_word(word_at(words, answer_at));
    let beat = ieee_patterns::f64_of_bits(word_at(words, further(answer_at, 1)));
    let number = lookup_checked::check_lookups(
        stop_beats,
        stop_values,
        delay_beats,
        delay_values,
        warp_beats,
        warp_lengths,
        fake_beats,
        fake_lengths,
    );
    let tested = lookup::is_warp_at_row(
        stop_beats,
        stop_values,
        delay_beats,
        delay_values,
        warp_beats,
        warp_lengths,
        row,
    );
    let checked = lookup_checked::is_warp_at_row_checked(
        stop_beats,
        stop_values,
        delay_beats,
        delay_values,
        warp_beats,
        warp_lengths,
        row,
    );
    let same = same_twice(words, further(answer_at, 2), number, tested, checked);
    let tested = lookup::is_warp_at_beat(
        stop_beats,
        stop_values,
        delay_beats,
        delay_values,
        warp_beats,
        warp_lengths,
        beat,
    );
    let checked = lookup_checked::is_warp_at_beat_checked(
        stop_beats,
        stop_values,
        delay_beats,
        delay_values,
        warp_beats,
        warp_lengths,
        beat,
    );
    let same = both(
        same,
        same_twice(words, further(answer_at, 4), number, tested, checked),
    );
    let tested = lookup::is_fake_at_row(fake_beats, fake_lengths, row);
    let checked = lookup_checked::is_fake_at_row_checked(fake_beats, fake_lengths, row);
    let same = both(
        same,
        same_twice(words, further(answer_at, 6), number, tested, checked),
    );
    let tested = lookup::is_fake_at_beat(fake_beats, fake_lengths, beat);
    let checked = lookup_checked::is_fake_at_beat_checked(fake_beats, fake_lengths, beat);
    let same = both(
        same,
        same_twice(words, further(answer_at, 8), number, tested, checked),
    );
    let tested = lookup::is_judgable_at_row(
        stop_beats,
        stop_values,
        delay_beats,
        delay_values,
        warp_beats,
        warp_lengths,
        fake_beats,
        fake_lengths,
        row,
    );
    let checked = lookup_checked::is_judgable_at_row_checked(
        stop_beats,
        stop_values,
        delay_beats,
        delay_values,
        warp_beats,
        warp_lengths,
        fake_beats,
        fake_lengths,
        row,
    );
    let same = both(
        same,
        same_twice(words, further(answer_at, 10), number, tested, checked),
    );
    let tested = lookup::is_judgable_at_beat(
        stop_beats,
        stop_values,
        delay_beats,
        delay_values,
        warp_beats,
        warp_lengths,
        fake_beats,
        fake_lengths,
        beat,
    );
    let checked = lookup_checked::is_judgable_at_beat_checked(
        stop_beats,
        stop_values,
        delay_beats,
        delay_values,
        warp_beats,
        warp_lengths,
        fake_beats,
        fake_lengths,
        beat,
    );
    let same = both(
        same,
        same_twice(words, further(answer_at, 12), number, tested, checked),
    );
    Replayed {
        same: same,
        next: further(answer_at, 14),
    }
}

// Many rows after one test.
fn replay_judgable_rows(words: &[u64], floats: &[f32], rows: &[i32], at: usize) -> Replayed {
    let stop_beats_at = further(at, 1);
    let stop_values_at = behind(words, stop_beats_at);
    let delay_beats_at = behind(words, stop_values_at);
    let delay_values_at = behind(words, delay_beats_at);
    let warp_beats_at = behind(words, delay_values_at);
    let warp_lengths_at = behind(words, warp_beats_at);
    let fake_beats_at = behind(words, warp_lengths_at);
    let fake_lengths_at = behind(words, fake_beats_at);
    let asked_at = behind(words, fake_lengths_at);
    let out_at = behind(words, asked_at);
    let answer_at = behind(words, out_at);
    let mut out_room = [77u8; ROOM];
    let outcome = lookup::judgable_rows(
        column(floats, words, stop_beats_at),
        column(floats, words, stop_values_at),
        column(floats, words, delay_beats_at),
        column(floats, words, delay_values_at),
        column(floats, words, warp_beats_at),
        column(floats, words, warp_lengths_at),
        column(floats, words, fake_beats_at),
        column(floats, words, fake_lengths_at),
        column(rows, words, asked_at),
        &mut out_room,
    );
    let mut same = same_outcome(words, answer_at, outcome);
    same = both(same, same_column(words, out_at, &out_room));
    Replayed {
        same: same,
        next: further(answer_at, 2),
    }
}

// ---- the clock

fn same_cursor(words: &[u64], at: usize, cursor: Cursor) -> bool {
    let state = cursor.state;
    let same = both(
        state.tempos as u64 == word_at(words, at),
        state.stops as u64 == word_at(words, further(at, 1)),
    );
    let same = both(same, state.delays as u64 == word_at(words, further(at, 2)));
    let same = both(same, state.warps as u64 == word_at(words, further(at, 3)));
    let same = both(same, is_row(state.row, word_at(words, further(at, 4))));
    let same = both(same, is_yes(state.warping, word_at(words, further(at, 5))));
    let same = both(same, is_f64(state.time, word_at(words, further(at, 6))));
    let same = both(same, is_f64(state.end, word_at(words, further(at, 7))));
    both(same, is_row(cursor.asked, word_at(words, further(at, 8))))
}

fn cursor_of_words(words: &[u64], at: usize) -> Cursor {
    Cursor {
        state: State {
            tempos: word_at(words, at) as usize,
            stops: word_at(words, further(at, 1)) as usize,
            delays: word_at(words, further(at, 2)) as usize,
            warps: word_at(words, further(at, 3)) as usize,
            row: row_of_word(word_at(words, further(at, 4))),
            warping: word_at(words, further(at, 5)) == 1,
            time: ieee_patterns::f64_of_bits(word_at(words, further(at, 6))),
            end: ieee_patterns::f64_of_bits(word_at(words, further(at, 7))),
        },
        asked: row_of_word(word_at(words, further(at, 8))),
    }
}

// What is asked only of a timing that is taken.
fn if_taken(number: u32, same: bool) -> bool {
    if number == 0 {
        return same;
    }
    true
}

// A question's answer, and the cursor that it hands back.
fn same_answer(words: &[u64], at: usize, answer: Answer) -> bool {
    let same = both(
        is_u32(answer.number, word_at(words, at)),
        is_f64(answer.time, word_at(words, further(at, 1))),
    );
    let same = both(same, answer.count as u64 == word_at(words, further(at, 2)));
    both(same, same_cursor(words, further(at, 3), answer.cursor))
}

// What the second clock answers of a timing whose columns begin at a place; the room holds the events of every stored one.
fn bench_answer(
    words: &[u64],
    floats: &[f32],
    tempo_beats_at: usize,
    offset: f64,
    global: f64,
    beat: f64,
) -> BenchAnswer {
    let tempo_values_at = behind(words, tempo_beats_at);
    let stop_beats_at = behind(words, tempo_values_at);
    let stop_values_at = behind(words, stop_beats_at);
    let delay_beats_at = behind(words, stop_values_at);
    let delay_values_at = behind(words, delay_beats_at);
    let warp_beats_at = behind(words, delay_values_at);
    let warp_lengths_at = behind(words, warp_beats_at);
    let mut rows = [0i32; MOST];
    let mut kinds = [0u8; MOST];
    let mut numbers = [0.0f64; MOST];
    clock_bench::bench_time_for_beat(
        column(floats, words, tempo_beats_at),
        column(floats, words, tempo_values_at),
        column(floats, words, stop_beats_at),
        column(floats, words, stop_values_at),
        column(floats, words, delay_beats_at),
        column(floats, words, delay_values_at),
        column(floats, words, warp_beats_at),
        column(floats, words, warp_lengths_at),
        offset,
        global,
        beat,
        &mut rows,
        &mut kinds,
        &mut numbers,
    )
}

fn same_bench(words: &[u64], at: usize, answer: BenchAnswer) -> bool {
    let same = both(
        is_u32(answer.number, word_at(words, at)),
        is_f64(answer.time, word_at(words, further(at, 1))),
    );
    both(same, answer.count as u64 == word_at(words, further(at, 2)))
}

// What a fresh cursor answers with the end mark of a timing whose columns begin at a place.
fn marked_answer(
    words: &[u64],
    floats: &[f32],
    tempo_beats_at: usize,
    offset: f64,
    global: f64,
    beat: f64,
) -> Answer {
    let tempo_values_at = behind(words, tempo_beats_at);
    let stop_beats_at = behind(words, tempo_values_at);
    let stop_values_at = behind(words, stop_beats_at);
    let delay_beats_at = behind(words, stop_values_at);
    let delay_values_at = behind(words, delay_beats_at);
    let warp_beats_at = behind(words, delay_values_at);
    let warp_lengths_at = behind(words, warp_beats_at);
    let made = clock::make_mark(
        column(floats, words, tempo_beats_at),
        column(floats, words, tempo_values_at),
        column(floats, words, stop_beats_at),
        column(floats, words, stop_values_at),
        column(floats, words, delay_beats_at),
        column(floats, words, delay_values_at),
        column(floats, words, warp_beats_at),
        column(floats, words, warp_lengths_at),
        offset,
        global,
    );
    let mark: Mark = made.mark;
    let fresh = Cursor::new(offset, global);
    fresh.cursor.time_for_beat_marked(
        mark,
        column(floats, words, tempo_beats_at),
        column(floats, words, tempo_values_at),
        column(floats, words, stop_beats_at),
        column(floats, words, stop_values_at),
        column(floats, words, delay_beats_at),
        column(floats, words, delay_values_at),
        column(floats, words, warp_beats_at),
        column(floats, words, warp_lengths_at),
        offset,
        global,
        beat,
    )
}

// Number and time are those of the question without a mark, and the count is that or, behind the mark, 1.
fn same_marked(words: &[u64], at: usize, answer: Answer) -> bool {
    let same = both(
        is_u32(answer.number, word_at(words, at)),
        is_f64(answer.time, word_at(words, further(at, 1))),
    );
    if answer.count == 1 {
        return same;
    }
    both(same, answer.count as u64 == word_at(words, further(at, 2)))
}

// What the timing answers, a question to a lent cursor in both forms, and the same of a fresh one, with the end mark too, by both clocks.
fn replay_question(words: &[u64], floats: &[f32], at: usize) -> Replayed {
    let tempo_beats_at = further(at, 1);
    let tempo_values_at = behind(words, tempo_beats_at);
    let stop_beats_at = behind(words, tempo_values_at);
    let stop_values_at = behind(words, stop_beats_at);
    let delay_beats_at = behind(words, stop_values_at);
    let delay_values_at = behind(words, delay_beats_at);
    let warp_beats_at = behind(words, delay_values_at);
    let warp_lengths_at = behind(words, warp_beats_at);
    let answer_at = behind(words, warp_lengths_at);
    let offset = ieee_patterns::f64_of_bits(word_at(words, answer_at));
    let global = ieee_patterns::f64_of_bits(word_at(words, further(answer_at, 1)));
    let beat = ieee_patterns::f64_of_bits(word_at(words, further(answer_at, 2)));
    let cursor = cursor_of_words(words, further(answer_at, 3));
    let number = clock_tests::check_timing(
        column(floats, words, tempo_beats_at),
        column(floats, words, tempo_values_at),
        column(floats, words, stop_beats_at),
        column(floats, words, stop_values_at),
        column(floats, words, delay_beats_at),
        column(floats, words, delay_values_at),
        column(floats, words, warp_beats_at),
        column(floats, words, warp_lengths_at),
        offset,
        global,
    );
    let answer = cursor.time_for_beat(
        column(floats, words, tempo_beats_at),
        column(floats, words, tempo_values_at),
        column(floats, words, stop_beats_at),
        column(floats, words, stop_values_at),
        column(floats, words, delay_beats_at),
        column(floats, words, delay_values_at),
        column(floats, words, warp_beats_at),
        column(floats, words, warp_lengths_at),
        offset,
        global,
        beat,
    );
    let fresh = clock::get_time_for_beat(
        column(floats, words, tempo_beats_at),
        column(floats, words, tempo_values_at),
        column(floats, words, stop_beats_at),
        column(floats, words, stop_values_at),
        column(floats, words, delay_beats_at),
        column(floats, words, delay_values_at),
        column(floats, words, warp_beats_at),
        column(floats, words, warp_lengths_at),
        offset,
        global,
        beat,
    );
    let same = is_u32(number, word_at(words, further(answer_at, 12)));
    let same = both(same, same_answer(words, further(answer_at, 13), answer));
    let same = both(same, same_answer(words, further(answer_at, 25), fresh));
    let bench = bench_answer(words, floats, tempo_beats_at, offset, global, beat);
    let same = both(same, same_bench(words, further(answer_at, 25), bench));
    let marked = marked_answer(words, floats, tempo_beats_at, offset, global, beat);
    let same = both(same, same_marked(words, further(answer_at, 25), marked));
    let player = cursor.time_for_beat_checked(
        column(floats, words, tempo_beats_at),
        column(floats, words, tempo_values_at),
        column(floats, words, stop_beats_at),
        column(floats, words, stop_values_at),
        column(floats, words, delay_beats_at),
        column(floats, words, delay_values_at),
        column(floats, words, warp_beats_at),
        column(floats, words, warp_lengths_at),
        offset,
        global,
        beat,
    );
    let same = both(
        same,
        if_taken(number, same_answer(words, further(answer_at, 13), player)),
    );
    Replayed {
        same: same,
        next: further(answer_at, 37),
    }
}

// A run from a lent cursor.
fn replay_run(words: &[u64], floats: &[f32], numbers: &[f64], at: usize) -> Replayed {
    let tempo_beats_at = further(at, 1);
    let tempo_values_at = behind(words, tempo_beats_at);
    let stop_beats_at = behind(words, tempo_values_at);
    let stop_values_at = behind(words, stop_beats_at);
    let delay_beats_at = behind(words, stop_values_at);
    let delay_values_at = behind(words, delay_beats_at);
    let warp_beats_at = behind(words, delay_values_at);
    let warp_lengths_at = behind(words, warp_beats_at);
    let beats_at = behind(words, warp_lengths_at);
    let numbers_at = behind(words, beats_at);
    let times_at = behind(words, numbers_at);
    let counts_at = behind(words, times_at);
    let answer_at = behind(words, counts_at);
    let mut numbers_room = [77u32; ROOM];
    let mut times_room = [1.5; ROOM];
    let mut counts_room = [77usize; ROOM];
    let offset = ieee_patterns::f64_of_bits(word_at(words, answer_at));
    let global = ieee_patterns::f64_of_bits(word_at(words, further(answer_at, 1)));
    let cursor = cursor_of_words(words, further(answer_at, 2));
    let ran = clock_run::run(
        cursor,
        column(floats, words, tempo_beats_at),
        column(floats, words, tempo_values_at),
        column(floats, words, stop_beats_at),
        column(floats, words, stop_values_at),
        column(floats, words, delay_beats_at),
        column(floats, words, delay_values_at),
        column(floats, words, warp_beats_at),
        column(floats, words, warp_lengths_at),
        offset,
        global,
        column(numbers, words, beats_at),
        &mut numbers_room,
        &mut times_room,
        &mut counts_room,
    );
    let mut same = both(
        is_u32(ran.number, word_at(words, further(answer_at, 11))),
        same_cursor(words, further(answer_at, 12), ran.cursor),
    );
    same = both(same, same_column(words, numbers_at, &numbers_room));
    same = both(same, same_column(words, times_at, &times_room));
    same = both(same, same_column(words, counts_at, &counts_room));
    Replayed {
        same: same,
        next: further(answer_at, 21),
    }
}

// ---- beat from time

// Many times at once, in five columns.
fn replay_times(words: &[u64], floats: &[f32], numbers: &[f64], at: usize) -> Replayed {
    let tempo_beats_at = further(at, 1);
    let tempo_values_at = behind(words, tempo_beats_at);
    let stop_beats_at = behind(words, tempo_values_at);
    let stop_values_at = behind(words, stop_beats_at);
    let delay_beats_at = behind(words, stop_values_at);
    let delay_values_at = behind(words, delay_beats_at);
    let warp_beats_at = behind(words, delay_values_at);
    let warp_lengths_at = behind(words, warp_beats_at);
    let times_at = behind(words, warp_lengths_at);
    let numbers_at = behind(words, times_at);
    let beats_at = behind(words, numbers_at);
    let freezes_at = behind(words, beats_at);
    let delays_at = behind(words, freezes_at);
    let counts_at = behind(words, delays_at);
    let answer_at = behind(words, counts_at);
    let mut numbers_room = [77u32; ROOM];
    let mut beats_room = [1.5; ROOM];
    let mut freezes_room = [77u8; ROOM];
    let mut delays_room = [77u8; ROOM];
    let mut counts_room = [77usize; ROOM];
    let number = clock_by_time::get_beat_infos_from_times(
        column(floats, words, tempo_beats_at),
        column(floats, words, tempo_values_at),
        column(floats, words, stop_beats_at),
        column(floats, words, stop_values_at),
        column(floats, words, delay_beats_at),
        column(floats, words, delay_values_at),
        column(floats, words, warp_beats_at),
        column(floats, words, warp_lengths_at),
        ieee_patterns::f64_of_bits(word_at(words, answer_at)),
        ieee_patterns::f64_of_bits(word_at(words, further(answer_at, 1))),
        column(numbers, words, times_at),
        &mut numbers_room,
        &mut beats_room,
        &mut freezes_room,
        &mut delays_room,
        &mut counts_room,
    );
    let mut same = is_u32(number, word_at(words, further(answer_at, 2)));
    same = both(same, same_column(words, numbers_at, &numbers_room));
    same = both(same, same_column(words, beats_at, &beats_room));
    same = both(same, same_column(words, freezes_at, &freezes_room));
    same = both(same, same_column(words, delays_at, &delays_room));
    same = both(same, same_column(words, counts_at, &counts_room));
    Replayed {
        same: same,
        next: further(answer_at, 3),
    }
}

// The sheet of a list of rows.
fn replay_sheet(words: &[u64], floats: &[f32], rows: &[i32], at: usize) -> Replayed {
    let tempo_beats_at = further(at, 1);
    let tempo_values_at = behind(words, tempo_beats_at);
    let stop_beats_at = behind(words, tempo_values_at);
    let stop_values_at = behind(words, stop_beats_at);
    let delay_beats_at = behind(words, stop_values_at);
    let delay_values_at = behind(words, delay_beats_at);
    let warp_beats_at = behind(words, delay_values_at);
    let warp_lengths_at = behind(words, warp_beats_at);
    let fake_beats_at = behind(words, warp_lengths_at);
    let fake_lengths_at = behind(words, fake_beats_at);
    let rows_at = behind(words, fake_lengths_at);
    let times_at = behind(words, rows_at);
    let judged_at = behind(words, times_at);
    let snaps_at = behind(words, judged_at);
    let answer_at = behind(words, snaps_at);
    let mut times_room = [1.5; ROOM];
    let mut judged_room = [77u8; ROOM];
    let mut snaps_room = [77u8; ROOM];
    let sheet = note_sheet::note_sheet(
        column(floats, words, tempo_beats_at),
        column(floats, words, tempo_values_at),
        column(floats, words, stop_beats_at),
        column(floats, words, stop_values_at),
        column(floats, words, delay_beats_at),
        column(floats, words, delay_values_at),
        column(floats, words, warp_beats_at),
        column(floats, words, warp_lengths_at),
        ieee_patterns::f64_of_bits(word_at(words, answer_at)),
        ieee_patterns::f64_of_bits(word_at(words, further(answer_at, 1))),
        column(floats, words, fake_beats_at),
        column(floats, words, fake_lengths_at),
        column(rows, words, rows_at),
        &mut times_room,
        &mut judged_room,
        &mut snaps_room,
    );
    let mut same = is_u32(sheet.number, word_at(words, further(answer_at, 2)));
    same = both(
        same,
        sheet.count as u64 == word_at(words, further(answer_at, 3)),
    );
    same = both(
        same,
        sheet.steps as u64 == word_at(words, further(answer_at, 4)),
    );
    same = both(same, same_column(words, times_at, &times_room));
    same = both(same, same_column(words, judged_at, &judged_room));
    same = both(same, same_column(words, snaps_at, &snaps_room));
    Replayed {
        same: same,
        next: further(answer_at, 5),
    }
}

// ---- notes

// A position, and why there is none.
fn same_displayed(
    words: &[u64],
    numbers_at: usize,
    positions_at: usize,
    i: usize,
    shown: Displayed,
) -> bool {
    both(
        is_u32(shown.number, entry_at(words, numbers_at, i)),
        is_f64(shown.beat, entry_at(words, positions_at, i)),
    )
}

// A beat by itself, by the call that tests all and, where the scrolls are taken, by the player's over their prefix.
fn same_position(
    words: &[u64],
    numbers_at: usize,
    positions_at: usize,
    i: usize,
    scroll_beats: &[f32],
    scroll_ratios: &[f32],
    prefix: &[f64],
    number: u32,
    beat: f64,
) -> bool {
    let tested = notes_displayed::get_displayed_beat(scroll_beats, scroll_ratios, beat);
    let player = notes_displayed::get_displayed_beat_checked(
        scroll_beats,
        scroll_ratios,
        prefix,
        beat,
    );
    both(
        same_displayed(words, numbers_at, positions_at, i, tested),
        if_taken(
            number,
            same_displayed(words, numbers_at, positions_at, i, player),
        ),
    )
}

fn same_positions(
    words: &[u64],
    numbers_at: usize,
    positions_at: usize,
    scroll_beats: &[f32],
    scroll_ratios: &[f32],
    prefix: &[f64],
    number: u32,
    asked: &[f64],
) -> bool {
    let mut same = true;
    for (i, &beat) in asked.iter().enumerate() {
        let one = same_position(
            words,
            numbers_at,
            positions_at,
            i,
            scroll_beats,
            scroll_ratios,
            prefix,
            number,
            beat,
        );
        same = both(same, one);
    }
    same
}

// The prefix of scrolls, and beats drawn by it, each by itself.
fn same_one_by_one(
    words: &[u64],
    prefix_at: usize,
    numbers_at: usize,
    positions_at: usize,
    scroll_beats: &[f32],
    scroll_ratios: &[f32],
    asked: &[f64],
) -> bool {
    let mut prefix_room = [1.5; ROOM];
    let built = notes_displayed::build_scroll_prefix(scroll_beats, scroll_ratios, &mut prefix_room);
    let each = same_positions(
        words,
        numbers_at,
        positions_at,
        scroll_beats,
        scroll_ratios,
        &prefix_room,
        built.number,
        asked,
    );
    let prefix = same_column(words, prefix_at, &prefix_room);
    let answer_at = behind(words, prefix_at);
    let number = is_u32(built.number, word_at(words, answer_at));
    let count = built.count == size_at(words, prefix_at);
    both(both(each, prefix), both(number, count))
}

// Beats drawn by scrolls, all at once.
fn same_at_once(
    words: &[u64],
    prefix_at: usize,
    numbers_at: usize,
    positions_at: usize,
    scroll_beats: &[f32],
    scroll_ratios: &[f32],
    asked: &[f64],
) -> bool {
    let mut numbers_room = [77u32; ROOM];
    let mut positions_room = [1.5; ROOM];
    let shown = notes_displayed::get_displayed_beats(
        scroll_beats,
        scroll_ratios,
        asked,
        &mut numbers_room,
        &mut positions_room,
    );
    let numbers = same_column(words, numbers_at, &numbers_room);
    let positions = same_column(words, positions_at, &positions_room);
    let number = is_u32(shown.number, word_at(words, behind(words, prefix_at)));
    let count = shown.count == asked.len();
    both(
        number,
        if_taken(shown.number, both(count, both(numbers, positions))),
    )
}

// Beats drawn by scrolls.
fn replay_displayed(words: &[u64], floats: &[f32], numbers: &[f64], at: usize) -> Replayed {
    let beats_at = further(at, 1);
    let ratios_at = behind(words, beats_at);
    let asked_at = behind(words, ratios_at);
    let numbers_at = behind(words, asked_at);
    let positions_at = behind(words, numbers_at);
    let prefix_at = behind(words, positions_at);
    let scroll_beats = column(floats, words, beats_at);
    let scroll_ratios = column(floats, words, ratios_at);
    let asked = column(numbers, words, asked_at);
    let singly = same_one_by_one(
        words,
        prefix_at,
        numbers_at,
        positions_at,
        scroll_beats,
        scroll_ratios,
        asked,
    );
    let at_once = same_at_once(
        words,
        prefix_at,
        numbers_at,
        positions_at,
        scroll_beats,
        scroll_ratios,
        asked,
    );
    Replayed {
        same: both(singly, at_once),
        next: further(behind(words, prefix_at), 1),
    }
}

// The beats of note data's rows.
fn replay_row_to_beat(words: &[u64], bytes: &[u8], at: usize) -> Replayed {
    let data_at = further(at, 1);
    let beats_at = behind(words, data_at);
    let answer_at = behind(words, beats_at);
    let mut beats_room = [1.5f32; ROOM];
    let outcome = notes_rows::compute_row_to_beat(column(bytes, words, data_at), &mut beats_room);
    Replayed {
        same: both(
            same_outcome(words, answer_at, outcome),
            same_column(words, beats_at, &beats_room),
        ),
        next: further(answer_at, 2),
    }
}

// ---- all cases

// ---- text

// A list of f64 as text.
fn replay_tempo_text(words: &[u64], numbers: &[f64], at: usize) -> Replayed {
    let beats_at = further(at, 1);
    let tempos_at = behind(words, beats_at);
    let text_at = behind(words, tempos_at);
    let answer_at = behind(words, text_at);
    let mut page = [77u8; ROOM];
    let outcome = text_tempos::format_bpm_segments_like_itg(
        column(numbers, words, beats_at),
        column(numbers, words, tempos_at),
        &mut page,
    );
    let same = same_outcome(words, answer_at, outcome);
    Replayed {
        same: both(same, same_column(words, text_at, &page)),
        next: further(answer_at, 2),
    }
}

// A list of f32 as text.
fn replay_tempo_text_f32(words: &[u64], floats: &[f32], at: usize) -> Replayed {
    let beats_at = further(at, 1);
    let tempos_at = behind(words, beats_at);
    let text_at = behind(words, tempos_at);
    let answer_at = behind(words, text_at);
    let mut page = [77u8; ROOM];
    let outcome = text_tempos::format_bpm_segments_f32_like_itg(
        column(floats, words, beats_at),
        column(floats, words, tempos_at),
        &mut page,
    );
    let same = same_outcome(words, answer_at, outcome);
    Replayed {
        same: both(same, same_column(words, text_at, &page)),
        next: further(answer_at, 2),
    }
}

// An f32 with six decimals, whatever it is.
fn replay_number_text(words: &[u64], at: usize) -> Replayed {
    let text_at = further(at, 2);
    let mut page = [77u8; ROOM];
    let end = text_decimal::put_dec6(&mut page, 0, f32_of_word(word_at(words, further(at, 1))));
    let same = end == size_at(words, text_at);
    Replayed {
        same: both(same, same_column(words, text_at, &page)),
        next: behind(words, text_at),
    }
}

// A call's number that names none differs, and nothing can follow it.
fn replay_case(
    words: &[u64],
    numbers: &[f64],
    floats: &[f32],
    rows: &[i32],
    bytes: &[u8],
    at: usize,
) -> Replayed {
    match word_at(words, at) {
        1 => replay_pair(words, numbers, at),
        2 => replay_pair(words, numbers, at),
        3 => replay_pair(words, numbers, at),
        4 => replay_speeds(words, numbers, bytes, at),
        5 => replay_ssc(words, numbers, at),
        6 => replay_sm(words, numbers, at),
        7 => replay_sm_stops(words, floats, at),
        8 => replay_row_store(words, floats, at),
        9 => replay_lookups(words, floats, at),
        10 => replay_judgable_rows(words, floats, rows, at),
        11 => replay_question(words, floats, at),
        12 => replay_run(words, floats, numbers, at),
        13 => replay_displayed(words, floats, numbers, at),
        14 => replay_row_to_beat(words, bytes, at),
        15 => replay_tempo_text(words, numbers, at),
        16 => replay_tempo_text_f32(words, floats, at),
        17 => replay_number_text(words, at),
        18 => replay_times(words, floats, numbers, at),
        19 => replay_sheet(words, floats, rows, at),
        _ => Replayed {
            same: false,
            next: words.len(),
        },
    }
}

fn one_if(different: bool) -> u64
    ensures { result ≤ 1 }
{
    if different { 1 } else { 0 }
}

fn case_count(words: &[u64]) -> u64
    ensures { result ≤ 0xFFFF_FFFF }
{
    word_at(words, 0) % 0x1_0000_0000
}

// How many of the cases differ; one more where they do not end with the last of the words read.
fn count_different(
    words: &[u64],
    read: usize,
    numbers: &[f64],
    floats: &[f32],
    rows: &[i32],
    bytes: &[u8],
) -> u64 {
    let cases = case_count(words);
    let mut different: u64 = 0;
    let mut at: usize = 1;
    for _ in 0..cases {
        let replayed = replay_case(words, numbers, floats, rows, bytes, at);
        at = replayed.next;
        different += one_if(!replayed.same);
    }
    different + one_if(at != read)
}

// The words of a text, one a line, as far as there are places for them; the count of those read.
fn read_words(text: &[u8], words: &mut [u64]) -> usize
    ensures { result ≤ length words.old }
{
    let count = words.len().min(text.len() / LINE);
    for (i, word) in words[..count].iter_mut().enumerate() {
        *word = ieee_patterns::hex_word(text, i * LINE);
    }
    count
}

// Reads standard input until the bytes are full, the input ends or a read fails; how many were put at their start.
fn read_full(rt: &HostRuntime, bytes: &mut [u8]) -> usize
    ensures { IsPrefixLen result bytes.new }
{
    let mut done = 0;
    while done < bytes.len() {
        let count = rt.stdin().read(&mut bytes[done..]).unwrap_or(0);
        if count == 0 {
            return done;
        }
        done += count;
    }
    done
}

// The words of standard input, 4,096 lines at a time.
fn read_input(rt: &HostRuntime, words: &mut [u64]) -> usize
    ensures { result ≤ length words.old }
{
    let mut text = [0u8; PIECE];
    let mut count = 0;
    while count < words.len() {
        let read = read_full(rt, &mut text);
        let more = read_words(&text[..read], &mut words[count..]);
        if more == 0 {
            return count;
        }
        count += more;
    }
    count
}

fn replay(words: &[u64], read: usize) -> u64 {
    let mut numbers = [0.0; WORDS];
    let mut floats = [0.0f32; WORDS];
    let mut rows = [0i32; WORDS];
    let mut bytes = [0u8; WORDS];
    read_column(words, &mut numbers);
    read_column(words, &mut floats);
    read_column(words, &mut rows);
    read_column(words, &mut bytes);
    count_different(words, read, &numbers, &floats, &rows, &bytes)
}

fn main(rt: HostRuntime) -> std::io::Result<()> {
    let mut words = [0u64; WORDS];
    let read = read_input(&rt, &mut words);
    let replayed = case_count(&words);
    let different = replay(&words, read);
    println!(rt; "{replayed} replayed, {different} different")
}
