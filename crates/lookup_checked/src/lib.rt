// Lookups into lists that were tested once: whether a row or a beat is warped, fake or judgable, in a time that grows with the logarithm of the lists.
#![tactic(auto)]

ghost use Rattle.std.specs.Prelude.{◌≡◌, true, false, nat_abs, length, get_or, ◌≤◌, ◌<◌};
ghost use Rattle.std.specs.Float.{nan, binary32};
ghost use Rattle.std.specs.Float.Ieee.{of_int};
ghost use Rattle.rows.specs.Rows.{beat_of};
ghost use Rattle.rows.specs.RowKey.{row_key};
ghost use Rattle.limits.specs.Numbers.{range_of, in_range, row_in};
ghost use Rattle.lookup.specs.Lookups.{list_columns, warp_lists, lookup_lists};
ghost use Rattle.lookup.specs.Lookups.{key_of, of_last, warp_covers, fake_covers, asked_row, looked, asked_number, judgable_number};
ghost use Rattle.lookup_checked.specs.Checked.{is_on_row, last_covers, last_pauses, unpaused_by, fake_by, warped_by, judgable_by, at_row};

use limits::Kind;
use lookup::Looked;

// ---- the test of the lists

// The lowest of 1 to 5 that one of the four lists answers, and 0 where the lookups take them all: then, and for as long as the lists stay as they are,
// each call below answers what its tested twin in `lookup` answers (`checked-is-tested`).
pub fn check_lookups(
    stop_beats: &[f32],
    stop_values: &[f32],
    delay_beats: &[f32],
    delay_values: &[f32],
    warp_beats: &[f32],
    warp_lengths: &[f32],
    fake_beats: &[f32],
    fake_lengths: &[f32],
) -> u32
    ensures { let lists = lookup_lists stop_beats.now stop_values.now delay_beats.now delay_values.now
        warp_beats.now warp_lengths.now fake_beats.now fake_lengths.now in
        result ≡ judgable_number lists true }
{
    lookup_tests::judgable_number(
        stop_beats,
        stop_values,
        delay_beats,
        delay_values,
        warp_beats,
        warp_lengths,
        fake_beats,
        fake_lengths,
        true,
    )
}

// ---- an entry on a row

// A row that is allowed, or next to one, as an f32: around 1.5 * 2^23 the patterns of whole numbers follow one another, so the row moves the pattern, and what it
// was moved from is taken off. The processor's own cast would wait for what its register held before, which is the answer to the last question.
fn row_as_f32(row: i32) -> f32
    requires { nat_abs row ≤ 3145729 }
    ensures { result ≡ of_int binary32 row }
{
    f32::from_bits(rows::key_of_row(row) - 884998144) - 12582912.0
}

// The beat of such a row.
fn beat_of_row(row: i32) -> f32
    requires { nat_abs row ≤ 3145729 }
    ensures { result ≡ beat_of binary32 row }
{
    row_as_f32(row) / (rows::ROWS_PER_BEAT as f32)
}

// The row of an entry is only worked out where the beat of the next row, or of the row before, does not tell that it is another.

// From the beat of the next row on.
fn is_past_row(beat: f32, row: i32) -> bool
    requires { row_in row ≡ true }
    ensures { result ≡ true → key_of beat ≡ row_key row → ⊥ }
{
    if beat_of_row(row + 1) <= beat {
        return beat <= 65536.0;
    }
    false
}

// Up to the beat of the row before.
fn is_before_row(beat: f32, row: i32) -> bool
    requires { row_in row ≡ true }
    ensures { result ≡ true → key_of beat ≡ row_key row → ⊥ }
{
    if beat <= beat_of_row(row - 1) {
        return -65536.0 <= beat;
    }
    false
}

// Whether there is an entry at the place that is found and it is on the row.
fn next_on_row(beats: &[f32], place: usize, row: i32) -> bool
    requires { row_in row ≡ true }
    ensures { result ≡ is_on_row beats.now place (row_key row) }
{
    if place < beats.len() {
        if is_past_row(beats[place], row) {
            return false;
        }
        return rows::row_key_f32(beats[place]) == rows::key_of_row(row);
    }
    false
}

// Whether the entry at the place before it is.
fn last_on_row(beats: &[f32], place: usize, row: i32) -> bool
    requires { (place < length beats.now) × (row_in row ≡ true) }
    ensures { result ≡ is_on_row beats.now place (row_key row) }
{
    if is_before_row(beats[place], row) {
        return false;
    }
    rows::row_key_f32(beats[place]) == rows::key_of_row(row)
}

// The number at a place of a column; a NaN past its end.
fn number_at(column: &[f32], place: usize) -> f32
    ensures { result ≡ get_or column.now place nan }
{
    if place < column.len() {
        return column[place];
    }
    0.0 / 0.0
}

// ---- an entry's test

fn warp_covers(beat: f32, length: f32, at: f32) -> bool
    ensures { result ≡ warp_covers at beat length }
{
    if length > 0.0 {
        if beat <= at {
            return at < beat + length;
        }
    }
    false
}

// The end is the f32 sum, which the sum at f64, narrowed, is too (`fake-in-f32`).
fn fake_covers(beat: f32, length: f32, at: f32) -> bool
    ensures { result ≡ fake_covers at beat length }
{
    if beat <= at {
        return at < beat + length;
    }
    false
}

// ---- the last entry that counts, by the place that is found

// Whether the last warp before the place covers a beat. Only then it matters whether the next one is on the row, and so covers nothing there.
fn last_warp_covers(warp_beats: &[f32], warp_lengths: &[f32], place: usize, at: f32) -> bool
    requires { place ≤ length warp_beats.now }
    ensures { result ≡ of_last (warp_covers at) false warp_beats.now warp_lengths.now place }
{
    if place == 0 {
        return false;
    }
    warp_covers(
        warp_beats[place - 1],
        number_at(warp_lengths, place - 1),
        at,
    )
}

// The test of a fake comes last, since no branch is made of it.
fn in_fake(fake_beats: &[f32], fake_lengths: &[f32], place: usize, at: f32, row: i32) -> bool
    requires { (place ≤ length fake_beats.now) × (row_in row ≡ true) }
    ensures { result ≡ last_covers (fake_covers at) place (row_key row) fake_beats.now fake_lengths.now }
{
    if next_on_row(fake_beats, place, row) {
        return false;
    }
    if place == 0 {
        return false;
    }
    fake_covers(
        fake_beats[place - 1],
        number_at(fake_lengths, place - 1),
        at,
    )
}

fn is_paused(beats: &[f32], values: &[f32], place: usize, row: i32) -> bool
    requires { (place ≤ length beats.now) × (row_in row ≡ true) }
    ensures { result ≡ last_pauses place (row_key row) beats.now values.now }
{
    if next_on_row(beats, place, row) {
        return number_at(values, place) > 0.0;
    }
    if place == 0 {
        return false;
    }
    if last_on_row(beats, place - 1, row) {
        return number_at(values, place - 1) > 0.0;
    }
    false
}

// Both lists are only looked into in a warp. Named by several functions, so that it stays a call and what stands around it is inlined.
fn is_unpaused(
    stop_beats: &[f32],
    stop_values: &[f32],
    delay_beats: &[f32],
    delay_values: &[f32],
    at: f32,
    row: i32,
) -> bool
    requires { row_in row ≡ true }
    ensures { let stops = list_columns stop_beats.now stop_values.now in
        let delays = list_columns delay_beats.now delay_values.now in
        result ≡ unpaused_by stops delays at (row_key row) }
{
    if is_paused(
        stop_beats,
        stop_values,
        order_search::place_of(stop_beats, at),
        row,
    ) {
        return false;
    }
    !is_paused(
        delay_beats,
        delay_values,
        order_search::place_of(delay_beats, at),
        row,
    )
}

// The answer to a question that is taken.
fn answered(yes: bool) -> Looked
    ensures { result ≡ looked 0 yes }
{
    Looked {
        number: limits::TAKEN,
        yes: yes,
    }
}

// ---- the calls

// Each takes any lists and refuses only what is asked, a row or beat beyond the limit, with 3: the lists are those that `check_lookups` took.
// Over any others it still ends, and answers what the search comes to. Each searches the lists by itself and not by its twin, so that the searches are inlined.

// Whether a row is warped.
pub fn is_warp_at_row_checked(
    stop_beats: &[f32],
    stop_values: &[f32],
    delay_beats: &[f32],
    delay_values: &[f32],
    warp_beats: &[f32],
    warp_lengths: &[f32],
    row: i32,
) -> Looked
    ensures { let lists = warp_lists stop_beats.now stop_values.now delay_beats.now delay_values.now
        warp_beats.now warp_lengths.now in
        result ≡ looked (asked_number (row_in row)) (at_row (warped_by lists) row) }
{
    if limits::row_taken(row) {
        let at = beat_of_row(row);
        let place = order_search::place_of(warp_beats, at);
        if last_warp_covers(warp_beats, warp_lengths, place, at) {
            if !next_on_row(warp_beats, place, row) {
                return answered(is_unpaused(
                    stop_beats,
                    stop_values,
                    delay_beats,
                    delay_values,
                    at,
                    row,
                ));
            }
        }
        return answered(false);
    }
    Looked {
        number: limits::BAD_BEAT,
        yes: false,
    }
}

// Whether the row of a beat is warped.
pub fn is_warp_at_beat_checked(
    stop_beats: &[f32],
    stop_values: &[f32],
    delay_beats: &[f32],
    delay_values: &[f32],
    warp_beats: &[f32],
    warp_lengths: &[f32],
    beat: f64,
) -> Looked
    ensures { let lists = warp_lists stop_beats.now stop_values.now delay_beats.now delay_values.now
        warp_beats.now warp_lengths.now in
        result ≡ looked (asked_number (in_range (range_of Kind.Beat) beat)) (at_row (warped_by lists) (asked_row beat)) }
{
    if limits::taken(Kind::Beat, beat) {
        let row = lookup::asked_row(beat);
        let at = beat_of_row(row);
        let place = order_search::place_of(warp_beats, at);
        if last_warp_covers(warp_beats, warp_lengths, place, at) {
            if !next_on_row(warp_beats, place, row) {
                return answered(is_unpaused(
                    stop_beats,
                    stop_values,
                    delay_beats,
                    delay_values,
                    at,
                    row,
                ));
            }
        }
        return answered(false);
    }
    Looked {
        number: limits::BAD_BEAT,
        yes: false,
    }
}

// Whether a row is fake.
pub fn is_fake_at_row_checked(fake_beats: &[f32], fake_lengths: &[f32], row: i32) -> Looked
    ensures { let fakes = list_columns fake_beats.now fake_lengths.now in
        result ≡ looked (asked_number (row_in row)) (at_row (fake_by fakes) row) }
{
    if limits::row_taken(row) {
        let at = beat_of_row(row);
        let place = order_search::place_of(fake_beats, at);
        return answered(in_fake(fake_beats, fake_lengths, place, at, row));
    }
    Looked {
        number: limits::BAD_BEAT,
        yes: false,
    }
}

// Whether the row of a beat is fake.
pub fn is_fake_at_beat_checked(fake_beats: &[f32], fake_lengths: &[f32], beat: f64) -> Looked
    ensures { let fakes = list_columns fake_beats.now fake_lengths.now in
        result ≡ looked (asked_number (in_range (range_of Kind.Beat) beat)) (at_row (fake_by fakes) (asked_row beat)) }
{
    if limits::taken(Kind::Beat, beat) {
        let row = lookup::asked_row(beat);
        let at = beat_of_row(row);
        let place = order_search::place_of(fake_beats, at);
        return answered(in_fake(fake_beats, fake_lengths, place, at, row));
    }
    Looked {
        number: limits::BAD_BEAT,
        yes: false,
    }
}

// Whether a note on a row is judged.
pub fn is_judgable_at_row_checked(
    stop_beats: &[f32],
    stop_values: &[f32],
    delay_beats: &[f32],
    delay_values: &[f32],
    warp_beats: &[f32],
    warp_lengths: &[f32],
    fake_beats: &[f32],
    fake_lengths: &[f32],
    row: i32,
) -> Looked
    ensures { let lists = lookup_lists stop_beats.now stop_values.now delay_beats.now delay_values.now
        warp_beats.now warp_lengths.now fake_beats.now fake_lengths.now in
        result ≡ looked (asked_number (row_in row)) (at_row (judgable_by lists) row) }
{
    if limits::row_taken(row) {
        let at = beat_of_row(row);
        let warp = order_search::place_of(warp_beats, at);
        let fake = order_search::place_of(fake_beats, at);
        let faked = in_fake(fake_beats, fake_lengths, fake, at, row);
        if last_warp_covers(warp_beats, warp_lengths, warp, at) {
            if !faked {
                if !next_on_row(warp_beats, warp, row) {
                    return answered(!is_unpaused(
                        stop_beats,
                        stop_values,
                        delay_beats,
                        delay_values,
                        at,
                        row,
                    ));
                }
            }
        }
        return answered(!faked);
    }
    Looked {
        number: limits::BAD_BEAT,
        yes: false,
    }
}

// Whether a note on the row of a beat is judged.
pub fn is_judgable_at_beat_checked(
    stop_beats: &[f32],
    stop_values: &[f32],
    delay_beats: &[f32],
    delay_values: &[f32],
    warp_beats: &[f32],
    warp_lengths: &[f32],
    fake_beats: &[f32],
    fake_lengths: &[f32],
    beat: f64,
) -> Looked
    ensures { let lists = lookup_lists stop_beats.now stop_values.now delay_beats.now delay_values.now
        warp_beats.now warp_lengths.now fake_beats.now fake_lengths.now in
        result ≡ looked (asked_number (in_range (range_of Kind.Beat) beat)) (at_row (judgable_by lists) (asked_row beat)) }
{
    if limits::taken(Kind::Beat, beat) {
        let row = lookup::asked_row(beat);
        let at = beat_of_row(row);
        let warp = order_search::place_of(warp_beats, at);
        let fake = order_search::place_of(fake_beats, at);
        let faked = in_fake(fake_beats, fake_lengths, fake, at, row);
        if last_warp_covers(warp_beats, warp_lengths, warp, at) {
            if !faked {
                if !next_on_row(warp_beats, warp, row) {
                    return answered(!is_unpaused(
                        stop_beats,
                        stop_values,
                        delay_beats,
                        delay_values,
                        at,
                        row,
                    ));
                }
            }
        }
        return answered(!faked);
    }
    Looked {
        number: limits::BAD_BEAT,
        yes: false,
    }
}
