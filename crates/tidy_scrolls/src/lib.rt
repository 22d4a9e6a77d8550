// Scroll tidying: entries in order are kept in one pass; others are placed one by one.
#![tactic(auto)]

ghost use Rattle.std.specs.Prelude.{◌≡◌, true, false, map, ◌-◌, ◌≤◌, ◌<◌, min, ltb, leb, length, take, get_or};
ghost use Rattle.std.specs.Float.{nan};
ghost use Rattle.picks.specs.Pick.{pick};
ghost use Rattle.limits.specs.Numbers.{range_of};
ghost use Rattle.limits.specs.Neighbours.{every_two};
ghost use Rattle.limits.specs.Refusals.{list_number};
ghost use Rattle.order.specs.Order.{never_falls};
ghost use Rattle.order.specs.Entries.{entries};
ghost use Rattle.rows.specs.RowKey.{row_key_at, beat_on_row, on_its_row};
ghost use Rattle.columns.specs.Laying.{Laid};
ghost use Rattle.tidy_by_rows.specs.ByMarks.{row_rises};
ghost use Rattle.tidy_kept.specs.Near.{near_to};
ghost use Rattle.tidy_kept.specs.Passing.{comes, entry_passed, still_written};
ghost use Rattle.tidy_kept.specs.inside.Changed.{Changed};
ghost use Rattle.tidy_kept.specs.inside.Placing.{front_entries, PlacedOne, PlacedAll};
ghost use Rattle.tidy_scrolls.specs.ScrollTidying.{ScrollsTidied};
ghost use Rattle.tidy_scrolls.specs.inside.Ways.{scroll_waiting, no_scroll_held, written_from};

use columns::Outcome;
use limits::Kind;
use tidy_kept::Change;

// ---- entries in order: no working memory

// The value written last, and the entry that waits to be written, if one does.
#[derive(Clone, Copy)]
struct Held {
    before: f64,
    waits: bool,
    row: u32,
    beat: f64,
    value: f64,
}

fn none_held() -> Held
    ensures { scroll_waiting result ≡ no_scroll_held }
{
    Held {
        before: 0.0 / 0.0,
        waits: false,
        row: 0,
        beat: 0.0,
        value: 0.0,
    }
}

// An entry on a row from that of the waiting one on comes, after the value that is written last.
fn come(before: f64, held: Held, row: u32, beat: f64, value: f64) -> Held
    requires { row ≡ row_key_at beat }
    ensures { scroll_waiting result ≡ comes row_key_at near_to before (scroll_waiting held) (beat, value) }
{
    if tidy_kept::near(value, before) {
        return Held {
            before: before,
            waits: false,
            row: held.row,
            beat: held.beat,
            value: held.value,
        };
    }
    Held {
        before: before,
        waits: true,
        row: row,
        beat: beat,
        value: value,
    }
}

// Whether the waiting entry is written when an entry on a row comes.
fn writes(held: Held, row: u32) -> bool
    ensures { result ≡ pick held.waits (ltb held.row row) false }
{
    if held.waits {
        return held.row < row;
    }
    false
}

fn pass(held: Held, row: u32, beat: f64, value: f64) -> Held
    requires { row ≡ row_key_at beat }
    ensures { scroll_waiting result ≡ entry_passed row_key_at near_to (scroll_waiting held) (beat, value) }
{
    if held.waits {
        if held.row < row {
            return come(held.value, held, row, beat, value);
        }
        if tidy_kept::near(value, held.before) {
            return come(held.before, held, row, beat, value);
        }
        if tidy_kept::near(value, held.value) {
            return held;
        }
        return come(held.before, held, row, beat, value);
    }
    come(held.before, held, row, beat, value)
}

fn count_kept(beats: &[f64], values: &[f64]) -> usize
    requires { length beats.now ≡ length values.now }
    ensures { result ≡ length (still_written row_key_at near_to no_scroll_held (entries beats.now values.now)) }
{
    let mut held = none_held();
    let mut count = 0;
    for (i, &beat) in beats.iter().enumerate() {
        let row = rows::row_key(beat);
        let next = pass(held, row, beat, values[i]);
        if writes(held, row) {
            count += 1;
        }
        held = next;
    }
    if held.waits {
        return count + 1;
    }
    count
}

fn lay_kept(beats: &[f64], values: &[f64], out_beats: &mut [f64], out_values: &mut [f64]) -> usize
    requires beats_len { length beats.now ≡ length values.now }
    requires values_len_bound { length (still_written row_key_at near_to no_scroll_held (entries beats.now values.now)) ≤ min (length out_beats.old) (length out_values.old) }
    ensures value { result ≡ length (still_written row_key_at near_to no_scroll_held (entries beats.now values.now)) }
    ensures fact { let list = written_from no_scroll_held (entries beats.now values.now) in
        Laid list out_beats.old out_beats.new out_values.old out_values.new }
{
    let mut held = none_held();
    let mut count = 0;
    for (i, &beat) in beats.iter().enumerate() {
        let row = rows::row_key(beat);
        let next = pass(held, row, beat, values[i]);
        if writes(held, row) {
            out_beats[count] = rows::on_row(held.beat);
            out_values[count] = held.value;
            count += 1;
        }
        held = next;
    }
    if held.waits {
        out_beats[count] = rows::on_row(held.beat);
        out_values[count] = held.value;
        return count + 1;
    }
    count
}

// Whether the kept entries have room: counted only where there are more entries than room.
fn fits(beats: &[f64], values: &[f64], room: usize) -> bool
    requires { length beats.now ≡ length values.now }
    ensures { result ≡ leb (length (still_written row_key_at near_to no_scroll_held (entries beats.now values.now))) room }
{
    if beats.len() <= room {
        return true;
    }
    count_kept(beats, values) <= room
}

fn tidy_ordered(
    beats: &[f64],
    values: &[f64],
    out_beats: &mut [f64],
    out_values: &mut [f64],
) -> Outcome
    requires values_value { list_number (range_of Kind.Beat) (range_of Kind.Value) beats.now values.now ≡ 0 }
    requires beats_value { never_falls row_key_at beats.now ≡ true }
    ensures { ScrollsTidied beats.now values.now result out_beats.old out_beats.new out_values.old out_values.new }
{
    let room = columns::room_of(out_beats.len(), out_values.len());
    if !fits(beats, values, room) {
        return columns::refused(limits::NO_ROOM);
    }
    let count = lay_kept(beats, values, out_beats, out_values);
    Outcome {
        number: limits::TAKEN,
        count: count,
    }
}

// ---- the common case: rows that rise, and no value near the one before it

fn tidy_rising(
    beats: &[f64],
    values: &[f64],
    out_beats: &mut [f64],
    out_values: &mut [f64],
) -> Outcome
    requires values_value { list_number (range_of Kind.Beat) (range_of Kind.Value) beats.now values.now ≡ 0 }
    requires beats_value { every_two row_rises beats.now ≡ true }
    ensures { ScrollsTidied beats.now values.now result out_beats.old out_beats.new out_values.old out_values.new }
{
    if beats.len() <= columns::room_of(out_beats.len(), out_values.len()) {
        if tidy_kept::all_apart(values) {
            tidy_by_rows::lay_on_rows(beats, out_beats);
            columns::copy(values, out_values);
            return Outcome {
                number: limits::TAKEN,
                count: beats.len(),
            };
        }
    }
    tidy_ordered(beats, values, out_beats, out_values)
}

// ---- entries in no order: placed one by one in two columns

// Whether a value is near that at a place of the first n.
fn near_at(values: &[f64], n: usize, place: usize, value: f64) -> bool
    requires { n ≤ length values.now }
    ensures { result ≡ pick (ltb place n) (near_to value (get_or values.now place nan)) false }
{
    if place < n {
        return tidy_kept::near(value, values[place]);
    }
    false
}

fn change_at(beats: &[f64], values: &[f64], n: usize, beat: f64, value: f64) -> Change
    requires n_nonzero { (0 < n) × (n ≤ 1024) × (n ≤ length beats.now) × (n ≤ length values.now) }
    requires beats_value { never_falls row_key_at (take n beats.now) ≡ true }
    ensures { Changed row_key_at near_to (beat, value) (front_entries n beats.now values.now) result }
{
    let row = rows::row_key(beat);
    let at = tidy_by_rows::place_after(&beats[..n], row);
    let last = tidy_kept::place_before(at);
    let on_row = rows::row_key(beats[last]) == row;
    tidy_kept::change_of(
        at,
        on_row,
        near_at(values, n, last + 1, value),
        near_at(values, n, tidy_kept::held_against(last, on_row), value),
        near_at(values, n, last, value),
    )
}

// The value that comes: the entry's own, or where the next one moves that one's.
fn value_of(values: &[f64], change: Change, value: f64) -> f64
    requires { (change.moves ≡ true → 0 < change.high) × (change.high ≤ length values.now) }
    ensures { result ≡ pick change.moves (get_or values.now (change.high - 1) nan) value }
{
    if change.moves {
        return values[change.high - 1];
    }
    value
}

// How many are kept, and whether they fall somewhere.
#[derive(Clone, Copy)]
struct Placed {
    count: usize,
    falls: bool,
}

fn add_scroll_segment_slow(
    beats: &mut [f64],
    values: &mut [f64],
    n: usize,
    beat: f64,
    value: f64,
) -> Placed
    requires n_bound { (n < 1024) × (n < length beats.old) × (length beats.old ≡ length values.old) }
    requires beats_value { never_falls row_key_at (take n beats.old) ≡ true }
    ensures { PlacedOne row_key_at near_to (beat, value) n beats.old values.old result.count result.falls beats.new values.new }
{
    if n == 0 {
        beats[0] = beat;
        values[0] = value;
        return Placed {
            count: 1,
            falls: false,
        };
    }
    let change = change_at(beats, values, n, beat, value);
    let comes = value_of(values, change, value);
    tidy_splice::splice(beats, n, change.low, change.high, change.comes, beat);
    tidy_splice::splice(values, n, change.low, change.high, change.comes, comes);
    let left = n - (change.high - change.low);
    if change.comes {
        return Placed {
            count: left + 1,
            falls: change.falls,
        };
    }
    Placed {
        count: left,
        falls: change.falls,
    }
}

// Every entry, until one is to be placed in a kept list that falls: then `falls`, and the count is 0.
fn place_all(
    beats: &[f64],
    values: &[f64],
    kept_beats: &mut [f64],
    kept_values: &mut [f64],
) -> Placed
    requires beats_len_bound { (length beats.now ≤ 1024) × (length beats.now ≡ length values.now) }
    requires beats_in_bounds { (length beats.now ≤ length kept_beats.old) × (length kept_beats.old ≡ length kept_values.old) }
    ensures { PlacedAll row_key_at near_to (entries beats.now values.now) result.count result.falls kept_beats.new kept_values.new }
{
    let mut kept = Placed {
        count: 0,
        falls: false,
    };
    for (i, &beat) in beats.iter().enumerate() {
        if kept.falls {
            return Placed {
                count: 0,
                falls: true,
            };
        }
        kept = add_scroll_segment_slow(kept_beats, kept_values, kept.count, beat, values[i]);
    }
    Placed {
        count: kept.count,
        falls: false,
    }
}

fn lay_rows(
    beats: &[f64],
    values: &[f64],
    count: usize,
    out_beats: &mut [f64],
    out_values: &mut [f64],
)
    requires count_in_bounds { (count ≤ length beats.now) × (count ≤ length values.now) }
    requires count_bound { count ≤ min (length out_beats.old) (length out_values.old) }
    ensures { let list = map on_its_row (front_entries count beats.now values.now) in
        Laid list out_beats.old out_beats.new out_values.old out_values.new }
{
    tidy_by_rows::lay_each_on_row(&beats[..count], out_beats);
    columns::copy(&values[..count], out_values);
}

fn tidy_placed_in(
    beats: &[f64],
    values: &[f64],
    kept_beats: &mut [f64],
    kept_values: &mut [f64],
    out_beats: &mut [f64],
    out_values: &mut [f64],
) -> Outcome
    requires values_value { list_number (range_of Kind.Beat) (range_of Kind.Value) beats.now values.now ≡ 0 }
    requires beats_value { never_falls row_key_at beats.now ≡ false }
    requires beats_in_bounds { (length beats.now ≤ length kept_beats.old) × (length kept_beats.old ≡ length kept_values.old) }
    ensures { ScrollsTidied beats.now values.now result out_beats.old out_beats.new out_values.old out_values.new }
{
    let kept = place_all(beats, values, kept_beats, kept_values);
    if kept.falls {
        return columns::refused(limits::FALLS);
    }
    if kept.count > columns::room_of(out_beats.len(), out_values.len()) {
        return columns::refused(limits::NO_ROOM);
    }
    lay_rows(kept_beats, kept_values, kept.count, out_beats, out_values);
    Outcome {
        number: limits::TAKEN,
        count: kept.count,
    }
}

fn tidy_placed(
    beats: &[f64],
    values: &[f64],
    out_beats: &mut [f64],
    out_values: &mut [f64],
) -> Outcome
    requires values_value { list_number (range_of Kind.Beat) (range_of Kind.Value) beats.now values.now ≡ 0 }
    requires beats_value { never_falls row_key_at beats.now ≡ false }
    ensures { ScrollsTidied beats.now values.now result out_beats.old out_beats.new out_values.old out_values.new }
{
    let mut kept_beats = [0.0; limits::MOST_ENTRIES];
    let mut kept_values = [0.0; limits::MOST_ENTRIES];
    tidy_placed_in(
        beats,
        values,
        &mut kept_beats,
        &mut kept_values,
        out_beats,
        out_values,
    )
}

// ---- the call

// Scrolls on their rows, without those that are near the one before, over the fronts of both rooms, and how many there are. Refused with 1, 2, 3 or 4 for the list,
// with 6 where rows fall and one is to be placed in a kept list that falls, and with 7 where they do not fit.
pub fn tidy_scroll_segments(
    beats: &[f64],
    values: &[f64],
    out_beats: &mut [f64],
    out_values: &mut [f64],
) -> Outcome
    ensures { ScrollsTidied beats.now values.now result out_beats.old out_beats.new out_values.old out_values.new }
{
    let number = limits::list_number(Kind::Beat, Kind::Value, beats, values);
    if number != limits::TAKEN {
        return columns::refused(number);
    }
    if tidy_by_rows::rise(beats) {
        return tidy_rising(beats, values, out_beats, out_values);
    }
    if tidy_by_rows::in_order(beats) {
        return tidy_ordered(beats, values, out_beats, out_values);
    }
    tidy_placed(beats, values, out_beats, out_values)
}
