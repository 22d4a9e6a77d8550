// Speeds in order: kept in one pass, without working memory.
#![tactic(auto)]

ghost use Rattle.std.specs.Prelude.{◌≡◌, false, map, ◌≤◌, ◌<◌, ltb, leb, length, get_or, set};
ghost use Rattle.std.specs.Float.{nan};
ghost use Rattle.picks.specs.Pick.{pick};
ghost use Rattle.rows.specs.RowKey.{row_key_at, beat_on_row};
ghost use Rattle.chart.specs.ChartColumns.{lent_speeds, speeds_before, speeds_after, speed_columns};
ghost use Rattle.tidy_kept.specs.Passing.{comes, entry_passed};
ghost use Rattle.tidy_speeds_entries.specs.Speed.{speed_value_of, near_speed, no_speed, speed_entries, speeds_in, speed_on_row};
ghost use Rattle.tidy_speeds_entries.specs.LaidSpeeds.{least_of};
ghost use Rattle.tidy_speeds_entries.specs.inside.LaidRooms.{LaidOver};
ghost use Rattle.tidy_speeds_ordered.specs.inside.Waiting.{speed_waiting};
ghost use Rattle.tidy_speeds_ordered.specs.OrderedSpeeds.{no_speed_held, kept_speeds, OrderedTidied};

use columns::Outcome;
use tidy_speeds_entries::Speed;

// The speed written last, and the entry that waits to be written, if one does.
#[derive(Clone, Copy)]
struct Held {
    before: Speed,
    waits: bool,
    row: u32,
    beat: f64,
    value: Speed,
}

// What no speed is near.
fn no_speed() -> Speed
    ensures { speed_value_of result ≡ no_speed }
{
    Speed {
        ratio: 0.0 / 0.0,
        delay: 0.0 / 0.0,
        unit: 0,
    }
}

fn none_held() -> Held
    ensures { speed_waiting result ≡ no_speed_held }
{
    Held {
        before: no_speed(),
        waits: false,
        row: 0,
        beat: 0.0,
        value: no_speed(),
    }
}

// An entry on a row from that of the waiting one on comes, after the speed that is written last.
fn come(before: Speed, held: Held, row: u32, beat: f64, value: Speed) -> Held
    requires { row ≡ row_key_at beat }
    ensures { speed_waiting result ≡ comes row_key_at near_speed (speed_value_of before) (speed_waiting held) (beat, speed_value_of value) }
{
    let waiting = held.value;
    if tidy_speeds_entries::near(value, before) {
        return Held {
            before: before,
            waits: false,
            row: held.row,
            beat: held.beat,
            value: waiting,
        };
    }
    Held {
        before: before,
        waits: true,
        row: row,
        beat: beat,
        value: value,
    }
}

// Whether the waiting entry is written when an entry on a row comes.
fn writes(held: Held, row: u32) -> bool
    ensures { result ≡ pick held.waits (ltb held.row row) false }
{
    if held.waits {
        return held.row < row;
    }
    false
}

fn pass(held: Held, row: u32, beat: f64, value: Speed) -> Held
    requires { row ≡ row_key_at beat }
    ensures { speed_waiting result ≡ entry_passed row_key_at near_speed (speed_waiting held) (beat, speed_value_of value) }
{
    let before = held.before;
    let waiting = held.value;
    if held.waits {
        if held.row < row {
            return come(waiting, held, row, beat, value);
        }
        if tidy_speeds_entries::near(value, before) {
            return come(before, held, row, beat, value);
        }
        if tidy_speeds_entries::near(value, waiting) {
            return held;
        }
        return come(before, held, row, beat, value);
    }
    come(before, held, row, beat, value)
}

fn speed_at(ratios: &[f64], delays: &[f64], units: &[u8], i: usize) -> Speed
    requires { (i < length ratios.now) × (i < length delays.now) × (i < length units.now) }
    ensures { speed_value_of result ≡ (get_or ratios.now i nan, (get_or delays.now i nan, get_or units.now i 0)) }
{
    Speed {
        ratio: ratios[i],
        delay: delays[i],
        unit: units[i],
    }
}

fn count_kept(beats: &[f64], ratios: &[f64], delays: &[f64], units: &[u8], n: usize) -> usize
    requires { n ≡ least_of (length beats.now) (length ratios.now) (length delays.now) (length units.now) }
    ensures { result ≡ length (kept_speeds (speed_entries beats.now ratios.now delays.now units.now)) }
{
    let mut held = none_held();
    let mut count = 0;
    for i in 0..n {
        let row = rows::row_key(beats[i]);
        let next = pass(held, row, beats[i], speed_at(ratios, delays, units, i));
        if writes(held, row) {
            count += 1;
        }
        held = next;
    }
    if held.waits {
        return count + 1;
    }
    count
}

// An entry at a place of the rooms, on its row.
fn write_speed(
    out_beats: &mut [f64],
    out_ratios: &mut [f64],
    out_delays: &mut [f64],
    out_units: &mut [u8],
    at: usize,
    beat: f64,
    value: Speed,
)
    requires { (at < length out_beats.old) × (at < length out_ratios.old) × (at < length out_delays.old) × (at < length out_units.old) }
    ensures out_beats_after { out_beats.new ≡ set out_beats.old at (beat_on_row beat) }
    ensures out_ratios_after { out_ratios.new ≡ set out_ratios.old at value.ratio }
    ensures out_delays_after { out_delays.new ≡ set out_delays.old at value.delay }
    ensures out_units_after { out_units.new ≡ set out_units.old at value.unit }
{
    out_beats[at] = rows::on_row(beat);
    out_ratios[at] = value.ratio;
    out_delays[at] = value.delay;
    out_units[at] = value.unit;
}

fn lay_kept(
    beats: &[f64],
    ratios: &[f64],
    delays: &[f64],
    units: &[u8],
    n: usize,
    out_beats: &mut [f64],
    out_ratios: &mut [f64],
    out_delays: &mut [f64],
    out_units: &mut [u8],
) -> usize
    requires n_value { n ≡ least_of (length beats.now) (length ratios.now) (length delays.now) (length units.now) }
    requires kept_bound { let kept = kept_speeds (speed_entries beats.now ratios.now delays.now units.now) in
        length kept ≤ least_of (length out_beats.old) (length out_ratios.old) (length out_delays.old) (length out_units.old) }
    ensures value { result ≡ length (kept_speeds (speed_entries beats.now ratios.now delays.now units.now)) }
    ensures fact { let speeds = speed_columns beats.now ratios.now delays.now units.now in
        let rooms = lent_speeds out_beats out_ratios out_delays out_units in
        LaidOver (map speed_on_row (kept_speeds (speeds_in speeds))) (speeds_before rooms) (speeds_after rooms) }
{
    let mut held = none_held();
    let mut count = 0;
    for i in 0..n {
        let row = rows::row_key(beats[i]);
        let next = pass(held, row, beats[i], speed_at(ratios, delays, units, i));
        if writes(held, row) {
            let waiting = held.value;
            write_speed(
                out_beats, out_ratios, out_delays, out_units, count, held.beat, waiting,
            );
            count += 1;
        }
        held = next;
    }
    if held.waits {
        let waiting = held.value;
        write_speed(
            out_beats, out_ratios, out_delays, out_units, count, held.beat, waiting,
        );
        return count + 1;
    }
    count
}

// Whether the kept entries have room: counted only where there are more entries than room.
fn fits(beats: &[f64], ratios: &[f64], delays: &[f64], units: &[u8], n: usize, room: usize) -> bool
    requires { n ≡ least_of (length beats.now) (length ratios.now) (length delays.now) (length units.now) }
    ensures { result ≡ leb (length (kept_speeds (speed_entries beats.now ratios.now delays.now units.now))) room }
{
    if n <= room {
        return true;
    }
    count_kept(beats, ratios, delays, units, n) <= room
}

// The kept entries of a list in order, each on its row; 7 where they have no room. Columns are read as far as the shortest goes, and nothing else is tested.
pub fn tidy_ordered_untested(
    beats: &[f64],
    ratios: &[f64],
    delays: &[f64],
    units: &[u8],
    out_beats: &mut [f64],
    out_ratios: &mut [f64],
    out_delays: &mut [f64],
    out_units: &mut [u8],
) -> Outcome
    ensures { let speeds = speed_columns beats.now ratios.now delays.now units.now in
        let rooms = lent_speeds out_beats out_ratios out_delays out_units in
        OrderedTidied speeds result (speeds_before rooms) (speeds_after rooms) }
{
    let n = tidy_speeds_entries::least_of(beats.len(), ratios.len(), delays.len(), units.len());
    let room = tidy_speeds_entries::least_of(
        out_beats.len(),
        out_ratios.len(),
        out_delays.len(),
        out_units.len(),
    );
    if !fits(beats, ratios, delays, units, n, room) {
        return columns::refused(limits::NO_ROOM);
    }
    let count = lay_kept(
        beats, ratios, delays, units, n, out_beats, out_ratios, out_delays, out_units,
    );
    Outcome {
        number: limits::TAKEN,
        count: count,
    }
}
