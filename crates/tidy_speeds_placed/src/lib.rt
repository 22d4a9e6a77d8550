// Speeds in no order: placed one by one in four working columns.
#![tactic(auto)]

ghost use Rattle.std.specs.Prelude.{◌≡◌, true, false, map, ◌-◌, ◌≤◌, ◌<◌, ltb, length, take, get_or};
ghost use Rattle.std.specs.Float.{nan};
ghost use Rattle.picks.specs.Pick.{pick};
ghost use Rattle.order.specs.Order.{never_falls};
ghost use Rattle.rows.specs.RowKey.{row_key_at};
ghost use Rattle.chart.specs.ChartColumns.{lent_speeds, speeds_before, speeds_after, speed_columns};
ghost use Rattle.tidy_kept.specs.inside.Changed.{count_by, Changed};
ghost use Rattle.tidy_kept.specs.inside.Placing.{PlacedOne, PlacedAll};
ghost use Rattle.tidy_speeds_entries.specs.Speed.{speed_value_of, near_speed, no_speed, speed_values, speed_entries, speed_on_row};
ghost use Rattle.tidy_speeds_entries.specs.LaidSpeeds.{least_of};
ghost use Rattle.tidy_speeds_entries.specs.inside.LaidRooms.{LaidOver};
ghost use Rattle.tidy_speeds_placed.specs.inside.ListedSpeeds.{listed_speeds};
ghost use Rattle.tidy_speeds_placed.specs.PlacedSpeeds.{PlacedTidied};

use columns::Outcome;
use tidy_kept::Change;
use tidy_speeds_entries::Speed;

fn speed_at(ratios: &[f64], delays: &[f64], units: &[u8], i: usize) -> Speed
    requires { (i < length ratios.now) × (i < length delays.now) × (i < length units.now) }
    ensures { speed_value_of result ≡ get_or (speed_values ratios.now delays.now units.now) i no_speed }
{
    Speed {
        ratio: ratios[i],
        delay: delays[i],
        unit: units[i],
    }
}

// Whether a speed is near that at a place of the first n.
fn near_at(
    ratios: &[f64],
    delays: &[f64],
    units: &[u8],
    n: usize,
    place: usize,
    value: Speed,
) -> bool
    requires { (n ≤ length ratios.now) × (n ≤ length delays.now) × (n ≤ length units.now) }
    ensures { let there = get_or (speed_values ratios.now delays.now units.now) place no_speed in
        result ≡ pick (ltb place n) (near_speed (speed_value_of value) there) false }
{
    if place < n {
        return tidy_speeds_entries::near(value, speed_at(ratios, delays, units, place));
    }
    false
}

fn change_at(
    beats: &[f64],
    ratios: &[f64],
    delays: &[f64],
    units: &[u8],
    n: usize,
    beat: f64,
    value: Speed,
) -> Change
    requires n_nonzero { (0 < n) × (n ≤ 1024) × (n ≤ length beats.now) }
    requires n_in_bounds { (n ≤ length ratios.now) × (n ≤ length delays.now) × (n ≤ length units.now) }
    requires beats_value { never_falls row_key_at (take n beats.now) ≡ true }
    ensures { let list = listed_speeds n beats.now ratios.now delays.now units.now in
        Changed row_key_at near_speed (beat, speed_value_of value) list result }
{
    let row = rows::row_key(beat);
    let at = tidy_by_rows::place_after(&beats[..n], row);
    let last = tidy_kept::place_before(at);
    let on_row = rows::row_key(beats[last]) == row;
    tidy_kept::change_of(
        at,
        on_row,
        near_at(ratios, delays, units, n, last + 1, value),
        near_at(
            ratios,
            delays,
            units,
            n,
            tidy_kept::held_against(last, on_row),
            value,
        ),
        near_at(ratios, delays, units, n, last, value),
    )
}

// The speed that comes: the entry's own, or where the next one moves that one's.
fn speed_of(ratios: &[f64], delays: &[f64], units: &[u8], change: Change, value: Speed) -> Speed
    requires high_nonzero { change.moves ≡ true → 0 < change.high }
    requires high_in_bounds { (change.high ≤ length ratios.now) × (change.high ≤ length delays.now) × (change.high ≤ length units.now) }
    ensures { let next = get_or (speed_values ratios.now delays.now units.now) (change.high - 1) no_speed in
        speed_value_of result ≡ pick change.moves next (speed_value_of value) }
{
    if change.moves {
        return speed_at(ratios, delays, units, change.high - 1);
    }
    value
}

// How many are kept, and whether they fall somewhere.
#[derive(Clone, Copy)]
struct Placed {
    count: usize,
    falls: bool,
}

// How many are left of n by a change.
fn left_of(n: usize, change: Change) -> usize
    requires { (change.low ≤ change.high) × (change.high ≤ n) × (n ≤ 1024) }
    ensures { result ≡ count_by n change.low change.high change.comes }
{
    if change.comes {
        return n - (change.high - change.low) + 1;
    }
    n - (change.high - change.low)
}

fn place_first(
    beats: &mut [f64],
    ratios: &mut [f64],
    delays: &mut [f64],
    units: &mut [u8],
    beat: f64,
    value: Speed,
) -> Placed
    requires { (0 < length beats.old) × (0 < length ratios.old) × (0 < length delays.old) × (0 < length units.old) }
    ensures { let old = speed_values ratios.old delays.old units.old in
        let new = speed_values ratios.new delays.new units.new in
        PlacedOne row_key_at near_speed (beat, speed_value_of value) 0 beats.old old result.count result.falls beats.new new }
{
    beats[0] = beat;
    ratios[0] = value.ratio;
    delays[0] = value.delay;
    units[0] = value.unit;
    Placed {
        count: 1,
        falls: false,
    }
}

fn place_later(
    beats: &mut [f64],
    ratios: &mut [f64],
    delays: &mut [f64],
    units: &mut [u8],
    n: usize,
    beat: f64,
    value: Speed,
) -> Placed
    requires n_nonzero { (0 < n) × (n < 1024) × (n < length beats.old) }
    requires beats_len { (length beats.old ≡ length ratios.old) × (length beats.old ≡ length delays.old) × (length beats.old ≡ length units.old) }
    requires beats_value { never_falls row_key_at (take n beats.old) ≡ true }
    ensures { let old = speed_values ratios.old delays.old units.old in
        let new = speed_values ratios.new delays.new units.new in
        PlacedOne row_key_at near_speed (beat, speed_value_of value) n beats.old old result.count result.falls beats.new new }
{
    let change = change_at(beats, ratios, delays, units, n, beat, value);
    let comes = speed_of(ratios, delays, units, change, value);
    tidy_splice::splice(beats, n, change.low, change.high, change.comes, beat);
    tidy_splice::splice(
        ratios,
        n,
        change.low,
        change.high,
        change.comes,
        comes.ratio,
    );
    tidy_splice::splice(
        delays,
        n,
        change.low,
        change.high,
        change.comes,
        comes.delay,
    );
    tidy_splice::splice_units(units, n, change.low, change.high, change.comes, comes.unit);
    Placed {
        count: left_of(n, change),
        falls: change.falls,
    }
}

fn add_speed_segment_slow(
    beats: &mut [f64],
    ratios: &mut [f64],
    delays: &mut [f64],
    units: &mut [u8],
    n: usize,
    beat: f64,
    value: Speed,
) -> Placed
    requires n_bound { (n < 1024) × (n < length beats.old) }
    requires beats_len { (length beats.old ≡ length ratios.old) × (length beats.old ≡ length delays.old) × (length beats.old ≡ length units.old) }
    requires beats_value { never_falls row_key_at (take n beats.old) ≡ true }
    ensures { let old = speed_values ratios.old delays.old units.old in
        let new = speed_values ratios.new delays.new units.new in
        PlacedOne row_key_at near_speed (beat, speed_value_of value) n beats.old old result.count result.falls beats.new new }
{
    if n == 0 {
        return place_first(beats, ratios, delays, units, beat, value);
    }
    place_later(beats, ratios, delays, units, n, beat, value)
}

// Every entry, until one is to be placed in a kept list that falls: then `falls`, and the count is 0.
fn place_all(
    beats: &[f64],
    ratios: &[f64],
    delays: &[f64],
    units: &[u8],
    n: usize,
    kept_beats: &mut [f64],
    kept_ratios: &mut [f64],
    kept_delays: &mut [f64],
    kept_units: &mut [u8],
) -> Placed
    requires n_bound { (n ≤ 1024) × (n ≡ least_of (length beats.now) (length ratios.now) (length delays.now) (length units.now)) }
    requires kept_beats_len { (length kept_beats.old ≡ 1024) × (length kept_ratios.old ≡ 1024) × (length kept_delays.old ≡ 1024) × (length kept_units.old ≡ 1024) }
    ensures { let list = speed_entries beats.now ratios.now delays.now units.now in
        let kept = speed_values kept_ratios.new kept_delays.new kept_units.new in
        PlacedAll row_key_at near_speed list result.count result.falls kept_beats.new kept }
{
    let mut kept = Placed {
        count: 0,
        falls: false,
    };
    for i in 0..n {
        if kept.falls {
            return Placed {
                count: 0,
                falls: true,
            };
        }
        let value = speed_at(ratios, delays, units, i);
        kept = add_speed_segment_slow(
            kept_beats,
            kept_ratios,
            kept_delays,
            kept_units,
            kept.count,
            beats[i],
            value,
        );
    }
    Placed {
        count: kept.count,
        falls: false,
    }
}

fn lay_rows(
    beats: &[f64],
    ratios: &[f64],
    delays: &[f64],
    units: &[u8],
    count: usize,
    out_beats: &mut [f64],
    out_ratios: &mut [f64],
    out_delays: &mut [f64],
    out_units: &mut [u8],
)
    requires count_in_bounds { (count ≤ length beats.now) × (count ≤ length ratios.now) × (count ≤ length delays.now) × (count ≤ length units.now) }
    requires count_bound { count ≤ least_of (length out_beats.old) (length out_ratios.old) (length out_delays.old) (length out_units.old) }
    ensures { let list = listed_speeds count beats.now ratios.now delays.now units.now in
        let rooms = lent_speeds out_beats out_ratios out_delays out_units in
        LaidOver (map speed_on_row list) (speeds_before rooms) (speeds_after rooms) }
{
    tidy_by_rows::lay_each_on_row(&beats[..count], out_beats);
    columns::copy(&ratios[..count], out_ratios);
    columns::copy(&delays[..count], out_delays);
    columns::copy(&units[..count], out_units);
}

fn tidy_in(
    beats: &[f64],
    ratios: &[f64],
    delays: &[f64],
    units: &[u8],
    n: usize,
    kept_beats: &mut [f64],
    kept_ratios: &mut [f64],
    kept_delays: &mut [f64],
    kept_units: &mut [u8],
    out_beats: &mut [f64],
    out_ratios: &mut [f64],
    out_delays: &mut [f64],
    out_units: &mut [u8],
) -> Outcome
    requires n_bound { (n ≤ 1024) × (n ≡ least_of (length beats.now) (length ratios.now) (length delays.now) (length units.now)) }
    requires kept_beats_len { (length kept_beats.old ≡ 1024) × (length kept_ratios.old ≡ 1024) × (length kept_delays.old ≡ 1024) × (length kept_units.old ≡ 1024) }
    ensures { let speeds = speed_columns beats.now ratios.now delays.now units.now in
        let rooms = lent_speeds out_beats out_ratios out_delays out_units in
        PlacedTidied speeds result (speeds_before rooms) (speeds_after rooms) }
{
    let kept = place_all(
        beats,
        ratios,
        delays,
        units,
        n,
        kept_beats,
        kept_ratios,
        kept_delays,
        kept_units,
    );
    if kept.falls {
        return columns::refused(limits::FALLS);
    }
    if kept.count
        > tidy_speeds_entries::least_of(
            out_beats.len(),
            out_ratios.len(),
            out_delays.len(),
            out_units.len(),
        )
    {
        return columns::refused(limits::NO_ROOM);
    }
    lay_rows(
        kept_beats,
        kept_ratios,
        kept_delays,
        kept_units,
        kept.count,
        out_beats,
        out_ratios,
        out_delays,
        out_units,
    );
    Outcome {
        number: limits::TAKEN,
        count: kept.count,
    }
}

// The kept entries of a list whatever its order, placed one by one, each on its row: 1 above 1,024 entries, 6 where one is placed in a kept list that falls, 7 without room.
// Columns are read as far as the shortest goes, and no number is tested.
pub fn tidy_placed_untested(
    beats: &[f64],
    ratios: &[f64],
    delays: &[f64],
    units: &[u8],
    out_beats: &mut [f64],
    out_ratios: &mut [f64],
    out_delays: &mut [f64],
    out_units: &mut [u8],
) -> Outcome
    ensures { let speeds = speed_columns beats.now ratios.now delays.now units.now in
        let rooms = lent_speeds out_beats out_ratios out_delays out_units in
        PlacedTidied speeds result (speeds_before rooms) (speeds_after rooms) }
{
    let n = tidy_speeds_entries::least_of(beats.len(), ratios.len(), delays.len(), units.len());
    if n > limits::MOST_ENTRIES {
        return columns::refused(limits::TOO_LONG);
    }
    let mut kept_beats = [0.0; limits::MOST_ENTRIES];
    let mut kept_ratios = [0.0; limits::MOST_ENTRIES];
    let mut kept_delays = [0.0; limits::MOST_ENTRIES];
    let mut kept_units = [0; limits::MOST_ENTRIES];
    tidy_in(
        beats,
        ratios,
        delays,
        units,
        n,
        &mut kept_beats,
        &mut kept_ratios,
        &mut kept_delays,
        &mut kept_units,
        out_beats,
        out_ratios,
        out_delays,
        out_units,
    )
}
