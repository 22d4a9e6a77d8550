// Speed tidying: entries in order are kept in one pass; others are placed one by one.
#![tactic(auto)]

ghost use Rattle.std.specs.Prelude.{◌≡◌, true, map, ◌≤◌, length};
ghost use Rattle.limits.specs.Neighbours.{every_two};
ghost use Rattle.tidy_by_rows.specs.ByMarks.{row_rises};
ghost use Rattle.chart.specs.ChartColumns.{lent_speeds, speeds_before, speeds_after, speed_columns};
ghost use Rattle.tidy_speeds_entries.specs.Speed.{speeds_in, speed_on_row};
ghost use Rattle.tidy_speeds_entries.specs.LaidSpeeds.{least_of};
ghost use Rattle.tidy_speeds_entries.specs.inside.LaidRooms.{LaidOver};
ghost use Rattle.tidy_speeds_ordered.specs.inside.Apart.{ColumnsApart};
ghost use Rattle.tidy_speeds.specs.SpeedTidying.{values_number, speed_list_number, TidiesSpeeds};

use columns::Outcome;
use limits::Kind;

fn values_number(ratios: &[f64], delays: &[f64], units: &[u8]) -> u32
    ensures { result ≡ values_number ratios.now delays.now units.now }
{
    if !limits::column_taken(Kind::Value, ratios) {
        return limits::BAD_VALUE;
    }
    if !limits::column_taken(Kind::Value, delays) {
        return limits::BAD_VALUE;
    }
    if !limits::units_taken(units) {
        return limits::BAD_VALUE;
    }
    limits::TAKEN
}

// What a list of speeds answers by itself: 1, 2, 3 or 4, and 0 where it is taken.
pub fn speed_list_number(beats: &[f64], ratios: &[f64], delays: &[f64], units: &[u8]) -> u32
    ensures { result ≡ speed_list_number beats.now ratios.now delays.now units.now }
{
    if beats.len() > limits::MOST_ENTRIES {
        return limits::TOO_LONG;
    }
    if ratios.len() > limits::MOST_ENTRIES {
        return limits::TOO_LONG;
    }
    if delays.len() > limits::MOST_ENTRIES {
        return limits::TOO_LONG;
    }
    if units.len() > limits::MOST_ENTRIES {
        return limits::TOO_LONG;
    }
    if beats.len() != ratios.len() {
        return limits::UNEVEN;
    }
    if beats.len() != delays.len() {
        return limits::UNEVEN;
    }
    if beats.len() != units.len() {
        return limits::UNEVEN;
    }
    if !limits::column_taken(Kind::Beat, beats) {
        return limits::BAD_BEAT;
    }
    values_number(ratios, delays, units)
}

// ---- the common case: rows that rise, and no ratio near the one before it, column by column

fn lay_columns(
    beats: &[f64],
    ratios: &[f64],
    delays: &[f64],
    units: &[u8],
    out_beats: &mut [f64],
    out_ratios: &mut [f64],
    out_delays: &mut [f64],
    out_units: &mut [u8],
)
    requires columns_apart { ColumnsApart beats.now ratios.now delays.now units.now }
    requires beats_len_bound { length beats.now ≤ least_of (length out_beats.old) (length out_ratios.old) (length out_delays.old) (length out_units.old) }
    ensures { let speeds = speed_columns beats.now ratios.now delays.now units.now in
        let rooms = lent_speeds out_beats out_ratios out_delays out_units in
        LaidOver (map speed_on_row (speeds_in speeds)) (speeds_before rooms) (speeds_after rooms) }
{
    tidy_by_rows::lay_on_rows(beats, out_beats);
    columns::copy(ratios, out_ratios);
    columns::copy(delays, out_delays);
    columns::copy(units, out_units);
}

fn tidy_rising(
    beats: &[f64],
    ratios: &[f64],
    delays: &[f64],
    units: &[u8],
    out_beats: &mut [f64],
    out_ratios: &mut [f64],
    out_delays: &mut [f64],
    out_units: &mut [u8],
) -> Outcome
    requires { (speed_list_number beats.now ratios.now delays.now units.now ≡ 0) × (every_two row_rises beats.now ≡ true) }
    ensures { let speeds = speed_columns beats.now ratios.now delays.now units.now in
        let rooms = lent_speeds out_beats out_ratios out_delays out_units in
        TidiesSpeeds speeds result (speeds_before rooms) (speeds_after rooms) }
{
    let room = tidy_speeds_entries::least_of(
        out_beats.len(),
        out_ratios.len(),
        out_delays.len(),
        out_units.len(),
    );
    if beats.len() <= room {
        if tidy_kept::all_apart(ratios) {
            lay_columns(
                beats, ratios, delays, units, out_beats, out_ratios, out_delays, out_units,
            );
            return Outcome {
                number: limits::TAKEN,
                count: beats.len(),
            };
        }
    }
    tidy_speeds_ordered::tidy_ordered_untested(
        beats, ratios, delays, units, out_beats, out_ratios, out_delays, out_units,
    )
}

// ---- the call

// Speeds on their rows, without those that are near the one before, over the fronts of the four rooms, and how many there are. Refused with 1, 2, 3 or 4 for the list,
// with 6 where rows fall and one is to be placed in a kept list that falls, and with 7 where they do not fit.
pub fn tidy_speed_segments(
    beats: &[f64],
    ratios: &[f64],
    delays: &[f64],
    units: &[u8],
    out_beats: &mut [f64],
    out_ratios: &mut [f64],
    out_delays: &mut [f64],
    out_units: &mut [u8],
) -> Outcome
    ensures { let speeds = speed_columns beats.now ratios.now delays.now units.now in
        let rooms = lent_speeds out_beats out_ratios out_delays out_units in
        TidiesSpeeds speeds result (speeds_before rooms) (speeds_after rooms) }
{
    let number = speed_list_number(beats, ratios, delays, units);
    if number != limits::TAKEN {
        return columns::refused(number);
    }
    if tidy_by_rows::rise(beats) {
        return tidy_rising(
            beats, ratios, delays, units, out_beats, out_ratios, out_delays, out_units,
        );
    }
    if tidy_by_rows::in_order(beats) {
        return tidy_speeds_ordered::tidy_ordered_untested(
            beats, ratios, delays, units, out_beats, out_ratios, out_delays, out_units,
        );
    }
    tidy_speeds_placed::tidy_placed_untested(
        beats, ratios, delays, units, out_beats, out_ratios, out_delays, out_units,
    )
}
