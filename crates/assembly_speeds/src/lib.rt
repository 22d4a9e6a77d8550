// Assembly of speeds: beats quantised, tidied, and written as f32, with the units.
#![tactic(auto)]

ghost use Rattle.std.specs.Prelude.{◌≡◌, map, ◌≤◌, length};
ghost use Rattle.rows.specs.Rows.{quantized};
ghost use Rattle.columns_each.specs.OffGrid.{moved_in, moved_under};
ghost use Rattle.chart.specs.ChartColumns.{speed_columns, lent_speeds, speeds_before, speeds_after};
ghost use Rattle.assembly_speeds.specs.AssembledSpeeds.{SpeedsOver, SpeedsAssembled, SpeedsUntested};
ghost use Rattle.assembly_speeds.specs.AssembledSpeeds.{speeds_room_number, speeds_later, same_lengths, each_speed};
ghost use Rattle.assembly_speeds.specs.inside.NarrowedSpeeds.{narrowed_speeds, EvenSpeeds};

use columns::Outcome;
use columns_each::ListOutcome;

// A result of four columns as f32: its first entries over the fronts of the rooms, or the number it was refused by, or 7 where the rooms are too short.
fn lay_narrowed(
    number: u32,
    count: usize,
    beats: &[f64],
    ratios: &[f64],
    delays: &[f64],
    units: &[u8],
    out_beats: &mut [f32],
    out_ratios: &mut [f32],
    out_delays: &mut [f32],
    out_units: &mut [u8],
) -> Outcome
    ensures { let list = speed_columns beats.now ratios.now delays.now units.now in
        let rooms = lent_speeds out_beats out_ratios out_delays out_units in
        SpeedsOver number (narrowed_speeds count list) result (speeds_before rooms) (speeds_after rooms) }
{
    if number != limits::TAKEN {
        return columns::refused(number);
    }
    let given = tidy_speeds_entries::least_of(beats.len(), ratios.len(), delays.len(), units.len());
    let n = columns::room_of(count, given);
    let room = tidy_speeds_entries::least_of(
        out_beats.len(),
        out_ratios.len(),
        out_delays.len(),
        out_units.len(),
    );
    if n > room {
        return columns::refused(limits::NO_ROOM);
    }
    columns_each::narrow_column(&beats[..n], out_beats);
    columns_each::narrow_column(&ratios[..n], out_ratios);
    columns_each::narrow_column(&delays[..n], out_delays);
    columns::copy(&units[..n], out_units);
    Outcome {
        number: limits::TAKEN,
        count: n,
    }
}

// By way of columns as long as the beats.
fn assemble_in(
    beats: &[f64],
    ratios: &[f64],
    delays: &[f64],
    units: &[u8],
    work_beats: &mut [f64],
    tidy_beats: &mut [f64],
    tidy_ratios: &mut [f64],
    tidy_delays: &mut [f64],
    tidy_units: &mut [u8],
    out_beats: &mut [f32],
    out_ratios: &mut [f32],
    out_delays: &mut [f32],
    out_units: &mut [u8],
) -> Outcome
    requires { (length work_beats.old ≡ length beats.now)
        × (length tidy_beats.old ≡ length beats.now) × (length tidy_ratios.old ≡ length beats.now)
        × (length tidy_delays.old ≡ length beats.now) × (length tidy_units.old ≡ length beats.now) }
    ensures { let raw = speed_columns beats.now ratios.now delays.now units.now in
        let rooms = lent_speeds out_beats out_ratios out_delays out_units in
        SpeedsAssembled raw result (speeds_before rooms) (speeds_after rooms) }
{
    columns_each::quantize_column(beats, work_beats);
    let tidied = tidy_speeds::tidy_speed_segments(
        work_beats,
        ratios,
        delays,
        units,
        tidy_beats,
        tidy_ratios,
        tidy_delays,
        tidy_units,
    );
    lay_narrowed(
        tidied.number,
        tidied.count,
        tidy_beats,
        tidy_ratios,
        tidy_delays,
        tidy_units,
        out_beats,
        out_ratios,
        out_delays,
        out_units,
    )
}

// A chart's lists are mostly short, so few entries have columns of their own: clearing them costs little.
fn assemble_any(
    beats: &[f64],
    ratios: &[f64],
    delays: &[f64],
    units: &[u8],
    out_beats: &mut [f32],
    out_ratios: &mut [f32],
    out_delays: &mut [f32],
    out_units: &mut [u8],
) -> Outcome
    requires { length beats.now ≤ 1024 }
    ensures { let raw = speed_columns beats.now ratios.now delays.now units.now in
        let rooms = lent_speeds out_beats out_ratios out_delays out_units in
        SpeedsAssembled raw result (speeds_before rooms) (speeds_after rooms) }
{
    let n = beats.len();
    if n <= limits::FEW {
        let mut work_beats = [0.0; limits::FEW];
        let mut tidy_beats = [0.0; limits::FEW];
        let mut tidy_ratios = [0.0; limits::FEW];
        let mut tidy_delays = [0.0; limits::FEW];
        let mut tidy_units = [0u8; limits::FEW];
        return assemble_in(
            beats,
            ratios,
            delays,
            units,
            &mut work_beats[..n],
            &mut tidy_beats[..n],
            &mut tidy_ratios[..n],
            &mut tidy_delays[..n],
            &mut tidy_units[..n],
            out_beats,
            out_ratios,
            out_delays,
            out_units,
        );
    }
    let mut work_beats = [0.0; limits::MOST_ENTRIES];
    let mut tidy_beats = [0.0; limits::MOST_ENTRIES];
    let mut tidy_ratios = [0.0; limits::MOST_ENTRIES];
    let mut tidy_delays = [0.0; limits::MOST_ENTRIES];
    let mut tidy_units = [0u8; limits::MOST_ENTRIES];
    assemble_in(
        beats,
        ratios,
        delays,
        units,
        &mut work_beats[..n],
        &mut tidy_beats[..n],
        &mut tidy_ratios[..n],
        &mut tidy_delays[..n],
        &mut tidy_units[..n],
        out_beats,
        out_ratios,
        out_delays,
        out_units,
    )
}

// ---- where quantised beats rise and no ratio is near the one before it, each number is written by itself. No number is tested

fn same_lengths(beats: usize, ratios: usize, delays: usize, units: usize) -> bool
    ensures { result ≡ same_lengths beats ratios delays units }
{
    if beats != ratios {
        return false;
    }
    if beats != delays {
        return false;
    }
    beats == units
}

fn lay_each(
    quantised: &[f32],
    ratios: &[f64],
    delays: &[f64],
    units: &[u8],
    out_beats: &mut [f32],
    out_ratios: &mut [f32],
    out_delays: &mut [f32],
    out_units: &mut [u8],
) -> Outcome
    requires { EvenSpeeds (speed_columns quantised.now ratios.now delays.now units.now) }
    ensures { let list = speed_columns quantised.now ratios.now delays.now units.now in
        let rooms = lent_speeds out_beats out_ratios out_delays out_units in
        SpeedsOver 0 (each_speed list) result (speeds_before rooms) (speeds_after rooms) }
{
    let count = quantised.len();
    let room = tidy_speeds_entries::least_of(
        out_beats.len(),
        out_ratios.len(),
        out_delays.len(),
        out_units.len(),
    );
    if count > room {
        return columns::refused(limits::NO_ROOM);
    }
    columns::copy(quantised, out_beats);
    columns_each::narrow_column(ratios, out_ratios);
    columns_each::narrow_column(delays, out_delays);
    columns::copy(units, out_units);
    Outcome {
        number: limits::TAKEN,
        count: count,
    }
}

fn assemble_quantised(
    beats: &[f64],
    ratios: &[f64],
    delays: &[f64],
    units: &[u8],
    quantised: &[f32],
    out_beats: &mut [f32],
    out_ratios: &mut [f32],
    out_delays: &mut [f32],
    out_units: &mut [u8],
) -> Outcome
    requires even_speeds { EvenSpeeds (speed_columns beats.now ratios.now delays.now units.now) }
    requires beats_len_bound { (length beats.now ≤ 1024) × (quantised.now ≡ map quantized beats.now) }
    ensures { let raw = speed_columns beats.now ratios.now delays.now units.now in
        let rooms = lent_speeds out_beats out_ratios out_delays out_units in
        SpeedsUntested raw result (speeds_before rooms) (speeds_after rooms) }
{
    if assembly_scrolls::rise_apart(quantised, ratios) {
        return lay_each(
            quantised, ratios, delays, units, out_beats, out_ratios, out_delays, out_units,
        );
    }
    assemble_any(
        beats, ratios, delays, units, out_beats, out_ratios, out_delays, out_units,
    )
}

fn assemble_by(
    beats: &[f64],
    ratios: &[f64],
    delays: &[f64],
    units: &[u8],
    quantised: &mut [f32],
    out_beats: &mut [f32],
    out_ratios: &mut [f32],
    out_delays: &mut [f32],
    out_units: &mut [u8],
) -> ListOutcome
    requires even_speeds { EvenSpeeds (speed_columns beats.now ratios.now delays.now units.now) }
    requires beats_len_bound { (length beats.now ≤ 1024) × (length quantised.old ≡ length beats.now) }
    ensures fact { let raw = speed_columns beats.now ratios.now delays.now units.now in
        let rooms = lent_speeds out_beats out_ratios out_delays out_units in
        SpeedsUntested raw result.outcome (speeds_before rooms) (speeds_after rooms) }
    ensures moved_value { result.moved ≡ moved_under result.outcome.number (moved_in beats.now) }
{
    let off = columns_each::quantize_beats(beats, quantised);
    let outcome = assemble_quantised(
        beats, ratios, delays, units, quantised, out_beats, out_ratios, out_delays, out_units,
    );
    columns_each::with_moved(outcome, off)
}

// ---- the calls

// The assembled speeds over the fronts of the four rooms, and how many.
// Refused with 1, 2, 3, 4 or 6 for what tidying is given, and with 7 where they do not fit.
pub fn assemble_speeds(
    beats: &[f64],
    ratios: &[f64],
    delays: &[f64],
    units: &[u8],
    out_beats: &mut [f32],
    out_ratios: &mut [f32],
    out_delays: &mut [f32],
    out_units: &mut [u8],
) -> Outcome
    ensures { let raw = speed_columns beats.now ratios.now delays.now units.now in
        let rooms = lent_speeds out_beats out_ratios out_delays out_units in
        SpeedsAssembled raw result (speeds_before rooms) (speeds_after rooms) }
{
    if beats.len() <= limits::MOST_ENTRIES {
        return assemble_any(
            beats, ratios, delays, units, out_beats, out_ratios, out_delays, out_units,
        );
    }
    columns::refused(limits::TOO_LONG)
}

// Speeds as they are where quantised beats rise and no ratio is near the one before it, and as `assemble_speeds` has them where that is not so.
// For a list that is known to be taken both are the same. With it comes how many of its beats, as they were given, were off the grid.
pub fn assemble_untested(
    beats: &[f64],
    ratios: &[f64],
    delays: &[f64],
    units: &[u8],
    out_beats: &mut [f32],
    out_ratios: &mut [f32],
    out_delays: &mut [f32],
    out_units: &mut [u8],
) -> ListOutcome
    ensures fact { let raw = speed_columns beats.now ratios.now delays.now units.now in
        let rooms = lent_speeds out_beats out_ratios out_delays out_units in
        SpeedsUntested raw result.outcome (speeds_before rooms) (speeds_after rooms) }
    ensures moved_value { result.moved ≡ moved_under result.outcome.number (moved_in beats.now) }
{
    if !same_lengths(beats.len(), ratios.len(), delays.len(), units.len()) {
        let refused = assemble_speeds(
            beats, ratios, delays, units, out_beats, out_ratios, out_delays, out_units,
        );
        return columns_each::with_moved(refused, 0);
    }
    let n = beats.len();
    if n <= limits::FEW {
        let mut quantised = [0.0f32; limits::FEW];
        return assemble_by(
            beats,
            ratios,
            delays,
            units,
            &mut quantised[..n],
            out_beats,
            out_ratios,
            out_delays,
            out_units,
        );
    }
    if n <= limits::MOST_ENTRIES {
        let mut quantised = [0.0f32; limits::MOST_ENTRIES];
        return assemble_by(
            beats,
            ratios,
            delays,
            units,
            &mut quantised[..n],
            out_beats,
            out_ratios,
            out_delays,
            out_units,
        );
    }
    let refused = assemble_speeds(
        beats, ratios, delays, units, out_beats, out_ratios, out_delays, out_units,
    );
    columns_each::with_moved(refused, 0)
}

fn number_in(beats: &[f64], ratios: &[f64], delays: &[f64], units: &[u8], room: usize) -> u32
    ensures { let raw = speed_columns beats.now ratios.now delays.now units.now in
        result ≡ speeds_room_number raw room }
{
    if beats.len() > limits::MOST_ENTRIES {
        return limits::TOO_LONG;
    }
    let n = columns::room_of(room, limits::MOST_ENTRIES);
    let mut beat_room = [0.0f32; limits::MOST_ENTRIES];
    let mut ratio_room = [0.0f32; limits::MOST_ENTRIES];
    let mut delay_room = [0.0f32; limits::MOST_ENTRIES];
    let mut unit_room = [0u8; limits::MOST_ENTRIES];
    let outcome = assemble_speeds(
        beats,
        ratios,
        delays,
        units,
        &mut beat_room[..n],
        &mut ratio_room[..n],
        &mut delay_room[..n],
        &mut unit_room[..n],
    );
    outcome.number
}

// What `assemble_speeds` answers where the shortest room has a length. Where that is no less than the list's and no beat is above the next it is 0 at once,
// as it is of every such list that is taken: no number is tested.
pub fn speeds_number(
    beats: &[f64],
    ratios: &[f64],
    delays: &[f64],
    units: &[u8],
    room: usize,
) -> u32
    ensures { let raw = speed_columns beats.now ratios.now delays.now units.now in
        result ≡ speeds_later raw room }
{
    if beats.len() > room {
        return number_in(beats, ratios, delays, units, room);
    }
    if columns_order::never_fall(beats) {
        return limits::TAKEN;
    }
    number_in(beats, ratios, delays, units, room)
}
