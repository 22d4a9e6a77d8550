// Tempos and stops processed, and the warps that they make merged with the warps of the chart.
#![tactic(auto)]

ghost use Rattle.std.specs.Prelude.{◌≡◌};
ghost use Rattle.limits.specs.Refusals.{lower};
ghost use Rattle.process_raw.specs.RawLists.{raw_numbers, processed_nothing};
ghost use Rattle.assembly_warps.specs.inside.OrNoRoom.{or_no_room};
ghost use Rattle.process_raw.specs.LentLists.{three_columns, lent_three, three_before, three_after};
ghost use Rattle.assembly_warps.specs.MergedWarps.{MergedBy};

use chart::TimingFormat;
use limits::Kind;
use process_raw::Processed;

// Where the given warps are refused, or have no room: the lowest number of the three lists, and 7 where they are taken.
fn refuse(
    tempo_beats: &[f64],
    tempo_values: &[f64],
    stop_beats: &[f64],
    stop_values: &[f64],
    warps: u32,
) -> Processed
    ensures { let raw = raw_numbers tempo_beats.now tempo_values.now stop_beats.now stop_values.now in
        result ≡ processed_nothing (or_no_room (lower raw warps)) }
{
    let number = limits::lower_of(
        process_raw::number_of(tempo_beats, tempo_values, stop_beats, stop_values),
        warps,
    );
    if number != limits::TAKEN {
        return process_raw::refused(number);
    }
    process_raw::refused(limits::NO_ROOM)
}

// Tempos, stops and what beat 0 is moved by, as processed; the warps that are given and behind them those that are made.
pub fn process_with_warps(
    format: TimingFormat,
    tempo_beats: &[f64],
    tempo_values: &[f64],
    stop_beats: &[f64],
    stop_values: &[f64],
    warp_beats: &[f64],
    warp_lengths: &[f64],
    out_tempo_beats: &mut [f64],
    out_tempo_values: &mut [f64],
    out_stop_beats: &mut [f64],
    out_stop_values: &mut [f64],
    out_warp_beats: &mut [f64],
    out_warp_lengths: &mut [f64],
) -> Processed
    ensures { let raw = three_columns
        tempo_beats.now tempo_values.now
        stop_beats.now stop_values.now
        warp_beats.now warp_lengths.now in
        let rooms = lent_three out_tempo_beats out_tempo_values out_stop_beats out_stop_values out_warp_beats out_warp_lengths in
        MergedBy format raw result (three_before rooms) (three_after rooms) }
{
    let given = warp_beats.len();
    let warps = limits::list_number(Kind::Beat, Kind::Value, warp_beats, warp_lengths);
    if warps != limits::TAKEN {
        return refuse(tempo_beats, tempo_values, stop_beats, stop_values, warps);
    }
    if given > columns::room_of(out_warp_beats.len(), out_warp_lengths.len()) {
        return refuse(tempo_beats, tempo_values, stop_beats, stop_values, warps);
    }
    let processed = process::process_bpms_and_stops(
        format,
        tempo_beats,
        tempo_values,
        stop_beats,
        stop_values,
        out_tempo_beats,
        out_tempo_values,
        out_stop_beats,
        out_stop_values,
        &mut out_warp_beats[given..],
        &mut out_warp_lengths[given..],
    );
    if processed.number != limits::TAKEN {
        return processed;
    }
    columns::copy(warp_beats, out_warp_beats);
    columns::copy(warp_lengths, out_warp_lengths);
    Processed {
        number: limits::TAKEN,
        tempos: processed.tempos,
        stops: processed.stops,
        warps: given + processed.warps,
        offset: processed.offset,
    }
}
