// Raw tempos and stops, processed by the format of the chart.
#![tactic(auto)]

ghost use Rattle.process_raw.specs.LentLists.{two_columns, lent_three, three_before, three_after};
ghost use Rattle.process_raw.specs.RawLists.{raw_numbers_of};
ghost use Rattle.process.specs.ByFormat.{lists_by_of, ThreeListsLaid, ProcessedBy};

use chart::TimingFormat;
use process_raw::Processed;

fn process_given(
    format: TimingFormat,
    tempo_beats: &[f64],
    tempo_values: &[f64],
    stop_beats: &[f64],
    stop_values: &[f64],
    out_tempo_beats: &mut [f64],
    out_tempo_values: &mut [f64],
    out_stop_beats: &mut [f64],
    out_stop_values: &mut [f64],
    out_warp_beats: &mut [f64],
    out_warp_lengths: &mut [f64],
) -> Processed
    ensures { let raw = two_columns tempo_beats.now tempo_values.now stop_beats.now stop_values.now in
        let rooms = lent_three out_tempo_beats out_tempo_values out_stop_beats out_stop_values out_warp_beats out_warp_lengths in
        ThreeListsLaid (raw_numbers_of raw) (lists_by_of format raw) result (three_before rooms) (three_after rooms) }
{
    match format {
        TimingFormat::Sm => process_sm::process_bpms_and_stops_sm(
            tempo_beats,
            tempo_values,
            stop_beats,
            stop_values,
            out_tempo_beats,
            out_tempo_values,
            out_stop_beats,
            out_stop_values,
            out_warp_beats,
            out_warp_lengths,
        ),
        TimingFormat::Ssc => process_ssc::process_bpms_and_stops_ssc(
            tempo_beats,
            tempo_values,
            stop_beats,
            stop_values,
            out_tempo_beats,
            out_tempo_values,
            out_stop_beats,
            out_stop_values,
        ),
    }
}

// Tempos, stops and the warps that they make, and what beat 0 is moved by. No tempos at all are one of 60 at beat 0.
pub fn process_bpms_and_stops(
    format: TimingFormat,
    tempo_beats: &[f64],
    tempo_values: &[f64],
    stop_beats: &[f64],
    stop_values: &[f64],
    out_tempo_beats: &mut [f64],
    out_tempo_values: &mut [f64],
    out_stop_beats: &mut [f64],
    out_stop_values: &mut [f64],
    out_warp_beats: &mut [f64],
    out_warp_lengths: &mut [f64],
) -> Processed
    ensures { let raw = two_columns tempo_beats.now tempo_values.now stop_beats.now stop_values.now in
        let rooms = lent_three out_tempo_beats out_tempo_values out_stop_beats out_stop_values out_warp_beats out_warp_lengths in
        ProcessedBy format raw result (three_before rooms) (three_after rooms) }
{
    if tempo_beats.len() == 0 {
        if tempo_values.len() == 0 {
            return process_given(
                format,
                &[0.0],
                &[60.0],
                stop_beats,
                stop_values,
                out_tempo_beats,
                out_tempo_values,
                out_stop_beats,
                out_stop_values,
                out_warp_beats,
                out_warp_lengths,
            );
        }
    }
    process_given(
        format,
        tempo_beats,
        tempo_values,
        stop_beats,
        stop_values,
        out_tempo_beats,
        out_tempo_values,
        out_stop_beats,
        out_stop_values,
        out_warp_beats,
        out_warp_lengths,
    )
}
