// SM: the processing of raw tempos and stops by way of lent work columns.
#![tactic(auto)]

ghost use Rattle.std.specs.Prelude.{◌≡◌, length};
ghost use Rattle.limits.specs.declared.Kind.TheVariants.{Beat, TidyTempo};
ghost use Rattle.limits.specs.Numbers.{range_of};
ghost use Rattle.limits.specs.Refusals.{list_number};
ghost use Rattle.order.specs.Entries.{entries};
ghost use Rattle.tidy_tempos.specs.TempoTidying.{tidy_tempos};
ghost use Rattle.process_sm_walk.specs.Columns.{columns_before, columns_after};
ghost use Rattle.process_raw.specs.LentLists.{two_columns, lent_three, three_before, three_after};
ghost use Rattle.process_raw.specs.ProcessedLaid.{ProcessedLaid};
ghost use Rattle.process_sm_lent.specs.Lent.{LentLaid};

use process_raw::Processed;

// ---- results into their rooms

// Tempos tidied, stops and warps as they are; or 7, and nothing is written.
fn lay_results(
    tempo_beats: &[f64],
    tempo_values: &[f64],
    stop_beats: &[f64],
    stop_values: &[f64],
    warp_beats: &[f64],
    warp_lengths: &[f64],
    offset: f64,
    out_tempo_beats: &mut [f64],
    out_tempo_values: &mut [f64],
    out_stop_beats: &mut [f64],
    out_stop_values: &mut [f64],
    out_warp_beats: &mut [f64],
    out_warp_lengths: &mut [f64],
) -> Processed
    requires tempo_values_value { list_number (range_of Beat) (range_of TidyTempo) tempo_beats.now tempo_values.now ≡ 0 }
    requires stop_beats_len { (length stop_beats.now ≡ length stop_values.now) × (length warp_beats.now ≡ length warp_lengths.now) }
    ensures { let tempos = tidy_tempos tempo_beats.now tempo_values.now in
        let stops = entries stop_beats.now stop_values.now in
        let warps = entries warp_beats.now warp_lengths.now in
        let rooms = lent_three out_tempo_beats out_tempo_values out_stop_beats out_stop_values out_warp_beats out_warp_lengths in
        ProcessedLaid 0 tempos stops warps offset result (three_before rooms) (three_after rooms) }
{
    if stop_beats.len() > columns::room_of(out_stop_beats.len(), out_stop_values.len()) {
        return process_raw::refused(limits::NO_ROOM);
    }
    if warp_beats.len() > columns::room_of(out_warp_beats.len(), out_warp_lengths.len()) {
        return process_raw::refused(limits::NO_ROOM);
    }
    let tempos = tidy_tempos::tidy_bpms(
        tempo_beats,
        tempo_values,
        out_tempo_beats,
        out_tempo_values,
    );
    if tempos.number != limits::TAKEN {
        return process_raw::refused(limits::NO_ROOM);
    }
    columns::copy(stop_beats, out_stop_beats);
    columns::copy(stop_values, out_stop_values);
    columns::copy(warp_beats, out_warp_beats);
    columns::copy(warp_lengths, out_warp_lengths);
    Processed {
        number: limits::TAKEN,
        tempos: tempos.count,
        stops: stop_beats.len(),
        warps: warp_beats.len(),
        offset: offset,
    }
}

// ---- by way of work columns

// SM's processing by way of six work columns, which are left with what the walk writes. 7 also where these have no room for as much as the changes can
// come to.
pub fn process_lent(
    tempo_beats: &[f64],
    tempo_values: &[f64],
    stop_beats: &[f64],
    stop_values: &[f64],
    walked_tempo_beats: &mut [f64],
    walked_tempo_values: &mut [f64],
    walked_stop_beats: &mut [f64],
    walked_stop_values: &mut [f64],
    walked_warp_beats: &mut [f64],
    walked_warp_lengths: &mut [f64],
    out_tempo_beats: &mut [f64],
    out_tempo_values: &mut [f64],
    out_stop_beats: &mut [f64],
    out_stop_values: &mut [f64],
    out_warp_beats: &mut [f64],
    out_warp_lengths: &mut [f64],
) -> Processed
    ensures { let raw = two_columns tempo_beats.now tempo_values.now stop_beats.now stop_values.now in
        let work = lent_three walked_tempo_beats walked_tempo_values walked_stop_beats walked_stop_values walked_warp_beats walked_warp_lengths in
        let rooms = lent_three out_tempo_beats out_tempo_values out_stop_beats out_stop_values out_warp_beats out_warp_lengths in
        LentLaid raw result (columns_before work) (columns_after work) (three_before rooms) (three_after rooms) }
{
    let walked = process_sm_walk_raw::walk_raw(
        tempo_beats,
        tempo_values,
        stop_beats,
        stop_values,
        walked_tempo_beats,
        walked_tempo_values,
        walked_stop_beats,
        walked_stop_values,
        walked_warp_beats,
        walked_warp_lengths,
    );
    if walked.number != limits::TAKEN {
        return process_raw::refused(walked.number);
    }
    let tempos = walked.tempos;
    let stops = walked.stops;
    let warps = walked.warps;
    lay_results(
        &walked_tempo_beats[..tempos],
        &walked_tempo_values[..tempos],
        &walked_stop_beats[..stops],
        &walked_stop_values[..stops],
        &walked_warp_beats[..warps],
        &walked_warp_lengths[..warps],
        std::num::f32_to_f64_with_nan(walked.offset),
        out_tempo_beats,
        out_tempo_values,
        out_stop_beats,
        out_stop_values,
        out_warp_beats,
        out_warp_lengths,
    )
}
