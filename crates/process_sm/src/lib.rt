// SM: the processing of raw tempos and stops.
#![tactic(auto)]

ghost use Rattle.std.specs.Prelude.{◌≡◌, ◌+◌, ◌^◌, ◌<◌, ◌≤◌, min, max, true, length};
ghost use Rattle.process_raw.specs.RawLists.{raw_numbers};
ghost use Rattle.process_raw.specs.LentLists.{two_columns, three_columns, lent_three, three_before, three_after};
ghost use Rattle.process_sm.specs.Sm.{SmLaid};
ghost use Rattle.process_sm.specs.inside.Rooms.{RoomsHold, ResultRooms};

use process_raw::Processed;

// ---- where every room holds the most that the lists come to: stops and warps are written into their rooms by the walk itself

fn rooms_hold(
    tempos: usize,
    stops: usize,
    tempo_room: usize,
    stop_room: usize,
    warp_room: usize,
) -> bool
    requires { tempos + stops < 2 ^ 64 }
    ensures { result ≡ true → RoomsHold tempos stops tempo_room stop_room warp_room }
{
    if tempo_room < 1 {
        return false;
    }
    if tempos > tempo_room {
        return false;
    }
    if stops > stop_room {
        return false;
    }
    tempos + stops <= warp_room
}

// By way of columns for the tempos that are still to be tidied.
fn process_into(
    tempo_beats: &[f64],
    tempo_values: &[f64],
    stop_beats: &[f64],
    stop_values: &[f64],
    walked_beats: &mut [f64],
    walked_values: &mut [f64],
    out_tempo_beats: &mut [f64],
    out_tempo_values: &mut [f64],
    out_stop_beats: &mut [f64],
    out_stop_values: &mut [f64],
    out_warp_beats: &mut [f64],
    out_warp_lengths: &mut [f64],
) -> Processed
    requires fact { let rooms = three_columns out_tempo_beats.old out_tempo_values.old
        out_stop_beats.old out_stop_values.old out_warp_beats.old out_warp_lengths.old in
        ResultRooms (length tempo_beats.now) (length stop_beats.now) rooms }
    requires fact_2 { let number = raw_numbers tempo_beats.now tempo_values.now stop_beats.now stop_values.now in
        (number ≡ 0 → max (length tempo_beats.now) 1 ≤ min (length walked_beats.old) (length walked_values.old)) }
    ensures { let raw = two_columns tempo_beats.now tempo_values.now stop_beats.now stop_values.now in
        let rooms = lent_three out_tempo_beats out_tempo_values out_stop_beats out_stop_values out_warp_beats out_warp_lengths in
        SmLaid raw result (three_before rooms) (three_after rooms) }
{
    let walked = process_sm_walk_raw::walk_raw(
        tempo_beats,
        tempo_values,
        stop_beats,
        stop_values,
        walked_beats,
        walked_values,
        out_stop_beats,
        out_stop_values,
        out_warp_beats,
        out_warp_lengths,
    );
    if walked.number != limits::TAKEN {
        return process_raw::refused(walked.number);
    }
    let count = walked.tempos;
    let tempos = tidy_tempos::tidy_bpms(
        &walked_beats[..count],
        &walked_values[..count],
        out_tempo_beats,
        out_tempo_values,
    );
    Processed {
        number: limits::TAKEN,
        tempos: tempos.count,
        stops: walked.stops,
        warps: walked.warps,
        offset: std::num::f32_to_f64_with_nan(walked.offset),
    }
}

// Few tempos, as most charts have, go by way of columns that are short to clear.
fn into_rooms(
    tempo_beats: &[f64],
    tempo_values: &[f64],
    stop_beats: &[f64],
    stop_values: &[f64],
    out_tempo_beats: &mut [f64],
    out_tempo_values: &mut [f64],
    out_stop_beats: &mut [f64],
    out_stop_values: &mut [f64],
    out_warp_beats: &mut [f64],
    out_warp_lengths: &mut [f64],
) -> Processed
    requires { let rooms = three_columns out_tempo_beats.old out_tempo_values.old
        out_stop_beats.old out_stop_values.old out_warp_beats.old out_warp_lengths.old in
        ResultRooms (length tempo_beats.now) (length stop_beats.now) rooms }
    ensures { let raw = two_columns tempo_beats.now tempo_values.now stop_beats.now stop_values.now in
        let rooms = lent_three out_tempo_beats out_tempo_values out_stop_beats out_stop_values out_warp_beats out_warp_lengths in
        SmLaid raw result (three_before rooms) (three_after rooms) }
{
    if tempo_beats.len() <= limits::FEW {
        let mut walked_beats = [0.0; limits::FEW];
        let mut walked_values = [0.0; limits::FEW];
        return process_into(
            tempo_beats,
            tempo_values,
            stop_beats,
            stop_values,
            &mut walked_beats,
            &mut walked_values,
            out_tempo_beats,
            out_tempo_values,
            out_stop_beats,
            out_stop_values,
            out_warp_beats,
            out_warp_lengths,
        );
    }
    let mut walked_beats = [0.0; limits::MOST_ENTRIES];
    let mut walked_values = [0.0; limits::MOST_ENTRIES];
    process_into(
        tempo_beats,
        tempo_values,
        stop_beats,
        stop_values,
        &mut walked_beats,
        &mut walked_values,
        out_tempo_beats,
        out_tempo_values,
        out_stop_beats,
        out_stop_values,
        out_warp_beats,
        out_warp_lengths,
    )
}

// ---- where a room may be too short: all three lists by way of work columns

// Every tempo and every stop may make a warp.
const FEW_MADE: usize = 2 * limits::FEW;

const MOST_MADE: usize = 2 * limits::MOST_ENTRIES;

// Few tempos and stops have short columns here too.
fn process_by_columns(
    tempo_beats: &[f64],
    tempo_values: &[f64],
    stop_beats: &[f64],
    stop_values: &[f64],
    out_tempo_beats: &mut [f64],
    out_tempo_values: &mut [f64],
    out_stop_beats: &mut [f64],
    out_stop_values: &mut [f64],
    out_warp_beats: &mut [f64],
    out_warp_lengths: &mut [f64],
) -> Processed
    ensures { let raw = two_columns tempo_beats.now tempo_values.now stop_beats.now stop_values.now in
        let rooms = lent_three out_tempo_beats out_tempo_values out_stop_beats out_stop_values out_warp_beats out_warp_lengths in
        SmLaid raw result (three_before rooms) (three_after rooms) }
{
    if tempo_beats.len() <= limits::FEW {
        if stop_beats.len() <= limits::FEW {
            let mut walked_tempo_beats = [0.0; limits::FEW];
            let mut walked_tempo_values = [0.0; limits::FEW];
            let mut walked_stop_beats = [0.0; limits::FEW];
            let mut walked_stop_values = [0.0; limits::FEW];
            let mut walked_warp_beats = [0.0; FEW_MADE];
            let mut walked_warp_lengths = [0.0; FEW_MADE];
            return process_sm_lent::process_lent(
                tempo_beats,
                tempo_values,
                stop_beats,
                stop_values,
                &mut walked_tempo_beats,
                &mut walked_tempo_values,
                &mut walked_stop_beats,
                &mut walked_stop_values,
                &mut walked_warp_beats,
                &mut walked_warp_lengths,
                out_tempo_beats,
                out_tempo_values,
                out_stop_beats,
                out_stop_values,
                out_warp_beats,
                out_warp_lengths,
            );
        }
    }
    let mut walked_tempo_beats = [0.0; limits::MOST_ENTRIES];
    let mut walked_tempo_values = [0.0; limits::MOST_ENTRIES];
    let mut walked_stop_beats = [0.0; limits::MOST_ENTRIES];
    let mut walked_stop_values = [0.0; limits::MOST_ENTRIES];
    let mut walked_warp_beats = [0.0; MOST_MADE];
    let mut walked_warp_lengths = [0.0; MOST_MADE];
    process_sm_lent::process_lent(
        tempo_beats,
        tempo_values,
        stop_beats,
        stop_values,
        &mut walked_tempo_beats,
        &mut walked_tempo_values,
        &mut walked_stop_beats,
        &mut walked_stop_values,
        &mut walked_warp_beats,
        &mut walked_warp_lengths,
        out_tempo_beats,
        out_tempo_values,
        out_stop_beats,
        out_stop_values,
        out_warp_beats,
        out_warp_lengths,
    )
}

// ---- the call

// Both lists as f32 changes in order by beat, walked, and the tempos that are written tidied. Counts and columns of the tempos, the stops and the
// warps that are made, and what beat 0 is moved by.
pub fn process_bpms_and_stops_sm(
    tempo_beats: &[f64],
    tempo_values: &[f64],
    stop_beats: &[f64],
    stop_values: &[f64],
    out_tempo_beats: &mut [f64],
    out_tempo_values: &mut [f64],
    out_stop_beats: &mut [f64],
    out_stop_values: &mut [f64],
    out_warp_beats: &mut [f64],
    out_warp_lengths: &mut [f64],
) -> Processed
    ensures { let raw = two_columns tempo_beats.now tempo_values.now stop_beats.now stop_values.now in
        let rooms = lent_three out_tempo_beats out_tempo_values out_stop_beats out_stop_values out_warp_beats out_warp_lengths in
        SmLaid raw result (three_before rooms) (three_after rooms) }
{
    let tempo_room = columns::room_of(out_tempo_beats.len(), out_tempo_values.len());
    let stop_room = columns::room_of(out_stop_beats.len(), out_stop_values.len());
    let warp_room = columns::room_of(out_warp_beats.len(), out_warp_lengths.len());
    let hold = rooms_hold(
        tempo_beats.len(),
        stop_beats.len(),
        tempo_room,
        stop_room,
        warp_room,
    );
    if hold {
        return into_rooms(
            tempo_beats,
            tempo_values,
            stop_beats,
            stop_values,
            out_tempo_beats,
            out_tempo_values,
            out_stop_beats,
            out_stop_values,
            out_warp_beats,
            out_warp_lengths,
        );
    }
    process_by_columns(
        tempo_beats,
        tempo_values,
        stop_beats,
        stop_values,
        out_tempo_beats,
        out_tempo_values,
        out_stop_beats,
        out_stop_values,
        out_warp_beats,
        out_warp_lengths,
    )
}
