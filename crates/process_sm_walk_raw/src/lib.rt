// SM: both raw lists as changes, and what the walk makes of them.
#![tactic(auto)]

ghost use Rattle.std.specs.Prelude.{◌≤◌, length};
ghost use Rattle.process_raw.specs.LentLists.{two_columns, lent_three};
ghost use Rattle.process_sm_walk.specs.Columns.{columns_before, columns_after};
ghost use Rattle.process_sm_walk_raw.specs.RawWalk.{RawWalked};
ghost use Rattle.process_sm_walk_raw.specs.inside.ChangeRooms.{ChangeRooms};

use process_sm_walk::Walked;

// By way of columns for the changes of both lists.
fn walk_in(
    tempo_beats: &[f64],
    tempo_values: &[f64],
    stop_beats: &[f64],
    stop_values: &[f64],
    change_tempo_beats: &mut [f32],
    change_tempo_values: &mut [f32],
    change_stop_beats: &mut [f32],
    change_stop_values: &mut [f32],
    walked_tempo_beats: &mut [f64],
    walked_tempo_values: &mut [f64],
    walked_stop_beats: &mut [f64],
    walked_stop_values: &mut [f64],
    walked_warp_beats: &mut [f64],
    walked_warp_lengths: &mut [f64],
) -> Walked
    requires { let raw = two_columns tempo_beats.now tempo_values.now stop_beats.now stop_values.now in
        let rooms = two_columns change_tempo_beats.old change_tempo_values.old change_stop_beats.old change_stop_values.old in
        ChangeRooms raw rooms }
    ensures { let raw = two_columns tempo_beats.now tempo_values.now stop_beats.now stop_values.now in
        let rooms = lent_three walked_tempo_beats walked_tempo_values walked_stop_beats walked_stop_values walked_warp_beats walked_warp_lengths in
        RawWalked raw result (columns_before rooms) (columns_after rooms) }
{
    let tempos = process_sm_changes::sm_changes(
        tempo_beats,
        tempo_values,
        change_tempo_beats,
        change_tempo_values,
    );
    let stops = process_sm_changes::sm_changes(
        stop_beats,
        stop_values,
        change_stop_beats,
        change_stop_values,
    );
    let number = limits::lower_of(tempos.number, stops.number);
    if number != limits::TAKEN {
        return Walked {
            number: number,
            tempos: 0,
            stops: 0,
            warps: 0,
            offset: 0.0,
        };
    }
    let tempo_count = tempos.count;
    let stop_count = stops.count;
    process_sm_walk::walk_changes(
        &change_tempo_beats[..tempo_count],
        &change_tempo_values[..tempo_count],
        &change_stop_beats[..stop_count],
        &change_stop_values[..stop_count],
        walked_tempo_beats,
        walked_tempo_values,
        walked_stop_beats,
        walked_stop_values,
        walked_warp_beats,
        walked_warp_lengths,
    )
}

// Columns for as many tempos and stops as a chart has.
fn walk_few(
    tempo_beats: &[f64],
    tempo_values: &[f64],
    stop_beats: &[f64],
    stop_values: &[f64],
    walked_tempo_beats: &mut [f64],
    walked_tempo_values: &mut [f64],
    walked_stop_beats: &mut [f64],
    walked_stop_values: &mut [f64],
    walked_warp_beats: &mut [f64],
    walked_warp_lengths: &mut [f64],
) -> Walked
    requires { (length tempo_beats.now ≤ 64) × (length stop_beats.now ≤ 64) }
    ensures { let raw = two_columns tempo_beats.now tempo_values.now stop_beats.now stop_values.now in
        let rooms = lent_three walked_tempo_beats walked_tempo_values walked_stop_beats walked_stop_values walked_warp_beats walked_warp_lengths in
        RawWalked raw result (columns_before rooms) (columns_after rooms) }
{
    let mut change_tempo_beats = [0.0f32; limits::FEW];
    let mut change_tempo_values = [0.0f32; limits::FEW];
    let mut change_stop_beats = [0.0f32; limits::FEW];
    let mut change_stop_values = [0.0f32; limits::FEW];
    walk_in(
        tempo_beats,
        tempo_values,
        stop_beats,
        stop_values,
        &mut change_tempo_beats,
        &mut change_tempo_values,
        &mut change_stop_beats,
        &mut change_stop_values,
        walked_tempo_beats,
        walked_tempo_values,
        walked_stop_beats,
        walked_stop_values,
        walked_warp_beats,
        walked_warp_lengths,
    )
}

// What the tempos and stops that are taken come to, as the walk leaves it: tempos not tidied yet, stops, warps, and what beat 0 is moved by.
// Refused by the tests of both lists, and then by 7 where there is no room for as much as so many changes can come to.
pub fn walk_raw(
    tempo_beats: &[f64],
    tempo_values: &[f64],
    stop_beats: &[f64],
    stop_values: &[f64],
    walked_tempo_beats: &mut [f64],
    walked_tempo_values: &mut [f64],
    walked_stop_beats: &mut [f64],
    walked_stop_values: &mut [f64],
    walked_warp_beats: &mut [f64],
    walked_warp_lengths: &mut [f64],
) -> Walked
    ensures { let raw = two_columns tempo_beats.now tempo_values.now stop_beats.now stop_values.now in
        let rooms = lent_three walked_tempo_beats walked_tempo_values walked_stop_beats walked_stop_values walked_warp_beats walked_warp_lengths in
        RawWalked raw result (columns_before rooms) (columns_after rooms) }
{
    if tempo_beats.len() <= limits::FEW {
        if stop_beats.len() <= limits::FEW {
            return walk_few(
                tempo_beats,
                tempo_values,
                stop_beats,
                stop_values,
                walked_tempo_beats,
                walked_tempo_values,
                walked_stop_beats,
                walked_stop_values,
                walked_warp_beats,
                walked_warp_lengths,
            );
        }
    }
    let mut change_tempo_beats = [0.0f32; limits::MOST_ENTRIES];
    let mut change_tempo_values = [0.0f32; limits::MOST_ENTRIES];
    let mut change_stop_beats = [0.0f32; limits::MOST_ENTRIES];
    let mut change_stop_values = [0.0f32; limits::MOST_ENTRIES];
    walk_in(
        tempo_beats,
        tempo_values,
        stop_beats,
        stop_values,
        &mut change_tempo_beats,
        &mut change_tempo_values,
        &mut change_stop_beats,
        &mut change_stop_values,
        walked_tempo_beats,
        walked_tempo_values,
        walked_stop_beats,
        walked_stop_values,
        walked_warp_beats,
        walked_warp_lengths,
    )
}
