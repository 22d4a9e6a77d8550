// The marked calls of the clock under C names, the cursor by value, for native programs to link.
#![tactic(auto)]

ghost use Rattle.std.specs.Prelude.{◌≡◌};
ghost use Rattle.chart.specs.Timing.{timing};
ghost use Rattle.clock.specs.Marked.{mark_made, marked_timing_number, marked_player_question, marked_question};
ghost use Rattle.clock_run.specs.Run.{run_columns};
ghost use Rattle.clock_run.specs.MarkedRun.{MarkedRunLaid};

use clock::{Answer, Cursor, MarkMade};
use clock_run::Ran;
use clock_walk::Mark;

// The end mark of a timing.
#[unsafe(no_mangle)]
pub extern "C" fn marrighentu_make_mark(
    tempo_beats: &[f32],
    tempo_values: &[f32],
    stop_beats: &[f32],
    stop_values: &[f32],
    delay_beats: &[f32],
    delay_values: &[f32],
    warp_beats: &[f32],
    warp_lengths: &[f32],
    offset: f64,
    global: f64,
) -> MarkMade
    ensures { let t = timing tempo_beats.now tempo_values.now stop_beats.now stop_values.now
        delay_beats.now delay_values.now warp_beats.now warp_lengths.now in
        result ≡ mark_made t offset global }
{
    clock::make_mark(
        tempo_beats,
        tempo_values,
        stop_beats,
        stop_values,
        delay_beats,
        delay_values,
        warp_beats,
        warp_lengths,
        offset,
        global,
    )
}

// The timing's number, and then 5 for a mark that is not its own.
#[unsafe(no_mangle)]
pub extern "C" fn marrighentu_check_marked_timing(
    mark: Mark,
    tempo_beats: &[f32],
    tempo_values: &[f32],
    stop_beats: &[f32],
    stop_values: &[f32],
    delay_beats: &[f32],
    delay_values: &[f32],
    warp_beats: &[f32],
    warp_lengths: &[f32],
    offset: f64,
    global: f64,
) -> u32
    ensures { let t = timing tempo_beats.now tempo_values.now stop_beats.now stop_values.now
        delay_beats.now delay_values.now warp_beats.now warp_lengths.now in
        result ≡ marked_timing_number mark t offset global }
{
    clock::check_marked_timing(
        mark,
        tempo_beats,
        tempo_values,
        stop_beats,
        stop_values,
        delay_beats,
        delay_values,
        warp_beats,
        warp_lengths,
        offset,
        global,
    )
}

// At what time is this beat, with a mark? Everything is tested.
#[unsafe(no_mangle)]
pub extern "C" fn marrighentu_time_for_beat_marked(
    cursor: Cursor,
    mark: Mark,
    tempo_beats: &[f32],
    tempo_values: &[f32],
    stop_beats: &[f32],
    stop_values: &[f32],
    delay_beats: &[f32],
    delay_values: &[f32],
    warp_beats: &[f32],
    warp_lengths: &[f32],
    offset: f64,
    global: f64,
    beat: f64,
) -> Answer
    ensures { let t = timing tempo_beats.now tempo_values.now stop_beats.now stop_values.now
        delay_beats.now delay_values.now warp_beats.now warp_lengths.now in
        result ≡ marked_question mark t cursor offset global beat }
{
    cursor.time_for_beat_marked(
        mark,
        tempo_beats,
        tempo_values,
        stop_beats,
        stop_values,
        delay_beats,
        delay_values,
        warp_beats,
        warp_lengths,
        offset,
        global,
        beat,
    )
}

// The player's question, with a mark.
#[unsafe(no_mangle)]
pub extern "C" fn marrighentu_time_for_beat_checked_marked(
    cursor: Cursor,
    mark: Mark,
    tempo_beats: &[f32],
    tempo_values: &[f32],
    stop_beats: &[f32],
    stop_values: &[f32],
    delay_beats: &[f32],
    delay_values: &[f32],
    warp_beats: &[f32],
    warp_lengths: &[f32],
    offset: f64,
    global: f64,
    beat: f64,
) -> Answer
    ensures { let t = timing tempo_beats.now tempo_values.now stop_beats.now stop_values.now
        delay_beats.now delay_values.now warp_beats.now warp_lengths.now in
        result ≡ marked_player_question mark t cursor offset global beat }
{
    cursor.time_for_beat_checked_marked(
        mark,
        tempo_beats,
        tempo_values,
        stop_beats,
        stop_values,
        delay_beats,
        delay_values,
        warp_beats,
        warp_lengths,
        offset,
        global,
        beat,
    )
}

// A run from the cursor on, with a mark.
#[unsafe(no_mangle)]
pub extern "C" fn marrighentu_run_marked(
    cursor: Cursor,
    mark: Mark,
    tempo_beats: &[f32],
    tempo_values: &[f32],
    stop_beats: &[f32],
    stop_values: &[f32],
    delay_beats: &[f32],
    delay_values: &[f32],
    warp_beats: &[f32],
    warp_lengths: &[f32],
    offset: f64,
    global: f64,
    beats: &[f64],
    numbers: &mut [u32],
    times: &mut [f64],
    counts: &mut [usize],
) -> Ran
    ensures { let t = timing tempo_beats.now tempo_values.now stop_beats.now stop_values.now
        delay_beats.now delay_values.now warp_beats.now warp_lengths.now in
        let old = run_columns numbers.old times.old counts.old in
        let new = run_columns numbers.new times.new counts.new in
        MarkedRunLaid mark t offset global cursor beats.now result old new }
{
    clock_run::run_marked(
        cursor,
        mark,
        tempo_beats,
        tempo_values,
        stop_beats,
        stop_values,
        delay_beats,
        delay_values,
        warp_beats,
        warp_lengths,
        offset,
        global,
        beats,
        numbers,
        times,
        counts,
    )
}
