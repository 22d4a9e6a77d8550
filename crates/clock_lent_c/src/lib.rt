// The calls over a cursor that its holder lends, under C names, for native programs to link: each is that of clock_lent.
#![tactic(auto)]

ghost use Rattle.std.specs.Prelude.{◌≡◌};
ghost use Rattle.chart.specs.Timing.{timing};
ghost use Rattle.clock.specs.Question.{player_question, question};
ghost use Rattle.clock_run.specs.Run.{run_columns, RunLaid};
ghost use Rattle.clock_lent.specs.Reply.{reply_of};

use clock::Cursor;
use clock_lent::Reply;

// At what time is this beat? Everything is tested: the timing, its offsets, the beat, the cursor. After a refusal the cursor is as it was.
#[unsafe(no_mangle)]
pub extern "C" fn marrighentu_lent_time_for_beat(
    cursor: &mut Cursor,
    tempo_beats: &[f32],
    tempo_values: &[f32],
    stop_beats: &[f32],
    stop_values: &[f32],
    delay_beats: &[f32],
    delay_values: &[f32],
    warp_beats: &[f32],
    warp_lengths: &[f32],
    offset: f64,
    global: f64,
    beat: f64,
) -> Reply
    ensures { let t = timing tempo_beats.now tempo_values.now stop_beats.now stop_values.now
        delay_beats.now delay_values.now warp_beats.now warp_lengths.now in
        let answer = question t cursor.old offset global beat in
        (result ≡ reply_of answer) × (cursor.new ≡ answer.cursor) }
{
    clock_lent::marrighentu_lent_time_for_beat(
        cursor,
        tempo_beats,
        tempo_values,
        stop_beats,
        stop_values,
        delay_beats,
        delay_values,
        warp_beats,
        warp_lengths,
        offset,
        global,
        beat,
    )
}

// The player's question, for a timing that `clock_tests::check_timing` took and that has not changed since: the beat and the cursor are tested.
#[unsafe(no_mangle)]
pub extern "C" fn marrighentu_lent_time_for_beat_checked(
    cursor: &mut Cursor,
    tempo_beats: &[f32],
    tempo_values: &[f32],
    stop_beats: &[f32],
    stop_values: &[f32],
    delay_beats: &[f32],
    delay_values: &[f32],
    warp_beats: &[f32],
    warp_lengths: &[f32],
    offset: f64,
    global: f64,
    beat: f64,
) -> Reply
    ensures { let t = timing tempo_beats.now tempo_values.now stop_beats.now stop_values.now
        delay_beats.now delay_values.now warp_beats.now warp_lengths.now in
        let answer = player_question t cursor.old offset global beat in
        (result ≡ reply_of answer) × (cursor.new ≡ answer.cursor) }
{
    clock_lent::marrighentu_lent_time_for_beat_checked(
        cursor,
        tempo_beats,
        tempo_values,
        stop_beats,
        stop_values,
        delay_beats,
        delay_values,
        warp_beats,
        warp_lengths,
        offset,
        global,
        beat,
    )
}

// A run from the cursor on: for each beat its number, its time and its count, over the fronts of the three columns. The answer is its number;
// after a refusal all is as it was.
#[unsafe(no_mangle)]
pub extern "C" fn marrighentu_lent_run(
    cursor: &mut Cursor,
    tempo_beats: &[f32],
    tempo_values: &[f32],
    stop_beats: &[f32],
    stop_values: &[f32],
    delay_beats: &[f32],
    delay_values: &[f32],
    warp_beats: &[f32],
    warp_lengths: &[f32],
    offset: f64,
    global: f64,
    beats: &[f64],
    numbers: &mut [u32],
    times: &mut [f64],
    counts: &mut [usize],
) -> u32
    ensures { let t = timing tempo_beats.now tempo_values.now stop_beats.now stop_values.now
        delay_beats.now delay_values.now warp_beats.now warp_lengths.now in
        let old = run_columns numbers.old times.old counts.old in
        let new = run_columns numbers.new times.new counts.new in
        RunLaid t offset global cursor.entry.now beats.now (record { cursor = cursor.exit.now; number = result }) old new }
{
    clock_lent::marrighentu_lent_run(
        cursor,
        tempo_beats,
        tempo_values,
        stop_beats,
        stop_values,
        delay_beats,
        delay_values,
        warp_beats,
        warp_lengths,
        offset,
        global,
        beats,
        numbers,
        times,
        counts,
    )
}
