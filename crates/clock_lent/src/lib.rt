// The clock over a cursor that its holder lends: it is copied out, asked, and what it has become is stored. For native programs too.
#![tactic(auto)]

ghost use Rattle.std.specs.Prelude.{◌≡◌};
ghost use Rattle.chart.specs.Timing.{timing};
ghost use Rattle.clock.specs.Question.{player_question, question};
ghost use Rattle.clock_run.specs.Run.{run_columns, RunLaid};
ghost use Rattle.clock_lent.specs.Reply.{reply_of};

use clock::Cursor;

// A question's number, its time, and the events passed and one. The cursor for the next question is in the place that was lent.
#[repr(C)]
#[derive(Clone, Copy)]
pub struct Reply {
    pub number: u32,
    pub time: f64,
    pub count: usize,
}

// At what time is this beat? Everything is tested: the timing, its offsets, the beat, the cursor. After a refusal the cursor is as it was.
#[unsafe(no_mangle)]
pub extern "C" fn marrighentu_lent_time_for_beat(
    cursor: &mut Cursor,
    tempo_beats: &[f32],
    tempo_values: &[f32],
    stop_beats: &[f32],
    stop_values: &[f32],
    delay_beats: &[f32],
    delay_values: &[f32],
    warp_beats: &[f32],
    warp_lengths: &[f32],
    offset: f64,
    global: f64,
    beat: f64,
) -> Reply
    ensures { let t = timing tempo_beats.now tempo_values.now stop_beats.now stop_values.now
        delay_beats.now delay_values.now warp_beats.now warp_lengths.now in
        let answer = question t cursor.old offset global beat in
        (result ≡ reply_of answer) × (cursor.new ≡ answer.cursor) }
{
    let answer = (*cursor).time_for_beat(
        tempo_beats,
        tempo_values,
        stop_beats,
        stop_values,
        delay_beats,
        delay_values,
        warp_beats,
        warp_lengths,
        offset,
        global,
        beat,
    );
    *cursor = answer.cursor;
    Reply {
        number: answer.number,
        time: answer.time,
        count: answer.count,
    }
}

// The player's question, for a timing that `clock_tests::check_timing` took and that has not changed since: the beat and the cursor are tested.
#[unsafe(no_mangle)]
pub extern "C" fn marrighentu_lent_time_for_beat_checked(
    cursor: &mut Cursor,
    tempo_beats: &[f32],
    tempo_values: &[f32],
    stop_beats: &[f32],
    stop_values: &[f32],
    delay_beats: &[f32],
    delay_values: &[f32],
    warp_beats: &[f32],
    warp_lengths: &[f32],
    offset: f64,
    global: f64,
    beat: f64,
) -> Reply
    ensures { let t = timing tempo_beats.now tempo_values.now stop_beats.now stop_values.now
        delay_beats.now delay_values.now warp_beats.now warp_lengths.now in
        let answer = player_question t cursor.old offset global beat in
        (result ≡ reply_of answer) × (cursor.new ≡ answer.cursor) }
{
    let answer = (*cursor).time_for_beat_checked(
        tempo_beats,
        tempo_values,
        stop_beats,
        stop_values,
        delay_beats,
        delay_values,
        warp_beats,
        warp_lengths,
        offset,
        global,
        beat,
    );
    *cursor = answer.cursor;
    Reply {
        number: answer.number,
        time: answer.time,
        count: answer.count,
    }
}

// A run from the cursor on: for each beat its number, its time and its count, over the fronts of the three columns. The answer is its number;
// after a refusal all is as it was.
#[unsafe(no_mangle)]
pub extern "C" fn marrighentu_lent_run(
    cursor: &mut Cursor,
    tempo_beats: &[f32],
    tempo_values: &[f32],
    stop_beats: &[f32],
    stop_values: &[f32],
    delay_beats: &[f32],
    delay_values: &[f32],
    warp_beats: &[f32],
    warp_lengths: &[f32],
    offset: f64,
    global: f64,
    beats: &[f64],
    numbers: &mut [u32],
    times: &mut [f64],
    counts: &mut [usize],
) -> u32
    ensures { let t = timing tempo_beats.now tempo_values.now stop_beats.now stop_values.now
        delay_beats.now delay_values.now warp_beats.now warp_lengths.now in
        let old = run_columns numbers.old times.old counts.old in
        let new = run_columns numbers.new times.new counts.new in
        RunLaid t offset global cursor.entry.now beats.now (record { cursor = cursor.exit.now; number = result }) old new }
{
    let ran = clock_run::run(
        *cursor,
        tempo_beats,
        tempo_values,
        stop_beats,
        stop_values,
        delay_beats,
        delay_values,
        warp_beats,
        warp_lengths,
        offset,
        global,
        beats,
        numbers,
        times,
        counts,
    );
    *cursor = ran.cursor;
    ran.number
}
