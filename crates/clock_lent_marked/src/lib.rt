// The marked calls over a cursor that its holder lends. They stand apart from the unmarked ones, so that each question has its walk to itself
// and the compiler lays it into the call.
#![tactic(auto)]

ghost use Rattle.std.specs.Prelude.{◌≡◌};
ghost use Rattle.chart.specs.Timing.{timing};
ghost use Rattle.clock.specs.Marked.{marked_player_question, marked_question};
ghost use Rattle.clock_run.specs.Run.{run_columns};
ghost use Rattle.clock_run.specs.MarkedRun.{MarkedRunLaid};
ghost use Rattle.clock_lent.specs.Reply.{reply_of};

use clock::Cursor;
use clock_lent::Reply;
use clock_walk::Mark;

// At what time is this beat, with the end mark of the timing? Everything is tested, the mark too. After a refusal the cursor is as it was.
#[unsafe(no_mangle)]
pub extern "C" fn marrighentu_lent_time_for_beat_marked(
    cursor: &mut Cursor,
    mark: Mark,
    tempo_beats: &[f32],
    tempo_values: &[f32],
    stop_beats: &[f32],
    stop_values: &[f32],
    delay_beats: &[f32],
    delay_values: &[f32],
    warp_beats: &[f32],
    warp_lengths: &[f32],
    offset: f64,
    global: f64,
    beat: f64,
) -> Reply
    ensures { let t = timing tempo_beats.now tempo_values.now stop_beats.now stop_values.now
        delay_beats.now delay_values.now warp_beats.now warp_lengths.now in
        let answer = marked_question mark t cursor.old offset global beat in
        (result ≡ reply_of answer) × (cursor.new ≡ answer.cursor) }
{
    let answer = (*cursor).time_for_beat_marked(
        mark,
        tempo_beats,
        tempo_values,
        stop_beats,
        stop_values,
        delay_beats,
        delay_values,
        warp_beats,
        warp_lengths,
        offset,
        global,
        beat,
    );
    *cursor = answer.cursor;
    Reply {
        number: answer.number,
        time: answer.time,
        count: answer.count,
    }
}

// The player's question with the end mark of the timing, both taken before: beyond the mark it is answered from the mark.
#[unsafe(no_mangle)]
pub extern "C" fn marrighentu_lent_time_for_beat_checked_marked(
    cursor: &mut Cursor,
    mark: Mark,
    tempo_beats: &[f32],
    tempo_values: &[f32],
    stop_beats: &[f32],
    stop_values: &[f32],
    delay_beats: &[f32],
    delay_values: &[f32],
    warp_beats: &[f32],
    warp_lengths: &[f32],
    offset: f64,
    global: f64,
    beat: f64,
) -> Reply
    ensures { let t = timing tempo_beats.now tempo_values.now stop_beats.now stop_values.now
        delay_beats.now delay_values.now warp_beats.now warp_lengths.now in
        let answer = marked_player_question mark t cursor.old offset global beat in
        (result ≡ reply_of answer) × (cursor.new ≡ answer.cursor) }
{
    let answer = (*cursor).time_for_beat_checked_marked(
        mark,
        tempo_beats,
        tempo_values,
        stop_beats,
        stop_values,
        delay_beats,
        delay_values,
        warp_beats,
        warp_lengths,
        offset,
        global,
        beat,
    );
    *cursor = answer.cursor;
    Reply {
        number: answer.number,
        time: answer.time,
        count: answer.count,
    }
}

// A run from the cursor on, with the end mark of the timing, which is tested once.
#[unsafe(no_mangle)]
pub extern "C" fn marrighentu_lent_run_marked(
    cursor: &mut Cursor,
    mark: Mark,
    tempo_beats: &[f32],
    tempo_values: &[f32],
    stop_beats: &[f32],
    stop_values: &[f32],
    delay_beats: &[f32],
    delay_values: &[f32],
    warp_beats: &[f32],
    warp_lengths: &[f32],
    offset: f64,
    global: f64,
    beats: &[f64],
    numbers: &mut [u32],
    times: &mut [f64],
    counts: &mut [usize],
) -> u32
    ensures { let t = timing tempo_beats.now tempo_values.now stop_beats.now stop_values.now
        delay_beats.now delay_values.now warp_beats.now warp_lengths.now in
        let old = run_columns numbers.old times.old counts.old in
        let new = run_columns numbers.new times.new counts.new in
        MarkedRunLaid mark t offset global cursor.entry.now beats.now (record { cursor = cursor.exit.now; number = result }) old new }
{
    let ran = clock_run::run_marked(
        *cursor,
        mark,
        tempo_beats,
        tempo_values,
        stop_beats,
        stop_values,
        delay_beats,
        delay_values,
        warp_beats,
        warp_lengths,
        offset,
        global,
        beats,
        numbers,
        times,
        counts,
    );
    *cursor = ran.cursor;
    ran.number
}
