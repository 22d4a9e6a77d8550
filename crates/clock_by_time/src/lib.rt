// Which beat is it at this time? There is no cursor: a question walks from the start, and passes what is over by then; a run goes on where time does not fall.
#![tactic(auto)]

ghost use Rattle.std.specs.Prelude.{◌≡◌, ◌+◌, ◌<◌, ◌^◌, length};
ghost use Rattle.chart.specs.Timing.{timing};
ghost use Rattle.clock_by_time.specs.BeatAt.{time_number, fresh_by, beat_on, beat_in, is_freeze, is_delay, info_of, info_at, info_refused, beat_info_checked, beat_info};
ghost use Rattle.clock_by_time.specs.ManyTimes.{info_columns, shortest_of, BeatInfosLaid};
ghost use Rattle.clock_walk.specs.ByTime.{walk_by};
ghost use Rattle.clock_by_time.specs.inside.AllTimes.{RoomFor, AllTimes};
ghost use Rattle.clock_by_time.specs.inside.OnTheWay.{info_from, OnTheWay};

use chart::State;
use clock_walk::{ByTime, Pausing};
use limits::Kind;

// A question's number, the beat, whether it stands in a running stop or delay, and the events passed and one.
#[repr(C)]
#[derive(Clone, Copy)]
pub struct BeatInfo {
    pub number: u32,
    pub beat: f64,
    pub is_in_freeze: bool,
    pub is_in_delay: bool,
    pub count: usize,
}

// A time is taken as the seconds of a pause are.
fn time_number(time: f64) -> u32
    ensures { result ≡ time_number time }
{
    if limits::taken(Kind::Pause, time) {
        return limits::TAKEN;
    }
    limits::BAD_VALUE
}

fn refused(number: u32) -> BeatInfo
    ensures { result ≡ info_refused number }
{
    BeatInfo {
        number: number,
        beat: 0.0,
        is_in_freeze: false,
        is_in_delay: false,
        count: 0,
    }
}

// ---- the answer to a time that is taken

// The walk to a time from the start. Where the timing has no tempo, it has the one of 60 at beat 0.
fn walk_fresh(
    elapsed: f64,
    tempo_beats: &[f32],
    tempo_values: &[f32],
    stop_beats: &[f32],
    stop_values: &[f32],
    delay_beats: &[f32],
    delay_values: &[f32],
    warp_beats: &[f32],
    warp_lengths: &[f32],
    offset: f64,
    global: f64,
) -> ByTime
    ensures is { let t = timing tempo_beats.now tempo_values.now stop_beats.now stop_values.now
        delay_beats.now delay_values.now warp_beats.now warp_lengths.now in
        result ≡ fresh_by t offset global elapsed }
    ensures few { result.passed + 1 < 2 ^ 64 }
{
    let none = tempo_beats.len() == 0;
    let beat_of_none = [0.0f32];
    let tempo_of_none = [60.0f32];
    let beats = clock::either(none, &beat_of_none, tempo_beats);
    let tempos = clock::either(none, &tempo_of_none, tempo_values);
    let start = clock::fresh_state(offset, global);
    let early = clock_walk::early_tempo(start, beats, tempos);
    clock_walk::walk_by(
        start,
        elapsed,
        early,
        beats,
        tempos,
        stop_beats,
        stop_values,
        delay_beats,
        delay_values,
        warp_beats,
        warp_lengths,
    )
}

// The beat where no pause runs, by the last event and the tempo in force.
fn beat_on(elapsed: f64, tempo: f64, state: State) -> f64
    ensures { result ≡ beat_on elapsed tempo state }
{
    let beat = rows::note_row_to_beat(state.row);
    ieee_mul_add::mul_add_f64(elapsed - state.time, tempo / 60.0, beat)
}

fn beat_in(elapsed: f64, at: ByTime, stop_beats: &[f32], delay_beats: &[f32]) -> f64
    ensures { result ≡ beat_in elapsed stop_beats.now delay_beats.now at at.pause }
{
    let state = at.state;
    let pause = at.pause;
    match pause {
        Pausing::InDelay => clock_walk::read_at(delay_beats, state.delays),
        Pausing::InFreeze => clock_walk::read_at(stop_beats, state.stops),
        Pausing::NoPause => beat_on(elapsed, at.tempo, state),
    }
}

fn is_freeze(pause: Pausing) -> bool
    ensures { result ≡ is_freeze pause }
{
    match pause {
        Pausing::InDelay => false,
        Pausing::InFreeze => true,
        Pausing::NoPause => false,
    }
}

fn is_delay(pause: Pausing) -> bool
    ensures { result ≡ is_delay pause }
{
    match pause {
        Pausing::InDelay => true,
        Pausing::InFreeze => false,
        Pausing::NoPause => false,
    }
}

fn info_of(elapsed: f64, at: ByTime, stop_beats: &[f32], delay_beats: &[f32]) -> BeatInfo
    requires { at.passed + 1 < 2 ^ 64 }
    ensures { result ≡ info_of elapsed stop_beats.now delay_beats.now at }
{
    let pause = at.pause;
    let beat = beat_in(elapsed, at, stop_beats, delay_beats);
    let is_in_freeze = is_freeze(pause);
    let is_in_delay = is_delay(pause);
    BeatInfo {
        number: limits::TAKEN,
        beat,
        is_in_freeze,
        is_in_delay,
        count: at.passed + 1,
    }
}

fn info_at(
    tempo_beats: &[f32],
    tempo_values: &[f32],
    stop_beats: &[f32],
    stop_values: &[f32],
    delay_beats: &[f32],
    delay_values: &[f32],
    warp_beats: &[f32],
    warp_lengths: &[f32],
    offset: f64,
    global: f64,
    time: f64,
) -> BeatInfo
    ensures { let t = timing tempo_beats.now tempo_values.now stop_beats.now stop_values.now
        delay_beats.now delay_values.now warp_beats.now warp_lengths.now in
        result ≡ info_at t offset global time }
{
    let elapsed = time + global;
    let at = walk_fresh(
        elapsed,
        tempo_beats,
        tempo_values,
        stop_beats,
        stop_values,
        delay_beats,
        delay_values,
        warp_beats,
        warp_lengths,
        offset,
        global,
    );
    info_of(elapsed, at, stop_beats, delay_beats)
}

// ---- the questions

// For a timing that `clock_tests::check_timing` took and that has not changed since: only the time is tested, with 4 for one that is not finite or beyond 2^50
// in size. Over a timing that would be refused it answers what the walk's definition says.
pub fn get_beat_info_from_time_checked(
    tempo_beats: &[f32],
    tempo_values: &[f32],
    stop_beats: &[f32],
    stop_values: &[f32],
    delay_beats: &[f32],
    delay_values: &[f32],
    warp_beats: &[f32],
    warp_lengths: &[f32],
    offset: f64,
    global: f64,
    time: f64,
) -> BeatInfo
    ensures { let t = timing tempo_beats.now tempo_values.now stop_beats.now stop_values.now
        delay_beats.now delay_values.now warp_beats.now warp_lengths.now in
        result ≡ beat_info_checked t offset global time }
{
    let number = time_number(time);
    if number != limits::TAKEN {
        return refused(number);
    }
    info_at(
        tempo_beats,
        tempo_values,
        stop_beats,
        stop_values,
        delay_beats,
        delay_values,
        warp_beats,
        warp_lengths,
        offset,
        global,
        time,
    )
}

// Which beat is it at this time? Everything is tested: the timing and its offsets as the clock tests them, and the time. In a running delay or stop the beat is the
// entry's own; a refusal has beat 0, no marks and count 0.
pub fn get_beat_info_from_time(
    tempo_beats: &[f32],
    tempo_values: &[f32],
    stop_beats: &[f32],
    stop_values: &[f32],
    delay_beats: &[f32],
    delay_values: &[f32],
    warp_beats: &[f32],
    warp_lengths: &[f32],
    offset: f64,
    global: f64,
    time: f64,
) -> BeatInfo
    ensures { let t = timing tempo_beats.now tempo_values.now stop_beats.now stop_values.now
        delay_beats.now delay_values.now warp_beats.now warp_lengths.now in
        result ≡ beat_info t offset global time }
{
    let timing = clock_tests::check_timing(
        tempo_beats,
        tempo_values,
        stop_beats,
        stop_values,
        delay_beats,
        delay_values,
        warp_beats,
        warp_lengths,
        offset,
        global,
    );
    let asked = time_number(time);
    let number = limits::lower_of(timing, asked);
    if number != limits::TAKEN {
        return refused(number);
    }
    info_at(
        tempo_beats,
        tempo_values,
        stop_beats,
        stop_values,
        delay_beats,
        delay_values,
        warp_beats,
        warp_lengths,
        offset,
        global,
        time,
    )
}

// ---- many times

fn room_of(numbers: usize, beats: usize, freezes: usize, delays: usize, counts: usize) -> usize
    ensures { result ≡ shortest_of numbers beats freezes delays counts }
{
    let marks = columns::room_of(freezes, columns::room_of(delays, counts));
    columns::room_of(numbers, columns::room_of(beats, marks))
}

// How far a run has come: the state and the events passed by its last time that was taken.
#[derive(Clone, Copy)]
struct Reached {
    state: State,
    passed: usize,
    elapsed: f64,
}

// An answer of a run, and how far it came.
#[derive(Clone, Copy)]
struct Step {
    info: BeatInfo,
    reached: Reached,
}

// The walk to a time goes on from where the last one stopped, and begins anew where time falls.
fn walk_on(
    reached: Reached,
    start: State,
    early: f64,
    elapsed: f64,
    tempo_beats: &[f32],
    tempo_values: &[f32],
    stop_beats: &[f32],
    stop_values: &[f32],
    delay_beats: &[f32],
    delay_values: &[f32],
    warp_beats: &[f32],
    warp_lengths: &[f32],
) -> ByTime
    requires { let t = timing tempo_beats.now tempo_values.now stop_beats.now stop_values.now
        delay_beats.now delay_values.now warp_beats.now warp_lengths.now in
        OnTheWay early t start reached }
    ensures { let t = timing tempo_beats.now tempo_values.now stop_beats.now stop_values.now
        delay_beats.now delay_values.now warp_beats.now warp_lengths.now in
        result ≡ walk_by elapsed early t start }
{
    if reached.elapsed <= elapsed {
        let state = reached.state;
        let at = clock_walk::walk_by(
            state,
            elapsed,
            early,
            tempo_beats,
            tempo_values,
            stop_beats,
            stop_values,
            delay_beats,
            delay_values,
            warp_beats,
            warp_lengths,
        );
        let stopped = at.state;
        let pause = at.pause;
        return ByTime {
            state: stopped,
            passed: reached.passed + at.passed,
            pause,
            tempo: at.tempo,
        };
    }
    clock_walk::walk_by(
        start,
        elapsed,
        early,
        tempo_beats,
        tempo_values,
        stop_beats,
        stop_values,
        delay_beats,
        delay_values,
        warp_beats,
        warp_lengths,
    )
}

fn answer_on(
    reached: Reached,
    start: State,
    early: f64,
    global: f64,
    time: f64,
    tempo_beats: &[f32],
    tempo_values: &[f32],
    stop_beats: &[f32],
    stop_values: &[f32],
    delay_beats: &[f32],
    delay_values: &[f32],
    warp_beats: &[f32],
    warp_lengths: &[f32],
) -> Step
    requires { let t = timing tempo_beats.now tempo_values.now stop_beats.now stop_values.now
        delay_beats.now delay_values.now warp_beats.now warp_lengths.now in
        OnTheWay early t start reached }
    ensures { let t = timing tempo_beats.now tempo_values.now stop_beats.now stop_values.now
        delay_beats.now delay_values.now warp_beats.now warp_lengths.now in
        (result.info ≡ info_from early t start global time) × OnTheWay early t start result.reached }
{
    let number = time_number(time);
    if number != limits::TAKEN {
        let info = refused(number);
        return Step { info, reached };
    }
    let elapsed = time + global;
    let at = walk_on(
        reached,
        start,
        early,
        elapsed,
        tempo_beats,
        tempo_values,
        stop_beats,
        stop_values,
        delay_beats,
        delay_values,
        warp_beats,
        warp_lengths,
    );
    let info = info_of(elapsed, at, stop_beats, delay_beats);
    let state = at.state;
    let reached = Reached {
        state,
        passed: at.passed,
        elapsed,
    };
    Step { info, reached }
}

fn answer_from(
    start: State,
    early: f64,
    global: f64,
    tempo_beats: &[f32],
    tempo_values: &[f32],
    stop_beats: &[f32],
    stop_values: &[f32],
    delay_beats: &[f32],
    delay_values: &[f32],
    warp_beats: &[f32],
    warp_lengths: &[f32],
    times: &[f64],
    numbers: &mut [u32],
    beats: &mut [f64],
    freezes: &mut [u8],
    delays: &mut [u8],
    counts: &mut [usize],
)
    requires { RoomFor (length times.now) (info_columns numbers.old beats.old freezes.old delays.old counts.old) }
    ensures { let t = timing tempo_beats.now tempo_values.now stop_beats.now stop_values.now
        delay_beats.now delay_values.now warp_beats.now warp_lengths.now in
        let old = info_columns numbers.old beats.old freezes.old delays.old counts.old in
        let new = info_columns numbers.new beats.new freezes.new delays.new counts.new in
        AllTimes (info_from early t start global) times.now old new }
{
    let mut reached = Reached {
        state: start,
        passed: 0,
        elapsed: 0.0,
    };
    for (i, &time) in times.iter().enumerate() {
        let step = answer_on(
            reached,
            start,
            early,
            global,
            time,
            tempo_beats,
            tempo_values,
            stop_beats,
            stop_values,
            delay_beats,
            delay_values,
            warp_beats,
            warp_lengths,
        );
        let info = step.info;
        numbers[i] = info.number;
        beats[i] = info.beat;
        freezes[i] = info.is_in_freeze as u8;
        delays[i] = info.is_in_delay as u8;
        counts[i] = info.count;
        reached = step.reached;
    }
}

// Where the timing has no tempo, it has the one of 60 at beat 0.
fn answer_each(
    tempo_beats: &[f32],
    tempo_values: &[f32],
    stop_beats: &[f32],
    stop_values: &[f32],
    delay_beats: &[f32],
    delay_values: &[f32],
    warp_beats: &[f32],
    warp_lengths: &[f32],
    offset: f64,
    global: f64,
    times: &[f64],
    numbers: &mut [u32],
    beats: &mut [f64],
    freezes: &mut [u8],
    delays: &mut [u8],
    counts: &mut [usize],
)
    requires { RoomFor (length times.now) (info_columns numbers.old beats.old freezes.old delays.old counts.old) }
    ensures { let t = timing tempo_beats.now tempo_values.now stop_beats.now stop_values.now
        delay_beats.now delay_values.now warp_beats.now warp_lengths.now in
        let old = info_columns numbers.old beats.old freezes.old delays.old counts.old in
        let new = info_columns numbers.new beats.new freezes.new delays.new counts.new in
        AllTimes (beat_info_checked t offset global) times.now old new }
{
    let none = tempo_beats.len() == 0;
    let beat_of_none = [0.0f32];
    let tempo_of_none = [60.0f32];
    let at = clock::either(none, &beat_of_none, tempo_beats);
    let tempos = clock::either(none, &tempo_of_none, tempo_values);
    let start = clock::fresh_state(offset, global);
    let early = clock_walk::early_tempo(start, at, tempos);
    answer_from(
        start,
        early,
        global,
        at,
        tempos,
        stop_beats,
        stop_values,
        delay_beats,
        delay_values,
        warp_beats,
        warp_lengths,
        times,
        numbers,
        beats,
        freezes,
        delays,
        counts,
    );
}

// For each time what the checked call answers, over the fronts of the five columns; a mark is 1 for yes. A time that is refused has 4, zeros and no marks there, and
// the run is still taken. The timing is tested once: 1 to 5 for the whole run, then 7 where there are more times than the shortest column has room for.
pub fn get_beat_infos_from_times(
    tempo_beats: &[f32],
    tempo_values: &[f32],
    stop_beats: &[f32],
    stop_values: &[f32],
    delay_beats: &[f32],
    delay_values: &[f32],
    warp_beats: &[f32],
    warp_lengths: &[f32],
    offset: f64,
    global: f64,
    times: &[f64],
    numbers: &mut [u32],
    beats: &mut [f64],
    freezes: &mut [u8],
    delays: &mut [u8],
    counts: &mut [usize],
) -> u32
    ensures { let t = timing tempo_beats.now tempo_values.now stop_beats.now stop_values.now
        delay_beats.now delay_values.now warp_beats.now warp_lengths.now in
        let old = info_columns numbers.old beats.old freezes.old delays.old counts.old in
        let new = info_columns numbers.new beats.new freezes.new delays.new counts.new in
        BeatInfosLaid t offset global times.now result old new }
{
    let timing = clock_tests::check_timing(
        tempo_beats,
        tempo_values,
        stop_beats,
        stop_values,
        delay_beats,
        delay_values,
        warp_beats,
        warp_lengths,
        offset,
        global,
    );
    if timing != limits::TAKEN {
        return timing;
    }
    let room = room_of(
        numbers.len(),
        beats.len(),
        freezes.len(),
        delays.len(),
        counts.len(),
    );
    if times.len() > room {
        return limits::NO_ROOM;
    }
    answer_each(
        tempo_beats,
        tempo_values,
        stop_beats,
        stop_values,
        delay_beats,
        delay_values,
        warp_beats,
        warp_lengths,
        offset,
        global,
        times,
        numbers,
        beats,
        freezes,
        delays,
        counts,
    );
    limits::TAKEN
}
