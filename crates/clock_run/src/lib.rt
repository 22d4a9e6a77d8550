// A run: at what times are these beats? The timing and the cursor are tested once, and each beat is asked by the cursor that the one before it left.
#![tactic(auto)]

ghost use Rattle.std.specs.Prelude.{◌≡◌, ◌≤◌, length};
ghost use Rattle.chart.specs.Timing.{timing};
ghost use Rattle.clock_run.specs.Run.{run_room_number, run_columns, RunLaid, CheckedRunLaid};
ghost use Rattle.clock_run.specs.MarkedRun.{MarkedRunLaid};
ghost use Rattle.clock_run.specs.inside.Asked.{AllAsked};
ghost use Rattle.clock_run.specs.inside.Outlook.{lesser_row, rest_until, look_on, look_ahead, is_beyond, is_before, quiet_time, soon_before};

use chart::State;
use clock::Cursor;
use clock_walk::{Mark, Soon};

// The run's number, and the cursor after its last beat; after a refusal the cursor that was lent.
#[repr(C)]
#[derive(Clone, Copy)]
pub struct Ran {
    pub number: u32,
    pub cursor: Cursor,
}

// 7 where there are more beats than the shortest column has room for.
fn room_number(beats: usize, numbers: usize, times: usize, counts: usize) -> u32
    ensures { result ≡ run_room_number beats numbers times counts }
{
    let room = columns::room_of(numbers, columns::room_of(times, counts));
    if beats <= room {
        return limits::TAKEN;
    }
    limits::NO_ROOM
}

// ---- looking ahead

// The row of the next event, that of the next one which is no tempo, and beats a second, so that a beat before the first is answered without a walk, and
// one before the second past a tempo; not known before any tempo is passed.
#[derive(Clone, Copy)]
struct Outlook {
    known: bool,
    row: i32,
    rest: i32,
    rate: f64,
}

fn least_of(one: i32, other: i32) -> i32
    ensures { result ≡ lesser_row one other }
{
    if one < other {
        return one;
    }
    other
}

fn rest_until(state: State, stop_beats: &[f32], delay_beats: &[f32], warp_beats: &[f32]) -> i32
    ensures { result ≡ rest_until stop_beats.now delay_beats.now warp_beats.now state }
{
    let stop = clock_walk::row_at(stop_beats, state.stops);
    let warp = clock_walk::row_at(warp_beats, state.warps);
    let later = least_of(stop, warp);
    let delay = clock_walk::row_at(delay_beats, state.delays);
    let behind = least_of(delay, later);
    let end = clock_walk::end_row(state.warping, state.end);
    let next = least_of(end, behind);
    least_of(2147483647, next)
}

// What is ahead of a state, the row of the next event that is no tempo being known.
fn look_on(state: State, rest: i32, tempo_beats: &[f32], tempo_values: &[f32]) -> Outlook
    ensures { result ≡ look_on tempo_beats.now tempo_values.now state rest }
{
    let tempos = state.tempos;
    if tempos == 0 {
        return Outlook {
            known: false,
            row: 0,
            rest: 0,
            rate: 0.0,
        };
    }
    let place = tempos - 1;
    if place < tempo_values.len() {
        let rate = std::num::f32_to_f64_with_nan(tempo_values[place]) / 60.0;
        let tempo = clock_walk::row_at(tempo_beats, tempos);
        let row = least_of(tempo, rest);
        return Outlook {
            known: true,
            row: row,
            rest: rest,
            rate: rate,
        };
    }
    Outlook {
        known: false,
        row: 0,
        rest: 0,
        rate: 0.0,
    }
}

fn look_ahead(
    state: State,
    tempo_beats: &[f32],
    tempo_values: &[f32],
    stop_beats: &[f32],
    stop_values: &[f32],
    delay_beats: &[f32],
    delay_values: &[f32],
    warp_beats: &[f32],
    warp_lengths: &[f32],
) -> Outlook
    ensures { let t = timing tempo_beats.now tempo_values.now stop_beats.now stop_values.now
        delay_beats.now delay_values.now warp_beats.now warp_lengths.now in
        result ≡ look_ahead t state }
{
    if tempo_beats.len() == 0 {
        return Outlook {
            known: false,
            row: 0,
            rest: 0,
            rate: 0.0,
        };
    }
    let rest = rest_until(state, stop_beats, delay_beats, warp_beats);
    look_on(state, rest, tempo_beats, tempo_values)
}

// Whether a beat is taken and beyond a mark.
fn is_beyond(mark: i32, beat: f64, row: i32) -> bool
    ensures { result ≡ is_beyond mark beat row }
{
    if mark < row {
        return clock_tests::beat_number(beat) == limits::TAKEN;
    }
    false
}

// Whether a beat is taken, at or behind the row asked last, and before a row that is known.
fn is_before(known: bool, until: i32, last: i32, beat: f64, row: i32) -> bool
    ensures { result ≡ is_before known until last beat row }
{
    if clock_tests::beat_number(beat) == limits::TAKEN {
        if known {
            if row < last {
                return false;
            }
            return row < until;
        }
        return false;
    }
    false
}

fn quiet_time(state: State, rate: f64, row: i32) -> f64
    ensures { result ≡ quiet_time state rate row }
{
    let warping = state.warping;
    if warping {
        return state.time + 0.0;
    }
    let beats = rows::beats_between(state.row, row);
    state.time + beats / rate
}

// A walk that is soon over: passes the next tempo for a beat that is not before it, where there is one with a value and the beat is before all that follows, by the
// rows that are kept. Whole only there, and then what is passed is kept.
fn soon(
    outlook: Outlook,
    at: Cursor,
    beat: f64,
    row: i32,
    tempo_beats: &[f32],
    tempo_values: &[f32],
) -> Soon
    ensures { result ≡ soon_before tempo_beats.now tempo_values.now outlook at beat row }
{
    let state = at.state;
    let next = state.tempos;
    let until = least_of(clock_walk::row_after(tempo_beats, next), outlook.rest);
    if is_before(outlook.known, until, at.asked, beat, row) {
        if next < tempo_beats.len() {
            if next < tempo_values.len() {
                let moved = clock_walk::pass_next_tempo(
                    state,
                    outlook.row,
                    tempo_beats,
                    tempo_values,
                );
                return Soon {
                    state: moved,
                    passed: 1,
                    whole: true,
                };
            }
        }
    }
    Soon {
        state,
        passed: 0,
        whole: false,
    }
}

// ---- the run

// Asks every beat with a mark, and answers the cursor after the last. A beat beyond the mark is answered from it. One before the next event passes none, so that
// its count is 1, and needs no walk; nor does one that passes a tempo and is before what is ahead of that.
fn ask_each(
    cursor: Cursor,
    mark: Mark,
    tempo_beats: &[f32],
    tempo_values: &[f32],
    stop_beats: &[f32],
    stop_values: &[f32],
    delay_beats: &[f32],
    delay_values: &[f32],
    warp_beats: &[f32],
    warp_lengths: &[f32],
    offset: f64,
    global: f64,
    beats: &[f64],
    numbers: &mut [u32],
    times: &mut [f64],
    counts: &mut [usize],
) -> Cursor
    requires { (length beats.now ≤ length numbers.old) × (length beats.now ≤ length times.old) × (length beats.now ≤ length counts.old) }
    ensures { let t = timing tempo_beats.now tempo_values.now stop_beats.now stop_values.now
        delay_beats.now delay_values.now warp_beats.now warp_lengths.now in
        let old = run_columns numbers.old times.old counts.old in
        let new = run_columns numbers.new times.new counts.new in
        AllAsked mark t offset global cursor beats.now result old new }
{
    let beyond = clock::rate_beyond(mark, tempo_beats, tempo_values);
    let mut at = cursor;
    let mut outlook = Outlook {
        known: false,
        row: 0,
        rest: 0,
        rate: 0.0,
    };
    for (i, &beat) in beats.iter().enumerate() {
        let row = rows::beat_to_note_row(beat);
        if is_beyond(mark.row, beat, row) {
            let state = mark.state;
            let time = quiet_time(state, beyond, row) - global;
            numbers[i] = limits::TAKEN;
            times[i] = time;
            counts[i] = 1;
            at = Cursor {
                state: state,
                asked: row,
            };
            outlook.known = false;
            continue;
        }
        if is_before(outlook.known, outlook.row, at.asked, beat, row) {
            let state = at.state;
            let time = quiet_time(state, outlook.rate, row) - global;
            numbers[i] = limits::TAKEN;
            times[i] = time;
            counts[i] = 1;
            at.asked = row;
            continue;
        }
        let near = soon(outlook, at, beat, row, tempo_beats, tempo_values);
        if near.whole {
            let state = near.state;
            let on = look_on(state, outlook.rest, tempo_beats, tempo_values);
            let time = quiet_time(state, on.rate, row) - global;
            numbers[i] = limits::TAKEN;
            times[i] = time;
            counts[i] = near.passed + 1;
            at = Cursor {
                state: state,
                asked: row,
            };
            outlook = on;
            continue;
        }
        let answer = at.ask(
            tempo_beats,
            tempo_values,
            stop_beats,
            stop_values,
            delay_beats,
            delay_values,
            warp_beats,
            warp_lengths,
            offset,
            global,
            beat,
        );
        numbers[i] = answer.number;
        times[i] = answer.time;
        counts[i] = answer.count;
        let next = answer.cursor;
        at = next;
        let state = next.state;
        outlook = look_ahead(
            state,
            tempo_beats,
            tempo_values,
            stop_beats,
            stop_values,
            delay_beats,
            delay_values,
            warp_beats,
            warp_lengths,
        );
    }
    at
}

// For each beat its number, its time and its count, over the fronts of the three columns. A beat that is refused has 3, time 0 and count 0 there, and the
// cursor stays; the run itself is still taken.
pub fn run(
    cursor: Cursor,
    tempo_beats: &[f32],
    tempo_values: &[f32],
    stop_beats: &[f32],
    stop_values: &[f32],
    delay_beats: &[f32],
    delay_values: &[f32],
    warp_beats: &[f32],
    warp_lengths: &[f32],
    offset: f64,
    global: f64,
    beats: &[f64],
    numbers: &mut [u32],
    times: &mut [f64],
    counts: &mut [usize],
) -> Ran
    ensures { let t = timing tempo_beats.now tempo_values.now stop_beats.now stop_values.now
        delay_beats.now delay_values.now warp_beats.now warp_lengths.now in
        let old = run_columns numbers.old times.old counts.old in
        let new = run_columns numbers.new times.new counts.new in
        RunLaid t offset global cursor beats.now result old new }
{
    let timing = clock_tests::check_timing(
        tempo_beats,
        tempo_values,
        stop_beats,
        stop_values,
        delay_beats,
        delay_values,
        warp_beats,
        warp_lengths,
        offset,
        global,
    );
    if timing == limits::TAKEN {
        return run_checked(
            cursor,
            tempo_beats,
            tempo_values,
            stop_beats,
            stop_values,
            delay_beats,
            delay_values,
            warp_beats,
            warp_lengths,
            offset,
            global,
            beats,
            numbers,
            times,
            counts,
        );
    }
    let room = room_number(beats.len(), numbers.len(), times.len(), counts.len());
    let lent = cursor.refusal(tempo_beats, stop_beats, delay_beats, warp_beats);
    let later = limits::lower_of(room, lent);
    Ran {
        number: limits::lower_of(timing, later),
        cursor: cursor,
    }
}

// The same over a timing that `check_timing` took and that has not changed since: only the room and the cursor are tested, so that a long run can be made in pieces,
// each of which goes on with the cursor that the last one left. Over any other timing it still ends, and answers what the walk's definition says.
pub fn run_checked(
    cursor: Cursor,
    tempo_beats: &[f32],
    tempo_values: &[f32],
    stop_beats: &[f32],
    stop_values: &[f32],
    delay_beats: &[f32],
    delay_values: &[f32],
    warp_beats: &[f32],
    warp_lengths: &[f32],
    offset: f64,
    global: f64,
    beats: &[f64],
    numbers: &mut [u32],
    times: &mut [f64],
    counts: &mut [usize],
) -> Ran
    ensures { let t = timing tempo_beats.now tempo_values.now stop_beats.now stop_values.now
        delay_beats.now delay_values.now warp_beats.now warp_lengths.now in
        let old = run_columns numbers.old times.old counts.old in
        let new = run_columns numbers.new times.new counts.new in
        CheckedRunLaid t offset global cursor beats.now result old new }
{
    let room = room_number(beats.len(), numbers.len(), times.len(), counts.len());
    let lent = cursor.refusal(tempo_beats, stop_beats, delay_beats, warp_beats);
    let number = limits::lower_of(room, lent);
    if number == limits::TAKEN {
        let none = clock::no_mark();
        let last = ask_each(
            cursor,
            none,
            tempo_beats,
            tempo_values,
            stop_beats,
            stop_values,
            delay_beats,
            delay_values,
            warp_beats,
            warp_lengths,
            offset,
            global,
            beats,
            numbers,
            times,
            counts,
        );
        return Ran {
            number: limits::TAKEN,
            cursor: last,
        };
    }
    Ran {
        number: number,
        cursor: cursor,
    }
}

// The run with an end mark beside the cursor, which is tested once, after the timing: each beat is asked by the cursor and the mark.
pub fn run_marked(
    cursor: Cursor,
    mark: Mark,
    tempo_beats: &[f32],
    tempo_values: &[f32],
    stop_beats: &[f32],
    stop_values: &[f32],
    delay_beats: &[f32],
    delay_values: &[f32],
    warp_beats: &[f32],
    warp_lengths: &[f32],
    offset: f64,
    global: f64,
    beats: &[f64],
    numbers: &mut [u32],
    times: &mut [f64],
    counts: &mut [usize],
) -> Ran
    ensures { let t = timing tempo_beats.now tempo_values.now stop_beats.now stop_values.now
        delay_beats.now delay_values.now warp_beats.now warp_lengths.now in
        let old = run_columns numbers.old times.old counts.old in
        let new = run_columns numbers.new times.new counts.new in
        MarkedRunLaid mark t offset global cursor beats.now result old new }
{
    let marked = clock::check_marked_timing(
        mark,
        tempo_beats,
        tempo_values,
        stop_beats,
        stop_values,
        delay_beats,
        delay_values,
        warp_beats,
        warp_lengths,
        offset,
        global,
    );
    let room = room_number(beats.len(), numbers.len(), times.len(), counts.len());
    let lent = cursor.refusal(tempo_beats, stop_beats, delay_beats, warp_beats);
    let later = limits::lower_of(room, lent);
    let number = limits::lower_of(marked, later);
    if number == limits::TAKEN {
        let last = ask_each(
            cursor,
            mark,
            tempo_beats,
            tempo_values,
            stop_beats,
            stop_values,
            delay_beats,
            delay_values,
            warp_beats,
            warp_lengths,
            offset,
            global,
            beats,
            numbers,
            times,
            counts,
        );
        return Ran {
            number: limits::TAKEN,
            cursor: last,
        };
    }
    Ran {
        number: number,
        cursor: cursor,
    }
}
