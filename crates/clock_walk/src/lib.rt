// The walk through the events of a timing, up to an asked row.
#![tactic(auto)]

ghost use Rattle.std.specs.Prelude.{Some, ◌≡◌, ◌^◌, ◌<◌, true, false, length, slice_index_or};
ghost use Rattle.std.specs.Float.{nan};
ghost use Rattle.std.specs.Float.Ieee.{lt};
ghost use Rattle.ieee.specs.Constants.{sixty};
ghost use Rattle.chart.specs.Timing.{timing};
ghost use Rattle.clock_walk.specs.Events.{goes_first, goes_before, due_of};
ghost use Rattle.clock_walk.specs.Heads.{heads_of, heads_after, sooner_head, least_head, ahead_of};
ghost use Rattle.clock_walk.specs.Passing.{tempo_at, early_tempo, in_force, time_to, time_at, larger, first_or, last_up_to};
ghost use Rattle.clock_walk.specs.Passing.{after_warp_end, after_tempo, after_delay, after_stop, after_warp, brings, event_passed};
ghost use Rattle.clock_walk.specs.inside.CanMove.{CanMove};
ghost use Rattle.clock_walk.specs.Quiet.{row_at, end_row, not_before, is_later, is_next_later, only_tempos};
ghost use Rattle.clock_walk.specs.Soon.{quiet_at, tempo_passed, row_after, soon_of};
ghost use Rattle.clock_walk.specs.declared.Event.TheVariants.{Tempo};
ghost use Rattle.clock_walk.specs.Walk.{walk};
ghost use Rattle.clock_walk.specs.EndMark.{greater_row, end_mark};
ghost use Rattle.clock_walk.specs.ByTime.{still_runs, pause_of, walk_by};

use chart::State;

// What a walk passes, in the order in which events of one row come; the asked beat comes between a delay and a stop.
#[derive(Clone, Copy)]
pub enum Event {
    WarpEnd,
    Tempo,
    Delay,
    Stop,
    Warp,
}

// An event, and the row that it is on.
#[derive(Clone, Copy)]
pub struct Next {
    pub row: i32,
    pub kind: Event,
}

// ---- what is ahead

// The row of an entry, and the greatest i32 behind the end of the list.
pub fn row_at(beats: &[f32], place: usize) -> i32
    ensures { result ≡ row_at beats.now place }
{
    if place < beats.len() {
        return rows::beat_to_note_row(std::num::f32_to_f64_with_nan(beats[place]));
    }
    2147483647
}

// The row where the warp ends, and the greatest i32 where none is open.
pub fn end_row(warping: bool, end: f64) -> i32
    ensures { result ≡ end_row warping end }
{
    if warping {
        return rows::beat_to_note_row(end);
    }
    2147483647
}

// The rows of what is ahead of a state: kept between the events of a walk, of which each moves one or two.
#[derive(Clone, Copy)]
pub struct Heads {
    pub end: i32,
    pub tempo: i32,
    pub delay: i32,
    pub stop: i32,
    pub warp: i32,
}

pub fn heads_of(
    state: State,
    tempo_beats: &[f32],
    stop_beats: &[f32],
    delay_beats: &[f32],
    warp_beats: &[f32],
) -> Heads
    ensures { result ≡ heads_of tempo_beats.now stop_beats.now delay_beats.now warp_beats.now state }
{
    let end = end_row(state.warping, state.end);
    let tempo = row_at(tempo_beats, state.tempos);
    let delay = row_at(delay_beats, state.delays);
    let stop = row_at(stop_beats, state.stops);
    let warp = row_at(warp_beats, state.warps);
    Heads {
        end,
        tempo,
        delay,
        stop,
        warp,
    }
}

// The heads after an event of a kind, which left the state.
pub fn heads_after(
    heads: Heads,
    kind: Event,
    state: State,
    tempo_beats: &[f32],
    stop_beats: &[f32],
    delay_beats: &[f32],
    warp_beats: &[f32],
) -> Heads
    ensures { result ≡ heads_after tempo_beats.now stop_beats.now delay_beats.now warp_beats.now heads state kind }
{
    match kind {
        Event::WarpEnd => Heads {
            end: 2147483647,
            tempo: heads.tempo,
            delay: heads.delay,
            stop: heads.stop,
            warp: heads.warp,
        },
        Event::Tempo => {
            let tempo = row_at(tempo_beats, state.tempos);
            Heads {
                end: heads.end,
                tempo,
                delay: heads.delay,
                stop: heads.stop,
                warp: heads.warp,
            }
        }
        Event::Delay => {
            let delay = row_at(delay_beats, state.delays);
            Heads {
                end: heads.end,
                tempo: heads.tempo,
                delay,
                stop: heads.stop,
                warp: heads.warp,
            }
        }
        Event::Stop => {
            let stop = row_at(stop_beats, state.stops);
            Heads {
                end: heads.end,
                tempo: heads.tempo,
                delay: heads.delay,
                stop,
                warp: heads.warp,
            }
        }
        Event::Warp => {
            let end = rows::beat_to_note_row(state.end);
            let warp = row_at(warp_beats, state.warps);
            Heads {
                end,
                tempo: heads.tempo,
                delay: heads.delay,
                stop: heads.stop,
                warp,
            }
        }
    }
}

// ---- the two searches

// Only an earlier row takes the place of what was found so far.
fn earlier(best: Next, row: i32, kind: Event) -> Next
    ensures { result ≡ sooner_head best row kind }
{
    let found = best.row;
    if row < found {
        return Next { row, kind };
    }
    best
}

// The least row, and on one row what comes first. Where there is none the greatest i32, as a warp's, which goes before no beat.
fn least_head(heads: Heads) -> Next
    ensures { result ≡ least_head heads }
{
    let none = Next {
        row: 2147483647,
        kind: Event::Warp,
    };
    let end = earlier(none, heads.end, Event::WarpEnd);
    let tempo = earlier(end, heads.tempo, Event::Tempo);
    let delay = earlier(tempo, heads.delay, Event::Delay);
    let stop = earlier(delay, heads.stop, Event::Stop);
    earlier(stop, heads.warp, Event::Warp)
}

// What is ahead where no beat is asked.
pub fn find_ahead(heads: Heads) -> Option<Next>
    ensures { result ≡ ahead_of heads }
{
    let next = least_head(heads);
    (next.row < 2147483647).then_some(next)
}

fn goes_first(kind: Event) -> bool
    ensures { result ≡ goes_first kind }
{
    match kind {
        Event::WarpEnd => true,
        Event::Tempo => true,
        Event::Delay => true,
        Event::Stop => false,
        Event::Warp => false,
    }
}

// Whether an event goes before an asked beat: it is on a lower row, or on the same one and goes first there.
fn goes_before(next: Next, asked: i32) -> bool
    ensures { result ≡ goes_before asked next }
{
    let row = next.row;
    if row < asked {
        return true;
    }
    if asked < row {
        return false;
    }
    let kind = next.kind;
    goes_first(kind)
}

// True only where a tempo is ahead and alone on its row, as most events of many charts are: no other head is looked at twice.
fn is_tempo_ahead(heads: Heads) -> bool
    ensures { result ≡ true → ahead_of heads ≡ Some (record { row = heads.tempo; kind = Tempo }) }
{
    if heads.tempo < heads.stop {
        if heads.tempo < heads.delay {
            if heads.tempo < heads.warp {
                return heads.tempo < heads.end;
            }
            return false;
        }
        return false;
    }
    false
}

// True only where such a tempo is due.
fn is_tempo_due(heads: Heads, asked: i32) -> bool
    ensures { result ≡ true → due_of asked (ahead_of heads) ≡ Some (record { row = heads.tempo; kind = Tempo }) }
{
    if asked < heads.tempo {
        return false;
    }
    is_tempo_ahead(heads)
}

// What is due: an event that goes before the asked beat, or none, since the beat does.
fn find_due(heads: Heads, asked: i32) -> Option<Next>
    ensures { result ≡ due_of asked (ahead_of heads) }
{
    let next = least_head(heads);
    goes_before(next, asked).then_some(next)
}

// ---- time

// A number of a list, and a NaN beyond its end.
pub fn read_at(values: &[f32], place: usize) -> f64
    ensures { result ≡ slice_index_or values.now place nan }
{
    if place < values.len() {
        return std::num::f32_to_f64_with_nan(values[place]);
    }
    0.0 / 0.0
}

// The first tempo, 60 where there is none.
fn first_tempo(tempo_values: &[f32]) -> f64
    ensures { result ≡ first_or sixty tempo_values.now }
{
    if tempo_values.len() == 0 {
        return 60.0;
    }
    std::num::f32_to_f64_with_nan(tempo_values[0])
}

// The tempo at a beat: of the leading entries at or before it the last, else another.
fn last_up_to(beat: f64, other: f64, tempo_beats: &[f32], tempo_values: &[f32]) -> f64
    ensures { result ≡ last_up_to beat other tempo_beats.now tempo_values.now }
{
    let mut tempo = other;
    for (i, &tempo_beat) in tempo_beats.iter().enumerate() {
        if i >= tempo_values.len() {
            return tempo;
        }
        let at = std::num::f32_to_f64_with_nan(tempo_beat);
        if at <= beat {
            tempo = std::num::f32_to_f64_with_nan(tempo_values[i]);
            continue;
        }
        return tempo;
    }
    tempo
}

fn get_bpm_for_row(row: i32, tempo_beats: &[f32], tempo_values: &[f32]) -> f64
    ensures { result ≡ tempo_at tempo_beats.now tempo_values.now row }
{
    let beat = rows::note_row_to_beat(row);
    let first = first_tempo(tempo_values);
    last_up_to(beat, first, tempo_beats, tempo_values)
}

// The tempo that a walk begins with where none is passed yet.
pub fn early_tempo(state: State, tempo_beats: &[f32], tempo_values: &[f32]) -> f64
    ensures { result ≡ early_tempo tempo_beats.now tempo_values.now state }
{
    let place = state.tempos;
    if place == 0 {
        return get_bpm_for_row(state.row, tempo_beats, tempo_values);
    }
    0.0
}

// The last tempo passed, before any the early one.
pub fn tempo_in_force(early: f64, tempo_values: &[f32], place: usize) -> f64
    ensures { result ≡ in_force early tempo_values.now place }
{
    if place == 0 {
        return early;
    }
    read_at(tempo_values, place - 1)
}

fn time_to(state: State, early: f64, tempo_values: &[f32], row: i32) -> f64
    ensures { result ≡ time_to early tempo_values.now state row }
{
    let warping = state.warping;
    if warping {
        return 0.0;
    }
    let beats = rows::beats_between(state.row, row);
    let tempo = tempo_in_force(early, tempo_values, state.tempos);
    beats / (tempo / 60.0)
}

// The time of a row, worked out beside the state.
pub fn time_at(state: State, row: i32, early: f64, tempo_values: &[f32]) -> f64
    ensures { result ≡ time_at early tempo_values.now state row }
{
    state.time + time_to(state, early, tempo_values, row)
}

// ---- passing an event

fn larger_of(old: f64, new: f64) -> f64
    ensures { result ≡ larger old new }
{
    if old < new {
        return new;
    }
    old
}

fn pass_warp_end(mut state: State, row: i32, time: f64) -> State
    ensures { result ≡ after_warp_end state row time }
{
    state.row = row;
    state.time = time;
    state.warping = false;
    state
}

fn pass_tempo(mut state: State, row: i32, time: f64) -> State
    requires { state.tempos < 2 ^ 63 }
    ensures { result ≡ after_tempo state row time }
{
    state.row = row;
    state.time = time;
    state.tempos = state.tempos + 1;
    state
}

fn pass_delay(mut state: State, row: i32, time: f64, seconds: f64) -> State
    requires { state.delays < 2 ^ 63 }
    ensures { result ≡ after_delay state row time seconds }
{
    state.row = row;
    state.time = time + seconds;
    state.delays = state.delays + 1;
    state
}

fn pass_stop(mut state: State, row: i32, time: f64, seconds: f64) -> State
    requires { state.stops < 2 ^ 63 }
    ensures { result ≡ after_stop state row time seconds }
{
    state.row = row;
    state.time = time + seconds;
    state.stops = state.stops + 1;
    state
}

// The end is the larger of the old one and the warp's own; it is not held at the warp's start.
fn pass_warp(mut state: State, row: i32, time: f64, own: f64) -> State
    requires { state.warps < 2 ^ 63 }
    ensures { result ≡ after_warp state row time own }
{
    let end = larger_of(state.end, own);
    state.row = row;
    state.time = time;
    state.end = end;
    state.warps = state.warps + 1;
    state.warping = true;
    state
}

// The number that the next event of a kind brings: the seconds of a pause, the own end of a warp.
pub fn number_of(
    state: State,
    kind: Event,
    stop_values: &[f32],
    delay_values: &[f32],
    warp_beats: &[f32],
    warp_lengths: &[f32],
) -> f64
    ensures { result ≡ brings stop_values.now delay_values.now warp_beats.now warp_lengths.now state kind }
{
    match kind {
        Event::WarpEnd => 0.0,
        Event::Tempo => 0.0,
        Event::Delay => read_at(delay_values, state.delays),
        Event::Stop => read_at(stop_values, state.stops),
        Event::Warp => read_at(warp_beats, state.warps) + read_at(warp_lengths, state.warps),
    }
}

// Passes one event, which comes at a time and brings a number. Nothing else does.
fn pass_event(state: State, next: Next, time: f64, number: f64) -> State
    requires { CanMove state next.kind }
    ensures { result ≡ event_passed state next time number }
{
    let row = next.row;
    let kind = next.kind;
    match kind {
        Event::WarpEnd => pass_warp_end(state, row, time),
        Event::Tempo => pass_tempo(state, row, time),
        Event::Delay => pass_delay(state, row, time, number),
        Event::Stop => pass_stop(state, row, time, number),
        Event::Warp => pass_warp(state, row, time, number),
    }
}

// ---- the walk

// The state after the last event passed, how many were passed, and the time of the asked beat.
#[derive(Clone, Copy)]
pub struct Walked {
    pub state: State,
    pub passed: usize,
    pub time: f64,
}

// ---- walks that pass nothing, or one tempo

// True only where the entry at a place is on a later row, or the list ends there. Of rows that are allowed and from 0 on: the entry is held against the beat of
// the row after it, which is quicker than the entry's row, and may say no of that row itself.
fn is_later(beats: &[f32], place: usize, asked: i32) -> bool
    ensures { result ≡ is_later beats.now place asked }
{
    if asked < 0 {
        return false;
    }
    if 3145727 < asked {
        return false;
    }
    let beat = rows::note_row_to_beat(asked + 1);
    not_before(beats, place, beat)
}

// True where the entry at the place is not before the beat and not above the limit, so that it is allowed where the beat is, and at the end of the list. So a
// yes also says that the place is within the list.
fn not_before(beats: &[f32], place: usize, beat: f64) -> bool
    ensures { result ≡ not_before beats.now place beat }
{
    if place < beats.len() {
        let head = beats[place];
        if head <= 65536.0 {
            return beat <= (head as f64);
        }
        return false;
    }
    place == beats.len()
}

// Whether an entry is at a place, and the one after it is later.
fn is_next_later(beats: &[f32], place: usize, asked: i32) -> bool
    ensures { result ≡ is_next_later beats.now place asked }
{
    if place < beats.len() {
        return is_later(beats, place + 1, asked);
    }
    false
}

// Whether by the row no event but a tempo is due, each list held against it in the same way, the row tested once for all; a yes says too that the places in
// these lists are within them.
pub fn is_only_tempos(
    state: State,
    asked: i32,
    stop_beats: &[f32],
    delay_beats: &[f32],
    warp_beats: &[f32],
) -> bool
    ensures { result ≡ only_tempos stop_beats.now delay_beats.now warp_beats.now state asked }
{
    if asked < 0 {
        return false;
    }
    if 3145727 < asked {
        return false;
    }
    let beat = rows::note_row_to_beat(asked + 1);
    if asked < end_row(state.warping, state.end) {
        if not_before(stop_beats, state.stops, beat) {
            if not_before(delay_beats, state.delays, beat) {
                return not_before(warp_beats, state.warps, beat);
            }
            return false;
        }
        return false;
    }
    false
}

// The row of the entry after the one at a place, and the greatest i32 where there is none.
pub fn row_after(beats: &[f32], place: usize) -> i32
    ensures { result ≡ row_after beats.now place }
{
    if place < beats.len() {
        return row_at(beats, place + 1);
    }
    2147483647
}

// The state after the tempo that is next, on its row, where one was passed before it; the state as it is where none is left.
pub fn pass_next_tempo(state: State, row: i32, tempo_beats: &[f32], tempo_values: &[f32]) -> State
    ensures { result ≡ tempo_passed tempo_beats.now tempo_values.now state row }
{
    if state.tempos < tempo_beats.len() {
        let next = Next {
            row,
            kind: Event::Tempo,
        };
        let time = time_at(state, row, 0.0, tempo_values);
        return pass_event(state, next, time, 0.0);
    }
    state
}

// A walk that passes nothing or its first tempo: the state, how many were passed, and whether that is the whole walk; where it is not, nothing is passed.
#[derive(Clone, Copy)]
pub struct Soon {
    pub state: State,
    pub passed: usize,
    pub whole: bool,
}

// A walk to an asked row by which nothing but tempos is due, as far as its first tempo, where a tempo was passed before; where it would go on, it is not begun.
pub fn walk_soon(state: State, asked: i32, tempo_beats: &[f32], tempo_values: &[f32]) -> Soon
    ensures { result ≡ soon_of tempo_beats.now tempo_values.now state asked }
{
    if is_later(tempo_beats, state.tempos, asked) {
        return Soon {
            state,
            passed: 0,
            whole: true,
        };
    }
    let first = row_at(tempo_beats, state.tempos);
    if asked < first {
        return Soon {
            state,
            passed: 0,
            whole: true,
        };
    }
    if is_next_later(tempo_beats, state.tempos, asked) {
        let moved = pass_next_tempo(state, first, tempo_beats, tempo_values);
        return Soon {
            state: moved,
            passed: 1,
            whole: true,
        };
    }
    Soon {
        state,
        passed: 0,
        whole: false,
    }
}

// The time of a row by which no event is due, where a tempo was passed.
pub fn quiet_time(state: State, asked: i32, tempo_values: &[f32]) -> f64
    ensures { result ≡ quiet_at tempo_values.now state asked }
{
    time_at(state, asked, 0.0, tempo_values)
}

// ---- the whole walk

// From a state on, every event before the asked beat. A tempo, which most events of many charts are, is passed by a branch of its own: it brings no number and
// moves one head.
pub fn walk_to(
    start: State,
    asked: i32,
    tempo_beats: &[f32],
    tempo_values: &[f32],
    stop_beats: &[f32],
    stop_values: &[f32],
    delay_beats: &[f32],
    delay_values: &[f32],
    warp_beats: &[f32],
    warp_lengths: &[f32],
) -> Walked
    ensures { let t = timing tempo_beats.now tempo_values.now stop_beats.now stop_values.now
        delay_beats.now delay_values.now warp_beats.now warp_lengths.now in
        result ≡ walk t asked start }
{
    let early = early_tempo(start, tempo_beats, tempo_values);
    let mut state = start;
    let mut heads = heads_of(start, tempo_beats, stop_beats, delay_beats, warp_beats);
    let mut passed: usize = 0;
    loop {
        if is_tempo_due(heads, asked) {
            let tempo = Next {
                row: heads.tempo,
                kind: Event::Tempo,
            };
            let time = time_at(state, heads.tempo, early, tempo_values);
            state = pass_event(state, tempo, time, 0.0);
            heads.tempo = row_at(tempo_beats, state.tempos);
            passed = passed + 1;
            continue;
        }
        let found = find_due(heads, asked);
        let Some(next) = found else {
            let time = time_at(state, asked, early, tempo_values);
            return Walked {
                state,
                passed,
                time,
            };
        };
        let kind = next.kind;
        let number = number_of(
            state,
            kind,
            stop_values,
            delay_values,
            warp_beats,
            warp_lengths,
        );
        let time = time_at(state, next.row, early, tempo_values);
        state = pass_event(state, next, time, number);
        heads = heads_after(
            heads,
            kind,
            state,
            tempo_beats,
            stop_beats,
            delay_beats,
            warp_beats,
        );
        passed = passed + 1;
    }
}

// ---- the walk with no asked beat

// The end mark of a timing: the state after all events that can be reached, and the greatest row among those events.
#[repr(C)]
#[derive(Clone, Copy)]
pub struct Mark {
    pub state: State,
    pub row: i32,
}

fn greater_of(one: i32, other: i32) -> i32
    ensures { result ≡ greater_row one other }
{
    if one < other {
        return other;
    }
    one
}

// From a state on, every event, until none is found.
pub fn walk_all(
    start: State,
    tempo_beats: &[f32],
    tempo_values: &[f32],
    stop_beats: &[f32],
    stop_values: &[f32],
    delay_beats: &[f32],
    delay_values: &[f32],
    warp_beats: &[f32],
    warp_lengths: &[f32],
) -> Mark
    ensures { let t = timing tempo_beats.now tempo_values.now stop_beats.now stop_values.now
        delay_beats.now delay_values.now warp_beats.now warp_lengths.now in
        result ≡ end_mark t start }
{
    let early = early_tempo(start, tempo_beats, tempo_values);
    let mut state = start;
    let mut heads = heads_of(start, tempo_beats, stop_beats, delay_beats, warp_beats);
    let mut greatest = start.row;
    loop {
        let found = find_ahead(heads);
        let Some(next) = found else {
            return Mark {
                state,
                row: greatest,
            };
        };
        let kind = next.kind;
        let number = number_of(
            state,
            kind,
            stop_values,
            delay_values,
            warp_beats,
            warp_lengths,
        );
        let time = time_at(state, next.row, early, tempo_values);
        state = pass_event(state, next, time, number);
        heads = heads_after(
            heads,
            kind,
            state,
            tempo_beats,
            stop_beats,
            delay_beats,
            warp_beats,
        );
        greatest = greater_of(greatest, next.row);
    }
}

// ---- the walk to a time

// The pause that a walk stopped in.
#[derive(Clone, Copy)]
pub enum Pausing {
    InDelay,
    InFreeze,
    NoPause,
}

// The state after the last event passed, how many were passed, the pause that runs there and the tempo in force.
#[derive(Clone, Copy)]
pub struct ByTime {
    pub state: State,
    pub passed: usize,
    pub pause: Pausing,
    pub tempo: f64,
}

// Whether an event that came at a time and brings a number is a pause that is not over.
fn still_runs(elapsed: f64, time: f64, number: f64, kind: Event) -> bool
    ensures { result ≡ still_runs elapsed time number kind }
{
    match kind {
        Event::WarpEnd => false,
        Event::Tempo => false,
        Event::Delay => elapsed < time + number,
        Event::Stop => elapsed < time + number,
        Event::Warp => false,
    }
}

fn pause_of(kind: Event) -> Pausing
    ensures { result ≡ pause_of kind }
{
    match kind {
        Event::WarpEnd => Pausing::NoPause,
        Event::Tempo => Pausing::NoPause,
        Event::Delay => Pausing::InDelay,
        Event::Stop => Pausing::InFreeze,
        Event::Warp => Pausing::NoPause,
    }
}

// True only where a tempo is ahead, alone on its row, and has come by a time.
fn is_tempo_over(state: State, heads: Heads, elapsed: f64, early: f64, tempo_values: &[f32]) -> bool
    ensures { let next = Some (record { row = heads.tempo; kind = Tempo }) in
        (result ≡ true → (ahead_of heads ≡ next) × (lt elapsed (time_at early tempo_values.now state heads.tempo) ≡ false)) }
{
    if is_tempo_ahead(heads) {
        let later = elapsed < time_at(state, heads.tempo, early, tempo_values);
        return !later;
    }
    false
}

// From a state on, every event that is over by a time; early is the tempo before any is passed. Tempos have a branch of their own, as in `walk_to`.
pub fn walk_by(
    start: State,
    elapsed: f64,
    early: f64,
    tempo_beats: &[f32],
    tempo_values: &[f32],
    stop_beats: &[f32],
    stop_values: &[f32],
    delay_beats: &[f32],
    delay_values: &[f32],
    warp_beats: &[f32],
    warp_lengths: &[f32],
) -> ByTime
    ensures { let t = timing tempo_beats.now tempo_values.now stop_beats.now stop_values.now
        delay_beats.now delay_values.now warp_beats.now warp_lengths.now in
        result ≡ walk_by elapsed early t start }
{
    let mut state = start;
    let mut heads = heads_of(start, tempo_beats, stop_beats, delay_beats, warp_beats);
    let mut passed: usize = 0;
    loop {
        if is_tempo_over(state, heads, elapsed, early, tempo_values) {
            let tempo = Next {
                row: heads.tempo,
                kind: Event::Tempo,
            };
            let time = time_at(state, heads.tempo, early, tempo_values);
            state = pass_event(state, tempo, time, 0.0);
            heads.tempo = row_at(tempo_beats, state.tempos);
            passed = passed + 1;
            continue;
        }
        let found = find_ahead(heads);
        let Some(next) = found else {
            let tempo = tempo_in_force(early, tempo_values, state.tempos);
            return ByTime {
                state,
                passed,
                pause: Pausing::NoPause,
                tempo,
            };
        };
        let time = time_at(state, next.row, early, tempo_values);
        if elapsed < time {
            let tempo = tempo_in_force(early, tempo_values, state.tempos);
            return ByTime {
                state,
                passed,
                pause: Pausing::NoPause,
                tempo,
            };
        }
        let kind = next.kind;
        let number = number_of(
            state,
            kind,
            stop_values,
            delay_values,
            warp_beats,
            warp_lengths,
        );
        if still_runs(elapsed, time, number, kind) {
            let tempo = tempo_in_force(early, tempo_values, state.tempos);
            let pause = pause_of(kind);
            return ByTime {
                state,
                passed,
                pause,
                tempo,
            };
        }
        state = pass_event(state, next, time, number);
        heads = heads_after(
            heads,
            kind,
            state,
            tempo_beats,
            stop_beats,
            delay_beats,
            warp_beats,
        );
        passed = passed + 1;
    }
}
