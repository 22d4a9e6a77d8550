// SM timing as a state machine. The arrows are calls on values: each takes a state and gives the next one with what it writes.
#![tactic(auto)]

ghost use Rattle.std.specs.Prelude.{◌≡◌};
ghost use Rattle.process_sm_machine.specs.Machine.{fits, entry_at, warp_over, tempo_after, still, open_chart, owed_at, keep_warp, close_by_time, pass_in_warp, pass};
ghost use Rattle.process_sm_machine.specs.Machine.{tempo_outside, meet_tempo, stop_outside, close_by_stop, begin_again, stop_in_warp, meet_stop, beat_at, meet};
ghost use Rattle.process_sm_machine.specs.Machine.{warp_end_of, finish_warp, finish};

// A change, or what is written: a beat and a value.
#[derive(Clone, Copy)]
pub struct Entry {
    pub beat: f32,
    pub value: f32,
}

// What a chart has on a beat.
#[derive(Clone, Copy)]
pub enum Change {
    Tempo(Entry),
    Stop(Entry),
}

// A warp that is open: where it began, the tempo before it, the time owed.
#[derive(Clone, Copy)]
pub struct Opened {
    pub start: f32,
    pub former: f32,
    pub owed: f32,
}

// No warp is open, or one is: the two states of the diagram, by whose names its arrows are told.
#[derive(Clone, Copy)]
pub enum Warp {
    Closed,
    Open(Opened),
}

// The tempo in force, the beat reached, the warp.
#[derive(Clone, Copy)]
pub struct State {
    pub tempo: f32,
    pub beat: f32,
    pub warp: Warp,
}

// What an arrow leads to, and what it writes into each list.
#[derive(Clone, Copy)]
pub struct Moved {
    pub state: State,
    pub tempo: Option<Entry>,
    pub stop: Option<Entry>,
    pub warp: Option<Entry>,
}

// Whether a tempo is above 0 and not above 9,999,999.
pub fn fits(tempo: f32) -> bool
    ensures { result ≡ fits tempo }
{
    if tempo > 0.0 {
        return tempo <= 9999999.0;
    }
    false
}

// ---- what is written

fn entry_at(beat: f32, value: f32) -> Option<Entry>
    ensures { result ≡ entry_at beat value }
{
    let on_row = rows::quantize_beat_f32(beat);
    Some(Entry {
        beat: on_row,
        value,
    })
}

// A warp, where it goes forward.
fn warp_over(start: f32, end: f32) -> Option<Entry>
    ensures { result ≡ warp_over start end }
{
    if end > start {
        let length = rows::quantize_beat_f32(end - start);
        return entry_at(start, length);
    }
    None
}

// The tempo after a warp, where it isn't the one before it.
fn tempo_after(warp: Opened, tempo: f32) -> Option<Entry>
    ensures { result ≡ tempo_after warp tempo }
{
    let former = warp.former;
    if tempo == former {
        return None;
    }
    entry_at(warp.start, tempo)
}

// Nothing is written.
fn still(state: State) -> Moved
    ensures { result ≡ still state }
{
    Moved {
        state,
        tempo: None,
        stop: None,
        warp: None,
    }
}

// ---- the opening

// The state at beat 0, in no warp; the tempo is written where it fits.
pub fn open_chart(tempo: f32) -> Moved
    ensures { result ≡ open_chart tempo }
{
    let state = State {
        tempo,
        beat: 0.0,
        warp: Warp::Closed,
    };
    let written = fits(tempo);
    if written {
        let wrote_tempo = entry_at(0.0, tempo);
        return Moved {
            state,
            tempo: wrote_tempo,
            stop: None,
            warp: None,
        };
    }
    still(state)
}

// ---- time passes

fn owed_at(tempo: f32, last: f32, owed: f32, beat: f32) -> f32
    ensures { result ≡ owed_at tempo last owed beat }
{
    if tempo <= 9999999.0 {
        return owed + (beat - last) * 60.0 / tempo;
    }
    owed
}

fn keep_warp(tempo: f32, beat: f32, warp: Opened, owed: f32) -> Moved
    ensures { result ≡ keep_warp tempo beat warp owed }
{
    let kept = Opened {
        start: warp.start,
        former: warp.former,
        owed,
    };
    still(State {
        tempo,
        beat,
        warp: Warp::Open(kept),
    })
}

fn close_by_time(tempo: f32, beat: f32, warp: Opened, owed: f32) -> Moved
    ensures { result ≡ close_by_time tempo beat warp owed }
{
    let end = beat - owed * tempo / 60.0;
    let wrote_warp = warp_over(warp.start, end);
    let wrote_tempo = tempo_after(warp, tempo);
    Moved {
        state: State {
            tempo,
            beat,
            warp: Warp::Closed,
        },
        tempo: wrote_tempo,
        stop: None,
        warp: wrote_warp,
    }
}

fn pass_in_warp(tempo: f32, last: f32, warp: Opened, beat: f32) -> Moved
    ensures { result ≡ pass_in_warp tempo last warp beat }
{
    let owed = owed_at(tempo, last, warp.owed, beat);
    let fit = fits(tempo);
    if fit {
        if owed > 0.0 {
            return close_by_time(tempo, beat, warp, owed);
        }
        return keep_warp(tempo, beat, warp, owed);
    }
    keep_warp(tempo, beat, warp, owed)
}

// Time passes up to a beat, which may end the warp.
pub fn pass(state: State, beat: f32) -> Moved
    ensures { result ≡ pass state beat }
{
    let warp = state.warp;
    match warp {
        Warp::Closed => still(State {
            tempo: state.tempo,
            beat,
            warp: Warp::Closed,
        }),
        Warp::Open(opened) => pass_in_warp(state.tempo, state.beat, opened, beat),
    }
}

// ---- a tempo is met

fn tempo_outside(former: f32, beat: f32, tempo: f32) -> Moved
    ensures { result ≡ tempo_outside former beat tempo }
{
    let fit = fits(tempo);
    if fit {
        let wrote_tempo = entry_at(beat, tempo);
        return Moved {
            state: State {
                tempo,
                beat,
                warp: Warp::Closed,
            },
            tempo: wrote_tempo,
            stop: None,
            warp: None,
        };
    }
    let opened = Opened {
        start: beat,
        former,
        owed: 0.0,
    };
    still(State {
        tempo,
        beat,
        warp: Warp::Open(opened),
    })
}

fn meet_tempo(state: State, tempo: f32) -> Moved
    ensures { result ≡ meet_tempo state tempo }
{
    let warp = state.warp;
    match warp {
        Warp::Closed => tempo_outside(state.tempo, state.beat, tempo),
        Warp::Open(opened) => still(State {
            tempo,
            beat: state.beat,
            warp: Warp::Open(opened),
        }),
    }
}

// ---- a stop is met

fn stop_outside(tempo: f32, beat: f32, length: f32) -> Moved
    ensures { result ≡ stop_outside tempo beat length }
{
    if length < 0.0 {
        let opened = Opened {
            start: beat,
            former: tempo,
            owed: length,
        };
        return still(State {
            tempo,
            beat,
            warp: Warp::Open(opened),
        });
    }
    let wrote_stop = entry_at(beat, length);
    Moved {
        state: State {
            tempo,
            beat,
            warp: Warp::Closed,
        },
        tempo: None,
        stop: wrote_stop,
        warp: None,
    }
}

fn close_by_stop(tempo: f32, beat: f32, warp: Opened, owed: f32) -> Moved
    ensures { result ≡ close_by_stop tempo beat warp owed }
{
    let wrote_stop = entry_at(beat, owed);
    let wrote_warp = warp_over(warp.start, beat);
    let wrote_tempo = tempo_after(warp, tempo);
    Moved {
        state: State {
            tempo,
            beat,
            warp: Warp::Closed,
        },
        tempo: wrote_tempo,
        stop: wrote_stop,
        warp: wrote_warp,
    }
}

fn begin_again(tempo: f32, beat: f32, warp: Opened, owed: f32) -> Moved
    ensures { result ≡ begin_again tempo beat warp owed }
{
    let wrote_stop = entry_at(beat, owed);
    let wrote_warp = warp_over(warp.start, beat);
    let opened = Opened {
        start: beat,
        former: warp.former,
        owed: 0.0,
    };
    Moved {
        state: State {
            tempo,
            beat,
            warp: Warp::Open(opened),
        },
        tempo: None,
        stop: wrote_stop,
        warp: wrote_warp,
    }
}

fn stop_in_warp(tempo: f32, beat: f32, warp: Opened, length: f32) -> Moved
    ensures { result ≡ stop_in_warp tempo beat warp length }
{
    let rest = warp.owed + length;
    if length > 0.0 {
        if rest > 0.0 {
            let fit = fits(tempo);
            if fit {
                return close_by_stop(tempo, beat, warp, rest);
            }
            return begin_again(tempo, beat, warp, rest);
        }
        return keep_warp(tempo, beat, warp, rest);
    }
    keep_warp(tempo, beat, warp, rest)
}

fn meet_stop(state: State, length: f32) -> Moved
    ensures { result ≡ meet_stop state length }
{
    let warp = state.warp;
    match warp {
        Warp::Closed => stop_outside(state.tempo, state.beat, length),
        Warp::Open(opened) => stop_in_warp(state.tempo, state.beat, opened, length),
    }
}

// ---- a change

// The beat of a change, a tempo or a stop.
pub fn beat_at(change: Change) -> f32
    ensures { result ≡ beat_at change }
{
    match change {
        Change::Tempo(entry) => entry.beat,
        Change::Stop(entry) => entry.beat,
    }
}

// A change is met, at the beat reached.
pub fn meet(state: State, change: Change) -> Moved
    ensures { result ≡ meet state change }
{
    match change {
        Change::Tempo(entry) => meet_tempo(state, entry.value),
        Change::Stop(entry) => meet_stop(state, entry.value),
    }
}

// ---- the end

fn end_of(tempo: f32, beat: f32, owed: f32) -> f32
    ensures { result ≡ warp_end_of tempo beat owed }
{
    let fit = fits(tempo);
    if fit {
        return beat - owed * tempo / 60.0;
    }
    99999999.0
}

fn finish_warp(tempo: f32, beat: f32, warp: Opened) -> Moved
    ensures { result ≡ finish_warp tempo beat warp }
{
    let end = end_of(tempo, beat, warp.owed);
    let wrote_warp = warp_over(warp.start, end);
    let wrote_tempo = tempo_after(warp, tempo);
    Moved {
        state: State {
            tempo,
            beat,
            warp: Warp::Closed,
        },
        tempo: wrote_tempo,
        stop: None,
        warp: wrote_warp,
    }
}

// The chart ends, and with it a warp that is open.
pub fn finish(state: State) -> Moved
    ensures { result ≡ finish state }
{
    let warp = state.warp;
    match warp {
        Warp::Closed => still(State {
            tempo: state.tempo,
            beat: state.beat,
            warp: Warp::Closed,
        }),
        Warp::Open(opened) => finish_warp(state.tempo, state.beat, opened),
    }
}
