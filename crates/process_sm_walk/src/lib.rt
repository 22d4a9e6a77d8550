// The walk of SM timing over tempos and stops that are in order by beat.
#![tactic(auto)]

ghost use Rattle.std.specs.Prelude.{◌≡◌, ◌+◌, ◌^◌, ◌<◌, ◌≤◌, max, true, false, map, length, drop, ◌==◌, slice_index_or};
ghost use Rattle.std.specs.Float.{nan};
ghost use Rattle.ieee.specs.Constants.{plus_zero32};
ghost use Rattle.limits.specs.Numbers.{every};
ghost use Rattle.order.specs.Entries.{entries, first, second};
ghost use Rattle.process_sm_machine.specs.Machine.{fits, met};
ghost use Rattle.process_sm_walk.specs.inside.NextChange.{head_of, advanced};
ghost use Rattle.process_sm_walk.specs.Changes.{changes_left};
ghost use Rattle.process_sm_walk.specs.Chart.{written_list, written_by, written_at, walk_changes, stops_before, offset_of, tempos_by0, opening_tempo, processed, Chart};
ghost use Rattle.process_sm_walk.specs.inside.Opening.{first_value};
ghost use Rattle.process_raw.specs.LentLists.{lent_three};
ghost use Rattle.process_sm_walk.specs.Columns.{columns, columns_before, columns_after, most_written};
ghost use Rattle.picks.specs.Pick.{pick};
ghost use Rattle.process_sm_walk.specs.Walking.{is_number, room_for_counts, chart_number, walk_number, WalkLaid};
ghost use Rattle.process_sm_walk.specs.inside.Written.{laid_from, written_into, counted, none_counted};
ghost use Rattle.process_sm_walk.specs.inside.Rooms.{Room, WrittenWithin, Reached};
ghost use Rattle.process_sm_walk.specs.inside.NoWarp.{is_pause, NoWarp, rowed};

use process_sm_machine::{Change, Entry, Moved, State, Warp};

// The places of the next tempo and the next stop.
#[derive(Clone, Copy)]
pub struct Places {
    pub tempo: usize,
    pub stop: usize,
}

// How many entries of each list are written.
#[derive(Clone, Copy)]
pub struct Counts {
    pub tempos: usize,
    pub stops: usize,
    pub warps: usize,
}

// The refusal number, 0 where the call is taken; how many entries of each list were written; what beat 0 is moved by.
#[derive(Clone, Copy)]
pub struct Walked {
    pub number: u32,
    pub tempos: usize,
    pub stops: usize,
    pub warps: usize,
    pub offset: f32,
}

// ---- the order of the changes

fn entry_at(beats: &[f32], values: &[f32], at: usize) -> Entry
    requires { (at < length beats.now) × (at < length values.now) }
    ensures { result ≡ record { beat = slice_index_or beats.now at nan; value = slice_index_or values.now at nan } }
{
    Entry {
        beat: beats[at],
        value: values[at],
    }
}

fn next_change(
    tempo_beats: &[f32],
    tempo_values: &[f32],
    stop_beats: &[f32],
    stop_values: &[f32],
    places: Places,
) -> Option<Change>
    requires tempo_beats_len { length tempo_beats.now ≡ length tempo_values.now }
    requires stop_beats_len { length stop_beats.now ≡ length stop_values.now }
    ensures { let tempos = entries tempo_beats.now tempo_values.now in
        let stops = entries stop_beats.now stop_values.now in
        result ≡ head_of (changes_left tempos stops places) }
{
    let tempo_at = places.tempo;
    let stop_at = places.stop;
    if tempo_at < tempo_beats.len() {
        let tempo = entry_at(tempo_beats, tempo_values, tempo_at);
        if stop_at < stop_beats.len() {
            let stop = entry_at(stop_beats, stop_values, stop_at);
            let tempo_beat = tempo.beat;
            let stop_beat = stop.beat;
            if tempo_beat <= stop_beat {
                return Some(Change::Tempo(tempo));
            }
            return Some(Change::Stop(stop));
        }
        return Some(Change::Tempo(tempo));
    }
    if stop_at < stop_beats.len() {
        let stop = entry_at(stop_beats, stop_values, stop_at);
        return Some(Change::Stop(stop));
    }
    None
}

fn advance(places: Places, change: Change) -> Places
    requires { (places.tempo < 2 ^ 63) × (places.stop < 2 ^ 63) }
    ensures { result ≡ advanced places change }
{
    match change {
        Change::Tempo(entry) => Places {
            tempo: places.tempo + 1,
            stop: places.stop,
        },
        Change::Stop(entry) => Places {
            tempo: places.tempo,
            stop: places.stop + 1,
        },
    }
}

// ---- writing

fn put(beats: &mut [f64], values: &mut [f64], at: usize, what: Option<Entry>) -> usize
    requires { (at + length (written_list what) ≤ length beats.old) × (at + length (written_list what) ≤ length values.old) }
    ensures value { result ≡ at + length (written_list what) }
    ensures beats_after { beats.new ≡ laid_from at (map first (written_list what)) beats.old }
    ensures values_after { values.new ≡ laid_from at (map second (written_list what)) values.old }
{
    match what {
        None => at,
        Some(entry) => {
            beats[at] = std::num::f32_to_f64_with_nan(entry.beat);
            values[at] = std::num::f32_to_f64_with_nan(entry.value);
            at + 1
        }
    }
}

fn write(
    tempo_beats: &mut [f64],
    tempo_values: &mut [f64],
    stop_beats: &mut [f64],
    stop_values: &mut [f64],
    warp_beats: &mut [f64],
    warp_lengths: &mut [f64],
    counts: Counts,
    moved: Moved,
) -> Counts
    requires { let rooms = columns tempo_beats.old tempo_values.old stop_beats.old stop_values.old warp_beats.old warp_lengths.old in
        Room (counted counts (written_by moved)) rooms }
    ensures value { result ≡ counted counts (written_by moved) }
    ensures rooms_value { let rooms = lent_three tempo_beats tempo_values stop_beats stop_values warp_beats warp_lengths in
        columns_after rooms ≡ written_into counts (written_by moved) (columns_before rooms) }
{
    let tempo = moved.tempo;
    let stop = moved.stop;
    let warp = moved.warp;
    let tempos = put(tempo_beats, tempo_values, counts.tempos, tempo);
    let stops = put(stop_beats, stop_values, counts.stops, stop);
    let warps = put(warp_beats, warp_lengths, counts.warps, warp);
    Counts {
        tempos,
        stops,
        warps,
    }
}

// ---- a change

// The state, and how many entries of each list are written.
#[derive(Clone, Copy)]
pub struct Standing {
    pub state: State,
    pub counts: Counts,
}

fn take_change(
    tempo_beats: &mut [f64],
    tempo_values: &mut [f64],
    stop_beats: &mut [f64],
    stop_values: &mut [f64],
    warp_beats: &mut [f64],
    warp_lengths: &mut [f64],
    state: State,
    counts: Counts,
    change: Change,
) -> Standing
    requires { let rooms = columns tempo_beats.old tempo_values.old stop_beats.old stop_values.old warp_beats.old warp_lengths.old in
        Room (counted counts (written_at state change)) rooms }
    ensures value { result ≡ record { state = (met state change).state; counts = counted counts (written_at state change) } }
    ensures rooms_value { let rooms = lent_three tempo_beats tempo_values stop_beats stop_values warp_beats warp_lengths in
        columns_after rooms ≡ written_into counts (written_at state change) (columns_before rooms) }
{
    let passing = process_sm_machine::pass(state, process_sm_machine::beat_at(change));
    let midway = write(
        tempo_beats,
        tempo_values,
        stop_beats,
        stop_values,
        warp_beats,
        warp_lengths,
        counts,
        passing,
    );
    let passed = passing.state;
    let meeting = process_sm_machine::meet(passed, change);
    let counted = write(
        tempo_beats,
        tempo_values,
        stop_beats,
        stop_values,
        warp_beats,
        warp_lengths,
        midway,
        meeting,
    );
    let reached = meeting.state;
    Standing {
        state: reached,
        counts: counted,
    }
}

// ---- where no warp opens: each list by itself, in loops that a machine does for several entries at a time

fn both(one: bool, other: bool) -> bool
    ensures { result ≡ pick one other false }
{
    if one { other } else { false }
}

fn all_fit(tempos: &[f32], from: usize) -> bool
    ensures { result ≡ every fits (drop from tempos.now) }
{
    let mut so_far = true;
    for i in from..tempos.len() {
        so_far = both(so_far, process_sm_machine::fits(tempos[i]));
    }
    so_far
}

fn is_pause(length: f32) -> bool
    ensures { result ≡ is_pause length }
{
    !(length < 0.0)
}

fn all_pause(stops: &[f32], from: usize) -> bool
    ensures { result ≡ every is_pause (drop from stops.now) }
{
    let mut so_far = true;
    for i in from..stops.len() {
        so_far = both(so_far, is_pause(stops[i]));
    }
    so_far
}

fn no_warp(tempo_values: &[f32], stop_values: &[f32], first: Places, state: State) -> bool
    ensures { result ≡ true → NoWarp tempo_values.now stop_values.now first state }
{
    let warp = state.warp;
    match warp {
        Warp::Closed => {
            if all_fit(tempo_values, first.tempo) {
                return all_pause(stop_values, first.stop);
            }
            false
        }
        Warp::Open(opened) => false,
    }
}

// The entries from a place on, their beats on their rows, behind those that are written.
fn lay_on_rows(
    beats: &[f32],
    values: &[f32],
    from: usize,
    out_beats: &mut [f64],
    out_values: &mut [f64],
    written: usize,
) -> usize
    requires beats_len { length beats.now ≡ length values.now }
    requires fact { let count = length (rowed beats.now values.now from) in
        (written + count ≤ length out_beats.old) × (written + count ≤ length out_values.old) }
    ensures value { result ≡ written + length (rowed beats.now values.now from) }
    ensures out_beats_after { out_beats.new ≡ laid_from written (map first (rowed beats.now values.now from)) out_beats.old }
    ensures out_values_after { out_values.new ≡ laid_from written (map second (rowed beats.now values.now from)) out_values.old }
{
    let mut count = written;
    for i in from..beats.len() {
        out_beats[count] = std::num::f32_to_f64_with_nan(rows::quantize_beat_f32(beats[i]));
        out_values[count] = std::num::f32_to_f64_with_nan(values[i]);
        count += 1;
    }
    count
}

// ---- the walk from a place and a state on, change by change only where a warp may open

fn walk_on(
    tempo_beats: &[f32],
    tempo_values: &[f32],
    stop_beats: &[f32],
    stop_values: &[f32],
    out_tempo_beats: &mut [f64],
    out_tempo_values: &mut [f64],
    out_stop_beats: &mut [f64],
    out_stop_values: &mut [f64],
    out_warp_beats: &mut [f64],
    out_warp_lengths: &mut [f64],
    first: Places,
    opening: State,
    so_far: Counts,
) -> Counts
    requires chart { Chart tempo_beats.now tempo_values.now stop_beats.now stop_values.now }
    requires reached { Reached (length tempo_beats.now) (length stop_beats.now) first }
    requires written_within { WrittenWithin first opening so_far }
    requires fact { let rooms = columns out_tempo_beats.old out_tempo_values.old
        out_stop_beats.old out_stop_values.old out_warp_beats.old out_warp_lengths.old in
        Room (most_written (length tempo_beats.now) (length stop_beats.now)) rooms }
    ensures result_value { let tempos = entries tempo_beats.now tempo_values.now in
        let stops = entries stop_beats.now stop_values.now in
        result ≡ counted so_far (walk_changes (changes_left tempos stops first) opening) }
    ensures rooms_value { let tempos = entries tempo_beats.now tempo_values.now in
        let stops = entries stop_beats.now stop_values.now in
        let rooms = lent_three out_tempo_beats out_tempo_values out_stop_beats out_stop_values out_warp_beats out_warp_lengths in
        columns_after rooms ≡ written_into so_far (walk_changes (changes_left tempos stops first) opening) (columns_before rooms) }
{
    if no_warp(tempo_values, stop_values, first, opening) {
        let tempos = lay_on_rows(
            tempo_beats,
            tempo_values,
            first.tempo,
            out_tempo_beats,
            out_tempo_values,
            so_far.tempos,
        );
        let stops = lay_on_rows(
            stop_beats,
            stop_values,
            first.stop,
            out_stop_beats,
            out_stop_values,
            so_far.stops,
        );
        return Counts {
            tempos,
            stops,
            warps: so_far.warps,
        };
    }
    let mut places = first;
    let mut state = opening;
    let mut counts = so_far;
    loop {
        let next = next_change(tempo_beats, tempo_values, stop_beats, stop_values, places);
        match next {
            None => {
                let ending = process_sm_machine::finish(state);
                return write(
                    out_tempo_beats,
                    out_tempo_values,
                    out_stop_beats,
                    out_stop_values,
                    out_warp_beats,
                    out_warp_lengths,
                    counts,
                    ending,
                );
            }
            Some(change) => {
                let standing = take_change(
                    out_tempo_beats,
                    out_tempo_values,
                    out_stop_beats,
                    out_stop_values,
                    out_warp_beats,
                    out_warp_lengths,
                    state,
                    counts,
                    change,
                );
                state = standing.state;
                counts = standing.counts;
                places = advance(places, change);
            }
        }
    }
}

// ---- the opening

// The tempo that opens the chart, and the place of the next one.
#[derive(Clone, Copy)]
pub struct Opener {
    pub tempo: f32,
    pub used: usize,
}

fn first_tempo(values: &[f32]) -> f32
    ensures { result ≡ first_value values.now }
{
    if values.len() == 0 {
        return 60.0;
    }
    values[0]
}

fn opener_at(tempo: f32, at: usize) -> Opener
    ensures { result ≡ record { tempo = tempo; used = max at 1 } }
{
    if at == 0 {
        return Opener { tempo, used: 1 };
    }
    Opener { tempo, used: at }
}

fn opening_tempo(beats: &[f32], values: &[f32]) -> Opener
    requires { length beats.now ≡ length values.now }
    ensures { let list = entries beats.now values.now in
        result ≡ record { tempo = opening_tempo list; used = max (tempos_by0 list) 1 } }
{
    let mut tempo = first_tempo(values);
    for (at, &beat) in beats.iter().enumerate() {
        if beat <= 0.0 {
            tempo = values[at];
        } else {
            return opener_at(tempo, at);
        }
    }
    opener_at(tempo, beats.len())
}

// What the stops before 0 take off the offset, and the place of the next stop.
#[derive(Clone, Copy)]
pub struct Early {
    pub offset: f32,
    pub used: usize,
}

fn early_stops(beats: &[f32], values: &[f32]) -> Early
    requires { length beats.now ≡ length values.now }
    ensures { let list = entries beats.now values.now in
        result ≡ record { offset = offset_of list; used = stops_before list } }
{
    let mut offset: f32 = 0.0;
    for (at, &beat) in beats.iter().enumerate() {
        if beat < 0.0 {
            offset = offset - values[at];
        } else {
            return Early { offset, used: at };
        }
    }
    Early {
        offset,
        used: beats.len(),
    }
}

// ---- the whole

// The seconds that beat 0 is moved by, and how many entries of each list were written.
#[derive(Clone, Copy)]
pub struct Finished {
    pub offset: f32,
    pub counts: Counts,
}

fn walk_chart(
    tempo_beats: &[f32],
    tempo_values: &[f32],
    stop_beats: &[f32],
    stop_values: &[f32],
    out_tempo_beats: &mut [f64],
    out_tempo_values: &mut [f64],
    out_stop_beats: &mut [f64],
    out_stop_values: &mut [f64],
    out_warp_beats: &mut [f64],
    out_warp_lengths: &mut [f64],
) -> Finished
    requires chart { Chart tempo_beats.now tempo_values.now stop_beats.now stop_values.now }
    requires fact { let rooms = columns out_tempo_beats.old out_tempo_values.old
        out_stop_beats.old out_stop_values.old out_warp_beats.old out_warp_lengths.old in
        Room (most_written (length tempo_beats.now) (length stop_beats.now)) rooms }
    ensures result_value { let tempos = entries tempo_beats.now tempo_values.now in
        let stops = entries stop_beats.now stop_values.now in
        result ≡ record { offset = offset_of stops; counts = counted none_counted (processed tempos stops) } }
    ensures rooms_value { let tempos = entries tempo_beats.now tempo_values.now in
        let stops = entries stop_beats.now stop_values.now in
        let rooms = lent_three out_tempo_beats out_tempo_values out_stop_beats out_stop_values out_warp_beats out_warp_lengths in
        columns_after rooms ≡ written_into none_counted (processed tempos stops) (columns_before rooms) }
{
    let opener = opening_tempo(tempo_beats, tempo_values);
    let early = early_stops(stop_beats, stop_values);
    let opening = process_sm_machine::open_chart(opener.tempo);
    let none = Counts {
        tempos: 0,
        stops: 0,
        warps: 0,
    };
    let so_far = write(
        out_tempo_beats,
        out_tempo_values,
        out_stop_beats,
        out_stop_values,
        out_warp_beats,
        out_warp_lengths,
        none,
        opening,
    );
    let places = Places {
        tempo: opener.used,
        stop: early.used,
    };
    let state = opening.state;
    let counts = walk_on(
        tempo_beats,
        tempo_values,
        stop_beats,
        stop_values,
        out_tempo_beats,
        out_tempo_values,
        out_stop_beats,
        out_stop_values,
        out_warp_beats,
        out_warp_lengths,
        places,
        state,
        so_far,
    );
    Finished {
        offset: early.offset,
        counts,
    }
}

// ---- the call

fn is_number(x: f32) -> bool
    ensures { result ≡ is_number x }
{
    x == x
}

fn all_numbers(values: &[f32]) -> bool
    ensures { result ≡ every is_number values.now }
{
    let mut so_far = true;
    for &value in values {
        so_far = both(so_far, is_number(value));
    }
    so_far
}

fn chart_number(
    tempo_beats: &[f32],
    tempo_values: &[f32],
    stop_beats: &[f32],
    stop_values: &[f32],
) -> u32
    ensures { result ≡ chart_number tempo_beats.now tempo_values.now stop_beats.now stop_values.now }
{
    if tempo_beats.len() == tempo_values.len() {
        if stop_beats.len() == stop_values.len() {
            if all_numbers(tempo_values) {
                return limits::TAKEN;
            }
            return limits::BAD_VALUE;
        }
        return limits::UNEVEN;
    }
    limits::UNEVEN
}

fn at_least_one(n: usize) -> usize
    ensures { result ≡ max n 1 }
{
    if n == 0 {
        return 1;
    }
    n
}

fn room_for(counts: Counts, tempo_room: usize, stop_room: usize, warp_room: usize) -> bool
    ensures { result ≡ room_for_counts counts tempo_room stop_room warp_room }
{
    if counts.tempos <= tempo_room {
        if counts.stops <= stop_room {
            return counts.warps <= warp_room;
        }
        return false;
    }
    false
}

fn most_of(tempos: usize, stops: usize) -> Counts
    requires { tempos + stops < 2 ^ 64 }
    ensures { result ≡ most_written tempos stops }
{
    let at_least = at_least_one(tempos);
    Counts {
        tempos: at_least,
        stops,
        warps: tempos + stops,
    }
}

fn walk_number(
    tempo_beats: &[f32],
    tempo_values: &[f32],
    stop_beats: &[f32],
    stop_values: &[f32],
    tempo_room: usize,
    stop_room: usize,
    warp_room: usize,
) -> u32
    ensures { let number = chart_number tempo_beats.now tempo_values.now stop_beats.now stop_values.now in
        let most = most_written (length tempo_beats.now) (length stop_beats.now) in
        result ≡ pick (number == 0) (pick (room_for_counts most tempo_room stop_room warp_room) 0 7) number }
{
    let number = chart_number(tempo_beats, tempo_values, stop_beats, stop_values);
    if number == limits::TAKEN {
        let most = most_of(tempo_beats.len(), stop_beats.len());
        if room_for(most, tempo_room, stop_room, warp_room) {
            return limits::TAKEN;
        }
        return limits::NO_ROOM;
    }
    number
}

fn refused(number: u32) -> Walked
    ensures { result ≡ record { number = number; tempos = 0; stops = 0; warps = 0; offset = plus_zero32 } }
{
    Walked {
        number,
        tempos: 0,
        stops: 0,
        warps: 0,
        offset: 0.0,
    }
}

// What tempos and stops in order by beat come to: tempos, stops and warps, over the front of their rooms, and what beat 0 is moved by.
// Refused: 2 where the columns of a list differ in length, 4 where a tempo is a NaN, and 7 where there is no room for as much as so many can come to:
// as many tempos or one, as many stops, and a warp for each of both.
pub fn walk_changes(
    tempo_beats: &[f32],
    tempo_values: &[f32],
    stop_beats: &[f32],
    stop_values: &[f32],
    out_tempo_beats: &mut [f64],
    out_tempo_values: &mut [f64],
    out_stop_beats: &mut [f64],
    out_stop_values: &mut [f64],
    out_warp_beats: &mut [f64],
    out_warp_lengths: &mut [f64],
) -> Walked
    ensures { let tempos = entries tempo_beats.now tempo_values.now in
        let stops = entries stop_beats.now stop_values.now in
        let rooms = lent_three out_tempo_beats out_tempo_values out_stop_beats out_stop_values out_warp_beats out_warp_lengths in
        let number = walk_number tempo_beats.now tempo_values.now stop_beats.now stop_values.now (columns_before rooms) in
        WalkLaid tempos stops number result (columns_before rooms) (columns_after rooms) }
{
    let tempo_room = columns::room_of(out_tempo_beats.len(), out_tempo_values.len());
    let stop_room = columns::room_of(out_stop_beats.len(), out_stop_values.len());
    let warp_room = columns::room_of(out_warp_beats.len(), out_warp_lengths.len());
    let number = walk_number(
        tempo_beats,
        tempo_values,
        stop_beats,
        stop_values,
        tempo_room,
        stop_room,
        warp_room,
    );
    if number != limits::TAKEN {
        return refused(number);
    }
    let done = walk_chart(
        tempo_beats,
        tempo_values,
        stop_beats,
        stop_values,
        out_tempo_beats,
        out_tempo_values,
        out_stop_beats,
        out_stop_values,
        out_warp_beats,
        out_warp_lengths,
    );
    let counts = done.counts;
    Walked {
        number: limits::TAKEN,
        tempos: counts.tempos,
        stops: counts.stops,
        warps: counts.warps,
        offset: done.offset,
    }
}
