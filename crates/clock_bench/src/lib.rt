// A second clock, for the test bench: all events of a timing are laid out as one list, in the order in which they fall, and a question runs down that list.
// It shares nothing with the walk of the player's clock.
#![tactic(auto)]

ghost use Rattle.std.specs.Prelude.{◌≡◌, ◌+◌, ◌*◌, ◌^◌, ◌<◌, ◌≤◌, min, length, take, ◌==◌, nat_le, slice_index_or};
ghost use Rattle.std.specs.Float.{nan};
ghost use Rattle.limits.specs.Table.{no_room};
ghost use Rattle.picks.specs.Pick.{pick};
ghost use Rattle.chart.specs.Timing.{timing};
ghost use Rattle.clock_bench.specs.EventList.{with_a_tempo, most_events, lower_head, or_entry, or_end, next_head, further_end, bringing, spot_past, first_spot, listed_within};
ghost use Rattle.clock_bench.specs.EventRoom.{event_room, event_room_number, room_with, listed_in};
ghost use Rattle.clock_bench.specs.RunningDown.{time_on, runner_past, comes_before, run_down, set_off};
ghost use Rattle.clock_bench.specs.BenchQuestion.{laying_number, bench_number, tempo_at_the_start, EventsLaid, BenchAnswered};
ghost use Rattle.clock_bench.specs.inside.SpotFits.{SpotFits};

use columns::Outcome;

// The kinds of event, numbered in the order in which they come on one row; the asked beat comes after a delay and before a stop.
pub const WARP_ENDS: u8 = 0;

pub const TEMPO_BEGINS: u8 = 1;

pub const DELAY_BEGINS: u8 = 2;

pub const STOP_BEGINS: u8 = 3;

pub const WARP_BEGINS: u8 = 4;

const NONE_LEFT: u8 = 5;

// ---- laying out

// The next event: its row and its kind.
#[derive(Clone, Copy)]
pub struct Head {
    pub row: i32,
    pub kind: u8,
}

// How far the laying has come: a place in each list, the furthest end of a warp so far, and whether a warp is open.
#[derive(Clone, Copy)]
pub struct Spot {
    pub tempos: usize,
    pub stops: usize,
    pub delays: usize,
    pub warps: usize,
    pub end: f64,
    pub warping: bool,
}

// An event of the list, with what it brings: a tempo, the seconds of a pause, the beat where a warp ends.
#[derive(Clone, Copy)]
pub struct Listed {
    pub row: i32,
    pub kind: u8,
    pub number: f64,
}

fn lower_head(best: Head, row: i32, kind: u8) -> Head
    ensures { result ≡ lower_head best row kind }
{
    let found = best.row;
    if row < found {
        return Head { row, kind };
    }
    best
}

fn or_entry(best: Head, beats: &[f32], place: usize, kind: u8) -> Head
    ensures { result ≡ or_entry best «beats».now place kind }
{
    if place < beats.len() {
        let row = rows::beat_to_note_row(std::num::f32_to_f64_with_nan(beats[place]));
        return lower_head(best, row, kind);
    }
    best
}

fn or_end(best: Head, warping: bool, end: f64) -> Head
    ensures { result ≡ or_end best warping end }
{
    if warping {
        let row = rows::beat_to_note_row(end);
        return lower_head(best, row, WARP_ENDS);
    }
    best
}

// What falls next: the least row, and on one row the least kind.
fn next_head(
    spot: Spot,
    tempo_beats: &[f32],
    stop_beats: &[f32],
    delay_beats: &[f32],
    warp_beats: &[f32],
) -> Head
    ensures { result ≡ next_head tempo_beats.now stop_beats.now delay_beats.now warp_beats.now spot }
{
    let nothing = Head {
        row: 2147483647,
        kind: NONE_LEFT,
    };
    let end = or_end(nothing, spot.warping, spot.end);
    let tempo = or_entry(end, tempo_beats, spot.tempos, TEMPO_BEGINS);
    let delay = or_entry(tempo, delay_beats, spot.delays, DELAY_BEGINS);
    let stop = or_entry(delay, stop_beats, spot.stops, STOP_BEGINS);
    or_entry(stop, warp_beats, spot.warps, WARP_BEGINS)
}

// A number of a column, and a NaN beyond its end.
fn number_at(column: &[f32], place: usize) -> f64
    ensures { result ≡ slice_index_or «column».now place nan }
{
    if place < column.len() {
        return std::num::f32_to_f64_with_nan(column[place]);
    }
    0.0 / 0.0
}

fn further_end(old: f64, own: f64) -> f64
    ensures { result ≡ further_end old own }
{
    if old < own {
        return own;
    }
    old
}

// What the next event brings.
fn brings(
    spot: Spot,
    kind: u8,
    tempo_values: &[f32],
    stop_values: &[f32],
    delay_values: &[f32],
    warp_beats: &[f32],
    warp_lengths: &[f32],
) -> f64
    ensures { result ≡ bringing tempo_values.now stop_values.now delay_values.now warp_beats.now warp_lengths.now spot kind }
{
    if kind == TEMPO_BEGINS {
        return number_at(tempo_values, spot.tempos);
    }
    if kind == DELAY_BEGINS {
        return number_at(delay_values, spot.delays);
    }
    if kind == STOP_BEGINS {
        return number_at(stop_values, spot.stops);
    }
    if kind == WARP_BEGINS {
        let own = number_at(warp_beats, spot.warps) + number_at(warp_lengths, spot.warps);
        return further_end(spot.end, own);
    }
    spot.end
}

// Past the next event.
fn spot_past(mut spot: Spot, kind: u8, number: f64) -> Spot
    requires { SpotFits spot }
    ensures { result ≡ spot_past spot kind number }
{
    if kind == TEMPO_BEGINS {
        spot.tempos = spot.tempos + 1;
        return spot;
    }
    if kind == DELAY_BEGINS {
        spot.delays = spot.delays + 1;
        return spot;
    }
    if kind == STOP_BEGINS {
        spot.stops = spot.stops + 1;
        return spot;
    }
    if kind == WARP_BEGINS {
        spot.warps = spot.warps + 1;
        spot.end = number;
        spot.warping = true;
        return spot;
    }
    spot.warping = false;
    spot
}

// Lays every event over the fronts of the three columns, and says how many there are.
fn lay_events(
    most: usize,
    tempo_beats: &[f32],
    tempo_values: &[f32],
    stop_beats: &[f32],
    stop_values: &[f32],
    delay_beats: &[f32],
    delay_values: &[f32],
    warp_beats: &[f32],
    warp_lengths: &[f32],
    rows: &mut [i32],
    kinds: &mut [u8],
    numbers: &mut [f64],
) -> usize
    requires { (most ≤ length rows.old) × (most ≤ length kinds.old) × (most ≤ length numbers.old) }
    ensures { let t = timing tempo_beats.now tempo_values.now stop_beats.now stop_values.now
        delay_beats.now delay_values.now warp_beats.now warp_lengths.now in
        let list = listed_within most t first_spot in
        let old = event_room rows.old kinds.old numbers.old in
        let new = event_room rows.new kinds.new numbers.new in
        (result ≡ length list) × (new ≡ room_with list old) }
{
    let mut spot = Spot {
        tempos: 0,
        stops: 0,
        delays: 0,
        warps: 0,
        end: 0.0,
        warping: false,
    };
    for i in 0..most {
        let head = next_head(spot, tempo_beats, stop_beats, delay_beats, warp_beats);
        let row = head.row;
        let kind = head.kind;
        if kind == NONE_LEFT {
            return i;
        }
        let number = brings(
            spot,
            kind,
            tempo_values,
            stop_values,
            delay_values,
            warp_beats,
            warp_lengths,
        );
        rows[i] = row;
        kinds[i] = kind;
        numbers[i] = number;
        spot = spot_past(spot, kind, number);
    }
    most
}

// ---- running down

// How far a run down the list has come: the row, the time and the tempo there, whether a warp is open, and how many events were passed.
#[derive(Clone, Copy)]
pub struct Runner {
    pub row: i32,
    pub time: f64,
    pub tempo: f64,
    pub warping: bool,
    pub passed: usize,
}

// Whether an event comes before the asked beat.
fn comes_before(row: i32, kind: u8, asked: i32) -> bool
    ensures { result ≡ comes_before asked row kind }
{
    if row < asked {
        return true;
    }
    if asked < row {
        return false;
    }
    kind < STOP_BEGINS
}

// The time on a row.
fn time_on(at: Runner, row: i32) -> f64
    ensures { result ≡ time_on at row }
{
    let warping = at.warping;
    if warping {
        return at.time + 0.0;
    }
    let beats = rows::beats_between(at.row, row);
    at.time + beats / (at.tempo / 60.0)
}

// Past an event of the list.
fn runner_past(mut at: Runner, row: i32, kind: u8, number: f64) -> Runner
    requires { at.passed < 2 ^ 63 }
    ensures { result ≡ runner_past at row kind number }
{
    let time = time_on(at, row);
    at.row = row;
    at.time = time;
    at.passed = at.passed + 1;
    if kind == WARP_ENDS {
        at.warping = false;
        return at;
    }
    if kind == TEMPO_BEGINS {
        at.tempo = number;
        return at;
    }
    if kind == WARP_BEGINS {
        at.warping = true;
        return at;
    }
    at.time = time + number;
    at
}

// Runs down the first so many events, as far as they come before the asked beat.
fn run_down(
    start: Runner,
    asked: i32,
    laid: usize,
    rows: &[i32],
    kinds: &[u8],
    numbers: &[f64],
) -> Runner
    requires { (laid ≤ length rows.now) × (laid ≤ length kinds.now) × (laid ≤ length numbers.now) × (start.passed ≡ 0) }
    ensures { result ≡ run_down asked start (take laid (listed_in rows.now kinds.now numbers.now)) }
{
    let mut at = start;
    for i in 0..laid {
        let row = rows[i];
        let kind = kinds[i];
        if !comes_before(row, kind, asked) {
            return at;
        }
        at = runner_past(at, row, kind, numbers[i]);
    }
    at
}

// ---- the calls

fn either<'a>(first: bool, one: &'a [f32], other: &'a [f32]) -> &'a [f32]
    ensures { result.now ≡ pick first «one».now «other».now }
{
    if first {
        return one;
    }
    other
}

// As many events as a timing of so many entries can have. Without a tempo it has the one of 60, and a warp has two events.
fn most_events(tempos: usize, stops: usize, delays: usize, warps: usize) -> usize
    requires { tempos + stops + delays + 2 * warps + 1 < 2 ^ 64 }
    ensures { result ≡ pick (tempos == 0) 1 tempos + stops + delays + 2 * warps }
{
    if tempos == 0 {
        return 1 + stops + delays + 2 * warps;
    }
    tempos + stops + delays + 2 * warps
}

// 7 where the shortest column holds fewer.
fn room_number(most: usize, rows: usize, kinds: usize, numbers: usize) -> u32
    ensures { result ≡ pick (nat_le most (min rows (min kinds numbers))) 0 no_room }
{
    let room = columns::room_of(rows, columns::room_of(kinds, numbers));
    if most <= room {
        return limits::TAKEN;
    }
    limits::NO_ROOM
}

// Lays the events of a timing with its tempo of 60 where it has none.
fn lay_filled(
    most: usize,
    tempo_beats: &[f32],
    tempo_values: &[f32],
    stop_beats: &[f32],
    stop_values: &[f32],
    delay_beats: &[f32],
    delay_values: &[f32],
    warp_beats: &[f32],
    warp_lengths: &[f32],
    rows: &mut [i32],
    kinds: &mut [u8],
    numbers: &mut [f64],
) -> usize
    requires { (most ≤ length rows.old) × (most ≤ length kinds.old) × (most ≤ length numbers.old) }
    ensures { let t = timing tempo_beats.now tempo_values.now stop_beats.now stop_values.now
        delay_beats.now delay_values.now warp_beats.now warp_lengths.now in
        let list = listed_within most (with_a_tempo t) first_spot in
        let old = event_room rows.old kinds.old numbers.old in
        let new = event_room rows.new kinds.new numbers.new in
        (result ≡ length list) × (new ≡ room_with list old) }
{
    let none = tempo_beats.len() == 0;
    let beat_of_none = [0.0f32];
    let tempo_of_none = [60.0f32];
    let beats = either(none, &beat_of_none, tempo_beats);
    let tempos = either(none, &tempo_of_none, tempo_values);
    lay_events(
        most,
        beats,
        tempos,
        stop_beats,
        stop_values,
        delay_beats,
        delay_values,
        warp_beats,
        warp_lengths,
        rows,
        kinds,
        numbers,
    )
}

// Lays out all events of a timing over the fronts of the three columns, and counts them. Refused with the numbers of the clock's tests, 1 to 5, and with 7
// where the shortest column holds fewer than the timing could have events; then nothing is written.
pub fn lay_out_events(
    tempo_beats: &[f32],
    tempo_values: &[f32],
    stop_beats: &[f32],
    stop_values: &[f32],
    delay_beats: &[f32],
    delay_values: &[f32],
    warp_beats: &[f32],
    warp_lengths: &[f32],
    rows: &mut [i32],
    kinds: &mut [u8],
    numbers: &mut [f64],
) -> Outcome
    ensures { let t = timing tempo_beats.now tempo_values.now stop_beats.now stop_values.now
        delay_beats.now delay_values.now warp_beats.now warp_lengths.now in
        let old = event_room rows.old kinds.old numbers.old in
        let new = event_room rows.new kinds.new numbers.new in
        EventsLaid t result old new }
{
    let timing = clock_tests::check_timing(
        tempo_beats,
        tempo_values,
        stop_beats,
        stop_values,
        delay_beats,
        delay_values,
        warp_beats,
        warp_lengths,
        0.0,
        0.0,
    );
    let most = most_events(
        tempo_beats.len(),
        stop_beats.len(),
        delay_beats.len(),
        warp_beats.len(),
    );
    let room = room_number(most, rows.len(), kinds.len(), numbers.len());
    let number = limits::lower_of(timing, room);
    if number == limits::TAKEN {
        let count = lay_filled(
            most,
            tempo_beats,
            tempo_values,
            stop_beats,
            stop_values,
            delay_beats,
            delay_values,
            warp_beats,
            warp_lengths,
            rows,
            kinds,
            numbers,
        );
        return Outcome {
            number: limits::TAKEN,
            count: count,
        };
    }
    columns::refused(number)
}

// A question's number, its time, the events passed and one, and how many events were laid.
#[repr(C)]
#[derive(Clone, Copy)]
pub struct BenchAnswer {
    pub number: u32,
    pub time: f64,
    pub count: usize,
    pub laid: usize,
}

// The first tempo, 60 where there is none.
fn tempo_at_the_start(tempo_values: &[f32]) -> f64
    ensures { result ≡ tempo_at_the_start tempo_values.now }
{
    if tempo_values.len() == 0 {
        return 60.0;
    }
    std::num::f32_to_f64_with_nan(tempo_values[0])
}

// At what time is this beat, by the list of all events and from a fresh start? Refused as the clock refuses, the beat with 3, and last with 7 for the room; then
// nothing is written.
pub fn bench_time_for_beat(
    tempo_beats: &[f32],
    tempo_values: &[f32],
    stop_beats: &[f32],
    stop_values: &[f32],
    delay_beats: &[f32],
    delay_values: &[f32],
    warp_beats: &[f32],
    warp_lengths: &[f32],
    offset: f64,
    global: f64,
    beat: f64,
    rows: &mut [i32],
    kinds: &mut [u8],
    numbers: &mut [f64],
) -> BenchAnswer
    ensures { let t = timing tempo_beats.now tempo_values.now stop_beats.now stop_values.now
        delay_beats.now delay_values.now warp_beats.now warp_lengths.now in
        let old = event_room rows.old kinds.old numbers.old in
        let new = event_room rows.new kinds.new numbers.new in
        BenchAnswered t offset global beat result old new }
{
    let timing = clock_tests::check_timing(
        tempo_beats,
        tempo_values,
        stop_beats,
        stop_values,
        delay_beats,
        delay_values,
        warp_beats,
        warp_lengths,
        offset,
        global,
    );
    let asked = clock_tests::beat_number(beat);
    let most = most_events(
        tempo_beats.len(),
        stop_beats.len(),
        delay_beats.len(),
        warp_beats.len(),
    );
    let room = room_number(most, rows.len(), kinds.len(), numbers.len());
    let later = limits::lower_of(asked, room);
    let number = limits::lower_of(timing, later);
    if number == limits::TAKEN {
        let laid = lay_filled(
            most,
            tempo_beats,
            tempo_values,
            stop_beats,
            stop_values,
            delay_beats,
            delay_values,
            warp_beats,
            warp_lengths,
            rows,
            kinds,
            numbers,
        );
        let row = rows::beat_to_note_row(beat);
        let tempo = tempo_at_the_start(tempo_values);
        let start = Runner {
            row: 0,
            time: -offset - global,
            tempo: tempo,
            warping: false,
            passed: 0,
        };
        let at = run_down(start, row, laid, rows, kinds, numbers);
        return BenchAnswer {
            number: limits::TAKEN,
            time: time_on(at, row) - global,
            count: at.passed + 1,
            laid: laid,
        };
    }
    BenchAnswer {
        number: number,
        time: 0.0,
        count: 0,
        laid: 0,
    }
}
