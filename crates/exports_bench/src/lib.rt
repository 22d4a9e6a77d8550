// The calls of the second clock under C names, for native programs to link.
#![tactic(auto)]

ghost use Rattle.chart.specs.Timing.{timing};
ghost use Rattle.clock_bench.specs.EventRoom.{event_room};
ghost use Rattle.clock_bench.specs.BenchQuestion.{EventsLaid, BenchAnswered};

use clock_bench::BenchAnswer;
use columns::Outcome;

// All events of a timing, in the order in which they fall.
#[unsafe(no_mangle)]
pub extern "C" fn marrighentu_lay_out_events(
    tempo_beats: &[f32],
    tempo_values: &[f32],
    stop_beats: &[f32],
    stop_values: &[f32],
    delay_beats: &[f32],
    delay_values: &[f32],
    warp_beats: &[f32],
    warp_lengths: &[f32],
    rows: &mut [i32],
    kinds: &mut [u8],
    numbers: &mut [f64],
) -> Outcome
    ensures { let t = timing tempo_beats.now tempo_values.now stop_beats.now stop_values.now
        delay_beats.now delay_values.now warp_beats.now warp_lengths.now in
        let old = event_room rows.old kinds.old numbers.old in
        let new = event_room rows.new kinds.new numbers.new in
        EventsLaid t result old new }
{
    clock_bench::lay_out_events(
        tempo_beats,
        tempo_values,
        stop_beats,
        stop_values,
        delay_beats,
        delay_values,
        warp_beats,
        warp_lengths,
        rows,
        kinds,
        numbers,
    )
}

// At what time is this beat, by the list of all events?
#[unsafe(no_mangle)]
pub extern "C" fn marrighentu_bench_time_for_beat(
    tempo_beats: &[f32],
    tempo_values: &[f32],
    stop_beats: &[f32],
    stop_values: &[f32],
    delay_beats: &[f32],
    delay_values: &[f32],
    warp_beats: &[f32],
    warp_lengths: &[f32],
    offset: f64,
    global: f64,
    beat: f64,
    rows: &mut [i32],
    kinds: &mut [u8],
    numbers: &mut [f64],
) -> BenchAnswer
    ensures { let t = timing tempo_beats.now tempo_values.now stop_beats.now stop_values.now
        delay_beats.now delay_values.now warp_beats.now warp_lengths.now in
        let old = event_room rows.old kinds.old numbers.old in
        let new = event_room rows.new kinds.new numbers.new in
        BenchAnswered t offset global beat result old new }
{
    clock_bench::bench_time_for_beat(
        tempo_beats,
        tempo_values,
        stop_beats,
        stop_values,
        delay_beats,
        delay_values,
        warp_beats,
        warp_lengths,
        offset,
        global,
        beat,
        rows,
        kinds,
        numbers,
    )
}
