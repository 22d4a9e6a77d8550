// The calls that tell the beat of a time, under C names, for native programs to link.
#![tactic(auto)]

ghost use Rattle.std.specs.Prelude.{◌≡◌};
ghost use Rattle.chart.specs.Timing.{timing};
ghost use Rattle.clock_by_time.specs.BeatAt.{beat_info_checked, beat_info};
ghost use Rattle.clock_by_time.specs.ManyTimes.{info_columns, BeatInfosLaid};

use clock_by_time::BeatInfo;

// Which beat is it at this time? Everything is tested.
#[unsafe(no_mangle)]
pub extern "C" fn marrighentu_get_beat_info_from_time(
    tempo_beats: &[f32],
    tempo_values: &[f32],
    stop_beats: &[f32],
    stop_values: &[f32],
    delay_beats: &[f32],
    delay_values: &[f32],
    warp_beats: &[f32],
    warp_lengths: &[f32],
    offset: f64,
    global: f64,
    time: f64,
) -> BeatInfo
    ensures { let t = timing tempo_beats.now tempo_values.now stop_beats.now stop_values.now
        delay_beats.now delay_values.now warp_beats.now warp_lengths.now in
        result ≡ beat_info t offset global time }
{
    clock_by_time::get_beat_info_from_time(
        tempo_beats,
        tempo_values,
        stop_beats,
        stop_values,
        delay_beats,
        delay_values,
        warp_beats,
        warp_lengths,
        offset,
        global,
        time,
    )
}

// The same for a timing that was tested: only the time is.
#[unsafe(no_mangle)]
pub extern "C" fn marrighentu_get_beat_info_from_time_checked(
    tempo_beats: &[f32],
    tempo_values: &[f32],
    stop_beats: &[f32],
    stop_values: &[f32],
    delay_beats: &[f32],
    delay_values: &[f32],
    warp_beats: &[f32],
    warp_lengths: &[f32],
    offset: f64,
    global: f64,
    time: f64,
) -> BeatInfo
    ensures { let t = timing tempo_beats.now tempo_values.now stop_beats.now stop_values.now
        delay_beats.now delay_values.now warp_beats.now warp_lengths.now in
        result ≡ beat_info_checked t offset global time }
{
    clock_by_time::get_beat_info_from_time_checked(
        tempo_beats,
        tempo_values,
        stop_beats,
        stop_values,
        delay_beats,
        delay_values,
        warp_beats,
        warp_lengths,
        offset,
        global,
        time,
    )
}

// Many times, after one test of the timing.
#[unsafe(no_mangle)]
pub extern "C" fn marrighentu_get_beat_infos_from_times(
    tempo_beats: &[f32],
    tempo_values: &[f32],
    stop_beats: &[f32],
    stop_values: &[f32],
    delay_beats: &[f32],
    delay_values: &[f32],
    warp_beats: &[f32],
    warp_lengths: &[f32],
    offset: f64,
    global: f64,
    times: &[f64],
    numbers: &mut [u32],
    beats: &mut [f64],
    freezes: &mut [u8],
    delays: &mut [u8],
    counts: &mut [usize],
) -> u32
    ensures { let t = timing tempo_beats.now tempo_values.now stop_beats.now stop_values.now
        delay_beats.now delay_values.now warp_beats.now warp_lengths.now in
        let old = info_columns numbers.old beats.old freezes.old delays.old counts.old in
        let new = info_columns numbers.new beats.new freezes.new delays.new counts.new in
        BeatInfosLaid t offset global times.now result old new }
{
    clock_by_time::get_beat_infos_from_times(
        tempo_beats,
        tempo_values,
        stop_beats,
        stop_values,
        delay_beats,
        delay_values,
        warp_beats,
        warp_lengths,
        offset,
        global,
        times,
        numbers,
        beats,
        freezes,
        delays,
        counts,
    )
}
