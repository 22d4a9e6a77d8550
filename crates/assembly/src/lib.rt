// Assembly: the seven raw lists of a chart as the f32 columns of a timing.
#![tactic(auto)]

ghost use Rattle.std.specs.Prelude.{◌≡◌};
ghost use Rattle.chart.specs.ChartColumns.{list_columns, speed_columns, lent_columns, lent_speeds, LentChart, before, after, ChartColumns};
ghost use Rattle.assembly_marks.specs.LentMarks.{lent_marks};
ghost use Rattle.assembly.specs.Assembly.{others_number, others_later, moved_total, Assembles};

use assembly_rows::Meaning;
use chart::TimingFormat;
use limits::Kind;

// Of each list, how many of its raw entries were off the grid.
#[repr(C)]
#[derive(Clone, Copy)]
pub struct MovedBeats {
    pub tempos: u32,
    pub stops: u32,
    pub delays: u32,
    pub warps: u32,
    pub speeds: u32,
    pub scrolls: u32,
    pub fakes: u32,
}

// Of all lists together.
pub fn total_moved(moved: MovedBeats) -> u64
    ensures { result ≡ moved_total moved }
{
    (moved.tempos as u64)
        + (moved.stops as u64)
        + (moved.delays as u64)
        + (moved.warps as u64)
        + (moved.speeds as u64)
        + (moved.scrolls as u64)
        + (moved.fakes as u64)
}

// The refusal number, 0 where all lists are taken, how many entries of each list were written, the seconds that beat 0 is moved by, and how many raw entries
// were off the grid.
#[repr(C)]
#[derive(Clone, Copy)]
pub struct Assembled {
    pub number: u32,
    pub tempos: usize,
    pub stops: usize,
    pub delays: usize,
    pub warps: usize,
    pub speeds: usize,
    pub scrolls: usize,
    pub fakes: usize,
    pub offset: f32,
    pub moved: MovedBeats,
}

// ---- the lists that are not processed

// The lowest number of their raw tests.
fn others_number(
    delay_beats: &[f64],
    delay_values: &[f64],
    speed_beats: &[f64],
    speed_ratios: &[f64],
    speed_delays: &[f64],
    speed_units: &[u8],
    scroll_beats: &[f64],
    scroll_values: &[f64],
    fake_beats: &[f64],
    fake_lengths: &[f64],
) -> u32
    ensures { let delays = list_columns delay_beats.now delay_values.now in
        let speeds = speed_columns speed_beats.now speed_ratios.now speed_delays.now speed_units.now in
        let scrolls = list_columns scroll_beats.now scroll_values.now in
        let fakes = list_columns fake_beats.now fake_lengths.now in
        result ≡ others_number delays speeds scrolls fakes }
{
    let delays = limits::list_number(Kind::Beat, Kind::Value, delay_beats, delay_values);
    let speeds = tidy_speeds::speed_list_number(
        speed_beats,
        speed_ratios,
        speed_delays,
        speed_units,
    );
    let scrolls = limits::list_number(Kind::Beat, Kind::Value, scroll_beats, scroll_values);
    let fakes = limits::list_number(Kind::Beat, Kind::Value, fake_beats, fake_lengths);
    limits::lower_of(
        limits::lower_of(limits::lower_of(delays, speeds), scrolls),
        fakes,
    )
}

// The lowest of what they answer where they are taken: 6, or 7 by the room of each.
fn others_later(
    delay_beats: &[f64],
    delay_values: &[f64],
    speed_beats: &[f64],
    speed_ratios: &[f64],
    speed_delays: &[f64],
    speed_units: &[u8],
    scroll_beats: &[f64],
    scroll_values: &[f64],
    fake_beats: &[f64],
    fake_lengths: &[f64],
    delay_room: usize,
    speed_room: usize,
    scroll_room: usize,
    fake_room: usize,
) -> u32
    ensures { let delays = list_columns delay_beats.now delay_values.now in
        let speeds = speed_columns speed_beats.now speed_ratios.now speed_delays.now speed_units.now in
        let scrolls = list_columns scroll_beats.now scroll_values.now in
        let fakes = list_columns fake_beats.now fake_lengths.now in
        (others_number delays speeds scrolls fakes ≡ 0
        → result ≡ others_later delays speeds scrolls fakes delay_room speed_room scroll_room fake_room) }
{
    let delays = limits::no_room(assembly_rows::rows_fit(
        delay_beats,
        delay_values,
        Meaning::Values,
        delay_room,
    ));
    let speeds = assembly_speeds::speeds_number(
        speed_beats,
        speed_ratios,
        speed_delays,
        speed_units,
        speed_room,
    );
    let scrolls = assembly_scrolls::scrolls_number(scroll_beats, scroll_values, scroll_room);
    let fakes = limits::no_room(assembly_rows::rows_fit(
        fake_beats,
        fake_lengths,
        Meaning::Lengths,
        fake_room,
    ));
    limits::lower_of(
        limits::lower_of(limits::lower_of(delays, speeds), scrolls),
        fakes,
    )
}

// ---- the call

// The seven lists of a chart, tidied and on rows: tempos and stops processed by format, warps that they make behind the given ones. Each warp has its mark, 0
// where it was written and 1 where it was made. All tests come before anything is written: 1 to 4 for the raw lists and the marks, 1 where the warps given and
// made are more than `most_warps` or than a list may have, 6 for scrolls or speeds, 7 for a room.
pub fn compute_timing_segments(
    most_warps: usize,
    format: TimingFormat,
    tempo_beats: &[f64],
    tempo_values: &[f64],
    stop_beats: &[f64],
    stop_values: &[f64],
    delay_beats: &[f64],
    delay_values: &[f64],
    warp_beats: &[f64],
    warp_lengths: &[f64],
    warp_marks: &[u8],
    speed_beats: &[f64],
    speed_ratios: &[f64],
    speed_delays: &[f64],
    speed_units: &[u8],
    scroll_beats: &[f64],
    scroll_values: &[f64],
    fake_beats: &[f64],
    fake_lengths: &[f64],
    out_tempo_beats: &mut [f32],
    out_tempo_values: &mut [f32],
    out_stop_beats: &mut [f32],
    out_stop_values: &mut [f32],
    out_delay_beats: &mut [f32],
    out_delay_values: &mut [f32],
    out_warp_beats: &mut [f32],
    out_warp_lengths: &mut [f32],
    out_warp_marks: &mut [u8],
    out_speed_beats: &mut [f32],
    out_speed_ratios: &mut [f32],
    out_speed_delays: &mut [f32],
    out_speed_units: &mut [u8],
    out_scroll_beats: &mut [f32],
    out_scroll_values: &mut [f32],
    out_fake_beats: &mut [f32],
    out_fake_lengths: &mut [f32],
) -> Assembled
    ensures { let raw : ChartColumns = record {
      tempos = list_columns tempo_beats.now tempo_values.now;
      stops = list_columns stop_beats.now stop_values.now;
      delays = list_columns delay_beats.now delay_values.now;
      warps = list_columns warp_beats.now warp_lengths.now;
      speeds = speed_columns speed_beats.now speed_ratios.now speed_delays.now speed_units.now;
      scrolls = list_columns scroll_beats.now scroll_values.now;
      fakes = list_columns fake_beats.now fake_lengths.now;
    } in
        let rooms : LentChart = record {
          tempos = lent_columns out_tempo_beats out_tempo_values;
          stops = lent_columns out_stop_beats out_stop_values;
          delays = lent_columns out_delay_beats out_delay_values;
          warps = lent_columns out_warp_beats out_warp_lengths;
          speeds = lent_speeds out_speed_beats out_speed_ratios out_speed_delays out_speed_units;
          scrolls = lent_columns out_scroll_beats out_scroll_values;
          fakes = lent_columns out_fake_beats out_fake_lengths;
        } in
        let marks = lent_marks warp_marks out_warp_marks in
        Assembles most_warps format raw marks result (before rooms) (after rooms) out_warp_marks.new }
{
    let other = others_number(
        delay_beats,
        delay_values,
        speed_beats,
        speed_ratios,
        speed_delays,
        speed_units,
        scroll_beats,
        scroll_values,
        fake_beats,
        fake_lengths,
    );
    let later = others_later(
        delay_beats,
        delay_values,
        speed_beats,
        speed_ratios,
        speed_delays,
        speed_units,
        scroll_beats,
        scroll_values,
        fake_beats,
        fake_lengths,
        columns::room_of(out_delay_beats.len(), out_delay_values.len()),
        tidy_speeds_entries::least_of(
            out_speed_beats.len(),
            out_speed_ratios.len(),
            out_speed_delays.len(),
            out_speed_units.len(),
        ),
        columns::room_of(out_scroll_beats.len(), out_scroll_values.len()),
        columns::room_of(out_fake_beats.len(), out_fake_lengths.len()),
    );
    let processed = assembly_tempos::assemble_tempos(
        format,
        most_warps,
        other,
        later,
        tempo_beats,
        tempo_values,
        stop_beats,
        stop_values,
        warp_beats,
        warp_lengths,
        warp_marks,
        out_tempo_beats,
        out_tempo_values,
        out_stop_beats,
        out_stop_values,
        out_warp_beats,
        out_warp_lengths,
        out_warp_marks,
    );
    if processed.number != limits::TAKEN {
        return Assembled {
            number: processed.number,
            tempos: processed.tempos,
            stops: processed.stops,
            delays: 0,
            warps: processed.warps,
            speeds: 0,
            scrolls: 0,
            fakes: 0,
            offset: processed.offset,
            moved: MovedBeats {
                tempos: 0,
                stops: 0,
                delays: 0,
                warps: processed.moved,
                speeds: 0,
                scrolls: 0,
                fakes: 0,
            },
        };
    }
    let delays = assembly_rows::assemble_untested(
        delay_beats,
        delay_values,
        Meaning::Values,
        out_delay_beats,
        out_delay_values,
    );
    let speeds = assembly_speeds::assemble_untested(
        speed_beats,
        speed_ratios,
        speed_delays,
        speed_units,
        out_speed_beats,
        out_speed_ratios,
        out_speed_delays,
        out_speed_units,
    );
    let scrolls = assembly_scrolls::assemble_untested(
        scroll_beats,
        scroll_values,
        out_scroll_beats,
        out_scroll_values,
    );
    let fakes = assembly_rows::assemble_untested(
        fake_beats,
        fake_lengths,
        Meaning::Lengths,
        out_fake_beats,
        out_fake_lengths,
    );
    let tempos_moved = assembly_moved::count_moved(format, tempo_beats, tempo_values);
    let stops_moved = assembly_moved::count_moved(format, stop_beats, stop_values);
    Assembled {
        number: limits::TAKEN,
        tempos: processed.tempos,
        stops: processed.stops,
        delays: delays.outcome.count,
        warps: processed.warps,
        speeds: speeds.outcome.count,
        scrolls: scrolls.outcome.count,
        fakes: fakes.outcome.count,
        offset: processed.offset,
        moved: MovedBeats {
            tempos: tempos_moved,
            stops: stops_moved,
            delays: delays.moved,
            warps: processed.moved,
            speeds: speeds.moved,
            scrolls: scrolls.moved,
            fakes: fakes.moved,
        },
    }
}
