// Assembly under C names, for native programs to link.
#![tactic(auto)]

ghost use Rattle.std.specs.Prelude.{◌≡◌};
ghost use Rattle.limits.specs.Table.{most_entries};
ghost use Rattle.chart.specs.ChartColumns.{lent_columns, lent_speeds, LentChart, before, after, ChartColumns, list_columns, speed_columns};
ghost use Rattle.assembly_marks.specs.LentMarks.{lent_marks};
ghost use Rattle.assembly.specs.Assembly.{Assembles};
ghost use Rattle.exports_assembly.specs.Format.{format_of};

use assembly::Assembled;
use chart::TimingFormat;

// A format by its number: 0 is SM, and any other SSC.
fn format_of(number: u32) -> TimingFormat
    ensures { result ≡ format_of number }
{
    if number == 0 {
        return TimingFormat::Sm;
    }
    TimingFormat::Ssc
}

// The seven raw lists of a chart as the columns of a timing, with the mark of each warp; the format by its number, 0 for SM and any other for SSC.
#[unsafe(no_mangle)]
pub extern "C" fn marrighentu_compute_timing_segments(
    format: u32,
    tempo_beats: &[f64],
    tempo_values: &[f64],
    stop_beats: &[f64],
    stop_values: &[f64],
    delay_beats: &[f64],
    delay_values: &[f64],
    warp_beats: &[f64],
    warp_lengths: &[f64],
    warp_marks: &[u8],
    speed_beats: &[f64],
    speed_ratios: &[f64],
    speed_delays: &[f64],
    speed_units: &[u8],
    scroll_beats: &[f64],
    scroll_values: &[f64],
    fake_beats: &[f64],
    fake_lengths: &[f64],
    out_tempo_beats: &mut [f32],
    out_tempo_values: &mut [f32],
    out_stop_beats: &mut [f32],
    out_stop_values: &mut [f32],
    out_delay_beats: &mut [f32],
    out_delay_values: &mut [f32],
    out_warp_beats: &mut [f32],
    out_warp_lengths: &mut [f32],
    out_warp_marks: &mut [u8],
    out_speed_beats: &mut [f32],
    out_speed_ratios: &mut [f32],
    out_speed_delays: &mut [f32],
    out_speed_units: &mut [u8],
    out_scroll_beats: &mut [f32],
    out_scroll_values: &mut [f32],
    out_fake_beats: &mut [f32],
    out_fake_lengths: &mut [f32],
) -> Assembled
    ensures { let raw : ChartColumns = record {
      tempos = list_columns tempo_beats.now tempo_values.now;
      stops = list_columns stop_beats.now stop_values.now;
      delays = list_columns delay_beats.now delay_values.now;
      warps = list_columns warp_beats.now warp_lengths.now;
      speeds = speed_columns speed_beats.now speed_ratios.now speed_delays.now speed_units.now;
      scrolls = list_columns scroll_beats.now scroll_values.now;
      fakes = list_columns fake_beats.now fake_lengths.now;
    } in
        let rooms : LentChart = record {
          tempos = lent_columns out_tempo_beats out_tempo_values;
          stops = lent_columns out_stop_beats out_stop_values;
          delays = lent_columns out_delay_beats out_delay_values;
          warps = lent_columns out_warp_beats out_warp_lengths;
          speeds = lent_speeds out_speed_beats out_speed_ratios out_speed_delays out_speed_units;
          scrolls = lent_columns out_scroll_beats out_scroll_values;
          fakes = lent_columns out_fake_beats out_fake_lengths;
        } in
        let marks = lent_marks warp_marks out_warp_marks in
        Assembles most_entries (format_of format) raw marks result (before rooms) (after rooms) out_warp_marks.new }
{
    let named = format_of(format);
    assembly::compute_timing_segments(
        limits::MOST_ENTRIES,
        named,
        tempo_beats,
        tempo_values,
        stop_beats,
        stop_values,
        delay_beats,
        delay_values,
        warp_beats,
        warp_lengths,
        warp_marks,
        speed_beats,
        speed_ratios,
        speed_delays,
        speed_units,
        scroll_beats,
        scroll_values,
        fake_beats,
        fake_lengths,
        out_tempo_beats,
        out_tempo_values,
        out_stop_beats,
        out_stop_values,
        out_delay_beats,
        out_delay_values,
        out_warp_beats,
        out_warp_lengths,
        out_warp_marks,
        out_speed_beats,
        out_speed_ratios,
        out_speed_delays,
        out_speed_units,
        out_scroll_beats,
        out_scroll_values,
        out_fake_beats,
        out_fake_lengths,
    )
}
