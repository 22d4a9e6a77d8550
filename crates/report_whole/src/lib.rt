// The whole report of what was read of an input: its own number, or the answer to its lists.
#![tactic(auto)]

ghost use Rattle.std.specs.Prelude.{◌≡◌, take};
ghost use Rattle.io.specs.Counts.{IsPrefixLen};
ghost use Rattle.order.specs.Entries.{entries};
ghost use Rattle.chart.specs.ChartColumns.{ChartColumns, list_columns, speed_columns};
ghost use Rattle.lookup_warped.specs.OnePass.{one_pass};
ghost use Rattle.report_whole.specs.Whole.{format_read, report_text, Reported};

use chart::TimingFormat;
use report_form::Reading;

fn format_of(ssc: bool) -> TimingFormat
    ensures { result ≡ format_read ssc }
{
    if ssc {
        return TimingFormat::Ssc;
    }
    TimingFormat::Sm
}

// The first entries of a column.
fn front_f32(column: &[f32], count: usize) -> &[f32]
    ensures { result.now ≡ take count column.now }
{
    if count < column.len() {
        return &column[..count];
    }
    column
}

// How many rows the first warps of two columns pass over.
fn warped_of(beats: &[f32], lengths: &[f32], count: usize) -> u64
    ensures { result ≡ one_pass (entries (take count beats.now) (take count lengths.now)) }
{
    lookup_warped::warped_rows(front_f32(beats, count), front_f32(lengths, count))
}

// Writes the report of an input that is read, from the page's first byte on, and answers how many bytes it has. Columns and counts are as
// `report_feed::feed` leaves them; lists of an input that is taken are assembled in columns of 256 numbers. A page of 45,400 bytes holds every report; a shorter one holds its beginning.
pub fn write_report(
    page: &mut [u8],
    reading: Reading,
    counts: &[u64],
    tempo_beats: &[f64],
    tempo_values: &[f64],
    stop_beats: &[f64],
    stop_values: &[f64],
    delay_beats: &[f64],
    delay_values: &[f64],
    warp_beats: &[f64],
    warp_lengths: &[f64],
    speed_beats: &[f64],
    speed_ratios: &[f64],
    speed_delays: &[f64],
    speed_units: &[u8],
    scroll_beats: &[f64],
    scroll_values: &[f64],
    fake_beats: &[f64],
    fake_lengths: &[f64],
) -> usize
    ensures fact { let lists : ChartColumns = record {
      tempos = list_columns tempo_beats.now tempo_values.now;
      stops = list_columns stop_beats.now stop_values.now;
      delays = list_columns delay_beats.now delay_values.now;
      warps = list_columns warp_beats.now warp_lengths.now;
      speeds = speed_columns speed_beats.now speed_ratios.now speed_delays.now speed_units.now;
      scrolls = list_columns scroll_beats.now scroll_values.now;
      fakes = list_columns fake_beats.now fake_lengths.now;
    } in
        Reported (report_text reading counts.now lists) result page.old page.new }
    ensures prefix_len { IsPrefixLen result page.new }
{
    let number = report_form::answer(reading, counts);
    if number != limits::TAKEN {
        return report_answer::write_refusal(page, number);
    }
    let tempos = report_form::count_of(counts, 2);
    let stops = report_form::count_of(counts, 3);
    let delays = report_form::count_of(counts, 4);
    let warps = report_form::count_of(counts, 5);
    let speeds = report_form::count_of(counts, 6);
    let scrolls = report_form::count_of(counts, 7);
    let fakes = report_form::count_of(counts, 8);
    let mut out_tempo_beats = [0.0f32; report_form::MOST_REPORTED];
    let mut out_tempo_values = [0.0f32; report_form::MOST_REPORTED];
    let mut out_stop_beats = [0.0f32; report_form::MOST_REPORTED];
    let mut out_stop_values = [0.0f32; report_form::MOST_REPORTED];
    let mut out_delay_beats = [0.0f32; report_form::MOST_REPORTED];
    let mut out_delay_values = [0.0f32; report_form::MOST_REPORTED];
    let mut out_warp_beats = [0.0f32; report_form::MOST_REPORTED];
    let mut out_warp_lengths = [0.0f32; report_form::MOST_REPORTED];
    let mut out_warp_marks = [tidy_warps::WRITTEN; report_form::MOST_REPORTED];
    let mut out_speed_beats = [0.0f32; report_form::MOST_REPORTED];
    let mut out_speed_ratios = [0.0f32; report_form::MOST_REPORTED];
    let mut out_speed_delays = [0.0f32; report_form::MOST_REPORTED];
    let mut out_speed_units = [0u8; report_form::MOST_REPORTED];
    let mut out_scroll_beats = [0.0f32; report_form::MOST_REPORTED];
    let mut out_scroll_values = [0.0f32; report_form::MOST_REPORTED];
    let mut out_fake_beats = [0.0f32; report_form::MOST_REPORTED];
    let mut out_fake_lengths = [0.0f32; report_form::MOST_REPORTED];
    let warps_read = report_form::front(warp_beats, warps);
    let written = [tidy_warps::WRITTEN; report_form::MOST_REPORTED];
    let done = assembly::compute_timing_segments(
        report_form::MOST_REPORTED,
        format_of(reading.ssc),
        report_form::front(tempo_beats, tempos),
        report_form::front(tempo_values, tempos),
        report_form::front(stop_beats, stops),
        report_form::front(stop_values, stops),
        report_form::front(delay_beats, delays),
        report_form::front(delay_values, delays),
        warps_read,
        report_form::front(warp_lengths, warps),
        report_answer::front_units(&written, warps_read.len()),
        report_form::front(speed_beats, speeds),
        report_form::front(speed_ratios, speeds),
        report_form::front(speed_delays, speeds),
        report_answer::front_units(speed_units, speeds),
        report_form::front(scroll_beats, scrolls),
        report_form::front(scroll_values, scrolls),
        report_form::front(fake_beats, fakes),
        report_form::front(fake_lengths, fakes),
        &mut out_tempo_beats,
        &mut out_tempo_values,
        &mut out_stop_beats,
        &mut out_stop_values,
        &mut out_delay_beats,
        &mut out_delay_values,
        &mut out_warp_beats,
        &mut out_warp_lengths,
        &mut out_warp_marks,
        &mut out_speed_beats,
        &mut out_speed_ratios,
        &mut out_speed_delays,
        &mut out_speed_units,
        &mut out_scroll_beats,
        &mut out_scroll_values,
        &mut out_fake_beats,
        &mut out_fake_lengths,
    );
    let warped = warped_of(&out_warp_beats, &out_warp_lengths, done.warps);
    let counted = done.moved;
    let moved = assembly::total_moved(counted);
    report_answer::write_answer(
        page,
        done.number,
        done.offset,
        warped,
        moved,
        done.tempos,
        done.stops,
        done.delays,
        done.warps,
        done.speeds,
        done.scrolls,
        done.fakes,
        &out_tempo_beats,
        &out_tempo_values,
        &out_stop_beats,
        &out_stop_values,
        &out_delay_beats,
        &out_delay_values,
        &out_warp_beats,
        &out_warp_lengths,
        &out_warp_marks,
        &out_speed_beats,
        &out_speed_ratios,
        &out_speed_delays,
        &out_speed_units,
        &out_scroll_beats,
        &out_scroll_values,
        &out_fake_beats,
        &out_fake_lengths,
    )
}
