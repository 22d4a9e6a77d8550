// The report program: raw lists of a chart on standard input, the timing lists that come of them on standard output.
// The input is read in pieces to its end, and only then is anything written, all of it at once; an input that cannot be read to its end is
// refused, and a write that fails ends the program.
#![tactic(auto)]

ghost use Rattle.io.specs.Counts.{IsPrefixLen};
ghost use Rattle.report.specs.Input.{ReportOfSome};

use report_form::Reading;
use std::io::Print;

// The bytes of the page, on which every report has room.
const PAGE: usize = 65536;

// Reads all of standard input and writes its report on the page.
fn write_input(rt: &HostRuntime, page: &mut [u8]) -> usize
    ensures report_of_some { ReportOfSome result page.old page.new }
    ensures prefix_len { IsPrefixLen result page.new }
{
    let mut counts = [0u64; report_form::COUNTS];
    let mut tempo_beats = [0.0; report_form::MOST_REPORTED];
    let mut tempo_values = [0.0; report_form::MOST_REPORTED];
    let mut stop_beats = [0.0; report_form::MOST_REPORTED];
    let mut stop_values = [0.0; report_form::MOST_REPORTED];
    let mut delay_beats = [0.0; report_form::MOST_REPORTED];
    let mut delay_values = [0.0; report_form::MOST_REPORTED];
    let mut warp_beats = [0.0; report_form::MOST_REPORTED];
    let mut warp_lengths = [0.0; report_form::MOST_REPORTED];
    let mut speed_beats = [0.0; report_form::MOST_REPORTED];
    let mut speed_ratios = [0.0; report_form::MOST_REPORTED];
    let mut speed_delays = [0.0; report_form::MOST_REPORTED];
    let mut speed_units = [0u8; report_form::MOST_REPORTED];
    let mut scroll_beats = [0.0; report_form::MOST_REPORTED];
    let mut scroll_values = [0.0; report_form::MOST_REPORTED];
    let mut fake_beats = [0.0; report_form::MOST_REPORTED];
    let mut fake_lengths = [0.0; report_form::MOST_REPORTED];
    let reading: Reading = report_stdin::read_all(
        rt,
        &mut counts,
        &mut tempo_beats,
        &mut tempo_values,
        &mut stop_beats,
        &mut stop_values,
        &mut delay_beats,
        &mut delay_values,
        &mut warp_beats,
        &mut warp_lengths,
        &mut speed_beats,
        &mut speed_ratios,
        &mut speed_delays,
        &mut speed_units,
        &mut scroll_beats,
        &mut scroll_values,
        &mut fake_beats,
        &mut fake_lengths,
        usize::MAX,
    );
    report_whole::write_report(
        page,
        reading,
        &counts,
        &tempo_beats,
        &tempo_values,
        &stop_beats,
        &stop_values,
        &delay_beats,
        &delay_values,
        &warp_beats,
        &warp_lengths,
        &speed_beats,
        &speed_ratios,
        &speed_delays,
        &speed_units,
        &scroll_beats,
        &scroll_values,
        &fake_beats,
        &fake_lengths,
    )
}

fn main(rt: HostRuntime) -> std::io::Result<()> {
    let mut page = [0u8; PAGE];
    let length = write_input(&rt, &mut page);
    rt.write_all(&page[..length])
}
