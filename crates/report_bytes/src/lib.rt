// The report of an input that is there as a whole: bytes in, bytes out.
#![tactic(auto)]

ghost use Rattle.io.specs.Counts.{IsPrefixLen};
ghost use Rattle.report_whole.specs.Whole.{report_of, Reported};

// Writes the report of an input's bytes, from the page's first byte on, and answers how many bytes it has. A page of 45,400 bytes holds
// every report; a shorter one holds its beginning.
pub fn report_of(page: &mut [u8], input: &[u8]) -> usize
    ensures reported { Reported (report_of input.now) result page.old page.new }
    ensures prefix_len { IsPrefixLen result page.new }
{
    let mut counts = [0u64; report_form::COUNTS];
    let mut tempo_beats = [0.0; report_form::MOST_REPORTED];
    let mut tempo_values = [0.0; report_form::MOST_REPORTED];
    let mut stop_beats = [0.0; report_form::MOST_REPORTED];
    let mut stop_values = [0.0; report_form::MOST_REPORTED];
    let mut delay_beats = [0.0; report_form::MOST_REPORTED];
    let mut delay_values = [0.0; report_form::MOST_REPORTED];
    let mut warp_beats = [0.0; report_form::MOST_REPORTED];
    let mut warp_lengths = [0.0; report_form::MOST_REPORTED];
    let mut speed_beats = [0.0; report_form::MOST_REPORTED];
    let mut speed_ratios = [0.0; report_form::MOST_REPORTED];
    let mut speed_delays = [0.0; report_form::MOST_REPORTED];
    let mut speed_units = [0u8; report_form::MOST_REPORTED];
    let mut scroll_beats = [0.0; report_form::MOST_REPORTED];
    let mut scroll_values = [0.0; report_form::MOST_REPORTED];
    let mut fake_beats = [0.0; report_form::MOST_REPORTED];
    let mut fake_lengths = [0.0; report_form::MOST_REPORTED];
    let reading = report_feed::feed(
        report_form::begin(),
        input,
        &mut counts,
        &mut tempo_beats,
        &mut tempo_values,
        &mut stop_beats,
        &mut stop_values,
        &mut delay_beats,
        &mut delay_values,
        &mut warp_beats,
        &mut warp_lengths,
        &mut speed_beats,
        &mut speed_ratios,
        &mut speed_delays,
        &mut speed_units,
        &mut scroll_beats,
        &mut scroll_values,
        &mut fake_beats,
        &mut fake_lengths,
    );
    report_whole::write_report(
        page,
        reading,
        &counts,
        &tempo_beats,
        &tempo_values,
        &stop_beats,
        &stop_values,
        &delay_beats,
        &delay_values,
        &warp_beats,
        &warp_lengths,
        &speed_beats,
        &speed_ratios,
        &speed_delays,
        &speed_units,
        &scroll_beats,
        &scroll_values,
        &fake_beats,
        &fake_lengths,
    )
}
