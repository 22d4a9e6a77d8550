// The answer to standard input: the scrolls and speeds of a chart's raw lists mended, with what became of each of their entries.
#![tactic(auto)]

ghost use Rattle.io.specs.Counts.{IsPrefixLen};
ghost use Rattle.mend_stdin.specs.Input.{MendOfSome};

// Reads standard input, to its end or as many bytes as `most`, and writes the answer to it from the page's first byte on. How many bytes that has.
// Lists that are passed over are lent no room for what they hold.
pub fn write_input(rt: &HostRuntime, page: &mut [u8], most: usize) -> usize
    ensures mend_of_some { MendOfSome result page.old page.new }
    ensures prefix_len { IsPrefixLen result page.new }
{
    let mut counts = [0u64; report_form::COUNTS];
    let mut tempo_beats = [0.0; 1];
    let mut tempo_values = [0.0; 1];
    let mut stop_beats = [0.0; 1];
    let mut stop_values = [0.0; 1];
    let mut delay_beats = [0.0; 1];
    let mut delay_values = [0.0; 1];
    let mut warp_beats = [0.0; 1];
    let mut warp_lengths = [0.0; 1];
    let mut speed_beats = [0.0; report_form::MOST_REPORTED];
    let mut speed_ratios = [0.0; report_form::MOST_REPORTED];
    let mut speed_delays = [0.0; report_form::MOST_REPORTED];
    let mut speed_units = [0u8; report_form::MOST_REPORTED];
    let mut scroll_beats = [0.0; report_form::MOST_REPORTED];
    let mut scroll_values = [0.0; report_form::MOST_REPORTED];
    let mut fake_beats = [0.0; 1];
    let mut fake_lengths = [0.0; 1];
    let reading = report_stdin::read_all(
        rt,
        &mut counts,
        &mut tempo_beats,
        &mut tempo_values,
        &mut stop_beats,
        &mut stop_values,
        &mut delay_beats,
        &mut delay_values,
        &mut warp_beats,
        &mut warp_lengths,
        &mut speed_beats,
        &mut speed_ratios,
        &mut speed_delays,
        &mut speed_units,
        &mut scroll_beats,
        &mut scroll_values,
        &mut fake_beats,
        &mut fake_lengths,
        most,
    );
    mend_text::write_mended(
        page,
        reading,
        &counts,
        &speed_beats,
        &speed_ratios,
        &speed_delays,
        &speed_units,
        &scroll_beats,
        &scroll_values,
    )
}
