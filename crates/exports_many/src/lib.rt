// The calls that draw many notes at once, under C names. They stand apart from those that ask for one, so that each has the search to itself and the compiler lays it into the loop.
#![tactic(auto)]

ghost use Rattle.notes_displayed.specs.Answers.{BeatsDisplayed};

use columns::Outcome;

// Where each of many beats is drawn, after one test of the scrolls.
#[unsafe(no_mangle)]
pub extern "C" fn marrighentu_get_displayed_beats(
    scroll_beats: &[f32],
    scroll_ratios: &[f32],
    beats: &[f64],
    numbers: &mut [u32],
    positions: &mut [f64],
) -> Outcome
    ensures { BeatsDisplayed scroll_beats.now scroll_ratios.now beats.now result
        numbers.old numbers.new positions.old positions.new }
{
    notes_displayed::get_displayed_beats(scroll_beats, scroll_ratios, beats, numbers, positions)
}
