// Assembly of scrolls: beats quantised, tidied, and written as f32.
#![tactic(auto)]

ghost use Rattle.std.specs.Prelude.{◌≡◌, map, ◌≤◌, length};
ghost use Rattle.rows.specs.Rows.{quantized};
ghost use Rattle.columns_each.specs.OffGrid.{moved_in, moved_under};
ghost use Rattle.assembly_scrolls.specs.AssembledScrolls.{rise_apart, ScrollsAssembled, ScrollsUntested, scrolls_room_number, scrolls_later};

use assembly_rows::Meaning;
use columns::Outcome;
use columns_each::ListOutcome;

// By way of columns as long as the beats.
fn assemble_in(
    beats: &[f64],
    values: &[f64],
    work_beats: &mut [f64],
    tidy_beats: &mut [f64],
    tidy_values: &mut [f64],
    out_beats: &mut [f32],
    out_values: &mut [f32],
) -> Outcome
    requires { (length work_beats.old ≡ length beats.now) × (length tidy_beats.old ≡ length beats.now) × (length tidy_values.old ≡ length beats.now) }
    ensures { ScrollsAssembled beats.now values.now result out_beats.old out_beats.new out_values.old out_values.new }
{
    columns_each::quantize_column(beats, work_beats);
    let tidied = tidy_scrolls::tidy_scroll_segments(work_beats, values, tidy_beats, tidy_values);
    assembly_rows::lay_narrowed(
        tidied.number,
        tidied.count,
        tidy_beats,
        tidy_values,
        out_beats,
        out_values,
    )
}

// Columns for as many entries as a chart has.
fn assemble_few(
    beats: &[f64],
    values: &[f64],
    out_beats: &mut [f32],
    out_values: &mut [f32],
) -> Outcome
    requires { length beats.now ≤ 64 }
    ensures { ScrollsAssembled beats.now values.now result out_beats.old out_beats.new out_values.old out_values.new }
{
    let n = beats.len();
    let mut work_beats = [0.0; limits::FEW];
    let mut tidy_beats = [0.0; limits::FEW];
    let mut tidy_values = [0.0; limits::FEW];
    assemble_in(
        beats,
        values,
        &mut work_beats[..n],
        &mut tidy_beats[..n],
        &mut tidy_values[..n],
        out_beats,
        out_values,
    )
}

// Columns for as many as are taken.
fn assemble_many(
    beats: &[f64],
    values: &[f64],
    out_beats: &mut [f32],
    out_values: &mut [f32],
) -> Outcome
    requires { length beats.now ≤ 1024 }
    ensures { ScrollsAssembled beats.now values.now result out_beats.old out_beats.new out_values.old out_values.new }
{
    let n = beats.len();
    let mut work_beats = [0.0; limits::MOST_ENTRIES];
    let mut tidy_beats = [0.0; limits::MOST_ENTRIES];
    let mut tidy_values = [0.0; limits::MOST_ENTRIES];
    assemble_in(
        beats,
        values,
        &mut work_beats[..n],
        &mut tidy_beats[..n],
        &mut tidy_values[..n],
        out_beats,
        out_values,
    )
}

fn assemble_any(
    beats: &[f64],
    values: &[f64],
    out_beats: &mut [f32],
    out_values: &mut [f32],
) -> Outcome
    requires { length beats.now ≤ 1024 }
    ensures { ScrollsAssembled beats.now values.now result out_beats.old out_beats.new out_values.old out_values.new }
{
    if beats.len() <= limits::FEW {
        return assemble_few(beats, values, out_beats, out_values);
    }
    assemble_many(beats, values, out_beats, out_values)
}

// ---- where quantised beats rise and no value is near the one before it, each is written by itself. No number is tested

// Whether each beat is below the next, and no value near the one before it.
pub fn rise_apart(beats: &[f32], values: &[f64]) -> bool
    ensures { result ≡ rise_apart beats.now values.now }
{
    if columns_order::rise(beats) {
        return tidy_kept::all_apart(values);
    }
    false
}

fn assemble_quantised(
    beats: &[f64],
    values: &[f64],
    quantised: &[f32],
    out_beats: &mut [f32],
    out_values: &mut [f32],
) -> Outcome
    requires { (length beats.now ≤ 1024) × (length values.now ≡ length beats.now) × (quantised.now ≡ map quantized beats.now) }
    ensures { ScrollsUntested beats.now values.now result out_beats.old out_beats.new out_values.old out_values.new }
{
    if rise_apart(quantised, values) {
        return assembly_rows::lay_each(quantised, values, Meaning::Values, out_beats, out_values);
    }
    assemble_any(beats, values, out_beats, out_values)
}

fn assemble_by(
    beats: &[f64],
    values: &[f64],
    quantised: &mut [f32],
    out_beats: &mut [f32],
    out_values: &mut [f32],
) -> ListOutcome
    requires { (length beats.now ≤ 1024) × (length values.now ≡ length beats.now) × (length quantised.old ≡ length beats.now) }
    ensures scrolls_untested { ScrollsUntested beats.now values.now result.outcome out_beats.old out_beats.new out_values.old out_values.new }
    ensures moved_value { result.moved ≡ moved_under result.outcome.number (moved_in beats.now) }
{
    let off = columns_each::quantize_beats(beats, quantised);
    let outcome = assemble_quantised(beats, values, quantised, out_beats, out_values);
    columns_each::with_moved(outcome, off)
}

fn assemble_by_few(
    beats: &[f64],
    values: &[f64],
    out_beats: &mut [f32],
    out_values: &mut [f32],
) -> ListOutcome
    requires { (length beats.now ≤ 64) × (length values.now ≡ length beats.now) }
    ensures scrolls_untested { ScrollsUntested beats.now values.now result.outcome out_beats.old out_beats.new out_values.old out_values.new }
    ensures moved_value { result.moved ≡ moved_under result.outcome.number (moved_in beats.now) }
{
    let n = beats.len();
    let mut quantised = [0.0f32; limits::FEW];
    assemble_by(beats, values, &mut quantised[..n], out_beats, out_values)
}

fn assemble_by_many(
    beats: &[f64],
    values: &[f64],
    out_beats: &mut [f32],
    out_values: &mut [f32],
) -> ListOutcome
    requires { (length beats.now ≤ 1024) × (length values.now ≡ length beats.now) }
    ensures scrolls_untested { ScrollsUntested beats.now values.now result.outcome out_beats.old out_beats.new out_values.old out_values.new }
    ensures moved_value { result.moved ≡ moved_under result.outcome.number (moved_in beats.now) }
{
    let n = beats.len();
    let mut quantised = [0.0f32; limits::MOST_ENTRIES];
    assemble_by(beats, values, &mut quantised[..n], out_beats, out_values)
}

// ---- the calls

// The assembled scrolls over the fronts of both rooms, and how many.
// Refused with 1, 2, 3, 4 or 6 for what tidying is given, and with 7 where they do not fit.
pub fn assemble_scrolls(
    beats: &[f64],
    values: &[f64],
    out_beats: &mut [f32],
    out_values: &mut [f32],
) -> Outcome
    ensures { ScrollsAssembled beats.now values.now result out_beats.old out_beats.new out_values.old out_values.new }
{
    if beats.len() <= limits::MOST_ENTRIES {
        return assemble_any(beats, values, out_beats, out_values);
    }
    columns::refused(limits::TOO_LONG)
}

// Scrolls as they are where quantised beats rise and no value is near the one before it, and as `assemble_scrolls` has them where that is not so.
// For a list that is known to be taken both are the same. With it comes how many of its beats, as they were given, were off the grid.
pub fn assemble_untested(
    beats: &[f64],
    values: &[f64],
    out_beats: &mut [f32],
    out_values: &mut [f32],
) -> ListOutcome
    ensures scrolls_untested { ScrollsUntested beats.now values.now result.outcome out_beats.old out_beats.new out_values.old out_values.new }
    ensures moved_value { result.moved ≡ moved_under result.outcome.number (moved_in beats.now) }
{
    if beats.len() != values.len() {
        let refused = assemble_scrolls(beats, values, out_beats, out_values);
        return columns_each::with_moved(refused, 0);
    }
    if beats.len() <= limits::FEW {
        return assemble_by_few(beats, values, out_beats, out_values);
    }
    if beats.len() <= limits::MOST_ENTRIES {
        return assemble_by_many(beats, values, out_beats, out_values);
    }
    let refused = assemble_scrolls(beats, values, out_beats, out_values);
    columns_each::with_moved(refused, 0)
}

fn number_in(beats: &[f64], values: &[f64], room: usize) -> u32
    ensures { result ≡ scrolls_room_number beats.now values.now room }
{
    if beats.len() > limits::MOST_ENTRIES {
        return limits::TOO_LONG;
    }
    let n = columns::room_of(room, limits::MOST_ENTRIES);
    let mut beat_room = [0.0f32; limits::MOST_ENTRIES];
    let mut value_room = [0.0f32; limits::MOST_ENTRIES];
    let outcome = assemble_scrolls(beats, values, &mut beat_room[..n], &mut value_room[..n]);
    outcome.number
}

// What `assemble_scrolls` answers where the shorter room has a length. Where that is no less than the list's and no beat is above the next it is 0 at once,
// as it is of every such list that is taken: no number is tested.
pub fn scrolls_number(beats: &[f64], values: &[f64], room: usize) -> u32
    ensures { result ≡ scrolls_later beats.now values.now room }
{
    if beats.len() > room {
        return number_in(beats, values, room);
    }
    if columns_order::never_fall(beats) {
        return limits::TAKEN;
    }
    number_in(beats, values, room)
}
