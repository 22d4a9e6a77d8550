// Assembly of a list of beats and values: beats quantised, values too where they are lengths, tidied by row, and written as f32.
#![tactic(auto)]

ghost use Rattle.std.specs.Prelude.{◌≡◌, false, map, reverse, ◌≤◌, ◌<◌, eqb, length, Float};
ghost use Rattle.ieee.specs.Narrowing.{narrow};
ghost use Rattle.picks.specs.Pick.{pick};
ghost use Rattle.rows.specs.Rows.{quantized};
ghost use Rattle.columns.specs.Each.{laid_each};
ghost use Rattle.columns.specs.Laying.{LaidPair};
ghost use Rattle.tidy_rows.specs.RowTidying.{rows_number};
ghost use Rattle.columns_order.specs.Falling.{falling};
ghost use Rattle.columns_each.specs.OffGrid.{moved_in, moved_under};
ghost use Rattle.assembly_rows.specs.AssembledRows.{change_by, narrowed_front, each_by_itself, EachLaid, RowsAssembled, RowsUntested, rows_fit_in};
ghost use Rattle.limits.specs.Neighbours.{every_two};

use columns::Outcome;
use columns_each::ListOutcome;
use limits::Kind;

// What the values of a list are: lengths, which are moved to whole rows as beats are, or values that stay as they are.
#[derive(Clone, Copy)]
pub enum Meaning {
    Lengths,
    Values,
}

// ---- columns

fn change_column(meaning: Meaning, from: &[f64], to: &mut [f64])
    ensures { to.new ≡ laid_each (change_by meaning) from.now to.old }
{
    match meaning {
        Meaning::Lengths => columns_each::quantize_column(from, to),
        Meaning::Values => columns::copy(from, to),
    }
}

fn change_column_f32(meaning: Meaning, from: &[f64], to: &mut [f32])
    ensures { to.new ≡ laid_each (λ (x : Float). narrow (change_by meaning x)) from.now to.old }
{
    match meaning {
        Meaning::Lengths => columns_each::quantize_column_f32(from, to),
        Meaning::Values => columns_each::narrow_column(from, to),
    }
}

// A result of two columns as f32: its first entries over the fronts of the rooms, or the number it was refused by, or 7 where the rooms are too short.
pub fn lay_narrowed(
    number: u32,
    count: usize,
    firsts: &[f64],
    seconds: &[f64],
    out_firsts: &mut [f32],
    out_seconds: &mut [f32],
) -> Outcome
    ensures { let front = narrowed_front count firsts.now seconds.now in
        LaidPair number front result out_firsts.old out_firsts.new out_seconds.old out_seconds.new }
{
    if number != limits::TAKEN {
        return columns::refused(number);
    }
    let given = columns::room_of(firsts.len(), seconds.len());
    let n = columns::room_of(count, given);
    if n > columns::room_of(out_firsts.len(), out_seconds.len()) {
        return columns::refused(limits::NO_ROOM);
    }
    columns_each::narrow_column(&firsts[..n], out_firsts);
    columns_each::narrow_column(&seconds[..n], out_seconds);
    Outcome {
        number: limits::TAKEN,
        count: n,
    }
}

// ---- any other list: by way of columns that are as long as it is

fn assemble_in(
    beats: &[f64],
    values: &[f64],
    meaning: Meaning,
    work_beats: &mut [f64],
    work_values: &mut [f64],
    tidy_beats: &mut [f64],
    tidy_values: &mut [f64],
    out_beats: &mut [f32],
    out_values: &mut [f32],
) -> Outcome
    requires values_len { (length values.now ≡ length beats.now) × (length work_beats.old ≡ length beats.now) × (length work_values.old ≡ length beats.now) }
    requires tidy_beats_len { (length tidy_beats.old ≡ length beats.now) × (length tidy_values.old ≡ length beats.now) }
    ensures { RowsAssembled meaning beats.now values.now result
        out_beats.old out_beats.new out_values.old out_values.new }
{
    columns_each::quantize_column(beats, work_beats);
    change_column(meaning, values, work_values);
    let tidied = tidy_rows::tidy_row_segments(work_beats, work_values, tidy_beats, tidy_values);
    lay_narrowed(
        tidied.number,
        tidied.count,
        tidy_beats,
        tidy_values,
        out_beats,
        out_values,
    )
}

// A chart's lists are mostly short, so few entries have columns of their own: clearing them costs little.
fn assemble_any(
    beats: &[f64],
    values: &[f64],
    meaning: Meaning,
    out_beats: &mut [f32],
    out_values: &mut [f32],
) -> Outcome
    requires { (length values.now ≡ length beats.now) × (length beats.now ≤ 1024) }
    ensures { RowsAssembled meaning beats.now values.now result
        out_beats.old out_beats.new out_values.old out_values.new }
{
    let n = beats.len();
    if n <= limits::FEW {
        let mut work_beats = [0.0; limits::FEW];
        let mut work_values = [0.0; limits::FEW];
        let mut tidy_beats = [0.0; limits::FEW];
        let mut tidy_values = [0.0; limits::FEW];
        return assemble_in(
            beats,
            values,
            meaning,
            &mut work_beats[..n],
            &mut work_values[..n],
            &mut tidy_beats[..n],
            &mut tidy_values[..n],
            out_beats,
            out_values,
        );
    }
    let mut work_beats = [0.0; limits::MOST_ENTRIES];
    let mut work_values = [0.0; limits::MOST_ENTRIES];
    let mut tidy_beats = [0.0; limits::MOST_ENTRIES];
    let mut tidy_values = [0.0; limits::MOST_ENTRIES];
    assemble_in(
        beats,
        values,
        meaning,
        &mut work_beats[..n],
        &mut work_values[..n],
        &mut tidy_beats[..n],
        &mut tidy_values[..n],
        out_beats,
        out_values,
    )
}

// ---- lists of one length: where quantised beats rise each number is written by itself, and none is tested; where they fall, of a list that is taken, the same turned round

// Quantised beats over the front of one room, and each value by itself, as f32, over the front of the other: 2 where they are not as many, 7 where they do not fit.
pub fn lay_each(
    quantised: &[f32],
    values: &[f64],
    meaning: Meaning,
    out_beats: &mut [f32],
    out_values: &mut [f32],
) -> Outcome
    ensures { EachLaid meaning quantised.now values.now result
        out_beats.old out_beats.new out_values.old out_values.new }
{
    let count = quantised.len();
    if count != values.len() {
        return columns::refused(limits::UNEVEN);
    }
    if count > columns::room_of(out_beats.len(), out_values.len()) {
        return columns::refused(limits::NO_ROOM);
    }
    columns::copy(quantised, out_beats);
    change_column_f32(meaning, values, out_values);
    Outcome {
        number: limits::TAKEN,
        count: count,
    }
}

// The same of as many values as beats, the last first: both fronts are turned round in their place.
fn lay_turned(
    quantised: &[f32],
    values: &[f64],
    meaning: Meaning,
    out_beats: &mut [f32],
    out_values: &mut [f32],
) -> Outcome
    requires { length quantised.now ≡ length values.now }
    ensures { let turned = reverse (each_by_itself meaning quantised.now values.now) in
        LaidPair 0 turned result out_beats.old out_beats.new out_values.old out_values.new }
{
    let outcome = lay_each(quantised, values, meaning, out_beats, out_values);
    out_beats[..outcome.count].reverse();
    out_values[..outcome.count].reverse();
    outcome
}

// Whether quantised beats fall, of a list that is taken: the assembled list is then what is given, turned round.
fn falls_and_taken(beats: &[f64], values: &[f64], quantised: &[f32]) -> bool
    ensures { let tests = rows_number beats.now values.now in
        result ≡ pick (every_two falling quantised.now) (eqb tests 0) false }
{
    if columns_order::falls_throughout(quantised) {
        return limits::list_number(Kind::Beat, Kind::Value, beats, values) == limits::TAKEN;
    }
    false
}

fn assemble_quantised(
    beats: &[f64],
    values: &[f64],
    meaning: Meaning,
    quantised: &[f32],
    out_beats: &mut [f32],
    out_values: &mut [f32],
) -> Outcome
    requires { (length values.now ≡ length beats.now) × (length beats.now ≤ 1024) × (quantised.now ≡ map quantized beats.now) }
    ensures { RowsUntested meaning beats.now values.now result
        out_beats.old out_beats.new out_values.old out_values.new }
{
    if columns_order::rise(quantised) {
        return lay_each(quantised, values, meaning, out_beats, out_values);
    }
    if falls_and_taken(beats, values, quantised) {
        return lay_turned(quantised, values, meaning, out_beats, out_values);
    }
    assemble_any(beats, values, meaning, out_beats, out_values)
}

fn assemble_even(
    beats: &[f64],
    values: &[f64],
    meaning: Meaning,
    quantised: &mut [f32],
    out_beats: &mut [f32],
    out_values: &mut [f32],
) -> ListOutcome
    requires { (length values.now ≡ length beats.now) × (length beats.now ≤ 1024) × (length quantised.old ≡ length beats.now) }
    ensures rows_untested { RowsUntested meaning beats.now values.now result.outcome
        out_beats.old out_beats.new out_values.old out_values.new }
    ensures moved_value { result.moved ≡ moved_under result.outcome.number (moved_in beats.now) }
{
    let off = columns_each::quantize_beats(beats, quantised);
    let outcome = assemble_quantised(beats, values, meaning, quantised, out_beats, out_values);
    columns_each::with_moved(outcome, off)
}

// ---- the calls

// A list as it is where its quantised beats rise, and as `assemble_rows` has it where they do not.
// For a list that is known to be taken both are the same. With it comes how many of its beats, as they were given, were off the grid.
pub fn assemble_untested(
    beats: &[f64],
    values: &[f64],
    meaning: Meaning,
    out_beats: &mut [f32],
    out_values: &mut [f32],
) -> ListOutcome
    ensures rows_untested { RowsUntested meaning beats.now values.now result.outcome
        out_beats.old out_beats.new out_values.old out_values.new }
    ensures moved_value { result.moved ≡ moved_under result.outcome.number (moved_in beats.now) }
{
    if beats.len() != values.len() {
        let number = limits::list_number(Kind::Beat, Kind::Value, beats, values);
        return columns_each::with_moved(columns::refused(number), 0);
    }
    let n = beats.len();
    if n <= limits::FEW {
        let mut quantised = [0.0f32; limits::FEW];
        return assemble_even(
            beats,
            values,
            meaning,
            &mut quantised[..n],
            out_beats,
            out_values,
        );
    }
    if n <= limits::MOST_ENTRIES {
        let mut quantised = [0.0f32; limits::MOST_ENTRIES];
        return assemble_even(
            beats,
            values,
            meaning,
            &mut quantised[..n],
            out_beats,
            out_values,
        );
    }
    columns_each::with_moved(columns::refused(limits::TOO_LONG), 0)
}

// The assembled list over the fronts of both rooms, and its length.
// Refused with 1, 2, 3 or 4 for what tidying is given, and with 7 where the list does not fit.
pub fn assemble_rows(
    beats: &[f64],
    values: &[f64],
    meaning: Meaning,
    out_beats: &mut [f32],
    out_values: &mut [f32],
) -> Outcome
    ensures { RowsAssembled meaning beats.now values.now result
        out_beats.old out_beats.new out_values.old out_values.new }
{
    let number = limits::list_number(Kind::Beat, Kind::Value, beats, values);
    if number == limits::TAKEN {
        return assemble_untested(beats, values, meaning, out_beats, out_values).outcome;
    }
    if number == limits::TOO_LONG {
        return columns::refused(limits::TOO_LONG);
    }
    if number == limits::UNEVEN {
        return columns::refused(limits::UNEVEN);
    }
    assemble_any(beats, values, meaning, out_beats, out_values)
}

fn fits_below(beats: &[f64], values: &[f64], meaning: Meaning, room: usize) -> bool
    requires { (room < length beats.now) × (length beats.now ≤ 1024) }
    ensures { result ≡ rows_fit_in meaning beats.now values.now room }
{
    let mut beat_room = [0.0f32; limits::MOST_ENTRIES];
    let mut value_room = [0.0f32; limits::MOST_ENTRIES];
    let outcome = assemble_rows(
        beats,
        values,
        meaning,
        &mut beat_room[..room],
        &mut value_room[..room],
    );
    outcome.number == limits::TAKEN
}

// Whether a list fits into rooms of a length: yes at once where they hold all that is given, and otherwise where `assemble_rows` would take it.
// Nothing is tested in the first case, so it is asked of lists that are known to be taken.
pub fn rows_fit(beats: &[f64], values: &[f64], meaning: Meaning, room: usize) -> bool
    ensures { result ≡ rows_fit_in meaning beats.now values.now room }
{
    if beats.len() <= room {
        return true;
    }
    if beats.len() > limits::MOST_ENTRIES {
        return false;
    }
    fits_below(beats, values, meaning, room)
}
