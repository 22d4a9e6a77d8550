// Assembly of tempos, stops and warps: processed by format, the made warps behind the given ones, tidied, and written as f32; each warp keeps its mark.
#![tactic(auto)]

ghost use Rattle.std.specs.Prelude.{◌≡◌, true, false, map, ◌≤◌, min, length, Float};
ghost use Rattle.rows.specs.Rows.{quantized};
ghost use Rattle.ieee.specs.Narrowing.{narrow};
ghost use Rattle.limits.specs.Numbers.{every};
ghost use Rattle.columns.specs.Each.{laid_each};
ghost use Rattle.columns_each.specs.OffGrid.{moved_in};
ghost use Rattle.tidy_rows.specs.RowTidying.{rows_number};
ghost use Rattle.assembly_rows.specs.AssembledRows.{RowsUntested};
ghost use Rattle.process_raw.specs.LentLists.{three_columns, lent_three, three_before, three_after};
ghost use Rattle.assembly_warps.specs.MergedWarps.{three_number, merged_lists};
ghost use Rattle.assembly_marks.specs.AssembledMarks.{merged_marks};
ghost use Rattle.assembly_marks.specs.LentMarks.{lent_marks, with_made};
ghost use Rattle.assembly_tempos.specs.AssembledTempos.{three_rooms, raw_with, made_warps, ThreeLaid};
ghost use Rattle.assembly_tempos.specs.inside.Refusal.{nothing_assembled};
ghost use Rattle.assembly_tempos.specs.inside.ProcessedColumns.{held_f32, Held, Processed, MarksBeside, WarpsFit, WarpsWritten, lists_of, WorkRooms};

use assembly_rows::Meaning;
use chart::TimingFormat;
use columns::Outcome;
use columns_each::ListOutcome;

// The refusal number of all lists, 0 where they are taken, how many entries of each list were written, the seconds that beat 0 is moved by, and how many warps
// were off the grid.
#[repr(C)]
#[derive(Clone, Copy)]
pub struct AssembledTempos {
    pub number: u32,
    pub tempos: usize,
    pub stops: usize,
    pub warps: usize,
    pub offset: f32,
    pub moved: u32,
}

fn refused(number: u32) -> AssembledTempos
    ensures { result ≡ nothing_assembled number }
{
    AssembledTempos {
        number: number,
        tempos: 0,
        stops: 0,
        warps: 0,
        offset: 0.0,
        moved: 0,
    }
}

// ---- processed lists into their rooms

fn rooms_number(
    tempo_beats: &[f64],
    tempo_values: &[f64],
    stop_beats: &[f64],
    stop_values: &[f64],
    warp_beats: &[f64],
    warp_lengths: &[f64],
    tempo_room: usize,
    stop_room: usize,
    warp_room: usize,
) -> u32
    requires { let columns = three_columns
        tempo_beats.now tempo_values.now
        stop_beats.now stop_values.now
        warp_beats.now warp_lengths.now in
        Processed columns × (length warp_beats.now ≤ 1024) }
    ensures { let columns = three_columns
        tempo_beats.now tempo_values.now
        stop_beats.now stop_values.now
        warp_beats.now warp_lengths.now in
        ((offset : Float) → result ≡ three_rooms (lists_of columns offset) tempo_room stop_room warp_room) }
{
    let tempos = limits::no_room(tempo_beats.len() <= tempo_room);
    let stops = limits::no_room(assembly_rows::rows_fit(
        stop_beats,
        stop_values,
        Meaning::Values,
        stop_room,
    ));
    let warps = limits::no_room(assembly_rows::rows_fit(
        warp_beats,
        warp_lengths,
        Meaning::Lengths,
        warp_room,
    ));
    limits::lower_of(limits::lower_of(tempos, stops), warps)
}

// ---- tempos and stops: beats are on rows, each an f32 already, and so are SM's values

// Each number as an f32, in which it loses nothing.
fn cast_column(from: &[f64], to: &mut [f32])
    requires { every held_f32 from.now ≡ true }
    ensures { to.new ≡ laid_each (λ (x : Float). x) from.now to.old }
{
    let n = columns::room_of(from.len(), to.len());
    for (i, &number) in from[..n].iter().enumerate() {
        to[i] = number as f32;
    }
}

// Each value as an f32.
fn narrow_values(format: TimingFormat, from: &[f64], to: &mut [f32])
    requires { Held format from.now }
    ensures { to.new ≡ laid_each narrow from.now to.old }
{
    match format {
        TimingFormat::Sm => cast_column(from, to),
        TimingFormat::Ssc => columns_each::narrow_column(from, to),
    }
}

// As `assembly_rows::assemble_untested`, which quantises.
fn assemble_stops(
    format: TimingFormat,
    beats: &[f64],
    values: &[f64],
    out_beats: &mut [f32],
    out_values: &mut [f32],
) -> Outcome
    requires { (rows_number beats.now values.now ≡ 0) × (map quantized beats.now ≡ beats.now) × Held format values.now }
    ensures { RowsUntested Meaning.Values beats.now values.now result out_beats.old out_beats.new out_values.old out_values.new }
{
    if beats.len() > columns::room_of(out_beats.len(), out_values.len()) {
        return assembly_rows::assemble_untested(
            beats,
            values,
            Meaning::Values,
            out_beats,
            out_values,
        ).outcome;
    }
    if columns_order::rise(beats) {
        cast_column(beats, out_beats);
        narrow_values(format, values, out_values);
        return Outcome {
            number: limits::TAKEN,
            count: beats.len(),
        };
    }
    assembly_rows::assemble_untested(beats, values, Meaning::Values, out_beats, out_values).outcome
}

// ---- warps with their marks

// Of a list that is taken and fits: quantised, tidied with its marks, and written as f32. By way of columns as long as it is.
fn lay_tidied(
    beats: &[f64],
    lengths: &[f64],
    marks: &[u8],
    off: u32,
    work_beats: &mut [f64],
    work_lengths: &mut [f64],
    tidy_beats: &mut [f64],
    tidy_lengths: &mut [f64],
    out_beats: &mut [f32],
    out_lengths: &mut [f32],
    out_marks: &mut [u8],
) -> ListOutcome
    requires warps_fit { WarpsFit beats.now lengths.now marks.now (length out_beats.old) (length out_lengths.old) (length out_marks.old) }
    requires off_value { (off ≡ moved_in beats.now) × (length work_beats.old ≡ length beats.now) × (length work_lengths.old ≡ length beats.now) }
    requires tidy_beats_len { (length tidy_beats.old ≡ length beats.now) × (length tidy_lengths.old ≡ length beats.now) }
    ensures { WarpsWritten beats.now lengths.now marks.now result
        out_beats.old out_beats.new out_lengths.old out_lengths.new
        out_marks.old out_marks.new }
{
    columns_each::quantize_column(beats, work_beats);
    columns_each::quantize_column(lengths, work_lengths);
    let tidied = tidy_warps::tidy_warp_segments(
        work_beats,
        work_lengths,
        marks,
        tidy_beats,
        tidy_lengths,
        out_marks,
    );
    let outcome = assembly_rows::lay_narrowed(
        tidied.number,
        tidied.count,
        tidy_beats,
        tidy_lengths,
        out_beats,
        out_lengths,
    );
    columns_each::with_moved(outcome, off)
}

// Where quantised beats rise, each number by itself, and the marks as they are; any other list is tidied.
fn lay_differing(
    beats: &[f64],
    lengths: &[f64],
    marks: &[u8],
    quantised: &mut [f32],
    out_beats: &mut [f32],
    out_lengths: &mut [f32],
    out_marks: &mut [u8],
) -> ListOutcome
    requires warps_fit { WarpsFit beats.now lengths.now marks.now (length out_beats.old) (length out_lengths.old) (length out_marks.old) }
    requires quantised_len { length quantised.old ≡ length beats.now }
    ensures { WarpsWritten beats.now lengths.now marks.now result
        out_beats.old out_beats.new out_lengths.old out_lengths.new
        out_marks.old out_marks.new }
{
    let off = columns_each::quantize_beats(beats, quantised);
    if columns_order::rise(quantised) {
        columns::copy(marks, out_marks);
        let outcome = assembly_rows::lay_each(
            quantised,
            lengths,
            Meaning::Lengths,
            out_beats,
            out_lengths,
        );
        return columns_each::with_moved(outcome, off);
    }
    let n = beats.len();
    if n <= limits::FEW {
        let mut work_beats = [0.0; limits::FEW];
        let mut work_lengths = [0.0; limits::FEW];
        let mut tidy_beats = [0.0; limits::FEW];
        let mut tidy_lengths = [0.0; limits::FEW];
        return lay_tidied(
            beats,
            lengths,
            marks,
            off,
            &mut work_beats[..n],
            &mut work_lengths[..n],
            &mut tidy_beats[..n],
            &mut tidy_lengths[..n],
            out_beats,
            out_lengths,
            out_marks,
        );
    }
    let mut work_beats = [0.0; limits::MOST_ENTRIES];
    let mut work_lengths = [0.0; limits::MOST_ENTRIES];
    let mut tidy_beats = [0.0; limits::MOST_ENTRIES];
    let mut tidy_lengths = [0.0; limits::MOST_ENTRIES];
    lay_tidied(
        beats,
        lengths,
        marks,
        off,
        &mut work_beats[..n],
        &mut work_lengths[..n],
        &mut tidy_beats[..n],
        &mut tidy_lengths[..n],
        out_beats,
        out_lengths,
        out_marks,
    )
}

// Where marks are all the same, the list is laid without them, and of the marks as many are copied as are left of it.
fn lay_merged(
    beats: &[f64],
    lengths: &[f64],
    marks: &[u8],
    out_beats: &mut [f32],
    out_lengths: &mut [f32],
    out_marks: &mut [u8],
) -> ListOutcome
    requires { WarpsFit beats.now lengths.now marks.now (length out_beats.old) (length out_lengths.old) (length out_marks.old) }
    ensures { WarpsWritten beats.now lengths.now marks.now result
        out_beats.old out_beats.new out_lengths.old out_lengths.new
        out_marks.old out_marks.new }
{
    if assembly_marks::all_the_same(marks) {
        let warps = assembly_rows::assemble_untested(
            beats,
            lengths,
            Meaning::Lengths,
            out_beats,
            out_lengths,
        );
        let count = warps.outcome.count;
        columns::copy(&marks[..count], out_marks);
        return warps;
    }
    let n = beats.len();
    if n <= limits::FEW {
        let mut quantised = [0.0f32; limits::FEW];
        return lay_differing(
            beats,
            lengths,
            marks,
            &mut quantised[..n],
            out_beats,
            out_lengths,
            out_marks,
        );
    }
    let mut quantised = [0.0f32; limits::MOST_ENTRIES];
    lay_differing(
        beats,
        lengths,
        marks,
        &mut quantised[..n],
        out_beats,
        out_lengths,
        out_marks,
    )
}

// By way of a column as long as the list.
fn lay_warps_in(
    beats: &[f64],
    lengths: &[f64],
    marks: &[u8],
    made: usize,
    merged: &mut [u8],
    out_beats: &mut [f32],
    out_lengths: &mut [f32],
    out_marks: &mut [u8],
) -> ListOutcome
    requires fact { let all = merged_marks marks.now made in
        WarpsFit beats.now lengths.now all (length out_beats.old) (length out_lengths.old) (length out_marks.old) }
    requires merged_len { length merged.old ≡ length beats.now }
    ensures { let all = merged_marks marks.now made in
        WarpsWritten beats.now lengths.now all result
        out_beats.old out_beats.new out_lengths.old out_lengths.new
        out_marks.old out_marks.new }
{
    assembly_marks::merge_marks(marks, made, merged);
    lay_merged(beats, lengths, merged, out_beats, out_lengths, out_marks)
}

// The given warps with their marks, and 1 for each that is made behind them; where none is made no column is cleared.
fn lay_warps(
    beats: &[f64],
    lengths: &[f64],
    marks: &[u8],
    made: usize,
    out_beats: &mut [f32],
    out_lengths: &mut [f32],
    out_marks: &mut [u8],
) -> ListOutcome
    requires { let all = merged_marks marks.now made in
        WarpsFit beats.now lengths.now all (length out_beats.old) (length out_lengths.old) (length out_marks.old) }
    ensures { let all = merged_marks marks.now made in
        WarpsWritten beats.now lengths.now all result
        out_beats.old out_beats.new out_lengths.old out_lengths.new
        out_marks.old out_marks.new }
{
    let n = beats.len();
    if made == 0 {
        return lay_merged(beats, lengths, marks, out_beats, out_lengths, out_marks);
    }
    if n <= limits::FEW {
        let mut merged = [0; limits::FEW];
        return lay_warps_in(
            beats,
            lengths,
            marks,
            made,
            &mut merged[..n],
            out_beats,
            out_lengths,
            out_marks,
        );
    }
    let mut merged = [0; limits::MOST_ENTRIES];
    lay_warps_in(
        beats,
        lengths,
        marks,
        made,
        &mut merged[..n],
        out_beats,
        out_lengths,
        out_marks,
    )
}

// ---- the three lists

// Every test before anything is written.
fn lay_lists(
    format: TimingFormat,
    later: u32,
    most_warps: usize,
    offset: f64,
    tempo_beats: &[f64],
    tempo_values: &[f64],
    stop_beats: &[f64],
    stop_values: &[f64],
    warp_beats: &[f64],
    warp_lengths: &[f64],
    warp_marks: &[u8],
    made: usize,
    out_tempo_beats: &mut [f32],
    out_tempo_values: &mut [f32],
    out_stop_beats: &mut [f32],
    out_stop_values: &mut [f32],
    out_warp_beats: &mut [f32],
    out_warp_lengths: &mut [f32],
    out_warp_marks: &mut [u8],
) -> AssembledTempos
    requires { let columns = three_columns
        tempo_beats.now tempo_values.now
        stop_beats.now stop_values.now
        warp_beats.now warp_lengths.now in
        Processed columns × Held format tempo_values.now × Held format stop_values.now × MarksBeside warp_beats.now warp_marks.now made }
    ensures { let columns = three_columns
        tempo_beats.now tempo_values.now
        stop_beats.now stop_values.now
        warp_beats.now warp_lengths.now in
        let rooms = lent_three out_tempo_beats out_tempo_values out_stop_beats out_stop_values out_warp_beats out_warp_lengths in
        let marks = with_made made (lent_marks warp_marks out_warp_marks) in
        ThreeLaid 0 later most_warps (lists_of columns offset) marks result (three_before rooms) (three_after rooms) out_warp_marks.new }
{
    if warp_beats.len() > columns::room_of(most_warps, limits::MOST_ENTRIES) {
        return refused(limits::TOO_LONG);
    }
    let rooms = rooms_number(
        tempo_beats,
        tempo_values,
        stop_beats,
        stop_values,
        warp_beats,
        warp_lengths,
        columns::room_of(out_tempo_beats.len(), out_tempo_values.len()),
        columns::room_of(out_stop_beats.len(), out_stop_values.len()),
        columns::room_of(
            columns::room_of(out_warp_beats.len(), out_warp_lengths.len()),
            out_warp_marks.len(),
        ),
    );
    let number = limits::lower_of(later, rooms);
    if number != limits::TAKEN {
        return refused(number);
    }
    cast_column(tempo_beats, out_tempo_beats);
    narrow_values(format, tempo_values, out_tempo_values);
    let stops = assemble_stops(
        format,
        stop_beats,
        stop_values,
        out_stop_beats,
        out_stop_values,
    );
    let warps = lay_warps(
        warp_beats,
        warp_lengths,
        warp_marks,
        made,
        out_warp_beats,
        out_warp_lengths,
        out_warp_marks,
    );
    AssembledTempos {
        number: limits::TAKEN,
        tempos: tempo_beats.len(),
        stops: stops.count,
        warps: warps.outcome.count,
        offset: ieee::narrow_f64(offset),
        moved: warps.moved,
    }
}

// ---- by way of work columns

fn assemble_in(
    format: TimingFormat,
    most_warps: usize,
    other: u32,
    later: u32,
    tempo_beats: &[f64],
    tempo_values: &[f64],
    stop_beats: &[f64],
    stop_values: &[f64],
    warp_beats: &[f64],
    warp_lengths: &[f64],
    warp_marks: &[u8],
    work_tempo_beats: &mut [f64],
    work_tempo_values: &mut [f64],
    work_stop_beats: &mut [f64],
    work_stop_values: &mut [f64],
    work_warp_beats: &mut [f64],
    work_warp_lengths: &mut [f64],
    out_tempo_beats: &mut [f32],
    out_tempo_values: &mut [f32],
    out_stop_beats: &mut [f32],
    out_stop_values: &mut [f32],
    out_warp_beats: &mut [f32],
    out_warp_lengths: &mut [f32],
    out_warp_marks: &mut [u8],
) -> AssembledTempos
    requires { let raw = three_columns
        tempo_beats.now tempo_values.now
        stop_beats.now stop_values.now
        warp_beats.now warp_lengths.now in
        let work = three_columns
        work_tempo_beats.old work_tempo_values.old
        work_stop_beats.old work_stop_values.old
        work_warp_beats.old work_warp_lengths.old in
        WorkRooms (three_number raw) (merged_lists format raw) work }
    ensures { let raw = three_columns
        tempo_beats.now tempo_values.now
        stop_beats.now stop_values.now
        warp_beats.now warp_lengths.now in
        let rooms = lent_three out_tempo_beats out_tempo_values out_stop_beats out_stop_values out_warp_beats out_warp_lengths in
        let number = raw_with other raw warp_marks.now in
        let marks = with_made (made_warps format raw) (lent_marks warp_marks out_warp_marks) in
        ThreeLaid number later most_warps (merged_lists format raw) marks result (three_before rooms) (three_after rooms) out_warp_marks.new }
{
    let processed = assembly_warps::process_with_warps(
        format,
        tempo_beats,
        tempo_values,
        stop_beats,
        stop_values,
        warp_beats,
        warp_lengths,
        work_tempo_beats,
        work_tempo_values,
        work_stop_beats,
        work_stop_values,
        work_warp_beats,
        work_warp_lengths,
    );
    let lists = limits::lower_of(processed.number, other);
    let number = limits::lower_of(
        lists,
        tidy_warps::marks_number(warp_beats.len(), warp_marks),
    );
    if number != limits::TAKEN {
        return refused(number);
    }
    let tempos = processed.tempos;
    let stops = processed.stops;
    let warps = processed.warps;
    lay_lists(
        format,
        later,
        most_warps,
        processed.offset,
        &work_tempo_beats[..tempos],
        &work_tempo_values[..tempos],
        &work_stop_beats[..stops],
        &work_stop_values[..stops],
        &work_warp_beats[..warps],
        &work_warp_lengths[..warps],
        warp_marks,
        warps - warp_beats.len(),
        out_tempo_beats,
        out_tempo_values,
        out_stop_beats,
        out_stop_values,
        out_warp_beats,
        out_warp_lengths,
        out_warp_marks,
    )
}

// Every tempo and every stop may make a warp, beside the warps that are given.
const FEW_WARPS: usize = 3 * limits::FEW;

const MOST_WARPS: usize = 3 * limits::MOST_ENTRIES;

// ---- the call

// Tempos, stops and warps, given and made, over the fronts of their rooms. `other` is the lowest raw number of the other lists, and `later` the lowest
// that they answer where all lists are taken: the number is that of all seven and of the marks. More warps than `most_warps`, given and made, answer 1.
pub fn assemble_tempos(
    format: TimingFormat,
    most_warps: usize,
    other: u32,
    later: u32,
    tempo_beats: &[f64],
    tempo_values: &[f64],
    stop_beats: &[f64],
    stop_values: &[f64],
    warp_beats: &[f64],
    warp_lengths: &[f64],
    warp_marks: &[u8],
    out_tempo_beats: &mut [f32],
    out_tempo_values: &mut [f32],
    out_stop_beats: &mut [f32],
    out_stop_values: &mut [f32],
    out_warp_beats: &mut [f32],
    out_warp_lengths: &mut [f32],
    out_warp_marks: &mut [u8],
) -> AssembledTempos
    ensures { let raw = three_columns
        tempo_beats.now tempo_values.now
        stop_beats.now stop_values.now
        warp_beats.now warp_lengths.now in
        let rooms = lent_three out_tempo_beats out_tempo_values out_stop_beats out_stop_values out_warp_beats out_warp_lengths in
        let number = raw_with other raw warp_marks.now in
        let marks = with_made (made_warps format raw) (lent_marks warp_marks out_warp_marks) in
        ThreeLaid number later most_warps (merged_lists format raw) marks result (three_before rooms) (three_after rooms) out_warp_marks.new }
{
    if tempo_beats.len() <= limits::FEW {
        if stop_beats.len() <= limits::FEW {
            if warp_beats.len() <= limits::FEW {
                // as many as most charts have: clearing the columns costs little
                let mut work_tempo_beats = [0.0; limits::FEW];
                let mut work_tempo_values = [0.0; limits::FEW];
                let mut work_stop_beats = [0.0; limits::FEW];
                let mut work_stop_values = [0.0; limits::FEW];
                let mut work_warp_beats = [0.0; FEW_WARPS];
                let mut work_warp_lengths = [0.0; FEW_WARPS];
                return assemble_in(
                    format,
                    most_warps,
                    other,
                    later,
                    tempo_beats,
                    tempo_values,
                    stop_beats,
                    stop_values,
                    warp_beats,
                    warp_lengths,
                    warp_marks,
                    &mut work_tempo_beats,
                    &mut work_tempo_values,
                    &mut work_stop_beats,
                    &mut work_stop_values,
                    &mut work_warp_beats,
                    &mut work_warp_lengths,
                    out_tempo_beats,
                    out_tempo_values,
                    out_stop_beats,
                    out_stop_values,
                    out_warp_beats,
                    out_warp_lengths,
                    out_warp_marks,
                );
            }
        }
    }
    let mut work_tempo_beats = [0.0; limits::MOST_ENTRIES];
    let mut work_tempo_values = [0.0; limits::MOST_ENTRIES];
    let mut work_stop_beats = [0.0; limits::MOST_ENTRIES];
    let mut work_stop_values = [0.0; limits::MOST_ENTRIES];
    let mut work_warp_beats = [0.0; MOST_WARPS];
    let mut work_warp_lengths = [0.0; MOST_WARPS];
    assemble_in(
        format,
        most_warps,
        other,
        later,
        tempo_beats,
        tempo_values,
        stop_beats,
        stop_values,
        warp_beats,
        warp_lengths,
        warp_marks,
        &mut work_tempo_beats,
        &mut work_tempo_values,
        &mut work_stop_beats,
        &mut work_stop_values,
        &mut work_warp_beats,
        &mut work_warp_lengths,
        out_tempo_beats,
        out_tempo_values,
        out_stop_beats,
        out_stop_values,
        out_warp_beats,
        out_warp_lengths,
        out_warp_marks,
    )
}
