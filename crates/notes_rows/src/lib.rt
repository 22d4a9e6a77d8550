// The beat of each row of note data: the rows of a measure are counted, and share its four beats.
#![tactic(auto)]

ghost use Rattle.std.specs.Prelude.{◌≡◌, ◌≤◌, length};
ghost use Rattle.order.specs.Order.{laid};
ghost use Rattle.notes_rows.specs.Measures.{is_blank, one_if, measures, all_rows};
ghost use Rattle.notes_rows.specs.RowBeats.{most_note_bytes, measure_beats, rows_to_beats, RowsToBeats};
ghost use Rattle.notes_rows.specs.inside.Counting.{MeasureCounted};

use columns::Outcome;

// The most bytes of note data that are taken.
pub const MOST_NOTE_BYTES: usize = 1048576;

// Ends a row.
const LINE_FEED: u8 = 10;
// Ends a measure, and its last row with it.
const COMMA: u8 = 44;

// ---- counting

// Whether a byte is blank: a tab, a line feed, a form feed, a carriage return or a space.
fn is_blank(byte: u8) -> bool
    ensures { result ≡ is_blank byte }
{
    if byte == 9 {
        return true;
    }
    if byte == LINE_FEED {
        return true;
    }
    if byte == 12 {
        return true;
    }
    if byte == 13 {
        return true;
    }
    byte == 32
}

// 1 for a row that is begun: one of its bytes is not blank.
fn one_if(begun: bool) -> usize
    ensures { result ≡ one_if begun }
{
    if begun { 1 } else { 0 }
}

// A measure: how many rows it has, and where it ends, at a comma or at the data's end.
#[derive(Clone, Copy)]
struct Measure {
    rows: usize,
    end: usize,
}

// The measure that begins at a place. A row counts where it ends.
fn count_measure_rows(note_data: &[u8], place: usize) -> Measure
    requires { place ≤ length note_data.now }
    ensures { MeasureCounted note_data.now place result }
{
    let mut rows: usize = 0;
    let mut begun = false;
    for i in place..note_data.len() {
        let byte = note_data[i];
        if byte == COMMA {
            return Measure {
                rows: rows + one_if(begun),
                end: i,
            };
        }
        if byte == LINE_FEED {
            rows += one_if(begun);
            begun = false;
            continue;
        }
        if is_blank(byte) {
            continue;
        }
        begun = true;
    }
    Measure {
        rows: rows + one_if(begun),
        end: note_data.len(),
    }
}

// The rows of all measures.
fn count_rows(note_data: &[u8]) -> usize
    ensures { result ≡ all_rows (measures note_data.now) }
{
    let mut rows: usize = 0;
    let mut place = 0;
    while place <= note_data.len() {
        let measure = count_measure_rows(note_data, place);
        rows += measure.rows;
        place = measure.end + 1;
    }
    rows
}

// ---- writing

// The beats of a measure's rows, over the front of a column.
fn write_measure(measure: usize, rows: usize, beats: &mut [f32])
    requires { (measure ≤ most_note_bytes) × (rows ≤ most_note_bytes) × (rows ≤ length beats.old) }
    ensures { beats.new ≡ laid (measure_beats measure rows) beats.old }
{
    let start = (measure as f32) * 4.0;
    let step = 4.0 / (rows as f32);
    for (row, beat) in beats[..rows].iter_mut().enumerate() {
        *beat = ieee_mul_add::mul_add_f32(row as f32, step, start);
    }
}

// The beats of all measures, one behind another.
fn write_measures(note_data: &[u8], beats: &mut [f32])
    requires { (length note_data.now ≤ most_note_bytes) × (all_rows (measures note_data.now) ≤ length beats.old) }
    ensures { beats.new ≡ laid (rows_to_beats note_data.now) beats.old }
{
    let mut index: usize = 0;
    let mut written: usize = 0;
    let mut place = 0;
    while place <= note_data.len() {
        let measure = count_measure_rows(note_data, place);
        write_measure(index, measure.rows, &mut beats[written..]);
        index += 1;
        written += measure.rows;
        place = measure.end + 1;
    }
}

// The beat of each row of note data, measure after measure, over the front of a lent column. 1 where there are more bytes than are taken, 7 where there are
// more rows than room.
pub fn compute_row_to_beat(note_data: &[u8], beats: &mut [f32]) -> Outcome
    ensures { RowsToBeats note_data.now result beats.old beats.new }
{
    if note_data.len() > MOST_NOTE_BYTES {
        return columns::refused(limits::TOO_LONG);
    }
    let count = count_rows(note_data);
    if count > beats.len() {
        return columns::refused(limits::NO_ROOM);
    }
    write_measures(note_data, beats);
    Outcome {
        number: limits::TAKEN,
        count,
    }
}
