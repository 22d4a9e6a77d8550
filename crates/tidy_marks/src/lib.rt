// Marks of warps tidied by themselves, over the beats they belong to, and through assembly: for who has the beats and lengths tidied already.
#![tactic(auto)]

ghost use Rattle.std.specs.Prelude.{◌≡◌, length};
ghost use Rattle.columns.specs.Each.{laid_each};
ghost use Rattle.tidy_marks.specs.MarkTidying.{marked_number, MarksTidied, MarksAssembled};
ghost use Rattle.tidy_marks.specs.inside.MarkNumbers.{mark_number, number_mark};

use columns::Outcome;
use limits::Kind;
use tidy_warps::{MADE, WRITTEN};

// ---- tests

// What beats and marks answer as a list of their own.
fn marked_number(beats: &[f64], marks: &[u8]) -> u32
    ensures { result ≡ marked_number beats.now marks.now }
{
    let sizes = limits::sizes_number(beats.len(), marks.len());
    if sizes != limits::TAKEN {
        return sizes;
    }
    if !limits::column_taken(Kind::Beat, beats) {
        return limits::BAD_BEAT;
    }
    if !limits::units_taken(marks) {
        return limits::BAD_VALUE;
    }
    limits::TAKEN
}

// ---- marks as numbers, which row tidying carries, and back

fn number_of(mark: u8) -> f64
    ensures { result ≡ mark_number mark }
{
    mark as f64
}

fn mark_of(number: f64) -> u8
    ensures { result ≡ number_mark number }
{
    if number > 0.5 { MADE } else { WRITTEN }
}

fn to_numbers(marks: &[u8], to: &mut [f64])
    ensures { to.new ≡ laid_each mark_number marks.now to.old }
{
    let n = columns::room_of(marks.len(), to.len());
    for i in 0..n {
        to[i] = number_of(marks[i]);
    }
}

fn to_marks(numbers: &[f64], to: &mut [u8])
    ensures { to.new ≡ laid_each number_mark numbers.now to.old }
{
    let n = columns::room_of(numbers.len(), to.len());
    for i in 0..n {
        to[i] = mark_of(numbers[i]);
    }
}

// ---- the marks alone

// Marks of a list that is taken, by way of columns as long as it is.
fn tidy_in(
    beats: &[f64],
    marks: &[u8],
    numbers: &mut [f64],
    tidy_beats: &mut [f64],
    tidy_numbers: &mut [f64],
    out: &mut [u8],
) -> Outcome
    requires marks_value { marked_number beats.now marks.now ≡ 0 }
    requires numbers_len { (length numbers.old ≡ length beats.now) × (length tidy_beats.old ≡ length beats.now) × (length tidy_numbers.old ≡ length beats.now) }
    ensures { MarksTidied beats.now marks.now result out.old out.new }
{
    to_numbers(marks, numbers);
    let tidied = tidy_rows::tidy_row_segments(beats, numbers, tidy_beats, tidy_numbers);
    let n = tidied.count;
    if n > out.len() {
        return columns::refused(limits::NO_ROOM);
    }
    to_marks(&tidy_numbers[..n], out);
    tidied
}

// The marks of a tidied list of warps over the front of their room: tidied as values of its beats, so that each stays with its warp.
// Refused with 1, 2, 3 or 4 for beats and marks, and with 7 where the marks do not fit.
pub fn tidy_marks(beats: &[f64], marks: &[u8], out: &mut [u8]) -> Outcome
    ensures { MarksTidied beats.now marks.now result out.old out.new }
{
    let number = marked_number(beats, marks);
    if number != limits::TAKEN {
        return columns::refused(number);
    }
    let n = beats.len();
    if n <= limits::FEW {
        let mut numbers = [0.0; limits::FEW];
        let mut tidy_beats = [0.0; limits::FEW];
        let mut tidy_numbers = [0.0; limits::FEW];
        return tidy_in(
            beats,
            marks,
            &mut numbers[..n],
            &mut tidy_beats[..n],
            &mut tidy_numbers[..n],
            out,
        );
    }
    let mut numbers = [0.0; limits::MOST_ENTRIES];
    let mut tidy_beats = [0.0; limits::MOST_ENTRIES];
    let mut tidy_numbers = [0.0; limits::MOST_ENTRIES];
    tidy_in(
        beats,
        marks,
        &mut numbers[..n],
        &mut tidy_beats[..n],
        &mut tidy_numbers[..n],
        out,
    )
}

// ---- assembly

// By way of a column as long as the list.
fn assemble_in(beats: &[f64], marks: &[u8], quantised: &mut [f64], out: &mut [u8]) -> Outcome
    requires { length quantised.old ≡ length beats.now }
    ensures { MarksAssembled beats.now marks.now result out.old out.new }
{
    columns_each::quantize_column(beats, quantised);
    tidy_marks(quantised, marks, out)
}

// The marks of an assembled list of warps over the front of their room: tidied with its quantised beats, so that each stays with its warp.
// Refused with 1, 2, 3 or 4 for what tidying is given, and with 7 where the marks do not fit.
pub fn assemble_marks(beats: &[f64], marks: &[u8], out: &mut [u8]) -> Outcome
    ensures { MarksAssembled beats.now marks.now result out.old out.new }
{
    let n = beats.len();
    if n <= limits::FEW {
        let mut quantised = [0.0; limits::FEW];
        return assemble_in(beats, marks, &mut quantised[..n], out);
    }
    if n <= limits::MOST_ENTRIES {
        let mut quantised = [0.0; limits::MOST_ENTRIES];
        return assemble_in(beats, marks, &mut quantised[..n], out);
    }
    columns::refused(limits::TOO_LONG)
}
