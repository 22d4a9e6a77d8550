// The note sheet: for each note row its time, whether it is judgable, and its snap colour.
#![tactic(auto)]

ghost use Rattle.std.specs.Prelude.{◌≡◌, ◌+◌, ◌<◌, ◌≤◌, ◌^◌, min, ℤ, length};
ghost use Rattle.std.specs.Int.Signed.{lt_z};
ghost use Rattle.std.specs.Float.{binary64};
ghost use Rattle.rows.specs.Rows.{beat_of};
ghost use Rattle.order.specs.Entries.{total};
ghost use Rattle.limits.specs.Numbers.{miss};
ghost use Rattle.limits.specs.Neighbours.{every_two};
ghost use Rattle.columns.specs.Each.{laid_each};
ghost use Rattle.note_sheet.specs.Snap.{place_in_beat, first_rule, snap_of, snap_number};
ghost use Rattle.chart.specs.Timing.{timing};
ghost use Rattle.clock.specs.Question.{fresh_cursor};
ghost use Rattle.chart.specs.ChartColumns.{list_columns};
ghost use Rattle.note_sheet.specs.Sheet.{colour_of, rows_order_number, sheet_room_number, refused_sheet, song, sheet_columns, SheetLaid};
ghost use Rattle.note_sheet.specs.inside.Pieces.{PieceFits, PieceTimed, AllFit};

use clock::Cursor;
use columns::Each;

// The sheet's number, how many rows were written, and the events passed and one for each row, added up.
#[repr(C)]
#[derive(Clone, Copy)]
pub struct Sheet {
    pub number: u32,
    pub count: usize,
    pub steps: usize,
}

// ---- the snap colour

// What part of a beat a row falls on.
#[derive(Clone, Copy)]
pub enum Snap {
    Fourth,
    Eighth,
    Twelfth,
    Sixteenth,
    TwentyFourth,
    ThirtySecond,
    FortyEighth,
    SixtyFourth,
    OneNinetySecond,
}

// The place of a row in its beat, 0 to 47. The remainder of a negative row is not above 0, and counts back from the next beat.
fn place_in_beat(row: i32) -> u32
    ensures { result ≡ place_in_beat row }
{
    let rest = row % 48;
    if rest < 0 {
        return (rest + 48) as u32;
    }
    rest as u32
}

// The colour of a place in the beat.
fn snap_of_place(place: u32) -> Snap
    requires { place < 48 }
    ensures { result ≡ first_rule place }
{
    match place {
        0 => Snap::Fourth,
        24 => Snap::Eighth,
        16 | 32 => Snap::Twelfth,
        12 | 36 => Snap::Sixteenth,
        8 | 40 => Snap::TwentyFourth,
        6 | 18 | 30 | 42 => Snap::ThirtySecond,
        4 | 20 | 28 | 44 => Snap::FortyEighth,
        3 | 9 | 15 | 21 | 27 | 33 | 39 | 45 => Snap::SixtyFourth,
        1..=2
        | 5
        | 7
        | 10..=11
        | 13..=14
        | 17
        | 19
        | 22..=23
        | 25..=26
        | 29
        | 31
        | 34..=35
        | 37..=38
        | 41
        | 43
        | 46..=47 => Snap::OneNinetySecond,
        _ => Snap::OneNinetySecond,
    }
}

// The colour of a row.
pub fn snap_of_row(row: i32) -> Snap
    ensures { result ≡ snap_of row }
{
    snap_of_place(place_in_beat(row))
}

// A colour by number, from 0 for a fourth to 8 for a 192nd.
pub fn snap_number(snap: Snap) -> u8
    ensures { result ≡ snap_number snap }
{
    match snap {
        Snap::Fourth => 0,
        Snap::Eighth => 1,
        Snap::Twelfth => 2,
        Snap::Sixteenth => 3,
        Snap::TwentyFourth => 4,
        Snap::ThirtySecond => 5,
        Snap::FortyEighth => 6,
        Snap::SixtyFourth => 7,
        Snap::OneNinetySecond => 8,
    }
}

// ---- the rows

// 1 where a row is not below the next: a loop that adds these up has no branch.
fn not_below(row: i32, next: i32) -> usize
    ensures { result ≡ miss (λ (e : ℤ × ℤ). lt_z e.0 e.1) (row, next) }
{
    if row < next { 0 } else { 1 }
}

// Whether each row is below the next.
fn rows_rise(rows: &[i32]) -> bool
    ensures { result ≡ every_two lt_z rows.now }
{
    let mut fail: usize = 0;
    for i in 1..rows.len() {
        fail += not_below(rows[i - 1], rows[i]);
    }
    fail == 0
}

// The colour of a row by its number.
#[derive(Clone, Copy)]
struct Colours;

impl Each<i32, u8> for Colours {
    ghost made = { λ _ (row : ℤ). colour_of row };

    fn made(self, row: i32) -> u8 {
        snap_number(snap_of_row(row))
    }
}

// The colour of each row by its number, over the front of a column, as far as both go.
fn snap_rows(rows: &[i32], out: &mut [u8])
    ensures { out.new ≡ laid_each colour_of rows.now out.old }
{
    columns::lay_each(rows, out, Colours);
}

// The beat of a row.
#[derive(Clone, Copy)]
struct Beats;

impl Each<i32, f64> for Beats {
    ghost made = { λ _ (row : ℤ). beat_of binary64 row };

    fn made(self, row: i32) -> f64 {
        rows::note_row_to_beat(row)
    }
}

// The beat of each row, in the same way.
fn beats_of(rows: &[i32], out: &mut [f64])
    ensures { out.new ≡ laid_each (beat_of binary64) rows.now out.old }
{
    columns::lay_each(rows, out, Beats);
}

// The counts of a run, added up.
fn sum(counts: &[usize]) -> usize
    requires { total counts.now < 2 ^ 64 }
    ensures { result ≡ total counts.now }
{
    let mut all = 0;
    for &count in counts {
        all += count;
    }
    all
}

// ---- the times

// How many rows are timed at once: what a piece of the run needs beside the columns lies in arrays of so many.
const PIECE: usize = 64;

// The cursor after a piece of the run, and the counts of the piece added up.
#[derive(Clone, Copy)]
struct Piece {
    cursor: Cursor,
    steps: usize,
}

fn time_piece(
    cursor: Cursor,
    tempo_beats: &[f32],
    tempo_values: &[f32],
    stop_beats: &[f32],
    stop_values: &[f32],
    delay_beats: &[f32],
    delay_values: &[f32],
    warp_beats: &[f32],
    warp_lengths: &[f32],
    offset: f64,
    global: f64,
    rows: &[i32],
    times: &mut [f64],
) -> Piece
    requires { let t = timing tempo_beats.now tempo_values.now stop_beats.now stop_values.now
        delay_beats.now delay_values.now warp_beats.now warp_lengths.now in
        PieceFits t offset global cursor rows.now (length times.old) }
    ensures { let t = timing tempo_beats.now tempo_values.now stop_beats.now stop_values.now
        delay_beats.now delay_values.now warp_beats.now warp_lengths.now in
        PieceTimed t offset global cursor rows.now result times.old times.new }
{
    let mut beats = [0.0f64; PIECE];
    beats_of(rows, &mut beats);
    let mut numbers = [0u32; PIECE];
    let mut counts = [0usize; PIECE];
    let size = rows.len();
    let ran = clock_run::run_checked(
        cursor,
        tempo_beats,
        tempo_values,
        stop_beats,
        stop_values,
        delay_beats,
        delay_values,
        warp_beats,
        warp_lengths,
        offset,
        global,
        &beats[..size],
        &mut numbers,
        times,
        &mut counts,
    );
    let steps = sum(&counts[..size]);
    let last = ran.cursor;
    Piece {
        cursor: last,
        steps: steps,
    }
}

// The times of all rows, piece by piece: each goes on with the cursor that the last one left, and the first begins with a fresh one.
fn time_rows(
    tempo_beats: &[f32],
    tempo_values: &[f32],
    stop_beats: &[f32],
    stop_values: &[f32],
    delay_beats: &[f32],
    delay_values: &[f32],
    warp_beats: &[f32],
    warp_lengths: &[f32],
    offset: f64,
    global: f64,
    rows: &[i32],
    times: &mut [f64],
) -> Piece
    requires { let t = timing tempo_beats.now tempo_values.now stop_beats.now stop_values.now
        delay_beats.now delay_values.now warp_beats.now warp_lengths.now in
        AllFit t offset global rows.now (length times.old) }
    ensures { let t = timing tempo_beats.now tempo_values.now stop_beats.now stop_values.now
        delay_beats.now delay_values.now warp_beats.now warp_lengths.now in
        PieceTimed t offset global (fresh_cursor offset global) rows.now result times.old times.new }
{
    let made = Cursor::new(offset, global);
    let mut at = made.cursor;
    let mut steps: usize = 0;
    let mut done = 0;
    while done < rows.len() {
        let size = columns::room_of(rows.len() - done, PIECE);
        let end = done + size;
        let piece = time_piece(
            at,
            tempo_beats,
            tempo_values,
            stop_beats,
            stop_values,
            delay_beats,
            delay_values,
            warp_beats,
            warp_lengths,
            offset,
            global,
            &rows[done..end],
            &mut times[done..],
        );
        let next = piece.cursor;
        at = next;
        steps += piece.steps;
        done = end;
    }
    Piece {
        cursor: at,
        steps: steps,
    }
}

// ---- the sheet

fn refused(number: u32) -> Sheet
    ensures { result ≡ refused_sheet number }
{
    Sheet {
        number: number,
        count: 0,
        steps: 0,
    }
}

// 5 where the rows do not rise.
fn rows_order_number(rows: &[i32]) -> u32
    ensures { result ≡ rows_order_number rows.now }
{
    if rows_rise(rows) {
        return limits::TAKEN;
    }
    limits::NOT_RISING
}

// 7 where there are more rows than the shortest of the three columns has places.
fn sheet_room_number(rows: usize, times: usize, judged: usize, snaps: usize) -> u32
    ensures { result ≡ sheet_room_number rows (min times (min judged snaps)) }
{
    let room = columns::room_of(times, columns::room_of(judged, snaps));
    if rows <= room {
        return limits::TAKEN;
    }
    limits::NO_ROOM
}

// For each of a rising list of rows its time, 1 where it is judgable, and its colour by number, over the fronts of the three columns. The times are those of one
// run of a cursor that is fresh at the first row. Each list is tested once where the sheet is taken: the lookup tests its own and writes only then.
pub fn note_sheet(
    tempo_beats: &[f32],
    tempo_values: &[f32],
    stop_beats: &[f32],
    stop_values: &[f32],
    delay_beats: &[f32],
    delay_values: &[f32],
    warp_beats: &[f32],
    warp_lengths: &[f32],
    offset: f64,
    global: f64,
    fake_beats: &[f32],
    fake_lengths: &[f32],
    rows: &[i32],
    times: &mut [f64],
    judged: &mut [u8],
    snaps: &mut [u8],
) -> Sheet
    ensures { let t = timing tempo_beats.now tempo_values.now stop_beats.now stop_values.now
        delay_beats.now delay_values.now warp_beats.now warp_lengths.now in
        let s = song t offset global (list_columns fake_beats.now fake_lengths.now) in
        let before = sheet_columns times.old judged.old snaps.old in
        let after = sheet_columns times.new judged.new snaps.new in
        SheetLaid s rows.now result before after }
{
    let timing = clock_tests::check_timing(
        tempo_beats,
        tempo_values,
        stop_beats,
        stop_values,
        delay_beats,
        delay_values,
        warp_beats,
        warp_lengths,
        offset,
        global,
    );
    let order = rows_order_number(rows);
    let room = sheet_room_number(rows.len(), times.len(), judged.len(), snaps.len());
    let later = limits::lower_of(order, room);
    let own = limits::lower_of(timing, later);
    if own != limits::TAKEN {
        let near = lookup_tests::rows_taken(rows);
        let found = lookup_tests::judgable_number(
            stop_beats,
            stop_values,
            delay_beats,
            delay_values,
            warp_beats,
            warp_lengths,
            fake_beats,
            fake_lengths,
            near,
        );
        let number = limits::lower_of(own, found);
        return refused(number);
    }
    let found = lookup::judgable_rows(
        stop_beats,
        stop_values,
        delay_beats,
        delay_values,
        warp_beats,
        warp_lengths,
        fake_beats,
        fake_lengths,
        rows,
        judged,
    );
    let number = found.number;
    if number != limits::TAKEN {
        return refused(number);
    }
    snap_rows(rows, snaps);
    let whole = time_rows(
        tempo_beats,
        tempo_values,
        stop_beats,
        stop_values,
        delay_beats,
        delay_values,
        warp_beats,
        warp_lengths,
        offset,
        global,
        rows,
        times,
    );
    Sheet {
        number: limits::TAKEN,
        count: rows.len(),
        steps: whole.steps,
    }
}
