// The report program's input, read from standard input in pieces to its end.
#![tactic(auto)]

ghost use Rattle.std.specs.Prelude.{◌≡◌, ◌<◌, ◌^◌, false, IfOk, OnErr, pos, negsuc};
ghost use Rattle.chart.specs.ChartColumns.{lent_columns, lent_speeds, LentChart, before, after};
ghost use Rattle.report_form.specs.Form.{start, step_of, whole};
ghost use Rattle.report_stdin.specs.Fed.{Fed};
ghost use Rattle.report_stdin.specs.Answers.{more_comes, after_answer};

use report_form::Reading;
use std::io::{Print, Read};

// The bytes that are read at once.
const PIECE: usize = 4096;

// How far the input is read after a piece, and whether another may come.
#[derive(Clone, Copy)]
struct Piece {
    more: bool,
    reading: Reading,
}

// An input that was not read to its end is none of the form, however far it was read: it counts as fed a byte that no form has.
fn cut_short(rt: &HostRuntime, reading: Reading) -> Reading
    ensures value { result ≡ step_of reading 0 }
    ensures result_value { whole result ≡ false }
{
    let _ = rt
        .stderr()
        .write_all(b"standard input was not read to its end: a read failed\n");
    report_form::step(reading, 0)
}

// What a read's answer says of the input: above 0 there may be more of it, 0 is its end, and below 0 the read failed.
fn answered(rt: &HostRuntime, got: isize, reading: Reading) -> Piece
    ensures more_value { result.more ≡ more_comes got }
    ensures reading_value { result.reading ≡ after_answer got reading }
{
    if got < 0 {
        return Piece {
            more: false,
            reading: cut_short(rt, reading),
        };
    }
    Piece {
        more: got > 0,
        reading: reading,
    }
}

// What a read answered as one number: how many bytes it handed over, or below 0 where it failed.
fn as_number(got: std::io::Result<usize>) -> isize
    requires { IfOk got (λ n. n < 2 ^ 63) }
    ensures count_value { IfOk got (λ n. result ≡ pos n) }
    ensures failure_value { OnErr got (result ≡ negsuc 0) }
{
    match got {
        Ok(count) => count as isize,
        Err(_) => -1,
    }
}

// A piece of the input, of no more bytes than are left: what the read answered.
fn read_piece(rt: &HostRuntime, piece: &mut [u8], left: usize) -> isize {
    if left < piece.len() {
        return as_number(rt.stdin().read(&mut piece[..left]));
    }
    as_number(rt.stdin().read(piece))
}

fn less(left: usize, count: usize) -> usize {
    if count < left {
        return left - count;
    }
    0
}

// All of standard input, or as many bytes of it as `most`, fed from the first on, and a byte that no form has where a read failed. A proved loop
// has to end, and nothing says that the input does: the loop has more turns than any run uses up.
pub fn read_all(
    rt: &HostRuntime,
    counts: &mut [u64],
    tempo_beats: &mut [f64],
    tempo_values: &mut [f64],
    stop_beats: &mut [f64],
    stop_values: &mut [f64],
    delay_beats: &mut [f64],
    delay_values: &mut [f64],
    warp_beats: &mut [f64],
    warp_lengths: &mut [f64],
    speed_beats: &mut [f64],
    speed_ratios: &mut [f64],
    speed_delays: &mut [f64],
    speed_units: &mut [u8],
    scroll_beats: &mut [f64],
    scroll_values: &mut [f64],
    fake_beats: &mut [f64],
    fake_lengths: &mut [f64],
    most: usize,
) -> Reading
    ensures { let lists : LentChart = record {
      tempos = lent_columns tempo_beats tempo_values;
      stops = lent_columns stop_beats stop_values;
      delays = lent_columns delay_beats delay_values;
      warps = lent_columns warp_beats warp_lengths;
      speeds = lent_speeds speed_beats speed_ratios speed_delays speed_units;
      scrolls = lent_columns scroll_beats scroll_values;
      fakes = lent_columns fake_beats fake_lengths;
    } in
        Fed start result counts.old counts.new (before lists) (after lists) }
{
    let mut reading = report_form::begin();
    let mut left = most;
    for _ in 0..u64::MAX {
        let mut piece = [0u8; PIECE];
        let got = read_piece(rt, &mut piece, left);
        let count = io::count(got, &piece);
        let fed = report_feed::feed(
            reading,
            &piece[..count],
            counts,
            tempo_beats,
            tempo_values,
            stop_beats,
            stop_values,
            delay_beats,
            delay_values,
            warp_beats,
            warp_lengths,
            speed_beats,
            speed_ratios,
            speed_delays,
            speed_units,
            scroll_beats,
            scroll_values,
            fake_beats,
            fake_lengths,
        );
        let after = answered(rt, got, fed);
        reading = after.reading;
        if !after.more {
            return reading;
        }
        left = less(left, count);
    }
    cut_short(rt, reading)
}
