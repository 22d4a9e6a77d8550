// Replays inputs of the programs report and mend, stored with the answers to them, from standard input, and holds what is written to the answer.
// A case is a line with the lengths of input and answer, six decimal digits each, then the bytes of both and a line feed.
#![tactic(auto)]

ghost use Rattle.std.specs.Prelude.{◌≤◌, IfOk};
ghost use Rattle.io.specs.Counts.{IsPrefixLen};
ghost use Rattle.replay_cases.specs.Replayed.{Replayed};

use std::io::{Print, Read};

// The program that cases are of.
#[derive(Clone, Copy)]
pub enum Program {
    Report,
    Mend,
}

// More cases than are stored: a proved loop has to end.
const MOST: u64 = 1000000;

// The bytes of the line with the lengths.
const LINE: usize = 14;

// Bytes that every stored input and answer fits.
const ROOM: usize = 65536;

// The lengths of a case's input and answer; not there where the cases have ended.
#[derive(Clone, Copy)]
struct Sizes {
    there: bool,
    input: usize,
    answer: usize,
}

// How many cases there are, and of how many the answer differs.
#[derive(Clone, Copy)]
pub struct Tally {
    pub answers: u64,
    pub different: u64,
}

fn digit(byte: u8) -> usize
    ensures { result ≤ 9 }
{
    if byte < b'0' {
        return 0;
    }
    if byte > b'9' {
        return 0;
    }
    (byte - b'0') as usize
}

fn six_digits(a: u8, b: u8, c: u8, d: u8, e: u8, f: u8) -> usize {
    digit(a) * 100000
        + digit(b) * 10000
        + digit(c) * 1000
        + digit(d) * 100
        + digit(e) * 10
        + digit(f)
}

// Reads standard input until the bytes are full, the input ends or a read fails; how many were put at their start.
fn read_full(rt: &HostRuntime, bytes: &mut [u8]) -> usize
    ensures { IsPrefixLen result bytes.new }
{
    let mut done = 0;
    while done < bytes.len() {
        let count = rt.stdin().read(&mut bytes[done..]).unwrap_or(0);
        if count == 0 {
            return done;
        }
        done += count;
    }
    done
}

fn read_sizes(rt: &HostRuntime) -> Sizes {
    let mut line = [0u8; LINE];
    let got = read_full(rt, &mut line);
    Sizes {
        there: got > 0,
        input: six_digits(line[0], line[1], line[2], line[3], line[4], line[5]),
        answer: six_digits(line[7], line[8], line[9], line[10], line[11], line[12]),
    }
}

// The next bytes, so many, to the front of a text; whether they were there, and the text has room for them.
fn read_text(rt: &HostRuntime, text: &mut [u8], size: usize) -> bool {
    if size > text.len() {
        return false;
    }
    read_full(rt, &mut text[..size]) == size
}

fn both(one: bool, other: bool) -> bool {
    if one {
        return other;
    }
    false
}

// What a program writes for an input that is the next bytes, so many: on the page, and how many bytes that has.
fn answer_next(rt: &HostRuntime, program: Program, page: &mut [u8], size: usize) -> usize
    ensures { IsPrefixLen result page.new }
{
    match program {
        Program::Report => {
            let mut input = [0u8; ROOM];
            read_text(rt, &mut input, size);
            report_bytes::report_of(page, report_answer::front_units(&input, size))
        }
        Program::Mend => mend_stdin::write_input(rt, page, size),
    }
}

// The next bytes are a case's: whether the answer is the stored one. Where it is the first that is not, what was written instead is printed.
fn replay(rt: &HostRuntime, program: Program, sizes: Sizes, first: bool) -> std::io::Result<bool> {
    let mut answer = [0u8; ROOM];
    let mut end = [0u8; 1];
    let mut page = [0u8; ROOM];
    let length = answer_next(rt, program, &mut page, sizes.input);
    let mut read = read_text(rt, &mut answer, sizes.answer);
    read = both(read, read_text(rt, &mut end, 1));
    let stored = report_answer::front_units(&answer, sizes.answer);
    let same = both(read, check::same(&page[..length], stored));
    if both(first, !same) {
        rt.write_all(b"an answer differs, and says\n")?;
        rt.write_all(&page[..length])?;
    }
    Ok(same)
}

// Every case of standard input; fails only where an answer that differs could not be printed.
pub fn replay_all(rt: &HostRuntime, program: Program) -> std::io::Result<Tally>
    ensures { IfOk result (λ tally. Replayed tally.answers tally.different) }
{
    let mut different: u64 = 0;
    for answers in 0..MOST {
        let sizes = read_sizes(rt);
        if !sizes.there {
            return Ok(Tally { answers, different });
        }
        if !replay(rt, program, sizes, different == 0)? {
            different += 1;
        }
    }
    Ok(Tally {
        answers: MOST,
        different,
    })
}
