// Replays the original's stored answers for rounding, narrowing, rows and quantising, from standard input:
// a line is a letter for the call, the input's bits and the answer's, in 16 hexadecimal digits each.
#![tactic(auto)]

ghost use Rattle.std.specs.Prelude.{◌≤◌};
ghost use Rattle.io.specs.Counts.{IsPrefixLen};

use std::io::Read;

const LINE: usize = 36;

// More bytes than are stored.
const ROOM: usize = 131072;

#[derive(Clone, Copy)]
struct Tally {
    replayed: u64,
    different: u64,
}

// The whole number whose two's complement stands in the lower half.
fn whole_of_bits(bits: u64) -> f64 {
    let low = (bits % 0x1_0000_0000) as u32;
    if low < 0x8000_0000 {
        return low as f64;
    }
    (low as f64) - 4294967296.0
}

fn row_of_bits(bits: u64) -> i32 {
    ieee::lrint_f64(whole_of_bits(bits))
}

fn f32_of_bits(bits: u64) -> f32 {
    ieee_patterns::f32_of_bits((bits % 0x1_0000_0000) as u32)
}

// Whether a whole number is the one that is stored.
fn same_row(row: i32, stored: u64) -> bool {
    (row as f64) == whole_of_bits(stored)
}

fn same_f32(value: f32, stored: u64) -> bool {
    ieee_patterns::bits_of_f32(value) as u64 == stored
}

fn same_f64(value: f64, stored: u64) -> bool {
    ieee_patterns::bits_of_f64(value) == stored
}

// Whether the port answers to a line's call as the original did; false for a letter that names no call.
fn same(call: u8, bits: u64, stored: u64) -> bool {
    match call {
        b'a' => same_row(ieee::lrint_f64(ieee_patterns::f64_of_bits(bits)), stored),
        b'b' => same_row(ieee::lrint_f32(f32_of_bits(bits)), stored),
        b'c' => same_f32(ieee::narrow_f64(ieee_patterns::f64_of_bits(bits)), stored),
        b'd' => same_f64(rows::note_row_to_beat(row_of_bits(bits)), stored),
        b'e' => same_f32(rows::note_row_to_beat_f32(row_of_bits(bits)), stored),
        b'f' => same_row(
            rows::beat_to_note_row(ieee_patterns::f64_of_bits(bits)),
            stored,
        ),
        b'g' => same_row(rows::beat_to_note_row_f32(f32_of_bits(bits)), stored),
        b'h' => same_f64(
            rows::quantize_beat(ieee_patterns::f64_of_bits(bits)),
            stored,
        ),
        b'i' => same_f32(rows::quantize_beat_f32(f32_of_bits(bits)), stored),
        _ => false,
    }
}

fn one_if(different: bool) -> u64
    ensures { result ≤ 1 }
{
    if different { 1 } else { 0 }
}

// Every whole line of the text; what is left over counts as one line more, which differs.
fn replay(text: &[u8]) -> Tally {
    let (lines, rest) = text.as_chunks::<LINE>();
    let mut different: u64 = 0;
    for line in lines {
        let bits = ieee_patterns::hex_word(line, 2);
        let stored = ieee_patterns::hex_word(line, 19);
        different += one_if(!same(line[0], bits, stored));
    }
    Tally {
        replayed: lines.len() as u64,
        different: different + one_if(!rest.is_empty()),
    }
}

// Reads standard input until the bytes are full, the input ends or a read fails; how many were put at their start.
fn read_full(rt: &HostRuntime, bytes: &mut [u8]) -> usize
    ensures { IsPrefixLen result bytes.new }
{
    let mut done = 0;
    while done < bytes.len() {
        let count = rt.stdin().read(&mut bytes[done..]).unwrap_or(0);
        if count == 0 {
            return done;
        }
        done += count;
    }
    done
}

fn main(rt: HostRuntime) -> std::io::Result<()> {
    let mut room = [0u8; ROOM];
    let read = read_full(&rt, &mut room);
    let tally = replay(&room[..read]);
    println!(rt;
        "{} replayed, {} different",
        tally.replayed, tally.different
    )
}
