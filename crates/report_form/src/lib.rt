// The report program's input as an automaton: one step a byte over a small state, and what each byte completes.
#![tactic(auto)]

ghost use Rattle.std.specs.Prelude.{◌≡◌, ◌<◌, take};
ghost use Rattle.report_form.specs.Form.{start, broken, grown, letter_of, hex_of, unit_read, character_of, list_named, follows, opened, named_of};
ghost use Rattle.report_form.specs.Form.{width_of, last_digits_of, comma_of, more, closed, format_ended, entry_ended, ended_of, step_of, whole, over, answer_of};
ghost use Rattle.report_form.specs.Stores.{nothing, complete, store_of};
ghost use Rattle.report_form.specs.ReadColumns.{entries_counted};

// How far the input is read: whether it is of the form so far, its format, the list of the last line, the part of the line that is being
// read (0: the word before the equals sign), that part's characters and what they make, and how many entries of the list stand before.
#[derive(Clone, Copy)]
pub struct Reading {
    pub fine: bool,
    pub ssc: bool,
    pub list: u64,
    pub part: u64,
    pub digits: u64,
    pub number: u64,
    pub count: u64,
}

// A number that a byte completes: its column (list and part), its place there, and the entries that the list has then. List 0: none.
#[derive(Clone, Copy)]
pub struct Store {
    pub list: u64,
    pub part: u64,
    pub at: u64,
    pub number: u64,
    pub count: u64,
}

// The most entries that a list of the report may have.
pub const MOST_REPORTED: usize = 256;

const MOST_COUNTED: u64 = MOST_REPORTED as u64;

// Entries are counted by the number of their list, and the last list is 8.
pub const COUNTS: usize = 9;

// The state before the first byte.
pub fn begin() -> Reading
    ensures { result ≡ start }
{
    Reading {
        fine: true,
        ssc: false,
        list: 0,
        part: 0,
        digits: 0,
        number: 0,
        count: 0,
    }
}

fn refuse(reading: Reading) -> Reading
    ensures { result ≡ broken reading }
{
    Reading {
        fine: false,
        ssc: reading.ssc,
        list: reading.list,
        part: reading.part,
        digits: reading.digits,
        number: reading.number,
        count: reading.count,
    }
}

fn grow(reading: Reading, number: u64) -> Reading
    requires { reading.digits < 16 }
    ensures { result ≡ grown reading number }
{
    Reading {
        fine: true,
        ssc: reading.ssc,
        list: reading.list,
        part: reading.part,
        digits: reading.digits + 1,
        number: number,
        count: reading.count,
    }
}

fn wide(byte: u8) -> u64
    ensures { result ≡ byte }
{
    byte as u64
}

fn letter(reading: Reading, byte: u8) -> Reading
    ensures { result ≡ letter_of reading byte }
{
    if byte < b'a' {
        return refuse(reading);
    }
    if byte > b'z' {
        return refuse(reading);
    }
    if reading.digits >= 6 {
        return refuse(reading);
    }
    grow(
        reading,
        reading.number % 0x100_0000_0000_0000 * 256 + wide(byte),
    )
}

fn hex(reading: Reading, byte: u8) -> Reading
    ensures { result ≡ hex_of reading byte }
{
    if reading.digits >= 16 {
        return refuse(reading);
    }
    let value = ieee_patterns::hex_value(byte);
    if value >= 16 {
        return refuse(reading);
    }
    grow(
        reading,
        reading.number % 0x1000_0000_0000_0000 * 16 + wide(value),
    )
}

fn unit(reading: Reading, byte: u8) -> Reading
    ensures { result ≡ unit_read reading byte }
{
    if byte < b'0' {
        return refuse(reading);
    }
    if byte > b'9' {
        return refuse(reading);
    }
    if reading.digits >= 1 {
        return refuse(reading);
    }
    grow(reading, wide(byte - b'0'))
}

// Any byte but a separator.
fn character(reading: Reading, byte: u8) -> Reading
    ensures { result ≡ character_of reading byte }
{
    if reading.part == 0 {
        return letter(reading, byte);
    }
    if reading.list == 1 {
        return letter(reading, byte);
    }
    if reading.list == 6 {
        if reading.part == 4 {
            return unit(reading, byte);
        }
        return hex(reading, byte);
    }
    hex(reading, byte)
}

// The list that a word names, its letters taken as one number; 0 for none.
fn list_of(word: u64) -> u64
    ensures { result ≡ list_named word }
{
    if word == 0x666F_726D_6174 {
        return 1;
    }
    if word == 0x62_706D {
        return 2;
    }
    if word == 0x7374_6F70 {
        return 3;
    }
    if word == 0x64_656C_6179 {
        return 4;
    }
    if word == 0x7761_7270 {
        return 5;
    }
    if word == 0x73_7065_6564 {
        return 6;
    }
    if word == 0x7363_726F_6C6C {
        return 7;
    }
    if word == 0x6661_6B65 {
        return 8;
    }
    0
}

fn may_follow(last: u64, next: u64) -> bool
    ensures { result ≡ follows last next }
{
    if last == 0 {
        return next == 1;
    }
    if 1 < next {
        return last <= next;
    }
    false
}

fn open(reading: Reading, list: u64) -> Reading
    ensures { result ≡ opened reading list }
{
    if list == reading.list {
        return Reading {
            fine: true,
            ssc: reading.ssc,
            list: list,
            part: 1,
            digits: 0,
            number: 0,
            count: reading.count,
        };
    }
    Reading {
        fine: true,
        ssc: reading.ssc,
        list: list,
        part: 1,
        digits: 0,
        number: 0,
        count: 0,
    }
}

// An equals sign.
fn named(reading: Reading) -> Reading
    ensures { result ≡ named_of reading }
{
    if reading.part != 0 {
        return refuse(reading);
    }
    let list = list_of(reading.number);
    if !may_follow(reading.list, list) {
        return refuse(reading);
    }
    open(reading, list)
}

fn width(list: u64) -> u64
    ensures { result ≡ width_of list }
{
    if list == 6 {
        return 4;
    }
    2
}

fn last_digits(list: u64) -> u64
    ensures { result ≡ last_digits_of list }
{
    if list == 6 {
        return 1;
    }
    16
}

fn comma(reading: Reading) -> Reading
    ensures { result ≡ comma_of reading }
{
    if reading.digits != 16 {
        return refuse(reading);
    }
    if reading.part >= width(reading.list) {
        return refuse(reading);
    }
    Reading {
        fine: true,
        ssc: reading.ssc,
        list: reading.list,
        part: reading.part + 1,
        digits: 0,
        number: 0,
        count: reading.count,
    }
}

// Stays where it is once it is above 256, so that no input overflows it.
fn one_more(count: u64) -> u64
    ensures { result ≡ more count }
{
    if count > MOST_COUNTED {
        return count;
    }
    count + 1
}

fn close(reading: Reading, ssc: bool, count: u64) -> Reading
    ensures { result ≡ closed reading ssc count }
{
    Reading {
        fine: true,
        ssc: ssc,
        list: reading.list,
        part: 0,
        digits: 0,
        number: 0,
        count: count,
    }
}

fn format(reading: Reading) -> Reading
    ensures { result ≡ format_ended reading }
{
    if reading.part != 1 {
        return refuse(reading);
    }
    if reading.number == 0x736D {
        return close(reading, false, reading.count);
    }
    if reading.number == 0x73_7363 {
        return close(reading, true, reading.count);
    }
    refuse(reading)
}

fn entry(reading: Reading) -> Reading
    ensures { result ≡ entry_ended reading }
{
    if reading.part != width(reading.list) {
        return refuse(reading);
    }
    if reading.digits != last_digits(reading.list) {
        return refuse(reading);
    }
    close(reading, reading.ssc, one_more(reading.count))
}

// A line feed.
fn ended(reading: Reading) -> Reading
    ensures { result ≡ ended_of reading }
{
    if reading.list == 1 {
        return format(reading);
    }
    entry(reading)
}

// What one byte does.
pub fn step(reading: Reading, byte: u8) -> Reading
    ensures { result ≡ step_of reading byte }
{
    if !reading.fine {
        return reading;
    }
    if byte == b'\n' {
        return ended(reading);
    }
    if byte == b'=' {
        return named(reading);
    }
    if byte == b',' {
        return comma(reading);
    }
    character(reading, byte)
}

fn no_store() -> Store
    ensures { result ≡ nothing }
{
    Store {
        list: 0,
        part: 0,
        at: 0,
        number: 0,
        count: 0,
    }
}

fn store_of(reading: Reading, next: Reading) -> Store
    ensures { result ≡ complete reading next }
{
    Store {
        list: reading.list,
        part: reading.part,
        at: reading.count,
        number: reading.number,
        count: next.count,
    }
}

// What the byte completed that led from one state to the next.
pub fn completed(reading: Reading, byte: u8, next: Reading) -> Store
    ensures { result ≡ store_of reading byte next }
{
    if !next.fine {
        return no_store();
    }
    if byte == b'\n' {
        return store_of(reading, next);
    }
    if byte == b',' {
        return store_of(reading, next);
    }
    no_store()
}

// Whether what is read so far is a whole input.
pub fn is_whole(reading: Reading) -> bool
    ensures { result ≡ whole reading }
{
    if !reading.fine {
        return false;
    }
    if reading.list == 0 {
        return false;
    }
    if 0 < reading.part {
        return false;
    }
    reading.digits == 0
}

fn is_over(counts: &[u64]) -> bool
    ensures { result ≡ over counts.now }
{
    for &count in counts {
        if count > MOST_COUNTED {
            return true;
        }
    }
    false
}

// The number that the input is refused by before any entry is looked at: 10 where it is not of the form, 1 where a list is too long.
pub fn answer(reading: Reading, counts: &[u64]) -> u32
    ensures { result ≡ answer_of reading counts.now }
{
    if !is_whole(reading) {
        return limits::BAD_TEXT;
    }
    if is_over(counts) {
        return limits::TOO_LONG;
    }
    limits::TAKEN
}

// ---- what was read

// How many entries a list has; none where the counts end before it.
pub fn count_of(counts: &[u64], list: usize) -> usize
    ensures { result ≡ entries_counted counts.now list }
{
    if list < counts.len() {
        return counts[list] as usize;
    }
    0
}

// The first entries of a column.
pub fn front(column: &[f64], count: usize) -> &[f64]
    ensures { result.now ≡ take count column.now }
{
    if count < column.len() {
        return &column[..count];
    }
    column
}
