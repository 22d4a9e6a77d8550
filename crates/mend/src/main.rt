// The program mend: raw lists of a chart on standard input, its scrolls and speeds mended on standard output, with what became of each of their entries.
// The input is read in pieces to its end, and only then is anything written, all of it at once; an input that cannot be read to its end is
// refused, and a write that fails ends the program.
#![tactic(auto)]

use std::io::Print;

// The bytes of the page, on which every answer has room.
const PAGE: usize = 65536;

fn main(rt: HostRuntime) -> std::io::Result<()> {
    let mut page = [0u8; PAGE];
    let length = mend_stdin::write_input(&rt, &mut page, usize::MAX);
    rt.write_all(&page[..length])
}
