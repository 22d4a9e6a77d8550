// Replays inputs of the program mend, stored with the answers of a plain reading.
#![tactic(auto)]

use replay_cases::Program;

fn main(rt: HostRuntime) -> std::io::Result<()> {
    let tally = replay_cases::replay_all(&rt, Program::Mend)?;
    println!(rt; "{} answers, {} different", tally.answers, tally.different)
}
