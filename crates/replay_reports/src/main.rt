// Replays inputs of the report program, stored with the original's answers.
#![tactic(auto)]

use replay_cases::Program;

fn main(rt: HostRuntime) -> std::io::Result<()> {
    let tally = replay_cases::replay_all(&rt, Program::Report)?;
    println!(rt; "{} reports, {} different", tally.answers, tally.different)
}
