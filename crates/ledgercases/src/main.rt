// Runs the cases that stand on standard input, each on a ledger of its own, and prints every answer: `ledgercases < CASES`.
#![tactic(auto)]

mod answers;
mod case;
mod cases;
mod held;
mod lines;
mod numbers;
mod order;

use cases::answers;
use std::io::Read;

fn run(rt: &HostRuntime) -> anyhow::Result<()> {
    let mut bytes = Vec::new(rt.alloc());
    let _ = rt.stdin().read_to_end(&mut bytes)?;
    let text = String::from_utf8_lossy(rt.alloc(), &bytes)?;
    for line in answers(rt.alloc(), text.as_str())?.as_slice() {
        println!(rt; "{line}")?;
    }
    Ok(())
}

fn main(rt: HostRuntime) -> anyhow::Result<()> {
    run(&rt)
}
