// Runs the worked examples through the public calls, and prints of each what came out and whether that was expected.
#![tactic(auto)]

mod quotes;
mod rows;
mod sheets;
mod verdict;
mod years;

ghost use Rattle.examples.specs.Examples.{WorkedExamples};

// The definitions give what the worked examples say.
pub fn examples_hold()
    ensures { WorkedExamples }
{}

fn run(rt: &HostRuntime) -> anyhow::Result<()> {
    quotes::show(rt)?;
    years::show(rt)?;
    sheets::show(rt)
}

fn main(rt: HostRuntime) -> anyhow::Result<()> {
    run(&rt)
}
