// Document 01's worked examples that bear no star, run: each is printed with its outcome. Those that bear one
// are proved, in a table under one claim: specs/Table.antt and specs/Claim.antt.

#![tactic(auto)]

use chain::Chain;
use decibels::ratio;
use saturation_protector_buffer::usual_capacity;
use units::kinds::Db;
use units::refusals::Refusal;
use units::settings::Settings;

// Prints an example, the number of its reply, and whether that is the paper's: 0 where nothing is refused.
fn show<T: Copy>(
    rt: &HostRuntime,
    example: &str,
    answer: Result<T, Refusal>,
    due: Option<Refusal>,
) {
    let refusal = answer.err();
    let reply = refusal.map_or(0, |why| why.number());
    let _ = if refusal == due {
        println!(rt; "{example}: reply {reply}, as on paper")
    } else {
        println!(rt; "{example}: reply {reply}, NOT as on paper")
    };
}

// A new chain with channels of so many samples.
fn with_samples(samples: usize) -> Result<Chain, Refusal> {
    Chain::new(Settings::usual(), 2, samples, usual_capacity())
}

// "51 is accepted, -1 refused with 2."
fn show_ratios(rt: &HostRuntime) {
    show(rt, "ratio of 51", ratio(Db(51.0)), None);
    show(rt, "ratio of -1", ratio(Db(-1.0)), Some(Refusal::Figure));
}

// "Samples 20, 50, 500: reply 1. 40, 480: accepted."
fn show_samples(rt: &HostRuntime) {
    show(rt, "samples 20", with_samples(20), Some(Refusal::Shape));
    show(rt, "samples 50", with_samples(50), Some(Refusal::Shape));
    show(rt, "samples 500", with_samples(500), Some(Refusal::Shape));
    show(rt, "samples 40", with_samples(40), None);
    show(rt, "samples 480", with_samples(480), None);
}

fn main(rt: HostRuntime) {
    show_ratios(&rt);
    show_samples(&rt);
}
