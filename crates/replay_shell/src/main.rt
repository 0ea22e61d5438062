// Replays what the original does with lines: writes what the crate shell answers for the same lines under the same trees.
#![tactic(auto)]

mod answer;
mod sample;

fn main(rt: HostRuntime) {
    sample::all(&rt);
}
