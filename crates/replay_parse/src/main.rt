// Replays stored answers of the original's parse: writes what the crate parse answers for the same lines under the same trees.
#![tactic(auto)]

mod answer;
mod sample;

fn main(rt: HostRuntime) {
    sample::all(&rt);
}
