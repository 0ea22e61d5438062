// Replays stored answers of the original's tokenize: writes what the crate words answers for the same lines.
#![tactic(auto)]

mod answer;
mod sample;

fn main(rt: HostRuntime) {
    sample::all(&rt);
}
