// Replays stored sessions of the original's loop: writes what the crate editor shows for the same keys, and the history that they leave.
#![tactic(auto)]

mod pressing;
mod sample;

fn main(rt: HostRuntime) {
    sample::all(&rt);
}
