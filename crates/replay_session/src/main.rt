// Replays stored sessions through the loop of the program `console`, in pieces of several sizes: writes what each session prints.
#![tactic(auto)]

mod sample;
mod taking;
mod ways;

fn main(rt: HostRuntime) {
    sample::all(&rt);
}
