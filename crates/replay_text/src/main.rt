// Replays stored answers of Rust's own text functions: writes what the crate text answers for the same inputs.
#![tactic(auto)]

mod codes;
mod parts;
mod sample;
mod white;

fn main(rt: HostRuntime) {
    codes::one_byte(&rt);
    codes::two_bytes(&rt);
    codes::codes(&rt);
    white::list(&rt);
    sample::all(&rt);
}
