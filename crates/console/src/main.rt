// The console: reads house lines from standard input, and writes what their session prints to standard output. All that needs no system call is in `stream`.
#![tactic(auto)]

mod channels;
mod settings;
mod turns;

fn main(rt: HostRuntime) {
    if let Some(profile) = settings::choose(&rt) {
        turns::run(&rt, profile);
    }
}
