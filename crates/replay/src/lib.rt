// Replay: what the programs share that answer each line of their input, digits in hexadecimal, by a line of output.
#![tactic(auto)]

pub mod answer;
pub mod hex;
pub mod input;
pub mod line;
pub mod planting;
