// What is written to the terminal when the line is drawn anew.
#![tactic(auto)]

mod decimal;
mod line;

pub use line::clear_line_and_redraw;
