// The codes that are white space, found by asking for every code and for one that is past the last.
use std::io::Print;

// Writes every code that is white space, a line each.
pub fn list(rt: &impl Print) {
    let _ = rt.write_all(b"The white space among all codes from 0 to 110000\n");
    for code in 0..=0x110000 {
        if text::is_white_space(code) {
            let _ = println!(rt; "{code:04x}");
        }
    }
}
