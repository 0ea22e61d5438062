// Frames printed as house lines, one after the other in a lent buffer.
ghost use Rattle.std.specs.Prelude.{◌≡◌, ◌∷◌, ◌+◌, ◌*◌, ◌≤◌, length, drop};
ghost use Rattle.buffer.specs.Write.{Pushed};
ghost use Rattle.frame.specs.House.{house_line};
ghost use Rattle.session.specs.Prints.{wide, lines_of, shown, prompt};

use frame::write_line;

// Prints a frame at a place of out and returns the place after it.
pub fn print(frame: &[u8], out: &mut [u8], at: usize) -> usize
    requires { at + (2 * length frame.now + 1) ≤ length out.old }
    ensures { Pushed (house_line frame.now) out.old at result out.new }
{
    let Ok(n) = write_line(frame, &mut out[at..]) else {
        return at;
    };
    at + n
}

// Prints screen bytes, before which their frame's kind stands; none are not printed.
pub fn print_screen(frame: &[u8], out: &mut [u8], at: usize) -> usize
    requires { (at + (2 * length frame.now + 1) ≤ length out.old) × (frame.now ≡ 0x22 ∷ drop 1 frame.now) }
    ensures { Pushed (lines_of (shown (drop 1 frame.now))) out.old at result out.new }
{
    if frame.len() <= 1 {
        return at;
    }
    print(frame, out, at)
}

// Prints the prompt.
pub fn print_prompt(out: &mut [u8], at: usize) -> usize
    requires { at + 23 ≤ length out.old }
    ensures { Pushed (lines_of (shown prompt)) out.old at result out.new }
{
    print_screen(b"\"axvisor:$ ", out, at)
}

// A kind and a number in two bytes, with which a frame begins.
pub fn head(kind: u8, number: usize) -> [u8; 3]
    ensures { result ≡ kind ∷ wide number }
{
    let [high, low] = ((number % 65536) as u16).to_be_bytes();
    [kind, high, low]
}
