// The lines that the shell answers by itself.
ghost use Rattle.std.specs.Prelude.{◌≡◌};
ghost use Rattle.shell.specs.Lines.{builtin_of};

use buffer::same;

// `None` among them is the text of the definition, which the clauses of `run` cite.
#[derive(Clone, Copy)]
pub enum Builtin {
    Help,
    Exit,
    Clear,
    None,
}

// Which of them a trimmed line is. A `match` on byte strings would leave the proof a case for each byte of each.
pub fn builtin_of(line: &[u8]) -> Builtin
    ensures { result ≡ builtin_of line.now }
{
    if same(line, b"help") {
        return Builtin::Help;
    }
    if same(line, b"exit") || same(line, b"quit") {
        return Builtin::Exit;
    }
    if same(line, b"clear") {
        return Builtin::Clear;
    }
    Builtin::None
}
