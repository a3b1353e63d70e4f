ghost use Rattle.std.specs.Prelude.{◌≡◌, ◌++◌, IfSome, OnOk, string_bytes};
ghost use Rattle.pls_io.specs.Lines.{gap};

use std::alloc::AllocError;
use std::fmt::Display;

/// Appends a word to a line: after a space where `any` says that words stand there already.
pub fn push_word<W: Display + Drop>(line: &mut String, any: bool, word: W) -> Result<(), AllocError>
    ensures { OnOk result (IfSome (W.output word) (λ bytes. string_bytes line.new ≡ string_bytes line.old ++ (gap any ++ bytes))) }
{
    if any {
        line.push_str(" ")?;
    }
    write!(line, "{word}")
}
