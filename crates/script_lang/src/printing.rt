//! From a script to its one spelling.
ghost use Rattle.std.specs.Prelude.{◌≡◌, ◌≤◌, ◌++◌, ◌∷◌, [], OnOk, IfOk, Ok, ℕ, List, length, flat_map};
ghost use Rattle.ckpt_types.specs.Limits.{script_bytes_max};
ghost use Rattle.script_lines.specs.declared.lines.Line.{Line};
ghost use Rattle.script_lang.specs.Grammar.{script_of};
ghost use Rattle.script_lines.specs.Spelling.{line_text};
ghost use Rattle.script_lang.specs.Spelling.{spelling};

use crate::script::Script;
use ckpt_types::Bytes;
use script_lines::{Line, write_line};
use std::alloc::{AllocError, Global};

/// The one spelling of a script: words with one space between two, bytes as `x` and lower-case digits,
/// no empty lines and no comments, and a newline after every line.
pub fn print(alloc: Global, script: &Script) -> Result<Bytes, AllocError>
    ensures spelled { IfOk result (λ text. text ≡ spelling script.now) }
    // A script that was read is read again from its spelling.
    ensures again { (bytes : List ℕ) → script_of bytes ≡ Ok script.now → IfOk result (λ text. length text ≤ script_bytes_max → script_of text ≡ Ok script.now) }
{
    spell(alloc, script)
}

/// A script that was read has a spelling that is read as the same script.
pub fn read_again()
    ensures { (bytes : List ℕ) (script : List Line) → script_of bytes ≡ Ok script → length (spelling script) ≤ script_bytes_max → script_of (spelling script) ≡ Ok script }
{}

#[tactic(auto, unfolding(crate::specs::Spelling::spelling))]
fn spell(alloc: Global, script: &Script) -> Result<Bytes, AllocError>
    ensures { IfOk result (λ text. text ≡ spelling script.now) }
{
    let mut out = Vec::new(alloc);
    write_lines(alloc, &mut out, script.as_slice())?;
    Ok(Bytes::from_vec(out))
}

fn write_lines(alloc: Global, out: &mut Vec<u8>, lines: &[Line]) -> Result<(), AllocError>
    ensures { OnOk result (out.new.items ≡ out.old.items ++ flat_map (λ x. line_text x ++ 10 ∷ []) lines.now) }
{
    for line in lines {
        write_line(alloc, out, line)?;
        out.extend_from_slice(b"\n")?;
    }
    Ok(())
}
