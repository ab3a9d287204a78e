// The text of a trial.

ghost use Rattle.std.specs.Prelude.{◌≡◌, ◌≤◌, ◌^◌, length, IfOk, string_bytes};
ghost use Rattle.trial.specs.Text.{block_text, trial_text};

use std::alloc::{AllocError, Global};

/// The blocks of the text, each a loop and the print of the sum.
pub const BLOCKS: usize = 16;

/// The declarations.
const HEAD: &str = "array h[1024];\narray d[32768];\nvar s;\nvar m;\n";

/// The line behind the blocks.
const TAIL: &str = "print m;\n";

/// The text of a block, counted from 1.
fn block_text(alloc: Global, block: usize) -> Result<String, AllocError>
    requires { block ≤ BLOCKS }
    ensures { IfOk result (λ text. string_bytes text ≡ block_text block) }
{
    let factor = 2 * block + 1;
    format!(in alloc;
        "for i in 0..len(input) {{\nlet x = input[i];\nlet y = x*{factor} + i;\nd[i] = y & 65535;\nh[wrap y] += 1;\ns += y;\nm max= x;\n}}\nprint s;\n"
    )
}

/// The text of each trial: two arrays, two variables, 16 loops over the whole input with a print behind each, and one
/// print more. It has 2,034 bytes. The one error is that memory ran out.
pub fn trial_text(alloc: Global) -> Result<Vec<u8>, AllocError>
    ensures text { IfOk result (λ text. text.items ≡ trial_text) }
    ensures short { IfOk result (λ text. length text.items ≤ 2 ^ 20) }
{
    let mut text = Vec::from_slice(alloc, HEAD.as_bytes())?;
    for done in 0..BLOCKS {
        let block = block_text(alloc, done + 1)?;
        text.extend_from_slice(block.as_bytes())?;
    }
    text.extend_from_slice(TAIL.as_bytes())?;
    Ok(text)
}
