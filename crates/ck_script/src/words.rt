ghost use Rattle.std.specs.Prelude.{◌≡◌, IfOk, map as list_map};
ghost use Rattle.ck_text.specs.Words.{words_of};

use ck_model::NoMemory;
use std::alloc::Global;

/// The words of a line.
pub fn words_in(alloc: Global, line: &[u8]) -> Result<Vec<&[u8]>, NoMemory>
    ensures { IfOk result (λ words. list_map (λ word. word.now) words.items ≡ words_of line.now) }
{
    let places = ck_text::words(alloc, line)?;
    let mut words = Vec::new(alloc);
    for place in &places {
        words.push(&line[place.0..place.1])?;
    }
    Ok(words)
}
