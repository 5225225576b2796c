ghost use Rattle.std.specs.Prelude.{◌≡◌, ◌+◌, ◌++◌, ◌<◌, ◌≤◌, IfOk, OnOk, AllPairs, length, drop, map, slice_range};
ghost use Rattle.std.specs.List.{position_or_len, AllByRecursion};
ghost use Rattle.ck_text.specs.Words.{is_blank, word_between, words_of};

use ck_model::NoMemory;
use std::alloc::Global;

fn is_space(byte: u8) -> bool
    ensures { result ≡ is_blank byte }
{
    byte == b' ' || byte == b'\t'
}

/// Where the word ends that begins here, which is here itself at a blank.
fn word_end(line: &[u8], start: usize) -> usize
    requires { start ≤ length line.now }
    ensures end { result ≡ start + position_or_len is_blank (drop start line.now) }
    ensures within { result ≤ length line.now }
{
    for at in start..line.len() {
        if is_space(line[at]) {
            return at;
        }
    }
    line.len()
}

fn push_word(words: &mut Vec<(usize, usize)>, start: usize, end: usize) -> Result<(), NoMemory>
    ensures { OnOk result (words.new.items ≡ words.old.items ++ word_between start end) }
{
    if start < end {
        words.push((start, end))?;
    }
    Ok(())
}

/// The start and the end of each word of a line, in their order. Words are parted by spaces and tabs.
pub fn words(alloc: Global, line: &[u8]) -> Result<Vec<(usize, usize)>, NoMemory>
    ensures words { IfOk result (λ words.
        map (λ word. slice_range line.now word.0 word.1) words.items ≡ words_of line.now) }
    ensures within { IfOk result (λ words.
        AllByRecursion (λ word. (word.0 < word.1) × (word.1 ≤ length line.now)) words.items) }
    ensures apart { IfOk result (λ words. AllPairs (λ earlier later. earlier.1 < later.0) words.items) }
{
    let mut words = Vec::new(alloc);
    let mut at = 0;
    while at < line.len() {
        let end = word_end(line, at);
        push_word(&mut words, at, end)?;
        at = end + 1;
    }
    Ok(words)
}
