// The words of a line: what stands between spaces.
ghost use Rattle.std.specs.Prelude.{◌≡◌, ◌+◌, ◌≤◌, length, drop};
ghost use Rattle.text.specs.Inner.Within.{Within};
ghost use Rattle.text.specs.Word.{equal_bytes, before, is, words, NextWord};
ghost use Rattle.text.specs.Inner.Word.{words_from};

// A word, and the line behind it.
#[derive(Clone, Copy)]
pub struct Split<'a> {
    pub word: &'a [u8],
    pub rest: &'a [u8],
}

// The first place from `at` on where this byte stands, or the end: a place that every caller goes on from, and so no Option.
pub fn find_byte(text: &[u8], at: usize, byte: u8) -> usize
    requires { at ≤ length text.now }
    ensures place { result ≡ at + before (is byte) (drop at text.now) }
    ensures within { Within at result text.now }
{
    match text[at..].iter().position(|b| *b == byte) {
        Some(n) => at + n,
        None => text.len(),
    }
}

// The next word of a line, if it has one.
pub fn next_word(line: &[u8]) -> Option<Split<'_>>
    ensures place { NextWord line.now result }
    ensures words { words line.now ≡ words_from result }
{
    let from = line.iter().position(|b| *b != b' ')?;
    let to = find_byte(line, from, b' ');
    Some(Split {
        word: &line[from..to],
        rest: &line[to..],
    })
}

// Whether two runs of bytes are the same.
pub fn same(a: &[u8], b: &[u8]) -> bool
    ensures { result ≡ equal_bytes a.now b.now }
{
    a == b
}
