// Words and numbers, put into a lent room, by hand: a listing's `put` always answers, and allocates nothing. By `Display`
// and `write!` its text is promised only where `fmt` answers Ok, and no clause can say that it fails only where its
// writer does. Room and place are passed apart: a struct that holds the room would itself be lent at each call, which
// is no plainer.
#![tactic(auto)]

ghost use Rattle.std.specs.Prelude.{◌++◌, ◌+◌, ◌≤◌, length};
ghost use Rattle.words.specs.Room.{TextPut};
ghost use Rattle.words.specs.Words.{numeral, spaced, line_end};

// A word from at on; answers where it ends.
pub fn put(out: &mut [u8], at: usize, word: &[u8]) -> usize
    requires { at + length word.now ≤ length out.old }
    ensures { TextPut out.old at word.now out.new result }
{
    let end = at + word.len();
    out[at..end].copy_from_slice(word);
    end
}

// A number in decimal digits, 20 at most.
pub fn put_number(out: &mut [u8], at: usize, n: u64) -> usize
    requires { at + 20 ≤ length out.old }
    ensures text_put { TextPut out.old at (numeral n) out.new result }
    ensures upper_bound { result ≤ at + 20 }
{
    let mut digits = [0u8; 20];
    let k = io::decimal(n, &mut digits);
    put(out, at, &digits[..k])
}

// A blank and a number.
pub fn put_spaced(out: &mut [u8], at: usize, n: u64) -> usize
    requires { at + 21 ≤ length out.old }
    ensures text_put { TextPut out.old at (spaced n) out.new result }
    ensures upper_bound { result ≤ at + 21 }
{
    let end = put(out, at, b" ");
    put_number(out, end, n)
}

// A word, a blank and a number.
pub fn put_named(out: &mut [u8], at: usize, word: &[u8], n: u64) -> usize
    requires { at + (length word.now + 21) ≤ length out.old }
    ensures text_put { TextPut out.old at (word.now ++ spaced n) out.new result }
    ensures upper_bound { result ≤ at + (length word.now + 21) }
{
    let end = put(out, at, word);
    put_spaced(out, end, n)
}

// A line of two words with a number each.
pub fn put_pair(out: &mut [u8], at: usize, word: &[u8], n: u64, next: &[u8], m: u64) -> usize
    requires { at + (length word.now + length next.now + 43) ≤ length out.old }
    ensures text_put { TextPut out.old at
        (word.now ++ (spaced n ++ (next.now ++ (spaced m ++ line_end)))) out.new result }
    ensures upper_bound { result ≤ at + (length word.now + length next.now + 43) }
{
    let first = put_named(out, at, word, n);
    put_line(out, first, next, m)
}

// A line of a word and a number.
pub fn put_line(out: &mut [u8], at: usize, word: &[u8], n: u64) -> usize
    requires { at + (length word.now + 22) ≤ length out.old }
    ensures text_put { TextPut out.old at (word.now ++ (spaced n ++ line_end)) out.new result }
    ensures upper_bound { result ≤ at + (length word.now + 22) }
{
    let end = put_named(out, at, word, n);
    put(out, end, b"\n")
}
