// Numbers in lines of text, for the programs that replay stored answers: words parted by one space, each
// a decimal number, with '-' before a negative one, or x and the hexadecimal digits of a pattern.
#![tactic(auto)]

ghost use Rattle.std.specs.Prelude.{◌≡◌, ◌≤◌, ◌<◌, Some, MatchOption};
ghost use Rattle.words.specs.Words.{digit_of, digits, negated, ValueSays, NumbersSays, SignedSays, Signed32Says};

pub mod scan;

// The number of a digit of the base.
fn digit(b: u8, base: u64) -> Option<u64>
    requires { base ≤ 16 }
    ensures { MatchOption result (base ≤ digit_of b) (λ d. (d < base) × (d ≡ digit_of b)) }
{
    let n = match b {
        b'0'..=b'9' => b - b'0',
        b'A'..=b'F' => b - b'A' + 10,
        _ => return None,
    };
    let d = u64::from(n);
    if d < base { Some(d) } else { None }
}

// Digits to a base; nothing where there is none, or one that is not of the base, or one behind a number of
// 2^60 or more, so that the number keeps to 64 bits.
fn digits_to(text: &[u8], base: u64) -> Option<u64>
    requires { base ≤ 16 }
    ensures { result ≡ digits base text.now }
{
    if text.is_empty() {
        return None;
    }
    let mut sum: u64 = 0;
    for b in text {
        let d = digit(*b, base)?;
        if 0x1000_0000_0000_0000 <= sum {
            return None;
        }
        sum = sum * base + d;
    }
    Some(sum)
}

// The pattern of a number below 0, from its magnitude.
fn negative(n: u64) -> Option<u64>
    ensures { result ≡ negated (Some n) }
{
    if 0x8000_0000_0000_0000 < n {
        return None;
    }
    Some(n.wrapping_neg())
}

// The 64 bits that a word says, in two's complement.
pub fn value(word: &[u8]) -> Option<u64>
    ensures { ValueSays word.now result }
{
    match word {
        [] => None,
        [b'-', behind @ ..] => negative(digits_to(behind, 10)?),
        [b'x', behind @ ..] => digits_to(behind, 16),
        _ => digits_to(word, 10),
    }
}

// Puts the numbers that a text begins with into `out`, as many as there is room for, and answers how many.
pub fn numbers(text: &[u8], out: &mut [u64]) -> usize
    ensures { NumbersSays text.now out.old result out.new }
{
    let mut n = 0;
    let mut a = 0;
    // Kept: tried `for (word, place) in text.split(..).zip(out.iter_mut())`; the proof did not close, for no lemma joins what they still have to `words_of`.
    while a < text.len() {
        let e = scan::find(text, a, b' ').unwrap_or(text.len());
        let Some(x) = value(&text[a..e]) else {
            return n;
        };
        if out.len() <= n {
            return n;
        }
        out[n] = x;
        n += 1;
        a = e + 1;
    }
    n
}

// The signed number that 64 bits are.
pub fn signed(bits: u64) -> i64
    ensures { SignedSays bits result }
{
    bits.cast_signed()
}

// The same where an i32 is wanted; 0 where none holds the number.
pub fn signed32(bits: u64) -> i32
    ensures { Signed32Says bits result }
{
    i32::try_from(signed(bits)).unwrap_or(0)
}
