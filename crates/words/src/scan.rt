// Where a byte stands in a text.
ghost use Rattle.std.specs.Prelude.{◌≡◌, ◌==◌, ◌<◌, ◌≤◌, length, position, IfSome};
ghost use Rattle.words.specs.Words.{FindSays};

fn first(text: &[u8], byte: u8) -> Option<usize>
    ensures { result ≡ position (λ b. b == byte) text.now }
{
    text.iter().position(|b| *b == byte)
}

// The first place from `from` on that holds the byte.
pub fn find(text: &[u8], from: usize, byte: u8) -> Option<usize>
    ensures first { FindSays text.now from byte result }
    ensures low { IfSome result (λ i. from ≤ i) }
    ensures high { IfSome result (λ i. i < length text.now) }
{
    Some(from + first(text.get(from..)?, byte)?)
}
