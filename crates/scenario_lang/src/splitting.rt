// The lines of a text and the words of a line, without taking memory.
ghost use Rattle.std.specs.Prelude.{◌≡◌, ◌∷◌, [], ◌<◌, length, MatchOption, IfSome, if◌then◌else◌};
ghost use Rattle.mesh_text.specs.Addresses.{split_at};
ghost use Rattle.scenario_lang.specs.Split.{words, is_word};

/// The bytes before the first separator, and what follows it.
pub(crate) fn piece(bytes: &[u8], separator: u8) -> (&[u8], Option<&[u8]>)
    ensures pieces { MatchOption result.1 (split_at separator bytes.now ≡ result.0.now ∷ []) (λ rest. split_at separator bytes.now ≡ result.0.now ∷ split_at separator rest.now) }
    ensures shorter { IfSome result.1 (λ rest. length rest.now < length bytes.now) }
{
    for (n, b) in bytes.iter().enumerate() {
        if *b == separator {
            let (front, rest) = bytes.split_at(n);
            return (front, Some(rest.split_at(1).1));
        }
    }
    (bytes, None)
}

/// What stands before the first space, and what follows it.
fn front(line: &[u8]) -> (&[u8], &[u8])
    ensures words { words line.now ≡ (if is_word result.0.now then result.0.now ∷ words result.1.now else words result.1.now) }
    ensures shorter { 0 < length line.now → length result.1.now < length line.now }
{
    let (word, more) = piece(line, b' ');
    match more {
        Some(rest) => (word, rest),
        None => (word, &[]),
    }
}

/// The first word, and what follows it.
pub(crate) fn next_word(line: &[u8]) -> Option<(&[u8], &[u8])>
    ensures words { MatchOption result (words line.now ≡ []) (λ p. words line.now ≡ p.0.now ∷ words p.1.now) }
    ensures shorter { IfSome result (λ p. length p.1.now < length line.now) }
{
    let mut rest = line;
    while !rest.is_empty() {
        let (word, more) = front(rest);
        if !word.is_empty() {
            return Some((word, more));
        }
        rest = more;
    }
    None
}
