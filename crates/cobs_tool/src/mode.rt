//! Finds the mode that the arguments ask for.
ghost use Rattle.std.specs.Prelude.{◌≡◌, ◌↔◌, ◌⊎◌, [], ◌∷◌, codes, Some, None};
ghost use Rattle.cobs_tool.specs.Words.{texts};

/// The mode of the program.
#[derive(Debug, PartialEq, Eq, Drop)]
pub enum Mode {
    /// Print a message's frame, followed by a zero, as hexadecimal digits.
    Show,

    /// Write a message's frame, followed by a zero.
    Encode,

    /// Print the outcome of each piece of a stream.
    Decode,
}

/// Returns the mode that the words after the program's name ask for. If there are no words, or the only word is `show`,
/// the mode is `Show`. For the single word `encode`, it is `Encode`, and for the single word `decode`, it is `Decode`.
/// For all other words, the function returns `None`, and the program prints its usage.
pub fn mode_of(words: &[String]) -> Option<Mode>
    ensures show { (result ≡ Some Mode.Show)
        ↔ ((texts words.now ≡ []) ⊎ (texts words.now ≡ codes "show" ∷ [])) }
    ensures encode { (result ≡ Some Mode.Encode) ↔ (texts words.now ≡ codes "encode" ∷ []) }
    ensures decode { (result ≡ Some Mode.Decode) ↔ (texts words.now ≡ codes "decode" ∷ []) }
{
    match words {
        [] => Some(Mode::Show),
        [word] => mode_named(word.as_str()),
        _ => None,
    }
}

/// Returns the mode with this name, if there is one.
fn mode_named(word: &str) -> Option<Mode>
    ensures show { (result ≡ Some Mode.Show) ↔ (word.now ≡ codes "show") }
    ensures encode { (result ≡ Some Mode.Encode) ↔ (word.now ≡ codes "encode") }
    ensures decode { (result ≡ Some Mode.Decode) ↔ (word.now ≡ codes "decode") }
{
    match word {
        "show" => Some(Mode::Show),
        "encode" => Some(Mode::Encode),
        "decode" => Some(Mode::Decode),
        _ => None,
    }
}
