ghost use Rattle.std.specs.Prelude.{◌≡◌};
ghost use Rattle.std.specs.List.{list_all};
ghost use Rattle.text_words.specs.Names.{may_stand, is_name, is_name_to};

const MOST_OF_NAME: u32 = 128;

fn may_stand(byte: u8) -> bool
    ensures { result ≡ may_stand byte }
{
    byte.is_ascii_alphanumeric()
        || byte == b'.'
        || byte == b'_'
        || byte == b'-'
        || byte == b'~'
        || byte == b'/'
}

fn all_may_stand(word: &[u8]) -> bool
    ensures { result ≡ list_all may_stand word.now }
{
    for byte in word {
        if !may_stand(*byte) {
            return false;
        }
    }
    true
}

/// Whether the word is a slash and then one or more letters, digits and `.`, `_`, `-`, `~`, `/`, in
/// all at most `most` bytes. A name that a split makes by default may be longer than a name that a
/// command gives.
pub fn is_name_to(word: &[u8], most: u32) -> bool
    ensures value { result ≡ is_name_to most word.now }
{
    match word {
        [b'/', rest @ ..] => !rest.is_empty() && rest.len() < most as usize && all_may_stand(rest),
        _ => false,
    }
}

/// Whether the word is the name of a file: a slash and then 1 to 127 letters, digits and `.`, `_`,
/// `-`, `~`, `/`. Names are flat: a slash parts nothing.
#[tactic(auto, unfolding(crate::specs::Names::is_name))]
pub fn is_name(word: &[u8]) -> bool
    ensures value { result ≡ is_name word.now }
{
    is_name_to(word, MOST_OF_NAME)
}
