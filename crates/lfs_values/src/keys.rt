//! Which option a word is. The options are after the lfs manual pages.

ghost use Rattle.std.specs.Prelude.{◌≡◌, ◌↔◌};
ghost use Rattle.lfs_values.specs.declared.keys.Key.{Key};
ghost use Rattle.lfs_values.specs.Keys.{exact_key, front_key, key_of, IsKey, front_of, value_of};

/// What a word is where an option may stand.
#[derive(Clone, Copy, Debug, PartialEq, Eq)]
pub enum Key {
    /// `-E`: the end of a component follows.
    End,
    /// `-S`: a stripe size follows.
    Size,
    /// `-c`: a number of stripes follows.
    Count,
    /// `-N`: a mirror begins.
    Mirror,
    /// `-N` and something behind it in the same word: so many mirrors begin.
    Mirrors,
    /// `--flags=prefer`.
    Prefer,
    /// `-f`: the name of another file follows.
    File,
    /// `-d`.
    Destroy,
    /// `-I`: the id of a component follows.
    Id,
    /// `--comp-set`.
    CompSet,
    /// `--comp-flags=` and a list of flags.
    CompFlags,
    /// `--mirror-id`: the id of a mirror follows.
    MirrorId,
    /// `--mirror-id=` and the id of a mirror.
    MirrorIdIs,
    /// `--only`: ids of mirrors follow.
    Only,
    /// `--only=` and ids of mirrors.
    OnlyIs,
    /// Another word that begins with `-`.
    Dash,
    /// A word that doesn't begin with `-`.
    Plain,
}

#[tactic(auto, unfolding(crate::specs::Keys::exact_key))]
fn exact_key(word: &[u8]) -> Option<Key>
    ensures { result ≡ exact_key word.now }
{
    if word == b"-E".as_slice() {
        Some(Key::End)
    } else if word == b"-S".as_slice() {
        Some(Key::Size)
    } else if word == b"-c".as_slice() {
        Some(Key::Count)
    } else if word == b"-N".as_slice() {
        Some(Key::Mirror)
    } else if word == b"--flags=prefer".as_slice() {
        Some(Key::Prefer)
    } else if word == b"-f".as_slice() {
        Some(Key::File)
    } else if word == b"-d".as_slice() {
        Some(Key::Destroy)
    } else if word == b"-I".as_slice() {
        Some(Key::Id)
    } else if word == b"--comp-set".as_slice() {
        Some(Key::CompSet)
    } else if word == b"--mirror-id".as_slice() {
        Some(Key::MirrorId)
    } else if word == b"--only".as_slice() {
        Some(Key::Only)
    } else {
        None
    }
}

#[tactic(auto, unfolding(crate::specs::Keys::front_key))]
fn front_key(word: &[u8]) -> Key
    ensures { result ≡ front_key word.now }
{
    if word.starts_with(b"-N") {
        Key::Mirrors
    } else if word.starts_with(b"--comp-flags=") {
        Key::CompFlags
    } else if word.starts_with(b"--mirror-id=") {
        Key::MirrorIdIs
    } else if word.starts_with(b"--only=") {
        Key::OnlyIs
    } else {
        Key::Dash
    }
}

#[tactic(auto, unfolding(crate::specs::Keys::key_of))]
fn find_key(word: &[u8]) -> Key
    ensures { result ≡ key_of word.now }
{
    if !word.starts_with(b"-") {
        return Key::Plain;
    }
    match exact_key(word) {
        Some(key) => key,
        None => front_key(word),
    }
}

/// Which option the word is. Where `-N` may stand, any longer word that begins with it is `Mirrors`,
/// whatever stands behind it.
pub fn key_of(word: &[u8]) -> Key
    ensures value { result ≡ key_of word.now }
    ensures spelled { (key : Key) → ((result ≡ key) ↔ IsKey key word.now) }
{
    find_key(word)
}

fn front_of(key: Key) -> &'static [u8]
    ensures { result.now ≡ front_of key }
{
    match key {
        Key::Mirrors => b"-N",
        Key::CompFlags => b"--comp-flags=",
        Key::MirrorIdIs => b"--mirror-id=",
        Key::OnlyIs => b"--only=",
        _ => b"",
    }
}

/// What stands in the word behind the name of the option, where it has its value in the same word,
/// and else the whole word.
pub fn value_of(word: &[u8], key: Key) -> &[u8]
    ensures value { result.now ≡ value_of word.now key }
{
    let front = front_of(key);
    if word.len() < front.len() {
        return &word[word.len()..];
    }
    &word[front.len()..]
}
