//! The first words of the lines of a play script.

ghost use Rattle.std.specs.Prelude.{◌≡◌};
ghost use Rattle.pc_script.specs.PlayScript.{play_word_of};

#[derive(Clone, Copy, Debug, PartialEq, Eq)]
pub(crate) enum PlayWord {
    Assign,
    Poll,
    Take,
    End,
    Tick,
    Commit,
    Revoke,
    Lose,
    Crash,
    Drain,
    Done,
    Close,
}

#[tactic(auto, unfolding(crate::specs::PlayScript::play_word_of))]
pub(crate) fn play_word(text: &[u8]) -> Option<PlayWord>
    ensures { result ≡ play_word_of text.now }
{
    if text == b"assign".as_slice() {
        Some(PlayWord::Assign)
    } else if text == b"poll".as_slice() {
        Some(PlayWord::Poll)
    } else if text == b"take".as_slice() {
        Some(PlayWord::Take)
    } else if text == b"end".as_slice() {
        Some(PlayWord::End)
    } else if text == b"tick".as_slice() {
        Some(PlayWord::Tick)
    } else if text == b"commit".as_slice() {
        Some(PlayWord::Commit)
    } else if text == b"revoke".as_slice() {
        Some(PlayWord::Revoke)
    } else if text == b"lose".as_slice() {
        Some(PlayWord::Lose)
    } else if text == b"crash".as_slice() {
        Some(PlayWord::Crash)
    } else if text == b"drain".as_slice() {
        Some(PlayWord::Drain)
    } else if text == b"done".as_slice() {
        Some(PlayWord::Done)
    } else if text == b"close".as_slice() {
        Some(PlayWord::Close)
    } else {
        None
    }
}
