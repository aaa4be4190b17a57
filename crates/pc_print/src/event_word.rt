//! The first words of the lines of a history.

ghost use Rattle.std.specs.Prelude.{◌≡◌};
ghost use Rattle.pc_print.specs.Reading.{event_word_of};

#[derive(Clone, Copy, Debug, PartialEq, Eq)]
pub(crate) enum EventWord {
    Assign,
    Poll,
    Dispatch,
    Success,
    Failure,
    Stale,
    Commit,
    CommitFailed,
    Revoke,
    Lost,
    Crash,
    Tick,
    Drain,
    Done,
    Closed,
}

#[tactic(auto, unfolding(crate::specs::Reading::event_word_of))]
pub(crate) fn event_word(text: &[u8]) -> Option<EventWord>
    ensures { result ≡ event_word_of text.now }
{
    if text == b"assign".as_slice() {
        Some(EventWord::Assign)
    } else if text == b"poll".as_slice() {
        Some(EventWord::Poll)
    } else if text == b"dispatch".as_slice() {
        Some(EventWord::Dispatch)
    } else if text == b"success".as_slice() {
        Some(EventWord::Success)
    } else if text == b"failure".as_slice() {
        Some(EventWord::Failure)
    } else if text == b"stale".as_slice() {
        Some(EventWord::Stale)
    } else if text == b"commit".as_slice() {
        Some(EventWord::Commit)
    } else if text == b"commit-failed".as_slice() {
        Some(EventWord::CommitFailed)
    } else if text == b"revoke".as_slice() {
        Some(EventWord::Revoke)
    } else if text == b"lost".as_slice() {
        Some(EventWord::Lost)
    } else if text == b"crash".as_slice() {
        Some(EventWord::Crash)
    } else if text == b"tick".as_slice() {
        Some(EventWord::Tick)
    } else if text == b"drain".as_slice() {
        Some(EventWord::Drain)
    } else if text == b"done".as_slice() {
        Some(EventWord::Done)
    } else if text == b"closed".as_slice() {
        Some(EventWord::Closed)
    } else {
        None
    }
}
