//! The third words of the lines of a rebalance script.

ghost use Rattle.std.specs.Prelude.{◌≡◌};
ghost use Rattle.pc_script.specs.Steps.{step_word_of};

#[derive(Clone, Copy, Debug, PartialEq, Eq)]
pub(crate) enum StepWord {
    Assign,
    Revoke,
    Lose,
    Crash,
}

#[tactic(auto, unfolding(crate::specs::Steps::step_word_of))]
pub(crate) fn step_word(text: &[u8]) -> Option<StepWord>
    ensures { result ≡ step_word_of text.now }
{
    if text == b"assign".as_slice() {
        Some(StepWord::Assign)
    } else if text == b"revoke".as_slice() {
        Some(StepWord::Revoke)
    } else if text == b"lose".as_slice() {
        Some(StepWord::Lose)
    } else if text == b"crash".as_slice() {
        Some(StepWord::Crash)
    } else {
        None
    }
}
