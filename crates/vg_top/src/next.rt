use crate::answer::Answer;

/// What follows the bytes of a file.
#[derive(Drop)]
pub(crate) enum Next<T> {
    /// Another file is asked for.
    Ask(T),
    Answer(Answer),
}
