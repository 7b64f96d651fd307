/// How far an action has come: which request is made next, or is unanswered.
#[derive(Clone, Copy, Debug, PartialEq, Eq)]
pub enum Stage {
    /// A context is made, which asserts the client's level.
    Asserting,
    Exchanging,
    Creating,
    Reclaiming,
    /// The label is asked, and what is to be read. A List repeats it.
    Asking,
    /// Something is written, made, removed or raised, behind a comparison of the label.
    Changing,
    Closing,
    EndingSession,
    EndingClient,
    EndingContext,
}
