/// What became of a call on an arm: the arm doesn't answer, or the call failed on this leaf, or it was done.
#[derive(Clone, Copy)]
pub(crate) enum Outcome {
    Silent,
    Failed { leaf: u64 },
    Done,
}
