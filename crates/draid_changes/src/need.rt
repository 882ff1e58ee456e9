/// What a change of arms asks for in each metaslab.
#[derive(Clone, Copy)]
pub(crate) enum Need {
    /// One event.
    Event,
    /// The events of an attachment: where a rebuild runs, which is planned again, one more.
    Attachment,
    /// An event for each of so many spares that come one after another, where no metaslab has a pass.
    Spares { count: u32 },
}
