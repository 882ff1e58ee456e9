/// What a pass over a metaslab does.
#[derive(Clone, Copy)]
pub enum PassKind {
    /// Restores stripe by stripe onto its targets, without checksums (a sequential rebuild).
    Rebuild,
    /// Verifies block by block and writes what differs (a scrub).
    Heal,
}
