use draid_names::Pointer;

/// An open write: its block, the column that is put next, and how many columns landed on no arm.
#[derive(Drop)]
pub struct Ticket {
    pub pointer: Pointer,
    pub next: u32,
    pub missed: u32,
}
