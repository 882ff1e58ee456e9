/// The devices of one metaslab: its leaves, and the areas of the records of even and of odd groups.
#[derive(Drop)]
pub struct Kit<R: Drop, A: Drop> {
    pub rack: R,
    pub even: A,
    pub odd: A,
}
