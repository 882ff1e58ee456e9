use crate::gate::Gate;
use crate::locked::Locked;
use crate::uber::UberCell;
use draid_area::Area;
use draid_pool::Own;
use draid_rack::Rack;
use draid_spec::Geometry;
use draid_turn::{Pass, Turn};
use std::sync::Wait;

/// A lane among several: its metaslabs, its pass of the uberblock's lock, and what is its own. The metaslabs are borrowed for `'a`, and the uberblock's lock, which can be
/// taken apart before them, for `'b`.
#[derive(Drop)]
pub struct Lane<'a, 'b, R: Rack, A: Area, G: Gate, W: Wait> {
    /// The layout of its metaslabs.
    pub geometry: Geometry,
    pub metaslabs: Locked<'a, R, A, G, W>,
    pub uber: &'b Turn<UberCell<'a, R, A>>,
    pub pass: Pass<UberCell<'a, R, A>>,
    pub own: Own,
}
