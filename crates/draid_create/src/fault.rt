use draid_area::Area;
use draid_names::DeviceFault;
use draid_rack::Rack;
use draid_shelf::Kit;
use draid_spec::SpecFault;

/// Why no pool was created.
#[derive(Clone, Copy)]
pub enum CreateFault {
    /// There is no layout of this spec and these properties.
    Spec(SpecFault),
    /// The shelf failed.
    Shelf,
    NoMemory,
}

/// A metaslab wasn't created: a call on the area of its record failed, or there was no memory. Its devices come back.
#[derive(Drop)]
pub struct MetaslabRefused<R: Rack, A: Area> {
    pub kit: Kit<R, A>,
    pub why: DeviceFault,
}
