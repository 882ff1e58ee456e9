use draid_area::MemoryArea;
use draid_rack::MemoryRack;

/// The devices that a shelf in memory holds, each metaslab's on its place.
#[derive(Drop)]
pub(crate) struct Devices {
    pub racks: [Option<MemoryRack>; 64],
    pub evens: [Option<MemoryArea>; 64],
    pub odds: [Option<MemoryArea>; 64],
    pub check_even: Option<MemoryArea>,
    pub check_odd: Option<MemoryArea>,
    pub uber: Option<MemoryArea>,
}
