/// What of a shelf in memory has calls that can be made to fail.
#[derive(Clone, Copy)]
pub enum Place {
    /// The shelf itself, which makes and takes devices.
    Own,
    /// The rack of a metaslab.
    Rack(u32),
    /// The area of a metaslab's records of even groups.
    Even(u32),
    /// The area of a metaslab's records of odd groups.
    Odd(u32),
    /// The area of the check records of even groups.
    CheckEven,
    /// The area of the check records of odd groups.
    CheckOdd,
    /// The area of the uberblock.
    Uber,
}
