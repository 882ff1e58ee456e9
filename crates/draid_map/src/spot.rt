ghost use Rattle.std.specs.Prelude.{◌≡◌, ◌+◌, ◌<◌, ◌≤◌, ◌*◌, ◌/◌, ◌%◌};

/// A stripe of the pool, or a sector of a child: its slice, the group or the row there, and how far it
/// is in that.
#[derive(Clone, Copy)]
pub(crate) struct Spot {
    pub slice: u64,
    pub band: u64,
    pub offset: u64,
}

impl Spot {
    /// Where a number lies, over slices of so many bands.
    pub fn of(number: u64, bands: u64, height: u64) -> Spot
        requires some_bands { 0 < bands }
        requires few_bands { bands ≤ 64 }
        requires some_height { 0 < height }
        requires low { height ≤ 4096 }
        ensures slice { result.slice ≡ number / (height * bands) }
        ensures band { result.band ≡ number / height % bands }
        ensures offset { result.offset ≡ number % height }
    {
        Spot {
            slice: number / (height * bands),
            band: number / height % bands,
            offset: number % height,
        }
    }

    /// The number that lies here, over slices of so many bands.
    pub fn number(self, bands: u64, height: u64) -> u64
        requires slice { self.slice < 65536 }
        requires band { self.band < bands }
        requires bands { bands ≤ 64 }
        requires height { height ≤ 4096 }
        requires offset { self.offset < height }
        ensures { result ≡ (self.slice * bands + self.band) * height + self.offset }
    {
        (self.slice * bands + self.band) * height + self.offset
    }
}
