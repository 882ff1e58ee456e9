ghost use Rattle.std.specs.Prelude.{◌≡◌, ◌≤◌, ◌<◌, ℕ, Option, Some, None, false, OnOk, OnErr, IsErrOf, IfSome, IfNone, IsSome, length, option_map};
ghost use Rattle.draid_names.specs.Faults.{Rose};
ghost use Rattle.draid_rack.specs.Moments.{ElapsesTold};
ghost use Rattle.draid_rack.specs.Rack.{Shape, Told, Fits, Lands, Reads, Counts, CountsOthers, IsOfShape, IsOrderly, OnTold, adds, damages, drops, flushes, settles, taints, with_leaf};

use draid_names::{At, DeviceFault, Failed};

/// All leaves of one metaslab. A leaf is a disk's share of the metaslab, a row of sectors.
///
/// A call raises the rack's clock, and those of the sectors that it changes, before it changes a byte. That
/// is what is trusted of a real device, so that a state in the middle of a write counts as one after it began.
pub trait Rack: Drop {
    ghost use Rattle.draid_names.specs.declared.fault.DeviceFault.{DeviceFault};

    /// The length of a sector, and the sectors of each leaf that is there.
    ghost shape: { Self → Shape };

    /// How often calls on a leaf have failed (`Some leaf`), and those on the rack as a whole (`None`).
    ghost faults: { Self → Option ℕ → ℕ };

    /// What the sectors read, which are soft, which are harmed, and the clocks, where the rack tells it.
    ghost told: { Self → Option Told };

    /// Reads one sector.
    fn read(&mut self, leaf: u64, sector: u64, into: &mut [u8]) -> Result<(), Failed>
        requires place { Fits (shape self.old) leaf sector (length into.old) }
        ensures whole { length into.new ≡ length into.old }
        ensures read { OnOk result (Reads (told self.old) leaf sector into.new) }
        ensures told { told self.new ≡ told self.old }
        ensures moments { ElapsesTold (told self.old) (told self.new) }
        ensures shape { shape self.new ≡ shape self.old }
        ensures cause { Counts (Some leaf) result (faults self.old) (faults self.new) };

    /// Writes one sector, and ends its harm. A failed write leaves the sector with any bytes.
    fn write(&mut self, leaf: u64, sector: u64, bytes: &[u8]) -> Result<(), Failed>
        requires place { Fits (shape self.old) leaf sector (length bytes.now) }
        ensures told { Lands leaf sector bytes.now (λ _. false) result (told self.old) (told self.new) }
        ensures moments { ElapsesTold (told self.old) (told self.new) }
        ensures shape { shape self.new ≡ shape self.old }
        ensures cause { Counts (Some leaf) result (faults self.old) (faults self.new) };

    /// Writes one sector with bytes that came from others. It is harmed afterwards just where one of those is.
    fn mend(&mut self, leaf: u64, sector: u64, bytes: &[u8], sources: &[At]) -> Result<(), Failed>
        requires place { Fits (shape self.old) leaf sector (length bytes.now) }
        ensures told { Lands leaf sector bytes.now (taints sources.now) result (told self.old)
            (told self.new) }
        ensures moments { ElapsesTold (told self.old) (told self.new) }
        ensures shape { shape self.new ≡ shape self.old }
        ensures cause { Counts (Some leaf) result (faults self.old) (faults self.new) };

    /// Writes one sector whose harm stays as it was.
    fn patch(&mut self, leaf: u64, sector: u64, bytes: &[u8]) -> Result<(), Failed>
        requires place { Fits (shape self.old) leaf sector (length bytes.now) }
        ensures told { Lands leaf sector bytes.now (λ x. x.harmed leaf sector) result (told self.old)
            (told self.new) }
        ensures moments { ElapsesTold (told self.old) (told self.new) }
        ensures shape { shape self.new ≡ shape self.old }
        ensures cause { Counts (Some leaf) result (faults self.old) (faults self.new) };

    /// Makes what was written to a leaf outlast a crash. Where it fails, nothing changes.
    fn flush(&mut self, leaf: u64) -> Result<(), Failed>
        requires place { IsSome ((shape self.old).leaves leaf) }
        ensures ok { OnOk result (told self.new ≡ option_map (flushes leaf) (told self.old)) }
        ensures err { OnErr result (told self.new ≡ told self.old) }
        ensures moments { ElapsesTold (told self.old) (told self.new) }
        ensures shape { shape self.new ≡ shape self.old }
        ensures cause { Counts (Some leaf) result (faults self.old) (faults self.new) };

    /// Ends the harm of a sector that isn't soft.
    fn settle(&mut self, leaf: u64, sector: u64)
        requires place { Fits (shape self.old) leaf sector (shape self.old).bytes }
        requires firm { OnTold (told self.old) (λ x. x.soft leaf sector ≡ false) }
        ensures told { told self.new ≡ option_map (settles leaf sector) (told self.old) }
        ensures moments { ElapsesTold (told self.old) (told self.new) }
        ensures shape { shape self.new ≡ shape self.old }
        ensures later { (w : Option ℕ) → faults self.old w ≤ faults self.new w };

    /// Makes each byte of a sector its complement, and the sector harmed. Where it fails, nothing changes.
    fn damage(&mut self, leaf: u64, sector: u64) -> Result<(), Failed>
        requires place { Fits (shape self.old) leaf sector (shape self.old).bytes }
        ensures ok { OnOk result (told self.new ≡ option_map (damages leaf sector) (told self.old)) }
        ensures err { OnErr result (told self.new ≡ told self.old) }
        ensures moments { ElapsesTold (told self.old) (told self.new) }
        ensures shape { shape self.new ≡ shape self.old }
        ensures cause { Counts (Some leaf) result (faults self.old) (faults self.new) };

    /// Adds a leaf of zeros. A leaf of that number that was there is given up, where it succeeds.
    fn add_leaf(&mut self, leaf: u64, sectors: u64) -> Result<(), DeviceFault>
        ensures ok { OnOk result
            (told self.new ≡ option_map (adds (shape self.old).bytes leaf sectors) (told self.old)) }
        ensures err { OnErr result (told self.new ≡ told self.old) }
        ensures moments { ElapsesTold (told self.old) (told self.new) }
        ensures shape { OnOk result (shape self.new ≡ with_leaf leaf (Some sectors) (shape self.old)) }
        ensures same { OnErr result (shape self.new ≡ shape self.old) }
        ensures later { CountsOthers leaf (faults self.old) (faults self.new) }
        ensures kept { OnErr result (faults self.old (Some leaf) ≤ faults self.new (Some leaf)) }
        ensures cause { IsErrOf result DeviceFault.Failed → Rose (faults self.old None) (faults self.new None) };

    /// Gives up a leaf, if it is there.
    fn drop_leaf(&mut self, leaf: u64)
        ensures told { told self.new ≡ option_map (drops leaf) (told self.old) }
        ensures moments { ElapsesTold (told self.old) (told self.new) }
        ensures shape { shape self.new ≡ with_leaf leaf None (shape self.old) }
        ensures later { CountsOthers leaf (faults self.old) (faults self.new) };

    /// How many sectors a leaf has, where it is there.
    fn sectors(&self, leaf: u64) -> Option<u64>
        ensures { result ≡ (shape self.now).leaves leaf };

    /// The least leaf from this number on.
    fn leaf_from(&self, from: u64) -> Option<u64>
        ensures some { IfSome result (λ l. (from ≤ l) × IsSome ((shape self.now).leaves l)
            × ((m : ℕ) → from ≤ m → m < l → (shape self.now).leaves m ≡ None)) }
        ensures none { IfNone result ((m : ℕ) → from ≤ m → (shape self.now).leaves m ≡ None) };

    /// No sector's clock is later than the rack's.
    ghost orderly: { (rack : Self) → OnTold (told rack) IsOrderly };

    /// Just the sectors that are there read something, each bytes of a sector's length.
    ghost shaped: { (rack : Self) → OnTold (told rack) (IsOfShape (shape rack)) };
}
