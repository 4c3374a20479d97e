//! A disk of which some writes in a row are refused, as on a disk that is full for a while.
ghost use Rattle.std.specs.Prelude.{◌≡◌, ◌+◌, false};
ghost use Rattle.sqlite_disk.specs.Disk.{CountsFault};
ghost use Rattle.sqlite_disk.specs.Refusal.{finds_no_room};

use sqlite_disk::{Crash, Disk, Tally};
use std::io;

/// Passes so many writes on, refuses so many after these, which change nothing, and passes on the rest. All other calls are passed on.
#[derive(Drop)]
pub(crate) struct Flaky<D: Disk> {
    inner: D,
    passes: u64,
    refusals: u64,
    refused: u64,
}

impl<D: Disk> Flaky<D> {
    /// A disk over this one, which passes so many writes on and then refuses so many.
    pub fn new(inner: D, passes: u64, refusals: u64) -> Flaky<D> {
        Flaky {
            inner,
            passes,
            refusals,
            refused: 0,
        }
    }

    /// What it passes calls on to.
    pub fn inner(&self) -> &D {
        &self.inner
    }

    /// How many writes it has refused.
    pub fn refused(&self) -> u64 {
        self.refused
    }
}

// Counts the next write as one that is passed on, or as a refused one, which is an error. The counts are of writes that pass before the refusals, of refusals
// that are left, and of those that were.
fn admit(passes: &mut u64, refusals: &mut u64, refused: &mut u64) -> io::Result<()>
    ensures faults { CountsFault result refused.old refused.new }
    ensures kind { finds_no_room result ≡ false }
{
    if *passes > 0 {
        *passes -= 1;
        return Ok(());
    }
    if *refusals == 0 {
        return Ok(());
    }
    *refusals -= 1;
    *refused = refused.saturating_add(1);
    Err(io::Error::other("the write is refused"))
}

impl<D: Disk> Disk for Flaky<D> {
    ghost seen = { λ f. D.Disk.seen f.inner };

    ghost may_leave = { λ f. D.Disk.may_leave f.inner };

    ghost is_usable = { λ f. D.Disk.is_usable f.inner };

    ghost faults = { λ f. D.Disk.faults f.inner + f.refused };

    ghost tally_of = { λ f. D.Disk.tally_of f.inner };

    ghost is_rotten = { λ f. D.Disk.is_rotten f.inner };

    ghost key_of = { λ f. D.Disk.key_of f.inner };

    ghost is_clean = { λ f. D.Disk.is_clean f.inner };

    ghost is_fair = { λ f. D.Disk.is_fair f.inner };

    ghost fair_if_clean = { λ f. D.Disk.fair_if_clean f.inner };

    ghost seen_may_stay = { λ f. D.Disk.seen_may_stay f.inner };

    ghost is_mixing = { λ f. D.Disk.is_mixing f.inner };

    fn mixes(&self) -> bool {
        self.inner.mixes()
    }

    fn key(&self) -> u64 {
        self.inner.key()
    }

    fn tally(&self) -> Tally {
        self.inner.tally()
    }

    fn may_be_used(&self) -> bool {
        self.inner.may_be_used()
    }

    fn len(&mut self) -> io::Result<usize> {
        self.inner.len()
    }

    fn read_at(&mut self, at: usize, buf: &mut [u8]) -> io::Result<()> {
        self.inner.read_at(at, buf)
    }

    fn read_checked(&mut self, key: u64, want: u64, at: usize, buf: &mut [u8]) -> io::Result<()> {
        self.inner.read_checked(key, want, at, buf)
    }

    fn write_at(&mut self, at: usize, bytes: &[u8]) -> io::Result<()> {
        admit(&mut self.passes, &mut self.refusals, &mut self.refused)?;
        self.inner.write_at(at, bytes)
    }

    fn set_len(&mut self, len: usize) -> io::Result<()> {
        self.inner.set_len(len)
    }

    fn sync(&mut self) -> io::Result<()> {
        self.inner.sync()
    }
}

/// The machine comes back with a disk that refuses nothing.
impl<D: Crash> Crash for Flaky<D> {
    fn crash(&mut self) {
        self.inner.crash();
        self.refusals = 0;
    }
}
