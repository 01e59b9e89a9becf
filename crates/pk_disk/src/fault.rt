//! A disk whose calls fail as planned.
ghost use Rattle.std.specs.Prelude.{◌≡◌, ◌≤◌, ◌<◌, ◌+◌, ◌-◌, length, slice_range, true};
ghost use Rattle.std.specs.Prelude.{OnOk, OnErr};
ghost use Rattle.pk_disk.specs.Disk.{IsImage, IsCounted, IsPartWritten, full_count, nowhere};
ghost use Rattle.pk_disk.specs.Disk.{opened, written};
ghost use Rattle.pk_disk.specs.Since.{OnlyNew, NoneNew, StayKnown};

use crate::plan::Plan;
use crate::{Disk, DiskFault};

/// A disk that passes its calls on to another, but for those that fail as planned.
///
/// A failing read or sync does nothing. A failing write passes on the first half of its bytes,
/// rounded up. Over an honest disk it is honest. It counts failures of its own, from none.
#[derive(Drop)]
pub struct FaultDisk<D: Disk> {
    inner: D,
    plan: Plan,
    bytes_read: u64,
    failed_reads: u64,
    failed_writes: u64,
}

impl<D: Disk> FaultDisk<D> {
    /// Passes the calls before the `k`th read, write or sync, and fails that and all later ones.
    pub fn new(inner: D, k: u64) -> Self
        requires { 1 ≤ k }
        ensures inner { result.inner ≡ inner }
        ensures plan { result.plan ≡ Plan.From k }
        ensures bytes_read { result.bytes_read ≡ 0 }
        ensures reads { result.failed_reads ≡ 0 }
        ensures writes { result.failed_writes ≡ 0 }
    {
        FaultDisk::planned(inner, Plan::From(k))
    }

    /// Fails the `k`th read, write or sync alone.
    pub fn once(inner: D, k: u64) -> Self
        requires { 1 ≤ k }
        ensures inner { result.inner ≡ inner }
        ensures plan { result.plan ≡ Plan.Once k }
        ensures bytes_read { result.bytes_read ≡ 0 }
        ensures reads { result.failed_reads ≡ 0 }
        ensures writes { result.failed_writes ≡ 0 }
    {
        FaultDisk::planned(inner, Plan::Once(k))
    }

    /// The disk below.
    pub fn into_inner(self) -> D
        ensures { result ≡ self.inner }
    {
        let FaultDisk { inner, .. } = self;
        inner
    }

    /// How many bytes its reads that didn't fail have given. At 2^64 − 1 it stays.
    pub fn bytes_read(&self) -> u64
        ensures { result ≡ self.now.bytes_read }
    {
        let FaultDisk { bytes_read, .. } = self;
        *bytes_read
    }

    fn planned(inner: D, plan: Plan) -> Self
        ensures inner { result.inner ≡ inner }
        ensures plan { result.plan ≡ plan }
        ensures bytes_read { result.bytes_read ≡ 0 }
        ensures reads { result.failed_reads ≡ 0 }
        ensures writes { result.failed_writes ≡ 0 }
    {
        FaultDisk {
            inner,
            plan,
            bytes_read: 0,
            failed_reads: 0,
            failed_writes: 0,
        }
    }
}

impl<D: Disk> Disk for FaultDisk<D> {
    ghost use Rattle.pk_disk.specs.Fault.{
      FollowsPlan,
      IsGiven,
      IsHeld,
      bytes_after,
      fails_at,
      first_half,
    };

    ghost content = { λ f. D.content f.inner };

    ghost is_open = { λ f. D.is_open f.inner };

    ghost moment = { λ f. D.moment f.inner };

    ghost images_since = { λ f. D.images_since f.inner };

    ghost failed_reads = { λ f. f.failed_reads };

    ghost failed_writes = { λ f. f.failed_writes };

    ghost honest = { D.honest };

    ghost counts_now = { λ f. D.counts_now f.inner };

    ghost only_now = { λ f. D.only_now f.inner };

    fn len(&self) -> u64 {
        self.inner.len()
    }

    fn read(&mut self, at: u64, out: &mut [u8]) -> Result<(), DiskFault>
        requires { at + length out.old ≤ length (D.content self.old.inner) }
        ensures plan { FollowsPlan self.old.plan self.new.plan self.old.failed_reads
            (D.failed_reads self.old.inner) (D.failed_reads self.new.inner) result }
        ensures bytes_read { self.new.bytes_read
            ≡ bytes_after self.old.bytes_read (length out.old) result }
        ensures held { IsHeld self.old.plan self.old.failed_reads
            → self.new.inner ≡ self.old.inner }

        // The clauses of the trait.
        ensures given { D.honest → OnOk result
            (out.new ≡ slice_range (D.content self.old.inner) at (at + length out.old)) }
        ensures bytes { D.honest → D.content self.new.inner ≡ D.content self.old.inner }
        ensures is_open { D.honest → D.is_open self.new.inner ≡ D.is_open self.old.inner }
        ensures images { D.honest → NoneNew D.moment D.images_since self.old.inner self.new.inner }
        ensures known { D.honest → StayKnown D.moment D.images_since self.old.inner self.new.inner }
        ensures size { length (D.content self.new.inner) ≡ length (D.content self.old.inner) }
        ensures reads { IsCounted self.old.failed_reads self.new.failed_reads result }
        ensures writes { self.new.failed_writes ≡ self.old.failed_writes }
    {
        if self.plan.fails() || self.failed_reads == u64::MAX {
            self.failed_reads = self.failed_reads.saturating_add(1);
            return Err(DiskFault);
        }
        let Ok(()) = self.inner.read(at, out) else {
            self.failed_reads += 1;
            return Err(DiskFault);
        };
        self.bytes_read = self.bytes_read.saturating_add(out.len() as u64);
        Ok(())
    }

    fn write(&mut self, at: u64, bytes: &[u8]) -> Result<(), DiskFault>
        requires { at + length bytes.now ≤ length (D.content self.old.inner) }
        ensures plan { FollowsPlan self.old.plan self.new.plan self.old.failed_writes
            (D.failed_writes self.old.inner) (D.failed_writes self.new.inner) result }
        ensures bytes_read { self.new.bytes_read ≡ self.old.bytes_read }
        ensures half { D.honest → fails_at self.old.plan 1 ≡ true
            → self.old.failed_writes < full_count
            → IsGiven D.Disk at (first_half bytes.now) self.old.inner self.new.inner }
        ensures full { self.old.failed_writes ≡ full_count → self.new.inner ≡ self.old.inner }

        // The clauses of the trait.
        ensures bytes { D.honest → OnOk result
            (D.content self.new.inner ≡ written (D.content self.old.inner) at bytes.now) }
        ensures is_open { D.honest → OnOk result
            (D.is_open self.new.inner ≡ opened (D.is_open self.old.inner) at (length bytes.now)) }
        ensures part { D.honest → OnErr result
            (IsPartWritten (D.content self.old.inner) (D.is_open self.old.inner)
            at (length bytes.now) (D.content self.new.inner) (D.is_open self.new.inner)) }
        ensures images { D.honest → OnlyNew D.moment D.images_since self.old.inner self.new.inner
            (IsImage (D.content self.old.inner)
            (opened (D.is_open self.old.inner) at (length bytes.now))) }
        ensures known { D.honest → StayKnown D.moment D.images_since self.old.inner self.new.inner }
        ensures size { length (D.content self.new.inner) ≡ length (D.content self.old.inner) }
        ensures writes { IsCounted self.old.failed_writes self.new.failed_writes result }
        ensures reads { self.new.failed_reads ≡ self.old.failed_reads }
    {
        let planned = self.plan.fails();
        if self.failed_writes == u64::MAX {
            return Err(DiskFault);
        }
        if planned {
            let half = bytes.len().div_ceil(2);
            let _ = self.inner.write(at, &bytes[..half]);
            self.failed_writes += 1;
            return Err(DiskFault);
        }
        let Ok(()) = self.inner.write(at, bytes) else {
            self.failed_writes += 1;
            return Err(DiskFault);
        };
        Ok(())
    }

    fn sync(&mut self) -> Result<(), DiskFault>
        ensures plan { FollowsPlan self.old.plan self.new.plan self.old.failed_writes
            (D.failed_writes self.old.inner) (D.failed_writes self.new.inner) result }
        ensures bytes_read { self.new.bytes_read ≡ self.old.bytes_read }
        ensures held { IsHeld self.old.plan self.old.failed_writes
            → self.new.inner ≡ self.old.inner }

        // The clauses of the trait.
        ensures closed { D.honest → OnOk result (D.is_open self.new.inner ≡ nowhere) }
        ensures is_open { D.honest → OnErr result
            (D.is_open self.new.inner ≡ D.is_open self.old.inner) }
        ensures bytes { D.honest → D.content self.new.inner ≡ D.content self.old.inner }
        ensures images { D.honest → NoneNew D.moment D.images_since self.old.inner self.new.inner }
        ensures known { D.honest → StayKnown D.moment D.images_since self.old.inner self.new.inner }
        ensures size { length (D.content self.new.inner) ≡ length (D.content self.old.inner) }
        ensures writes { IsCounted self.old.failed_writes self.new.failed_writes result }
        ensures reads { self.new.failed_reads ≡ self.old.failed_reads }
    {
        if self.plan.fails() || self.failed_writes == u64::MAX {
            self.failed_writes = self.failed_writes.saturating_add(1);
            return Err(DiskFault);
        }
        let Ok(()) = self.inner.sync() else {
            self.failed_writes += 1;
            return Err(DiskFault);
        };
        Ok(())
    }
}
