//! How another body takes the place of the one in force: the plans of a commit and of a merge, and
//! the one way in which a plan is carried out.
ghost use Rattle.std.specs.Prelude.{◌≡◌, ◌≤◌, ◌+◌, IfOk, OnErr, OnOk, false, length};
ghost use Rattle.pk_disk.specs.Frames.{KeepsDisk};
ghost use Rattle.pk_index.specs.Index.{Keeps};
ghost use Rattle.pk_layout.specs.Change.{changed};
ghost use Rattle.pk_layout.specs.Merging.{run_of};
ghost use Rattle.pk_layout.specs.Plan.{AreNext, GoesOn, IsPlan, LeavesRoom, PlansAs};
ghost use Rattle.pk_layout.specs.Plan.{PromisesTable};
ghost use Rattle.pk_open.specs.Opened.{entries_of};
ghost use Rattle.pk_replace.specs.Cause.{IsUndamaged};
ghost use Rattle.pk_segment.specs.Spelling.{docs_of};
ghost use Rattle.pk_store.specs.Carrying.{Carries, Goes};
ghost use Rattle.pk_store.specs.Losing.{LosesNone};
ghost use Rattle.pk_store.specs.Merging.{AreInputsOf, MergesRun, PlansRun};
ghost use Rattle.pk_store.specs.Planned.{PlansPrepared};
ghost use Rattle.pk_store.specs.Refusing.{stream_refusal};
ghost use Rattle.pk_store.specs.Within.{AreWithin, InputsWithin};

use crate::inputs::inputs_of;
use crate::losing::{documents_in, documents_left};
use crate::prepared::{merge_refusal, new_segment};
use crate::volume::Volume;
use pk_disk::Disk;
use pk_index::Index;
use pk_layout::{
    CommitPlan, LayoutFault, MergePlan, Plan, Run, Uncommitted, plan_commit, plan_merged,
};
use pk_merge::{MergeInput, MergeWriter, Prepared, prepare};
use pk_model::{Document, Refusal};
use pk_open::copy_of;
use pk_replace::{Followed, Pieces, StreamFault, WritesExtent, replace_with};
use std::alloc::Global;

// The plan of a merge of a run, and what is prepared of it: none where no document is left.
#[derive(Drop)]
struct RunPlan {
    merge: MergePlan,
    prepared: Option<Prepared>,
}

impl<D: Disk> Volume<D> {
    /// The plan of a commit of these documents, which are indexed, and this next number.
    ///
    /// Its faults are `TooLarge`, `Full` and `Memory`.
    pub(crate) fn plan_commit(
        &self,
        alloc: Global,
        documents: &[Document],
        index: &Index,
        next_number: u32,
    ) -> Result<CommitPlan, LayoutFault>
        requires index { Keeps index.now (docs_of documents.now) }
        requires room { LeavesRoom self.now.body (length documents.now) }
        requires next { AreNext self.now.body (docs_of documents.now) next_number }
        ensures plan { PlansAs (length (D.content self.now.disk)) self.now.body self.now.opened
            (docs_of documents.now) next_number result }
        ensures opened { entries_of self.now.opened ≡ self.now.body.entries }
    {
        let new = Uncommitted {
            documents,
            index,
            next_number,
        };
        plan_commit(alloc, &self.manifest, &self.opened, &new)
    }

    // The plan of a merge of so many segments from a place on, which is prepared.
    //
    // Refused as damaged where what is prepared is no segment, or where documents would be lost, as
    // segment too large, as full, or as memory.
    fn plan_prepared(
        &self,
        alloc: Global,
        from: usize,
        count: usize,
        prepared: &Option<Prepared>,
    ) -> Result<MergePlan, Refusal>
        requires room { LeavesRoom self.now.body 0 }
        requires some { 1 ≤ count }
        requires within { from + count ≤ length self.now.body.entries }
        ensures { PlansPrepared self.now.body self.now.opened from count prepared.now result }
    {
        let new = new_segment(prepared)?;
        let run = Run { from, count };
        let merge = plan_merged(alloc, &self.manifest, &self.opened, run, new)?;
        if documents_in(&new) < documents_left(&self.opened[from..from + count]) {
            return Err(Refusal::Damaged);
        }
        Ok(merge)
    }

    // The plan of a merge of so many segments from a place on, and what is prepared of it; the disk
    // is only read. The inputs are those segments.
    //
    // Refused as segment too large, as full, as damaged where a segment is none, as disk where a
    // read failed, or as memory.
    fn plan_run(
        &mut self,
        alloc: Global,
        from: usize,
        count: usize,
        inputs: &[MergeInput],
    ) -> Result<RunPlan, Refusal>
        requires room { LeavesRoom self.old.body 0 }
        requires some { 1 ≤ count }
        requires within { from + count ≤ length self.old.body.entries }
        requires run { AreInputsOf self.old.body.entries self.old.opened from count inputs.now }
        ensures plan { PlansRun D.Disk self.old from count inputs.now result self.new }
        // Whatever was read, no document is lost.
        ensures kept { IfOk result (λ r. LosesNone self.old.opened
            (changed r.merge.plan.change self.old.opened)) }
        // And where a document is left, no list is none, or goes past its segment.
        ensures inside { D.honest → OnOk result (InputsWithin (D.content self.old.disk) inputs.now
            (run_of from count self.old.opened)) }
    {
        let prepared = match prepare(alloc, &mut self.disk, inputs) {
            Ok(prepared) => prepared,
            Err(fault) => return Err(merge_refusal(fault)),
        };
        let merge = self.plan_prepared(alloc, from, count, &prepared)?;
        Ok(RunPlan { merge, prepared })
    }

    // Merges so many segments from a place on, which are the inputs.
    fn merge_inputs(
        &mut self,
        alloc: Global,
        from: usize,
        count: usize,
        inputs: &[MergeInput],
    ) -> Result<(), Refusal>
        requires clear { self.old.reopen ≡ false }
        requires room { LeavesRoom self.old.body 0 }
        requires some { 1 ≤ count }
        requires within { from + count ≤ length self.old.body.entries }
        requires run { AreInputsOf self.old.body.entries self.old.opened from count inputs.now }
        ensures run { MergesRun D.Disk self.old from count result self.new }
        ensures kept { OnOk result (LosesNone self.old.opened self.new.opened) }
        ensures inside { D.honest → OnOk result (InputsWithin (D.content self.old.disk) inputs.now
            (run_of from count self.old.opened)) }
    {
        let RunPlan { merge, prepared } = self.plan_run(alloc, from, count, inputs)?;
        let MergePlan {
            plan,
            place,
            pieces,
        } = merge;
        match (prepared, place) {
            (Some(prepared), Some(place)) => {
                let first = MergeWriter {
                    prepared,
                    inputs: &*inputs,
                    first: place.first,
                };
                let writer = Followed {
                    first,
                    pieces: &pieces,
                };
                self.carry_out(plan, writer).map_err(stream_refusal)
            }
            _ => self
                .carry_out(plan, Pieces(&pieces))
                .map_err(stream_refusal),
        }
    }

    /// Makes one segment of so many from a place on, of the documents that their deletion lists
    /// leave, or none where no document is left. It is written as the segments are read.
    ///
    /// Refused as segment too large, as full, as damaged where a segment is none, as disk where the
    /// device failed, or as memory. After a write or a sync that failed the disk has to be opened
    /// again; else what is committed stands as it did.
    pub(crate) fn merge_run(
        &mut self,
        alloc: Global,
        from: usize,
        count: usize,
    ) -> Result<(), Refusal>
        requires clear { self.old.reopen ≡ false }
        requires room { LeavesRoom self.old.body 0 }
        requires some { 1 ≤ count }
        requires within { from + count ≤ length self.old.body.entries }
        ensures run { MergesRun D.Disk self.old from count result self.new }
        ensures kept { OnOk result (LosesNone self.old.opened self.new.opened) }
        ensures inside { D.honest → OnOk result (AreWithin (D.content self.old.disk)
            (run_of from count self.old.body.entries) (run_of from count self.old.opened)) }
    {
        // The inputs borrow their deletion lists, and the volume's own are going to change.
        let run = copy_of(alloc, &self.opened[from..from + count])?;
        let inputs = inputs_of(alloc, &run)?;
        self.merge_inputs(alloc, from, count, &inputs)
    }

    /// Puts the plan's body in force with what the writer writes for it, and keeps what it says.
    ///
    /// After a write or a sync that failed the disk has to be opened again; else what is committed
    /// stands as it did.
    pub(crate) fn carry_out<W: WritesExtent>(
        &mut self,
        plan: Plan,
        writer: W,
    ) -> Result<(), StreamFault>
        requires clear { self.old.reopen ≡ false }
        requires planned { IsPlan (length (D.content self.old.disk)) self.old.body self.old.opened plan }
        requires can { W.can_write writer (length (D.content self.old.disk)) }
        requires goes_on { GoesOn (W.touches writer) self.old.body self.old.opened plan }
        requires tabled { PromisesTable (W.promises writer (D.content self.old.disk)) plan }
        ensures carried { Carries D.Disk (Goes D.Disk (W.touches writer)
            (W.promises writer (D.content self.old.disk)) self.old plan) self.old plan result
            self.new }
        ensures unwritten { W.reads_nothing writer → self.new.reopen ≡ false
            → OnErr result (KeepsDisk D.Disk self.old.disk self.new.disk) }
        ensures unread { W.reads_nothing writer → IsUndamaged result }
        ensures undamaged { D.honest → W.is_sound writer (D.content self.old.disk)
            → IsUndamaged result }
    {
        match replace_with(&mut self.disk, self.spare, writer, &plan.body) {
            Ok(()) => {
                self.manifest = plan.manifest;
                plan.change.apply(&mut self.opened);
                self.spare = self.spare.other();
                Ok(())
            }
            Err(StreamFault::Read) => Err(StreamFault::Read),
            Err(StreamFault::Damaged) => Err(StreamFault::Damaged),
            Err(StreamFault::Write) => {
                self.reopen = true;
                Err(StreamFault::Write)
            }
        }
    }
}

/// What stopped a plan that was carried out, as the refusal of a command.
pub(crate) fn stream_refusal(fault: StreamFault) -> Refusal
    ensures { result ≡ stream_refusal fault }
{
    match fault {
        StreamFault::Read | StreamFault::Write => Refusal::Disk,
        StreamFault::Damaged => Refusal::Damaged,
    }
}
