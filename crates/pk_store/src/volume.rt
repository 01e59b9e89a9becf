//! What is committed, on its disk, and what of it is deleted: the body in force with its open
//! segments, what is asked of them, and which of them a merge and a tidy are of.
ghost use Rattle.std.specs.Prelude.{◌≡◌, ◌≤◌, ◌<◌, ◌^◌, List, IfOk, None, Ok, OnOk, false, length};
ghost use Rattle.std.specs.List.{list_any};
ghost use Rattle.pk_check.specs.Holding.{ChecksBodyAs, IsOfBody};
ghost use Rattle.pk_manifest.specs.Spelling.{view};
ghost use Rattle.pk_merge.specs.Choosing.{ChoosesAs};
ghost use Rattle.pk_model.specs.Collection.{IsCollection};
ghost use Rattle.pk_model.specs.Tree.{tree_of};
ghost use Rattle.pk_open.specs.Opened.{AreOpenOf, pends, present};
ghost use Rattle.pk_open.specs.Seeking.{IsUnreached, SeeksText};
ghost use Rattle.pk_open.specs.Showing.{LooksUpAs};
ghost use Rattle.pk_plan.specs.Plans.{IsPlanFor};
ghost use Rattle.pk_plan.specs.Texts.{has_phrase};
ghost use Rattle.pk_search.specs.Answering.{AnswersEntries};
ghost use Rattle.pk_search.specs.Finding.{FoundAs};
ghost use Rattle.pk_search.specs.Whole.{AreWhole};
ghost use Rattle.pk_segment.specs.Reading.{CountsReads};
ghost use Rattle.pk_state.specs.Committed.{Stored, live_in, whole_of};
ghost use Rattle.pk_state.specs.Writing.{sizes_of};
ghost use Rattle.pk_store.specs.Caching.{blocks_of};
ghost use Rattle.pk_store.specs.Deleting.{DeletesAt, DeletesIn};
ghost use Rattle.pk_store.specs.Due.{DueAs};
ghost use Rattle.pk_store.specs.Room.{HasRoom};
ghost use Rattle.pk_store.specs.View.{IsCached, IsReady, KeepsVolume, StandFor, committed_by};
ghost use Rattle.pk_store.specs.View.{volume_of};
ghost use Rattle.pk_store.specs.Ways.{MergesAllAs};

use crate::due::DueFault;
use pk_cache::BlockCache;
use pk_check::{Checked, check_body};
use pk_disk::Disk;
use pk_layout::{MAX_DELETED, written_kind};
use pk_manifest::{Half, Manifest};
use pk_merge::choose;
use pk_model::limits::{END_OF_IDS, MAX_SEGMENTS};
use pk_model::{DocNo, Query, Refusal};
use pk_open::{OpenSegment, count_stored, place_stored, text_stored};
use pk_plan::Planned;
use pk_posting::SourceFault;
use pk_search::{FindTables, find_stored};
use pk_segment::ReadFault;
use std::alloc::Global;
use std::marker::Model;

/// What is committed, on its disk, and what of it is deleted.
#[derive(Drop)]
pub(crate) struct Volume<D: Disk> {
    /// The disk.
    pub(crate) disk: D,
    /// What the body in force says.
    pub(crate) manifest: Manifest,
    /// The segments that it names, in the order of its entries.
    pub(crate) opened: Vec<OpenSegment>,
    /// The half that the next body goes to.
    pub(crate) spare: Half,
    /// A write or a sync failed: the disk has to be opened again.
    pub(crate) reopen: bool,
    /// Blocks of posting lists that finds decoded, where some are to be kept. No caller sees them.
    cache: Option<BlockCache>,
    /// Tables by which finds look words up. No caller sees them.
    tables: FindTables,
}

impl<D: Disk> Model for Volume<D> {
    ghost use Rattle.pk_manifest.specs.Spelling.{view as body_of};
    ghost use Rattle.pk_store.specs.Caching.{blocks_of};
    ghost use Rattle.pk_store.specs.Filtered.{IsFiltered};
    ghost use Rattle.pk_store.specs.Room.{HasRoom};
    ghost use Rattle.pk_store.specs.View.{IsCached, IsReady, VolumeView};

    ghost Value = { VolumeView D };

    ghost view = { λ v. record {
      disk = v.disk;
      body = body_of v.manifest;
      opened = v.opened.items;
      spare = v.spare;
      reopen = v.reopen;
      blocks = blocks_of v.cache;
    } };

    ghost invariant = { λ v. IsReady D.Disk (record {
      disk = v.disk;
      body = body_of v.manifest;
      opened = v.opened.items;
      spare = v.spare;
      reopen = v.reopen;
      blocks = blocks_of v.cache;
    }) × IsCached D.Disk (record {
      disk = v.disk;
      body = body_of v.manifest;
      opened = v.opened.items;
      spare = v.spare;
      reopen = v.reopen;
      blocks = blocks_of v.cache;
    }) v.cache × HasRoom v.opened × IsFiltered D.Disk (record {
      disk = v.disk;
      body = body_of v.manifest;
      opened = v.opened.items;
      spare = v.spare;
      reopen = v.reopen;
      blocks = blocks_of v.cache;
    }) v.tables };
}

impl<D: Disk> Volume<D> {
    /// The volume of a disk whose body in force says this, with these segments open and this cache.
    pub(crate) fn new(
        disk: D,
        manifest: Manifest,
        opened: Vec<OpenSegment>,
        spare: Half,
        cache: Option<BlockCache>,
    ) -> Volume<D>
        requires ready { IsReady D.Disk
            (volume_of disk (view manifest) opened.items spare (blocks_of cache)) }
        requires cached { IsCached D.Disk
            (volume_of disk (view manifest) opened.items spare (blocks_of cache)) cache }
        requires room { HasRoom opened }
        ensures { result ≡ volume_of disk (view manifest) opened.items spare (blocks_of cache) }
    {
        let tables = FindTables::new(*opened.allocator());
        Volume {
            disk,
            manifest,
            opened,
            spare,
            reopen: false,
            cache,
            tables,
        }
    }

    /// Whether a write or a sync failed, so that the disk has to be opened again.
    pub(crate) fn must_reopen(&self) -> bool
        ensures { result ≡ self.now.reopen }
    {
        self.reopen
    }

    /// The next number that is committed.
    pub(crate) fn next_number(&self) -> u32
        ensures { result ≡ self.now.body.next_number }
    {
        self.manifest.next_number
    }

    /// Puts the numbers of the committed documents that are not deleted and satisfy the query
    /// behind those that were found, and answers the plan by which it looked.
    pub(crate) fn find<'a>(
        &mut self,
        alloc: Global,
        query: &'a Query,
        found: &mut Vec<DocNo>,
    ) -> Result<Planned<'a>, ReadFault>
        ensures plan { IfOk result (λ planned. IsPlanFor planned (tree_of query.now)) }
        ensures found { D.honest → (stored : List Stored)
            → AnswersEntries (has_phrase (tree_of query.now)) (D.content self.old.disk)
            self.old.body.entries stored → AreOpenOf self.old.opened stored → self.old.reopen ≡ false
            → FoundAs (tree_of query.now) (live_in (present self.old.opened stored)) found.old.items
            found.new.items result }
        ensures whole { OnOk result (AreWhole self.old.opened) }
        ensures keeps { KeepsVolume D.Disk self.old self.new }
        ensures reads { CountsReads (D.failed_reads self.old.disk) (D.failed_reads self.new.disk)
            result }
    {
        find_stored(
            alloc,
            &mut self.disk,
            &mut self.cache,
            &mut self.tables,
            &self.opened,
            query,
            found,
        )
    }

    /// The text of the committed document of this number, if there is one that is not deleted.
    pub(crate) fn text_of(
        &mut self,
        alloc: Global,
        number: DocNo,
    ) -> Result<Option<String>, ReadFault>
        ensures text { D.honest → (stored : List Stored) → StandFor D.Disk self.old stored
            → self.old.reopen ≡ false → IsCollection (whole_of (committed_by self.old stored))
            → LooksUpAs (live_in (present self.old.opened stored)) number.0 result }
        ensures sought { SeeksText self.old.opened number.0 result }
        ensures unreached { IsUnreached self.old.opened number.0
            → (result ≡ Ok None) × (self.new ≡ self.old) }
        ensures keeps { KeepsVolume D.Disk self.old self.new }
        ensures reads { CountsReads (D.failed_reads self.old.disk) (D.failed_reads self.new.disk)
            result }
    {
        text_stored(alloc, &mut self.disk, &self.opened, number)
    }

    /// What the disk holds, by the body that is kept: each segment and each deletion list is read.
    pub(crate) fn check(&mut self, alloc: Global) -> Result<Checked, ReadFault>
        ensures checked { D.honest → self.old.reopen ≡ false
            → ChecksBodyAs (D.content self.old.disk) result }
        ensures body { IfOk result (IsOfBody self.old.body) }
        ensures keeps { KeepsVolume D.Disk self.old self.new }
        ensures reads { CountsReads (D.failed_reads self.old.disk) (D.failed_reads self.new.disk)
            result }
    {
        check_body(alloc, &mut self.disk, &self.manifest)
    }

    /// How many documents are committed and not deleted.
    pub(crate) fn count(&self) -> u64
        ensures is { D.honest → (stored : List Stored) → StandFor D.Disk self.now stored
            → IsCollection (whole_of (committed_by self.now stored))
            → result ≡ length (live_in (present self.now.opened stored)) }
        ensures few { result < 2 ^ 44 }
    {
        count_stored(&self.opened)
    }

    /// Whether a deletion of a committed document is not committed.
    pub(crate) fn is_pending(&self) -> bool
        ensures { result ≡ list_any pends self.now.opened }
    {
        self.opened.iter().any(|segment| segment.is_pending())
    }

    /// Deletes the committed document of this number, if there is one that is not deleted; the disk
    /// is only read. Memory is taken for one number.
    ///
    /// Refused as no such document, as damaged where the segment is none, as disk where a read
    /// failed, or as memory.
    pub(crate) fn delete(&mut self, number: DocNo) -> Result<(), Refusal>
        ensures { DeletesIn D.Disk self.old number.0 result self.new }
    {
        match place_stored(&mut self.disk, &self.opened, number) {
            Ok(Some(place)) => self.delete_at(place, number),
            Ok(None) => Err(Refusal::NoSuchDocument),
            Err(SourceFault::Damaged) => Err(Refusal::Damaged),
            Err(SourceFault::Disk) => Err(Refusal::Disk),
        }
    }

    // Puts the number among the deleted ones of the segment at a place.
    fn delete_at(&mut self, place: usize, number: DocNo) -> Result<(), Refusal>
        requires within { place < length self.old.opened }
        requires least { 1 ≤ number.0 }
        ensures { DeletesAt self.old place number.0 result self.new }
    {
        let segment = &mut self.opened[place];
        if segment.deleted.len() >= MAX_DELETED.min(segment.segment.count()) as usize {
            return Err(Refusal::Damaged);
        }
        segment.deleted.add(number.0)?;
        Ok(())
    }

    /// Whether a body with so many documents more can follow the one in force.
    pub(crate) fn ensure_room(&self, buffered: usize) -> Result<(), DueFault>
        ensures { DueAs self.now.body buffered result }
    {
        if self.manifest.generation == END_OF_IDS || self.manifest.next_segment == END_OF_IDS {
            return Err(DueFault::NumbersUsedUp);
        }
        if buffered > 0 && self.manifest.entries.len() >= MAX_SEGMENTS {
            return Err(DueFault::TooManySegments);
        }
        Ok(())
    }

    /// How many segments a merge makes one of: all. None where nothing is left to merge: there is
    /// no segment, or just one, of the kind that is written and without a deletion list.
    pub(crate) fn segments_to_merge(&self) -> Option<usize>
        ensures { MergesAllAs self.now.body.entries result }
    {
        let entries = self.manifest.entries.as_slice();
        let merged = match entries {
            [] => true,
            [entry] => entry.kind == written_kind() && entry.dead.is_none(),
            _ => false,
        };
        if merged {
            return None;
        }
        Some(entries.len())
    }

    /// The first place of the run that a tidy merges; none where there are fewer than eight
    /// segments. It takes no memory.
    pub(crate) fn place_to_tidy(&self) -> Option<usize>
        ensures { ChoosesAs (sizes_of self.now.body.entries) result }
    {
        let entries = self.manifest.entries.as_slice();
        let mut sizes = [0; MAX_SEGMENTS];
        for i in 0..entries.len() {
            sizes[i] = entries[i].extent.bytes;
        }
        choose(&sizes[..entries.len()])
    }

    /// The disk, as it is.
    pub(crate) fn into_disk(self) -> D
        ensures { result ≡ self.disk }
    {
        self.disk
    }
}
