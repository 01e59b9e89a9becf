//! Laws of the definitions, each the contract of a function with nothing to do.
ghost use Rattle.std.specs.Prelude.{◌≡◌, ◌↔◌, ◌⊎◌, ℕ, ◌≤◌, Bool, true, false, ◌<◌};
ghost use Rattle.std.specs.Prelude.{All, List, Result, length};
ghost use Rattle.pk_disk.specs.Disk.{IsImage};
ghost use Rattle.pk_disk.specs.Units.{extent_bytes};
ghost use Rattle.pk_manifest.specs.declared.half.Half.{Half};
ghost use Rattle.pk_manifest.specs.declared.manifest.Part.{Part as Entry};
ghost use Rattle.pk_manifest.specs.Current.{HasBody};
ghost use Rattle.pk_manifest.specs.Evolves.{AreTold, in_force};
ghost use Rattle.pk_manifest.specs.Sound.{named};
ghost use Rattle.pk_manifest.specs.Spelling.{Body};
ghost use Rattle.pk_model.specs.declared.commands.Refusal.{Refusal};
ghost use Rattle.pk_model.specs.Collection.{Collection, Doc, IsCollection};
ghost use Rattle.pk_model.specs.Limits.{max_segment_bytes};
ghost use Rattle.pk_model.specs.Steps.{Answer, Request, commit, merge, tidy};
ghost use Rattle.pk_segment.specs.Spelling.{segment_length};
ghost use Rattle.pk_state.specs.Beside.{AreCommands, HoldsOneOf, IsMoment, IsShot, Left};
ghost use Rattle.pk_state.specs.Committed.{Committed, Stored, collection_of, whole_of};
ghost use Rattle.pk_state.specs.Follows.{Commits, Replaces};
ghost use Rattle.pk_state.specs.Holds.{AgreeWith, Holds, IndexesEntries, SpellsEntries};
ghost use Rattle.pk_state.specs.Kept.{IsKept};
ghost use Rattle.pk_state.specs.Legal.{IsFull, IsPlaceOf, LegalStep, State};
ghost use Rattle.pk_state.specs.Legal.{Writes, has_work, marked};
ghost use Rattle.pk_state.specs.Merged.{HasNothingToMerge};
ghost use Rattle.pk_state.specs.Session.{Session, Tells, next_session};
ghost use Rattle.pk_state.specs.States.{IsState};
ghost use Rattle.pk_state.specs.Writing.{IsTidyRun, is_merged, is_too_large, written_kind};

/// A legal step goes over to the sessions that give what the store means: the log gains what was
/// accepted, an accepted commit moves the mark to its end, and nothing else changes.
pub fn a_legal_step_is_told()
    ensures { (failed : Bool) (s : Session) (old new : State) (request : Request)
        (reply : Result Answer Refusal) → Tells s old → LegalStep failed old request reply new
        → Tells (next_session s request reply) new }
{}

/// Bytes hold at most one collection.
pub fn bytes_hold_one_collection()
    ensures { (bytes : List ℕ) (a b : Collection) → Holds bytes a → Holds bytes b → a ≡ b }
{}

/// Bytes of one size, with the same gates open, the same bodies behind open gates and the same
/// extents of the body in force hold the same collection, whatever the other bytes are.
pub fn bytes_that_agree_hold_the_same()
    ensures { (bytes image : List ℕ) (half : Half) (b : Body) (c : Collection)
        → HasBody bytes half b → AgreeWith bytes image b
        → (Holds bytes c → Holds image c) × (Holds image c → Holds bytes c) }
{}

/// Bytes with the same body in force, in whichever half, and the same extents that it names hold the
/// same collection.
pub fn bytes_with_one_body_hold_the_same()
    ensures { (bytes image : List ℕ) (half image_half : Half) (b : Body) (c : Collection)
        → HasBody bytes half b → HasBody image image_half b
        → All (λ e. extent_bytes image e ≡ extent_bytes bytes e) (named b)
        → Holds bytes c → Holds image c }
{}

/// A reader beside a writer. Where it shows a body of a moment among the commands, of a generation no
/// less than that in force at the first answer, it holds what the first command or a later one left.
pub fn a_reader_holds_what_a_command_left()
    ensures { (first : Left) (rest : List Left) (bytes image : List ℕ) (half : Half)
        (generation : ℕ) (b : Body) → AreTold first.bytes → AreCommands first rest
        → IsMoment first rest bytes → in_force first.bytes ≤ generation
        → IsShot bytes image half generation b → HoldsOneOf first rest image }
{}

/// Entries that spell documents index them, so that a search needs no text of kind 2.
pub fn what_is_spelled_is_indexed()
    ensures { (bytes : List ℕ) (entries : List Entry) (stored : List Stored)
        → SpellsEntries bytes entries stored → IndexesEntries bytes entries stored }
{}

/// A disk that keeps what is committed holds its collection, in each image that a crash may leave.
pub fn what_is_kept_is_held()
    ensures { (bytes image : List ℕ) (is_open : ℕ → Bool) (spare : Half) (c : Committed)
        → IsKept bytes is_open spare c → IsCollection (whole_of c)
        → IsImage bytes is_open image → Holds image (collection_of c) }
{}

/// A store just opened, in which what is there now is what is committed, is in a state such as a
/// commit wants it.
pub fn a_store_just_opened_is_in_a_state()
    ensures { (s : State) → s.now ≡ marked s → IsCollection (whole_of s.committed) → IsState s }
{}

/// A legal step leaves a state such as a commit wants it, whatever the command and its reply.
pub fn a_legal_step_keeps_a_state()
    ensures { (failed : Bool) (old new : State) (request : Request)
        (reply : Result Answer Refusal) → IsState old → LegalStep failed old request reply new
        → IsState new }
{}

/// What is committed after a commit stands for what is there now, its deletions too.
pub fn a_commit_takes_what_is_there()
    ensures { (s : State) (new : Committed) → IsState s → Writes s commit new
        → collection_of new ≡ s.now }
{}

/// What is committed after a merge or a tidy stands for the same collection as before it.
pub fn a_merge_changes_no_document()
    ensures merge { (s : State) (new : Committed) → Writes s merge new
        → collection_of new ≡ marked s }
    ensures tidy { (s : State) (new : Committed) → Writes s tidy new
        → collection_of new ≡ marked s }
{}

/// Documents are too large for a segment just where its bytes would pass the limit.
pub fn what_is_too_large()
    ensures { (docs : List Doc)
        → (is_too_large docs ≡ true) ↔ (max_segment_bytes < segment_length docs written_kind) }
{}

/// Entries have at most one run that a tidy merges.
pub fn a_tidy_has_one_run()
    ensures { (entries : List Entry) (a b : ℕ) → IsTidyRun entries a → IsTidyRun entries b
        → a ≡ b }
{}

/// Nothing is left to merge just where there is no entry, or one alone, of the kind that is written
/// and without a deletion list.
pub fn what_is_merged()
    ensures { (entries : List Entry) → (is_merged entries ≡ true) ↔ HasNothingToMerge entries }
{}

/// What is written when is said in plain words. Only a commit, a merge and a tidy write. A commit
/// gives new lists to the entries that need them and adds the segment of what is uncommitted. A
/// merge puts one segment in the place of all entries, so that none is left to merge, and a tidy in
/// the place of its run of eight. All others stay. The body is the next one.
pub fn what_follows()
    ensures writers { (s : State) (request : Request) (new : Committed) → Writes s request new
        → (request ≡ commit) ⊎ ((request ≡ merge) ⊎ (request ≡ tidy)) }
    ensures commit { (s : State) (new : Committed)
        → length s.committed.stored ≡ length s.committed.body.entries → Writes s commit new
        → Commits s new }
    ensures merge { (s : State) (new : Committed) → Writes s merge new
        → Replaces s.committed new 0 (length s.committed.body.entries) }
    ensures merged { (s : State) (new : Committed) → Writes s merge new
        → HasNothingToMerge new.body.entries }
    ensures tidy { (s : State) (new : Committed) → Writes s tidy new
        → (at : ℕ) × IsTidyRun s.committed.body.entries at × Replaces s.committed new at 8 }
{}

/// When a command writes. A commit does unless what is committed stands already for what is there
/// now, a merge unless nothing is left to merge, a tidy where there are eight entries.
pub fn what_has_work()
    ensures commit { (s : State) → IsState s
        → (has_work s commit ≡ false) ↔ (marked s ≡ s.now) }
    ensures merge { (s : State)
        → (has_work s merge ≡ false) ↔ HasNothingToMerge s.committed.body.entries }
    ensures tidy { (s : State)
        → (has_work s tidy ≡ true) ↔ (8 ≤ length s.committed.body.entries) }
{}

/// A command that writes has one outcome: what it writes is placed or finds no room, never both,
/// and then what is committed, or the numbers that say how much room is missing, are determined.
pub fn a_write_has_one_outcome()
    ensures either { (s : State) (request : Request) (at : ℕ) → IsPlaceOf s request at
        → ((new : Committed) × Writes s request new)
        ⊎ ((need : ℕ) × (largest : ℕ) × IsFull s request need largest) }
    ensures never_both { (s : State) (request : Request) (new : Committed) (need largest : ℕ)
        → Writes s request new → IsFull s request need largest → ⊥ }
    ensures written { (s : State) (request : Request) (a b : Committed) → Writes s request a
        → Writes s request b → a ≡ b }
    ensures full { (s : State) (request : Request) (need largest need' largest' : ℕ)
        → IsFull s request need largest → IsFull s request need' largest'
        → (need ≡ need') × (largest ≡ largest') }
{}
