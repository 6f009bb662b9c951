//! What holds of every guest between its turns. Each law stands on the definitions alone, so that its function does
//! nothing.

ghost use Rattle.std.specs.Prelude.{◌≡◌, ◌<◌, ℕ, [], Some, None, true, length};
ghost use Rattle.cmm_types.specs.declared.page.Tag.{Tag};
ghost use Rattle.cmm_types.specs.declared.page.Tag.TheVariants.{Anon};
ghost use Rattle.cmm_types.specs.declared.plan.GuestPlan.{GuestPlan};
ghost use Rattle.cmm_types.specs.declared.turn.Turn.{Turn};
ghost use Rattle.cmm_types.specs.declared.turn.Alone.{Alone};
ghost use Rattle.cmm_io.specs.DiskView.{DiskView};
ghost use Rattle.cmm_storage.specs.StorageView.{StorageView};
ghost use Rattle.cmm_storage.specs.Views.{Seen};
ghost use Rattle.guest_pages.specs.PagesView.{info_at};
ghost use Rattle.guest_cache.specs.CacheView.{page_of};
ghost use Rattle.guest_maps.specs.declared.slot.Pte.{Pte};
ghost use Rattle.guest_maps.specs.MapsView.{entry_at};
ghost use Rattle.guest_rules.specs.declared.processor.Phase.TheVariants.{Fill, Room, SyncWrite, Teardown};
ghost use Rattle.guest_rules.specs.GuestState.{GuestState, opening_guest, processor_at};
ghost use Rattle.guest_rules.specs.Turns.{turn};
ghost use Rattle.guest_rules.specs.Alone.{alone};
ghost use Rattle.guest_rules.specs.Fit.{Fit};
ghost use Rattle.guest_rules.specs.Meanwhile.{AllMay};
ghost use Rattle.guest_rules.specs.Failures.{FailuresFit};
ghost use Rattle.guest_rules.specs.Calls.{CanTake, CanFill, CanWriteBack, CanClear, CanTear, CanMakeRoom};
ghost use Rattle.guest_rules.specs.Answers.{HasBeenFilled, IsToBeFilled, IsToBeWritten, CanBeWrittenOut};

/// What the host does between two turns of a guest leaves it fit.
pub fn host_leaves_guests_fit()
    ensures { (g : GuestState) (v : StorageView) (d : DiskView) (w : StorageView) (e : DiskView) → Fit g v d → AllMay v d w e → Fit g w e }
{}

/// No more commands of a guest fail than calls of its disk and of its pager do: before its first turn, and after each
/// turn and the turns of a processor that goes on alone.
pub fn failed_commands_are_counted()
    ensures open { (plan : GuestPlan) (v : StorageView) (d : DiskView) → FailuresFit (opening_guest plan) v d }
    ensures turn { (g : GuestState) (cpu : ℕ) (v : StorageView) (d : DiskView) (h : GuestState) (t : Turn) (w : StorageView) (e : DiskView)
        → Fit g v d → cpu < length g.processors → Seen {A = GuestState × Turn} (turn g cpu) v d (h, t) w e → FailuresFit g v d → FailuresFit h w e }
    ensures alone { (g : GuestState) (cpu : ℕ) (v : StorageView) (d : DiskView) (h : GuestState) (a : Alone) (w : StorageView) (e : DiskView)
        → Fit g v d → cpu < length g.processors → Seen {A = GuestState × Alone} (alone g cpu) v d (h, a) w e → FailuresFit g v d → FailuresFit h w e }
{}

/// Between any two turns a call on a page can be made: a page that has a tag can be taken, one that a processor fills can
/// be, one that a processor writes back can be, for a sync or to make room, the entry that an unmap is at can be cleared,
/// and the page that it is at can be taken off a mapping of pages of its own; where no page is free, room can be made. So
/// stands what these calls ask further, to say in words what they leave.
pub fn pages_are_ready_between_turns()
    ensures takes { (g : GuestState) (v : StorageView) (d : DiskView) (page : ℕ) (tag : Tag) → Fit g v d → (info_at g.parts.pages page).tag ≡ Some tag → CanTake g.parts v page }
    ensures can_fill { (g : GuestState) (v : StorageView) (d : DiskView) (cpu page : ℕ)
        → Fit g v d → (processor_at g cpu).phase ≡ Fill page → CanFill g.parts v d page }
    ensures can_write { (g : GuestState) (v : StorageView) (d : DiskView) (cpu index page : ℕ)
        → Fit g v d → (processor_at g cpu).phase ≡ SyncWrite index page → CanWriteBack g.parts v d page }
    ensures can_page_out { (g : GuestState) (v : StorageView) (d : DiskView) (cpu page : ℕ)
        → Fit g v d → (processor_at g cpu).phase ≡ Room page → CanWriteBack g.parts v d page }
    ensures can_clear { (g : GuestState) (v : StorageView) (d : DiskView) (cpu slot index : ℕ) (pte : Pte) → Fit g v d
        → (processor_at g cpu).phase ≡ Teardown slot index → entry_at g.parts.maps slot index ≡ Some pte → CanClear g.parts v slot index pte }
    ensures can_make_room { (g : GuestState) (v : StorageView) (d : DiskView) → Fit g v d → g.parts.pages.free ≡ [] → CanMakeRoom g.parts v }
    ensures filled { (g : GuestState) (v : StorageView) (d : DiskView) (page : ℕ) (tag : Tag) → Fit g v d → page < length g.parts.pages.infos
        → (info_at g.parts.pages page).tag ≡ Some tag → (info_at g.parts.pages page).uptodate ≡ true → HasBeenFilled g.parts page v }
    ensures fills { (g : GuestState) (v : StorageView) (d : DiskView) (cpu page : ℕ)
        → Fit g v d → (processor_at g cpu).phase ≡ Fill page → IsToBeFilled g.parts page v d }
    ensures writes { (g : GuestState) (v : StorageView) (d : DiskView) (cpu index page : ℕ)
        → Fit g v d → (processor_at g cpu).phase ≡ SyncWrite index page → IsToBeWritten g.parts page v }
    ensures may_go { (g : GuestState) (v : StorageView) (d : DiskView) (page : ℕ) (tag : Tag) → Fit g v d → page < length g.parts.pages.infos
        → (info_at g.parts.pages page).tag ≡ Some tag → (info_at g.parts.pages page).uptodate ≡ true → CanBeWrittenOut g.parts page v }
    ensures pages_out { (g : GuestState) (v : StorageView) (d : DiskView) (cpu page : ℕ)
        → Fit g v d → (processor_at g cpu).phase ≡ Room page → IsToBeWritten g.parts page v }
    ensures clears { (g : GuestState) (v : StorageView) (d : DiskView) (cpu slot index : ℕ) (pte : Pte) → Fit g v d
        → (processor_at g cpu).phase ≡ Teardown slot index → entry_at g.parts.maps slot index ≡ Some pte → HasBeenFilled g.parts pte.page v }
    ensures tears { (g : GuestState) (v : StorageView) (d : DiskView) (cpu slot index page : ℕ) → Fit g v d → (processor_at g cpu).phase ≡ Teardown slot index
        → page_of g.parts.cache (Anon slot index) ≡ Some page → (info_at g.parts.pages page).owner ≡ None → CanTear g.parts v slot index page }
{}
