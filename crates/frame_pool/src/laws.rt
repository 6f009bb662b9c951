// What the rule and the seats' records mean, for readers of the contracts.
ghost use Rattle.std.specs.Prelude.{Option};
ghost use Rattle.atomic_table.specs.Table.{State};
ghost use Rattle.page_arena.specs.FrameView.{RegionView, FrameView};
ghost use Rattle.frame_pool.specs.PoolRule.{PoolRule};
ghost use Rattle.frame_pool.specs.InOrOut.{InOrOut, NoneSpare, AllOut};
ghost use Rattle.frame_pool.specs.FoundOut.{DryFoundAll};
ghost use Rattle.frame_pool.specs.declared.view.PoolView.{PoolView};

/// By the rule each frame is in, at home with no view that names it, or out, and then one view names it and no two.
pub fn in_or_out()
    ensures { (region : RegionView) (s : State (Option FrameView) PoolView) → PoolRule region s → InOrOut region s }
{}

/// Where the spare count is 0, every frame word is out.
pub fn no_spare()
    ensures { (region : RegionView) (s : State (Option FrameView) PoolView) → PoolRule region s → NoneSpare s → AllOut s }
{}

/// A seat whose dry count rises by words that it found out one by one has found out every word since its run was 0.
pub fn dry_found_all()
    ensures { DryFoundAll }
{}
