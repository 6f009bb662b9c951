//! What holds of all journals, states and byte ranges. Each law stands on the definitions alone, so that its
//! function does nothing.

ghost use Rattle.std.specs.Prelude.{◌≡◌, ◌≢◌, ◌↔◌, ◌≤◌, ◌<◌, ◌+◌, ◌-◌, ℕ, List, [], ◌∷◌, ◌++◌, length, map, Some};
ghost use Rattle.cmm_types.specs.declared.plan.GuestPlan.{GuestPlan};
ghost use Rattle.cmm_types.specs.declared.command.Entry.{Entry};
ghost use Rattle.cmm_types.specs.declared.command.Reply.TheVariants.{Fail};
ghost use Rattle.cmm_types.specs.declared.command.Cause.{Cause};
ghost use Rattle.cmm_types.specs.declared.command.Op.{Op};
ghost use Rattle.cmm_types.specs.InRange.{OpInRange};
ghost use Rattle.cmm_types.specs.Bytes.{bytes_at, with_bytes};
ghost use Rattle.std.specs.FinMap as finite;
ghost use Rattle.cmm_flat.specs.declared.mapping.MappingKey.{MappingKey};
ghost use Rattle.cmm_flat.specs.declared.mapping.Mapping.{Mapping};
ghost use Rattle.cmm_flat.specs.Mapping.{key_cmp};
ghost use Rattle.cmm_flat.specs.WorkedJournals.{hello, hellp, reads_twice, read_twice, stores_twice, stored_twice, unmaps_and_loads, unmapped_first, loaded_first};
ghost use Rattle.cmm_flat.specs.Laws.SumLaws.{number_before};
ghost use Rattle.cmm_flat.specs.State.{FlatState, IsSound};
ghost use Rattle.cmm_flat.specs.Flat.{refusal_of, flat_step};
ghost use Rattle.cmm_flat.specs.Legal.{Walk, start_of, sum_over, progress_of, all_commands, after, walk_of, IsNext, Legal, Complete};

/// A legal journal and one more entry that may come next are legal, and lead where that entry leads.
pub fn journal_grows()
    ensures legal { (plan : GuestPlan) (journal : List Entry) (entry : Entry) → Legal plan journal → IsNext plan (walk_of plan (start_of plan) journal) entry → Legal plan (journal ++ entry ∷ []) }
    ensures leads { (plan : GuestPlan) (walk : Walk) (journal : List Entry) (entry : Entry) → walk_of plan walk (journal ++ entry ∷ []) ≡ after plan (walk_of plan walk journal) entry }
{}

/// An entry of one processor leaves the others' numbers, and raises its own by one.
pub fn entry_takes_its_number()
    ensures others { (plan : GuestPlan) (walk : Walk) (entry : Entry) (cpu : ℕ) → cpu ≢ entry.cpu → progress_of (after plan walk entry) cpu ≡ progress_of walk cpu }
    ensures own { (plan : GuestPlan) (walk : Walk) (entry : Entry) → entry.cpu < length walk.cpus → (progress_of (after plan walk entry) entry.cpu).next ≡ (progress_of walk entry.cpu).next + 1 }
{}

/// A legal journal has at most an entry for each command, and one for each exactly where it is complete.
pub fn entries_are_of_commands()
    ensures most { (plan : GuestPlan) (journal : List Entry) → Legal plan journal → length journal ≤ all_commands plan }
    ensures complete { (plan : GuestPlan) (journal : List Entry) → Legal plan journal → (Complete plan journal ↔ length journal ≡ all_commands plan) }
{}

/// A failure leaves the flat state.
pub fn failure_leaves_state()
    ensures { (plan : GuestPlan) (walk : Walk) (entry : Entry) (cause : Cause) → entry.reply ≡ Fail cause → (after plan walk entry).flat ≡ walk.flat }
{}

/// A write leaves the bytes below it and above it. A range round it, as its page, has it at its own place.
pub fn ranges_apart()
    ensures below { (all : List ℕ) (off : ℕ) (bytes : List ℕ) (from len : ℕ) → off ≤ length all → from + len ≤ off → bytes_at (with_bytes all off bytes) from len ≡ bytes_at all from len }
    ensures above { (all : List ℕ) (off : ℕ) (bytes : List ℕ) (from len : ℕ)
        → off + length bytes ≤ length all → off + length bytes ≤ from → bytes_at (with_bytes all off bytes) from len ≡ bytes_at all from len }
    ensures round { (all : List ℕ) (off : ℕ) (bytes : List ℕ) (from len : ℕ)
        → off + length bytes ≤ length all → from ≤ off → off + length bytes ≤ from + len
        → bytes_at (with_bytes all off bytes) from len ≡ with_bytes (bytes_at all from len) (off - from) bytes }
{}

/// The flat machine never answers `Fail`.
pub fn flat_never_fails()
    ensures { (state : FlatState) (process : ℕ) (op : Op) (cause : Cause) → (flat_step state process op).1 ≢ Fail cause }
{}

/// A step keeps the number and the lengths of the files, and each live mapping shows what there is.
pub fn steps_stay_sound()
    ensures lengths { (state : FlatState) (process : ℕ) (op : Op) → IsSound state → map length (flat_step state process op).0.files ≡ map length state.files }
    ensures sound { (state : FlatState) (process : ℕ) (op : Op) → OpInRange op → IsSound state → IsSound (flat_step state process op).0 }
    ensures start { (plan : GuestPlan) → IsSound (start_of plan).flat }
    ensures entry { (plan : GuestPlan) (walk : Walk) (entry : Entry) → OpInRange entry.op → IsSound walk.flat → IsSound (after plan walk entry).flat }
{}

/// Whether and why a command is refused depends on the lengths of the files and on the live mappings alone.
pub fn refusals_depend_on_lengths()
    ensures { (state : FlatState) (others : List (List ℕ)) (process : ℕ) (op : Op)
        → map length others ≡ map length state.files → refusal_of (record state { files = others }) process op ≡ refusal_of state process op }
{}

/// A sum over the live mappings changes by the mapping under one key alone.
pub fn sums_change_at_one_key()
    ensures insert { (number : MappingKey × Mapping → ℕ) (live : finite.FinMap key_cmp Mapping) (key : MappingKey) (mapping : Mapping)
        → sum_over number (finite.entries (finite.insert live key mapping)) + number_before number key (finite.get live key) ≡ sum_over number (finite.entries live) + number (key, mapping) }
    ensures remove { (number : MappingKey × Mapping → ℕ) (live : finite.FinMap key_cmp Mapping) (key : MappingKey) (mapping : Mapping)
        → finite.get live key ≡ Some mapping
        → sum_over number (finite.entries (finite.remove live key)) + number (key, mapping) ≡ sum_over number (finite.entries live) }
{}

/// The worked journals are legal, and no longer with another byte, number or order.
pub fn worked_journals()
    ensures read { Legal reads_twice (read_twice 1 hello) }
    ensures other_number { ¬ (Legal reads_twice (read_twice 2 hello)) }
    ensures other_byte { ¬ (Legal reads_twice (read_twice 1 hellp)) }
    ensures unmapped_first { Legal unmaps_and_loads unmapped_first }
    ensures other_order { ¬ (Legal unmaps_and_loads loaded_first) }
    ensures no_page { Legal stores_twice (stored_twice 0 2) }
    ensures other_count { ¬ (Legal stores_twice (stored_twice 0 3)) }
{}
