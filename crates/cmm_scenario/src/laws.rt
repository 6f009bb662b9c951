//! What is spelled reads back. Each law stands on the definitions alone, so that its function does nothing.

ghost use Rattle.std.specs.Prelude.{◌≡◌, ◌<◌, ◌≤◌, ◌^◌, ℕ, List, [], ◌∷◌, length, codes, true, false, Ok};
ghost use Rattle.std.specs.Fmt.{decimal};
ghost use Rattle.hex.specs.Hex.{encode_lower, IsBytes};
ghost use Rattle.cmm_types.specs.declared.bytes.TheConstants.{MAX_BYTES};
ghost use Rattle.cmm_types.specs.declared.command.Op.{Op};
ghost use Rattle.cmm_types.specs.declared.command.Op.TheVariants.{Read, Write, MapFile, Store, Unpin};
ghost use Rattle.cmm_types.specs.declared.event.Event.{Event};
ghost use Rattle.cmm_types.specs.declared.event.Event.TheVariants.{Alone, Host, Reclaim};
ghost use Rattle.cmm_types.specs.declared.page.Move.TheVariants.{Discard};
ghost use Rattle.cmm_types.specs.declared.plan.GuestPlan.{GuestPlan};
ghost use Rattle.cmm_types.specs.InRange.{OpInRange, GuestsInRange, EventInRange};
ghost use Rattle.cmm_scenario.specs.Words.{word_number, take_number, word_bytes, take_bytes};
ghost use Rattle.cmm_scenario.specs.Commands.{op_of};
ghost use Rattle.cmm_scenario.specs.Events.{event_of};
ghost use Rattle.cmm_scenario.specs.Spelling.{spaced, op_text, WritesBytes, event_text};

/// A number of at most ten digits reads back, alone and behind a space.
pub fn numbers_read_back()
    ensures alone { (n : ℕ) → n < 10 ^ 10 → word_number (decimal n) ≡ Ok n }
    ensures spaced { (n : ℕ) (words : List (List ℕ)) → n < 10 ^ 10 → take_number (spaced (decimal n ∷ words)) ≡ Ok (n, spaced words) }
{}

/// One to 64 bytes read back, alone and behind a space.
pub fn bytes_read_back()
    ensures alone { (bytes : List ℕ) → 1 ≤ length bytes → length bytes ≤ MAX_BYTES → IsBytes bytes → word_bytes (encode_lower bytes) ≡ Ok bytes }
    ensures spaced { (bytes : List ℕ) (words : List (List ℕ))
        → 1 ≤ length bytes → length bytes ≤ MAX_BYTES → IsBytes bytes → take_bytes (spaced (encode_lower bytes ∷ words)) ≡ Ok (bytes, spaced words) }
{}

/// A command that is in range reads back.
pub fn commands_read_back()
    ensures { (op : Op) → OpInRange op → WritesBytes op → op_of (op_text op) ≡ Ok op }
{}

/// An event that is in range among guests in range reads back.
pub fn events_read_back()
    ensures { (guests : List GuestPlan) (event : Event) → GuestsInRange guests → EventInRange guests event → event_of guests (event_text event) ≡ Ok event }
{}

/// Some commands and events, as they are written.
pub fn worked_spellings()
    ensures read { op_text (Read 0 4095 1) ≡ codes "read 0 4095 1" }
    ensures write { op_text (Write 63 0 (0 ∷ 122 ∷ 255 ∷ [])) ≡ codes "write 63 0 007aff" }
    ensures map_file { op_text (MapFile 255 2 0 1024 true) ≡ codes "mapfile 255 2 0 1024 rw" }
    ensures map_read_only { op_text (MapFile 0 0 3 1 false) ≡ codes "mapfile 0 0 3 1 ro" }
    ensures store { op_text (Store 1 4194303 (10 ∷ [])) ≡ codes "store 1 4194303 0a" }
    ensures unpin { op_text (Unpin 7 1023) ≡ codes "unpin 7 1023" }
    ensures alone { event_text (Alone 15 7) ≡ codes "alone 15 7" }
    ensures discard { event_text (Host 0 10 Discard) ≡ codes "discard 0 10" }
    ensures reclaim { event_text (Reclaim 65536) ≡ codes "reclaim 65536" }
{}
