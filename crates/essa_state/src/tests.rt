// Worked numbers of words, before and after orders and moves.
use crate::{Order, apply_order, host_move, unpack};
use cmm_types::{Move, Refused};

// The number after the order, and whether it was done.
fn after_order(raw: u64, code: Order) -> Option<(u64, bool)> {
    let (word, old) = apply_order(unpack(raw)?, code);
    Some((word.raw(), old.done))
}

fn after_move(raw: u64, action: Move) -> Option<Result<u64, Refused>> {
    Some(host_move(unpack(raw)?, action).map(|word| word.raw()))
}

#[test]
fn orders_change_words(rt: HostRuntime) {
    for (raw, code, after, done) in [
        (9, Order::SetStable, 8, true),
        (16, Order::SetVolatile, 19, true),
        (4_294_967_307, Order::SetStableIf, 4_294_967_307, false),
        (4_294_967_307, Order::SetUnused, 4_294_967_305, true),
        (48, Order::SetPotential, 50, true),
        (
            18_446_744_069_414_584_328,
            Order::SetVolatile,
            18_446_744_069_414_584_328,
            false,
        ),
        (
            18_446_744_069_414_584_330,
            Order::SetVolatile,
            18_446_744_069_414_584_331,
            true,
        ),
    ] {
        assert_eq!(rt;
            after_order(raw, code),
            Some((after, done)),
            "{code:?} on {raw}"
        );
    }
}

#[test]
fn moves_change_words_or_are_refused(rt: HostRuntime) {
    for (raw, action, after) in [
        (19, Move::Discard, Ok(4_294_967_307)),
        (50, Move::Discard, Err(Refused::Changed)),
        (50, Move::Preserve, Ok(38)),
        (38, Move::Bring, Ok(34)),
        (8, Move::Discard, Err(Refused::Stable)),
        (9, Move::Discard, Err(Refused::Absent)),
        (19, Move::Preserve, Err(Refused::Volatile)),
        (
            18_446_744_069_414_584_339,
            Move::Discard,
            Err(Refused::Counted),
        ),
        (
            18_446_744_069_414_584_339,
            Move::Preserve,
            Ok(18_446_744_069_414_584_327),
        ),
    ] {
        assert_eq!(rt; after_move(raw, action), Some(after), "{action:?} on {raw}");
    }
}

#[test]
fn numbers_of_other_combinations_are_no_words(rt: HostRuntime) {
    // Unused and preserved; content 3; preserved or zero with the reference bit; zero with the change bit; bit 7; bit 31.
    for raw in [5, 12, 20, 24, 40, 128, 2_147_483_648] {
        assert!(rt; unpack(raw).is_none(), "{raw}");
    }
}
