//! What holds of every storage, whatever its host does. Each law stands on the definitions alone, so that its function
//! does nothing.

ghost use Rattle.std.specs.Prelude.{◌≡◌, ℕ, List, Bool, true, Result, Ok, is_ok};
ghost use Rattle.cmm_types.specs.declared.page.Content.TheVariants.{Resident};
ghost use Rattle.essa_state.specs.declared.orders.Old.{Old};
ghost use Rattle.essa_state.specs.declared.orders.Order.{Order};
ghost use Rattle.cmm_storage.specs.declared.storage.Trap.{Trap};
ghost use Rattle.cmm_storage.specs.StorageCall.{Take, Touch, Give, TakeChange, Fetch, Store};
ghost use Rattle.cmm_storage.specs.StorageView.{StorageView, Follows};
ghost use Rattle.cmm_storage.specs.Hold.{IsInHold};

/// At every moment of a hold the held page is where its value says, and resident once it was touched: a take begins
/// so, and each call of the hold leaves it so. Only a page that was touched is stored to.
pub fn pages_stay_placed_in_a_hold()
    ensures take { (v w : StorageView) (page : ℕ) (got : Unit) → Follows v (Take page (Ok got)) w → IsInHold w page }
    ensures touch { (v w : StorageView) (page : ℕ) (answer : Result Unit Trap) → IsInHold v page → Follows v (Touch page answer) w → IsInHold w page }
    ensures order { (v w : StorageView) (page : ℕ) (code : Order) (old : Old) → IsInHold v page → Follows v (Give page code old) w → IsInHold w page }
    ensures take_change { (v w : StorageView) (page : ℕ) (changed : Bool) → IsInHold v page → Follows v (TakeChange page changed) w → IsInHold w page }
    ensures fetch { (v w : StorageView) (page off : ℕ) (bytes : List ℕ) → IsInHold v page → Follows v (Fetch page off bytes) w → IsInHold w page }
    ensures store { (v w : StorageView) (page off : ℕ) (bytes : List ℕ) → IsInHold v page → v.touched ≡ true → Follows v (Store page off bytes) w → IsInHold w page }
{}

/// A touch of a page that is resident succeeds.
pub fn touches_of_resident_pages_succeed()
    ensures { (v w : StorageView) (page : ℕ) (answer : Result Unit Trap) → IsInHold v page → v.content ≡ Resident → Follows v (Touch page answer) w → is_ok answer ≡ true }
{}
