// Bodies on their way into the slots of a table, and back.
ghost use Rattle.std.specs.Prelude.{◌≡◌, ◌≤◌, [], map, length, reverse, true, Some, All, is_some, vec_len, vec_capacity};
ghost use Rattle.state_words.specs.Slots.{bodies_in};

fn reversed<T>(items: &mut Vec<T>)
    ensures items { items.new.items ≡ reverse items.old.items }
    ensures capacity { vec_capacity items.new ≡ vec_capacity items.old }
{
    items.as_mut_slice().reverse();
}

// Moves the bodies into slots, each to its own place. The list of bodies keeps its block of memory.
pub(crate) fn put_in<B>(bodies: &mut Vec<B>, slots: &mut Vec<Option<B>>)
    requires empty { slots.old.items ≡ [] }
    requires room { vec_len bodies.old ≤ vec_capacity slots.old }
    ensures slots { slots.new.items ≡ map Some bodies.old.items }
    ensures bodies { bodies.new.items ≡ [] }
    ensures capacity { vec_capacity bodies.new ≡ vec_capacity bodies.old }
{
    while let Some(body) = bodies.pop() {
        slots.push_reserved(Some(body));
    }
    reversed(slots);
}

// Moves the bodies back, in their order.
pub(crate) fn take_out<B>(mut slots: Vec<Option<B>>, bodies: &mut Vec<B>)
    requires full { All (λ slot. is_some slot ≡ true) slots.items }
    requires empty { bodies.old.items ≡ [] }
    requires room { length slots.items ≤ vec_capacity bodies.old }
    ensures { bodies.new.items ≡ bodies_in slots.items }
{
    while let Some(slot) = slots.pop() {
        match slot {
            Some(body) => bodies.push_reserved(body),
            None => unreachable!(),
        }
    }
    slots.destroy_empty();
    reversed(bodies);
}
