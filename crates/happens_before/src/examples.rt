//! Worked histories, computed by the prover: a counter, a token, a death, a wake, and a byte with a new owner.

ghost use Rattle.std.specs.Prelude.{◌≡◌, true, false, None};
ghost use Rattle.happens_before.specs.Clocks.{clock_of};
ghost use Rattle.happens_before.specs.Told.{IsTold, entries_at};
ghost use Rattle.happens_before.specs.Worked.{counter, death, given, made_in, token, wake};

/// Two processes load a counter and then store it: each load is told as the other stores, and the first store as the second is made.
pub fn a_counter_is_told()
    ensures load { IsTold counter (made_in 1 1 false) (made_in 3 2 true) }
    ensures other { IsTold counter (made_in 2 2 false) (made_in 4 1 true) }
    ensures store { IsTold counter (made_in 3 2 true) (made_in 4 1 true) }
{}

/// A token orders what its giver did up to the event in which it was given, and nothing later: a store after it is told.
pub fn a_token_orders_what_came_before_it()
    ensures clock { clock_of token 5 2 1 ≡ 2 }
    ensures later { IsTold token (made_in 3 1 true) (made_in 5 2 true) }
{}

/// What a process did up to its death, in that event too, comes before what its killer does; and what one did up to a wake, in that event too,
/// before what the other does.
pub fn deaths_and_wakes_order()
    ensures death { clock_of death 2 1 2 ≡ 1 }
    ensures killed { IsTold death (made_in 1 2 true) (made_in 2 1 false) → ⊥ }
    ensures wake { clock_of wake 2 2 1 ≡ 1 }
    ensures woken { IsTold wake (made_in 1 1 true) (made_in 2 2 false) → ⊥ }
{}

/// The accesses of a new owner are compared with none of before.
pub fn a_new_owner_begins_anew()
    ensures { entries_at given 3 0 true 100 1 ≡ None }
{}
