//! Laws of the table as it is printed.

ghost use Rattle.std.specs.Prelude.{◌≡◌, ℕ, true, List};
ghost use Rattle.std.specs.List.{All, flat_map, list_all};
ghost use Rattle.race_tables.specs.Outcomes.{fed};
ghost use Rattle.races_command.specs.Shown.{is_plain, listed};

/// No line of an outcome is hidden: if two outcomes' lines are listed alike, they are the same lines. No line has a line feed or a carriage return
/// in it.
pub fn no_line_is_hidden()
    ensures { (one other : List (List ℕ)) → All (λ line. list_all is_plain line ≡ true) one → All (λ line. list_all is_plain line ≡ true) other →
        listed (flat_map fed one) ≡ listed (flat_map fed other) → one ≡ other }
{}
