//! The console by itself (book, chapter 15): what always holds of it, and what its steps do.

ghost use Rattle.std.specs.Prelude.{◌≡◌, ◌⊎◌, ◌+◌, ◌<◌, ◌≤◌, ℕ, true, [], ◌∷◌, length, Some, None};
ghost use Rattle.xinu_base.specs.declared.console.Item.{Item};
ghost use Rattle.xinu_base.specs.declared.console.TtyMode.TheVariants.{Cooked};
ghost use Rattle.part_laws.specs.Consoles.{Appends, SameInput, SendsFirst};
ghost use Rattle.xinu_model.specs.Console.Typing.{typing};
ghost use Rattle.xinu_model.specs.Console.Constants.{TY_IBUFLEN, TY_OBUFLEN, TY_BACKSP, TY_BLANK};
ghost use Rattle.xinu_model.specs.Console.Controls.{controlled};
ghost use Rattle.xinu_model.specs.Console.Receiving.{received};
ghost use Rattle.xinu_model.specs.Console.Rows.{Committed};
ghost use Rattle.xinu_model.specs.Console.Sound.{IsSoundConsole};
ghost use Rattle.xinu_model.specs.Console.State.{Console, first_console, input_size, with_next_item, with_output};
ghost use Rattle.xinu_model.specs.Console.Transmitting.{Sent, transmitted, after_transmission};

/// The console is sound at the start, and each step keeps it so: a received character, a control function, a transmission, a byte that is
/// put where there is room, and an item that is taken.
pub fn consoles_stay_sound()
    ensures starts { IsSoundConsole first_console }
    ensures received { (b : ℕ) (c : Console) → IsSoundConsole c → IsSoundConsole (received b c).console }
    ensures controlled { (f : ℕ) (c : Console) (m : Committed) → IsSoundConsole c → controlled f c ≡ Some m → IsSoundConsole m.console }
    ensures transmitted { (c : Console) → IsSoundConsole c → IsSoundConsole (after_transmission (transmitted c) c) }
    ensures put { (b : ℕ) (c : Console) → IsSoundConsole c → length c.output < TY_OBUFLEN → IsSoundConsole (with_output b c) }
    ensures taken { (x : Item) (c : Console) → IsSoundConsole (with_next_item x c) → IsSoundConsole c }
{}

/// What a character or a control function commits goes after the items that are there, as many as it counts, and the output stays as it
/// is.
pub fn items_are_appended()
    ensures received { (b : ℕ) (c : Console) → Appends c (received b c) }
    ensures controlled { (f : ℕ) (c : Console) (m : Committed) → controlled f c ≡ Some m → Appends c m }
{}

/// A transmission sends the first byte of the echo, or if there is none the first of the output; nothing only if output is held or there
/// is neither.
pub fn the_first_byte_is_sent()
    ensures sent { (c : Console) (sent : Sent) → transmitted c ≡ Some sent → SendsFirst c sent }
    ensures nothing { (c : Console) → transmitted c ≡ None → (c.is_held ≡ true) ⊎ ((c.echo ≡ []) × (c.output ≡ [])) }
{}

/// In cooked mode, a printing character that is typed and erased leaves line and items as they were, if there was room for it.
pub fn erasing_undoes_typing()
    ensures undone { (b : ℕ) (c : Console) → c.mode ≡ Cooked → TY_BLANK ≤ b → input_size c + 1 < TY_IBUFLEN →
        SameInput c (typing (b ∷ TY_BACKSP ∷ []) c) }
{}
