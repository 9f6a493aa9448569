//! A law of the definitions: what was framed is read back.

ghost use Rattle.std.specs.Prelude.{ℕ, List, ◌≡◌, ◌++◌};
ghost use Rattle.gdb_packets.specs.Frames.{frame};
ghost use Rattle.gdb_packets.specs.Units.{first_unit, Packet};

/// What was framed is read back, whatever comes after it.
pub fn frames_are_read_back()
    ensures { (payload rest : List ℕ) → first_unit (frame payload ++ rest) ≡ (Packet payload, rest) }
{}
