//! Devices by themselves: what some characters that are typed leave on the console; what some calls on files answer, and what becomes of
//! some under way; what some mounted prefixes map; and what becomes of some blocks of the raw disk.

ghost use Rattle.std.specs.Prelude.{◌≡◌, ◌+◌, true, [], ◌∷◌, ◌++◌, replicate, Some, None, false, take, drop, pos, slice_set};
ghost use Rattle.xinu_base.specs.declared.console.Item.TheVariants.{Char, End};
ghost use Rattle.xinu_model.specs.Console.Typing.{typing};
ghost use Rattle.xinu_examples.specs.Typing.{raw_console, full_console, almost_full_console, silent_console};
ghost use Rattle.xinu_model.specs.Console.State.{first_console};
ghost use Rattle.xinu_base.specs.Constants.{OK, SYSERR, EOF};
ghost use Rattle.xinu_examples.specs.FileSystems.{blank_files, mode_rw, one_file, full_disk, big_file, modes, seeks, seven_opens};
ghost use Rattle.xinu_examples.specs.FileTasks.{replies_to, after_tasks};
ghost use Rattle.xinu_model.specs.Files.Calls.{Open, Write, Close};
ghost use Rattle.xinu_model.specs.Files.Issue.{open_call};
ghost use Rattle.xinu_model.specs.Files.Stored.{file_named, bytes_in};
ghost use Rattle.xinu_model.specs.Files.Systems.{replies};
ghost use Rattle.xinu_base.specs.declared.lines.FileMoment.TheVariants.{Finished, Next};
ghost use Rattle.xinu_examples.specs.FileCalls.{killed_writer, read_then_write};
ghost use Rattle.xinu_model.specs.Files.Work.{most_turns, calls_completed};
ghost use Rattle.xinu_examples.specs.Mounts.{names_row, two_mounts, dropping_mounts, growing_mounts};
ghost use Rattle.xinu_model.specs.Names.Mapping.{map_name};
ghost use Rattle.xinu_model.specs.Names.Mounting.{mounted};
ghost use Rattle.xinu_examples.specs.RawDisks.{block_of, blank_disk, write_request, read_request};
ghost use Rattle.xinu_model.specs.RawDisk.Histories.{Requests, Completes, after_steps, served_in, replies_given};
ghost use Rattle.xinu_model.specs.RawDisk.Completions.{raw_completed};
ghost use Rattle.xinu_model.specs.RawDisk.Requests.{has_block, block_at, requested, orphaned_request, requests_given_up};

/// What some typed characters leave: a line with an erased character, an erase on an empty line with and without items before it, the
/// two columns of a tab, a killed line, the end mark and its character in a line, the characters that stop output and let it go on,
/// raw mode, and the bell if there is no room.
pub fn typed_characters_leave()
    ensures line { typing (97 ∷ 98 ∷ 8 ∷ 99 ∷ 13 ∷ []) first_console ≡
        record first_console { committed = Char 97 ∷ Char 99 ∷ Char 10 ∷ []; echo = 97 ∷ 98 ∷ 8 ∷ 32 ∷ 8 ∷ 99 ∷ 13 ∷ 10 ∷ [] } }
    ensures nothing_to_erase { typing (8 ∷ []) first_console ≡ first_console }
    ensures committed_stays { typing (97 ∷ 13 ∷ 8 ∷ []) first_console ≡
        record first_console { committed = Char 97 ∷ Char 10 ∷ []; echo = 97 ∷ 13 ∷ 10 ∷ [] } }
    ensures two_columns { typing (9 ∷ 8 ∷ []) first_console ≡
        record first_console { echo = 94 ∷ 73 ∷ 8 ∷ 32 ∷ 8 ∷ 8 ∷ 32 ∷ 8 ∷ [] } }
    ensures killed { typing (97 ∷ 98 ∷ 21 ∷ []) first_console ≡ record first_console { echo = 97 ∷ 98 ∷ 13 ∷ 10 ∷ [] } }
    ensures end_mark { typing (4 ∷ []) first_console ≡ record first_console { committed = End ∷ [] } }
    ensures end_character { typing (97 ∷ 4 ∷ []) first_console ≡
        record first_console { line = 97 ∷ 4 ∷ []; echo = 97 ∷ 94 ∷ 68 ∷ [] } }
    ensures stops { typing (19 ∷ []) first_console ≡ record first_console { is_held = true } }
    ensures goes_on { typing (19 ∷ 97 ∷ []) first_console ≡ record first_console { line = 97 ∷ []; echo = 97 ∷ [] } }
    ensures silent { typing (97 ∷ 13 ∷ []) silent_console ≡ record silent_console { committed = Char 97 ∷ Char 10 ∷ [] } }
    ensures raw { typing (8 ∷ 13 ∷ 19 ∷ []) raw_console ≡
        record raw_console { committed = Char 8 ∷ Char 13 ∷ Char 19 ∷ [] } }
    ensures bell { typing (97 ∷ []) full_console ≡ record full_console { echo = 7 ∷ [] } }
    ensures room_for_newline { typing (97 ∷ 10 ∷ []) almost_full_console ≡
        record almost_full_console { committed = replicate 127 (Char 120) ++ Char 10 ∷ []; echo = 7 ∷ 13 ∷ 10 ∷ [] } }
{}

/// What some calls answer: one file of one byte, from its making to its end; a full disk, on which a write is cut short and another
/// refused; a file of more than one index block, read back over its end; modes; and a seventh open file.
pub fn file_calls_answer()
    ensures one_file { replies_to one_file (blank_files 256) ≡
        pos 4 ∷ OK ∷ pos 1 ∷ SYSERR ∷ OK ∷ pos 65 ∷ EOF ∷ OK ∷ pos 0 ∷ SYSERR ∷ OK ∷ OK ∷ SYSERR ∷ SYSERR ∷ [] }
    ensures nothing_left { after_tasks one_file (blank_files 256) ≡ blank_files 256 }
    ensures full_disk { replies_to full_disk (blank_files 14) ≡ pos 4 ∷ pos 2048 ∷ pos 5 ∷ pos 1536 ∷ SYSERR ∷ [] }
    ensures big_file { replies_to big_file (blank_files 256) ≡ pos 4 ∷ pos 8193 ∷ OK ∷ pos 4 ∷ OK ∷ pos 2 ∷ OK ∷ EOF ∷ OK ∷ [] }
    ensures modes { replies_to modes (blank_files 256) ≡ SYSERR ∷ pos 4 ∷ SYSERR ∷ OK ∷ OK ∷ SYSERR ∷ pos 4 ∷ SYSERR ∷ pos 65 ∷ OK ∷
        pos 4 ∷ SYSERR ∷ OK ∷ [] }
    ensures seventh { replies_to seven_opens (blank_files 256) ≡ pos 4 ∷ pos 5 ∷ pos 6 ∷ pos 7 ∷ pos 8 ∷ pos 9 ∷ SYSERR ∷ OK ∷ pos 6 ∷ [] }
{}

/// What `seek` answers: 0, whatever the position, up to the end of the file. A position after the end and a negative one are refused, and so is
/// a device that has nothing open.
pub fn seek_answers()
    ensures seeks { replies_to seeks (blank_files 256) ≡
        pos 4 ∷ pos 3 ∷ OK ∷ pos 67 ∷ OK ∷ EOF ∷ SYSERR ∷ SYSERR ∷ OK ∷ pos 65 ∷ SYSERR ∷ [] }
{}

/// Which texts name and open a file: a name of 27 bytes but not of 28, and not the empty one; a mode without letters, but not one with
/// another letter, a letter twice, or both old and new.
pub fn texts_that_open()
    ensures longest { open_call (replicate 27 97) (114 ∷ 119 ∷ []) ≡ Some (Open (replicate 27 97) mode_rw) }
    ensures too_long { open_call (replicate 28 97) (114 ∷ 119 ∷ []) ≡ None }
    ensures empty { open_call [] (114 ∷ 119 ∷ []) ≡ None }
    ensures no_letter { open_call (97 ∷ []) [] ≡
        Some (Open (97 ∷ []) (record { read = false; write = false; only_old = false; only_new = false })) }
    ensures other_letter { open_call (97 ∷ []) (114 ∷ 120 ∷ []) ≡ None }
    ensures twice { open_call (97 ∷ []) (114 ∷ 114 ∷ []) ≡ None }
    ensures old_and_new { open_call (97 ∷ []) (111 ∷ 110 ∷ []) ≡ None }
{}

/// What becomes of some calls: a killed writer's bytes are written and nobody is answered; of a read and a write that take effect at one
/// completion, the write has the byte that the read brought to its address; and the bounds of some calls.
pub fn calls_under_way()
    ensures killed { bytes_in (file_named (97 ∷ []) (calls_completed 1 killed_writer).work.system.files) ≡
        take 600 (drop 100 killed_writer.memory) }
    ensures killed_told { (calls_completed 1 killed_writer).notes ≡
        (record { caller = None; moment = Finished; reply = Some (pos 600) }) ∷ [] }
    ensures together { bytes_in (file_named (97 ∷ []) (calls_completed 2 read_then_write).work.system.files) ≡ 65 ∷ 65 ∷ [] }
    ensures together_told { (calls_completed 2 read_then_write).notes ≡
        (record { caller = Some 1; moment = Finished; reply = Some (pos 1) }) ∷
        (record { caller = Some 2; moment = Next; reply = Some (pos 1) }) ∷ [] }
    ensures write_bound { most_turns (Write 0 8193) (after_tasks (take 1 big_file) (blank_files 256)) ≡ 168 }
    ensures close_bound { most_turns (Close 0) (after_tasks (take 2 big_file) (blank_files 256)) ≡ 184 }
    ensures open_bound { most_turns (Open (97 ∷ []) mode_rw) (blank_files 256) ≡ 32 }
{}

/// What mounted prefixes make of some names: `~/log` is the file system's `log`; a name that is mapped to itself, and one that no
/// prefix begins, are mapped to nothing; forty replacements are made and no more; a name that gets too long is mapped to nothing; and
/// the first row that fits acts, also if a later one has a longer prefix.
pub fn mounted_names()
    ensures file { map_name two_mounts (126 ∷ 47 ∷ 108 ∷ 111 ∷ 103 ∷ []) ≡ Some (record { device = 3; name = 108 ∷ 111 ∷ 103 ∷ [] }) }
    ensures circle { map_name two_mounts (97 ∷ []) ≡ None }
    ensures unmounted { map_name two_mounts (98 ∷ []) ≡ None }
    ensures forty { map_name dropping_mounts (replicate 39 120 ++ 121 ∷ []) ≡ Some (record { device = 3; name = 121 ∷ [] }) }
    ensures one_more { map_name dropping_mounts (replicate 40 120 ++ 121 ∷ []) ≡ None }
    ensures grown { map_name growing_mounts (120 ∷ []) ≡ None }
    ensures first { map_name (names_row (97 ∷ []) (99 ∷ []) 0 ∷ names_row (97 ∷ 98 ∷ []) [] 2 ∷ []) (97 ∷ 98 ∷ []) ≡
        Some (record { device = 0; name = 99 ∷ 98 ∷ [] }) }
{}

/// Which rows are mounted: a text of 31 bytes but not of 32, as prefix and as replacement, also an empty one; the fortieth row but not
/// the next.
pub fn rows_that_mount()
    ensures empty { mounted (names_row [] [] 3) [] ≡ Some (names_row [] [] 3 ∷ []) }
    ensures longest { mounted (names_row (replicate 31 97) (replicate 31 98) 3) [] ≡
        Some (names_row (replicate 31 97) (replicate 31 98) 3 ∷ []) }
    ensures long_prefix { mounted (names_row (replicate 32 97) [] 3) [] ≡ None }
    ensures long_replacement { mounted (names_row [] (replicate 32 97) 3) [] ≡ None }
    ensures fortieth { mounted (names_row [] [] 3) (replicate 39 (names_row [] [] 2)) ≡
        Some (replicate 39 (names_row [] [] 2) ++ names_row [] [] 3 ∷ []) }
    ensures one_more { mounted (names_row [] [] 3) (replicate 40 (names_row [] [] 2)) ≡ None }
{}

/// A written block, a failed read, and a block that there isn't, on a disk of 64 blocks. A writer that is killed while its request is the
/// first: after a good completion the block is written, after a failed one it isn't, and nobody is answered.
pub fn raw_disk()
    ensures replies { replies_given (served_in (Requests (write_request 63 (block_of 65)) ∷ Completes true ∷ Requests (read_request 63) ∷
        Completes false ∷ Completes true ∷ []) blank_disk) ≡ OK ∷ SYSERR ∷ [] }
    ensures outside { has_block 64 blank_disk ≡ false }
    ensures inside { has_block 63 blank_disk ≡ true }
    ensures block { block_at (after_steps (Requests (write_request 63 (block_of 65)) ∷ Completes true ∷ []) blank_disk) 63 ≡ block_of 65 }
    ensures killed { raw_completed true (requests_given_up 1 (requested (write_request 1 (block_of 65)) blank_disk)) ≡ Some (record {
      request = orphaned_request (write_request 1 (block_of 65));
      reply = OK;
      bytes = [];
      disk = record blank_disk { blocks = slice_set blank_disk.blocks 1 (block_of 65) };
    }) }
    ensures killed_in_vain { raw_completed false (requests_given_up 1 (requested (write_request 1 (block_of 65)) blank_disk)) ≡ Some (record {
      request = orphaned_request (write_request 1 (block_of 65));
      reply = SYSERR;
      bytes = [];
      disk = blank_disk;
    }) }
{}
