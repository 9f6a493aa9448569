//! Examples worked out: what small systems of processes print by the definitions, line by line.
//!
//! Each function does nothing; its contract says what an example prints. The examples and the lines that are expected of them are in
//! `specs/`, a file for each subject. A system makes its calls directly, so that all calls of the table can be tried.

ghost use Rattle.std.specs.Prelude.{◌≡◌, [], ◌∷◌, ◌++◌, drop, map, replicate, true};
ghost use Rattle.xinu_examples.specs.Processes as process_examples;
ghost use Rattle.xinu_examples.specs.Priorities as priority_examples;
ghost use Rattle.xinu_examples.specs.Heap as heap_examples;
ghost use Rattle.xinu_examples.specs.Semaphores as semaphore_examples;
ghost use Rattle.xinu_examples.specs.Messages as message_examples;
ghost use Rattle.xinu_examples.specs.Clock as clock_examples;
ghost use Rattle.xinu_examples.specs.Consoles as console_examples;
ghost use Rattle.xinu_examples.specs.Consoles.{bytes_at};
ghost use Rattle.xinu_examples.specs.DiskCalls as disk_examples;
ghost use Rattle.xinu_examples.specs.FileSyscalls as file_examples;
ghost use Rattle.xinu_examples.specs.Pools as pool_examples;
ghost use Rattle.xinu_examples.specs.Ports as port_examples;
ghost use Rattle.xinu_examples.specs.Promises as promise_examples;
ghost use Rattle.xinu_examples.specs.Played.{outcome_of, last_tables, printed, played_transcript};
ghost use Rattle.xinu_model.specs.Memory.{number_at};
ghost use Rattle.xinu_model.specs.Text.{console_line, device_lines, pool_lines, port_lines, semaphore_lines, sleeper_line};

/// Processes: turns, a preemption, a process that suspends itself, refusals, a full table.
pub fn processes()
    ensures round_robin { printed process_examples.round_robin ≡ process_examples.round_robin_lines }
    ensures preemption { printed process_examples.preemption ≡ process_examples.preemption_lines }
    ensures self_suspension { printed process_examples.self_suspension ≡ process_examples.self_suspension_lines }
    ensures process_refusals { printed process_examples.process_refusals ≡ process_examples.process_refusals_lines }
    ensures full_table { printed process_examples.full_table ≡ process_examples.full_table_lines }
    ensures preemption_tables { last_tables process_examples.preemption ≡ process_examples.preemption_tables }
{}

/// Another priority: above the caller's, below the null process's, for the null process itself, the same again.
pub fn priorities()
    ensures raised_above_caller { played_transcript priority_examples.raised_above_caller ≡ priority_examples.raised_above_caller_transcript }
    ensures lowered_below_null { played_transcript priority_examples.lowered_below_null ≡ priority_examples.lowered_below_null_transcript }
    ensures raised_null { played_transcript priority_examples.raised_null ≡ priority_examples.raised_null_transcript }
    ensures entered_again { played_transcript priority_examples.entered_again ≡ priority_examples.entered_again_transcript }
    ensures yields_to_equals { printed priority_examples.yields_to_equals ≡ priority_examples.yields_to_equals_lines }
{}

/// The heap: the lowest block and the highest stack, merging, refusals.
pub fn heap()
    ensures heap_replies { printed heap_examples.heap_replies ≡ heap_examples.heap_replies_lines }
    ensures stacks { printed heap_examples.stacks ≡ heap_examples.stacks_lines }
{}

/// Semaphores: a killed waiter, a reset, how many there are, a delete.
pub fn semaphores()
    ensures semaphore_with_a_kill { printed semaphore_examples.semaphore_with_a_kill ≡ semaphore_examples.semaphore_with_a_kill_lines }
    ensures reset_releases { printed semaphore_examples.reset_releases ≡ semaphore_examples.reset_releases_lines }
    ensures all_semaphores { printed semaphore_examples.all_semaphores ≡ semaphore_examples.all_semaphores_lines }
    ensures deleted_semaphore { played_transcript semaphore_examples.deleted_semaphore ≡ semaphore_examples.deleted_semaphore_transcript }
{}

/// The book's promises: the highest priority runs, equals have their turns, a sleeper wakes in its tick, waiters go on in their order, a count
/// follows the calls, one process at a time is between its `wait` and its `signal`.
pub fn promises()
    ensures message_preempts { printed promise_examples.message_preempts ≡ promise_examples.message_preempts_lines }
    ensures third_waits { printed promise_examples.third_waits ≡ promise_examples.third_waits_lines }
    ensures third_runs { printed promise_examples.third_runs ≡ promise_examples.third_runs_lines }
    ensures sleeper_sleeps { printed promise_examples.sleeper_sleeps ≡ promise_examples.sleeper_sleeps_lines }
    ensures sleeper_wakes { printed promise_examples.sleeper_wakes ≡ promise_examples.sleeper_wakes_lines }
    ensures first_come { printed promise_examples.first_come ≡ promise_examples.first_come_lines }
    ensures count_adds_up { printed promise_examples.count_adds_up ≡ promise_examples.count_adds_up_lines }
    ensures one_at_a_time { printed promise_examples.one_at_a_time ≡ promise_examples.one_at_a_time_lines }
{}

/// Messages: a slot that is full, a slot that is taken back.
pub fn messages()
    ensures messages { printed message_examples.messages ≡ message_examples.messages_lines }
{}

/// The clock: sleepers, a receive with a limit, a kill among sleepers, the seconds.
pub fn clock()
    ensures timed_receive_and_sleep { printed clock_examples.timed_receive_and_sleep ≡ clock_examples.timed_receive_and_sleep_lines }
    ensures timed_receive_in_time { printed clock_examples.timed_receive_in_time ≡ clock_examples.timed_receive_in_time_lines }
    ensures three_sleepers_and_a_kill { printed clock_examples.three_sleepers_and_a_kill ≡ clock_examples.three_sleepers_and_a_kill_lines }
    ensures seconds { printed clock_examples.seconds ≡ clock_examples.seconds_lines }
    ensures longest_sleep_sleepers { map sleeper_line (outcome_of clock_examples.longest_sleep).state.tables.sleepers ≡ clock_examples.longest_sleep_sleepers }
{}

/// Buffer pools: waiting for a buffer, a second return of one, how many pools there are, memory that was given back.
pub fn pools()
    ensures buffer_pool { printed pool_examples.buffer_pool ≡ pool_examples.buffer_pool_lines }
    ensures all_pools { printed pool_examples.all_pools ≡ pool_examples.all_pools_lines }
    ensures pool_refusals { printed pool_examples.pool_refusals ≡ pool_examples.pool_refusals_lines }
    ensures pool_given_back { printed pool_examples.pool_given_back ≡ pool_examples.pool_given_back_lines }
    ensures buffer_pool_pools { pool_lines 0 (outcome_of pool_examples.buffer_pool).state.parts.pools ≡ pool_examples.buffer_pool_pools }
{}

/// Ports: a sender that waited over a reset, a panic, messages given back as buffers, how many ports there are.
pub fn ports()
    ensures stale_sender { printed port_examples.stale_sender ≡ port_examples.stale_sender_lines }
    ensures panic { printed port_examples.panic ≡ port_examples.panic_lines }
    ensures buffers_through_a_port { printed port_examples.buffers_through_a_port ≡ port_examples.buffers_through_a_port_lines }
    ensures all_ports { printed port_examples.all_ports ≡ port_examples.all_ports_lines }
    ensures panics { (outcome_of port_examples.panic).panicked ≡ true }
    ensures buffers_through_a_port_tables { pool_lines 0 (outcome_of port_examples.buffers_through_a_port).state.parts.pools ++ port_lines 0 (outcome_of port_examples.buffers_through_a_port).state.parts.ports ≡ port_examples.buffers_through_a_port_tables }
{}

/// A message that is sent to a process that suspended itself.
pub fn kept_messages()
    ensures kept_message { printed message_examples.kept_message ≡ message_examples.kept_message_lines }
{}

/// Buffers: which one comes next, the number before it, the greatest pools.
pub fn buffers()
    ensures freed_last_first { printed pool_examples.freed_last_first ≡ pool_examples.freed_last_first_lines }
    ensures greatest_pools { printed pool_examples.greatest_pools ≡ pool_examples.greatest_pools_lines }
    ensures greatest_buffers { printed pool_examples.greatest_buffers ≡ pool_examples.greatest_buffers_lines }
    ensures freed_last_first_number { number_at (outcome_of pool_examples.freed_last_first).state.memory 4112 4 ≡ 1 }
{}

/// Ports: in which order messages leave, and in which order callers go on.
pub fn port_orders()
    ensures through_a_port { printed port_examples.through_a_port ≡ port_examples.through_a_port_lines }
    ensures messages_in_order { printed port_examples.messages_in_order ≡ port_examples.messages_in_order_lines }
    ensures order_at_a_delete { printed port_examples.order_at_a_delete ≡ port_examples.order_at_a_delete_lines }
    ensures receivers_after_senders { printed port_examples.receivers_after_senders ≡ port_examples.receivers_after_senders_lines }
    ensures stale_while_full { printed port_examples.stale_while_full ≡ port_examples.stale_while_full_lines }
    ensures messages_in_order_ports { port_lines 0 (outcome_of port_examples.messages_in_order).state.parts.ports ≡ port_examples.messages_in_order_ports }
{}

/// Ports: which numbers ports and their semaphores get, and a port's room after a reset.
pub fn port_numbers()
    ensures whose_semaphores { printed port_examples.whose_semaphores ≡ port_examples.whose_semaphores_lines }
    ensures search_moves { printed port_examples.search_moves ≡ port_examples.search_moves_lines }
    ensures ports_go_round { printed port_examples.ports_go_round ≡ port_examples.ports_go_round_lines }
    ensures reset_gives_room { printed port_examples.reset_gives_room ≡ port_examples.reset_gives_room_lines }
    ensures whose_semaphores_semaphores { semaphore_lines 0 (outcome_of port_examples.whose_semaphores).state.tables.semaphores ≡ port_examples.whose_semaphores_semaphores }
{}

/// The console: a line that is edited and read, the end mark, a read in raw mode that waits twice, a newline that is held, a write that waits
/// for room, refusals, and a reader that is killed after it was released. It is opened by a mounted name too.
pub fn console_calls()
    ensures session { printed console_examples.session ≡ console_examples.session_lines }
    ensures session_bytes { bytes_at 2048 3 console_examples.session ≡ 97 ∷ 99 ∷ 10 ∷ [] }
    ensures raw_read { printed console_examples.raw_read ≡ console_examples.raw_read_lines }
    ensures raw_read_bytes { bytes_at 2048 2 console_examples.raw_read ≡ 8 ∷ 13 ∷ [] }
    ensures raw_read_console { console_line (outcome_of console_examples.raw_read).state.parts.devices.console ≡ console_examples.raw_console_line }
    ensures read_all { printed console_examples.read_all ≡ console_examples.read_all_lines }
    ensures newline_put { printed console_examples.newline_put ≡ console_examples.newline_put_lines }
    ensures console_replies { printed console_examples.console_replies ≡ console_examples.console_replies_lines }
    ensures long_write { printed console_examples.long_write ≡ console_examples.long_write_lines }
    ensures killed_reader { printed console_examples.killed_reader ≡ console_examples.killed_reader_lines }
    ensures killed_reader_console { console_line (outcome_of console_examples.killed_reader).state.parts.devices.console ≡ console_examples.killed_reader_console }
    ensures opened_by_name { printed console_examples.opened_by_name ≡ console_examples.opened_by_name_lines }
{}

/// The raw disk: a block that is written and read back, a completion that fails, refusals, and a writer that is killed.
pub fn disk_calls()
    ensures written_and_read { printed disk_examples.written_and_read ≡ disk_examples.written_and_read_lines }
    ensures written_and_read_bytes { bytes_at 511 3 disk_examples.written_and_read ≡ 0 ∷ 7 ∷ 7 ∷ [] }
    ensures killed_writer { printed disk_examples.killed_writer ≡ disk_examples.killed_writer_lines }
    ensures killed_writer_bytes { bytes_at 511 3 disk_examples.killed_writer ≡ 0 ∷ 7 ∷ 7 ∷ [] }
{}

/// Files: a full disk, on which a write is cut short; a writer that is killed while its call waits; two calls that take effect at one
/// completion, in their order; and a file that is deleted.
pub fn file_syscalls()
    ensures full_disk { printed file_examples.full_disk ≡ file_examples.full_disk_lines }
    ensures killed_writer { printed file_examples.killed_writer ≡ file_examples.killed_writer_lines }
    ensures killed_writer_bytes { file_examples.stored_bytes file_examples.killed_writer ≡ replicate 600 7 }
    ensures killed_writer_files { drop 2 (device_lines (outcome_of file_examples.killed_writer).state.parts.devices) ≡ file_examples.killed_writer_files }
    ensures two_at_once { printed file_examples.two_at_once ≡ file_examples.two_at_once_lines }
    ensures two_at_once_bytes { file_examples.stored_bytes file_examples.two_at_once ≡ 65 ∷ 66 ∷ [] }
    ensures deleted { printed file_examples.deleted ≡ file_examples.deleted_lines }
{}
