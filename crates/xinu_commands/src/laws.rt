//! What the exit statuses mean, and which files are asked for: laws about every answer of the top call. One more is about the files that
//! `asm` writes. Each is the contract of a function that does nothing.

ghost use Rattle.std.specs.Prelude.{◌≡◌, ◌≢◌, ◌↔◌, ◌==◌, ℕ, Bool, IsTrue, List, Option, Some, None, IsSome};
ghost use Rattle.std.specs.List.{list_any};
ghost use Rattle.command_line.specs.AsmArgs.{AsmFiles};
ghost use Rattle.command_line.specs.CheckArgs.{CheckFiles};
ghost use Rattle.command_line.specs.Commands.{Command, Run, Asm, Soak, Check, Disk, command_of};
ghost use Rattle.command_line.specs.DiskArgs.{DiskAction};
ghost use Rattle.command_line.specs.Reading.{Text};
ghost use Rattle.command_line.specs.RunArgs.{RunFiles};
ghost use Rattle.elf_loader.specs.LoadedFiles.{loads};
ghost use Rattle.given_disks.specs.Disks.{disks_of};
ghost use Rattle.host_port.specs.HostCalls.{Rose};
ghost use Rattle.host_port.specs.Outside.{Outside, grown};
ghost use Rattle.image_loader.specs.ImageFiles.{image_in};
ghost use Rattle.lfs_layout.specs.Images.{opened};
ghost use Rattle.rv_asm.specs.Assembly.{Makes, assembly};
ghost use Rattle.soak.specs.Soaks.{Soaks};
ghost use Rattle.transcript_laws.specs.Transcripts.{transcript};
ghost use Rattle.workload.specs.Summaries.{counts_of, summary};
ghost use Rattle.xinu_base.specs.declared.events.End.TheVariants.{Schedule};
ghost use Rattle.xinu_model.specs.Boot.{Loaded, first_disks};
ghost use Rattle.xinu_model.specs.Machine.{Xinu};
ghost use Rattle.xinu_model.specs.Text.{text};
ghost use Rattle.xinu_commands.specs.AsmVerdict.{written_file};
ghost use Rattle.xinu_commands.specs.Calls.{calls_due, calls_in};
ghost use Rattle.xinu_commands.specs.Statuses.{SaysOfDisk, SaysOfFiles, SaysOfSource, SaysOfTrace, status_due, statuses};
ghost use Rattle.xinu_commands.specs.Theorem.{Answers};
ghost use Rattle.run_inputs.specs.InputDisks.{disk_fault, empty_disk0, empty_disk1, raw_fault};
ghost use Rattle.xinu_commands.specs.SoakVerdict.{soak_verdict};
ghost use Rattle.run_inputs.specs.InputFiles.{disk_bytes, file_bytes, image_bytes};
ghost use Rattle.xinu_commands.specs.Verdict.{ScheduleInput, Disk0Input, Disk1Input, ImageInput, TraceInput, SourceInput, verdict};
ghost use Rattle.xinu_commands.specs.Whole.{Whole};
ghost use Rattle.xinu_commands.specs.Work.{Does, Left, Soaking};

/// What `run` sends is that of a run of the abstract machine if its status is 0, and else the beginning of it (`specs/Whole.antt`).
pub fn the_whole()
    ensures { (exit : ℕ) (files : RunFiles) (old new : Outside) (left : Option Left) → Answers exit (Some (Run files)) old new left → Whole exit files old new left }
{}

/// The exit status is 0, 2, 3, 4, 5, 6, 7, 8, 9, 10, 11, 12 or 13.
pub fn statuses_are_these()
    ensures { (exit : ℕ) (command : Option Command) (old new : Outside) (left : Option Left) → Answers exit command old new left → IsTrue (list_any (λ n. exit == n) statuses) }
{}

/// The exit status is exactly that of the verdict, unless the host failed or memory ran out.
pub fn statuses_are_due()
    ensures { (exit : ℕ) (command : Option Command) (old new : Outside) (left : Option Left) (a : Answers exit command old new left) → exit ≢ 7 → exit ≢ 3 → exit ≡ status_due (verdict command old.file a.obeys.unseen) }
{}

/// The exit status is 2 if and only if the arguments give no command, unless memory ran out.
pub fn no_command_is_status_2()
    ensures { (exit : ℕ) (command : Option Command) (old new : Outside) (left : Option Left) → Answers exit command old new left → exit ≢ 7 → exit ≡ 2 ↔ (command ≡ None) }
{}

/// The exit status is 3 only if there was a command and the host's count of faults rose.
pub fn host_faults_are_counted()
    ensures { (exit : ℕ) (command : Option Command) (old new : Outside) (left : Option Left) → Answers exit command old new left → exit ≡ 3 → IsSome command × Rose old.faults new.faults }
{}

/// Exactly the files that are due by the verdict are fetched and named for their channels, in order, unless the host failed or memory ran out.
pub fn calls_are_due()
    ensures { (exit : ℕ) (command : Option Command) (old new : Outside) (left : Option Left) (a : Answers exit command old new left) → exit ≢ 7 → exit ≢ 3 → new.calls ≡ grown old.calls (calls_in (calls_due command (verdict command old.file a.obeys.unseen))) }
{}

/// The exit status of a run is 5 if and only if the schedule file has a fault; if it has none, 6 if and only if a disk breaks a rule; if none
/// does, 4 if and only if an image file has a fault; if none has one, 8 if and only if an image overlaps an earlier one or the heap has no room for the stack of one, and else 0: unless the host failed
/// or memory ran out.
pub fn statuses_say_of_files()
    ensures { (exit : ℕ) (files : RunFiles) (old new : Outside) (left : Option Left) (a : Answers exit (Some (Run files)) old new left) → exit ≢ 7 → exit ≢ 3 → SaysOfFiles exit (file_bytes (old.file files.schedule) (a.obeys.unseen ScheduleInput)) (disk_bytes files.disks.disk0 empty_disk0 old.file (a.obeys.unseen Disk0Input)) (disk_bytes files.disks.disk1 empty_disk1 old.file (a.obeys.unseen Disk1Input)) (image_bytes 1 files.images old.file (λ i. a.obeys.unseen (ImageInput i))) }
{}

/// The exit status of a check is 0 if and only if its trace is the transcript of a run of the images through the events of the schedule, and 10 if
/// and only if it is none; 11 if and only if the trace is too long; 4, 5, 6 and 8 as those of a run: unless the host failed or memory ran out.
pub fn statuses_say_of_traces()
    ensures { (exit : ℕ) (args : List Text) (files : CheckFiles) (old new : Outside) (left : Option Left) → command_of args ≡ Some (Check files) → (a : Answers exit (Some (Check files)) old new left) → exit ≢ 7 → exit ≢ 3 → SaysOfTrace exit (file_bytes (old.file files.schedule) (a.obeys.unseen ScheduleInput)) (disk_bytes files.disks.disk0 empty_disk0 old.file (a.obeys.unseen Disk0Input)) (disk_bytes files.disks.disk1 empty_disk1 old.file (a.obeys.unseen Disk1Input)) (image_bytes 1 files.images old.file (λ i. a.obeys.unseen (ImageInput i))) (file_bytes (old.file files.trace) (a.obeys.unseen TraceInput)) }
{}

/// The exit status of `asm` is 9 if and only if the source is too long or has a fault, and else 0: unless the host failed or memory ran out.
pub fn statuses_say_of_sources()
    ensures { (exit : ℕ) (files : AsmFiles) (old new : Outside) (left : Option Left) (a : Answers exit (Some (Asm files)) old new left) → exit ≢ 7 → exit ≢ 3 → SaysOfSource exit (file_bytes (old.file files.source) (a.obeys.unseen SourceInput)) }
{}

/// The file that `asm` writes of a text that is assembled loads, and as an image file and as an ELF file it is the same image.
pub fn written_files_load()
    ensures { (elf : Bool) (source file : List ℕ) → assembly source ≡ Makes file → (image : Loaded) × ((image_in file ≡ Some image) × (loads (written_file elf file) ≡ Some image)) }
{}

/// The exit status of an action on a disk is 6 if and only if the disk breaks a rule, which of a disk that is repaired is rule 0; if it
/// breaks none, 12 if and only if it lacks the file that is asked for, 13 if and only if it has no room for the file that is set, and else 0:
/// unless the host failed or memory ran out.
pub fn statuses_say_of_disks()
    ensures { (exit : ℕ) (action : DiskAction) (old new : Outside) (left : Option Left) (a : Answers exit (Some (Disk action)) old new left) → exit ≢ 7 → exit ≢ 3 → SaysOfDisk exit action (λ input name. file_bytes (old.file name) (a.obeys.unseen input)) }
{}

/// The disks of a run that names none break no rule.
pub fn unnamed_disks_are_accepted()
    ensures raw { raw_fault empty_disk0 ≡ None }
    ensures files { disk_fault empty_disk1 ≡ None }
{}

/// They are the disks that the abstract machine has if it is given none.
pub fn unnamed_disks_are_the_first()
    ensures { disks_of empty_disk0 (opened empty_disk1) ≡ first_disks }
{}

/// A soak test is carried out whatever its number is: its disks are accepted and its programs boot. It takes 200,000 events and ends with its
/// schedule, as its line says. So its exit status is 0, unless the host failed or memory ran out.
pub fn soak_tests_are_carried_out()
    ensures does { (seed : ℕ) → (start : Xinu) × (soak_verdict seed ≡ Does (Soaking seed start)) }
    ensures ends { (seed : ℕ) (start : Xinu) (summary_line : List ℕ) (last : Xinu) → soak_verdict seed ≡ Does (Soaking seed start) →
        (k : Soaks seed start summary_line last) → summary_line ≡ summary seed 200000 (counts_of (text (transcript start k.lines last Schedule))) Schedule }
    ensures status { (exit seed : ℕ) (old new : Outside) (left : Option Left) → Answers exit (Some (Soak seed)) old new left → exit ≢ 7 → exit ≢ 3 → exit ≡ 0 }
{}
