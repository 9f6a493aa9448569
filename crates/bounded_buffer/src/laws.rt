//! What is proved of the producer and the consumer.

ghost use Rattle.std.specs.Prelude.{◌≡◌, ◌∷◌, ◌++◌, [], List};
ghost use Rattle.bounded_buffer.specs.Buffer.{buffer_images, consumer, producer};
ghost use Rattle.bounded_buffer.specs.Places.{words_in};
ghost use Rattle.bounded_buffer.specs.Sources.{IsSourceOf, consumer_text, producer_text};
ghost use Rattle.bounded_buffer.specs.Statement.{IsInOrder, put_in, puts_told, taken_in, takes_told};
ghost use Rattle.part_laws.specs.GivenDisks.{AreSoundDisks};
ghost use Rattle.program_logic.specs.Images.{image_of};
ghost use Rattle.scheduling_laws.specs.Moments.{LeadTo, Moment};
ghost use Rattle.xinu_base.specs.declared.events.End.{End};
ghost use Rattle.xinu_base.specs.declared.events.End.TheVariants.{Schedule};
ghost use Rattle.xinu_base.specs.declared.events.Event.{Event};
ghost use Rattle.xinu_base.specs.declared.lines.TranscriptLine.{TranscriptLine};
ghost use Rattle.xinu_model.specs.Boot.{Boots, Disks, boot_on};
ghost use Rattle.xinu_model.specs.Machine.{Xinu};
ghost use Rattle.xinu_model.specs.Runs.{IsTranscript, RunsTo};

/// The images are what the assembler makes of two texts.
pub fn the_texts_make_the_images()
    ensures producer { IsSourceOf producer_text (image_of 0 (words_in producer)) }
    ensures consumer { IsSourceOf consumer_text (image_of 96 (words_in consumer ++ 0 ∷ 0 ∷ [])) }
{}

/// The programs boot, on any disks: what is said of their runs is said of some.
pub fn the_programs_boot()
    ensures boots { (disks : Disks) → (start : Xinu) × (boot_on disks buffer_images ≡ Boots start) }
{}

/// At each moment of each run of the two, on any disks, no item is lost, doubled or out of order: the items in the buffer are those that
/// were put and not taken, in order, and at most two; the item that the consumer loads is the one whose number is how many it has taken;
/// and both processes are alive. So it is by the lines `call P signal 5` and `call P signal 4` of a transcript.
pub fn no_item_is_lost()
    ensures moment { (disks : Disks) (start now : Xinu) (ms : List Moment) → AreSoundDisks disks → boot_on disks buffer_images ≡ Boots start →
        LeadTo start ms now → IsInOrder (put_in ms) (taken_in ms) now }
    ensures transcript { (disks : Disks) (events : List Event) (last : Xinu) (all : List TranscriptLine) → AreSoundDisks disks →
        IsTranscript disks buffer_images events last all → IsInOrder (puts_told all) (takes_told all) last }
{}

/// A run of the two takes all its events: it ends with its schedule.
pub fn both_go_on()
    ensures end { (disks : Disks) (start last : Xinu) (events : List Event) (lines : List TranscriptLine) (end : End) → AreSoundDisks disks →
        boot_on disks buffer_images ≡ Boots start → RunsTo start events lines last end → end ≡ Schedule }
{}
