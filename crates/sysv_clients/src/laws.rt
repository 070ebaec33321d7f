//! Laws about the definitions.
ghost use Rattle.std.specs.Prelude.{◌≡◌, ◌+◌, List, ℕ, ℤ};
ghost use Rattle.sysv_clients.specs.Copies.{AreCopied, AreMessages, IsMessage, IsReadBack, Message, StatesOne};
ghost use Rattle.sysv_clients.specs.Refilled.{Refills};
ghost use Rattle.sysv_clients.specs.Restored.{AreKept, IsQueueReadBack, IsServed, Kept, RestoresFile, RestoresSaved, SavesFile, StatesOneEntry};
ghost use Rattle.sysv_clients.specs.WorkedFile.{WorkedFile};
ghost use Rattle.sysv_clients.specs.declared.command.TheConstants.{MAX_REQUESTS, MAX_ROWS};
ghost use Rattle.sysv_model.specs.declared.attributes.Stat.{Stat as Attributes};

/// States the maximum number of rows that `ipcs` requests. With the hello before them they are the
/// maximum number of requests of a command.
pub fn numerals_of_commands()
    ensures rows { MAX_ROWS ≡ 32768 }
    ensures requests { MAX_REQUESTS ≡ MAX_ROWS + 1 }
{}

/// States that what `rcv --json` prints of a message is a line in which `snd --json` reads this
/// very message, and that no line states two messages.
pub fn objects_read_back()
    ensures written { (message : Message) → IsMessage message → IsReadBack message }
    ensures one { (line : List ℕ) → StatesOne line }
{}

/// States that a `snd --json` which reads what a `rcv --json` printed of some messages sends these
/// messages, in order, and all of them if it reads to the end.
pub fn queue_is_copied()
    ensures { (messages : List Message) → AreMessages messages → AreCopied messages }
{}

/// States that what `save` writes of a queue is a line in which `load` reads this very queue, and
/// that no line of a file states two things.
pub fn saved_lines_read_back()
    ensures written { (id : ℤ) (stat : Attributes) → IsServed id stat → IsQueueReadBack id stat }
    ensures one { (line : List ℕ) → StatesOneEntry line }
{}

/// States that a `save` whose screen did not fail has written a file of the queues that it was
/// given, with their messages in order, and that a `load` of such a file makes these queues and
/// sends their messages, in the same order: its requests are the first of those that do that, and
/// all of them if it ends without an error.
pub fn loading_repeats_what_was_saved()
    ensures written { SavesFile }
    ensures loaded { (queues : List Kept) → AreKept queues → RestoresFile queues }
    ensures repeated { RestoresSaved }
{}

/// States that turns of a slot which carry out the requests of a `load` for a queue leave this
/// queue, with its attributes and its messages, if the slot had no queue before.
pub fn loaded_queues_are_the_saved_ones()
    ensures { Refills }
{}

/// States the file of two queues with three messages, and the requests of a `load` for it.
pub fn worked_file()
    ensures { WorkedFile }
{}
