//! Many commands over one open depot: `depot batch DB`.
//!
//! [`batch`] reads lines, each of which is a command on the depot in words ([`words_of`], `specs/Words`; [`asked_by`],
//! `specs/Asked`). It does each command, and writes its answer, which ends in a line with its status (`specs/Effects`).
//! Deliveries whose lines are there together are done in one transaction (`specs/Turns`), and are answered when it is
//! committed. So a reader of the answers sees the result of a command when it has happened. If the first line is `json`,
//! each answer is a JSON object on one line (`specs/Said`).
//!
//! `43 Database` ends a batch: a failure of the disk can have shut the store, no call asks a store whether one has, and
//! a shut store refuses everything after that. So a stored filter that is no accepted program any more ends a batch,
//! too. A line that exports names the file to make, so it is an `Export`; all others ask what the depot replies to.
//!
//! # Promises
//!
//! ## Batches
//!
//! ### Lines of a batch
//!
//! The lines of a batch are answered in their order, each exactly as the input has it: the bytes up to the next line
//! break and with it, of any length, never a piece of a line and never nothing (`lines_are_taken_as_answered`). In a
//! depot that commands made of nothing no line of a plain answer begins with `= `, as the line does that ends it
//! (`no_answer_closes_itself`). It is tested, not proved, that an answer has left the program's buffer before the next
//! line is read.
//!
//! ### Answers in JSON
//!
//! If the input begins with the line `json`, the turns of the batch begin after it, and each answer is one JSON object on
//! one line, without another line break (`json_answers_are_lines`); otherwise each answer is plain. What happens doesn't
//! depend on that, only the text of the answers. An object has exactly the members of its definition: the status, and
//! what the plain answer tells, for an entry also its name, media type and size after a delivery; the lines of a catalog
//! are the items of its list, with commas instead of line breaks. Bytes that aren't UTF-8 are told in base64, so a reader
//! finds the same bytes.
//!
//! An object is made after the command of its line is done. If memory is refused for it, the answer has only the status of
//! the line, and a member that says so: a command that was done is never reported as refused, and no line is left without
//! an answer. Of lines that are done together all answers are so, or none. That an object is made where there is memory is
//! tested, not proved.
//!
//! ### Lines that are done together
//!
//! A batch goes by turns. In a turn a line is done and answered alone; or up to 64 lines are done together; or lines
//! were tried together in vain. Only lines that begin with `deliver ` are done or tried together. Each of the lines that
//! are done together asks for a delivery, and their files were read one after another. If the disk returns what was
//! written the depot accepted them all, one after another, and the answers are theirs, in order, each with its `= 0`.
//!
//! ### Lines that are tried in vain
//!
//! If lines were tried together in vain, the depot is as it was, provided that the disk returns what was written. No
//! answer is written, and the same lines come next in the input. Then as many lines are answered alone, each in a turn
//! of its own, unless the batch ends before. So a batch that answers N lines has at most 2 N + 1 turns
//! (`turns_are_at_most_twice_the_lines`).
//!
//! ### What a line does
//!
//! For each line the definition has its words, what they ask for, its file as it was read, the depot's step, the text
//! of the answer or the refusal's line, and the line with the status. For a line that is no command the answer is an
//! exact description of the mistake, and nothing happens. The same holds for the bytes after the last line break,
//! after which nothing is read. A line of texts that write words, as they are or between quotes, has these words,
//! whatever bytes they are (`lines_say_their_words`).
//!
//! ### When a batch ends
//!
//! A batch ends only in these cases:
//!
//! - at the end of the input;
//! - after a line that is refused `Database`;
//! - if writing fails, or memory to read a line is refused;
//! - if a read fails, which is counted: `Read` is reported for no other cause, and at most one line is lost then;
//! - after 2^64 - 1 turns, when it has answered at least 2^63 - 1 lines.
//!
//! It ends with status 0 only at the end of the input or of these turns. An export is refused `Write` only if its file
//! couldn't be made or written. If the depot refuses it, that is by a refusal that an export can get, and, if the disk
//! returns what was written, for its cause.
//!
//! ### What a batch leaves
//!
//! If the disk returns what was written, the depot holds the fold of what was answered `= 0`, line after line, each
//! with the bytes that were read of its file (`batches_are_a_fold`). A crash leaves what it could have left before, or
//! what one of the turns makes of what those before it left, with the bytes that were read of its files, whole
//! (`crashes_leave_one_turn_whole`). So of lines that are done together it leaves all or none.
//!
//! By `batch`, `words_of`, `asked_by`; `reply_to` of depot_cli; `text_value` of catalog; `read_file_of` of depot_jobs;
//! `Depot::deliver_all` of depot_actions; laws `lines_say_their_words`, `lines_are_taken_as_answered`,
//! `turns_are_at_most_twice_the_lines`, `batches_are_a_fold`, `crashes_leave_one_turn_whole`,
//! `no_answer_closes_itself`, `json_answers_are_lines`.
#![tactic(auto)]

mod ahead;
mod answering;
mod asked;
mod desk;
mod first;
mod format;
pub mod laws;
mod line;
mod made;
mod mails;
mod outcome;
mod reading;
mod report;
mod serving;
mod together;
mod values;
mod words;

pub use asked::{Asked, Export, Form, LineFault, asked_by};
pub use serving::batch;
pub use words::words_of;
