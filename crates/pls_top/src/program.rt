//! From the words and bytes that come in to the bytes that go out.

ghost use Rattle.std.specs.Prelude.{◌≡◌, ◌≢◌, ◌⊎◌, ◌≤◌, ◌<◌, ℕ, List, Some, None, true, IfOk, Ok, length};
ghost use Rattle.pls_io.specs.Streams.{Rose};
ghost use Rattle.pls_io.specs.Refusals.{TakesSome};
ghost use Rattle.pls_problem.specs.Made.{IsWithinLimits, made};
ghost use Rattle.pls_problem.specs.Text.{instance_text};
ghost use Rattle.pls_problem.specs.Reading.{instance};
ghost use Rattle.pls_problem.specs.declared.instance.Instance.{Instance as AnyInstance};
ghost use Rattle.pls_settings.specs.Line.{line};
ghost use Rattle.pls_settings.specs.Limits.{HasLimits};
ghost use Rattle.pls_settings.specs.declared.choices.Mode.TheVariants.{Search, Make, Demo};
ghost use Rattle.pls_settings.specs.declared.choices.Settings.{Settings as Chosen};
ghost use Rattle.pls_top.specs.Answer.{UsageExactly, AsksSource, TooLongExactly, BadInstanceExactly, ShowsNoFreeRow, Tells, IsAnswered, IsUndisturbed, LeavesUnasked, ReadsAll, WritesFaultLine, ReadFailed, ReadLineInPart, AnswersWith};
ghost use Rattle.pls_top.specs.Due.{due_for, searched, demonstrated, written_out, instance_read, searched_for, reads, most_bytes};
ghost use Rattle.pls_top.specs.Ending.{Streams, IsEnding, Finishes, FinishesIfMemory, FinishesSearch};
ghost use Rattle.pls_top.specs.Front.{IsSoundRun};
ghost use Rattle.pls_top.specs.Runs.{SearchRun, IsRunOf, workers_of, KeepsConsistent};

use crate::fault_line::fault_line;
use crate::journal::Journal;
use crate::report::{demo_text, report_text};
use crate::search::search_with;
use crate::status::Status;
use pls_io::{ReadRefusal, Sink, Source, read_all, write_all};
use pls_problem::{Instance, MakeSpec, make, read, write};
use pls_search::Gate;
use pls_settings::{ArgWords, Mode, Settings, SettingsRefusal, settings};
use std::alloc::{AllocError, Global};
use std::sync::Wait;
use std::thread::Threads;

/// The most bytes of an instance's text.
const MOST_BYTES: usize = 16_777_216;

/// Does all that the program does: reads the words of the command line; for a search reads the source to
/// its end, searches the instance that the bytes are by so many workers, and writes to the sink the text of the search; for the
/// other modes makes an instance and writes its text, or searches it by one worker and writes three lines; or writes the line of
/// a fault. The gate is called at the beginning of each exploration, and the journal keeps the pass that a search left. Want of
/// memory is answered where it happens; then nothing was written.
pub fn run<R: Threads + Wait + Sync, S: Source, K: Sink, G: Gate>(
    rt: &R,
    alloc: Global,
    words: &ArgWords,
    source: &mut S,
    sink: &mut K,
    gate: &G,
    journal: &mut Journal,
) -> Status
    ensures source_count { S.faults source.old ≤ S.faults source.new }
    ensures sink_count { K.faults sink.old ≤ K.faults sink.new }

    // The cause of each answer.
    ensures usage { UsageExactly (line words.now) result }
    ensures asked { AsksSource (line words.now) result }
    ensures read_fault { result ≡ Status.ReadFault → Rose (S.faults source.old) (S.faults source.new) }
    ensures write_fault { result ≡ Status.WriteFault → Rose (K.faults sink.old) (K.faults sink.new) }
    ensures source_failed { S.faults source.old < S.faults source.new → ReadFailed result }
    ensures sink_failed { K.faults sink.old < K.faults sink.new → result ≡ Status.WriteFault }
    ensures too_long { (bytes : List ℕ) → S.left source.old ≡ Some bytes → TooLongExactly (line words.now) bytes result }
    ensures bad_instance { (bytes : List ℕ) → S.left source.old ≡ Some bytes → BadInstanceExactly (line words.now) bytes result }
    ensures full { result ≡ Status.Full → ShowsNoFreeRow (line words.now) journal.new }

    // It does not give up by itself.
    ensures complete { IsUndisturbed (line words.now) (S.left source.old)
        (((reads (line words.now) ≡ true) × Rose (S.faults source.old) (S.faults source.new)) ⊎ Rose (K.faults sink.old) (K.faults sink.new))
        → IsAnswered (line words.now) result }

    // What a run is worth, of which `answer` says when it was made.
    ensures sound { (s : Chosen) (i : AnyInstance) (r : SearchRun) → IsRunOf s i r → IsSoundRun i s.starts s.moves r }
    ensures journal { (s : Chosen) → line words.now ≡ Some s → KeepsConsistent (workers_of s) journal.old journal.new }
    ensures no_journal { (bytes : List ℕ) → Tells (line words.now) (S.left source.old) bytes
        → searched_for (line words.now) bytes ≡ None → journal.new ≡ journal.old }

    // What is left in the source.
    ensures rest { TakesSome (S.left source.old) (S.left source.new) }
    ensures unasked { LeavesUnasked (line words.now) (S.faults source.old) (S.faults source.new) (S.left source.old) (S.left source.new) }
    ensures reads_all { ReadsAll (line words.now) (Rose (S.faults source.old) (S.faults source.new) → ⊥)
        (S.left source.old) (S.left source.new) result }

    // What was written.
    ensures fault_line { (before : List ℕ) → K.written sink.old ≡ Some before → WritesFaultLine result before (K.written sink.new) }
    ensures read_line_in_part { S.faults source.old < S.faults source.new
        → (before : List ℕ) → K.written sink.old ≡ Some before → ReadLineInPart result before (K.written sink.new) }

    // The answer: the run that was made, the status and the text that are due with it.
    ensures answer { (bytes : List ℕ) → Tells (line words.now) (S.left source.old) bytes
        → (r : SearchRun) × AnswersWith (line words.now) bytes ((reads (line words.now) ≡ true) × Rose (S.faults source.old) (S.faults source.new))
        journal.new result (K.written sink.old) (K.written sink.new) r }
{
    serve(rt, alloc, words, source, sink, gate, journal)
}

/// What `run` does, told as one of the ways in which it ends.
fn serve<R: Threads + Wait + Sync, S: Source, K: Sink, G: Gate>(
    rt: &R,
    alloc: Global,
    words: &ArgWords,
    source: &mut S,
    sink: &mut K,
    gate: &G,
    journal: &mut Journal,
) -> Status
    ensures source_count { S.faults source.old ≤ S.faults source.new }
    ensures sink_count { K.faults sink.old ≤ K.faults sink.new }
    ensures rest { TakesSome (S.left source.old) (S.left source.new) }
    ensures unasked { LeavesUnasked (line words.now) (S.faults source.old) (S.faults source.new) (S.left source.old) (S.left source.new) }
    ensures journal { (s : Chosen) → line words.now ≡ Some s → KeepsConsistent (workers_of s) journal.old journal.new }
    ensures no_journal { (bytes : List ℕ) → Tells (line words.now) (S.left source.old) bytes
        → searched_for (line words.now) bytes ≡ None → journal.new ≡ journal.old }
    ensures ending { IsEnding (line words.now) journal.new
        (record { read_faults = S.faults source.old; left = S.left source.old; write_faults = K.faults sink.old; written = K.written sink.old })
        (record { read_faults = S.faults source.new; left = S.left source.new; write_faults = K.faults sink.new; written = K.written sink.new })
        result }
{
    match settings(alloc, words) {
        Ok(settings) => match settings.mode {
            Mode::Search => search_source(rt, alloc, &settings, source, sink, gate, journal),
            Mode::Make => make_and_write(alloc, &settings, sink),
            Mode::Demo => demonstrate(rt, alloc, &settings, sink, gate, journal),
        },
        Err(SettingsRefusal::Usage) => finish(sink, b"error usage\n", Status::Usage),
        Err(SettingsRefusal::Memory) => Status::Memory,
    }
}

/// Searches the instance that the source gives.
fn search_source<R: Threads + Wait + Sync, S: Source, K: Sink, G: Gate>(
    rt: &R,
    alloc: Global,
    settings: &Settings,
    source: &mut S,
    sink: &mut K,
    gate: &G,
    journal: &mut Journal,
) -> Status
    requires mode { settings.now.mode ≡ Search }
    requires limits { HasLimits settings.now }
    ensures journal { KeepsConsistent (workers_of settings.now) journal.old journal.new }
    ensures no_journal { (bytes : List ℕ) → Tells (Some settings.now) (S.left source.old) bytes
        → searched_for (Some settings.now) bytes ≡ None → journal.new ≡ journal.old }
    ensures source_count { S.faults source.old ≤ S.faults source.new }
    ensures sink_count { K.faults sink.old ≤ K.faults sink.new }
    ensures rest { TakesSome (S.left source.old) (S.left source.new) }
    ensures ending { IsEnding (Some settings.now) journal.new
        (record { read_faults = S.faults source.old; left = S.left source.old; write_faults = K.faults sink.old; written = K.written sink.old })
        (record { read_faults = S.faults source.new; left = S.left source.new; write_faults = K.faults sink.new; written = K.written sink.new })
        result }
{
    match read_all(alloc, source, MOST_BYTES) {
        Ok(text) => answer(rt, alloc, settings, &text, sink, gate, journal),
        Err(ReadRefusal::ReadFault) => finish(sink, b"error read\n", Status::ReadFault),
        Err(ReadRefusal::TooLong) => finish(sink, b"error too long\n", Status::TooLong),
        Err(ReadRefusal::Memory) => Status::Memory,
    }
}

/// Answers the bytes that were read.
fn answer<R: Threads + Wait + Sync, K: Sink, G: Gate>(
    rt: &R,
    alloc: Global,
    settings: &Settings,
    text: &[u8],
    sink: &mut K,
    gate: &G,
    journal: &mut Journal,
) -> Status
    requires short { length text.now ≤ most_bytes }
    requires mode { settings.now.mode ≡ Search }
    requires limits { HasLimits settings.now }
    ensures count { K.faults sink.old ≤ K.faults sink.new }
    ensures journal { KeepsConsistent (workers_of settings.now) journal.old journal.new }
    ensures no_journal { instance_read (instance text.now) ≡ None → journal.new ≡ journal.old }
    ensures finishes { FinishesSearch settings.now (instance_read (instance text.now)) journal.new (λ r. due_for r (instance text.now))
        (K.faults sink.old) (K.faults sink.new) (K.written sink.old) (K.written sink.new) result }
{
    match read(alloc, text) {
        Ok(instance) => search_and_write(rt, alloc, settings, &instance, sink, gate, journal),
        Err(fault) => match fault_line(fault) {
            Some(line) => finish(sink, line.as_str().as_bytes(), Status::BadInstance),
            None => Status::Memory,
        },
    }
}

/// Searches, and writes the text of the search.
fn search_and_write<R: Threads + Wait + Sync, K: Sink, G: Gate>(
    rt: &R,
    alloc: Global,
    settings: &Settings,
    instance: &Instance,
    sink: &mut K,
    gate: &G,
    journal: &mut Journal,
) -> Status
    requires mode { settings.now.mode ≡ Search }
    requires limits { HasLimits settings.now }
    ensures count { K.faults sink.old ≤ K.faults sink.new }
    ensures journal { KeepsConsistent (workers_of settings.now) journal.old journal.new }
    ensures finishes { FinishesSearch settings.now (Some instance.now) journal.new (searched instance.now)
        (K.faults sink.old) (K.faults sink.new) (K.written sink.old) (K.written sink.new) result }
{
    let workers = settings.workers;
    let Ok(outcome) = search_with(rt, alloc, settings, workers, instance, gate, journal) else {
        return Status::Memory;
    };
    let Ok(text) = report_text(alloc, instance, &outcome.front, outcome.counts, outcome.end) else {
        return Status::Memory;
    };
    finish(sink, text.as_slice(), Status::from(outcome.end))
}

/// Searches the instance that the settings make, and writes three lines on the search.
fn demonstrate<R: Threads + Wait + Sync, K: Sink, G: Gate>(
    rt: &R,
    alloc: Global,
    settings: &Settings,
    sink: &mut K,
    gate: &G,
    journal: &mut Journal,
) -> Status
    requires mode { settings.now.mode ≡ Demo }
    requires limits { HasLimits settings.now }
    ensures count { K.faults sink.old ≤ K.faults sink.new }
    ensures journal { KeepsConsistent (workers_of settings.now) journal.old journal.new }
    ensures finishes { FinishesSearch settings.now (Some (made settings.now.make)) journal.new (demonstrated settings.now)
        (K.faults sink.old) (K.faults sink.new) (K.written sink.old) (K.written sink.new) result }
{
    let Ok(instance) = make(alloc, settings.make) else {
        return Status::Memory;
    };
    let Ok(outcome) = search_with(rt, alloc, settings, 1, &instance, gate, journal) else {
        return Status::Memory;
    };
    let seed = settings.seed;
    let Ok(text) = demo_text(
        alloc,
        &instance,
        seed,
        &outcome.front,
        outcome.counts,
        outcome.end,
    ) else {
        return Status::Memory;
    };
    finish(sink, text.as_slice(), Status::from(outcome.end))
}

/// Writes the text of the instance that the settings make.
fn make_and_write<K: Sink>(alloc: Global, settings: &Settings, sink: &mut K) -> Status
    requires { IsWithinLimits settings.now.make }
    ensures count { K.faults sink.old ≤ K.faults sink.new }
    ensures finishes { FinishesIfMemory (written_out settings.now)
        (K.faults sink.old) (K.faults sink.new) (K.written sink.old) (K.written sink.new) result }
{
    let Ok(text) = made_text(alloc, settings.make) else {
        return Status::Memory;
    };
    finish(sink, text.as_slice(), Status::Closed)
}

/// The text of the instance that is made.
fn made_text(alloc: Global, spec: MakeSpec) -> Result<Vec<u8>, AllocError>
    requires { IsWithinLimits spec }
    ensures { IfOk result (λ text. text.items ≡ instance_text (made spec)) }
{
    let instance = make(alloc, spec)?;
    write(alloc, &instance)
}

/// Writes a text, and answers the status unless the sink fails.
fn finish<K: Sink>(sink: &mut K, text: &[u8], status: Status) -> Status
    ensures count { K.faults sink.old ≤ K.faults sink.new }
    ensures finishes { Finishes (record { status = status; text = text.now })
        (K.faults sink.old) (K.faults sink.new) (K.written sink.old) (K.written sink.new) result }
{
    match write_all(sink, text) {
        Ok(()) => status,
        Err(_) => Status::WriteFault,
    }
}
