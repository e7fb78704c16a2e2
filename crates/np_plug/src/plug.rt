//! The entry point of the plug-in program, over any environment.

ghost use Rattle.std.specs.Prelude.{◌≡◌, ◌<◌, ◌^◌, ◌⊎◌, ◌↔◌, ◌≢◌, length, map, string_bytes, IfOk, OnOk, OnErr, Some, None, true};
ghost use Rattle.np_ports.specs.Causes.{Rose};
ghost use Rattle.np_end_stops.specs.Causes.{SinkCause, MemoryOnly, UnlessMemory, counted_output};
ghost use Rattle.np_plug.specs.Plug.{texts, script_word, RunsPlugin, RunCut, CutWords, RunsWords, UnrefusedWords, StopsEarly, RefusesPlugin, RefusesScript, OnlyRefused, OnlyRefusedScript, KeepsFiles, NotesScriptOnly, NotesWordsOnly, IsIdle, IsCutShort, IsEndStatus};
ghost use Rattle.np_exchange.specs.Session.{GaveAtMost};
ghost use Rattle.np_exchange.specs.Closing.{IsUnrefusedStatus};
ghost use Rattle.np_plug.specs.Outcomes.{CutShort};
ghost use Rattle.np_plug.specs.Main.{FollowsWords, ForEachPage, PluginDone, PluginLeft, PluginBroken, PluginRefused, PluginCut};
ghost use Rattle.np_end_stops.specs.Status.{BAD_SCRIPT, DONE, FILE_FAILED, NO_MEMORY, OUTPUT_FAILED, PEER_LOST, PIPE_FAILED, REFUSED, USAGE};

use crate::session::session;
use np_end_lines::{FixedEnd, finish, finish_script, finish_unbuilt};
use np_end_stops::{Stop, exit_status};
use np_model_scripts::{Unserved, serve_plugin, served_pages_are_well_formed};
use np_model_wire_laws::{
    page_few_bytes_law, plugin_begins_law, plugin_comes_to_rest_law, plugin_ends_law,
    plugin_never_refuses_law, plugin_waits_law, rests_unrefused_law,
};
use np_ports::{Files, Peer, PortError, Sink, read_script};
use std::alloc::Global;

/// The plug-in of the named file runs over the peer.
fn run<P: Peer, F: Files, O: Sink>(
    alloc: Global,
    name: &str,
    peer: &mut P,
    files: &mut F,
    notes: &mut O,
) -> Result<u8, Stop>
    ensures runs { IfOk result (λ status. RunsPlugin name.now (F.contents files.old) (P.known peer.old) (P.known peer.new) (O.taken notes.old) (O.taken notes.new) status) }
    ensures cut { OnErr result (RunCut (CutShort (Rose (P.pipe_faults peer.old) (P.pipe_faults peer.new)) (P.has_ended peer.new ≡ true)) name.now (Rose (F.faults files.old) (F.faults files.new)) (F.contents files.old) (P.known peer.old) (P.known peer.new) (O.taken notes.old) (O.taken notes.new)) }
    ensures read_limit { GaveAtMost (2 ^ 40) (P.known peer.old) (P.known peer.new) }
    ensures early { IfOk result (λ status. StopsEarly (P.known peer.old) (P.known peer.new) (O.taken notes.old) (O.taken notes.new) status) }
    ensures script { IfOk result (λ status. status ≡ BAD_SCRIPT → RefusesPlugin name.now (F.contents files.old) (O.taken notes.old) (O.taken notes.new)) }
    ensures script_only { IfOk result (λ status. OnlyRefused name.now (F.contents files.old) status) }
    ensures listed { IfOk result (λ status. IsEndStatus status) }
    ensures usage { IfOk result (λ status. status ≢ USAGE) }
    ensures output { IfOk result (λ status. status ≢ OUTPUT_FAILED) }
    ensures file { IfOk result (λ status. status ≡ FILE_FAILED → Rose (F.faults files.old) (F.faults files.new)) }
    ensures pipe { IfOk result (λ status. status ≡ PIPE_FAILED → Rose (P.pipe_faults peer.old) (P.pipe_faults peer.new)) }
    ensures ended { IfOk result (λ status. status ≡ PEER_LOST → P.has_ended peer.new ≡ true) }
    ensures start_faults { P.start_faults peer.new ≡ P.start_faults peer.old }
    ensures file_only { IfOk result (λ status. (status ≡ FILE_FAILED) ⊎ (F.faults files.new ≡ F.faults files.old)) }
    ensures pipe_only { IfOk result (λ status. (status ≡ PIPE_FAILED) ⊎ (P.pipe_faults peer.new ≡ P.pipe_faults peer.old)) }
    ensures ended_only { IfOk result (λ status. (status ≡ PEER_LOST) ⊎ (P.has_ended peer.new ≡ P.has_ended peer.old)) }
    ensures early_peer { IfOk result (λ status. (status ≡ BAD_SCRIPT) ⊎ (status ≡ FILE_FAILED) → peer.new ≡ peer.old) }
    ensures sink { SinkCause (O.faults notes.old) (O.faults notes.new) result }
    ensures sink_count { O.faults notes.new ≡ counted_output (O.faults notes.old) result }
    ensures memory_kept { UnlessMemory result (O.memory_faults notes.new ≡ O.memory_faults notes.old) }
    ensures file_memory { MemoryOnly result ((F.faults files.new ≡ F.faults files.old) ⊎ Rose (O.memory_faults notes.old) (O.memory_faults notes.new)) }
    ensures ended_memory { MemoryOnly result ((P.has_ended peer.new ≡ P.has_ended peer.old) ⊎ Rose (O.memory_faults notes.old) (O.memory_faults notes.new)) }
    ensures pipe_memory { MemoryOnly result ((P.pipe_faults peer.new ≡ P.pipe_faults peer.old) ⊎ Rose (O.memory_faults notes.old) (O.memory_faults notes.new)) }
    ensures files { KeepsFiles (F.contents files.old) (F.contents files.new) }
    ensures failed_calls { NotesScriptOnly name.now (F.failed_calls files.old) (F.failed_calls files.new) }
{
    let bytes = match read_script(alloc, files, name) {
        Ok(bytes) => bytes,
        Err(PortError::Failed) => return finish(notes, FixedEnd::FileFailed),
        Err(PortError::NoMemory) => return Err(Stop::NoMemory),
    };
    let plugin = match serve_plugin(alloc, &bytes) {
        Ok(plugin) => plugin,
        Err(Unserved::Script(error)) => return finish_script(alloc, notes, error),
        Err(Unserved::Unbuilt) => return finish_unbuilt(notes),
        Err(Unserved::NoMemory) => return Err(Stop::NoMemory),
    };
    let status = session(alloc, plugin, peer, notes)?;
    Ok(status)
}

/// Runs the plug-in end on the words of its command line, and answers its status.
///
/// `words` are those after the program's name: `SCRIPT NOTES`, any two words as they are. The plug-in of
/// the file SCRIPT serves the page at the other end of `peer`, which is never started; its lines and its
/// end line go to `notes`, the file NOTES. This project's own.
pub fn plug_main<P: Peer, F: Files, O: Sink>(
    alloc: Global,
    words: &[String],
    peer: &mut P,
    files: &mut F,
    notes: &mut O,
) -> u8
    // What a run did, for environments that record their traffic: status 0, 5, 6 or 7.
    ensures runs { RunsWords (texts words.now) (F.contents files.old) (P.known peer.old) (P.known peer.new) (O.taken notes.old) (O.taken notes.new) result }

    // At 0, 5 and 6 the plug-in refuses nothing of what the peer gave, whatever bytes these are. So where it
    // refuses something, a run that isn't cut short ends with 7.
    ensures unrefused { IsUnrefusedStatus result → UnrefusedWords (texts words.now) (F.contents files.old) (P.known peer.old) (P.known peer.new) (O.taken notes.old) result }

    // The main theorem: for each page script whose wire text the given bytes begin, the run of page and
    // plug-in in one process that only the whole messages of these bytes reach.
    ensures follows_done { result ≡ DONE → FollowsWords PluginDone (texts words.now) (F.contents files.old) (P.known peer.old) (P.known peer.new) (O.taken notes.old) (O.taken notes.new) }
    ensures follows_left { result ≡ PEER_LOST → FollowsWords PluginLeft (texts words.now) (F.contents files.old) (P.known peer.old) (P.known peer.new) (O.taken notes.old) (O.taken notes.new) }
    ensures follows_broken { result ≡ PIPE_FAILED → FollowsWords PluginBroken (texts words.now) (F.contents files.old) (P.known peer.old) (P.known peer.new) (O.taken notes.old) (O.taken notes.new) }
    ensures never_refused { result ≡ REFUSED → FollowsWords PluginRefused (texts words.now) (F.contents files.old) (P.known peer.old) (P.known peer.new) (O.taken notes.old) (O.taken notes.new) }
    ensures follows_cut { IsCutShort result → CutWords (ForEachPage PluginCut) (texts words.now) (Rose (F.faults files.old) (F.faults files.new)) (F.contents files.old) (P.known peer.old) (P.known peer.new) (O.taken notes.old) (O.taken notes.new) }

    // At 8 and 10: what the sink and the peer took by then.
    ensures cut { IsCutShort result → CutWords (CutShort (Rose (P.pipe_faults peer.old) (P.pipe_faults peer.new)) (P.has_ended peer.new ≡ true)) (texts words.now) (Rose (F.faults files.old) (F.faults files.new)) (F.contents files.old) (P.known peer.old) (P.known peer.new) (O.taken notes.old) (O.taken notes.new) }

    // Of a peer that records its traffic at most 2^40 bytes were read, at every status.
    ensures read_limit { GaveAtMost (2 ^ 40) (P.known peer.old) (P.known peer.new) }

    // What comes before a plug-in runs.
    ensures early { StopsEarly (P.known peer.old) (P.known peer.new) (O.taken notes.old) (O.taken notes.new) result }
    ensures usage { result ≡ USAGE ↔ (script_word (texts words.now) ≡ None) }
    ensures idle { result ≡ USAGE → IsIdle (F.contents files.old) (F.contents files.new) (F.failed_calls files.old) (F.failed_calls files.new) (P.known peer.old) (P.known peer.new) (O.taken notes.old) (O.taken notes.new) }

    // The statuses, and the cause of each.
    ensures listed { IsEndStatus result ⊎ IsCutShort result }
    ensures script { result ≡ BAD_SCRIPT → RefusesScript (texts words.now) (F.contents files.old) (O.taken notes.old) (O.taken notes.new) }
    ensures script_only { IsCutShort result ⊎ OnlyRefusedScript (texts words.now) (F.contents files.old) result }
    ensures file { result ≡ FILE_FAILED → Rose (F.faults files.old) (F.faults files.new) }
    ensures ended { result ≡ PEER_LOST → P.has_ended peer.new ≡ true }
    ensures pipe { result ≡ PIPE_FAILED → Rose (P.pipe_faults peer.old) (P.pipe_faults peer.new) }
    ensures output { result ≡ OUTPUT_FAILED → Rose (O.faults notes.old) (O.faults notes.new) }

    // And the other way round: no fault is passed over. A count that rose, and an end that a read answered, give their status,
    // unless the run was cut short; the notes' gives 10 in any case.
    ensures file_only { (result ≡ FILE_FAILED) ⊎ (IsCutShort result ⊎ (F.faults files.new ≡ F.faults files.old)) }
    ensures ended_only { (result ≡ PEER_LOST) ⊎ (IsCutShort result ⊎ (P.has_ended peer.new ≡ P.has_ended peer.old)) }
    ensures pipe_only { (result ≡ PIPE_FAILED) ⊎ (IsCutShort result ⊎ (P.pipe_faults peer.new ≡ P.pipe_faults peer.old)) }
    ensures output_only { (result ≡ OUTPUT_FAILED) ⊎ (O.faults notes.new ≡ O.faults notes.old) }
    ensures memory_only { (result ≡ NO_MEMORY) ⊎ (O.memory_faults notes.new ≡ O.memory_faults notes.old) }

    // Out of memory comes in place of none of 4, 5 and 6: at 8 no read of the script, no read or write of the peer has failed, and
    // the peer has not ended, unless memory ran out in the notes themselves.
    ensures file_memory { result ≡ NO_MEMORY → (F.faults files.new ≡ F.faults files.old) ⊎ Rose (O.memory_faults notes.old) (O.memory_faults notes.new) }
    ensures ended_memory { result ≡ NO_MEMORY → (P.has_ended peer.new ≡ P.has_ended peer.old) ⊎ Rose (O.memory_faults notes.old) (O.memory_faults notes.new) }
    ensures pipe_memory { result ≡ NO_MEMORY → (P.pipe_faults peer.new ≡ P.pipe_faults peer.old) ⊎ Rose (O.memory_faults notes.old) (O.memory_faults notes.new) }

    // At 2 nothing was called at all; at 3 and 4 the peer wasn't.
    ensures unchanged { result ≡ USAGE → (peer.new ≡ peer.old) × ((files.new ≡ files.old) × (notes.new ≡ notes.old)) }
    ensures early_peer { (result ≡ BAD_SCRIPT) ⊎ (result ≡ FILE_FAILED) → peer.new ≡ peer.old }

    // What stays, at every status: the peer isn't started, and the files stay as they were.
    ensures start_faults { P.start_faults peer.new ≡ P.start_faults peer.old }
    ensures files { KeepsFiles (F.contents files.old) (F.contents files.new) }
    ensures failed_calls { NotesWordsOnly (texts words.now) (F.failed_calls files.old) (F.failed_calls files.new) }
{
    plugin_waits_law();
    plugin_begins_law();
    plugin_comes_to_rest_law();
    plugin_ends_law();
    plugin_never_refuses_law();
    rests_unrefused_law();
    page_few_bytes_law();
    served_pages_are_well_formed();
    let [script, _] = words else {
        return exit_status::USAGE;
    };
    match run(alloc, script.as_str(), peer, files, notes) {
        Ok(status) => status,
        Err(Stop::OutputFailed) => exit_status::OUTPUT_FAILED,
        Err(Stop::NoMemory) => exit_status::NO_MEMORY,
    }
}
