//! The entry point of the host, over any environment.

ghost use Rattle.std.specs.Prelude.{◌≡◌, ◌<◌, ◌^◌, ◌⊎◌, ◌↔◌, ◌≢◌, length, map, string_bytes, IfOk, OnOk, OnErr, Some, None, true};
ghost use Rattle.np_ports.specs.Causes.{Rose};
ghost use Rattle.np_host.specs.Words.{host_command as command_in, texts};
ghost use Rattle.np_exchange.specs.Session.{GaveAtMost};
ghost use Rattle.np_exchange.specs.Closing.{IsUnrefusedStatus};
ghost use Rattle.np_host.specs.Outcomes.{CutShort};
ghost use Rattle.np_host.specs.Host.{RunsPage, RunCut, CutWords, StopsEarly, NotStarted, RefusesPage, OnlyRefused, RunsWords, UnrefusedWords, NotStartedWords, RefusesScript, OnlyRefusedScript, OfCheck, OfShow, IsNoShow, NotesScriptOnly, IsCutShort, IsEndStatus};
ghost use Rattle.np_show.specs.Show.{KeepsFiles, NotesReadOnly};
ghost use Rattle.np_host.specs.Shows.{ShowsFile, ShowsBeginning, ShowsCut, ShowsOnly};
ghost use Rattle.np_host.specs.Check.{ChecksWell, ChecksBadly, ChecksOnly, ChecksPart};
ghost use Rattle.np_end_stops.specs.Causes.{SinkCause, MemoryOnly, UnlessMemory, counted_output};
ghost use Rattle.np_host.specs.Main.{FollowsWords, ForEachPlugin, HostDone, HostLost, HostBroken, HostRefused, HostCut};
ghost use Rattle.np_end_stops.specs.Status.{BAD_SCRIPT, DONE, FILE_FAILED, NOT_STARTED, NO_MEMORY, OUTPUT_FAILED, PEER_LOST, PIPE_FAILED, REFUSED, USAGE};

use crate::check::check;
use crate::session::session;
use crate::words::{CommandWords, host_command};
use np_end_lines::{FixedEnd, finish, finish_script, finish_unbuilt};
use np_end_stops::{Stop, exit_status};
use np_model_scripts::{Unserved, serve_page, served_pages_are_well_formed};
use np_model_wire_laws::{
    begins_law, comes_to_rest_law, ends_law, few_bytes_law, never_refuses_law, rests_unrefused_law,
    waits_law,
};
use np_ports::{Files, Peer, PortError, Sink, read_script};
use np_show::show;
use std::alloc::Global;

/// The page of the named file runs over the program, whose words these are.
fn run<P: Peer, F: Files, O: Sink>(
    alloc: Global,
    name: &str,
    program: &[String],
    peer: &mut P,
    files: &mut F,
    out: &mut O,
) -> Result<u8, Stop>
    requires program { 0 < length program.now }
    ensures runs { IfOk result (λ status. RunsPage name.now (texts program.now) (F.contents files.old) (P.known peer.old) (P.known peer.new) (O.taken out.old) (O.taken out.new) status) }
    ensures cut { OnErr result (RunCut (CutShort (Rose (P.pipe_faults peer.old) (P.pipe_faults peer.new)) (P.has_ended peer.new ≡ true)) name.now (texts program.now) (Rose (F.faults files.old) (F.faults files.new)) (Rose (P.start_faults peer.old) (P.start_faults peer.new)) (F.contents files.old) (P.known peer.old) (P.known peer.new) (O.taken out.old) (O.taken out.new)) }
    ensures read_limit { GaveAtMost (2 ^ 40) (P.known peer.old) (P.known peer.new) }
    ensures early { IfOk result (λ status. StopsEarly (P.known peer.old) (P.known peer.new) (O.taken out.old) (O.taken out.new) status) }
    ensures not_started { IfOk result (λ status. NotStarted (texts program.now) (P.known peer.old) (P.known peer.new) (O.taken out.old) (O.taken out.new) status) }
    ensures script { IfOk result (λ status. status ≡ BAD_SCRIPT → RefusesPage name.now (F.contents files.old) (O.taken out.old) (O.taken out.new)) }
    ensures script_only { IfOk result (λ status. OnlyRefused name.now (F.contents files.old) status) }
    ensures listed { IfOk result (λ status. IsEndStatus status) }
    ensures usage { IfOk result (λ status. status ≢ USAGE) }
    ensures output { IfOk result (λ status. status ≢ OUTPUT_FAILED) }
    ensures file { IfOk result (λ status. status ≡ FILE_FAILED → Rose (F.faults files.old) (F.faults files.new)) }
    ensures start { IfOk result (λ status. status ≡ NOT_STARTED → Rose (P.start_faults peer.old) (P.start_faults peer.new)) }
    ensures pipe { IfOk result (λ status. status ≡ PIPE_FAILED → Rose (P.pipe_faults peer.old) (P.pipe_faults peer.new)) }
    ensures ended { IfOk result (λ status. status ≡ PEER_LOST → P.has_ended peer.new ≡ true) }
    ensures file_only { IfOk result (λ status. (status ≡ FILE_FAILED) ⊎ (F.faults files.new ≡ F.faults files.old)) }
    ensures start_only { IfOk result (λ status. (status ≡ NOT_STARTED) ⊎ (P.start_faults peer.new ≡ P.start_faults peer.old)) }
    ensures pipe_only { IfOk result (λ status. (status ≡ PIPE_FAILED) ⊎ (P.pipe_faults peer.new ≡ P.pipe_faults peer.old)) }
    ensures ended_only { IfOk result (λ status. (status ≡ PEER_LOST) ⊎ (P.has_ended peer.new ≡ P.has_ended peer.old)) }
    ensures early_peer { IfOk result (λ status. (status ≡ BAD_SCRIPT) ⊎ (status ≡ FILE_FAILED) → peer.new ≡ peer.old) }
    ensures sink { SinkCause (O.faults out.old) (O.faults out.new) result }
    ensures sink_count { O.faults out.new ≡ counted_output (O.faults out.old) result }
    ensures memory_kept { UnlessMemory result (O.memory_faults out.new ≡ O.memory_faults out.old) }
    ensures file_memory { MemoryOnly result ((F.faults files.new ≡ F.faults files.old) ⊎ Rose (O.memory_faults out.old) (O.memory_faults out.new)) }
    ensures start_memory { MemoryOnly result ((P.start_faults peer.new ≡ P.start_faults peer.old) ⊎ Rose (O.memory_faults out.old) (O.memory_faults out.new)) }
    ensures files { KeepsFiles (F.contents files.old) (F.contents files.new) }
    ensures failed_calls { NotesReadOnly name.now (F.failed_calls files.old) (F.failed_calls files.new) }
{
    let bytes = match read_script(alloc, files, name) {
        Ok(bytes) => bytes,
        Err(PortError::Failed) => return finish(out, FixedEnd::FileFailed),
        Err(PortError::NoMemory) => return Err(Stop::NoMemory),
    };
    let page = match serve_page(alloc, &bytes) {
        Ok(page) => page,
        Err(Unserved::Script(error)) => return finish_script(alloc, out, error),
        Err(Unserved::Unbuilt) => return finish_unbuilt(out),
        Err(Unserved::NoMemory) => return Err(Stop::NoMemory),
    };
    match peer.start(program) {
        Ok(()) => {}
        Err(PortError::Failed) => return finish(out, FixedEnd::NotStarted),
        Err(PortError::NoMemory) => return Err(Stop::NoMemory),
    }
    let status = session(alloc, page, peer, out)?;
    Ok(status)
}

/// Does what the words tell to do.
fn serve<P: Peer, F: Files, O: Sink>(
    alloc: Global,
    words: &[String],
    peer: &mut P,
    files: &mut F,
    out: &mut O,
) -> Result<u8, Stop>
    ensures runs { IfOk result (λ status. RunsWords (texts words.now) (F.contents files.old) (P.known peer.old) (P.known peer.new) (O.taken out.old) (O.taken out.new) status) }
    ensures cut { OnErr result (CutWords (CutShort (Rose (P.pipe_faults peer.old) (P.pipe_faults peer.new)) (P.has_ended peer.new ≡ true)) (texts words.now) (Rose (F.faults files.old) (F.faults files.new)) (Rose (P.start_faults peer.old) (P.start_faults peer.new)) (F.contents files.old) (P.known peer.old) (P.known peer.new) (O.taken out.old) (O.taken out.new)) }
    ensures read_limit { GaveAtMost (2 ^ 40) (P.known peer.old) (P.known peer.new) }
    ensures early { IfOk result (λ status. IsNoShow (command_in (texts words.now)) → StopsEarly (P.known peer.old) (P.known peer.new) (O.taken out.old) (O.taken out.new) status) }
    ensures not_started { IfOk result (λ status. NotStartedWords (texts words.now) (P.known peer.old) (P.known peer.new) (O.taken out.old) (O.taken out.new) status) }
    ensures script { IfOk result (λ status. status ≡ BAD_SCRIPT → RefusesScript (texts words.now) (F.contents files.old) (O.taken out.old) (O.taken out.new)) }
    ensures script_only { IfOk result (λ status. OnlyRefusedScript (texts words.now) (F.contents files.old) status) }
    ensures check_done { IfOk result (λ status. status ≡ DONE → ChecksWell (texts words.now) (F.contents files.old) (O.taken out.old) (O.taken out.new)) }
    ensures check_refused { IfOk result (λ status. status ≡ BAD_SCRIPT → ChecksBadly (texts words.now) (F.contents files.old) (O.taken out.old) (O.taken out.new)) }
    ensures check_only { IfOk result (λ status. ChecksOnly (texts words.now) (F.contents files.old) status) }
    ensures check_cut { OnErr result (ChecksPart (texts words.now) (Rose (F.faults files.old) (F.faults files.new)) (F.contents files.old) (O.taken out.old) (O.taken out.new)) }
    ensures check_peer { OfCheck (command_in (texts words.now)) (λ side name. peer.new ≡ peer.old) }
    ensures show_all { IfOk result (λ status. (status ≡ DONE) ⊎ (status ≡ REFUSED) → ShowsFile (texts words.now) (F.contents files.old) (O.taken out.old) (O.taken out.new) status) }
    ensures show_part { IfOk result (λ status. status ≡ FILE_FAILED → ShowsBeginning (texts words.now) (F.contents files.old) (O.taken out.old) (O.taken out.new)) }
    ensures show_only { IfOk result (λ status. ShowsOnly (texts words.now) status) }
    ensures show_cut { OnErr result (ShowsCut (texts words.now) (Rose (F.faults files.old) (F.faults files.new)) (F.contents files.old) (O.taken out.old) (O.taken out.new)) }
    ensures show_peer { OfShow (command_in (texts words.now)) (λ name. peer.new ≡ peer.old) }
    ensures output { IfOk result (λ status. status ≢ OUTPUT_FAILED) }
    ensures listed { IfOk result (λ status. IsEndStatus status) }
    ensures usage { IfOk result (λ status. (status ≡ USAGE) ↔ (command_in (texts words.now) ≡ None)) }
    ensures file { IfOk result (λ status. status ≡ FILE_FAILED → Rose (F.faults files.old) (F.faults files.new)) }
    ensures start { IfOk result (λ status. status ≡ NOT_STARTED → Rose (P.start_faults peer.old) (P.start_faults peer.new)) }
    ensures pipe { IfOk result (λ status. status ≡ PIPE_FAILED → Rose (P.pipe_faults peer.old) (P.pipe_faults peer.new)) }
    ensures ended { IfOk result (λ status. status ≡ PEER_LOST → P.has_ended peer.new ≡ true) }
    ensures file_only { IfOk result (λ status. (status ≡ FILE_FAILED) ⊎ (F.faults files.new ≡ F.faults files.old)) }
    ensures start_only { IfOk result (λ status. (status ≡ NOT_STARTED) ⊎ (P.start_faults peer.new ≡ P.start_faults peer.old)) }
    ensures pipe_only { IfOk result (λ status. (status ≡ PIPE_FAILED) ⊎ (P.pipe_faults peer.new ≡ P.pipe_faults peer.old)) }
    ensures ended_only { IfOk result (λ status. (status ≡ PEER_LOST) ⊎ (P.has_ended peer.new ≡ P.has_ended peer.old)) }
    ensures early_peer { IfOk result (λ status. (status ≡ BAD_SCRIPT) ⊎ (status ≡ FILE_FAILED) → peer.new ≡ peer.old) }
    ensures idle { IfOk result (λ status. status ≡ USAGE → (peer.new ≡ peer.old) × (files.new ≡ files.old)) }
    ensures sink { SinkCause (O.faults out.old) (O.faults out.new) result }
    ensures sink_count { O.faults out.new ≡ counted_output (O.faults out.old) result }
    ensures memory_kept { UnlessMemory result (O.memory_faults out.new ≡ O.memory_faults out.old) }
    ensures file_memory { MemoryOnly result ((F.faults files.new ≡ F.faults files.old) ⊎ Rose (O.memory_faults out.old) (O.memory_faults out.new)) }
    ensures start_memory { MemoryOnly result ((P.start_faults peer.new ≡ P.start_faults peer.old) ⊎ Rose (O.memory_faults out.old) (O.memory_faults out.new)) }
    ensures files { KeepsFiles (F.contents files.old) (F.contents files.new) }
    ensures failed_calls { NotesScriptOnly (command_in (texts words.now)) (F.failed_calls files.old) (F.failed_calls files.new) }
{
    let plain = match host_command(alloc, words)? {
        Some(CommandWords::Run(plain)) => plain,
        Some(CommandWords::Check(side, file)) => {
            let status = check(alloc, side, file.as_str(), files, out)?;
            return Ok(status);
        }
        Some(CommandWords::Show(file)) => {
            let status = show(alloc, file.as_str(), files, out)?;
            return Ok(status);
        }
        None => return finish(out, FixedEnd::Usage),
    };
    let status = run(alloc, plain[0].as_str(), &plain[1..], peer, files, out)?;
    Ok(status)
}

/// Runs the host on the words of its command line, and answers its status.
///
/// `words` are those after the program's name. By `run PAGE PROGRAM ARG*` the page of the file PAGE runs
/// over PROGRAM, which is started with the ARGs; by `check page FILE` and `check plugin FILE` the canonical text
/// of the script FILE is printed; by `show FILE` the messages of the wire bytes in FILE are listed. This project's
/// own.
pub fn host_main<P: Peer, F: Files, O: Sink>(
    alloc: Global,
    words: &[String],
    peer: &mut P,
    files: &mut F,
    out: &mut O,
) -> u8
    // What a run did, for environments that record their traffic: status 0, 5, 6 or 7.
    ensures runs { RunsWords (texts words.now) (F.contents files.old) (P.known peer.old) (P.known peer.new) (O.taken out.old) (O.taken out.new) result }

    // At 0, 5 and 6 the page refuses nothing of what the peer gave, whatever bytes these are. So where it
    // refuses something, a run that isn't cut short ends with 7.
    ensures unrefused { IsUnrefusedStatus result → UnrefusedWords (texts words.now) (F.contents files.old) (P.known peer.old) (P.known peer.new) (O.taken out.old) result }

    // At 8 and 10: what the sink and the peer took by then.
    ensures cut { IsCutShort result → CutWords (CutShort (Rose (P.pipe_faults peer.old) (P.pipe_faults peer.new)) (P.has_ended peer.new ≡ true)) (texts words.now) (Rose (F.faults files.old) (F.faults files.new)) (Rose (P.start_faults peer.old) (P.start_faults peer.new)) (F.contents files.old) (P.known peer.old) (P.known peer.new) (O.taken out.old) (O.taken out.new) }

    // The main theorem: for each plug-in whose wire text the given bytes begin, the run of page and
    // plug-in in one process that only the whole messages of these bytes reach.
    ensures follows_done { result ≡ DONE → FollowsWords HostDone (texts words.now) (F.contents files.old) (P.known peer.old) (P.known peer.new) (O.taken out.old) (O.taken out.new) }
    ensures follows_lost { result ≡ PEER_LOST → FollowsWords HostLost (texts words.now) (F.contents files.old) (P.known peer.old) (P.known peer.new) (O.taken out.old) (O.taken out.new) }
    ensures follows_broken { result ≡ PIPE_FAILED → FollowsWords HostBroken (texts words.now) (F.contents files.old) (P.known peer.old) (P.known peer.new) (O.taken out.old) (O.taken out.new) }
    ensures follows_cut { IsCutShort result → CutWords (ForEachPlugin HostCut) (texts words.now) (Rose (F.faults files.old) (F.faults files.new)) (Rose (P.start_faults peer.old) (P.start_faults peer.new)) (F.contents files.old) (P.known peer.old) (P.known peer.new) (O.taken out.old) (O.taken out.new) }
    ensures never_refused { result ≡ REFUSED → FollowsWords HostRefused (texts words.now) (F.contents files.old) (P.known peer.old) (P.known peer.new) (O.taken out.old) (O.taken out.new) }

    // Of a peer that records its traffic at most 2^40 bytes were read, at every status.
    ensures read_limit { GaveAtMost (2 ^ 40) (P.known peer.old) (P.known peer.new) }

    // What comes before a page runs, and of a check.
    ensures early { IsNoShow (command_in (texts words.now)) → StopsEarly (P.known peer.old) (P.known peer.new) (O.taken out.old) (O.taken out.new) result }
    ensures not_started { NotStartedWords (texts words.now) (P.known peer.old) (P.known peer.new) (O.taken out.old) (O.taken out.new) result }

    // What `check` does: the canonical text alone at 0, the line of the first error alone at 3. Each script gives
    // 0 and what is none 3, unless it can't be read; no other status comes, and the peer stays as it was.
    ensures check_done { result ≡ DONE → ChecksWell (texts words.now) (F.contents files.old) (O.taken out.old) (O.taken out.new) }
    ensures check_refused { result ≡ BAD_SCRIPT → ChecksBadly (texts words.now) (F.contents files.old) (O.taken out.old) (O.taken out.new) }
    ensures check_only { ChecksOnly (texts words.now) (F.contents files.old) result }
    ensures check_cut { IsCutShort result → ChecksPart (texts words.now) (Rose (F.faults files.old) (F.faults files.new)) (F.contents files.old) (O.taken out.old) (O.taken out.new) }
    ensures check_peer { OfCheck (command_in (texts words.now)) (λ side name. peer.new ≡ peer.old) }

    // What `show` does: at 0 and 7 all that there is to show of the file, of which this is the status; at 4 the
    // messages in the file's first bytes. No other status comes, and the peer stays as it was.
    ensures show_all { (result ≡ DONE) ⊎ (result ≡ REFUSED) → ShowsFile (texts words.now) (F.contents files.old) (O.taken out.old) (O.taken out.new) result }
    ensures show_part { result ≡ FILE_FAILED → ShowsBeginning (texts words.now) (F.contents files.old) (O.taken out.old) (O.taken out.new) }
    ensures show_only { ShowsOnly (texts words.now) result }
    ensures show_cut { IsCutShort result → ShowsCut (texts words.now) (Rose (F.faults files.old) (F.faults files.new)) (F.contents files.old) (O.taken out.old) (O.taken out.new) }
    ensures show_peer { OfShow (command_in (texts words.now)) (λ name. peer.new ≡ peer.old) }

    // The statuses, and the cause of each.
    ensures listed { IsEndStatus result ⊎ IsCutShort result }
    ensures usage { result ≡ USAGE → command_in (texts words.now) ≡ None }
    ensures usage_only { command_in (texts words.now) ≡ None → (result ≡ USAGE) ⊎ IsCutShort result }
    ensures script { result ≡ BAD_SCRIPT → RefusesScript (texts words.now) (F.contents files.old) (O.taken out.old) (O.taken out.new) }
    ensures script_only { IsCutShort result ⊎ OnlyRefusedScript (texts words.now) (F.contents files.old) result }
    ensures file { result ≡ FILE_FAILED → Rose (F.faults files.old) (F.faults files.new) }
    ensures start { result ≡ NOT_STARTED → Rose (P.start_faults peer.old) (P.start_faults peer.new) }
    ensures ended { result ≡ PEER_LOST → P.has_ended peer.new ≡ true }
    ensures pipe { result ≡ PIPE_FAILED → Rose (P.pipe_faults peer.old) (P.pipe_faults peer.new) }
    ensures output { result ≡ OUTPUT_FAILED → Rose (O.faults out.old) (O.faults out.new) }

    // And the other way round: no fault is passed over. A count that rose, and an end that a read answered, give their status,
    // unless the run was cut short; the output's gives 10 in any case.
    ensures file_only { (result ≡ FILE_FAILED) ⊎ (IsCutShort result ⊎ (F.faults files.new ≡ F.faults files.old)) }
    ensures start_only { (result ≡ NOT_STARTED) ⊎ (IsCutShort result ⊎ (P.start_faults peer.new ≡ P.start_faults peer.old)) }
    ensures ended_only { (result ≡ PEER_LOST) ⊎ (IsCutShort result ⊎ (P.has_ended peer.new ≡ P.has_ended peer.old)) }
    ensures pipe_only { (result ≡ PIPE_FAILED) ⊎ (IsCutShort result ⊎ (P.pipe_faults peer.new ≡ P.pipe_faults peer.old)) }
    ensures output_only { (result ≡ OUTPUT_FAILED) ⊎ (O.faults out.new ≡ O.faults out.old) }
    ensures memory_only { (result ≡ NO_MEMORY) ⊎ (O.memory_faults out.new ≡ O.memory_faults out.old) }

    // Out of memory comes in place of neither 4 nor 11: at 8 no read of a file and no start has failed, unless memory ran out in
    // the output itself. After 5 and 6 the page continues without its plug-in, which takes memory, so there 8 may come.
    ensures file_memory { result ≡ NO_MEMORY → (F.faults files.new ≡ F.faults files.old) ⊎ Rose (O.memory_faults out.old) (O.memory_faults out.new) }
    ensures start_memory { result ≡ NO_MEMORY → (P.start_faults peer.new ≡ P.start_faults peer.old) ⊎ Rose (O.memory_faults out.old) (O.memory_faults out.new) }

    // At 2 nothing was called but the output; at 3 and 4 the peer wasn't.
    ensures idle { result ≡ USAGE → (peer.new ≡ peer.old) × (files.new ≡ files.old) }
    ensures early_peer { (result ≡ BAD_SCRIPT) ⊎ (result ≡ FILE_FAILED) → peer.new ≡ peer.old }

    // What stays, at every status.
    ensures files { KeepsFiles (F.contents files.old) (F.contents files.new) }
    ensures failed_calls { NotesScriptOnly (command_in (texts words.now)) (F.failed_calls files.old) (F.failed_calls files.new) }
{
    waits_law();
    ends_law();
    begins_law();
    comes_to_rest_law();
    never_refuses_law();
    few_bytes_law();
    served_pages_are_well_formed();
    rests_unrefused_law();
    match serve(alloc, words, peer, files, out) {
        Ok(status) => status,
        Err(Stop::OutputFailed) => exit_status::OUTPUT_FAILED,
        Err(Stop::NoMemory) => exit_status::NO_MEMORY,
    }
}
