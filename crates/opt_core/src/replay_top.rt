//! The top call of `replay`: what the program answers to its words, over the inputs and into the sinks.
ghost use Rattle.std.specs.Prelude.{◌≡◌, ◌⊎◌, ◌+◌, ◌≤◌, IfOk, IfErr, MatchOption, None, Some};
ghost use Rattle.checked_modules.specs.Checked.{HasNoRefusal};
ghost use Rattle.shapes.specs.Refusals.{unbuilt};
ghost use Rattle.io_edge.specs.Outside.{Rose};
ghost use Rattle.run_text.specs.LaunchText.{launch_limit, LaunchOf};
ghost use Rattle.run_text.specs.ScheduleText.{schedule_limit};
ghost use Rattle.opt_core.specs.Answer.{texts, IsTold, OfText};
ghost use Rattle.opt_core.specs.Replay.{paths_of, IsScheduleReply, IsLaunchReply, IsFilesReply, IsReplayAnswer, HasOneRisen, HasFailed, IsReplayReply, AreServed};
ghost use Rattle.opt_core.specs.ReplayStages.{paths_seen, SpellsLaunch, HasRisenBehind};

use crate::replay_reply::{launch_refused, reply_to_schedule};
use crate::reply::{
    Reply, bad_words, note_of, read_checked, refused, text_read_limit, write_reply,
};
use checked_modules::Checked;
use io_edge::{Inputs, ReadFault, Sink, read_file};
use ir_core::Or;
use mem_model::Launch;
use run_text::read_launch;
use std::alloc::Global;

/// The names of a replay's files.
#[derive(Clone, Copy)]
struct Paths<'a> {
    module: &'a str,
    launch: &'a str,
    schedule: &'a str,
}

/// The files that the words name, where they are `replay` and three words.
fn paths_in(words: &[String]) -> Option<Paths<'_>>
    ensures { MatchOption result (paths_of (texts words.now) ≡ None) (λ p. paths_of (texts words.now) ≡ Some (paths_seen p)) }
{
    match words {
        [command, module, launch, schedule] => {
            if command.as_str() == "replay" {
                Some(Paths {
                    module: module.as_str(),
                    launch: launch.as_str(),
                    schedule: schedule.as_str(),
                })
            } else {
                None
            }
        }
        _ => None,
    }
}

/// How many bytes of a launch's text are read: those that a text may have, and one more, so that a longer one shows.
#[tactic(auto, unfolding(run_text::specs::LaunchText::launch_limit))]
fn launch_read_limit() -> usize
    ensures value { result ≡ launch_limit + 1 }
    ensures near { result ≤ 33554433 }
{
    4_194_305
}

/// How many bytes of a schedule's text are read, likewise.
#[tactic(auto, unfolding(run_text::specs::ScheduleText::schedule_limit))]
fn schedule_read_limit() -> usize
    ensures value { result ≡ schedule_limit + 1 }
    ensures near { result ≤ 33554433 }
{
    33_554_433
}

/// Reads the file of the schedule, and replies to it.
fn reply_to_launched<I: Inputs>(
    alloc: Global,
    m: &Checked,
    l: &Launch,
    inputs: &mut I,
    schedule: &str,
) -> Result<Reply, ReadFault>
    requires built { unbuilt m.now ≡ None }
    requires served { I.served inputs.old schedule.now }
    ensures reply { IfOk result (λ r. OfText (I.held inputs.old schedule.now) (λ text. IsScheduleReply m.now l.now text r.status r.out r.notes)) }
    ensures cause { IfErr result (λ e. e ≡ ReadFault.Failed → Rose (I.faults inputs.old schedule.now) (I.faults inputs.new schedule.now)) }
{
    let text = read_file(alloc, inputs, schedule, schedule_read_limit())?;
    Ok(reply_to_schedule(alloc, m, l, text.as_slice())?)
}

/// The reply to the text of a launch of a module. It reads the file of the schedule where the launch is taken.
fn reply_to_launch<I: Inputs>(
    alloc: Global,
    m: &Checked,
    text: &[u8],
    inputs: &mut I,
    schedule: &str,
) -> Result<Reply, ReadFault>
    requires rules { HasNoRefusal m.now }
    requires built { unbuilt m.now ≡ None }
    requires served { I.served inputs.old schedule.now }
    ensures reply { IfOk result (λ r. IsLaunchReply m.now (I.held inputs.old schedule.now) (LaunchOf m.now text.now) r.status r.out r.notes) }
    ensures cause { IfErr result (λ e. e ≡ ReadFault.Failed → SpellsLaunch m.now text.now × Rose (I.faults inputs.old schedule.now) (I.faults inputs.new schedule.now)) }
{
    match read_launch(alloc, m, text) {
        Ok(l) => reply_to_launched(alloc, m, &l, inputs, schedule),
        Err(Or::Refused(fault)) => Ok(launch_refused(alloc, fault)?),
        Err(Or::Memory) => Err(ReadFault::Memory),
    }
}

/// Reads the file of the launch of a module, and replies to it.
fn reply_to_module<I: Inputs>(
    alloc: Global,
    m: &Checked,
    inputs: &mut I,
    paths: &Paths<'_>,
) -> Result<Reply, ReadFault>
    requires rules { HasNoRefusal m.now }
    requires built { unbuilt m.now ≡ None }
    requires launch { I.served inputs.old paths.now.launch.now }
    requires schedule { I.served inputs.old paths.now.schedule.now }
    ensures reply { IfOk result (λ r. OfText (I.held inputs.old paths.now.launch.now) (λ l. IsLaunchReply m.now (I.held inputs.old paths.now.schedule.now) (LaunchOf m.now l) r.status r.out r.notes)) }
    ensures cause { IfErr result (λ e. e ≡ ReadFault.Failed → HasRisenBehind m.now (I.held inputs.old) (paths_seen paths.now) (I.faults inputs.old) (I.faults inputs.new)) }
{
    let text = read_file(alloc, inputs, paths.launch, launch_read_limit())?;
    reply_to_launch(alloc, m, text.as_slice(), inputs, paths.schedule)
}

/// Reads the files of a replay one after another, as far as nothing of them is refused, and replies to them.
fn reply_to_files<I: Inputs>(
    alloc: Global,
    inputs: &mut I,
    paths: &Paths<'_>,
) -> Result<Reply, ReadFault>
    requires { AreServed (I.served inputs.old) (Some (paths_seen paths.now)) }
    ensures reply { IfOk result (λ r. IsFilesReply (I.held inputs.old) (paths_seen paths.now) r.status r.out r.notes) }
    ensures cause { IfErr result (λ e. e ≡ ReadFault.Failed → HasOneRisen (I.held inputs.old) (paths_seen paths.now) (I.faults inputs.old) (I.faults inputs.new)) }
{
    let text = read_file(alloc, inputs, paths.module, text_read_limit())?;
    match read_checked(alloc, text.as_slice()) {
        Ok(m) => reply_to_module(alloc, &m, inputs, paths),
        Err(Or::Refused(refusal)) => Ok(refused(alloc, &refusal)?),
        Err(Or::Memory) => Err(ReadFault::Memory),
    }
}

/// The reply to the words.
fn reply_to_words<I: Inputs>(
    alloc: Global,
    words: &[String],
    inputs: &mut I,
) -> Result<Reply, ReadFault>
    requires { AreServed (I.served inputs.old) (paths_of (texts words.now)) }
    ensures reply { IfOk result (λ r. IsReplayAnswer (paths_of (texts words.now)) (I.held inputs.old) r.status r.out r.notes) }
    ensures cause { IfErr result (λ e. e ≡ ReadFault.Failed → HasFailed (paths_of (texts words.now)) (I.held inputs.old) (I.faults inputs.old) (I.faults inputs.new)) }
{
    match paths_in(words) {
        Some(paths) => reply_to_files(alloc, inputs, &paths),
        None => bad_words(alloc),
    }
}

/// Answers the words of a command line, `replay` and the names of three files: a module, a launch and a schedule, over the inputs and
/// into the sinks. It makes the steps of the schedule on the team of the optimised module, and gives the status:
///
/// - 0: the run has ended, and its report is on the output;
/// - 2: the words aren't read;
/// - 3: the module's text is refused;
/// - 4: the launch's text is refused, or the schedule's text, or one of its steps is above the launch's bound or isn't ready;
/// - 5: a file's input failed, which comes only where its count of faults rose, and nothing of the files before it was refused;
/// - 6: a sink failed, which comes only where its count of faults rose;
/// - 7: there wasn't enough memory;
/// - 8: the run has trapped, and its report is on the output;
/// - 9: the run is stuck, and its report is on the output;
/// - 10: the run goes on behind the schedule's last step, and its report is on the output.
///
/// At each status but 0, 6, 8, 9 and 10 the notes have the status's line and the output has nothing.
pub fn replay_main<I: Inputs, K: Sink, N: Sink>(
    alloc: Global,
    words: &[String],
    inputs: &mut I,
    out: &mut K,
    notes: &mut N,
) -> u8
    requires { AreServed (I.served inputs.old) (paths_of (texts words.now)) }
    ensures input { result ≡ 5 → HasFailed (paths_of (texts words.now)) (I.held inputs.old) (I.faults inputs.old) (I.faults inputs.new) }
    ensures sink { result ≡ 6 → Rose (K.faults out.old) (K.faults out.new) ⊎ Rose (N.faults notes.old) (N.faults notes.new) }
    ensures told { IsTold (IsReplayReply (paths_of (texts words.now)) (I.held inputs.old)) (K.taken out.old) (K.taken out.new) (N.taken notes.old) (N.taken notes.new) result }
{
    match reply_to_words(alloc, words, inputs) {
        Ok(reply) => write_reply(out, notes, &reply),
        Err(ReadFault::Failed) => note_of(notes, b"ompopt: input failed\n", 5),
        Err(ReadFault::Memory) => note_of(notes, b"ompopt: out of memory\n", 7),
    }
}
