//! The answer that is written to a head.

ghost use Rattle.std.specs.Prelude.{◌≡◌, ◌≢◌, ◌↔◌, ◌<◌, ◌≤◌, IsTrue};
ghost use Rattle.sg_outside.specs.Sink.{Counts};
ghost use Rattle.sg_lines.specs.Link.{WritesIfRecorded};
ghost use Rattle.ws_door.specs.Greetings as spec;
ghost use Rattle.ws_door.specs.Greetings.{answer_text, AnswersHead, GreetsIfRecorded};

use crate::answer::{Refused, Upgrade};
use crate::reply::refusal_text;
use crate::upgrading::upgrade;
use gateway_config::Config;
use sg_lines::Link;
use sg_outside::Gave;
use std::alloc::Global;

/// Why a head was not answered by an upgrade.
#[derive(Clone, Copy, Debug, PartialEq, Eq)]
pub enum GreetFault {
    /// The head was refused, and answered so.
    Refused(Refused),
    /// The link failed.
    LinkFault,
    /// Memory ran out: nothing was written.
    Memory,
}

/// Whether there is no answer, since memory ran out.
fn is_out_of_memory(answer: &Result<Upgrade, Refused>) -> bool
    ensures { IsTrue result ↔ (answer.now ≡ Err Refused.Memory) }
{
    match answer {
        Err(Refused::Memory) => true,
        _ => false,
    }
}

fn write_answer<L: Link>(link: &mut L, answer: &Result<Upgrade, Refused>) -> Gave
    ensures counted { Counts (L.faults link.old) result (L.faults link.new) }
    ensures recorded { WritesIfRecorded (L.recorded link.old) (answer_text answer.now) result
        (L.recorded link.new) }
{
    match answer {
        Ok(upgrade) => link.write(upgrade.reply.as_slice()),
        Err(refused) => link.write(refusal_text(*refused)),
    }
}

/// What an answer comes to, by what its write answered.
fn greeted(answer: Result<Upgrade, Refused>, gave: Gave) -> Result<Upgrade, GreetFault>
    ensures { result ≡ spec.greeted answer gave }
{
    match gave {
        Gave::Done => match answer {
            Ok(upgrade) => Ok(upgrade),
            Err(refused) => Err(GreetFault::Refused(refused)),
        },
        Gave::Failed => Err(GreetFault::LinkFault),
        Gave::Memory => Err(GreetFault::Memory),
    }
}

/// Answers the head of a request, and writes the answer, a refusal too, in one write.
pub fn greet<L: Link>(
    alloc: Global,
    link: &mut L,
    head: &[u8],
    config: &Config,
) -> Result<Upgrade, GreetFault>
    ensures answer { AnswersHead head.now config.now result }
    ensures recorded { GreetsIfRecorded head.now config.now (L.recorded link.old) result
        (L.recorded link.new) }
    ensures counted { L.faults link.old ≤ L.faults link.new }
    ensures fault { result ≡ Err GreetFault.LinkFault → L.faults link.old < L.faults link.new }
    ensures refused { result ≢ Err (GreetFault.Refused Refused.Memory) }
{
    let answer = upgrade(alloc, head, config);
    if is_out_of_memory(&answer) {
        drop(answer);
        return Err(GreetFault::Memory);
    }
    let gave = write_answer(link, &answer);
    greeted(answer, gave)
}
