// A program played over a list of steps.
ghost use Rattle.std.specs.Prelude.{◌≡◌, ◌<◌, ◌≤◌, ◌^◌, length, IfOk, OnOk};
ghost use Rattle.frp_tree.specs.Priorities.{HasPriorities};
ghost use Rattle.frp_tree.specs.Tree.{program_tree_of};
ghost use Rattle.reaction_model.specs.States.{HasTypes};
ghost use Rattle.preempt_core.specs.Replays.{AreSampled, CanFollow, Follows, IsOneMore, Replays, commit_steps, event_priorities};

use crate::priority_core::Core;
use crate::steps::{Done, Step};
use causality::Checked;
use frp_tree::{List, Program};
use reaction_model::{State, initial, react};
use std::alloc::{AllocError, Global};

/// What a program has come to over a list of steps.
#[derive(Debug, Drop)]
pub struct Played {
    /// The numbers of the events that committed, in order.
    pub commits: List<u8>,
    /// The state after the last commit.
    pub state: State,
    /// The port values of each commit in the outputs' order, one commit after another.
    pub ports: List<u8>,
}

/// Why a list of steps isn't played.
#[derive(Clone, Copy, PartialEq, Eq, Debug)]
pub enum ReplayFault {
    /// The step with this number, from 0 on, is the first that isn't allowed.
    NotAllowed(u32),
    /// Out of memory.
    Memory,
}

impl From<AllocError> for ReplayFault {
    ghost use Rattle.std.specs.Prelude.{◌≡◌};
    ghost use Rattle.preempt_core.specs.declared.replays.ReplayFault.TheVariants.{Memory};

    ghost from_gives = { λ _ fault. fault ≡ Memory };

    fn from(_error: AllocError) -> ReplayFault {
        ReplayFault::Memory
    }
}

/// The priorities of the events, by number.
fn priorities_of(alloc: Global, program: &Program) -> Result<List<u8>, AllocError>
    requires { HasPriorities (program_tree_of program.now) }
    ensures { IfOk result (λ v. v ≡ event_priorities (program_tree_of program.now)) }
{
    let mut priorities = List::new(alloc);
    for e in program.events.as_slice() {
        priorities.push(e.priority as u8)?;
    }
    Ok(priorities)
}

/// Reacts to one more commit with the samples of its number.
fn commit(
    alloc: Global,
    c: &Checked,
    played: &mut Played,
    samples: &[List<u8>],
    event: u8,
) -> Result<(), AllocError>
    requires types { HasTypes (program_tree_of c.now.typed.program) played.old.state.values }
    requires sampled { AreSampled (program_tree_of c.now.typed.program) samples.now }
    requires has_samples { length played.old.commits < length samples.now }
    requires is_event { event < length c.now.typed.program.events }
    ensures { OnOk result (IsOneMore (program_tree_of c.now.typed.program) samples.now event played.old played.new) }
{
    let its_samples = samples[played.commits.len()].as_slice();
    let reaction = react(alloc, c, &played.state, its_samples, event)?;
    played.commits.push(event)?;
    played.ports.extend_from_slice(reaction.ports.as_slice())?;
    played.state = reaction.state;
    Ok(())
}

/// Goes on by an answer of the core.
fn follow(
    alloc: Global,
    c: &Checked,
    played: &mut Played,
    samples: &[List<u8>],
    done: Done,
) -> Result<(), AllocError>
    requires types { HasTypes (program_tree_of c.now.typed.program) played.old.state.values }
    requires sampled { AreSampled (program_tree_of c.now.typed.program) samples.now }
    requires can { CanFollow (program_tree_of c.now.typed.program) samples.now done played.old }
    ensures { OnOk result (Follows (program_tree_of c.now.typed.program) samples.now done played.old played.new) }
{
    match done {
        Done::Committed(event) => commit(alloc, c, played, samples, event),
        _ => Ok(()),
    }
}

/// Plays a program over a list of steps from its initial state: each commit reacts to the state that stands, with the next
/// list of samples. There are as many lists as commits or more, each with a byte for each input, and fewer than 2^32
/// steps. `NotAllowed` tells the first step that isn't allowed; so is an arrival of an event that there isn't.
pub fn replay(
    alloc: Global,
    c: &Checked,
    steps: &[Step],
    samples: &[List<u8>],
) -> Result<Played, ReplayFault>
    requires few { length steps.now < 2 ^ 32 }
    requires enough { commit_steps steps.now ≤ length samples.now }
    requires sampled { AreSampled (program_tree_of c.now.typed.program) samples.now }
    ensures { Replays (program_tree_of c.now.typed.program) steps.now samples.now result }
{
    let priorities = priorities_of(alloc, c.typed().program())?;
    let mut core = Core::new(priorities.as_slice());
    let mut played = Played {
        commits: List::new(alloc),
        state: initial(alloc, c)?,
        ports: List::new(alloc),
    };
    for n in 0..steps.len() {
        let Some(done) = core.step(steps[n]) else {
            return Err(ReplayFault::NotAllowed(n as u32));
        };
        follow(alloc, c, &mut played, samples, done)?;
    }
    Ok(played)
}
