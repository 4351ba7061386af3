//! The run of a program: its listeners join, its sender sends, and the listeners leave.

ghost use Rattle.std.specs.Prelude.{◌≡◌, ◌+◌, ◌≤◌, [], IfOk, OnOk, IsTrue, length, map};
ghost use Rattle.frp_graph.specs.TypedProg.{IsTypedProg};
ghost use Rattle.frp_graph.specs.Limits.{program_limits};
ghost use Rattle.frp_history.specs.Sessions.{IsSession};
ghost use Rattle.frp_core.specs.Small.{is_built};
ghost use Rattle.frp_core.specs.Core.{HasRoom, HasAnswered};
ghost use Rattle.frp_run.specs.Runs.{script_cmds, first_script, join_call, send_call, leave_call, HasRoomFor, HasJoined, HaveAnswered, HaveJoined};

use frp_base::{Memory, Name, Seq};
use frp_core::{Core, Stop};
use frp_graph::{Fact, Prog};
use frp_history::Key;
use std::alloc::Global;

/// The core of a program after a session: caller 0 listens to the nodes, and caller 1 makes the sends of the script, where
/// there is one.
pub fn run(
    alloc: Global,
    prog: Prog,
    listens: &[Name],
    scripts: &[Seq<Fact>],
) -> Result<Core, Memory>
    requires typed { IsTypedProg prog }
    requires built { IsTrue (is_built prog) }
    requires lines { length prog.body.lines ≤ program_limits.nodes }
    requires senders { length scripts.now ≤ 1 }
    requires entries { length listens.now + length (first_script scripts.now) + length listens.now ≤ program_limits.entries }
    ensures same { IfOk result (λ c. c.prog ≡ prog) }
    ensures session { IfOk result (λ c. IsSession listens.now (script_cmds scripts.now) c.entries) }
{
    let mut core = Core::build(alloc, prog)?;
    make_calls(alloc, &mut core, listens, scripts)?;
    Ok(core)
}

/// Makes the calls of a session to a core that has no entry yet.
fn make_calls(
    alloc: Global,
    core: &mut Core,
    listens: &[Name],
    scripts: &[Seq<Fact>],
) -> Result<(), Memory>
    requires empty { core.old.entries ≡ [] }
    requires senders { length scripts.now ≤ 1 }
    requires entries { length listens.now + length (first_script scripts.now) + length listens.now ≤ program_limits.entries }
    ensures same { OnOk result (core.new.prog ≡ core.old.prog) }
    ensures session { OnOk result (IsSession listens.now (script_cmds scripts.now) core.new.entries) }
{
    let keys = join_all(alloc, core, listens)?;
    send_scripts(alloc, core, scripts)?;
    leave_all(alloc, core, keys.as_slice())?;
    Ok(())
}

/// Joins each node, in order, as caller 0, and gives the keys.
fn join_all(alloc: Global, core: &mut Core, nodes: &[Name]) -> Result<Seq<Key>, Memory>
    requires { HasRoomFor (length nodes.now) core.old }
    ensures { IfOk result (λ keys. HaveJoined core.old core.new nodes.now keys) }
{
    let mut keys = Seq::new(alloc);
    for node in nodes {
        join(core, node, &mut keys)?;
    }
    Ok(keys)
}

/// Joins a node as caller 0, and adds the key that is given, if any.
fn join(core: &mut Core, node: &Name, keys: &mut Seq<Key>) -> Result<(), Memory>
    requires { HasRoom core.old }
    ensures { OnOk result (HasJoined core.old core.new node.now keys.old keys.new) }
{
    let key = match core.join(0, node.copy()?) {
        Ok(key) => key,
        Err(Stop::Memory) => return Err(Memory),
        Err(Stop::HistoryFull) => unreachable!(),
    };
    match key {
        Some(key) => keys.add(key),
        None => Ok(()),
    }
}

/// Makes the sends of the first script, where there is one.
fn send_scripts(alloc: Global, core: &mut Core, scripts: &[Seq<Fact>]) -> Result<(), Memory>
    requires { HasRoomFor (length (first_script scripts.now)) core.old }
    ensures { OnOk result (HaveAnswered core.old core.new (map send_call (first_script scripts.now))) }
{
    match scripts {
        [] => Ok(()),
        [script, ..] => send_all(alloc, core, script.as_slice()),
    }
}

/// Makes the sends of a script, in order, as caller 1.
fn send_all(alloc: Global, core: &mut Core, script: &[Fact]) -> Result<(), Memory>
    requires { HasRoomFor (length script.now) core.old }
    ensures { OnOk result (HaveAnswered core.old core.new (map send_call script.now)) }
{
    for fact in script {
        send(alloc, core, fact)?;
    }
    Ok(())
}

/// Makes a send as caller 1.
fn send(alloc: Global, core: &mut Core, fact: &Fact) -> Result<(), Memory>
    requires { HasRoom core.old }
    ensures ok { OnOk result (HasAnswered core.old core.new (send_call fact.now)) }
    ensures same { OnOk result (core.new.prog ≡ core.old.prog) }
{
    let copy = Fact {
        node: fact.node.copy()?,
        value: fact.value.copy(alloc)?,
    };
    match core.send(alloc, 1, copy) {
        Ok(()) => Ok(()),
        Err(Stop::Memory) => Err(Memory),
        Err(Stop::HistoryFull) => unreachable!(),
    }
}

/// The listeners with these keys leave, in order, as caller 0.
fn leave_all(alloc: Global, core: &mut Core, keys: &[Key]) -> Result<(), Memory>
    requires { HasRoomFor (length keys.now) core.old }
    ensures { OnOk result (HaveAnswered core.old core.new (map leave_call keys.now)) }
{
    for key in keys {
        leave(alloc, core, key)?;
    }
    Ok(())
}

/// The listener with this key leaves, as caller 0.
fn leave(alloc: Global, core: &mut Core, key: &Key) -> Result<(), Memory>
    requires { HasRoom core.old }
    ensures ok { OnOk result (HasAnswered core.old core.new (leave_call key.now)) }
    ensures same { OnOk result (core.new.prog ≡ core.old.prog) }
{
    match core.leave(alloc, 0, *key) {
        Ok(()) => Ok(()),
        Err(Stop::Memory) => Err(Memory),
        Err(Stop::HistoryFull) => unreachable!(),
    }
}
