//! The definitions of `frp_graph`, tried on worked graphs: each graph's history and trace are legal, as the contract of a function.
#![tactic(auto)]

ghost use Rattle.std.specs.Prelude.{◌≡◌, ℕ, [], ◌∷◌, ◌++◌, map};
ghost use Rattle.frp_graph.specs.Trace.{sight_of};
ghost use Rattle.frp_graph.specs.TypedProg.{IsTypedProg};
ghost use Rattle.frp_graph.specs.WellFormed.{IsWellFormed, HasFirsts};
ghost use Rattle.frp_graph.specs.Moments.{AtEach, IsTrace};
ghost use Rattle.frp_graph.specs.Sound.{IsSoundAfter};
ghost use Rattle.frp_graph.specs.Sends.{AreSendable};
ghost use Rattle.frp_graph.specs.Candidates.{candidates};
ghost use Rattle.frp_history.specs.History.{sends_of};
ghost use Rattle.frp_history.specs.Sessions.{IsSession};
ghost use Rattle.frp_graph.specs.Evidence.{IsTrueEvidence};
ghost use Rattle.frp_history.specs.Legal.{IsLegal, IsRefusedBuild};
ghost use Rattle.frp_rows.specs.Readings.{Meets, snapshot_after, merge_left, split_at_once, switchs_at_once, switchc_to_old, hold_after_birth, sink_last, split_after_birth, whole_options};
ghost use Rattle.frp_rows.specs.Writing.{item, num, sent_at, usual};
ghost use Rattle.frp_rows.specs.AddsOne as adds_one_row;
ghost use Rattle.frp_rows.specs.Snapshots as snapshots_row;
ghost use Rattle.frp_rows.specs.LoopedTotal as looped_total_row;
ghost use Rattle.frp_rows.specs.Splits as splits_row;
ghost use Rattle.frp_rows.specs.StreamSwitch as stream_switch_row;
ghost use Rattle.frp_rows.specs.CellSwitch as cell_switch_row;
ghost use Rattle.frp_rows.specs.CellCycle as cell_cycle_row;
ghost use Rattle.frp_rows.specs.OldInnerCell as old_inner_cell_row;
ghost use Rattle.frp_rows.specs.Instances as instances_row;
ghost use Rattle.frp_rows.specs.StreamCycle as stream_cycle_row;
ghost use Rattle.frp_rows.specs.BirthCycle as birth_cycle_row;
ghost use Rattle.frp_rows.specs.FullRoom as full_room_row;
ghost use Rattle.frp_rows.specs.EndlessSplit as endless_split_row;
ghost use Rattle.frp_rows.specs.Takes as takes_row;
ghost use Rattle.frp_rows.specs.Refusals as refusals_row;
ghost use Rattle.frp_rows.specs.Groups as groups_row;
ghost use Rattle.frp_rows.specs.EmptyGroup as empty_group_row;
ghost use Rattle.frp_rows.specs.Functions as functions_row;
ghost use Rattle.frp_rows.specs.BuildTimes as build_times_row;
ghost use Rattle.frp_rows.specs.TooLarge as too_large_row;
ghost use Rattle.frp_rows.specs.InstanceCycle as instance_cycle_row;
ghost use Rattle.frp_rows.specs.OlderCell as older_cell_row;
ghost use Rattle.frp_rows.specs.Nested as nested_row;
ghost use Rattle.frp_rows.specs.Optional as optional_row;
ghost use Rattle.frp_rows.specs.Untyped as untyped_row;
ghost use Rattle.frp_rows.specs.Unsendable as unsendable_row;

/// A map of a sink.
pub fn adds_one()
    ensures typed { IsTypedProg adds_one_row.prog }
    ensures legal { IsLegal adds_one_row.prog usual adds_one_row.entries adds_one_row.trace }
    ensures session { IsSession adds_one_row.listened (adds_one_row.script ∷ []) adds_one_row.entries }
{}

/// A snapshot reads the value from before the step.
pub fn snapshots()
    ensures typed { IsTypedProg snapshots_row.prog }
    ensures legal { IsLegal snapshots_row.prog usual snapshots_row.entries snapshots_row.trace }
    ensures session { IsSession snapshots_row.listened (snapshots_row.script ∷ []) snapshots_row.entries }
{}

/// A total goes through a loop.
pub fn looped_total()
    ensures typed { IsTypedProg looped_total_row.prog }
    ensures legal { IsLegal looped_total_row.prog usual looped_total_row.entries looped_total_row.trace }
    ensures session { IsSession looped_total_row.listened (looped_total_row.script ∷ []) looped_total_row.entries }
{}

/// Two splits fire at the same child times.
pub fn splits()
    ensures typed { IsTypedProg splits_row.prog }
    ensures legal { IsLegal splits_row.prog usual splits_row.entries splits_row.trace }
    ensures session { IsSession splits_row.listened (splits_row.script ∷ []) splits_row.entries }
    ensures candidates { map (λ x. x.name)
        (candidates (sends_of splits_row.entries) (sight_of (splits_row.first ∷ splits_row.sent ∷ []) splits_row.both) splits_row.first.born)
        ≡ item 2 ∷ item 3 ∷ item 4 ∷ [] }
{}

/// A switch of streams follows the new stream from the time after the step.
pub fn stream_switch()
    ensures typed { IsTypedProg stream_switch_row.prog }
    ensures legal { IsLegal stream_switch_row.prog usual stream_switch_row.entries stream_switch_row.trace }
    ensures session { IsSession stream_switch_row.listened (stream_switch_row.script ∷ []) stream_switch_row.entries }
    ensures well_formed { IsWellFormed stream_switch_row.prog (sight_of (stream_switch_row.first ∷ stream_switch_row.second ∷ []) stream_switch_row.third) }
{}

/// A switch of cells steps to the value of the new cell after the time.
pub fn cell_switch()
    ensures typed { IsTypedProg cell_switch_row.prog }
    ensures legal { IsLegal cell_switch_row.prog usual cell_switch_row.entries cell_switch_row.trace }
    ensures session { IsSession cell_switch_row.listened (cell_switch_row.script ∷ []) cell_switch_row.entries }
{}

/// A send that would close a chain is refused, and the next is as if it had not been.
pub fn cell_cycle()
    ensures typed { IsTypedProg cell_cycle_row.prog }
    ensures legal { IsLegal cell_cycle_row.prog usual cell_cycle_row.entries cell_cycle_row.trace }
    ensures session { IsSession cell_cycle_row.listened (cell_cycle_row.script ∷ []) cell_cycle_row.entries }
{}

/// A switch whose old inner cell is in the way is no chain.
pub fn old_inner_cell()
    ensures typed { IsTypedProg old_inner_cell_row.prog }
    ensures legal { IsLegal old_inner_cell_row.prog usual old_inner_cell_row.entries old_inner_cell_row.trace }
    ensures session { IsSession old_inner_cell_row.listened (old_inner_cell_row.script ∷ []) old_inner_cell_row.entries }
{}

/// Nodes are born by instances of templates, and fire at their birth.
pub fn instances()
    ensures typed { IsTypedProg instances_row.prog }
    ensures legal { IsLegal instances_row.prog usual instances_row.entries instances_row.trace }
    ensures session { IsSession instances_row.listened (instances_row.script ∷ []) instances_row.entries }
    ensures well_formed { IsWellFormed instances_row.prog (sight_of (instances_row.first ∷ []) instances_row.third) }
    ensures candidates { map (λ x. x.name)
        (candidates (sends_of instances_row.entries) (sight_of (instances_row.first ∷ []) instances_row.third)
        (instances_row.first.born ++ instances_row.third.born))
        ≡ item 0 ∷ item 1 ∷ item 2 ∷ item 4 ∷ item 5 ∷ instances_row.made 3 ∷ [] }
{}

/// A send that would close a chain after its time is refused, though nothing happens on the chain.
pub fn stream_cycle()
    ensures typed { IsTypedProg stream_cycle_row.prog }
    ensures legal { IsLegal stream_cycle_row.prog usual stream_cycle_row.entries stream_cycle_row.trace }
    ensures session { IsSession stream_cycle_row.listened (stream_cycle_row.script ∷ []) stream_cycle_row.entries }
{}

/// A build of cells that would begin with their own first values is refused; the graph that is seen then is well formed, and
/// cells of it have no first value.
pub fn birth_cycle()
    ensures typed { IsTypedProg birth_cycle_row.prog }
    ensures well_formed { IsWellFormed birth_cycle_row.prog (sight_of [] birth_cycle_row.last) }
    ensures no_firsts { HasFirsts (sight_of [] birth_cycle_row.last) → ⊥ }
    ensures refused { IsRefusedBuild birth_cycle_row.prog usual birth_cycle_row.evidence }
{}

/// An instance past the limit on nodes is refused, and with it the one that would fit.
pub fn full_room()
    ensures typed { IsTypedProg full_room_row.prog }
    ensures legal { IsLegal full_room_row.prog full_room_row.small full_room_row.entries full_room_row.trace }
    ensures session { IsSession full_room_row.listened (full_room_row.script ∷ []) full_room_row.entries }
{}

/// A transaction with a moment past the limit is refused, and one that ends at the limit is not.
pub fn endless_split()
    ensures typed { IsTypedProg endless_split_row.prog }
    ensures legal { IsLegal endless_split_row.prog endless_split_row.few endless_split_row.entries endless_split_row.trace }
    ensures session { IsSession endless_split_row.listened (endless_split_row.script ∷ []) endless_split_row.entries }
{}

/// A listener takes an item, and is given the rest as it leaves; another one that joined later begins with the value of then.
pub fn takes()
    ensures { IsLegal takes_row.prog usual takes_row.entries takes_row.trace }
{}

/// Refusals that change nothing: no such sink, a value of another type, no such node, no such listener, another caller's.
pub fn refusals()
    ensures { IsLegal refusals_row.prog refusals_row.eight refusals_row.entries refusals_row.trace }
{}

/// A group of sends at one time, two of them to a sink that combines them; one that sends twice to a sink that doesn't is refused.
pub fn groups()
    ensures typed { IsTypedProg groups_row.prog }
    ensures legal { IsLegal groups_row.prog usual groups_row.entries groups_row.trace }
    ensures session { IsSession groups_row.listened (groups_row.script ∷ []) groups_row.entries }
{}

/// A group of no sends has no moment.
pub fn empty_group()
    ensures { IsLegal takes_row.prog usual empty_group_row.entries empty_group_row.trace }
{}

/// A function value is applied; the value of a cell fires at its birth and at its steps, updates at its steps alone, and never not
/// at all.
pub fn functions()
    ensures typed { IsTypedProg functions_row.prog }
    ensures legal { IsLegal functions_row.prog usual functions_row.entries functions_row.trace }
    ensures session { IsSession functions_row.listened (functions_row.script ∷ []) functions_row.entries }
    ensures well_formed { IsWellFormed functions_row.prog (sight_of (functions_row.first ∷ []) functions_row.fourth) }
    ensures firsts { HasFirsts (sight_of (functions_row.first ∷ []) functions_row.fourth) }
{}

/// The build has child times; with fewer moments allowed it is refused.
pub fn build_times()
    ensures typed { IsTypedProg build_times_row.prog }
    ensures legal { IsLegal build_times_row.prog usual build_times_row.entries build_times_row.trace }
    ensures session { IsSession build_times_row.listened [] build_times_row.entries }
    ensures refused { IsRefusedBuild build_times_row.prog build_times_row.two build_times_row.evidence }
{}

/// The build of a file with more nodes than the limit is refused.
pub fn too_large()
    ensures { IsRefusedBuild takes_row.prog too_large_row.one too_large_row.evidence }
{}

/// A send that would make cells which begin with their own first values is refused.
pub fn instance_cycle()
    ensures typed { IsTypedProg instance_cycle_row.prog }
    ensures legal { IsLegal instance_cycle_row.prog usual instance_cycle_row.entries instance_cycle_row.trace }
    ensures session { IsSession instance_cycle_row.listened (instance_cycle_row.script ∷ []) instance_cycle_row.entries }
{}

/// A loop that is tied to an older cell begins with its first value; a split that is born as its source fires gives the items.
pub fn older_cell()
    ensures typed { IsTypedProg older_cell_row.prog }
    ensures legal { IsLegal older_cell_row.prog usual older_cell_row.entries older_cell_row.trace }
{}

/// An execute that an instance makes fires at once, and makes one too; a trace without that instance is none of the program's,
/// nor is one with a node that nothing makes.
pub fn nested()
    ensures typed { IsTypedProg nested_row.prog }
    ensures legal { IsLegal nested_row.prog usual nested_row.entries nested_row.trace }
    ensures left_out { IsTrace nested_row.prog nested_row.sent nested_row.left_out → ⊥ }
    ensures unmade { IsTrace nested_row.prog nested_row.sent nested_row.unmade → ⊥ }
{}

/// A stream gives what the present ones of optional values hold, and nothing of absent ones.
pub fn optional()
    ensures typed { IsTypedProg optional_row.prog }
    ensures legal { IsLegal optional_row.prog usual optional_row.entries optional_row.trace }
    ensures session { IsSession optional_row.listened (optional_row.script ∷ []) optional_row.entries }
    ensures well_formed { IsWellFormed optional_row.prog (sight_of (optional_row.first ∷ []) optional_row.second) }
{}

/// A program with a function over a type that the language doesn't have is not typed.
pub fn untyped()
    ensures { IsTypedProg untyped_row.prog → ⊥ }
{}

/// Where a send could name the node that its own transaction makes, several traces would be the program's; it can't be sent.
pub fn unsendable()
    ensures typed { IsTypedProg unsendable_row.prog }
    ensures with_five { IsTrace unsendable_row.prog unsendable_row.tried (unsendable_row.trace 5) }
    ensures with_six { IsTrace unsendable_row.prog unsendable_row.tried (unsendable_row.trace 6) }
    ensures sound_five { AtEach (IsSoundAfter unsendable_row.prog) [] (unsendable_row.trace 5) }
    ensures sound_six { AtEach (IsSoundAfter unsendable_row.prog) [] (unsendable_row.trace 6) }
    ensures refused { (n : ℕ) → AreSendable unsendable_row.prog unsendable_row.tried (unsendable_row.trace n) → ⊥ }
{}

/// A snapshot that reads the value after the step: what the snapshot gives at the second send refuses it.
pub fn refuses_snapshot_after()
    ensures { Meets snapshot_after snapshots_row.prog (sends_of snapshots_row.entries) snapshots_row.trace → ⊥ }
{}

/// A merge that drops the right value where both fire: what it gives at the first child time refuses it.
pub fn refuses_merge_left()
    ensures { Meets merge_left splits_row.prog (sends_of splits_row.entries) splits_row.trace → ⊥ }
{}

/// A split that gives its items at the time of the list: that it gives none then refuses it.
pub fn refuses_split_at_once()
    ensures { Meets split_at_once splits_row.prog (sends_of splits_row.entries) splits_row.trace → ⊥ }
{}

/// A switch that follows the new stream at once: what it gives as its cell steps to the second stream refuses it.
pub fn refuses_switchs_at_once()
    ensures { Meets switchs_at_once stream_switch_row.prog (sends_of stream_switch_row.entries) stream_switch_row.trace → ⊥ }
{}

/// A switch that steps to the value that the new cell had before: what it steps to refuses it.
pub fn refuses_switchc_to_old()
    ensures { Meets switchc_to_old cell_switch_row.prog (sends_of cell_switch_row.entries) cell_switch_row.trace → ⊥ }
{}

/// A hold that misses what happens at its birth: the step of the hold that an instance makes refuses it.
pub fn refuses_hold_after_birth()
    ensures { Meets hold_after_birth instances_row.prog (sends_of instances_row.entries) instances_row.trace → ⊥ }
{}

/// A sink that keeps the last of several sends: what it has of a group refuses it.
pub fn refuses_sink_last()
    ensures { Meets sink_last groups_row.prog (sends_of groups_row.entries) groups_row.trace → ⊥ }
{}

/// A stream of optional values that is given as it is: what it gives of a present value refuses it.
pub fn refuses_whole_options()
    ensures { Meets whole_options optional_row.prog (sends_of optional_row.entries) optional_row.trace → ⊥ }
{}

/// A split that gives nothing of what happens at its birth: what it gives in the build refuses it.
pub fn refuses_split_after_birth()
    ensures { Meets split_after_birth build_times_row.prog (sends_of build_times_row.entries) build_times_row.trace → ⊥ }
{}

/// A chain through the old inner cell of a switch whose own cell is not settled: it is no evidence.
pub fn refuses_hasty_chain()
    ensures { IsTrueEvidence old_inner_cell_row.prog usual (old_inner_cell_row.first_send ∷ []) 3 (old_inner_cell_row.first ∷ []) old_inner_cell_row.hasty → ⊥ }
{}

/// Three wrong readings of evidence that a room is full: the fact of a node above the level, an execute below the level whose
/// instance is not born, and one whose instance is.
pub fn refuses_room()
    ensures hasty_fact { IsTrueEvidence full_room_row.prog full_room_row.small full_room_row.two_sends 2 full_room_row.trace full_room_row.hasty_fact → ⊥ }
    ensures skipped { IsTrueEvidence full_room_row.prog full_room_row.small full_room_row.two_sends 2 full_room_row.trace full_room_row.skipped → ⊥ }
    ensures born_already { IsTrueEvidence full_room_row.prog full_room_row.small full_room_row.two_sends 2 full_room_row.trace full_room_row.born_already → ⊥ }
{}

/// Two wrong readings of evidence of births: half an instance is born, and cells have first values though they lead to a chain.
pub fn refuses_births()
    ensures half { IsTrueEvidence instance_cycle_row.prog instance_cycle_row.small (sent_at 1 0 (num 1) ∷ []) 1 instance_cycle_row.trace instance_cycle_row.half → ⊥ }
    ensures begun { IsTrueEvidence instance_cycle_row.prog usual (sent_at 1 0 (num 1) ∷ []) 1 instance_cycle_row.trace instance_cycle_row.begun → ⊥ }
{}

/// Evidence of more moments than the limit, with a node above the level.
pub fn refuses_unsettled()
    ensures { IsRefusedBuild build_times_row.prog build_times_row.two build_times_row.unsettled → ⊥ }
{}
