//! What a station is asked.
ghost use Rattle.std.specs.Prelude.{◌≡◌, ◌≢◌, ◌<◌, ◌≤◌, ◌+◌, true, false, Some, None, IsErr, IfErr, IfOk, OnOk, OnErr};
ghost use Rattle.std.specs.Option.{option_map, option_copied};
ghost use Rattle.sup_node.specs.Contents.{station_of};
ghost use Rattle.sup_replica.specs.declared.event.Act.TheVariants.{Restart};
ghost use Rattle.sup_replica.specs.declared.refusal.Refusal.TheVariants.{KeepFailed};
ghost use Rattle.sup_keeper.specs.Keeping.{failing_next};
ghost use Rattle.sup_station.specs.OpenedStations.{OpensStation, IsKeepRefusal, kept_by};
ghost use Rattle.sup_station.specs.PreparedActs.{IsPreparedOrRefused, IsReadyFor, CommitsPrepared, is_saved};
ghost use Rattle.sup_station.specs.KeptStations.{kept_station_of, keeper_of, AnswersAct, FailsActBySave, BringsActToSave, IsFailingOrSound, IsUnsaved};

use crate::prepared::Prepared;
use crate::station::becoming::{change_to, save_and_change};
use crate::station::opening::open;
use crate::station::{Refused, Station};
use std::alloc::Global;
use std::mem::replace;
use sup_array_text::Room;
use sup_keeper::{Keeper, MemKeeper};
use sup_node::Node;
use sup_placement::Weigh;
use sup_replica::{Act, Config, Done, Refusal};
use sup_specs::NodeName;

impl<K: Keeper, W: Weigh> Station<K, W> {
    /// A station of a node that was just made: it runs in its first boot, and its image is saved.
    ///
    /// # Errors
    ///
    /// `KeepFailed` where the save fails; `OutOfMemory`. The keeper comes back, with the bytes that it kept; one that was sound
    /// or readable still is.
    pub fn new(
        alloc: Global,
        name: NodeName,
        config: Config,
        keeper: K,
    ) -> Result<Station<K, W>, Refused<K>>
        ensures opens { IfOk result (λ s. OpensStation name config (kept_station_of K.kept s)) }
        ensures refused { IfErr result (λ r. K.kept r.keeper ≡ K.kept keeper) }
        ensures unput { IfErr result (λ r. K.found r.keeper ≡ K.found keeper) }
        ensures reason { IfErr result (λ r. IsKeepRefusal r.reason) }
        ensures rose { IfErr result (λ r. r.reason ≡ KeepFailed → K.failures keeper < K.failures r.keeper) }
        ensures told { IfErr result (λ r. K.failures keeper < K.failures r.keeper → r.reason ≡ KeepFailed) }
        ensures never_falls { IfErr result (λ r. K.failures keeper ≤ K.failures r.keeper) }
        ensures by_one { IfErr result (λ r. K.failures r.keeper ≤ K.failures keeper + 1) }
        ensures uncounted { IfOk result (λ s. K.failures (keeper_of s) ≡ K.failures keeper) }
        ensures failing { K.failing keeper ≡ true → IsErr result }
        ensures sound { IfErr result (λ r. K.sound keeper ≡ true → r.reason ≢ KeepFailed) }
        ensures stays_sound { IfOk result (λ s. K.sound keeper ≡ true → K.sound (keeper_of s) ≡ true) }
        ensures stays_readable { IfOk result (λ s. K.readable keeper ≡ true → K.readable (keeper_of s) ≡ true) }
        ensures still_sound { IfErr result (λ r. K.sound keeper ≡ true → K.sound r.keeper ≡ true) }
        ensures still_readable { IfErr result (λ r. K.readable keeper ≡ true → K.readable r.keeper ≡ true) }
    {
        let mut keeper = keeper;
        match open(alloc, name, config, &mut keeper) {
            Ok((node, text)) => Ok(Station {
                name,
                config,
                node: Some(node),
                texts: Some(text),
                room: Room::new(alloc),
                keeper,
                alloc,
            }),
            Err(reason) => Err(Refused { keeper, reason }),
        }
    }

    /// A station whose node is stopped. A restart goes on from what the keeper keeps.
    pub fn stopped(alloc: Global, name: NodeName, config: Config, keeper: K) -> Station<K, W>
        ensures still { kept_station_of K.kept result ≡ record { name = name; config = config; node = None; kept = K.kept keeper } }
        ensures keeper { keeper_of result ≡ keeper }
    {
        let node = None;
        Station {
            name,
            config,
            node,
            texts: None,
            room: Room::new(alloc),
            keeper,
            alloc,
        }
    }

    /// Its node, or none while it is stopped.
    pub fn node(&self) -> Option<&Node<W>>
        ensures { option_map station_of (option_copied result) ≡ (kept_station_of K.kept self.now).node }
    {
        self.node.as_ref()
    }

    /// What keeps its image.
    pub fn keeper(&self) -> &K
        ensures { result.now ≡ keeper_of self.now }
    {
        &self.keeper
    }

    /// Makes an act at the moment `now` ready, in the order of checks. Nothing changes but the keeper's count of failures,
    /// where a load fails.
    ///
    /// # Errors
    ///
    /// `Down` of an event or a stop while the node is stopped, and `AlreadyUp` of a restart while it runs. An event is
    /// refused as its node's plan is. A restart is refused with `KeepFailed` where the load fails, `BadMessage` where the
    /// bytes are no image of this node, `CountSpent` where the boot would pass `MAX`, and `OutOfMemory`.
    pub fn prepare(&mut self, act: &Act, now: u64, weigher: &W) -> Result<Prepared, Refusal>
        ensures same { kept_station_of K.kept self.new ≡ kept_station_of K.kept self.old }
        ensures found { K.found (keeper_of self.new) ≡ K.found (keeper_of self.old) }
        ensures answer { IsPreparedOrRefused W.weight_of (kept_station_of K.kept self.old) act.now now result }
        ensures loads { act.now ≢ Restart → (keeper_of self.new ≡ keeper_of self.old) × (result ≢ Err KeepFailed) }
        ensures rose { result ≡ Err KeepFailed → K.failures (keeper_of self.old) < K.failures (keeper_of self.new) }
        ensures told { K.failures (keeper_of self.old) < K.failures (keeper_of self.new) → result ≡ Err KeepFailed }
        ensures never_falls { K.failures (keeper_of self.old) ≤ K.failures (keeper_of self.new) }
        ensures by_one { K.failures (keeper_of self.new) ≤ K.failures (keeper_of self.old) + 1 }
        ensures uncounted { OnOk result (K.failures (keeper_of self.new) ≡ K.failures (keeper_of self.old)) }
        ensures stays_failing { K.failing (keeper_of self.new) ≡ K.failing (keeper_of self.old) }
        ensures stays_sound { K.sound (keeper_of self.new) ≡ K.sound (keeper_of self.old) }
        ensures stays_readable { K.readable (keeper_of self.new) ≡ K.readable (keeper_of self.old) }
        ensures sound { K.sound (keeper_of self.old) ≡ true → result ≢ Err KeepFailed }
        ensures failing { K.failing (keeper_of self.old) ≡ true → result ≢ Err KeepFailed }
        ensures readable { K.readable (keeper_of self.old) ≡ true → result ≢ Err KeepFailed }
        ensures steady { IsFailingOrSound K.failing K.sound self.old → K.failures (keeper_of self.new) ≡ K.failures (keeper_of self.old) }
    {
        match act {
            Act::Event(event) => {
                let mut room = replace(&mut self.room, Room::new(self.alloc));
                let prepared = self.prepare_event(event, now, weigher, &mut room);
                self.room = room;
                prepared
            }
            Act::Stop => self.prepare_stop(now),
            Act::Restart => self.prepare_restart(now, weigher),
        }
    }

    /// Saves the image that was made ready, if the act changes it, and then carries the act out. What can be refused is
    /// refused before the save; an act that saves nothing leaves the keeper as it is. What was made ready may be committed
    /// where the station would give this very answer to some act.
    ///
    /// # Errors
    ///
    /// `KeepFailed` where the save fails; `OutOfMemory`, but not of a stop. The station is unchanged then, but for the
    /// keeper's count of failures.
    pub fn commit(&mut self, prepared: Prepared) -> Result<Done, Refusal>
        requires { IsReadyFor W.weight_of (kept_station_of K.kept self.old) prepared }
        ensures answer { CommitsPrepared (kept_station_of K.kept self.old) prepared result (kept_station_of K.kept self.new) }
        ensures unput { OnErr result (K.found (keeper_of self.new) ≡ K.found (keeper_of self.old)) }
        ensures rose { result ≡ Err KeepFailed → K.failures (keeper_of self.old) < K.failures (keeper_of self.new) }
        ensures told { K.failures (keeper_of self.old) < K.failures (keeper_of self.new) → result ≡ Err KeepFailed }
        ensures never_falls { K.failures (keeper_of self.old) ≤ K.failures (keeper_of self.new) }
        ensures by_one { K.failures (keeper_of self.new) ≤ K.failures (keeper_of self.old) + 1 }
        ensures uncounted { OnOk result (K.failures (keeper_of self.new) ≡ K.failures (keeper_of self.old)) }
        ensures idle { is_saved prepared ≡ false → keeper_of self.new ≡ keeper_of self.old }
        ensures failing { K.failing (keeper_of self.old) ≡ true → is_saved prepared ≡ true → IsErr result }
        ensures sound { K.sound (keeper_of self.old) ≡ true → result ≢ Err KeepFailed }
        ensures stays_sound { K.sound (keeper_of self.old) ≡ true → K.sound (keeper_of self.new) ≡ true }
        ensures stays_readable { K.readable (keeper_of self.old) ≡ true → K.readable (keeper_of self.new) ≡ true }
        ensures steady { K.sound (keeper_of self.old) ≡ true → K.failures (keeper_of self.new) ≡ K.failures (keeper_of self.old) }
    {
        let Prepared { next, text } = prepared;
        match text {
            None => change_to(
                self.alloc,
                &mut self.node,
                &mut self.texts,
                &mut self.room,
                next,
            ),
            Some(text) => save_and_change(
                &mut self.keeper,
                &mut self.node,
                &mut self.texts,
                &mut self.room,
                next,
                text,
            ),
        }
    }

    /// One act at the moment `now`: [`prepare`](Station::prepare) and [`commit`](Station::commit). An event or a stop that
    /// has nothing to save leaves the keeper as it is.
    ///
    /// # Errors
    ///
    /// As these two tell. The station is unchanged then, but for the keeper's count of failures.
    pub fn step(&mut self, act: Act, now: u64, weigher: &W) -> Result<Done, Refusal>
        ensures goes { AnswersAct W.weight_of (kept_station_of K.kept self.old) act now result (kept_station_of K.kept self.new) }
        ensures unput { OnErr result (K.found (keeper_of self.new) ≡ K.found (keeper_of self.old)) }
        ensures rose { result ≡ Err KeepFailed → K.failures (keeper_of self.old) < K.failures (keeper_of self.new) }
        ensures told { K.failures (keeper_of self.old) < K.failures (keeper_of self.new) → result ≡ Err KeepFailed }
        ensures never_falls { K.failures (keeper_of self.old) ≤ K.failures (keeper_of self.new) }
        ensures by_one { K.failures (keeper_of self.new) ≤ K.failures (keeper_of self.old) + 1 }
        ensures uncounted { OnOk result (K.failures (keeper_of self.new) ≡ K.failures (keeper_of self.old)) }
        ensures failing { K.failing (keeper_of self.old) ≡ true → BringsActToSave K.kept W.weight_of self.old act now → IsUnsaved result }
        ensures sound { K.sound (keeper_of self.old) ≡ true → result ≢ Err KeepFailed }
        ensures unsaved { IsFailingOrSound K.failing K.sound self.old → result ≡ Err KeepFailed → FailsActBySave K.kept W.weight_of self.old act now }
        ensures order { K.readable (keeper_of self.old) ≡ true → result ≡ Err KeepFailed → FailsActBySave K.kept W.weight_of self.old act now }
        ensures idle { act ≢ Restart → ¬ FailsActBySave K.kept W.weight_of self.old act now → keeper_of self.new ≡ keeper_of self.old }
        ensures stays_sound { K.sound (keeper_of self.old) ≡ true → K.sound (keeper_of self.new) ≡ true }
        ensures stays_readable { K.readable (keeper_of self.old) ≡ true → K.readable (keeper_of self.new) ≡ true }
        ensures steady { K.sound (keeper_of self.old) ≡ true → K.failures (keeper_of self.new) ≡ K.failures (keeper_of self.old) }
    {
        let prepared = self.prepare(&act, now, weigher)?;
        self.commit(prepared)
    }
}

impl<W: Weigh> Station<MemKeeper, W> {
    /// Whether the next save of its keeper fails. None does once `u64::MAX` have.
    pub fn fail_next(&mut self, fails: bool)
        ensures keeper { keeper_of self.new ≡ failing_next (keeper_of self.old) fails }
        ensures still { kept_station_of kept_by self.new ≡ kept_station_of kept_by self.old }
    {
        self.keeper.fail_next(fails);
    }
}
