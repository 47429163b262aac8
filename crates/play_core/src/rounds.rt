//! Rounds: each initiator acts once, and each operation under way ends.
ghost use Rattle.std.specs.Prelude.{◌≡◌, IfOk, OnOk, false, length, true};
ghost use Rattle.sched_core.specs.Systems.{world_of};
ghost use Rattle.play_core.specs.Giving.{Adds, AddsMore, IsOver, IsQuiet, Stays};

use crate::given::Given;
use crate::giving::{Added, give, has_room, note};
use chain_store::store::ChainStore;
use machine_meaning::machine::MOST_EVENTS;
use sched_core::system::System;
use std::alloc::AllocError;

/// Each initiator acts once. Tells whether jobs that wait were all that was told.
fn turn_all(system: &mut System<'_, ChainStore>, added: &mut Added) -> Result<bool, AllocError>
    ensures adds { OnOk result (Adds system.old added.old.given.items system.new added.new.given.items) }
    ensures still { IfOk result (λ still. still ≡ true → Stays system.old 0 (length (world_of system.old).initiators) system.new) }
    ensures more { IfOk result (λ still. still ≡ false → AddsMore added.old.given.items system.new added.new.given.items) }
{
    let mut still = true;
    let count = system.initiator_count();
    for place in 0..count {
        let Some(x) = system.initiator_at(place) else {
            continue;
        };
        if !has_room(system) {
            return Ok(false);
        }
        let lines = give(system, &mut added.given, Given::Turn(x.number))?;
        let all = note(&mut added.waits, lines.as_slice(), still)?;
        still = all;
    }
    Ok(still)
}

/// Each operation under way ends. Tells whether there was none.
fn end_all(system: &mut System<'_, ChainStore>, added: &mut Added) -> Result<bool, AllocError>
    ensures adds { OnOk result (Adds system.old added.old.given.items system.new added.new.given.items) }
    ensures quiet { IfOk result (λ quiet. quiet ≡ true → IsQuiet system.new × (system.new ≡ system.old)) }
    ensures more { IfOk result (λ quiet. quiet ≡ false → AddsMore added.old.given.items system.new added.new.given.items) }
{
    let mut quiet = true;
    let count = system.volume_count();
    for place in 0..count {
        let Some(volume) = system.volume_at(place) else {
            continue;
        };
        if !volume.busy {
            continue;
        }
        quiet = false;
        if !has_room(system) {
            return Ok(quiet);
        }
        give(system, &mut added.given, Given::DeviceEnd(volume.serial))?;
    }
    Ok(quiet)
}

/// Rounds, up to the first in which nothing moves, or to the limit of events.
pub(crate) fn play_rounds(
    system: &mut System<'_, ChainStore>,
    added: &mut Added,
) -> Result<(), AllocError>
    ensures adds { OnOk result (Adds system.old added.old.given.items system.new added.new.given.items) }
    ensures over { OnOk result (IsOver system.new added.new.given.items) }
{
    for round in 0..MOST_EVENTS {
        let _ = round;
        added.waits.clear();
        let still = turn_all(system, added)?;
        if !has_room(system) {
            return Ok(());
        }
        let quiet = end_all(system, added)?;
        if !has_room(system) {
            return Ok(());
        }
        if still && quiet {
            return Ok(());
        }
    }
    Ok(())
}
