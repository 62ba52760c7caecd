// What is told of events.

use crate::state::{add_lock, add_number};
use aos_base::{Event, LockName};
use std::alloc::AllocError;

// Adds what happened to an activity at a lock.
fn add_at(told: &mut String, what: &str, lock: LockName, activity: u32) -> Result<(), AllocError> {
    told.push_str(what)?;
    add_lock(told, lock)?;
    add_number(told, " ", u64::from(activity))
}

// Adds what is said of one who waits for a condition, and not to enter.
fn add_awaits(told: &mut String, awaits: bool) -> Result<(), AllocError> {
    told.push_str(if awaits { " awaits" } else { "" })
}

// Adds what an event is.
fn add_what(told: &mut String, event: Event) -> Result<(), AllocError> {
    match event {
        Event::Start { activity } => add_number(told, " start ", u64::from(activity)),
        Event::End { activity } => add_number(told, " end ", u64::from(activity)),
        Event::Trap { activity, number } => {
            add_number(told, " trap ", u64::from(activity))?;
            add_number(told, " ", u64::from(number))
        }
        Event::Enter { lock, activity } => add_at(told, " enter", lock, activity),
        Event::Free { lock, from } => add_at(told, " free", lock, from),
        Event::Wait {
            lock,
            activity,
            waiter,
        } => {
            add_at(told, " wait", lock, activity)?;
            add_awaits(told, waiter)
        }
        Event::Pass {
            lock,
            from,
            to,
            waiter,
        } => {
            add_at(told, " pass", lock, from)?;
            add_number(told, " ", u64::from(to))?;
            add_awaits(told, waiter)
        }
    }
}

/// Adds an event of the step or tick of this number, behind others.
pub fn add_event(told: &mut String, step: u64, event: Event) -> Result<(), AllocError> {
    add_number(told, if told.is_empty() { "" } else { "; " }, step)?;
    add_what(told, event)
}
