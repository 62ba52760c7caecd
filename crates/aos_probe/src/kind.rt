// Kinds of events.

ghost use Rattle.std.specs.Prelude.{◌≡◌};
ghost use Rattle.aos_probe.specs.Kinds.{is_of};

use aos_base::Event;

/// A kind of event: one for each variant of `Event`.
#[derive(Clone, Copy)]
pub enum EventKind {
    Start,
    Enter,
    Wait,
    Pass,
    Free,
    Trap,
    End,
}

/// Whether the event is of this kind.
pub fn is_of(kind: EventKind, event: &Event) -> bool
    ensures { result ≡ is_of kind event.now }
{
    match (kind, *event) {
        (EventKind::Start, Event::Start { .. }) => true,
        (EventKind::Enter, Event::Enter { .. }) => true,
        (EventKind::Wait, Event::Wait { .. }) => true,
        (EventKind::Pass, Event::Pass { .. }) => true,
        (EventKind::Free, Event::Free { .. }) => true,
        (EventKind::Trap, Event::Trap { .. }) => true,
        (EventKind::End, Event::End { .. }) => true,
        _ => false,
    }
}
