//! The first words of events' lines, and the forms of these lines.

ghost use Rattle.std.specs.Prelude.{◌≡◌};
ghost use Rattle.acta_script.specs.Words.{event_word, event_form};

use acta_table::EventKind;

/// All kinds of event.
pub const EVENT_KINDS: [EventKind; 10] = [
    EventKind::Begin,
    EventKind::Spawn,
    EventKind::Split,
    EventKind::Join,
    EventKind::Delegate,
    EventKind::Form,
    EventKind::Operate,
    EventKind::Commit,
    EventKind::Abort,
    EventKind::Permit,
];

/// The first word of the line of this kind of event, such as `begin`.
pub fn event_word(kind: EventKind) -> &'static str
    ensures { result.now ≡ event_word kind }
{
    match kind {
        EventKind::Begin => "begin",
        EventKind::Spawn => "spawn",
        EventKind::Split => "split",
        EventKind::Join => "join",
        EventKind::Delegate => "delegate",
        EventKind::Form => "form",
        EventKind::Operate => "do",
        EventKind::Commit => "commit",
        EventKind::Abort => "abort",
        EventKind::Permit => "permit",
    }
}

/// The form of the line of this kind of event, such as `begin T CLASS`. A word in capitals stands for an argument.
pub fn event_form(kind: EventKind) -> &'static str
    ensures { result.now ≡ event_form kind }
{
    match kind {
        EventKind::Begin => "begin T CLASS",
        EventKind::Spawn => "spawn T C CLASS",
        EventKind::Split => "split T U CLASS OPS",
        EventKind::Join => "join T U",
        EventKind::Delegate => "delegate T U OPS",
        EventKind::Form => "form KIND J I",
        EventKind::Operate => "do T OBJECT OP",
        EventKind::Commit => "commit T",
        EventKind::Abort => "abort T",
        EventKind::Permit => "permit T U OBJECT",
    }
}
