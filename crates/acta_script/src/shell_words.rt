//! The words of session commands, and the forms of their lines.

ghost use Rattle.std.specs.Prelude.{◌≡◌};
ghost use Rattle.acta_script.specs.Shell.{shell_kind_of};
ghost use Rattle.acta_script.specs.Words.{shell_form, shell_word};

/// A command of a session, without its arguments. `can`, which an event follows, is not a command.
#[derive(Clone, Copy, PartialEq, Eq, Debug)]
pub enum ShellKind {
    /// Back by some events.
    Undo,
    /// Forward by some events.
    Redo,
    /// To the place after this many events.
    Goto,
    /// The transactions, the values of the objects, and the debts.
    State,
    /// The status of a transaction.
    Status,
    /// The value of an object.
    Value,
    /// The operations that a transaction holds.
    Held,
    /// The conflict set of a transaction: the operations in progress that others hold.
    Conflicts,
    /// The edges, or those of a transaction.
    Edges,
    /// The permits.
    Permits,
    /// The debts.
    Owed,
    /// The history as kept lines.
    History,
    /// The history as event lines.
    Events,
    /// A picture.
    Draw,
    /// Why an event was refused.
    Why,
    /// Which events would be admitted.
    Next,
    /// The possible outcomes of programs from here.
    Explore,
    /// The commands, or help on one topic.
    Help,
    /// The end of the session.
    Quit,
}

impl ShellKind {
    /// All kinds of command.
    pub const ALL: [ShellKind; 19] = [
        ShellKind::Undo,
        ShellKind::Redo,
        ShellKind::Goto,
        ShellKind::State,
        ShellKind::Status,
        ShellKind::Value,
        ShellKind::Held,
        ShellKind::Conflicts,
        ShellKind::Edges,
        ShellKind::Permits,
        ShellKind::Owed,
        ShellKind::History,
        ShellKind::Events,
        ShellKind::Draw,
        ShellKind::Why,
        ShellKind::Next,
        ShellKind::Explore,
        ShellKind::Help,
        ShellKind::Quit,
    ];

    /// The first word of the command's line, such as `goto`.
    pub fn word(self) -> &'static str
        ensures { result.now ≡ shell_word self }
    {
        match self {
            ShellKind::Undo => "undo",
            ShellKind::Redo => "redo",
            ShellKind::Goto => "goto",
            ShellKind::State => "state",
            ShellKind::Status => "status",
            ShellKind::Value => "value",
            ShellKind::Held => "held",
            ShellKind::Conflicts => "conflicts",
            ShellKind::Edges => "edges",
            ShellKind::Permits => "permits",
            ShellKind::Owed => "owed",
            ShellKind::History => "history",
            ShellKind::Events => "events",
            ShellKind::Draw => "draw",
            ShellKind::Why => "why",
            ShellKind::Next => "next",
            ShellKind::Explore => "explore",
            ShellKind::Help => "help",
            ShellKind::Quit => "quit",
        }
    }

    /// The form of the command's line, such as `goto N`. A word in capitals stands for an argument, and a word in
    /// brackets is optional.
    pub fn form(self) -> &'static str
        ensures { result.now ≡ shell_form self }
    {
        match self {
            ShellKind::Undo => "undo [N]",
            ShellKind::Redo => "redo [N]",
            ShellKind::Goto => "goto N",
            ShellKind::State => "state",
            ShellKind::Status => "status T",
            ShellKind::Value => "value OBJECT",
            ShellKind::Held => "held T",
            ShellKind::Conflicts => "conflicts T",
            ShellKind::Edges => "edges [T]",
            ShellKind::Permits => "permits",
            ShellKind::Owed => "owed",
            ShellKind::History => "history",
            ShellKind::Events => "events",
            ShellKind::Draw => "draw",
            ShellKind::Why => "why [N]",
            ShellKind::Next => "next [T]",
            ShellKind::Explore => "explore",
            ShellKind::Help => "help [COMMAND]",
            ShellKind::Quit => "quit",
        }
    }

    /// The command with this first word, if there is one.
    pub fn of_word(word: &[u8]) -> Option<ShellKind>
        ensures { result ≡ shell_kind_of word.now }
    {
        ShellKind::ALL
            .iter()
            .copied()
            .find(|kind| word == kind.word().as_bytes())
    }
}

/// The word that asks whether the event after it would be admitted.
pub const CAN_WORD: &str = "can";

/// The form of the line that asks whether an event would be admitted.
pub const CAN_FORM: &str = "can EVENT";
