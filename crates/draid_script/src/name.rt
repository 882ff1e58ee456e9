ghost use Rattle.std.specs.Prelude.{◌≡◌, IsTrue};
ghost use Rattle.draid_script.specs.Name.{is_for_lanes, name_of, name_text};

/// The first word of a command.
#[derive(Clone, Copy)]
pub enum CommandName {
    Create,
    Import,
    Export,
    Sync,
    Cancel,
    Crash,
    Write,
    Fill,
    Read,
    Free,
    Sum,
    Offline,
    Online,
    Damage,
    Spare,
    Replace,
    Detach,
    Rebuild,
    Scrub,
    Rebalance,
    Status,
    Lanes,
    Upgrade,
    Agent,
    Checkpoint,
    Rewind,
    Discard,
}

/// All of them.
const NAMES: [CommandName; 27] = [
    CommandName::Create,
    CommandName::Import,
    CommandName::Export,
    CommandName::Sync,
    CommandName::Cancel,
    CommandName::Crash,
    CommandName::Write,
    CommandName::Fill,
    CommandName::Read,
    CommandName::Free,
    CommandName::Sum,
    CommandName::Offline,
    CommandName::Online,
    CommandName::Damage,
    CommandName::Spare,
    CommandName::Replace,
    CommandName::Detach,
    CommandName::Rebuild,
    CommandName::Scrub,
    CommandName::Rebalance,
    CommandName::Status,
    CommandName::Lanes,
    CommandName::Upgrade,
    CommandName::Agent,
    CommandName::Checkpoint,
    CommandName::Rewind,
    CommandName::Discard,
];

impl CommandName {
    /// The command whose first word this is.
    #[tactic(auto, unfolding(crate::specs::Name::name_of))]
    pub fn of(word: &[u8]) -> Option<CommandName>
        ensures { result ≡ name_of word.now }
    {
        NAMES
            .iter()
            .copied()
            .find(|name| name.text().as_bytes() == word)
    }

    /// The word as it is written.
    pub fn text(self) -> &'static str
        ensures { result.now ≡ name_text self }
    {
        match self {
            CommandName::Create => "create",
            CommandName::Import => "import",
            CommandName::Export => "export",
            CommandName::Sync => "sync",
            CommandName::Cancel => "cancel",
            CommandName::Crash => "crash",
            CommandName::Write => "write",
            CommandName::Fill => "fill",
            CommandName::Read => "read",
            CommandName::Free => "free",
            CommandName::Sum => "sum",
            CommandName::Offline => "offline",
            CommandName::Online => "online",
            CommandName::Damage => "damage",
            CommandName::Spare => "spare",
            CommandName::Replace => "replace",
            CommandName::Detach => "detach",
            CommandName::Rebuild => "rebuild",
            CommandName::Scrub => "scrub",
            CommandName::Rebalance => "rebalance",
            CommandName::Status => "status",
            CommandName::Lanes => "lanes",
            CommandName::Upgrade => "upgrade",
            CommandName::Agent => "agent",
            CommandName::Checkpoint => "checkpoint",
            CommandName::Rewind => "rewind",
            CommandName::Discard => "discard",
        }
    }

    /// Whether the command may stand in a section.
    pub fn is_for_lanes(self) -> bool
        ensures { result ≡ is_for_lanes self }
    {
        matches!(
            self,
            CommandName::Write
                | CommandName::Fill
                | CommandName::Read
                | CommandName::Sum
                | CommandName::Free
                | CommandName::Sync
                | CommandName::Offline
                | CommandName::Online
                | CommandName::Rebuild
                | CommandName::Scrub
        )
    }
}
