use crate::purpose::Purpose;

/// The state of a line at one agent.
#[derive(Clone, Copy, Debug, PartialEq, Eq)]
pub enum Mesi {
    /// The agent doesn't hold the line.
    Invalid,
    /// The agent may load; others may hold the line too.
    Shared,
    /// The agent may load and store; nobody else holds the line, and the memory has its bytes.
    Exclusive,
    /// The agent may load and store; nobody else holds the line, and the memory need not have its
    /// bytes.
    Modified,
}

impl Mesi {
    ghost use Rattle.std.specs.Prelude.{◌≡◌};
    ghost use Rattle.fsb_line.specs.States.{after_snoop, answer_of, granted, is_held, is_sole};

    /// Whether the agent holds the line.
    pub fn is_held(self) -> bool
        ensures { result ≡ is_held self }
    {
        self != Mesi::Invalid
    }

    /// Whether nobody else may hold the line, so that the agent may write.
    pub fn is_sole(self) -> bool
        ensures { result ≡ is_sole self }
    {
        matches!(self, Mesi::Exclusive | Mesi::Modified)
    }

    /// What the agent answers at the snoop end of another's request, whether its bytes have come or
    /// not.
    pub fn answer(self) -> Answer
        ensures { result ≡ answer_of self }
    {
        match self {
            Mesi::Invalid => Answer::Clean,
            Mesi::Shared | Mesi::Exclusive => Answer::Hit,
            Mesi::Modified => Answer::Modified,
        }
    }

    /// The state in which a request of this kind gets its line. `shared` says that another agent
    /// was seen to hold the line.
    pub fn granted(kind: Purpose, shared: bool) -> Mesi
        ensures { result ≡ granted kind shared }
    {
        match kind {
            Purpose::Read if shared => Mesi::Shared,
            Purpose::Read => Mesi::Exclusive,
            Purpose::Own | Purpose::Upgrade => Mesi::Modified,
            Purpose::WriteBack => Mesi::Invalid,
        }
    }

    /// The state after the snoop end of another agent's request of this kind.
    pub fn after_snoop(self, kind: Purpose) -> Mesi
        ensures { result ≡ after_snoop self kind }
    {
        match kind {
            Purpose::Read if self.is_held() => Mesi::Shared,
            Purpose::Own | Purpose::Upgrade => Mesi::Invalid,
            Purpose::Read | Purpose::WriteBack => self,
        }
    }
}

/// What an agent answers at the snoop end of another agent's request.
#[derive(Clone, Copy, Debug, PartialEq, Eq)]
pub enum Answer {
    /// It doesn't hold the line.
    Clean,
    /// It holds the line, and the memory may give it.
    Hit,
    /// It has the line Modified, and gives it itself.
    Modified,
}
