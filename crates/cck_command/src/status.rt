//! The exit statuses of the program.
ghost use Rattle.std.specs.Prelude.{◌≡◌};
ghost use Rattle.cck_command.specs.Status.{status_code};

/// How a run of the program ended.
#[derive(Clone, Copy)]
pub enum Status {
    /// All that was asked for was printed.
    Done,
    /// Input, output or memory failed.
    Failed,
    /// The words ask for nothing, or a line of the script is wrong.
    Usage,
}

impl Status {
    /// The exit status: 0 for [`Status::Done`], 1 for [`Status::Failed`], 2 for [`Status::Usage`].
    pub fn code(self) -> u8
        ensures { result ≡ status_code self }
    {
        match self {
            Status::Done => 0,
            Status::Failed => 1,
            Status::Usage => 2,
        }
    }
}
