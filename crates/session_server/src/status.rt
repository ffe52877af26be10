//! How a server ends.

ghost use Rattle.std.specs.Prelude.{◌≡◌};
ghost use Rattle.session_server.specs.Running.{server_code};

/// How a run of a server ended, or the serving of its session, in which neither its words nor listening are at fault. All links
/// that were served have ended then.
#[derive(Clone, Copy, PartialEq, Eq, Debug)]
pub enum ServerStatus {
    /// A client had come, and none was here any more.
    Ended,
    /// The words aren't `-s` and a session's name, or these and a file's name. Nothing was done.
    Usage,
    /// Accepting failed.
    AcceptFault,
    /// Nobody could be made to serve a link that came. It was dropped.
    SpawnFault,
    /// Memory ran out.
    NoMemory,
    /// The session is broken, since so many entries stood.
    Broken(u64),
    /// As many links came as one session serves, and a further one, which was dropped.
    LinksFull,
    /// The session couldn't be listened for.
    BindFault,
}

impl ServerStatus {
    /// The status with which the process ends.
    pub fn code(self) -> u8
        ensures { result ≡ server_code self }
    {
        match self {
            ServerStatus::Ended => 0,
            ServerStatus::Usage => 1,
            ServerStatus::AcceptFault => 2,
            ServerStatus::SpawnFault => 3,
            ServerStatus::NoMemory => 4,
            ServerStatus::Broken(_) => 5,
            ServerStatus::LinksFull => 6,
            ServerStatus::BindFault => 7,
        }
    }
}
