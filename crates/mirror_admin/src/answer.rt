use flr_base::Reply;
use meta_server::MetaStop;

/// What a command of one step came to.
#[derive(Debug, Drop)]
pub enum Admin {
    /// The command is answered.
    Answered(Reply),
    /// The lowest other client that holds a layout lock which the command needs for itself alone.
    /// Nothing has changed.
    Blocked { holder: u8 },
    /// Memory ran out. Nothing has changed.
    NoMemory,
}

impl From<MetaStop> for Admin {
    ghost use Rattle.std.specs.Prelude.{◌≡◌};
    ghost use Rattle.mirror_admin.specs.OneStep.{admin_of};

    ghost from_gives = { λ stop admin. admin ≡ admin_of stop };

    fn from(stop: MetaStop) -> Admin {
        match stop {
            MetaStop::Refused(reply) => Admin::Answered(reply),
            MetaStop::Blocked { holder } => Admin::Blocked { holder },
            MetaStop::NoMemory => Admin::NoMemory,
        }
    }
}
