use crate::bases::{Bytes, work_of_parts};
use crate::command::{Command, Commands};
use crate::measure::sum_of;
use crate::what::What;
use flr_base::Listed;
use object_target::Fail;
use std::marker::Model;

/// The calls of targets that fail.
pub type Fails = Listed<Fail>;

/// The commands of each client, from client 1 on.
pub type Clients = Listed<Commands>;

/// What the targets are and what each client does, within every limit.
#[derive(Debug, Drop)]
pub struct Script {
    most: u8,
    targets: u8,
    fails: Fails,
    clients: Clients,
}

impl Model for Script {
    ghost use Rattle.script_values.specs.Scripts.{ScriptView, IsScript};

    ghost Value = { ScriptView };

    ghost view = { λ s. record { most = s.most; targets = s.targets; fails = s.fails; clients = s.clients } };

    ghost invariant = { λ s. IsScript (record { most = s.most; targets = s.targets; fails = s.fails; clients = s.clients }) };
}

/// How many bytes may be read and written in all.
const MOST_BYTES: u64 = 67108864;

/// How much work a script may have.
const MOST_WORK: u64 = 8388608;

impl Script {
    ghost use Rattle.std.specs.Prelude.{◌≡◌, ◌≤◌, length};
    ghost use Rattle.script_values.specs.Scripts.{IsWellFormed, IsScript, limited, commands_of};

    /// The script of these parts: the most mirrors of a file, the number of targets, the calls that
    /// fail, and the commands of each client from client 1 on. What its lines tell is within the limits.
    /// Too many bytes in all are refused first, and then too much work. It takes no memory.
    pub fn of(most: u8, targets: u8, fails: Fails, clients: Clients) -> Result<Script, What>
        requires { IsWellFormed (record { most = most; targets = targets; fails = fails; clients = clients }) }
        ensures limited { result ≡ limited (record { most = most; targets = targets; fails = fails; clients = clients }) }
    {
        if sum_of(&Bytes, clients.as_slice()) > MOST_BYTES {
            return Err(What::Bytes);
        }
        let work = work_of_parts(most, targets, fails.len() as u64, clients.as_slice());
        if work > MOST_WORK {
            return Err(What::Work);
        }
        Ok(Script {
            most,
            targets,
            fails,
            clients,
        })
    }

    /// The script of these parts, which is within every limit.
    pub(crate) fn within(most: u8, targets: u8, fails: Fails, clients: Clients) -> Script
        requires { IsScript (record { most = most; targets = targets; fails = fails; clients = clients }) }
        ensures { result ≡ record { most = most; targets = targets; fails = fails; clients = clients } }
    {
        Script {
            most,
            targets,
            fails,
            clients,
        }
    }

    /// How many mirrors a file may have.
    pub fn most(&self) -> u8
        ensures most { result ≡ self.now.most }
        ensures limits { IsScript self.now }
    {
        self.most
    }

    /// How many targets there are.
    pub fn targets(&self) -> u8
        ensures targets { result ≡ self.now.targets }
        ensures limits { IsScript self.now }
    {
        self.targets
    }

    /// The calls of targets that fail, in the order in which they were listed.
    pub fn fails(&self) -> &[Fail]
        ensures fails { result.now ≡ self.now.fails }
        ensures limits { IsScript self.now }
    {
        self.fails.as_slice()
    }

    /// How many clients there are. They are counted from 1.
    pub fn clients(&self) -> u8
        ensures clients { result ≡ length self.now.clients }
        ensures limits { IsScript self.now }
    {
        self.clients.len() as u8
    }

    /// The commands of each client.
    pub(crate) fn all(&self) -> &[Commands]
        ensures all { result.now ≡ self.now.clients }
        ensures limits { IsScript self.now }
    {
        self.clients.as_slice()
    }

    /// The commands of a client, in their order.
    pub fn commands(&self, client: u8) -> &[Command]
        requires low { 1 ≤ client }
        requires high { client ≤ length self.now.clients }
        ensures commands { result.now ≡ commands_of self.now client }
        ensures limits { IsScript self.now }
    {
        self.clients.as_slice()[usize::from(client) - 1].as_slice()
    }
}
