ghost use Rattle.std.specs.Prelude.{◌≡◌, ◌<◌, None, OnErr, OnOk};
ghost use Rattle.flr_base.specs.declared.reply.Reply.TheVariants as reply;
ghost use Rattle.meta_server.specs.Conditions.{IsRoom};
ghost use Rattle.meta_server.specs.Files.{file_named, with_file};
ghost use Rattle.meta_server.specs.Naming.{creates};
ghost use Rattle.meta_server.specs.Outcomes.{Meets, Stops};

use crate::answers::MetaStop;
use crate::files::Kept;
use crate::meta::Meta;
use composite_layout::{Layout, Spec};
use flr_base::{Name, NoMemory, Reply};
use layout_lease::LayoutLock;

/// How many files there may be.
pub(crate) const MOST_FILES: usize = 16;

impl Meta {
    /// Makes a file of this name, with the mirrors of the spec.
    ///
    /// The refusals are `Exists` where there is a file of this name, and `TooManyFiles` where there
    /// are 16 files.
    pub fn create(&mut self, name: &Name, spec: &Spec) -> Result<(), MetaStop>
        requires room { IsRoom self.old.next_file }
        ensures created { Meets (creates name.now spec.now self.old) self.old result self.new }
    {
        match self.files.named(name) {
            Some(_) => Err(exists(name)),
            None => self.create_absent(name, spec),
        }
    }

    fn create_absent(&mut self, name: &Name, spec: &Spec) -> Result<(), MetaStop>
        requires absent { file_named name.now self.old.files ≡ None }
        requires room { IsRoom self.old.next_file }
        ensures created { Meets (creates name.now spec.now self.old) self.old result self.new }
    {
        if self.files.len() >= MOST_FILES {
            return Err(MetaStop::Refused(Reply::TooManyFiles));
        }
        let layout = Layout::make(self.files.alloc(), spec, self.targets)?;
        self.add_file(name, 0, layout)?;
        Ok(())
    }

    /// A file of this name, which no other has, comes last.
    pub(crate) fn add_file(
        &mut self,
        name: &Name,
        size: u64,
        layout: Layout,
    ) -> Result<(), NoMemory>
        requires absent { file_named name.now self.old.files ≡ None }
        requires room { IsRoom self.old.next_file }
        ensures added { OnOk result (self.new ≡ with_file name.now size layout self.old) }
        ensures unchanged { OnErr result (self.new ≡ self.old) }
    {
        let name = name.copy()?;
        let file = Kept {
            number: self.next_file,
            size,
            layout,
            lock: LayoutLock::new(),
        };
        self.files.push(name, file)?;
        self.next_file += 1;
        Ok(())
    }
}

/// The refusal of a name that a file has already.
pub(crate) fn exists(name: &Name) -> MetaStop
    ensures { Stops (reply.Exists name.now) result }
{
    match name.copy() {
        Ok(name) => MetaStop::Refused(Reply::Exists(name)),
        Err(_) => MetaStop::NoMemory,
    }
}
