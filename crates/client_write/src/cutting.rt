ghost use Rattle.std.specs.Prelude.{◌≡◌, ◌+◌, ◌^◌, ◌<◌, true, map, option_map, IfOk};
ghost use Rattle.composite_layout.specs.Choices.{is_ready};
ghost use Rattle.composite_layout.specs.Layouts.{eof};
ghost use Rattle.mirror_select.specs.Tails.{tails_of};
ghost use Rattle.call_steps.specs.Servers.{HoldsNone};
ghost use Rattle.client_write.specs.Truncates.{first_blocker, tail_lock};

use crate::tails::in_the_way;
use extent_lock::ExtentLocks;
use flr_base::NoMemory;
use meta_server::Opened;
use mirror_select::{Tails, tails};
use std::alloc::Global;
use std::marker::Model;

/// What a truncate has since it opened its file, whose layout is ready for a write of all bytes from
/// its size on. The tails are made when the first of them is looked at: at the open no memory could
/// be wanting any more.
#[derive(Drop)]
pub struct Cutting {
    opened: Opened,
    size: u64,
    tails: Option<Tails>,
}

impl Model for Cutting {
    ghost use Rattle.std.specs.Prelude.{◌≡◌, ◌^◌, ◌<◌, true};
    ghost use Rattle.std.specs.Option.{ForSome};
    ghost use Rattle.composite_layout.specs.Choices.{is_ready};
    ghost use Rattle.composite_layout.specs.Layouts.{eof};
    ghost use Rattle.mirror_select.specs.Tails.{tails_of};
    ghost use Rattle.client_write.specs.Views.{CuttingView};

    ghost Value = { CuttingView };

    ghost view = { λ c. record { opened = c.opened; tails = tails_of c.opened.layout c.size } };

    ghost invariant = { λ c. (is_ready c.opened.layout (record { start = c.size; end = eof }) ≡ true) × (c.size < 2 ^ 40)
        × ForSome c.tails (λ tails. tails ≡ tails_of c.opened.layout c.size) };
}

impl Cutting {
    /// A truncate to the size by the layout that its open got.
    pub(crate) fn new(opened: Opened, size: u64) -> Cutting
        requires ready { is_ready opened.layout (record { start = size; end = eof }) ≡ true }
        requires below { size < 2 ^ 40 }
        ensures opened { result.opened ≡ opened }
        ensures tails { result.tails ≡ tails_of opened.layout size }
    {
        Cutting {
            opened,
            size,
            tails: None,
        }
    }

    /// The tails, to be put back.
    pub(crate) fn take(&mut self, alloc: Global) -> Result<Tails, NoMemory>
        ensures same { self.new ≡ self.old }
        ensures tails { IfOk result (λ tails. tails ≡ self.old.tails) }
    {
        match self.tails.take() {
            Some(tails) => Ok(tails),
            None => tails(alloc, &self.opened.layout, self.size),
        }
    }

    /// Puts the tails back.
    pub(crate) fn put(&mut self, tails: Tails)
        requires own { tails ≡ self.old.tails }
        ensures same { self.new ≡ self.old }
    {
        self.tails = Some(tails);
    }

    /// Who is in the way of the first of the tails' locks that somebody is in the way of. It takes no
    /// memory, and the locks stay as they were.
    pub(crate) fn in_the_way(&self, client: u8, locks: &mut ExtentLocks) -> Option<u8>
        requires none { HoldsNone client locks.old }
        ensures first { result ≡ option_map (λ told. told.0) (first_blocker (map (tail_lock client) self.now.tails) locks.old) }
        ensures unchanged { locks.new ≡ locks.old }
    {
        in_the_way(client, &self.opened.layout, self.size, locks)
    }

    /// What the open gave.
    pub(crate) fn opened(&self) -> &Opened
        ensures same { result.now ≡ self.now.opened }
    {
        &self.opened
    }

    /// What the open gave.
    pub(crate) fn into_opened(self) -> Opened
        ensures same { result ≡ self.opened }
    {
        let Cutting {
            opened,
            size: _,
            tails: _,
        } = self;
        opened
    }
}
