ghost use Rattle.std.specs.Prelude.{◌≡◌};
ghost use Rattle.flr_base.specs.declared.reply.Reply.TheVariants as reply;
ghost use Rattle.layout_lease.specs.Clients.{IsClient};
ghost use Rattle.meta_server.specs.Files.{with_eviction};

use flr_base::Reply;
use meta_server::Meta;

/// Evicts a client at this place: takes its cookies of all files, and breaks its leases. Its extent
/// locks and its running call stay, and so does every layout. It takes no memory.
pub fn evict(client: u8, meta: &mut Meta, step: u32) -> Reply
    requires client { IsClient client }
    ensures evicted { meta.new ≡ with_eviction client step meta.old }
    ensures reply { result ≡ reply.EvictedClient client }
{
    meta.evict(client, step);
    Reply::EvictedClient(client)
}
