//! What a writing call asks of the server before its open.

ghost use Rattle.std.specs.Prelude.{◌≡◌, ◌↔◌, IsTrue};
ghost use Rattle.meta_server.specs.Conditions.{HasGenerationRoom, HasObjectRoom};

use meta_server::Meta;

/// Whether generations and object numbers leave room for an intent.
pub(crate) fn has_room(meta: &Meta) -> bool
    ensures { IsTrue result ↔ (HasGenerationRoom meta.now × HasObjectRoom meta.now) }
{
    meta.has_generation_room() && meta.has_object_room()
}
