ghost use Rattle.std.specs.Prelude.{◌≡◌};
ghost use Rattle.composite_layout.specs.Choices.{is_ready};

use composite_layout::Layout;
use flr_base::Range;

/// Whether a write of these bytes may go to the file as its layout stands: the state is `0` or `wp`,
/// and over the range all components of one mirror are fresh, have their objects and aren't
/// `offline`, and all those of the others are stale. It takes no memory.
pub fn ready_for_write(layout: &Layout, range: Range) -> bool
    ensures ready { result ≡ is_ready layout.now range }
{
    layout.is_ready(range)
}
