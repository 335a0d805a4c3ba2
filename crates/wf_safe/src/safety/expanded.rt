// Modules that are seen and expanded.
ghost use Rattle.std.specs.Prelude.{◌≡◌, ◌<◌, length};
ghost use Rattle.wf_safe.specs.Choosing.{is_seen_expanded};

use wf_spec::ModNo;
use wf_view::View;

/// Whether a module is seen and the view expands it.
pub fn is_seen_expanded(view: &View, m: ModNo) -> bool
    requires { m.0 < length view.now.seen }
    ensures { result ≡ is_seen_expanded view.now m.0 }
{
    view.seen(m) && view.expanded(m)
}
