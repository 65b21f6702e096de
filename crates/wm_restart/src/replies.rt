// Replies to the commands of rows.
ghost use Rattle.std.specs.Prelude.{◌≡◌, ◌↔◌, IsTrue};
ghost use Rattle.wm_law.specs.declared.call.Reply.TheVariants.{Made};

use wm_law::Reply;

/// Whether a command has made what it makes.
pub(crate) fn is_made(reply: &Reply) -> bool
    ensures { IsTrue result ↔ (reply.now ≡ Made) }
{
    matches!(reply, Reply::Made)
}
