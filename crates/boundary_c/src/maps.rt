// Maps of compactions.

ghost use Rattle.renumbering.specs.Calls.{Lookup, Compose, IsIdentity};

use plain::Answer;

#[unsafe(no_mangle)]
pub extern "C" fn lot_lookup(renumbering: &[u32], slot: u32) -> Answer
    ensures { Lookup renumbering.now slot result }
{
    Answer::from(Ok(renumbering::lookup(renumbering, slot)))
}

#[unsafe(no_mangle)]
pub extern "C" fn lot_compose(first: &[u32], second: &[u32], res: &mut [u32]) -> Answer
    ensures { Compose first.now second.now res.old result res.new }
{
    Answer::from(renumbering::compose(first, second, res))
}

#[unsafe(no_mangle)]
pub extern "C" fn lot_is_identity(nodes: &[u32], edges: &[u32]) -> Answer
    ensures { IsIdentity nodes.now edges.now result }
{
    Answer::from(Ok(renumbering::is_identity(nodes, edges)))
}
