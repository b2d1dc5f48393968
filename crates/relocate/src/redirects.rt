// Redirecting one edge on one axis: it leaves the run of its end, joins the run of another node at its end, and ends there. What a call asks and promises of the
// words is a record of specs/Redirects.antt.

ghost use Rattle.runs.specs.Overlay.{Preparable};
ghost use Rattle.relocate.specs.Redirects.{Left, Arrivable, Arrived, Redirectable, Redirected};

use runs::overlay::prepare;
use runs::{push, take_out};
use shape::Layout;

// Takes an edge out of the prepared run of a node.
fn leave(axis: &mut [u32], layout: Layout, node: usize, live: &[u64], tombstoned: bool, edge: u32)
    requires { Preparable axis.old layout.edge_capacity layout.node_capacity layout.counts live.now tombstoned node }
    ensures { Left axis.old axis.new layout.edge_capacity layout.node_capacity layout.counts live.now node edge }
{
    prepare(axis, layout, node, live, tombstoned);
    take_out(axis, layout, node, edge);
}

// Appends an edge to the prepared run of a node.
fn arrive(axis: &mut [u32], layout: Layout, node: usize, live: &[u64], tombstoned: bool, edge: u32)
    requires { Arrivable axis.old layout.edge_capacity layout.node_capacity layout.counts live.now tombstoned node edge }
    ensures { Arrived axis.old axis.new layout.edge_capacity layout.node_capacity layout.counts live.now node edge }
{
    prepare(axis, layout, node, live, tombstoned);
    push(axis, layout, node, edge);
}

// Makes `new` the end of a live edge, which comes to stand behind the edges of `new`, and answers its end before. The present end again changes nothing.
pub fn redirect(
    axis: &mut [u32],
    layout: Layout,
    live: &[u64],
    tombstoned: bool,
    edge: u32,
    new: u32,
) -> u32
    requires { Redirectable axis.old layout.edge_capacity layout.node_capacity layout.counts live.now tombstoned edge new }
    ensures { Redirected axis.old axis.new layout.edge_capacity layout.node_capacity layout.counts live.now edge new result }
{
    let slot = edge as usize;
    let old = axis[slot];
    if old == new {
        return old;
    }
    leave(axis, layout, old as usize, live, tombstoned, edge);
    arrive(axis, layout, new as usize, live, tombstoned, edge);
    axis[slot] = new;
    old
}
