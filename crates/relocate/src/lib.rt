// Redirections and moves on one axis: a node whose edges have moved is read from a run of its own in place of its base part. Port of relocate.rs; runs
// themselves are crate `runs`. All functions are internal: they require the part of a checked store that they need, by its name in crate `shape`.
//
// Why an overlay. An edge keeps its slot when an end of it moves. The compressed index cannot tell of the move: an entry's place in it is what makes it the
// node's, and to shift one would shift all that come later. A bit beside the live bit for "has moved", and a list of arrivals, would add a test to each step of
// every walk. So a node whose edges have changed has an overlay: one run, read in place of its base part, with what is left of that in its order and then what
// has arrived. Which of the two is read is settled once a walk. The ring stays beside the run, so that adding an edge is as it was; the next edit of the run
// takes the ring over.
//
// What it costs. Four words a node and a link an edge, in the lent memory whether used or not; a store that never relocates reads one of them a walk. The first
// redirection or move at a node copies its live entries. After that, where no edge is removed, appending takes constant time, and so does handing a whole run
// over; taking an entry out goes along the run up to it, and moving stores the new end of each entry. Where some edge is removed, each edit reads the run once
// and writes it from its first dead entry on; so the dead entries that a walk steps over are of edges removed since the run's last edit. Compaction puts every
// run back into the index.

#![tactic(auto)]

pub mod moves;
pub mod redirects;
