//! The search: from a node along steps, with the nodes on the way in segments that lead to each
//! other. A step back to an open node joins the segments down to it into one; where the first node
//! of the last segment has no step left, the whole segment is known.
ghost use Rattle.std.specs.Prelude.{◌≡◌, ◌<◌, ◌++◌, ◌∷◌, [], true, length, OnOk, IfOk};
ghost use Rattle.std.specs.Prelude.{vec_len, set};
ghost use Rattle.std.specs.Prelude.{if◌then◌else◌};
ghost use Rattle.gl_graph.specs.Search.{is_shut, is_new, fresh_frame};
ghost use Rattle.gl_graph.specs.Searches.{known_of, nodes_in, IsSearchOf, IsSearchWith, Turns};
ghost use Rattle.gl_graph.specs.declared.mark.Mark.TheVariants.{Open, Plain, Circle};

use crate::closing::close;
use crate::cutting::{cut, is_last};
use crate::state::Frame;
use crate::{Graph, Mark, Place};
use gl_plane::NoMemory;
use std::alloc::Global;

/// What is known of each node of a graph so far.
pub struct Search {
    marks: Vec<Mark>,
    open: Vec<u32>,
    /// the places of the first nodes of segments
    starts: Vec<usize>,
    frames: Vec<Frame>,
}

// One call wherever it is dropped, in place of one for each part.
impl Drop for Search {
    fn drop(self) {
        let Search {
            marks,
            open,
            starts,
            frames,
        } = self;
    }
}

impl Search {
    /// Nothing is known of any node.
    pub fn new<G: Graph>(alloc: Global, graph: &G) -> Result<Search, NoMemory>
        ensures { IfOk result (λ s.
            IsSearchOf (G.left graph.now) (G.weight graph.now) (G.size graph.now) s) }
    {
        Ok(Search {
            marks: vec![in alloc; Mark::New; graph.size() as usize]?,
            open: Vec::new(alloc),
            starts: Vec::new(alloc),
            frames: Vec::new(alloc),
        })
    }

    /// What is known of a node.
    pub fn mark(&self, node: u32) -> Mark
        requires { node < nodes_in self.now }
        ensures { result ≡ known_of self.now node }
    {
        self.marks[node as usize]
    }

    /// Searches on until the node is known.
    pub fn visit<G: Graph>(&mut self, graph: &G, node: u32) -> Result<(), NoMemory>
        requires knows { IsSearchOf (G.left graph.now) (G.weight graph.now) (G.size graph.now)
            self.old }
        requires inside { node < G.size graph.now }
        ensures knows { OnOk result (
            IsSearchOf (G.left graph.now) (G.weight graph.now) (G.size graph.now) self.new) }
        ensures known { OnOk result (is_shut (known_of self.new node) ≡ true) }
    {
        if is_new(self.mark(node)) {
            self.enter(node)?;
            while let Some(frame) = self.frames.pop() {
                self.turn(graph, frame)?;
            }
        }
        Ok(())
    }

    /// Opens a node as a segment of its own.
    fn enter(&mut self, node: u32) -> Result<(), NoMemory>
        requires { node < vec_len self.old.marks }
        ensures open { OnOk result (self.new.open.items ≡ self.old.open.items ++ node ∷ []) }
        ensures starts { OnOk result (
            self.new.starts.items ≡ self.old.starts.items ++ length self.old.open.items ∷ []) }
        ensures frames { OnOk result (
            self.new.frames.items
            ≡ self.old.frames.items ++ fresh_frame node (length self.old.open.items) ∷ []) }
        ensures marks { OnOk result (
            self.new.marks.items
            ≡ set self.old.marks.items node (Open (length self.old.open.items))) }
    {
        let at = self.open.len();
        self.open.push(node)?;
        self.starts.push(at)?;
        self.frames.push(Frame {
            node,
            at,
            place: Place { part: 0, offset: 0 },
            high: 0,
            looped: false,
        })?;
        self.marks[node as usize] = Mark::Open(at);
        Ok(())
    }

    /// Takes the next step of a node, whose frame was the last.
    fn turn<G: Graph>(&mut self, graph: &G, frame: Frame) -> Result<(), NoMemory>
        requires state { IsSearchWith (G.left graph.now) (G.weight graph.now) (G.size graph.now)
            self.old frame }
        ensures { OnOk result (
            Turns (G.left graph.now) (G.weight graph.now) (G.size graph.now)
            self.old frame self.new) }
    {
        match graph.next(frame.node, frame.place) {
            Some((node, place)) => self.step(graph, frame, node, place),
            None => {
                self.leave(graph, frame);
                Ok(())
            }
        }
    }

    /// Goes on by a step to a node.
    fn step<G: Graph>(
        &mut self,
        graph: &G,
        frame: Frame,
        node: u32,
        place: Place,
    ) -> Result<(), NoMemory>
        requires state { IsSearchWith (G.left graph.now) (G.weight graph.now) (G.size graph.now)
            self.old frame }
        requires taken { G.left graph.now frame.node frame.place
            ≡ node ∷ G.left graph.now frame.node place }
        requires inside { node < G.size graph.now }
        ensures { OnOk result (
            Turns (G.left graph.now) (G.weight graph.now) (G.size graph.now)
            self.old frame self.new) }
    {
        match self.mark(node) {
            Mark::New => {
                self.frames.push(frame)?;
                self.enter(node)?;
                Ok(())
            }
            Mark::Open(at) => {
                cut(&mut self.starts, at);
                let next = Frame {
                    place,
                    looped: true,
                    ..frame
                };
                self.keep(next)?;
                Ok(())
            }
            Mark::Plain(high) => {
                let next = Frame {
                    place,
                    high: frame.high.max(high),
                    ..frame
                };
                self.keep(next)?;
                Ok(())
            }
            Mark::Circle => {
                let next = Frame { place, ..frame };
                self.keep(next)?;
                Ok(())
            }
        }
    }

    /// Puts a frame back.
    fn keep(&mut self, frame: Frame) -> Result<(), NoMemory>
        ensures frames { OnOk result (self.new.frames.items ≡ self.old.frames.items ++ frame ∷ []) }
        ensures marks { self.new.marks ≡ self.old.marks }
        ensures open { self.new.open ≡ self.old.open }
        ensures starts { self.new.starts ≡ self.old.starts }
    {
        self.frames.push(frame)?;
        Ok(())
    }

    /// Leaves a node without steps left. Where it is the first of its segment, all of it is known.
    fn leave<G: Graph>(&mut self, graph: &G, frame: Frame)
        requires state { IsSearchWith (G.left graph.now) (G.weight graph.now) (G.size graph.now)
            self.old frame }
        requires done { G.left graph.now frame.node frame.place ≡ [] }
        ensures { Turns (G.left graph.now) (G.weight graph.now) (G.size graph.now)
            self.old frame self.new }
    {
        let _size = graph.size();
        let height = graph.weight(frame.node) + frame.high;
        if is_last(&self.starts, frame.at) {
            let _ = self.starts.pop();
            let mark = mark_for(frame.looped, height);
            close(&mut self.marks, &mut self.open, frame.at, mark);
        }
    }
}

/// Nothing is known yet.
fn is_new(mark: Mark) -> bool
    ensures { result ≡ is_new mark }
{
    match mark {
        Mark::New => true,
        Mark::Open(_) | Mark::Plain(_) | Mark::Circle => false,
    }
}

/// The mark of the nodes of a segment.
fn mark_for(looped: bool, height: u32) -> Mark
    ensures { result ≡ (if looped then Circle else Plain height) }
{
    if looped {
        Mark::Circle
    } else {
        Mark::Plain(height)
    }
}
