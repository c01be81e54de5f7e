//! The end of the search of some nodes.
ghost use Rattle.std.specs.Prelude.{◌≡◌, ◌≤◌, ◌-◌, true, length};
ghost use Rattle.gl_graph.specs.Search.{mark_of, is_shut, AreOpen, AreClosed};

use crate::Mark;

/// Marks the open nodes from this place on, which are open no more.
pub fn close(marks: &mut Vec<Mark>, places: &mut Vec<u32>, start: usize, mark: Mark)
    requires opens { AreOpen (mark_of marks.old.items) places.old.items }
    requires start { start ≤ length places.old.items }
    requires shut { is_shut mark ≡ true }
    ensures closed { AreClosed marks.old.items start mark (length places.old.items - start)
        marks.new.items }
    ensures opens { AreOpen (mark_of marks.new.items) places.new.items }
    ensures left { length places.new.items ≡ start }
{
    while places.len() > start {
        match places.pop() {
            Some(node) => marks[node as usize] = mark,
            None => {}
        }
    }
}
