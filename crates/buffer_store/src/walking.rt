//! Going over the nodes of an undo tree: the way between two of them, its changes, and the heirs behind it.

ghost use Rattle.std.specs.Prelude.{◌≡◌, ℕ, ◌+◌, ◌<◌, List, [], length, IfOk, OnOk, OnErr, MatchOption, vec_len, vec_capacity};
ghost use Rattle.text_model.specs.Changes.{all_changed};
ghost use Rattle.undo_model.specs.Ways.{leaving, entering};
ghost use Rattle.move_marks.specs.Marking.{IsLeftBy};
ghost use Rattle.buffer_store.specs.Stored.{change_shifts};
ghost use Rattle.buffer_store.specs.Seen.{branch_at, nodes_of};
ghost use Rattle.buffer_store.specs.Traces.{trace, trace_after, IsAfterSome};
ghost use Rattle.buffer_store.specs.Walks.{back_over, CanGoBack, on_over, CanGoForth, way_changes, CanGoWay, aimed_over, AreThere, IsBehindSome};

use crate::history::Branch;
use crate::making::{make_all, take_all_back};
use kak_text::Shift;
use line_buffer::Lines;
use move_marks::list_left;
use selection_set::{Sel, Sels};
use std::alloc::{AllocError, Global};

/// The nodes of a way: those that it leaves for their parents, and those that it then goes to from theirs, both in order.
#[derive(Drop, Debug)]
pub(crate) struct NodeWay {
    pub(crate) left: Vec<u32>,
    pub(crate) entered: Vec<u32>,
}

/// The way from one node to another: up to their nearest common ancestor, and from there down.
pub(crate) fn way_between(
    alloc: Global,
    branches: &[Branch],
    from: u32,
    to: u32,
) -> Result<NodeWay, AllocError>
    requires parents { (n : ℕ) → 0 < n → n < length branches.now → (branch_at branches.now n).parent < n }
    requires from { from < length branches.now }
    requires to { to < length branches.now }
    ensures left { IfOk result (λ w. (opening : List ℕ) → w.left.items ≡ leaving (from + to) (nodes_of opening branches.now) from to) }
    ensures entered { IfOk result (λ w. (opening : List ℕ) → w.entered.items ≡ entering (from + to) (nodes_of opening branches.now) from to) }
{
    let mut left = Vec::new(alloc);
    let mut entered = Vec::new(alloc);
    let mut above = from;
    let mut below = to;
    while above != below {
        if below < above {
            left.push(above)?;
            let branch = &branches[above as usize];
            above = branch.parent;
            continue;
        }
        entered.push(below)?;
        let branch = &branches[below as usize];
        below = branch.parent;
    }
    entered.reverse();
    Ok(NodeWay { left, entered })
}

/// Goes a way, by the nodes that it leaves and those that it goes to: takes the changes of the former back, makes those of the
/// latter, and adds their shifts to an empty list. It gives the list of selections
/// that the changes leave, or none where there was none. After an error the text is as it is behind some of the changes.
pub(crate) fn walk(
    lines: &mut Lines,
    alloc: Global,
    branches: &[Branch],
    left: &[u32],
    entered: &[u32],
    shifts: &mut Vec<Shift>,
) -> Result<Option<Sels>, AllocError>
    requires none { shifts.old.items ≡ [] }
    requires can { CanGoWay branches.now lines.old left.now entered.now }
    ensures text { OnOk result (lines.new ≡ all_changed lines.old (way_changes branches.now lines.old left.now entered.now)) }
    ensures shifts { OnOk result (shifts.new.items ≡ change_shifts lines.old (way_changes branches.now lines.old left.now entered.now)) }
    ensures list { IfOk result (λ list. MatchOption list (way_changes branches.now lines.old left.now entered.now ≡ [])
        (IsLeftBy lines.old (way_changes branches.now lines.old left.now entered.now))) }
    ensures broken { OnErr result (IsBehindSome (way_changes branches.now lines.old left.now entered.now) lines.old lines.new shifts.new.items) }
{
    let _stored = lines.len();
    let mut marks = Vec::new(alloc);
    go(lines, alloc, branches, left, entered, shifts, &mut marks)?;
    if marks.is_empty() {
        return Ok(None);
    }
    let list = list_left(alloc, marks.as_slice(), shifts.as_slice())?;
    Ok(Some(list))
}

/// Lets the parent of each node of a way have it as its heir, in the order of the way. Takes no memory.
pub(crate) fn remember(branches: &mut Vec<Branch>, left: &[u32], entered: &[u32])
    requires left { AreThere branches.old.items left.now }
    requires entered { AreThere (aimed_over branches.old.items left.now) entered.now }
    ensures items { branches.new.items ≡ aimed_over (aimed_over branches.old.items left.now) entered.now }
    ensures len { vec_len branches.new ≡ vec_len branches.old }
    ensures capacity { vec_capacity branches.new ≡ vec_capacity branches.old }
{
    aim(branches.as_mut_slice(), left);
    aim(branches.as_mut_slice(), entered);
}

// Lets the parent of each of these nodes have it as its heir, one after another.
fn aim(branches: &mut [Branch], nodes: &[u32])
    requires { AreThere branches.old nodes.now }
    ensures { branches.new ≡ aimed_over branches.old nodes.now }
{
    for node in nodes {
        let branch = &branches[*node as usize];
        let parent = branch.parent;
        let branch = &mut branches[parent as usize];
        branch.heir = Some(*node);
    }
}

// Goes a way, and adds the shift and the mark of each of its changes to lists.
fn go(
    lines: &mut Lines,
    alloc: Global,
    branches: &[Branch],
    left: &[u32],
    entered: &[u32],
    shifts: &mut Vec<Shift>,
    marks: &mut Vec<Sel>,
) -> Result<(), AllocError>
    requires { CanGoWay branches.now lines.old left.now entered.now }
    ensures ok { OnOk result (trace lines.new shifts.new.items marks.new.items
        ≡ trace_after (trace lines.old shifts.old.items marks.old.items) (way_changes branches.now lines.old left.now entered.now)) }
    ensures err { OnErr result (IsAfterSome (trace lines.old shifts.old.items marks.old.items)
        (way_changes branches.now lines.old left.now entered.now) (trace lines.new shifts.new.items marks.new.items)) }
{
    go_back(lines, alloc, branches, left, shifts, marks)?;
    go_on(lines, alloc, branches, entered, shifts, marks)
}

// Takes the changes of nodes back, one node after another, and adds the shift and the mark of each to lists.
fn go_back(
    lines: &mut Lines,
    alloc: Global,
    branches: &[Branch],
    nodes: &[u32],
    shifts: &mut Vec<Shift>,
    marks: &mut Vec<Sel>,
) -> Result<(), AllocError>
    requires { CanGoBack branches.now lines.old nodes.now }
    ensures ok { OnOk result (trace lines.new shifts.new.items marks.new.items
        ≡ trace_after (trace lines.old shifts.old.items marks.old.items) (back_over branches.now lines.old nodes.now)) }
    ensures err { OnErr result (IsAfterSome (trace lines.old shifts.old.items marks.old.items)
        (back_over branches.now lines.old nodes.now) (trace lines.new shifts.new.items marks.new.items)) }
{
    for node in nodes {
        let branch = &branches[*node as usize];
        take_all_back(lines, alloc, branch.changes.as_slice(), shifts, marks)?;
    }
    Ok(())
}

// Makes the changes of nodes, one node after another, and adds the shift and the mark of each to lists.
fn go_on(
    lines: &mut Lines,
    alloc: Global,
    branches: &[Branch],
    nodes: &[u32],
    shifts: &mut Vec<Shift>,
    marks: &mut Vec<Sel>,
) -> Result<(), AllocError>
    requires { CanGoForth branches.now lines.old nodes.now }
    ensures ok { OnOk result (trace lines.new shifts.new.items marks.new.items
        ≡ trace_after (trace lines.old shifts.old.items marks.old.items) (on_over branches.now lines.old nodes.now)) }
    ensures err { OnErr result (IsAfterSome (trace lines.old shifts.old.items marks.old.items)
        (on_over branches.now lines.old nodes.now) (trace lines.new shifts.new.items marks.new.items)) }
{
    for node in nodes {
        let branch = &branches[*node as usize];
        make_all(lines, alloc, branch.changes.as_slice(), shifts, marks)?;
    }
    Ok(())
}
