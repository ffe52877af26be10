//! Moves of a history: the calls that reach its fields.

ghost use Rattle.std.specs.Prelude.{◌≡◌, ℕ, ◌<◌, [], ◌∷◌, length, None, OnOk, OnErr, IfOk, MatchOption, vec_len, vec_capacity};
ghost use Rattle.undo_model.specs.declared.travel.Travel.TheVariants.{Undo, Redo, Node};
ghost use Rattle.undo_model.specs.Stories.{went_to};
ghost use Rattle.undo_model.specs.Moves.{target_in};
ghost use Rattle.move_marks.specs.Marking.{IsLeftBy};
ghost use Rattle.buffer_store.specs.Stored.{change_shifts};
ghost use Rattle.buffer_store.specs.Laws.{first_branch};
ghost use Rattle.buffer_store.specs.Walks.{changes_from, IsBrokenOff};

use crate::history::{Branch, History, Pending};
use crate::walking::{remember, walk, way_between};
use kak_text::Shift;
use selection_set::Sels;
use std::alloc::{AllocError, Global};
use undo_model::Travel;

impl History {
    /// The node that a move leads to, where nothing is pending; none where there is no such node.
    pub(crate) fn target(&self, travel: Travel) -> Option<u32>
        ensures { result ≡ target_in travel self.now }
    {
        match travel {
            Travel::Undo => self.parent(),
            Travel::Redo => self.heir(),
            Travel::Node(node) => self.numbered(node),
        }
    }

    /// Goes to a node, where nothing is pending, adds the shifts of the changes to an empty list, and gives the list of
    /// selections that they leave, or none where nothing was changed. After want of memory before the first change nothing
    /// was changed; behind it the text is as it is behind some of the changes, and the history is forgotten.
    pub(crate) fn go_to(
        &mut self,
        alloc: Global,
        node: u32,
        shifts: &mut Vec<Shift>,
    ) -> Result<Option<Sels>, AllocError>
        requires none { self.old.group ≡ None }
        requires there { node < length self.old.nodes }
        requires empty { shifts.old.items ≡ [] }
        ensures story { OnOk result (self.new ≡ went_to node self.old) }
        ensures shifts { OnOk result (shifts.new.items ≡ change_shifts self.old.text (changes_from node self.old)) }
        ensures list { IfOk result (λ list. MatchOption list (changes_from node self.old ≡ []) (IsLeftBy self.old.text (changes_from node self.old))) }
        ensures broken { OnErr result (IsBrokenOff (changes_from node self.old) self.old self.new shifts.new.items) }
    {
        let way = way_between(alloc, self.branches.as_slice(), self.current, node)?;
        let left = way.left.as_slice();
        let entered = way.entered.as_slice();
        match walk(
            &mut self.lines,
            alloc,
            self.branches.as_slice(),
            left,
            entered,
            shifts,
        ) {
            Ok(list) => {
                remember(&mut self.branches, left, entered);
                self.current = node;
                Ok(list)
            }
            Err(e) => {
                if shifts.is_empty() {
                    return Err(e);
                }
                // its contract says that the text is one that can be kept
                let _stored = self.lines.len();
                cut_to_root(alloc, &mut self.branches);
                self.current = 0;
                self.saved = 0;
                self.pending = Some(Pending {
                    owner: 0,
                    changes: Vec::new(alloc),
                });
                Err(e)
            }
        }
    }

    // The parent of the current node; the root has none.
    fn parent(&self) -> Option<u32>
        ensures { result ≡ target_in Undo self.now }
    {
        if self.current == 0 {
            return None;
        }
        let branch = &self.branches[self.current as usize];
        Some(branch.parent)
    }

    // The heir of the current node.
    fn heir(&self) -> Option<u32>
        ensures { result ≡ target_in Redo self.now }
    {
        let branch = &self.branches[self.current as usize];
        branch.heir
    }

    // A number, where a node has it.
    fn numbered(&self, node: u32) -> Option<u32>
        ensures { result ≡ target_in (Node node) self.now }
    {
        if (node as usize) < self.branches.len() {
            return Some(node);
        }
        None
    }
}

// Leaves the root alone, without an heir. Takes no memory.
fn cut_to_root(alloc: Global, branches: &mut Vec<Branch>)
    requires { 0 < vec_len branches.old }
    ensures items { branches.new.items ≡ first_branch ∷ [] }
    ensures len { vec_len branches.new ≡ 1 }
    ensures capacity { vec_capacity branches.new ≡ vec_capacity branches.old }
{
    branches.clear();
    branches.push_reserved(Branch {
        parent: 0,
        heir: None,
        changes: Vec::new(alloc),
    });
}
