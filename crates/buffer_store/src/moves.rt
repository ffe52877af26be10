//! Moves in a buffer's history.

ghost use Rattle.std.specs.Prelude.{◌≡◌, ◌⊎◌, [], None, IfErr, IfOk, OnOk, OnErr};
ghost use Rattle.undo_model.specs.Moves.{target_of, moved_by, move_changes};
ghost use Rattle.buffer_store.specs.declared.errors.MoveError.TheVariants.{NoMemory};
ghost use Rattle.buffer_store.specs.Stored.{change_shifts};
ghost use Rattle.buffer_store.specs.Buffers.{refusal_of, AreLeftBy, IsRefusedMove, IsBroken};

use crate::buffer::Buffer;
use crate::errors::MoveError;
use kak_text::Shift;
use selection_set::Sels;
use std::alloc::Global;
use undo_model::Travel;

impl Buffer {
    /// Commits the pending group, whoever's it is, and goes to another node of the tree: up to the nearest common
    /// ancestor, and then down. It adds the shifts of the changes to an empty list, and gives the list of selections that
    /// they leave, or none where nothing was changed. Where there is no such node it is refused, by the name for that,
    /// and the group is committed still. After want of memory the text is as it is behind some of the single changes.
    pub fn travel(
        &mut self,
        alloc: Global,
        travel: Travel,
        shifts: &mut Vec<Shift>,
    ) -> Result<Option<Sels>, MoveError>
        requires { shifts.old.items ≡ [] }
        ensures ok { OnOk result (self.new ≡ moved_by travel self.old) }
        ensures shifts { OnOk result (shifts.new.items ≡ change_shifts self.old.text (move_changes travel self.old)) }
        ensures left { IfOk result (AreLeftBy self.old.text (move_changes travel self.old)) }
        ensures nowhere { target_of travel self.old ≡ None → IsRefusedMove travel result self.old self.new shifts.new.items }
        ensures refused { IfErr result (λ e. (e ≡ NoMemory) ⊎ (target_of travel self.old ≡ None)) }
        ensures broken { OnErr result (IsBroken (move_changes travel self.old) self.old self.new shifts.new.items) }
    {
        self.history.commit();
        // its contract says that this is a story, where each target is there
        self.history.is_story();
        let Some(node) = self.history.target(travel) else {
            return Err(refusal(travel));
        };
        let left = self.history.go_to(alloc, node, shifts)?;
        Ok(left)
    }
}

// Why a move leads nowhere.
fn refusal(travel: Travel) -> MoveError
    ensures { result ≡ refusal_of travel }
{
    match travel {
        Travel::Undo => MoveError::AtRoot,
        Travel::Redo => MoveError::NoChild,
        Travel::Node(node) => MoveError::NoNode(node),
    }
}
