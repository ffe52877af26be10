//! What a client is told, told to its box.

ghost use Rattle.std.specs.Prelude.{◌≡◌, IfErr};
ghost use Rattle.ui_board.specs.Boards.{box_at, IsTaken};
ghost use Rattle.session_lines.specs.declared.playing.Stop.TheVariants.{NoMemory};
ghost use Rattle.session_lines.specs.Serving.{telling_bytes};
ghost use Rattle.session_lines.specs.Sending.{Tells};
ghost use Rattle.session_replay.specs.Boxes.{box_outlet, TellsOnly};

use session_lines::{Stop, Telling};
use std::alloc::Global;
use ui_board::{Board, Ui};

/// Tells the box at a seat that is taken what its client is told. An error is want of memory; then that box was told
/// nothing. All other seats have the very boxes that they had.
pub fn tell_box<U: Ui>(
    alloc: Global,
    board: &mut Board<U>,
    who: u32,
    telling: &Telling,
) -> Result<(), Stop>
    requires { IsTaken who board.old.seats.items }
    ensures tells { Tells result (box_outlet (box_at U.shown who board.old)) (box_outlet (box_at U.shown who board.new)) (telling_bytes telling.now) }
    ensures memory { IfErr result (λ why. why ≡ NoMemory) }
    ensures only { TellsOnly U.shown who board.old board.new }
{
    match telling {
        Telling::Nothing => Ok(()),
        Telling::Drawn(drawing) => {
            board.tell(alloc, who, drawing)?;
            Ok(())
        }
        Telling::Refused(refusal) => {
            board.refuse(alloc, who, *refusal)?;
            Ok(())
        }
    }
}
