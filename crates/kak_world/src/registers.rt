//! What the registers hold.

ghost use Rattle.std.specs.Prelude.{◌≡◌, OnOk, IsErrOf};
ghost use Rattle.kak_world.specs.declared.ask.EditError.TheVariants.{NoMemory};
ghost use Rattle.kak_world.specs.Flat.{registers_of};
ghost use Rattle.kak_world.specs.Registers.{with_register, set_row};
ghost use Rattle.kak_world.specs.Rows.{Answers};

use crate::ask::EditError;
use crate::turn::Turn;
use crate::world::World;
use byte_texts::Words;
use kak_registers::Registers;
use regex_ports::Pattern;

impl<P: Pattern, T: Turn> World<P, T> {
    /// What the registers hold.
    #[tactic(auto, unfolding(crate::specs::Flat::rest_of))]
    pub fn registers(&self) -> &Registers
        ensures { result.now ≡ registers_of self.now.flat }
    {
        &self.rest.registers
    }

    /// Has a register hold these strings, which are taken over. `NoSuchRegister`, `ReadOnlyRegister` and `RegisterFull`
    /// come where the register can't hold them, the first of these that holds; an error leaves the world.
    #[tactic(auto, unfolding(crate::specs::Flat::rest_of, crate::specs::Flat::with_rest, crate::specs::Registers::set_row))]
    pub fn set_register(&mut self, name: char, strings: Words) -> Result<(), EditError>
        ensures row { Answers result self.new.flat (set_row name strings self.old.flat) }
        ensures sets { OnOk result (self.new.flat ≡ with_register name strings self.old.flat) }
        ensures wanting { IsErrOf result NoMemory → self.new.flat ≡ self.old.flat }
    {
        match self.rest.registers.keep(name, strings) {
            Ok(()) => Ok(()),
            Err(error) => Err(EditError::from(error)),
        }
    }
}
